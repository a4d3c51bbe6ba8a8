//! Laws of texts whose labels have another byte in the place of their dot.

ghost use Rattle.std.specs.Prelude.{ℕ, List};
ghost use Rattle.c62_gnu_labels.specs.Labels.{relabelled};
ghost use Rattle.c62_gnu_labels.specs.Laws.{AreBytesKept, NamesComeBack, StaysWithout};

/// Two labels become one name only where they were the same, and no other word of the text has such a name.
#[tactic(auto, using(crate::proofs::Names::names_back))]
pub fn names_come_back()
    ensures { (text : List ℕ) → NamesComeBack text }
{}

/// Lines and columns stay: each byte is what it was, or the byte of a word in the place of a dot.
#[tactic(auto, using(crate::proofs::Names::bytes_kept))]
pub fn lines_stay()
    ensures { (text : List ℕ) → AreBytesKept text (relabelled text) }
{}

/// A text without such labels stays as it is.
#[tactic(auto, using(crate::proofs::Names::stays))]
pub fn texts_without_them_stay()
    ensures { (text : List ℕ) → StaysWithout text }
{}
