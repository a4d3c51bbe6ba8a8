//! Laws of text in a page. The functions do nothing: what each ensures is a law.

ghost use Rattle.std.specs.Prelude.{ℕ, List};
ghost use Rattle.c62_markup.specs.Page.{Piece};
ghost use Rattle.c62_markup.specs.Laws.{AnglesAreOwn, IsRead, OpensNothing};

/// No byte of a text, as a page has it, begins or ends a tag, or ends the value of an attribute.
pub fn texts_open_nothing()
    ensures { (text : List ℕ) → OpensNothing text }
{}

/// A reader of the page reads the text that was written.
#[tactic(auto, using(crate::proofs::Escaped::is_read))]
pub fn texts_are_read()
    ensures { (text : List ℕ) → IsRead text }
{}

/// Each `<` and each `>` of a page is the page's own: no text puts an element into it, or ends one.
#[tactic(auto, using(crate::proofs::Pages::angles_are_own))]
pub fn pages_have_their_own_elements()
    ensures { (pieces : List Piece) → AnglesAreOwn pieces }
{}
