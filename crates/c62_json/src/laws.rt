//! Laws of the definitions. The function does nothing: what it ensures are laws.

ghost use Rattle.std.specs.Prelude.{◌≡◌, ℕ, List, IsAscii};
ghost use Rattle.json.specs.Token.{Token, key, string};
ghost use Rattle.json.specs.Lex.{tokens};
ghost use Rattle.json.specs.Print.{print, ArePrintable};
ghost use Rattle.c62_json.specs.Document.{key_of, text};

/// A text of ASCII stands in a document as it is.
#[tactic(auto, using(crate::proofs::Texts::text_stands, crate::proofs::Texts::key_stands))]
pub fn ascii_stands()
    ensures text { (bytes : List ℕ) → IsAscii bytes → text bytes ≡ string bytes }
    ensures key { (bytes : List ℕ) → IsAscii bytes → key_of bytes ≡ key bytes }
{}
