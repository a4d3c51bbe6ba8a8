//! What sorts of tokens there are.

ghost use Rattle.std.specs.Prelude.{◌≡◌, codes};
ghost use Rattle.c62_token.specs.Number.{is_label, spells};
ghost use Rattle.c62_place.specs.Sort.{name_sort, sort_of, same_sort};

use c62_op::InstructionSet;
use c62_token::number::is_label;
use c62_token::{Kind, is_mark};

/// A token, where the grammar of operands tells it apart (docs/SERIAL_TEXT.md, "Grammar").
#[derive(Clone, Copy, PartialEq, Eq, Debug)]
pub enum Sort {
    Comma,
    Star,
    Open,
    Close,
    Not,
    Plus,
    Minus,
    Increment,
    Decrement,
    Register,
    Number,
    /// A name that may be a label.
    Label,
    /// `:`
    Colon,
    /// Any other token.
    Other,
}

fn name_sort(word: &[u8]) -> Sort
    ensures { result ≡ name_sort (is_label word.now) (spells (codes ":") word.now) }
{
    if is_label(word) {
        Sort::Label
    } else if is_mark(b':', word) {
        Sort::Colon
    } else {
        Sort::Other
    }
}

impl Sort {
    /// What sort of token these bytes are.
    #[tactic(auto, unfolding(crate::specs::Sort::sort_of))]
    pub fn of(isa: InstructionSet, word: &[u8]) -> Sort
        ensures { result ≡ sort_of isa word.now }
    {
        match Kind::of(word).read_in(isa) {
            Kind::Comma => Sort::Comma,
            Kind::Star => Sort::Star,
            Kind::Open => Sort::Open,
            Kind::Close => Sort::Close,
            Kind::Not => Sort::Not,
            Kind::Plus => Sort::Plus,
            Kind::Minus => Sort::Minus,
            Kind::Increment => Sort::Increment,
            Kind::Decrement => Sort::Decrement,
            Kind::Register(_) => Sort::Register,
            Kind::Number(_) => Sort::Number,
            Kind::Alias(_) | Kind::Suffixed(_) | Kind::Name => name_sort(word),
        }
    }

    /// Whether both are one sort.
    pub fn is_same(self, other: Sort) -> bool
        ensures { result ≡ same_sort self other }
    {
        self == other
    }
}
