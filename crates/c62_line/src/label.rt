//! Labels.

ghost use Rattle.std.specs.Prelude.{◌≡◌, ◌≤◌, ℕ, List, nat_eq, take, true, IsTrue};
ghost use Rattle.std.specs.Cmp.{partial_equiv_from_equiv};
ghost use Rattle.std.specs.Cmp.Lexicographic.{pointwise, nat_list_eq_equiv};
ghost use Rattle.c62_token.specs.Number.{is_label};

use std::marker::Model;

/// A label: at most 32 letters, digits, `_` and `$`, not beginning with a digit, that spell no register.
#[derive(Debug, Drop)]
pub struct Label {
    bytes: [u8; 32],
    len: usize,
}

impl Model for Label {
    ghost Value = { List ℕ };

    ghost view = { λ label. take label.len label.bytes };

    ghost invariant = { λ label. (label.len ≤ 32) × (is_label (take label.len label.bytes) ≡ true) };
}

impl Label {
    /// The label that this word is.
    pub fn new(word: &[u8]) -> Label
        requires { IsTrue (is_label word.now) }
        ensures { result ≡ word.now }
    {
        let mut bytes = [0; 32];
        bytes[..word.len()].copy_from_slice(word);
        Label {
            bytes,
            len: word.len(),
        }
    }

    /// The bytes of the label, which are ASCII.
    pub fn as_bytes(&self) -> &[u8]
        ensures same { result.now ≡ self.now }
        ensures label { IsTrue (is_label self.now) }
    {
        &self.bytes[..self.len]
    }

    /// The same label again.
    pub fn copy(&self) -> Label
        ensures { result ≡ self.now }
    {
        Label {
            bytes: self.bytes,
            len: self.len,
        }
    }
}

/// Labels are the same where they have the same bytes: their case counts.
impl PartialEq for Label {
    ghost eq = { pointwise nat_eq };

    ghost laws = { partial_equiv_from_equiv nat_list_eq_equiv };

    fn eq(&self, other: &Label) -> bool {
        self.as_bytes() == other.as_bytes()
    }
}

impl Eq for Label {
    ghost laws = { nat_list_eq_equiv };
}

/// The same label again, where there is one.
pub fn copied_label(label: &Option<Label>) -> Option<Label>
    ensures { result ≡ label.now }
{
    match label {
        Some(label) => Some(label.copy()),
        None => None,
    }
}
