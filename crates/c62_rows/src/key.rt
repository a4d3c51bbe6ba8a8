//! Labels as keys of tables.

ghost use Rattle.std.specs.Prelude.{◌≡◌, ℕ, List, nat_eq};
ghost use Rattle.std.specs.Cmp.{partial_equiv_from_equiv};
ghost use Rattle.std.specs.Cmp.Lexicographic.{pointwise, nat_list_eq_equiv};
ghost use Rattle.std.specs.Cmp.Rules.{hashing};
ghost use Rattle.std.specs.Hash as fed;
ghost use Rattle.std.proofs.Common.{rules};

use c62_line::Label;
use std::hash::{Hash, Hasher};
use std::marker::Model;

/// A label by which a table is looked up.
#[derive(Drop)]
pub struct Key {
    label: Label,
}

impl Model for Key {
    ghost Value = { List ℕ };

    ghost view = { λ key. key.label };
}

impl Key {
    /// The key of a label.
    pub fn new(label: Label) -> Key
        ensures { result ≡ label }
    {
        Key { label }
    }

    /// The label's bytes.
    pub fn as_bytes(&self) -> &[u8]
        ensures { result.now ≡ self.now }
    {
        self.label.as_bytes()
    }
}

impl PartialEq for Key {
    ghost eq = { pointwise nat_eq };

    ghost laws = { partial_equiv_from_equiv nat_list_eq_equiv };

    fn eq(&self, other: &Key) -> bool {
        self.label.as_bytes() == other.label.as_bytes()
    }
}

impl Eq for Key {
    ghost laws = { nat_list_eq_equiv };
}

impl Hash for Key {
    ghost hash_input = { λ key. fed.slice fed.u8 key };

    ghost respects_eq = { Prim.search (hashing, rules) };

    fn hash<H: Hasher>(&self, state: &mut H) {
        self.label.as_bytes().hash(state);
    }
}
