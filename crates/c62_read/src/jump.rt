//! Branches to labels that may stand further down.

ghost use Rattle.std.specs.Prelude.{◌≡◌, ◌∷◌, [], IsTrue};
ghost use Rattle.c62_read.specs.Jump.{key_of};
ghost use Rattle.c62_token.specs.Number.{is_label};

use c62_line::Label;

/// A line, and the label that it branches to.
#[derive(Drop)]
pub(crate) struct Jump {
    pub line: u32,
    pub target: Label,
    key: u64,
    pub ghost keyed: { key ≡ key_of target },
}

/// A number by which labels are told apart fast: their last eight bytes.
pub(crate) fn key_of(label: &[u8]) -> u64
    ensures { result ≡ key_of label.now }
{
    let mut key: u64 = 0;
    for byte in label {
        key = key.wrapping_mul(256).wrapping_add(u64::from(*byte));
    }
    key
}

impl Jump {
    ghost use Rattle.c62_read.specs.Program.{is_among};
    ghost use Rattle.c62_read.specs.Walk.{asked_of};

    pub(crate) fn new(line: u32, target: &[u8]) -> Jump
        requires { IsTrue (is_label target.now) }
        ensures { asked_of result ≡ record { line = line; target = target.now } }
    {
        Jump {
            line,
            target: Label::new(target),
            key: key_of(target),
        }
    }

    /// Whether the branch goes to this label, which has this key.
    pub(crate) fn goes_to(&self, key: u64, label: &[u8]) -> bool
        requires { key ≡ key_of label.now }
        ensures { result ≡ is_among self.now.target (label.now ∷ []) }
    {
        self.key == key && label == self.target.as_bytes()
    }
}
