//! Whether two blocks are equal.

ghost use Rattle.std.specs.Prelude.{◌≡◌, ◌↔◌, IsTrue};
ghost use Rattle.std.specs.Option.{option_copied};

use c62_read::{Block, Label, SerialInsn};

fn is_same_entry(a: &SerialInsn, b: &SerialInsn) -> bool
    ensures { IsTrue result ↔ (a.now ≡ b.now) }
{
    a.line == b.line && a.insn.same(&b.insn)
}

/// Whether both have the same instructions with the same lines.
fn are_same_entries(a: &[SerialInsn], b: &[SerialInsn]) -> bool
    ensures { IsTrue result ↔ (a.now ≡ b.now) }
{
    match (a, b) {
        ([], []) => true,
        ([x, xs @ ..], [y, ys @ ..]) => is_same_entry(x, y) && are_same_entries(xs, ys),
        ([], [_, ..]) | ([_, ..], []) => false,
    }
}

fn is_same_label(a: Option<&Label>, b: Option<&Label>) -> bool
    ensures { IsTrue result ↔ (option_copied a.entry ≡ option_copied b.entry) }
{
    match (a, b) {
        (Some(a), Some(b)) => a.as_bytes() == b.as_bytes(),
        (None, None) => true,
        _ => false,
    }
}

/// Whether both have the same label, instructions and lines.
pub(crate) fn is_same_block(a: &Block, b: &Block) -> bool
    ensures { IsTrue result ↔ (a.now ≡ b.now) }
{
    is_same_label(a.label(), b.label()) && are_same_entries(a.insns(), b.insns())
}
