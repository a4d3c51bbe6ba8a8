//! What a load or store accesses, and by which register.

ghost use Rattle.std.specs.Prelude.{◌≡◌, IsTrue, IfSome, Some, None};
ghost use Rattle.c62_insn.specs.Insn.{operands_of};
ghost use Rattle.c62_apart.specs.Touch.{base_in, is_among};
ghost use Rattle.c62_serial.specs.Memory.{is_size, place_in};
ghost use Rattle.c62_serial.specs.Serial.{act_in};

use c62_insn::{Access, Action, Insn, Operands, Reg};
use c62_read::SerialInsn;
use c62_serial::State;

/// The base of a load or store.
pub(crate) fn base_of(insn: &Insn) -> Option<Reg>
    ensures { result ≡ base_in (operands_of insn.now) }
{
    match insn.operands() {
        Operands::Access { base, .. } => Some(base),
        _ => None,
    }
}

/// Whether a register is one of these.
pub(crate) fn is_among(regs: &[Reg], reg: Reg) -> bool
    ensures { result ≡ is_among regs.now reg }
{
    regs.iter().any(|one| *one == reg)
}

/// The access with its place for its address.
fn placed(access: Access, state: &State) -> Access
    ensures { result ≡ record access { address = place_in state.now.machine access.address } }
{
    Access {
        address: state.place(access.address),
        size: access.size,
        value: access.value,
    }
}

/// The access that an instruction makes on this state, by its place.
pub(crate) fn access_of(entry: &SerialInsn, state: &State) -> Option<Access>
    ensures is { result ≡ (act_in state.now.machine entry.now).access }
    ensures size { IfSome result (λ access. IsTrue (is_size access.size)) }
{
    match entry.insn.action(state.registers())? {
        Action::Transfer(transfer) => Some(placed(transfer.access, state)),
        Action::Write(_, _) | Action::Branch(_) => None,
    }
}
