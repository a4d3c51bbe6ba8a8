//! The bytes that an access covers (docs/MACHINE.md, "Dependences").

ghost use Rattle.std.specs.Prelude.{◌≡◌, ◌≤◌, ◌+◌, ◌*◌, option_map};
ghost use Rattle.c62_rules.specs.Dependence.{begin_of};

use c62_insn::{AddressForm, Insn, Offset, Operands, Reg};

/// The bytes that an access with a constant offset covers, counted from 131,068 bytes before its base: no offset reaches
/// farther.
#[derive(Clone, Copy)]
pub struct Covered {
    pub base: Reg,
    begin: u32,
    size: u8,
    pub ghost near: { begin + size ≤ 262140 },
}

/// Where the bytes begin, of the offset in bytes.
fn begin_of(form: AddressForm, offset: u32) -> u32
    requires { offset ≤ 131068 }
    ensures begin { result ≡ begin_of form offset }
    ensures near { result ≤ 262136 }
{
    match form {
        AddressForm::Plus | AddressForm::PreIncrement => 131_068 + offset,
        AddressForm::Minus | AddressForm::PreDecrement => 131_068 - offset,
        AddressForm::PostIncrement | AddressForm::PostDecrement => 131_068,
    }
}

impl Covered {
    ghost use Rattle.c62_insn.specs.Insn.{op_of, operands_of};
    ghost use Rattle.c62_rules.specs.Dependence.{range_of, are_apart};
    ghost use Rattle.c62_pair.specs.Covered.{range_is};

    /// The bytes that an instruction accesses from a base at a constant offset, where it does.
    pub fn by(insn: Insn) -> Option<Covered>
        ensures { option_map range_is result ≡ range_of (op_of insn) (operands_of insn) }
    {
        match insn.operands() {
            Operands::Access {
                base,
                form,
                offset: Offset::Constant(k),
                ..
            } => {
                let size = insn.op().size();
                let begin = begin_of(form, (k.unsigned_abs() * u64::from(size)) as u32);
                Some(Covered { base, begin, size })
            }
            _ => None,
        }
    }

    /// The first byte behind them.
    fn end(self) -> u32
        ensures { result ≡ self.begin + self.size }
    {
        self.begin + u32::from(self.size)
    }

    /// Whether both lie at one base, and do not meet.
    pub fn is_apart(self, other: Covered) -> bool
        ensures { result ≡ are_apart (range_is self) (range_is other) }
    {
        self.base == other.base && (self.end() <= other.begin || other.end() <= self.begin)
    }
}
