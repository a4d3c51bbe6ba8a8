//! Laws of the operations, as SPRU189 words them. The functions do nothing: what each ensures is a law,
//! proved of the definitions that all other contracts cite.

ghost use Rattle.std.specs.Prelude.{◌≡◌, ℕ, ◌<◌, ◌≤◌, ◌%◌, ◌^◌};
ghost use Rattle.c62_op.specs.declared.operands.Op.{Op as Operation};
ghost use Rattle.c62_op.specs.Table.{all_operations};
ghost use Rattle.c62_op.specs.Laws.{StandsOnce, HasDelayOfKind, MovesBase, Mirrors, TakesBack, HasRangesOfBits, AddsHalves, ShiftsOut, StaysInSet};
ghost use Rattle.c62_op.specs.declared.register.Unit.{Unit as FunctionalUnit};
ghost use Rattle.c62_op.specs.declared.operands.Operands.{Operands as OperandList};
ghost use Rattle.c62_op.specs.declared.set.InstructionSet.{InstructionSet};

use crate::operands::Op;

/// Each operation stands in the instruction table once, and has a name of its own; [`Op::ALL`](crate::Op::ALL) is
/// the table's order.
pub fn lists_each_operation()
    ensures all { Op.ALL ≡ all_operations }
    ensures once { (op : Operation) → StandsOnce op }
{}

/// Multiplies, which are what runs on .M, have one delay slot, loads four, the branch five, and all others none.
pub fn has_delay_of_kind()
    ensures { (op : Operation) → HasDelayOfKind op }
{}

/// A post form's address is the old base, a pre form's the new one; up and down again gives the base back.
pub fn moves_base()
    ensures { (base distance : ℕ) → base < 2 ^ 32 → distance < 2 ^ 32 → MovesBase base distance }
{}

/// CMPGT and CMPLT, CMPGTU and CMPLTU, MPYHL and MPYLH, MPYUS and MPYSU are one operation each, with the sources exchanged, and so
/// are SMPYHL and SMPYLH, MPYHLU and MPYLHU, MPYHUS and MPYHSU, MPYHULS and MPYLSHU, MPYHSLU and MPYLUHS.
pub fn mirrors()
    ensures { (a b : ℕ) → Mirrors a b }
{}

/// SUBAB, SUBAH and SUBAW take back what ADDAB, ADDAH and ADDAW added.
#[tactic(auto, using(crate::proofs::KindLemmas::taken_back))]
pub fn takes_back()
    ensures { (base offset : ℕ) → base < 2 ^ 32 → offset < 2 ^ 32 → TakesBack base offset }
{}

/// The ranges of constants are the numbers of 4, 5, 15 and 16 bits, signed and unsigned.
pub fn has_ranges_of_bits()
    ensures { HasRangesOfBits }
{}

/// ADD2 has no carry between the halves.
pub fn adds_halves()
    ensures { (a b : ℕ) → a < 2 ^ 32 → b < 2 ^ 32 → AddsHalves a b }
{}

/// SHL and SHRU by 32 or more give 0, SHR the sign in all bits.
pub fn shifts_out()
    ensures { (v count : ℕ) → v < 2 ^ 32 → 32 ≤ count % 2 ^ 6 → ShiftsOut v count }
{}

/// A unit that takes operands takes them by a form of each set by which some unit does: no instruction of the core runs on another
/// unit where the full set is asked for.
#[tactic(auto, using(crate::proofs::CoreLemmas::core_stays))]
pub fn stays_in_set()
    ensures { (isa : InstructionSet) (op : Operation) (operands : OperandList) (unit : FunctionalUnit) → StaysInSet isa op operands unit }
{}
