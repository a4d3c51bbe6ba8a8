//! The state from which each text runs.

ghost use Rattle.std.specs.Prelude.{◌≡◌, ◌≢◌, ◌<◌, IfSome};
ghost use Rattle.c62_op.specs.declared.register.Reg.{Reg as Register};
ghost use Rattle.c62_serial.specs.State.{word_in};
ghost use Rattle.c62_refusals.specs.Opening.{word_on, value_at, poked, IsOpening};

use c62_insn::{Reg, Side};
use c62_serial::State;
use std::alloc::Global;

/// The word of a register: on A4, from which words are loaded, it is aligned, and on B4 it is not.
fn word_on(side: Side, number: u8) -> u32
    ensures { result ≡ word_on side number }
{
    match side {
        Side::A => 9 * u32::from(number),
        Side::B => 9 * u32::from(number) + 5,
    }
}

/// Sets the register of this number on either side.
fn set_both(state: &mut State, number: u8)
    requires { number < 16 }
    ensures same { (reg : Register) → reg.number ≡ number → word_in state.new.machine reg ≡ word_on reg.side reg.number }
    ensures others { (reg : Register) → reg.number ≢ number → word_in state.new.machine reg ≡ word_in state.old.machine reg }
    ensures memory { state.new.machine.memory ≡ state.old.machine.memory }
    ensures faults { state.new.machine.faults ≡ state.old.machine.faults }
{
    // It tells how many registers there are.
    state.faults();
    let side = Side::A;
    state.set(Reg { side, number }, word_on(side, number));
    let side = Side::B;
    state.set(Reg { side, number }, word_on(side, number));
}

/// Sets each register.
fn set_registers(state: &mut State)
    ensures registers { (reg : Register) → word_in state.new.machine reg ≡ word_on reg.side reg.number }
    ensures memory { state.new.machine.memory ≡ state.old.machine.memory }
    ensures faults { state.new.machine.faults ≡ state.old.machine.faults }
{
    for number in 0..16u8 {
        set_both(state, number);
    }
}

/// Stores the word of an address there.
fn store_word(state: &mut State, address: u32)
    ensures { state.new ≡ record state.old { machine = poked address state.old.machine } }
{
    state.store_at(address, 4, address.wrapping_mul(1_000_003));
}

/// The state from which each text runs. `None` where memory was refused.
pub(crate) fn opening(alloc: Global) -> Option<State>
    ensures { IfSome result (λ state. IsOpening state.machine) }
{
    let Ok(mut state) = State::new(alloc) else {
        return None;
    };
    set_registers(&mut state);
    store_word(&mut state, 36);
    store_word(&mut state, 40);
    store_word(&mut state, 44);
    Some(state)
}
