//! A serial run whose accesses are looked at.

ghost use Rattle.std.specs.Prelude.{◌≡◌, ◌++◌, length, IfOk, OnOk};
ghost use Rattle.c62_apart.specs.Touch.{parted};
ghost use Rattle.c62_serial.specs.Serial.{serial};
ghost use Rattle.c62_serial.specs.declared.state.TheConstants.{MEMORY_BYTES as bytes};
ghost use Rattle.c62_apart.specs.Marks.{Sees};
ghost use Rattle.c62_apart.specs.Met.{FindsMeetings};
ghost use Rattle.c62_apart.specs.Touch.{later_exit, touches_in};

use crate::marks::{Meeting, Watch};
use crate::parts::all_parted;
use crate::touch::{Touch, push_touches};
use crate::visit::{Visit, first_visit, next_visit};
use c62_insn::Reg;
use c62_read::{Block, Program};
use c62_serial::{Exit, State, run_block};
use std::alloc::{AllocError, Global};

/// The exit behind one more instruction, which goes on with the next one or takes this one.
fn later_exit(before: Exit, taken: Exit) -> Exit
    ensures { result ≡ later_exit before taken }
{
    match taken {
        Exit::Next => before,
        taken => taken,
    }
}

/// Runs a block of one instruction, behind others of which the run goes on there. Answers where it goes on now.
fn run_one(part: &Block, before: Exit, state: &mut State) -> Result<Exit, AllocError>
    ensures machine { IfOk result (λ _. state.new.machine ≡ (serial part.now.insns state.old.machine).machine) }
    ensures exit { IfOk result (λ exit. exit ≡ later_exit before (serial part.now.insns state.old.machine).exit) }
{
    let taken = run_block(part, state)?;
    Ok(later_exit(before, taken))
}

/// Runs a block, and adds what its instructions touch. Answers where it goes on.
fn run_touching(
    block: &Block,
    parts: &[Block],
    regs: &[Reg],
    visit: Visit,
    state: &mut State,
    touches: &mut Vec<Touch>,
) -> Result<Exit, AllocError>
    requires { parts.now ≡ parted block.now }
    ensures machine { IfOk result (λ _. state.new.machine ≡ (serial block.now.insns state.old.machine).machine) }
    ensures exit { IfOk result (λ exit. exit ≡ (serial block.now.insns state.old.machine).exit) }
    ensures touches { IfOk result (λ _. touches.new.items ≡ touches.old.items ++ touches_in regs.now visit state.old.machine block.now.insns) }
{
    let mut exit = Exit::Next;
    let insns = block.insns();
    for index in 0..insns.len() {
        push_touches(touches, regs, visit, &insns[index], state)?;
        exit = run_one(&parts[index], exit, state)?;
    }
    Ok(exit)
}

/// Runs a block, and looks at what it touches. Answers where it goes on.
fn run_watched(
    alloc: Global,
    block: &Block,
    parts: &[Block],
    regs: &[Reg],
    visit: Visit,
    state: &mut State,
    watch: &mut Watch,
) -> Result<Exit, AllocError>
    requires parts { parts.now ≡ parted block.now }
    requires size { length watch.old.marks.items ≡ bytes }
    ensures machine { IfOk result (λ _. state.new.machine ≡ (serial block.now.insns state.old.machine).machine) }
    ensures exit { IfOk result (λ exit. exit ≡ (serial block.now.insns state.old.machine).exit) }
    ensures size { IfOk result (λ _. length watch.new.marks.items ≡ bytes) }
    ensures sees { IfOk result (λ _. Sees visit.stay (touches_in regs.now visit state.old.machine block.now.insns) watch.old.marks.items watch.old.met.items watch.new.marks.items watch.new.met.items) }
{
    let mut touches = Vec::new(alloc);
    let exit = run_touching(block, parts, regs, visit, state, &mut touches)?;
    watch.see_all(visit.stay, &touches)?;
    Ok(exit)
}

/// The meetings of a program's run, where it is run serially from this state for so many blocks at most: accesses from two of these
/// registers that touch one byte in two iterations of a loop (docs/CHECK.md, "A run that is looked at"). Of each later line the first meeting
/// is told, in the order in which they come.
///
/// # Errors
///
/// `AllocError` where memory ran out.
pub fn meetings_of(
    alloc: Global,
    program: &Program,
    regs: &[Reg],
    state: &mut State,
    limit: u32,
) -> Result<Vec<Meeting>, AllocError>
    ensures { IfOk result (λ met. FindsMeetings program.now regs.now state.old.machine limit met.items) }
{
    let all = program.blocks();
    let parts = all_parted(alloc, all)?;
    let mut watch = Watch::new(alloc)?;
    let mut visit = first_visit(all.len());
    let mut number = 0;
    let mut blocks = 0;
    while number < all.len() && blocks < limit {
        visit = next_visit(all, visit, number);
        let block = &all[number];
        let exit = run_watched(alloc, block, &parts[number], regs, visit, state, &mut watch)?;
        blocks += 1;
        number = match exit {
            Exit::Next => number + 1,
            Exit::Block(target) => usize::from(target),
            Exit::Register(_) => return Ok(watch.met),
        };
    }
    Ok(watch.met)
}
