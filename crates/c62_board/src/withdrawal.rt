//! What is withdrawn with an instruction.

ghost use Rattle.std.specs.Prelude.{◌≡◌, ◌↔◌, ◌+◌, ◌++◌, ◌<◌, ◌≤◌, IsTrue, IsSome, length, take, vec_capacity};
ghost use Rattle.smallvec.specs.SmallVec.{HasRoomFor};
ghost use Rattle.c62_depend.specs.Plan.{insns_of};
ghost use Rattle.c62_sheet.specs.Lawful.{spot_at};
ghost use Rattle.c62_sheet.specs.Chain.{IsMarked};
ghost use Rattle.c62_sheet.specs.declared.entry.Who.{Who as WhoOf};
ghost use Rattle.c62_board.specs.Withdrawal.{MarksGoing, HasRoomForMarked, TakesOut, IsLeft, left_at, marked_below, withdrawals};

use c62_sheet::{Chained, Entry, Sheet, Spot, Who, led_from};
use smallvec::SmallVec;

/// Whether instruction `j` is marked and placed.
fn is_marked_and_placed(sheet: &Sheet, marks: &[bool], j: u16) -> bool
    requires in_plan { j < length sheet.now.plan.insns }
    requires room { j < length marks.now }
    ensures { IsTrue result ↔ (IsMarked marks.now j × IsSome (spot_at sheet.now.spots j)) }
{
    marks[j as usize] && sheet.spot_of(j).is_some()
}

/// Marks what goes with instruction `i`.
pub(crate) fn going_with(sheet: &Sheet, i: u16) -> Chained
    requires { i < length sheet.now.plan.insns }
    ensures { MarksGoing (insns_of sheet.now.plan) sheet.now.spots i result }
{
    let plan = sheet.plan();
    let n = plan.len();
    let mut marks = led_from(plan, i);
    for j in 0..n {
        marks[j as usize] = is_marked_and_placed(sheet, &marks, j);
    }
    marks
}

/// How many numbers below `n` are marked.
pub(crate) fn count_marked(marks: &[bool], n: u16) -> u16
    requires { n ≤ length marks.now }
    ensures { result ≡ marked_below marks.now n }
{
    let mut count = 0;
    for k in 0..n {
        count += u16::from(marks[k as usize]);
    }
    count
}

/// Writes the withdrawals of the marked numbers below `n`, highest first, into a journal that has room.
fn write_marked(journal: &mut Vec<Entry>, marks: &[bool], n: u16, who: Who)
    requires many { n ≤ length marks.now }
    requires room { HasRoomForMarked journal.old marks.now n }
    ensures entries { journal.new.items ≡ journal.old.items ++ withdrawals marks.now who n }
    ensures room { vec_capacity journal.old ≤ vec_capacity journal.new }
{
    for j in (0..n).rev() {
        if marks[j as usize] {
            let Ok(()) = journal.push(Entry::Withdraw(j, who)) else {
                unreachable!()
            };
        }
    }
}

/// Writes the withdrawals of the marked numbers below `n`, highest first, into a list that has room.
pub(crate) fn list_marked(entries: &mut SmallVec<Entry, 4>, marks: &[bool], n: u16, who: Who)
    requires many { n ≤ length marks.now }
    requires room { HasRoomFor entries.old (marked_below marks.now n + 1) }
    ensures entries { entries.new.items ≡ entries.old.items ++ withdrawals marks.now who n }
    ensures room { HasRoomFor entries.new 1 }
{
    for j in (0..n).rev() {
        if marks[j as usize] {
            entries.push_reserved(Entry::Withdraw(j, who));
        }
    }
}

/// Where instruction `k` stands once what is marked is out.
fn spot_left(sheet: &Sheet, marks: &[bool], k: u16) -> Option<Spot>
    requires in_plan { k < length sheet.now.plan.insns }
    requires many { length sheet.now.plan.insns ≤ length marks.now }
    ensures { result ≡ left_at marks.now sheet.now.spots k }
{
    if marks[k as usize] {
        None
    } else {
        sheet.spot_of(k)
    }
}

/// Copies the placements without what goes with instruction `i`, which is marked.
pub(crate) fn copy_left(sheet: &Sheet, marks: &[bool], i: u16, rest: &mut [Option<Spot>])
    requires marked { MarksGoing (insns_of sheet.now.plan) sheet.now.spots i marks.now }
    requires many { length sheet.now.plan.insns ≤ length marks.now }
    requires room { length sheet.now.plan.insns ≤ length rest.old }
    ensures { (who : WhoOf) → IsLeft (insns_of sheet.now.plan) sheet.now.spots i who (take (length sheet.now.plan.insns) rest.new) }
{
    for k in 0..sheet.plan().len() {
        rest[k as usize] = spot_left(sheet, marks, k);
    }
}

/// Takes out the marked instructions, highest first.
pub(crate) fn leave_out(sheet: &mut Sheet, marks: &[bool], i: u16)
    requires marked { MarksGoing (insns_of sheet.old.plan) sheet.old.spots i marks.now }
    requires many { length sheet.old.plan.insns ≤ length marks.now }
    ensures plan { sheet.new.plan ≡ sheet.old.plan }
    ensures left { (who : WhoOf) → IsLeft (insns_of sheet.old.plan) sheet.old.spots i who sheet.new.spots }
{
    for j in (0..sheet.plan().len()).rev() {
        if marks[j as usize] {
            sheet.take_out(j);
        }
    }
}

/// Takes out the marked instructions, highest first, and writes it into a journal that has room.
pub(crate) fn take_out_marked(
    sheet: &mut Sheet,
    journal: &mut Vec<Entry>,
    marks: &[bool],
    i: u16,
    who: Who,
)
    requires marked { MarksGoing (insns_of sheet.old.plan) sheet.old.spots i marks.now }
    requires many { length sheet.old.plan.insns ≤ length marks.now }
    requires room { HasRoomForMarked journal.old marks.now (length sheet.old.plan.insns) }
    ensures { TakesOut sheet.old journal.old i who sheet.new journal.new }
{
    write_marked(journal, marks, sheet.plan().len(), who);
    leave_out(sheet, marks, i);
}
