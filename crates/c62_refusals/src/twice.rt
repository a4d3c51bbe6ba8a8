//! A call that is made again where memory was refused.

ghost use Rattle.std.specs.Fn.{FnReturnsAt};
ghost use Rattle.c62_refusals.specs.Twice.{FnReturnsAtMut, CameOf};

use crate::seen::{Seen, look_at};

/// What came of a call.
#[derive(Clone, Copy)]
pub(crate) enum Came {
    /// It answered this.
    Answer(u64),
    /// It was refused memory, all looked as before, and made again it answered this.
    Again(u64),
    /// It was refused memory twice, and all looked as before.
    Memory,
    /// It was refused memory, once or twice, and something looked different.
    Changed,
}

/// What a value looks like.
fn looked<T, L: Fn(&T) -> u64>(look: &L, value: &T) -> u64
    requires { L.IsAlwaysCallable look.now }
    ensures { FnReturnsAt L.Fn look.now value.now result }
{
    look(value)
}

/// What a call on a value answers.
fn called<T, F: Fn(&mut T) -> Option<u64>>(call: &F, value: &mut T) -> Option<u64>
    requires { F.IsAlwaysCallable call.now }
    ensures { FnReturnsAtMut F.Fn call.now value.old result value.new }
{
    call(value)
}

/// Makes a call on a value, and again where it answers `None`, by which it says that it was refused memory. After each refusal the
/// value must look as before.
pub(crate) fn twice_on<T, L: Fn(&T) -> u64, F: Fn(&mut T) -> Option<u64>>(
    value: &mut T,
    look: &L,
    call: &F,
) -> Came
    requires look { L.IsAlwaysCallable look.now }
    requires call { F.IsAlwaysCallable call.now }
    ensures { CameOf (FnReturnsAt L.Fn look.now) (FnReturnsAtMut F.Fn call.now) value.old value.new result }
{
    let before = looked(look, value);
    match called(call, value) {
        Some(answer) => return Came::Answer(answer),
        None => {}
    }
    if looked(look, value) != before {
        return Came::Changed;
    }
    match called(call, value) {
        Some(answer) => return Came::Again(answer),
        None => {}
    }
    if looked(look, value) == before {
        Came::Memory
    } else {
        Came::Changed
    }
}

/// What comes of a call on a value that is then dropped. All that is seen of it must be as before.
pub(crate) fn twice<T: Seen + Drop, F: Fn(&mut T) -> Option<u64>>(
    mut value: T,
    call: F,
) -> Option<Came>
    requires { F.IsAlwaysCallable call }
{
    Some(twice_on(&mut value, &|seen| look_at(seen), &call))
}
