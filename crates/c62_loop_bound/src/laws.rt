//! The law of the least interval. The function does nothing: what it ensures is the law, proved of the definitions that other
//! contracts cite.

ghost use Rattle.std.specs.Prelude.{ℕ};
ghost use Rattle.c62_loop.specs.Loop.{Region};
ghost use Rattle.c62_loop_match.specs.declared.promise.Promise.{Promise};
ghost use Rattle.c62_loop_bound.specs.Least.{NoIntervalIsShorter};

/// Whatever packets pipeline a loop, in rows that a text of packets may have: no fewer cycles lie between two passes of their kernel than
/// a share of a cycle asks for, or a circle of dependences.
pub fn no_interval_is_shorter()
    ensures { (promise : Promise) (region : Region) (cycles : ℕ) → NoIntervalIsShorter promise region cycles }
{}
