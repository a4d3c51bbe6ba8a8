//! What the tests ask of values. A call is proved in less time than `assert_eq!` in its place.

ghost use Rattle.std.specs.Prelude.{IsTrue};

use std::fmt::Debug;
use std::process::Abort;

/// Ends the test where the two differ, and tells both.
pub(crate) fn equal<T: PartialEq + Debug>(rt: &impl Abort, got: &T, wanted: &T)
    ensures { IsTrue (T.eq got.now wanted.now) }
{
    assert_eq!(rt; *got, *wanted);
}

/// Ends the test where the two differ, and tells both, and of which row of a table they are.
pub(crate) fn equal_in<R: Debug, T: PartialEq + Debug>(
    rt: &impl Abort,
    row: &R,
    got: &T,
    wanted: &T,
)
    ensures { IsTrue (T.eq got.now wanted.now) }
{
    assert_eq!(rt; *got, *wanted, "{row:?}");
}
