//! What several tests need.

ghost use Rattle.std.specs.Prelude.{◌≡◌, Ok};

use std::fmt::Debug;
use std::process::Abort;

/// Asserts that a value is the one that is wanted; `what` says in the message which assertion failed.
///
/// A test has this in the place of `assert_eq!`, which is proved anew wherever it stands: it takes ten times as long as a call.
/// Where what follows builds on the equation, `assert!` stands.
pub(crate) fn same<T: PartialEq + Debug + Copy>(rt: &impl Abort, what: &str, value: T, wanted: T) {
    assert_eq!(rt; value, wanted, "{what}");
}

/// What a test says that stops for want of memory.
pub(crate) const MEMORY: &str = "memory was refused";

/// What a try gave. Where it failed the test stops, with these words: so no test has an exit beside what it holds.
pub(crate) fn got<T, E>(rt: &impl Abort, what: &str, tried: Result<T, E>) -> T
    ensures { tried ≡ Ok result }
{
    match tried {
        Ok(value) => value,
        Err(_) => panic!(rt; "{what}"),
    }
}
