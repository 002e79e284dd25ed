//! What several tests need.
//!
//! What a test knows to be there is got by a call that stops the test where it isn't: a `?` is proved anew wherever it stands.

ghost use Rattle.std.specs.Prelude.{◌≡◌, Ok};

use otp_file::read_tree;
use otp_reason::{Name, Reason, Text};
use otp_spec::{ChildSpec, SupSpec};
use std::alloc::Global;
use std::fmt::{Debug, Display};
use std::process::Abort;

/// What a try for memory gave.
pub(crate) fn got<T, E>(rt: &impl Abort, tried: Result<T, E>) -> T
    ensures { tried ≡ Ok result }
{
    match tried {
        Ok(value) => value,
        Err(_) => panic!(rt; "there is memory"),
    }
}

/// A name of at most 32 bytes.
pub(crate) fn named(rt: &impl Abort, bytes: &[u8]) -> Name {
    match Name::new(bytes) {
        Some(name) => name,
        None => panic!(rt; "a name of at most 32 bytes"),
    }
}

/// A child with this id, which is its start word too.
pub(crate) fn child(rt: &impl Abort, id: &[u8]) -> ChildSpec {
    let id = named(rt, id);
    ChildSpec::new(id, id)
}

/// The reason of a crash.
pub(crate) fn error() -> Reason {
    Reason::Error(Text::joined(b"x", b""))
}

/// Asserts that a value is the one that is wanted; `what` says in the message which assertion failed.
///
/// A test has this in the place of `assert_eq!`, which is proved anew wherever it stands: it takes ten times as long as a call.
pub(crate) fn same<T: PartialEq + Debug + Copy>(rt: &impl Abort, what: &str, value: T, wanted: T) {
    assert_eq!(rt; value, wanted, "{what}");
}

/// Asserts that a value is printed so.
pub(crate) fn prints<T: Display>(rt: &impl Abort, alloc: Global, value: &T, text: &str) {
    let printed = got(rt, format!(in alloc; "{value}"));
    same(rt, "a printed text", printed.as_str(), text);
    drop(printed);
}

/// Appends a number, with what stands before it and behind it.
pub(crate) fn write_numbered(
    rt: &impl Abort,
    text: &mut String,
    before: &str,
    number: u64,
    behind: &str,
) {
    let made = got(
        rt,
        format!(in *text.allocator(); "{before}{number}{behind}"),
    );
    got(rt, text.push_str(made.as_str()));
    drop(made);
}

/// Asserts that what is told of a text holds; the message has the text.
pub(crate) fn holds_of(rt: &impl Abort, text: &[u8], holds: bool) {
    assert!(rt; holds, "{}", text.escape_ascii());
}

/// The supervisor of a tree file that has no tree below it.
pub(crate) fn supervisor_of(rt: &impl Abort, alloc: Global, file: &str) -> SupSpec {
    let tree = got(rt, read_tree(alloc, file.as_bytes()));
    let (supervisor, nested, trees) = tree.into_parts();
    drop(nested);
    drop(trees);
    supervisor
}
