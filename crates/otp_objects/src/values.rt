//! Values of a specification, as JSON has them.

ghost use Rattle.std.specs.Prelude.{◌≡◌, ◌++◌, OnOk};
ghost use Rattle.otp_text.specs.Values.{bool_text};
ghost use Rattle.otp_objects.specs.Values.{bool_member, shutdown_member, shutdown_value, word_member};

use otp_json::{put_key, put_text};
use otp_spec::Shutdown;
use otp_text::write_number;
use std::alloc::AllocError;

/// Appends `true` or `false`.
#[tactic(auto, unfolding(otp_text::specs::Values::bool_text))]
fn write_bool(value: bool, out: &mut Vec<u8>) -> Result<(), AllocError>
    ensures { OnOk result (out.new.items ≡ out.old.items ++ bool_text value) }
{
    if value {
        out.extend_from_slice(b"true")
    } else {
        out.extend_from_slice(b"false")
    }
}

/// Appends a member that is `true` or `false`.
#[tactic(auto, unfolding(crate::specs::Values::bool_member))]
pub(crate) fn put_bool(key: &[u8], value: bool, out: &mut Vec<u8>) -> Result<(), AllocError>
    ensures { OnOk result (out.new.items ≡ out.old.items ++ bool_member key.now value) }
{
    put_key(b", ", key, out)?;
    write_bool(value, out)
}

/// Appends a member that is a word.
#[tactic(auto, unfolding(crate::specs::Values::word_member))]
pub(crate) fn put_word(key: &[u8], word: &str, out: &mut Vec<u8>) -> Result<(), AllocError>
    ensures { OnOk result (out.new.items ≡ out.old.items ++ word_member key.now word.now) }
{
    put_text(b", ", key, word.as_bytes(), out)
}

/// Appends how a child is stopped: a number of milliseconds, or a word.
#[tactic(auto, unfolding(crate::specs::Values::shutdown_value))]
fn write_shutdown(shutdown: Shutdown, out: &mut Vec<u8>) -> Result<(), AllocError>
    ensures { OnOk result (out.new.items ≡ out.old.items ++ shutdown_value shutdown) }
{
    match shutdown {
        Shutdown::BrutalKill => out.extend_from_slice(b"\"brutal_kill\""),
        Shutdown::Milliseconds(count) => write_number(u64::from(count), out),
        Shutdown::Infinity => out.extend_from_slice(b"\"infinity\""),
    }
}

/// Appends the member that says how a child is stopped.
#[tactic(auto, unfolding(crate::specs::Values::shutdown_member))]
pub(crate) fn put_shutdown(shutdown: Shutdown, out: &mut Vec<u8>) -> Result<(), AllocError>
    ensures { OnOk result (out.new.items ≡ out.old.items ++ shutdown_member shutdown) }
{
    put_key(b", ", b"shutdown", out)?;
    write_shutdown(shutdown, out)
}
