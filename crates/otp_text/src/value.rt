//! Values as they are printed.

ghost use Rattle.std.specs.Prelude.{◌≡◌, ◌++◌, ◌∷◌, [], OnOk, codes, decimal, option_copied, unwrap_or};
ghost use Rattle.otp_reason.specs.Names.{name_bytes};
ghost use Rattle.otp_text.specs.Values.{reason_text, process_text, child_name_text, shutdown_text, modules_text, bool_text};

use itoa::Buffer;
use otp_reason::{Name, Reason};
use otp_spec::{Modules, Shutdown};
use std::alloc::AllocError;

/// Appends a byte.
pub(crate) fn write_byte(byte: u8, out: &mut Vec<u8>) -> Result<(), AllocError>
    ensures { OnOk result (out.new.items ≡ out.old.items ++ byte ∷ []) }
{
    match out.push(byte) {
        Ok(()) => Ok(()),
        Err(_) => Err(AllocError),
    }
}

/// Appends a number in decimal digits.
pub fn write_number(number: u64, out: &mut Vec<u8>) -> Result<(), AllocError>
    ensures { OnOk result (out.new.items ≡ out.old.items ++ decimal number) }
{
    let mut buffer = Buffer::new();
    out.extend_from_slice(buffer.format(number).as_bytes())
}

/// Appends a name.
pub fn write_name(name: &Name, out: &mut Vec<u8>) -> Result<(), AllocError>
    ensures { OnOk result (out.new.items ≡ out.old.items ++ name_bytes name.now) }
{
    out.extend_from_slice(name.as_bytes())
}

/// Appends a process number: `#` and the digits.
#[tactic(auto, unfolding(crate::specs::Values::process_text))]
pub fn write_process(number: u64, out: &mut Vec<u8>) -> Result<(), AllocError>
    ensures { OnOk result (out.new.items ≡ out.old.items ++ process_text number) }
{
    write_byte(b'#', out)?;
    write_number(number, out)
}

/// Appends a reason.
#[tactic(auto, unfolding(crate::specs::Values::reason_text))]
pub fn write_reason(reason: &Reason, out: &mut Vec<u8>) -> Result<(), AllocError>
    ensures { OnOk result (out.new.items ≡ out.old.items ++ reason_text reason.now) }
{
    match reason {
        Reason::Normal => out.extend_from_slice(b"normal"),
        Reason::Shutdown => out.extend_from_slice(b"shutdown"),
        Reason::ShutdownWith(text) => {
            out.extend_from_slice(b"shutdown:")?;
            out.extend_from_slice(text.as_bytes())
        }
        Reason::Kill => out.extend_from_slice(b"kill"),
        Reason::Killed => out.extend_from_slice(b"killed"),
        Reason::NoProc => out.extend_from_slice(b"noproc"),
        Reason::Error(text) => {
            out.extend_from_slice(b"error:")?;
            out.extend_from_slice(text.as_bytes())
        }
    }
}

/// Appends a child's id, or `-` for a dynamic child.
#[tactic(auto, unfolding(crate::specs::Values::child_name_text))]
pub fn write_child_name(name: &Option<Name>, out: &mut Vec<u8>) -> Result<(), AllocError>
    ensures { OnOk result (out.new.items ≡ out.old.items ++ child_name_text name.now) }
{
    match name {
        None => write_byte(b'-', out),
        Some(id) => write_name(id, out),
    }
}

/// Appends a word; nothing where there is none.
fn write_word(word: Option<&str>, out: &mut Vec<u8>) -> Result<(), AllocError>
    ensures { OnOk result (out.new.items ≡ out.old.items ++ unwrap_or (option_copied word.entry) []) }
{
    match word {
        Some(word) => out.extend_from_slice(word.as_bytes()),
        None => Ok(()),
    }
}

/// Appends how a child is stopped: a word, or milliseconds.
#[tactic(auto, unfolding(crate::specs::Values::shutdown_text))]
pub(crate) fn write_shutdown(shutdown: &Shutdown, out: &mut Vec<u8>) -> Result<(), AllocError>
    ensures { OnOk result (out.new.items ≡ out.old.items ++ shutdown_text shutdown.now) }
{
    match shutdown {
        Shutdown::Milliseconds(time) => write_number(u64::from(*time), out),
        Shutdown::BrutalKill | Shutdown::Infinity => write_word(shutdown.word(), out),
    }
}

/// Appends `true` or `false`.
#[tactic(auto, unfolding(crate::specs::Values::bool_text))]
pub(crate) fn write_bool(value: bool, out: &mut Vec<u8>) -> Result<(), AllocError>
    ensures { OnOk result (out.new.items ≡ out.old.items ++ bool_text value) }
{
    if value {
        out.extend_from_slice(b"true")
    } else {
        out.extend_from_slice(b"false")
    }
}

/// Appends `+` and a name.
fn write_next_module(name: &Name, out: &mut Vec<u8>) -> Result<(), AllocError>
    ensures { OnOk result (out.new.items ≡ out.old.items ++ codes "+" ++ name_bytes name.now) }
{
    write_byte(b'+', out)?;
    write_name(name, out)
}

/// Appends the names of modules, joined by `+`; `-` where there is none.
#[tactic(auto, unfolding(crate::specs::Values::modules_text))]
pub(crate) fn write_modules(modules: &Modules, out: &mut Vec<u8>) -> Result<(), AllocError>
    ensures { OnOk result (out.new.items ≡ out.old.items ++ modules_text modules.now) }
{
    match modules {
        Modules::Dynamic => write_word(modules.word(), out),
        Modules::None => write_byte(b'-', out),
        Modules::One(first) => write_name(first, out),
        Modules::Two(first, second) => {
            write_name(first, out)?;
            write_next_module(second, out)
        }
        Modules::Three(first, second, third) => {
            write_name(first, out)?;
            write_next_module(second, out)?;
            write_next_module(third, out)
        }
        Modules::Four(first, second, third, fourth) => {
            write_name(first, out)?;
            write_next_module(second, out)?;
            write_next_module(third, out)?;
            write_next_module(fourth, out)
        }
    }
}
