//! What `check` finds, as JSON: an object a line for each file, `{"file": NAME, "faults": [{"line": L, "text": TEXT}]}`.
//!
//! A line that isn't known is `null`. An object of a lawful file has no faults, and may have a `warning`, or `remarks` in the form of
//! faults; that of a file that can't be read has `unread` in the place of `faults`.

ghost use Rattle.std.specs.Prelude.{◌≡◌, ◌++◌, OnOk};
ghost use Rattle.otp_commands.specs.Findings.{faults_object, file_member, lawful_object, list_text, next_object, next_objects, remarks_object, said_object, said_objects, unread_object, warned_object, warning_text};

use otp_check::Remark;
use otp_json::{put_optional, put_text};
use std::alloc::AllocError;

/// Appends the front of the object of a file.
#[tactic(auto, unfolding(crate::specs::Findings::file_member))]
fn put_file(name: &[u8], out: &mut Vec<u8>) -> Result<(), AllocError>
    ensures { OnOk result (out.new.items ≡ out.old.items ++ file_member name.now) }
{
    put_text(b"{", b"file", name, out)
}

/// Appends the object of a lawful file.
#[tactic(auto, unfolding(crate::specs::Findings::lawful_object))]
pub(crate) fn put_lawful_object(name: &[u8], out: &mut Vec<u8>) -> Result<(), AllocError>
    ensures { OnOk result (out.new.items ≡ out.old.items ++ lawful_object name.now) }
{
    put_file(name, out)?;
    out.extend_from_slice(b", \"faults\": []}\n")
}

/// Appends what is said of a lawful file all the same, and the end of its object.
#[tactic(auto, unfolding(crate::specs::Findings::warning_text))]
fn put_warning(warning: &[u8], out: &mut Vec<u8>) -> Result<(), AllocError>
    ensures { OnOk result (out.new.items ≡ out.old.items ++ warning_text warning.now) }
{
    out.extend_from_slice(b", \"faults\": []")?;
    put_text(b", ", b"warning", warning, out)?;
    out.extend_from_slice(b"}\n")?;
    Ok(())
}

/// Appends the object of a lawful file of which this is said all the same.
#[tactic(auto, unfolding(crate::specs::Findings::warned_object))]
pub(crate) fn put_warned_object(
    name: &[u8],
    warning: &[u8],
    out: &mut Vec<u8>,
) -> Result<(), AllocError>
    ensures { OnOk result (out.new.items ≡ out.old.items ++ warned_object name.now warning.now) }
{
    put_file(name, out)?;
    put_warning(warning, out)
}

/// Appends the object of a file that can't be read.
#[tactic(auto, unfolding(crate::specs::Findings::unread_object))]
pub(crate) fn put_unread_object(
    name: &[u8],
    why: &[u8],
    out: &mut Vec<u8>,
) -> Result<(), AllocError>
    ensures { OnOk result (out.new.items ≡ out.old.items ++ unread_object name.now why.now) }
{
    put_file(name, out)?;
    put_text(b", ", b"unread", why, out)?;
    out.extend_from_slice(b"}\n")
}

/// Appends the object of a fault.
#[tactic(auto, unfolding(crate::specs::Findings::said_object))]
fn put_fault<F: Remark>(fault: &F, out: &mut Vec<u8>) -> Result<(), AllocError>
    ensures { OnOk result (out.new.items ≡ out.old.items ++ said_object (F.remarked fault.now)) }
{
    put_optional(b"{", b"line", fault.line(), out)?;
    put_text(b", ", b"text", fault.text(), out)?;
    out.extend_from_slice(b"}")
}

/// Appends the object of a fault behind another one.
#[tactic(auto, unfolding(crate::specs::Findings::next_object))]
fn put_next<F: Remark>(fault: &F, out: &mut Vec<u8>) -> Result<(), AllocError>
    ensures { OnOk result (out.new.items ≡ out.old.items ++ next_object (F.remarked fault.now)) }
{
    out.extend_from_slice(b", ")?;
    put_fault(fault, out)
}

/// Appends the objects of faults behind the first.
fn put_others<F: Remark>(faults: &[F], out: &mut Vec<u8>) -> Result<(), AllocError>
    ensures { OnOk result (out.new.items ≡ out.old.items ++ next_objects F.remarked faults.now) }
{
    for fault in faults {
        put_next(fault, out)?;
    }
    Ok(())
}

/// Appends the objects of faults.
#[tactic(auto, unfolding(crate::specs::Findings::said_objects))]
fn put_faults<F: Remark>(faults: &[F], out: &mut Vec<u8>) -> Result<(), AllocError>
    ensures { OnOk result (out.new.items ≡ out.old.items ++ said_objects F.remarked faults.now) }
{
    match faults {
        [] => Ok(()),
        [first, others @ ..] => {
            put_fault(first, out)?;
            put_others(others, out)
        }
    }
}

/// Appends a list of the objects of faults behind this, and the end of the file's object.
#[tactic(auto, unfolding(crate::specs::Findings::list_text))]
fn put_list<F: Remark>(front: &[u8], faults: &[F], out: &mut Vec<u8>) -> Result<(), AllocError>
    ensures { OnOk result (out.new.items ≡ out.old.items ++ list_text F.remarked front.now faults.now) }
{
    out.extend_from_slice(front)?;
    put_faults(faults, out)?;
    out.extend_from_slice(b"]}\n")
}

/// Appends the object of a file that has faults.
#[tactic(auto, unfolding(crate::specs::Findings::faults_object))]
pub(crate) fn put_fault_object<F: Remark>(
    name: &[u8],
    faults: &[F],
    out: &mut Vec<u8>,
) -> Result<(), AllocError>
    ensures { OnOk result (out.new.items ≡ out.old.items ++ faults_object F.remarked name.now faults.now) }
{
    put_file(name, out)?;
    put_list(b", \"faults\": [", faults, out)?;
    Ok(())
}

/// Appends the object of a lawful file on whose tree there are remarks.
#[tactic(auto, unfolding(crate::specs::Findings::remarks_object))]
pub(crate) fn put_remark_object<F: Remark>(
    name: &[u8],
    remarks: &[F],
    out: &mut Vec<u8>,
) -> Result<(), AllocError>
    ensures { OnOk result (out.new.items ≡ out.old.items ++ remarks_object F.remarked name.now remarks.now) }
{
    put_file(name, out)?;
    put_list(b", \"faults\": [], \"remarks\": [", remarks, out)?;
    Ok(())
}
