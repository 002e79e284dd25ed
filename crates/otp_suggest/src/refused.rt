//! What is refused, and why.

ghost use Rattle.std.specs.Prelude.{◌≡◌, ◌++◌, OnOk};
ghost use Rattle.otp_suggest.specs.Refused.{fault_text, instead_text, is_supervisor_text, no_child_text, refusal_text, unfound_text};

use crate::gap::GapFault;
use std::alloc::AllocError;

/// Whether a suggestion was told.
#[derive(Clone, Copy, Debug, PartialEq, Eq)]
pub enum SuggestionAnswer {
    /// It was.
    Told,
    /// No child of the tree has the name.
    NoChild,
    /// The child is a supervisor, which crashes where its own children do.
    IsSupervisor,
}

impl GapFault {
    /// What is said of such a word, behind it.
    #[tactic(auto, unfolding(crate::specs::Refused::fault_text))]
    pub fn text(self) -> &'static str
        ensures { result.now ≡ fault_text self }
    {
        match self {
            GapFault::NoTime => "is no time: write 500ms, 2s, 5m or 1h",
            GapFault::Zero => "is no time at all: write 1ms or more",
            GapFault::TooLong => "is too long: at most 1073741824 ms, some 12 days",
            GapFault::NoCount => "is no number of crashes from 1 to 1000",
        }
    }
}

#[tactic(auto, unfolding(crate::specs::Refused::unfound_text))]
fn write_unfound(out: &mut Vec<u8>) -> Result<(), AllocError>
    ensures { OnOk result (out.new.items ≡ out.old.items ++ unfound_text) }
{
    out.extend_from_slice(b"no child is found by the name ")
}

/// Appends that there is no child with this name.
#[tactic(auto, unfolding(crate::specs::Refused::no_child_text))]
fn write_no_child(name: &[u8], out: &mut Vec<u8>) -> Result<(), AllocError>
    ensures { OnOk result (out.new.items ≡ out.old.items ++ no_child_text name.now) }
{
    write_unfound(out)?;
    out.extend_from_slice(name)?;
    out.extend_from_slice(b"\n")
}

/// What is said of a supervisor whose name is given for a worker's, between that and the name of a child of its.
#[tactic(auto, unfolding(crate::specs::Refused::instead_text))]
pub fn instead() -> &'static str
    ensures { result.now ≡ instead_text }
{
    " is a supervisor: it crashes where its children do, so name one of them, as "
}

/// Appends that the child with this name is a supervisor.
#[tactic(auto, unfolding(crate::specs::Refused::is_supervisor_text))]
fn write_is_supervisor(name: &[u8], out: &mut Vec<u8>) -> Result<(), AllocError>
    ensures { OnOk result (out.new.items ≡ out.old.items ++ is_supervisor_text name.now) }
{
    out.extend_from_slice(name)?;
    out.extend_from_slice(instead().as_bytes())?;
    out.extend_from_slice(name)?;
    out.extend_from_slice(b"/worker\n")
}

impl SuggestionAnswer {
    /// Appends why nothing was told of the child with this name: a line, or nothing where it was told.
    #[tactic(auto, unfolding(crate::specs::Refused::refusal_text))]
    pub fn write(self, name: &[u8], out: &mut Vec<u8>) -> Result<(), AllocError>
        ensures { OnOk result (out.new.items ≡ out.old.items ++ refusal_text name.now self) }
    {
        match self {
            SuggestionAnswer::Told => Ok(()),
            SuggestionAnswer::NoChild => write_no_child(name, out),
            SuggestionAnswer::IsSupervisor => write_is_supervisor(name, out),
        }
    }
}
