//! What somebody at a terminal is told of the lines that may be written, and what the cells of a picture mean.

ghost use Rattle.std.specs.Prelude.{◌≡◌, ◌++◌, OnOk};
ghost use Rattle.otp_try.specs.Texts.{farewell_text, help_failures, help_names, help_requests, help_text, legend_text, welcome_text};

use otp_text::timeline::LEGEND;
use std::alloc::AllocError;

/// What a person may write at the prompt of what goes wrong.
const HELP_FAILURES: &str = "\
crash CHILD [REASON]   its process ends, with error:crash if no reason is given\n\
exit CHILD REASON      its process ends with this reason\n\
fail ID [REASON]       its next start fails\n\
ignore ID              its next start answers ignore\n\
init ID 8s             its starts take 8 s from now on\n\
hang CHILD             it doesn't end when it is next asked to\n\
slow CHILD 3s          it ends 3 s after it is next asked to\n";

/// What a person may ask of the supervisor there.
const HELP_REQUESTS: &str = "\
stop                   the supervisor is asked to shut down\n\
which, count, get ID, restart ID, terminate ID, delete ID, start ..\n                       \
calls of the supervisor\n\
expect up CHILD, expect end CHILD, expect restarts ID 2\n                       \
whether it is so; without a child of the supervisor itself\n";

/// How the clock is moved there, and how a child is named.
const HELP_NAMES: &str = "\
at 10s, +500ms         the clock goes there, alone or before other words\n\
every 2s 20 times ..   what follows happens so often\n\
status, help, quit     how all stand; these lines; the end (as Ctrl-D)\n\
undo, reset            back before the last line, or to the beginning\n\
CHILD is an id, or a process number as #3; below the root it has its path, as\n\
sub/x. Times may be 1.5s, 500ms, 2m or 1h.\n";

/// What a person is told first.
const WELCOME: &str = "help lists what may be written here\n";

/// Appends what a person is told first.
#[tactic(auto, unfolding(crate::specs::Texts::welcome_text))]
pub fn write_welcome(out: &mut Vec<u8>) -> Result<(), AllocError>
    ensures { OnOk result (out.new.items ≡ out.old.items ++ welcome_text) }
{
    out.extend_from_slice(WELCOME.as_bytes())
}

/// Appends what a person may write of what goes wrong.
#[tactic(auto, unfolding(crate::specs::Texts::help_failures))]
fn write_help_failures(out: &mut Vec<u8>) -> Result<(), AllocError>
    ensures { OnOk result (out.new.items ≡ out.old.items ++ help_failures) }
{
    out.extend_from_slice(HELP_FAILURES.as_bytes())
}

/// Appends what a person may ask of the supervisor.
#[tactic(auto, unfolding(crate::specs::Texts::help_requests))]
fn write_help_requests(out: &mut Vec<u8>) -> Result<(), AllocError>
    ensures { OnOk result (out.new.items ≡ out.old.items ++ help_requests) }
{
    out.extend_from_slice(HELP_REQUESTS.as_bytes())
}

/// Appends how the clock is moved, and how a child is named.
#[tactic(auto, unfolding(crate::specs::Texts::help_names))]
fn write_help_names(out: &mut Vec<u8>) -> Result<(), AllocError>
    ensures { OnOk result (out.new.items ≡ out.old.items ++ help_names) }
{
    out.extend_from_slice(HELP_NAMES.as_bytes())
}

/// Appends what a person may write.
#[tactic(auto, unfolding(crate::specs::Texts::help_text))]
pub fn write_help(out: &mut Vec<u8>) -> Result<(), AllocError>
    ensures { OnOk result (out.new.items ≡ out.old.items ++ help_text) }
{
    write_help_failures(out)?;
    write_help_requests(out)?;
    write_help_names(out)
}

/// Appends what the cells of a picture mean.
#[tactic(auto, unfolding(crate::specs::Texts::legend_text))]
pub fn write_legend(out: &mut Vec<u8>) -> Result<(), AllocError>
    ensures { OnOk result (out.new.items ≡ out.old.items ++ legend_text) }
{
    out.extend_from_slice(LEGEND)
}

/// Appends the end of the line of the prompt.
#[tactic(auto, unfolding(crate::specs::Texts::farewell_text))]
pub fn write_farewell(out: &mut Vec<u8>) -> Result<(), AllocError>
    ensures { OnOk result (out.new.items ≡ out.old.items ++ farewell_text) }
{
    out.extend_from_slice(b"\n")
}
