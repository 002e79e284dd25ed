//! What is told of a trial beside the orders.

ghost use Rattle.std.specs.Prelude.{◌≡◌, ◌++◌, IfOk, OnOk};
ghost use Rattle.otp_try.specs.Page.{Remark, fault_line, remark_text};

use crate::remarks::help::{write_farewell, write_help, write_legend, write_welcome};
use crate::remarks::prompt::write_prompt;
use crate::remarks::summary::write_all_standings;
use otp_script::ScriptFault;
use otp_trial::Trial;
use std::alloc::{AllocError, Global};

/// What a remark is about.
#[derive(Clone, Copy, Debug, PartialEq, Eq)]
pub(crate) enum Topic {
    /// How to go on, for a person.
    Welcome,
    /// What a person may write.
    Help,
    /// What the cells of a picture mean.
    Legend,
    /// Why a line can't be read.
    Fault(ScriptFault),
    /// How the supervisors stand.
    Status,
    /// The prompt, for a person.
    Prompt,
    /// The end of the line of the prompt, where the input ends.
    Farewell,
}

/// Appends why a line can't be read.
#[tactic(auto, unfolding(crate::specs::Page::fault_line))]
fn write_fault(fault: ScriptFault, out: &mut Vec<u8>) -> Result<(), AllocError>
    ensures { OnOk result (out.new.items ≡ out.old.items ++ fault_line fault) }
{
    out.extend_from_slice(fault.text().as_bytes())?;
    out.extend_from_slice(b"\n")
}

impl Topic {
    /// Appends what is to be said of it where the trial stands so.
    fn write(self, trial: &Trial, out: &mut Vec<u8>) -> Result<(), AllocError>
        ensures { OnOk result ((remark : Remark) × (out.new.items ≡ out.old.items ++ remark_text remark trial.now)) }
    {
        match self {
            Topic::Welcome => write_welcome(out),
            Topic::Help => write_help(out),
            Topic::Legend => write_legend(out),
            Topic::Fault(fault) => write_fault(fault, out),
            Topic::Status => write_all_standings(trial, out),
            Topic::Prompt => write_prompt(
                trial.seats(),
                trial.now(),
                trial.next_time(),
                trial.waits(),
                out,
            ),
            Topic::Farewell => write_farewell(out),
        }
    }

    /// What is to be said of it where the trial stands so.
    pub fn text(self, alloc: Global, trial: &Trial) -> Result<Vec<u8>, AllocError>
        ensures { IfOk result (λ text. (remark : Remark) × (text.items ≡ remark_text remark trial.now)) }
    {
        let mut text = Vec::new(alloc);
        self.write(trial, &mut text)?;
        Ok(text)
    }
}
