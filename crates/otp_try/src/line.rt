//! A line of the input, played on a trial: its heading, what it does, and what became of it.

ghost use Rattle.std.specs.Prelude.{Bool, ◌≡◌, ◌++◌, Ok, OnOk};
ghost use Rattle.otp_try.specs.Lines.{heading_line};
ghost use Rattle.otp_script.specs.Lines.{saying, saying_in};
ghost use Rattle.otp_try.specs.Page.{Adds, reply_text, shown, verdict_text};

use crate::early::EarlyEnd;
use crate::meant::near_child;
use crate::play::Writer;
use crate::remarks::lines::{write_heading_line, write_known, write_left_out, write_unmet};
use otp_script::Step;
use otp_trial::steps::{Outcome, do_times, is_silent};
use otp_trial::{ActionEnd, Halt, Trial};
use std::alloc::{AllocError, Global};

/// A line of the input: who wrote it, whether what it does is told in full, and its number, counted from 1.
#[derive(Clone, Copy, Debug, PartialEq, Eq)]
pub(crate) struct Line {
    pub writer: Writer,
    /// All orders are told, with a heading, and not the ends of supervisors alone.
    pub tells: bool,
    pub number: u64,
}

/// How a line ended.
#[derive(Clone, Copy, Debug, PartialEq, Eq)]
pub(crate) enum LineEnd {
    /// It was taken.
    Taken,
    /// It did nothing, which a person was told.
    Forgotten,
    /// It did nothing, and is left out of what a log tells.
    LeftOut(ActionEnd),
    /// It expected what is not so.
    Unmet,
    /// The run ends so behind it.
    Ends(EarlyEnd),
}

/// Appends a sentence for a person, and for who reads what came of a log also of which line; a script ends with it.
#[tactic(auto, unfolding(crate::specs::Page::reply_text))]
fn write_reply(
    writer: Writer,
    number: u64,
    text: &[u8],
    out: &mut Vec<u8>,
) -> Result<(), AllocError>
    ensures { OnOk result (out.new.items ≡ out.old.items ++ reply_text writer number text.now) }
{
    match writer {
        Writer::Script => Ok(()),
        Writer::Person => {
            out.extend_from_slice(text)?;
            out.extend_from_slice(b"\n")
        }
        Writer::Log => write_left_out(number, text, out),
    }
}

impl Line {
    /// Appends what stands above what the line of a script does; a line that says nothing has no heading.
    fn write_heading(self, line: &[u8], step: Step<'_>, out: &mut Vec<u8>) -> Result<(), AllocError>
        ensures { OnOk result ((has_heading : Bool) × (out.new.items ≡ out.old.items ++ heading_line has_heading self.number line.now)) }
    {
        let has_heading = self.tells && self.writer != Writer::Person && !is_silent(step);
        write_heading_line(has_heading, self.number, line, out)
    }

    /// Appends what became of the line, if that is told: always that it isn't as the line expects, or did nothing.
    #[tactic(auto, unfolding(crate::specs::Page::shown))]
    fn write_verdict(
        self,
        line: &[u8],
        outcome: Outcome,
        out: &mut Vec<u8>,
    ) -> Result<(), AllocError>
        ensures { OnOk result ((is_told : Bool) × (out.new.items ≡ out.old.items ++ shown is_told (verdict_text self.writer self.number line.now outcome.is_unknown outcome.taken))) }
    {
        let is_told = self.tells || outcome.taken != ActionEnd::Done;
        self.write_verdict_if(is_told, line, outcome, out)
    }

    /// Appends what became of the line, if that is told.
    #[tactic(auto, unfolding(crate::specs::Page::shown))]
    fn write_verdict_if(
        self,
        is_told: bool,
        line: &[u8],
        outcome: Outcome,
        out: &mut Vec<u8>,
    ) -> Result<(), AllocError>
        ensures { OnOk result (out.new.items ≡ out.old.items ++ shown is_told (verdict_text self.writer self.number line.now outcome.is_unknown outcome.taken)) }
    {
        if is_told {
            self.write_whole_verdict(line, outcome, out)
        } else {
            Ok(())
        }
    }

    /// Appends what became of the line: that it names nobody, that it isn't as it expects, or why it did nothing.
    #[tactic(auto, unfolding(crate::specs::Page::verdict_text))]
    fn write_whole_verdict(
        self,
        line: &[u8],
        outcome: Outcome,
        out: &mut Vec<u8>,
    ) -> Result<(), AllocError>
        ensures { OnOk result (out.new.items ≡ out.old.items ++ verdict_text self.writer self.number line.now outcome.is_unknown outcome.taken) }
    {
        match outcome.taken {
            ActionEnd::Done => write_known(self.number, outcome.is_unknown, out),
            ActionEnd::Unmet => write_unmet(self.number, line, out),
            taken => write_reply(self.writer, self.number, taken.text().as_bytes(), out),
        }
    }

    /// How the line ended: a script ends where one did nothing, and then the child is looked for that was meant.
    fn end_of(self, alloc: Global, trial: &Trial, step: Step<'_>, taken: ActionEnd) -> LineEnd {
        match taken {
            ActionEnd::Done => LineEnd::Taken,
            ActionEnd::Unmet => LineEnd::Unmet,
            taken => match self.writer {
                Writer::Script => {
                    let near = near_child(alloc, trial, step, taken);
                    LineEnd::Ends(EarlyEnd::LineMissed(self.number, taken, near))
                }
                Writer::Log => LineEnd::LeftOut(taken),
                Writer::Person => LineEnd::Forgotten,
            },
        }
    }

    /// Plays a line that was read: appended are its heading, the orders of what it does, in order, and what became of it; or the
    /// ends of supervisors alone.
    /// The answer is how it ended.
    ///
    /// # Errors
    ///
    /// Where memory is refused, or a supervisor has had 2^62 events.
    pub fn play(
        self,
        alloc: Global,
        trial: &mut Trial,
        line: &[u8],
        step: Step<'_>,
        out: &mut Vec<u8>,
    ) -> Result<LineEnd, Halt>
        requires { saying_in line.now ≡ Ok (saying step.when step.times step.path.now step.action) }
        ensures { OnOk result (Adds trial.old trial.new out.old.items out.new.items) }
    {
        self.write_heading(line, step, out)?;
        let outcome = do_times(trial, step, out)?;
        self.write_verdict(line, outcome, out)?;
        Ok(self.end_of(alloc, trial, step, outcome.taken))
    }
}
