//! The end of a run: how the supervisors stand, what was planned and never came, the verdict; or what was told before it went wrong.

ghost use Rattle.std.specs.Prelude.{List};
ghost use Rattle.otp_try.specs.Pages.{Closes, Concludes, Ended, IsWhole, SumsUp, WritesOut};
ghost use Rattle.otp_trial.specs.Played.{Stand};

use crate::early::EarlyEnd;
use crate::play::{Play, TryEnd, Writer};
use crate::remarks::summary_of;
use crate::remarks::unused::line_of_unknown;
use crate::settings::Settings;
use otp_sim::{Input, Output, write_all};
use otp_trial::ActionEnd;

impl Play {
    /// All lines of the input are played, and all that is told of them is written.
    pub(crate) fn play<R: Input, W: Output>(
        &mut self,
        settings: Settings,
        input: &mut R,
        output: &mut W,
    ) -> TryEnd
        ensures { Ended result self.old.trial self.old.page.items (W.seen output.old).bytes (W.seen output.new).bytes }
    {
        match self.run(settings, input, output) {
            Ok(()) => self.conclude(settings, output),
            Err(end) => self.close_early(end, output),
        }
    }

    /// The end of a run of which all lines were played: how the supervisors stand is told, and what they await.
    fn conclude<W: Output>(&mut self, settings: Settings, output: &mut W) -> TryEnd
        ensures { Concludes result self.old.trial self.old.page.items (W.seen output.old).bytes (W.seen output.new).bytes }
    {
        match self.sum_up(settings) {
            Ok(()) => self.write_out(settings, output),
            Err(end) => self.close_early(end, output),
        }
    }

    /// Whether there is a verdict: a line was played, or a person saw the tree stand.
    fn has_verdict(&self, settings: Settings) -> bool {
        self.is_played || settings.writer == Writer::Person
    }

    /// How a run ended that was played to its end and written.
    fn end_of(&self, settings: Settings) -> TryEnd
        ensures { IsWhole result }
    {
        if let Some((line, why, near)) = self.left_out {
            return TryEnd::LeftOut(line, why, near);
        }
        if !self.has_verdict(settings) {
            return TryEnd::NothingPlayed;
        }
        match self.failed {
            None => TryEnd::Done,
            Some(line) => TryEnd::ExpectationFailed(line),
        }
    }

    /// The last of a run that was played to its end is written.
    fn write_out<W: Output>(&self, settings: Settings, output: &mut W) -> TryEnd
        ensures { WritesOut result self.now.page.items (W.seen output.old).bytes (W.seen output.new).bytes }
    {
        match write_all(output, self.page.as_slice()) {
            Ok(()) => self.end_of(settings),
            Err(_) => TryEnd::OutputFailed,
        }
    }

    /// What stands behind the last line: the rest of the picture, if one is wanted, and how the supervisors stand.
    fn sum_up(&mut self, settings: Settings) -> Result<(), EarlyEnd>
        ensures { SumsUp result self.old.trial self.old.page.items self.new.page.items }
    {
        match self.draw() {
            Ok(()) => self.put_summary(settings),
            Err(end) => Err(end),
        }
    }

    /// Puts on the page how the supervisors stand, what they await, and what the script planned and the run never came to.
    fn put_summary(&mut self, settings: Settings) -> Result<(), EarlyEnd>
        ensures { SumsUp result self.old.trial self.old.page.items self.new.page.items }
    {
        let is_played = self.has_verdict(settings);
        let Ok(text) = summary_of(self.alloc, &self.trial, settings.is_quiet, is_played) else {
            return Err(EarlyEnd::OutOfMemory);
        };
        match self.put(text.as_slice()) {
            Ok(()) => self.judge(settings),
            Err(end) => Err(end),
        }
    }

    /// Whether a line of the script could do nothing: it planned the start of a child that wasn't there, and none came.
    fn judge(&self, settings: Settings) -> Result<(), EarlyEnd> {
        match line_of_unknown(self.trial.planned(), self.trial.inits()) {
            Some(line) if settings.writer == Writer::Script => Err(EarlyEnd::LineMissed(
                line,
                ActionEnd::NoChild,
                None,
            )),
            _ => Ok(()),
        }
    }

    /// The end of a run that ended early: where the writer failed, nothing more is written.
    fn close_early<W: Output>(&mut self, end: EarlyEnd, output: &mut W) -> TryEnd
        ensures { Closes end result self.old.page.items (W.seen output.old).bytes (W.seen output.new).bytes }
    {
        match end {
            EarlyEnd::OutputFailed => TryEnd::OutputFailed,
            end => self.write_last(end, output),
        }
    }

    /// The end of a run that ended early: what is not drawn is drawn where there is memory, and all that is told is written.
    fn write_last<W: Output>(&mut self, end: EarlyEnd, output: &mut W) -> TryEnd
        ensures { (stand : Stand) → Ended result stand self.old.page.items (W.seen output.old).bytes (W.seen output.new).bytes }
    {
        let _drawn = self.draw();
        let Ok(()) = self.hand_out(output) else {
            return TryEnd::OutputFailed;
        };
        end.told()
    }
}
