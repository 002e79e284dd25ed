//! The lines of a run, one after another: each is played, told, and drawn where a picture is wanted.

ghost use Rattle.std.specs.Prelude.{List, ◌≡◌, Ok, OnOk};
ghost use Rattle.otp_script.specs.Lines.{saying, saying_in};
ghost use Rattle.otp_try.specs.Page.{Adds};
ghost use Rattle.otp_try.specs.Pages.{AddsTo};
ghost use Rattle.otp_trial.specs.Played.{Stand};

use crate::early::EarlyEnd;
use crate::line::{Line, LineEnd};
use crate::meant::near_child;
use crate::play::{Play, Writer};
use crate::remark::Topic;
use crate::settings::Settings;
use otp_script::{ScriptFault, Step, meant, read_step, strip_return};
use otp_trial::steps::is_silent;
use otp_trial::{ActionEnd, Halt};

impl Play {
    /// The next line begins.
    pub(crate) fn begin_line(&mut self)
        ensures page { self.new.page.items ≡ self.old.page.items }
        ensures same { self.new.trial ≡ self.old.trial }
    {
        self.lines = self.lines.saturating_add(1);
        self.trial.begin_line(self.lines);
    }

    /// A line of the input: what it does is put on the page. Nothing is, where a person has left.
    pub(crate) fn take_line(&mut self, settings: Settings, line: &[u8]) -> Result<(), EarlyEnd>
        ensures { AddsTo result self.old.trial self.new.trial self.old.page.items self.new.page.items }
    {
        if self.is_left {
            return Ok(());
        }
        self.begin_line();
        let line = self.words_of(line);
        self.serve_line(settings, line)
    }

    /// The line without what stands before or behind its words: the CR before its LF, and the mark at the beginning of a text.
    fn words_of<'a>(&self, line: &'a [u8]) -> &'a [u8] {
        let line = strip_return(line);
        if self.lines == 1 {
            strip_mark(line)
        } else {
            line
        }
    }

    /// The line that has begun: a person may ask something of the prompt; else it is played.
    fn serve_line(&mut self, settings: Settings, line: &[u8]) -> Result<(), EarlyEnd>
        ensures { AddsTo result self.old.trial self.new.trial self.old.page.items self.new.page.items }
    {
        match settings.writer {
            Writer::Script | Writer::Log => self.play_line(settings, line),
            Writer::Person => self.serve_person(settings, line),
        }
    }

    /// The last line, if there is one.
    pub(crate) fn take_last(&mut self, settings: Settings, last: &[u8]) -> Result<(), EarlyEnd>
        ensures { AddsTo result self.old.trial self.new.trial self.old.page.items self.new.page.items }
    {
        if last.is_empty() {
            Ok(())
        } else {
            self.take_line(settings, last)
        }
    }

    /// A line that says what happens.
    pub(crate) fn play_line(&mut self, settings: Settings, line: &[u8]) -> Result<(), EarlyEnd>
        ensures { AddsTo result self.old.trial self.new.trial self.old.page.items self.new.page.items }
    {
        match read_step(line) {
            Ok(step) => self.take_step(settings, line, step),
            Err(fault) => self.refuse(settings, line, fault),
        }
    }

    /// A line that can't be read: the word that was meant is told, where one is near.
    fn refuse(
        &mut self,
        settings: Settings,
        line: &[u8],
        fault: ScriptFault,
    ) -> Result<(), EarlyEnd>
        ensures { AddsTo result self.old.trial self.new.trial self.old.page.items self.new.page.items }
    {
        match meant(self.alloc, line, fault, settings.writer == Writer::Person) {
            Ok(fault) => self.refuse_for(settings, fault),
            Err(_) => Err(EarlyEnd::OutOfMemory),
        }
    }

    /// A line that can't be read for this.
    fn refuse_for(&mut self, settings: Settings, fault: ScriptFault) -> Result<(), EarlyEnd>
        ensures { AddsTo result self.old.trial self.new.trial self.old.page.items self.new.page.items }
    {
        if settings.writer != Writer::Person {
            return Err(EarlyEnd::LineRefused(self.lines, fault));
        }
        self.remark(Topic::Fault(fault))
    }

    /// A line that was read is played, and drawn where a picture is wanted.
    fn take_step(&mut self, settings: Settings, line: &[u8], step: Step<'_>) -> Result<(), EarlyEnd>
        requires { saying_in line.now ≡ Ok (saying step.when step.times step.path.now step.action) }
        ensures { AddsTo result self.old.trial self.new.trial self.old.page.items self.new.page.items }
    {
        match self.play_step(settings, line, step) {
            Ok(end) => self.end_step(step, end),
            Err(end) => Err(end),
        }
    }

    /// The end of a line, or of the run.
    fn end_step(&mut self, step: Step<'_>, end: LineEnd) -> Result<(), EarlyEnd>
        ensures drawn { (stand : Stand) → AddsTo result stand stand self.old.page.items self.new.page.items }
        ensures same { self.new.trial ≡ self.old.trial }
    {
        match end {
            LineEnd::Ends(end) => Err(end),
            LineEnd::Unmet => self.end_unmet(step),
            LineEnd::LeftOut(why) => self.end_left_out(step, why),
            LineEnd::Taken => self.end_done(step),
            LineEnd::Forgotten => self.end_taken(step),
        }
    }

    /// The end of a line that expected what is not so: the first of them is kept.
    fn end_unmet(&mut self, step: Step<'_>) -> Result<(), EarlyEnd>
        ensures drawn { (stand : Stand) → AddsTo result stand stand self.old.page.items self.new.page.items }
        ensures same { self.new.trial ≡ self.old.trial }
    {
        self.is_played = true;
        if self.failed.is_none() {
            self.failed = Some(self.lines);
        }
        self.end_taken(step)
    }

    /// The end of a line of a log that could do nothing: the first of them is kept.
    fn end_left_out(&mut self, step: Step<'_>, why: ActionEnd) -> Result<(), EarlyEnd>
        ensures drawn { (stand : Stand) → AddsTo result stand stand self.old.page.items self.new.page.items }
        ensures same { self.new.trial ≡ self.old.trial }
    {
        if self.left_out.is_none() {
            let near = near_child(self.alloc, &self.trial, step, why);
            self.left_out = Some((self.lines, why, near));
        }
        self.end_taken(step)
    }

    /// The end of a line that did something, unless it says nothing.
    fn end_done(&mut self, step: Step<'_>) -> Result<(), EarlyEnd>
        ensures drawn { (stand : Stand) → AddsTo result stand stand self.old.page.items self.new.page.items }
        ensures same { self.new.trial ≡ self.old.trial }
    {
        self.is_done = !is_silent(step);
        self.is_played = self.is_played || self.is_done;
        self.end_taken(step)
    }

    /// How the supervisors stand after a line is a column of the picture, unless the line says nothing.
    fn end_taken(&mut self, step: Step<'_>) -> Result<(), EarlyEnd>
        ensures drawn { (stand : Stand) → AddsTo result stand stand self.old.page.items self.new.page.items }
        ensures same { self.new.trial ≡ self.old.trial }
    {
        if is_silent(step) {
            Ok(())
        } else {
            self.add_moment(self.lines)
        }
    }

    /// A line that was read is played, and told. The answer is how it ended.
    fn play_step(
        &mut self,
        settings: Settings,
        line: &[u8],
        step: Step<'_>,
    ) -> Result<LineEnd, EarlyEnd>
        requires { saying_in line.now ≡ Ok (saying step.when step.times step.path.now step.action) }
        ensures { AddsTo result self.old.trial self.new.trial self.old.page.items self.new.page.items }
    {
        let mut told = Vec::new(self.alloc);
        match self.play_on(settings, line, step, &mut told) {
            Ok(end) => self.tell(told.as_slice(), end),
            Err(halt) => Err(EarlyEnd::from(halt)),
        }
    }

    /// A line that was read is played on a sheet of its own.
    fn play_on(
        &mut self,
        settings: Settings,
        line: &[u8],
        step: Step<'_>,
        told: &mut Vec<u8>,
    ) -> Result<LineEnd, Halt>
        requires { saying_in line.now ≡ Ok (saying step.when step.times step.path.now step.action) }
        ensures told { OnOk result (Adds self.old.trial self.new.trial told.old.items told.new.items) }
        ensures page { self.new.page.items ≡ self.old.page.items }
    {
        let place = Line {
            writer: settings.writer,
            tells: settings.tells,
            number: self.lines,
        };
        place.play(self.alloc, &mut self.trial, line, step, told)
    }
}

/// The text without the mark of its encoding at the beginning.
fn strip_mark(line: &[u8]) -> &[u8] {
    line.strip_prefix(b"\xef\xbb\xbf").unwrap_or(line)
}
