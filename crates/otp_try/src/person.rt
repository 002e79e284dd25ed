//! What a person at a terminal asks of the prompt: help, how all stand, and lines undone.

ghost use Rattle.std.specs.Prelude.{ℕ, List, ◌≡◌, IfOk, OnOk, map};
ghost use Rattle.otp_try.specs.Pages.{AddsTo};
ghost use Rattle.otp_trial.specs.Played.{Stand, Tells, at_start, fresh};

use crate::asked::{Asked, read_asked};
use crate::early::EarlyEnd;
use crate::play::{Play, Writer};
use crate::remark::Topic;
use crate::settings::Settings;
use otp_script::read_step;
use otp_trial::steps::do_times;
use otp_trial::{Halt, Trial};
use std::alloc::AllocError;

/// A line that did something.
#[derive(Drop)]
pub(crate) struct KeptLine {
    pub number: u64,
    pub line: Vec<u8>,
}

impl Play {
    /// Puts how to go on on the page, for a person.
    pub(crate) fn welcome(&mut self, settings: Settings) -> Result<(), EarlyEnd>
        ensures { AddsTo result self.old.trial self.new.trial self.old.page.items self.new.page.items }
    {
        match settings.writer {
            Writer::Script | Writer::Log => Ok(()),
            Writer::Person => self.remark(Topic::Welcome),
        }
    }

    /// Puts the prompt on the page, for a person who has not begun a line.
    pub(crate) fn prompt(&mut self, settings: Settings, is_fresh: bool) -> Result<(), EarlyEnd>
        ensures { AddsTo result self.old.trial self.new.trial self.old.page.items self.new.page.items }
    {
        match settings.writer {
            Writer::Person if is_fresh => self.remark(Topic::Prompt),
            _ => Ok(()),
        }
    }

    /// Ends the line of the prompt, for a person.
    pub(crate) fn leave_prompt(&mut self, settings: Settings) -> Result<(), EarlyEnd>
        ensures { AddsTo result self.old.trial self.new.trial self.old.page.items self.new.page.items }
    {
        match settings.writer {
            Writer::Person if !self.is_left => self.remark(Topic::Farewell),
            _ => Ok(()),
        }
    }

    /// Nothing more is read.
    fn leave(&mut self) -> Result<(), EarlyEnd>
        ensures { AddsTo result self.old.trial self.new.trial self.old.page.items self.new.page.items }
    {
        self.is_left = true;
        Ok(())
    }

    /// The line of a person.
    pub(crate) fn serve_person(&mut self, settings: Settings, line: &[u8]) -> Result<(), EarlyEnd>
        ensures { AddsTo result self.old.trial self.new.trial self.old.page.items self.new.page.items }
    {
        match read_asked(line) {
            None => self.play_kept(settings, line),
            Some(Asked::Help) => self.remark(Topic::Help),
            Some(Asked::Status) => self.remark(Topic::Status),
            Some(Asked::Undo) => self.undo(),
            Some(Asked::Reset) => self.reset(),
            Some(Asked::Quit) => self.leave(),
        }
    }

    /// A line of a person that says what happens; it is kept, if it did something.
    fn play_kept(&mut self, settings: Settings, line: &[u8]) -> Result<(), EarlyEnd>
        ensures { AddsTo result self.old.trial self.new.trial self.old.page.items self.new.page.items }
    {
        self.is_done = false;
        match self.play_line(settings, line) {
            Ok(()) => self.keep_line(line),
            Err(end) => Err(end),
        }
    }

    /// The line that was played last is kept, if it did something.
    fn keep_line(&mut self, line: &[u8]) -> Result<(), EarlyEnd>
        ensures drawn { (stand : Stand) → AddsTo result stand stand self.old.page.items self.new.page.items }
        ensures same { self.new.trial ≡ self.old.trial }
    {
        match self.keep_done(line) {
            Ok(()) => Ok(()),
            Err(_) => Err(EarlyEnd::OutOfMemory),
        }
    }

    /// The line that was played last is kept, if it did something and there is memory.
    fn keep_done(&mut self, line: &[u8]) -> Result<(), AllocError>
        ensures page { self.new.page.items ≡ self.old.page.items }
        ensures same { self.new.trial ≡ self.old.trial }
    {
        if !self.is_done {
            return Ok(());
        }
        let mut text = Vec::new(self.alloc);
        text.extend_from_slice(line)?;
        let kept = KeptLine {
            number: self.lines,
            line: text,
        };
        self.kept.push(kept).map_err(|_| AllocError)
    }

    /// The tree stands as before the last line that did something.
    fn undo(&mut self) -> Result<(), EarlyEnd>
        ensures { AddsTo result self.old.trial self.new.trial self.old.page.items self.new.page.items }
    {
        drop(self.kept.pop());
        self.play_again()
    }

    /// The tree stands as at the beginning.
    fn reset(&mut self) -> Result<(), EarlyEnd>
        ensures { AddsTo result self.old.trial self.new.trial self.old.page.items self.new.page.items }
    {
        self.kept.clear();
        self.play_again()
    }

    /// The lines that are kept are played from the beginning on, and nothing is told of them again.
    fn play_again(&mut self) -> Result<(), EarlyEnd>
        ensures { AddsTo result self.old.trial self.new.trial self.old.page.items self.new.page.items }
    {
        match self.played_again() {
            Ok(trial) => {
                self.failed = None;
                self.trial = trial;
                Ok(())
            }
            Err(halt) => Err(EarlyEnd::from(halt)),
        }
    }

    /// A tree like this one, on which the lines that are kept were played from the beginning on.
    fn played_again(&self) -> Result<Trial, Halt>
        ensures { IfOk result (λ trial. (before : List ℕ) × (after : List ℕ) × Tells (at_start self.now.trial.clock (map fresh self.now.trial.seats)) trial before after) }
    {
        let mut sheet = Vec::new(self.alloc);
        let mut trial = self.trial.again(&mut sheet)?;
        for kept in self.kept.as_slice() {
            match play_kept_line(&mut trial, kept, &mut sheet) {
                Ok(()) => {}
                Err(halt) => {
                    drop(trial);
                    return Err(halt);
                }
            }
        }
        Ok(trial)
    }
}

/// Plays a line that was kept.
fn play_kept_line(trial: &mut Trial, kept: &KeptLine, out: &mut Vec<u8>) -> Result<(), Halt>
    ensures { OnOk result (Tells trial.old trial.new out.old.items out.new.items) }
{
    let Ok(step) = read_step(kept.line.as_slice()) else {
        return Ok(());
    };
    trial.begin_line(kept.number);
    do_times(trial, step, out)?;
    Ok(())
}
