//! A script that is played to its end, line by line.

ghost use Rattle.std.specs.Prelude.{List, ◌++◌, Bool, ◌≡◌, IfOk, OnOk, OnErr};
ghost use Rattle.otp_text.specs.declared.timeline.moment.Moment.{Moment};
ghost use Rattle.otp_try.specs.Sketched.{drawing};
ghost use Rattle.otp_try.specs.Pages.{AddsTo, Tries, tells_orders};
ghost use Rattle.otp_trial.specs.Played.{Seated, Stand};

use crate::early::EarlyEnd;
use crate::line::LineEnd;
use crate::person::KeptLine;
use crate::remark::Topic;
use crate::remarks::{Sketch, moment_at};
use crate::settings::{Playing, Settings, is_quiet, sketch_of, tells_orders};
use otp_file::TreeSpec;
use otp_reason::Text;
use otp_script::ScriptFault;
use otp_sim::{Input, Output};
use otp_trial::{ActionEnd, Trial, TriedSupervisor};
use std::alloc::{AllocError, Global};

/// How a script ended.
#[derive(Clone, Copy, Debug, PartialEq, Eq)]
pub enum TryEnd {
    /// All of it was played.
    Done,
    /// The line with this number, counted from 1, can't be read.
    LineRefused(u64, ScriptFault),
    /// The line with this number could do nothing: the child or the supervisor that it means is not there or has no process,
    /// its time has gone by, or the root has ended. Where there is no such child, the nearest is told by its path, if one is near.
    LineMissed(u64, ActionEnd, Option<Text>),
    /// All of it was played, and what the line with this number expected was not so, the first of such lines.
    ExpectationFailed(u64),
    /// All lines of a log were played but those that could do nothing, of which this is the first.
    LeftOut(u64, ActionEnd, Option<Text>),
    /// No line said that something happens.
    NothingPlayed,
    /// There were 2^62 events, as many as a supervisor has in its life.
    HistoryFull,
    InputFailed,
    OutputFailed,
    OutOfMemory,
}

/// Who writes the lines.
#[derive(Clone, Copy, Debug, PartialEq, Eq)]
pub enum Writer {
    /// A script: a line that can't be read, or does nothing, ends the run.
    Script,
    /// A log: a line that does nothing is told and left out.
    Log,
    /// Somebody at a terminal: a prompt says how the supervisor stands, and such a line is told and forgotten.
    Person,
}

/// A trial, and what is told of it.
#[derive(Drop)]
pub(crate) struct Play {
    pub alloc: Global,
    pub trial: Trial,
    /// How many lines were read.
    pub lines: u64,
    /// The first line whose expectation was not so.
    pub failed: Option<u64>,
    /// The first line of a log that could do nothing, and why.
    pub left_out: Option<(u64, ActionEnd, Option<Text>)>,
    /// A line was played that says something.
    pub is_played: bool,
    /// A person has left the prompt: nothing more is read.
    pub is_left: bool,
    /// The lines of a person that did something, for one who wants the last of them undone.
    pub kept: Vec<KeptLine>,
    /// The line that was played last did something.
    pub is_done: bool,
    /// What is told and not yet written. What goes there goes there whole, or not at all.
    pub page: Vec<u8>,
    /// The picture of the run, if one is wanted.
    pub sketch: Option<Sketch>,
}

impl Play {
    /// Puts a text on the page.
    pub(crate) fn put(&mut self, text: &[u8]) -> Result<(), EarlyEnd>
        ensures ok { OnOk result (self.new.page.items ≡ self.old.page.items ++ text.now) }
        ensures err { OnErr result (self.new.page.items ≡ self.old.page.items) }
        ensures same { self.new.trial ≡ self.old.trial }
    {
        match self.page.extend_from_slice(text) {
            Ok(()) => Ok(()),
            Err(_) => Err(EarlyEnd::OutOfMemory),
        }
    }

    /// Puts what a line did on the page. It ended so.
    pub(crate) fn tell(&mut self, told: &[u8], end: LineEnd) -> Result<LineEnd, EarlyEnd>
        ensures ok { OnOk result (self.new.page.items ≡ self.old.page.items ++ told.now) }
        ensures err { OnErr result (self.new.page.items ≡ self.old.page.items) }
        ensures same { self.new.trial ≡ self.old.trial }
    {
        match self.put(told) {
            Ok(()) => Ok(end),
            Err(why) => Err(why),
        }
    }

    /// Puts a remark on the page.
    pub(crate) fn remark(&mut self, topic: Topic) -> Result<(), EarlyEnd>
        ensures { AddsTo result self.old.trial self.new.trial self.old.page.items self.new.page.items }
    {
        match topic.text(self.alloc, &self.trial) {
            Ok(text) => self.put(text.as_slice()),
            Err(_) => Err(EarlyEnd::OutOfMemory),
        }
    }

    /// The picture of what is not drawn yet; nothing where none is wanted.
    fn picture(&self) -> Result<Vec<u8>, AllocError>
        ensures { IfOk result (λ text. (is_coloured : Bool) × (seats : List Seated) × (moments : List Moment) × (text.items ≡ drawing is_coloured seats moments)) }
    {
        match &self.sketch {
            None => Ok(Vec::new(self.alloc)),
            Some(sketch) => picture_of(self.alloc, sketch, self.trial.seats()),
        }
    }

    /// What is not drawn yet is put on the page, if a picture is wanted.
    pub(crate) fn draw(&mut self) -> Result<(), EarlyEnd>
        ensures drawn { (stand : Stand) → AddsTo result stand stand self.old.page.items self.new.page.items }
        ensures same { self.new.trial ≡ self.old.trial }
    {
        match self.picture() {
            Ok(text) => self.put_picture(text.as_slice()),
            Err(_) => Err(EarlyEnd::OutOfMemory),
        }
    }

    /// Puts a picture on the page; what it shows is not drawn again.
    fn put_picture(&mut self, text: &[u8]) -> Result<(), EarlyEnd>
        ensures ok { OnOk result (self.new.page.items ≡ self.old.page.items ++ text.now) }
        ensures err { OnErr result (self.new.page.items ≡ self.old.page.items) }
        ensures same { self.new.trial ≡ self.old.trial }
    {
        match self.put(text) {
            Ok(()) => {
                self.forget_drawn();
                Ok(())
            }
            Err(end) => Err(end),
        }
    }

    /// What is drawn is not drawn again.
    fn forget_drawn(&mut self)
        ensures page { self.new.page.items ≡ self.old.page.items }
        ensures same { self.new.trial ≡ self.old.trial }
    {
        if let Some(sketch) = &mut self.sketch {
            sketch.clear();
        }
    }

    /// How the supervisors stand after this line is a column of the picture, if one is wanted. The answer is whether as many
    /// columns wait as stand side by side.
    fn keep_moment(&mut self, line: u64) -> Result<bool, AllocError>
        ensures page { self.new.page.items ≡ self.old.page.items }
        ensures same { self.new.trial ≡ self.old.trial }
    {
        let Some(sketch) = &mut self.sketch else {
            return Ok(false);
        };
        sketch.add(moment_at(self.alloc, &self.trial, line)?)?;
        Ok(sketch.is_full())
    }

    /// How the supervisors stand after this line is a column of the picture, which is drawn once it is as wide as it may be.
    pub(crate) fn add_moment(&mut self, line: u64) -> Result<(), EarlyEnd>
        ensures drawn { (stand : Stand) → AddsTo result stand stand self.old.page.items self.new.page.items }
        ensures same { self.new.trial ≡ self.old.trial }
    {
        match self.keep_moment(line) {
            Ok(is_full) => self.draw_full(is_full),
            Err(_) => Err(EarlyEnd::OutOfMemory),
        }
    }

    /// What is not drawn yet is put on the page, if the picture is as wide as it may be.
    fn draw_full(&mut self, is_full: bool) -> Result<(), EarlyEnd>
        ensures drawn { (stand : Stand) → AddsTo result stand stand self.old.page.items self.new.page.items }
        ensures same { self.new.trial ≡ self.old.trial }
    {
        if is_full { self.draw() } else { Ok(()) }
    }
}

/// The picture of these supervisors at the moments that are not drawn yet.
fn picture_of(
    alloc: Global,
    sketch: &Sketch,
    seats: &[TriedSupervisor],
) -> Result<Vec<u8>, AllocError>
    ensures { IfOk result (λ text. text.items ≡ drawing sketch.now.is_coloured seats.now sketch.now.moments.items) }
{
    let mut text = Vec::new(alloc);
    sketch.draw(seats, &mut text)?;
    Ok(text)
}

/// Plays the lines of the input on the supervisors of a tree, and writes what they order, or a picture of the run and why
/// supervisors ended.
///
/// Where the run ends early, what was told before is written all the same: all that the lines before told, and of the last
/// one, unless memory was refused within it or a history was full, what it did.
pub fn try_tree<R: Input, W: Output>(
    alloc: Global,
    tree: TreeSpec,
    playing: Playing,
    input: &mut R,
    output: &mut W,
) -> TryEnd
    ensures { Tries result tree (tells_orders playing.writer playing.shows) (W.seen output.old).bytes (W.seen output.new).bytes }
{
    let Playing {
        writer,
        shows,
        clock,
    } = playing;
    let settings = Settings {
        writer,
        tells: tells_orders(writer, shows),
        is_quiet: is_quiet(writer, shows),
    };
    let mut told = Vec::new(alloc);
    let trial = match Trial::open(alloc, &tree, settings.tells, clock, &mut told) {
        Ok(trial) => trial,
        Err(halt) => {
            drop(tree);
            return EarlyEnd::from(halt).told();
        }
    };
    drop(tree);
    let mut play = Play {
        alloc,
        trial,
        lines: 0,
        failed: None,
        left_out: None,
        is_played: false,
        is_left: false,
        kept: Vec::new(alloc),
        is_done: false,
        page: told,
        sketch: sketch_of(alloc, shows),
    };
    let end = play.play(settings, input, output);
    drop(play);
    end
}
