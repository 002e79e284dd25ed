//! A supervisor's core that is played: lines are turned into events, and orders into text.

ghost use Rattle.std.specs.Prelude.{[], ◌≡◌, ◌+◌, ◌<◌, ◌≤◌, ◌++◌, None, Some, OnOk, IfOk, IfSome, is_some, option_copied, option_map};
ghost use Rattle.otp_text.specs.Lines.{IsTimely, line_with};
ghost use Rattle.otp_text.specs.Words.{words_left};
ghost use Rattle.otp_text.specs.declared.line.Line.TheVariants as said;
ghost use Rattle.otp_core.specs.View.{stored_state};
ghost use Rattle.otp_sim.specs.Sim.{begin_form, begin_line, happen, is_due, next_kind, opened, orders_text, take_read, ticked, told_by, went_on};
ghost use Rattle.otp_sim.specs.Devices.{Begins};
ghost use Rattle.otp_sim.specs.Runs.{with_text};
ghost use Rattle.otp_sim.specs.declared.driven.TheConstants.{LINE_LIMIT};

use crate::driven::LinesEnd;
use otp_core::{Core, EventFault, MAX_EVENTS, ReplyAnswer};
use otp_reason::Note;
use otp_rules::{Effect, Item, Kind, Reply};
use otp_spec::SupSpec;
use otp_text::{
    Line, Printer, Verb, cut_verb, line_fault, read_line_with, read_note_with, read_without_verb,
};
use std::alloc::{AllocError, Global};
use std::marker::Model;

/// A core, the clock, and what a run of `sim` counts.
#[derive(Drop)]
pub struct Player {
    core: Core,
    printer: Printer,
    /// The clock's reading, in milliseconds.
    reading: u64,
    /// The greatest call number given.
    calls: u64,
    is_stopping: bool,
    /// How many lines were read.
    lines: u64,
    end: Option<LinesEnd>,
}

impl Model for Player {
    ghost use Rattle.otp_sim.specs.Sim.{Sim};

    ghost Value = { Sim };

    ghost use Rattle.otp_sim.specs.PlayerInside.{sim_of_player, IsPlayer};

    ghost view = { sim_of_player };

    ghost invariant = { IsPlayer };
}

/// Prints the orders of a core.
fn print_orders(core: &Core, printer: &mut Printer, out: &mut Vec<u8>) -> Result<(), AllocError>
    ensures ok { OnOk result (out.new.items ≡ out.old.items ++ orders_text (stored_state core.now).replies core.now.effects) }
    ensures kept { Begins out.old.items out.new.items }
{
    print_all(core, core.effects(), printer, out)
}

#[tactic(auto, unfolding(crate::specs::Sim::orders_text))]
fn print_all(
    core: &Core,
    effects: &[Effect],
    printer: &mut Printer,
    out: &mut Vec<u8>,
) -> Result<(), AllocError>
    ensures ok { OnOk result (out.new.items ≡ out.old.items ++ orders_text (stored_state core.now).replies effects.now) }
    ensures kept { Begins out.old.items out.new.items }
{
    for effect in effects {
        let reply = told_by(core, effect);
        printer.print(effect, reply, out)?;
    }
    Ok(())
}

/// The answer that an order tells of. It is there where the order was given since the last checkpoint.
#[tactic(auto, unfolding(crate::specs::Sim::told_by))]
fn told_by<'a>(core: &'a Core, effect: &Effect) -> Option<&'a Reply>
    ensures { option_map (λ r. r.now) result ≡ told_by effect.now (stored_state core.now).replies }
{
    match effect {
        Effect::Reply(call) => match core.reply(*call) {
            ReplyAnswer::Kept(reply) => Some(reply),
            ReplyAnswer::Gone | ReplyAnswer::NotYet => None,
        },
        _ => None,
    }
}

impl Player {
    /// A player whose supervisor was opened under the number 0. What that prints is put into a list, empty so far.
    ///
    /// # Errors
    ///
    /// Where memory is refused.
    #[tactic(auto, unfolding(crate::specs::Sim::opened))]
    pub fn open(alloc: Global, supervisor: SupSpec, out: &mut Vec<u8>) -> Result<Self, AllocError>
        requires { out.old.items ≡ [] }
        ensures { IfOk result (λ player. with_text out.new.items player ≡ opened supervisor.flags supervisor.specs) }
    {
        let mut player = Player {
            core: Core::of(alloc, supervisor),
            printer: Printer::new(alloc),
            reading: 0,
            calls: 0,
            is_stopping: false,
            lines: 0,
            end: None,
        };
        player.happen(&Kind::Opened(0), out)?;
        Ok(player)
    }

    /// Something happens now.
    fn happen(&mut self, kind: &Kind, out: &mut Vec<u8>) -> Result<(), AllocError>
        ensures ok { OnOk result (with_text out.new.items self.new ≡ happen kind.now (with_text out.old.items self.old)) }
        ensures kept { Begins out.old.items out.new.items }
        ensures lines { self.new.lines ≡ self.old.lines }
    {
        let last = self.core.last_number();
        match self.core.happen_after(MAX_EVENTS, self.reading, kind, last) {
            Ok(_) => {}
            Err(EventFault::HistoryFull) => {
                self.end = Some(LinesEnd::HistoryFull);
                return Ok(());
            }
            // No order waits.
            Err(EventFault::OutOfMemory | EventFault::OrdersWait) => return Err(AllocError),
        }
        let printed = print_orders(&self.core, &mut self.printer, out);
        self.core.clear_effects();
        printed
    }

    /// What happens after a line, if something does.
    #[tactic(auto, unfolding(crate::specs::Sim::next_kind))]
    fn next_kind(&self) -> Option<Kind>
        ensures { result ≡ next_kind self.now }
    {
        if self.end.is_some() {
            return None;
        }
        self.core.idle_kind(self.is_stopping)
    }

    /// The next of what follows a line by itself, and whether something did.
    ///
    /// # Errors
    ///
    /// Where memory is refused. Then part of the text may have been appended, and the player is not used again.
    #[tactic(auto, unfolding(crate::specs::Sim::went_on))]
    pub(crate) fn play_next(&mut self, out: &mut Vec<u8>) -> Result<bool, AllocError>
        ensures ok { OnOk result (with_text out.new.items self.new ≡ went_on (with_text out.old.items self.old)) }
        ensures happened { IfOk result (λ happened. happened ≡ is_some (next_kind self.old)) }
        ensures kept { Begins out.old.items out.new.items }
        ensures lines { self.new.lines ≡ self.old.lines }
    {
        let Some(kind) = self.next_kind() else {
            return Ok(false);
        };
        self.happen(&kind, out)?;
        Ok(true)
    }

    /// What a process tells happens.
    #[tactic(auto, unfolding(crate::specs::Sim::take_read))]
    fn take_note(&mut self, note: Note, out: &mut Vec<u8>) -> Result<(), AllocError>
        ensures ok { OnOk result (with_text out.new.items self.new ≡ take_read (said.Note note) (with_text out.old.items self.old)) }
        ensures kept { Begins out.old.items out.new.items }
        ensures lines { self.new.lines ≡ self.old.lines }
    {
        self.happen(&Kind::Took(Item::Note(note)), out)
    }

    /// What a line does by itself.
    #[tactic(auto, unfolding(crate::specs::Sim::take_read, crate::specs::Sim::ticked, crate::specs::Sim::is_due))]
    fn take_read(&mut self, line: Line, out: &mut Vec<u8>) -> Result<(), AllocError>
        requires calls { self.old.calls < self.old.lines }
        requires time { IsTimely line }
        requires lines { self.old.lines < LINE_LIMIT }
        ensures ok { OnOk result (with_text out.new.items self.new ≡ take_read line (with_text out.old.items self.old)) }
        ensures kept { Begins out.old.items out.new.items }
        ensures lines { self.new.lines ≡ self.old.lines }
    {
        match line {
            Line::Empty => Ok(()),
            Line::At(reading) => {
                self.reading = reading;
                if self.core.is_due(reading) {
                    return self.happen(&Kind::Ticked, out);
                }
                Ok(())
            }
            Line::Note(note) => self.take_note(note, out),
            Line::Stop => {
                self.is_stopping = true;
                Ok(())
            }
            Line::Call(call) => {
                self.calls += 1;
                self.happen(&Kind::Took(Item::Call(self.calls, call)), out)
            }
        }
    }
}

impl Player {
    /// What a line does by itself that has a form, or none.
    #[tactic(auto, unfolding(crate::specs::Sim::begin_form))]
    fn begin_form(
        &mut self,
        bytes: &[u8],
        line: Option<Line>,
        out: &mut Vec<u8>,
    ) -> Result<(), AllocError>
        requires calls { self.old.calls < self.old.lines }
        requires time { IfSome line (λ read. IsTimely read) }
        requires lines { self.old.lines < LINE_LIMIT }
        ensures ok { OnOk result (with_text out.new.items self.new ≡ begin_form bytes.now line (with_text out.old.items self.old)) }
        ensures kept { Begins out.old.items out.new.items }
        ensures lines { self.new.lines ≡ self.old.lines }
    {
        match line {
            None => {
                self.end = Some(LinesEnd::LineRefused(self.lines, line_fault(bytes)));
                Ok(())
            }
            Some(read) => self.take_read(read, out),
        }
    }

    /// What a line of the input, without its LF, does by itself. What that prints is appended.
    ///
    /// # Errors
    ///
    /// Where memory is refused. Then part of the text may have been appended, and the player is not used again.
    #[tactic(auto, unfolding(crate::specs::Sim::begin_line))]
    pub(crate) fn play_line(&mut self, line: &[u8], out: &mut Vec<u8>) -> Result<(), AllocError>
        requires { self.old.lines + 1 < LINE_LIMIT }
        ensures ok { OnOk result (with_text out.new.items self.new ≡ begin_line line.now (with_text out.old.items self.old)) }
        ensures kept { Begins out.old.items out.new.items }
        ensures lines { self.new.lines ≤ self.old.lines + 1 }
    {
        if self.end.is_some() {
            return Ok(());
        }
        self.lines += 1;
        match cut_verb(line) {
            Some((verb, rest)) => self.play_verb(line, verb, rest, out),
            None => self.begin_form(line, read_without_verb(line), out),
        }
    }

    /// What a line with this verb, and these words after it, does by itself.
    #[tactic(auto, unfolding(crate::specs::Sim::begin_form))]
    fn play_verb(
        &mut self,
        bytes: &[u8],
        verb: Verb,
        rest: Option<&[u8]>,
        out: &mut Vec<u8>,
    ) -> Result<(), AllocError>
        requires calls { self.old.calls < self.old.lines }
        requires lines { self.old.lines < LINE_LIMIT }
        ensures ok { OnOk result (with_text out.new.items self.new ≡ begin_form bytes.now (line_with verb (words_left (option_copied rest.entry))) (with_text out.old.items self.old)) }
        ensures kept { Begins out.old.items out.new.items }
        ensures lines { self.new.lines ≡ self.old.lines }
    {
        match read_note_with(verb, rest) {
            Some(note) => self.take_note(note, out),
            None => self.play_other(bytes, verb, rest, out),
        }
    }

    /// What a line does by itself that is no note, or has no form. It stands apart from the notes, which are most lines:
    /// what any line may say is several times as large.
    #[inline(never)]
    fn play_other(
        &mut self,
        bytes: &[u8],
        verb: Verb,
        rest: Option<&[u8]>,
        out: &mut Vec<u8>,
    ) -> Result<(), AllocError>
        requires calls { self.old.calls < self.old.lines }
        requires lines { self.old.lines < LINE_LIMIT }
        ensures ok { OnOk result (with_text out.new.items self.new ≡ begin_form bytes.now (line_with verb (words_left (option_copied rest.entry))) (with_text out.old.items self.old)) }
        ensures kept { Begins out.old.items out.new.items }
        ensures lines { self.new.lines ≡ self.old.lines }
    {
        self.begin_form(bytes, read_line_with(verb, rest), out)
    }

    /// Why no line is taken any more, if none is.
    pub(crate) fn stop(&self) -> Option<LinesEnd>
        ensures { result ≡ self.now.end }
    {
        self.end
    }
}
