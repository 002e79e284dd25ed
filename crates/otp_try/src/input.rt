//! The input of a run: what is told is written before each read, and each line is taken as it ends.

ghost use Rattle.std.specs.Prelude.{List, [], ◌≡◌, ◌≤◌, IfOk, OnOk, length, vec_len};
ghost use Rattle.otp_try.specs.Pages.{AddsTo, Ran};
ghost use Rattle.otp_trial.specs.Played.{Stand};

use crate::early::EarlyEnd;
use crate::play::{Play, Writer};
use crate::remark::Topic;
use crate::settings::Settings;
use otp_script::ScriptFault;
use otp_sim::{Input, Output, PIECE, write_all};
use otp_text::LONGEST_LINE;
use std::alloc::{AllocError, Global};

impl Play {
    /// What stands before the first line: how to go on, for a person; what a picture means, and its first column.
    fn begin(&mut self, settings: Settings) -> Result<(), EarlyEnd>
        ensures { AddsTo result self.old.trial self.new.trial self.old.page.items self.new.page.items }
    {
        match self.welcome(settings) {
            Ok(()) => self.begin_picture(),
            Err(end) => Err(end),
        }
    }

    /// What a picture means, and its first column, if one is wanted.
    fn begin_picture(&mut self) -> Result<(), EarlyEnd>
        ensures { AddsTo result self.old.trial self.new.trial self.old.page.items self.new.page.items }
    {
        match self.write_legend() {
            Ok(()) => self.add_moment(0),
            Err(end) => Err(end),
        }
    }

    /// Puts what the cells of a picture mean on the page, if one is wanted.
    fn write_legend(&mut self) -> Result<(), EarlyEnd>
        ensures { AddsTo result self.old.trial self.new.trial self.old.page.items self.new.page.items }
    {
        if self.sketch.is_some() {
            self.remark(Topic::Legend)
        } else {
            Ok(())
        }
    }

    /// All lines of the input, to its end or to the line that ends the run. What is told is written before each read.
    pub(crate) fn run<R: Input, W: Output>(
        &mut self,
        settings: Settings,
        input: &mut R,
        output: &mut W,
    ) -> Result<(), EarlyEnd>
        ensures { Ran result self.old.trial self.new.trial self.old.page.items self.new.page.items (W.seen output.old).bytes (W.seen output.new).bytes }
    {
        match self.begin(settings) {
            Ok(()) => self.open_input(settings, input, output),
            Err(end) => Err(end),
        }
    }

    /// All of the input is played.
    fn open_input<R: Input, W: Output>(
        &mut self,
        settings: Settings,
        input: &mut R,
        output: &mut W,
    ) -> Result<(), EarlyEnd>
        ensures { Ran result self.old.trial self.new.trial self.old.page.items self.new.page.items (W.seen output.old).bytes (W.seen output.new).bytes }
    {
        let Ok(mut buffer) = zeros(self.alloc, PIECE) else {
            return Err(EarlyEnd::OutOfMemory);
        };
        self.serve_all(settings, &mut buffer, input, output)
    }

    /// All pieces of the input, to its end or to the line that ends the run.
    fn serve_all<R: Input, W: Output>(
        &mut self,
        settings: Settings,
        buffer: &mut [u8],
        input: &mut R,
        output: &mut W,
    ) -> Result<(), EarlyEnd>
        requires { PIECE ≤ length buffer.old }
        ensures { Ran result self.old.trial self.new.trial self.old.page.items self.new.page.items (W.seen output.old).bytes (W.seen output.new).bytes }
    {
        let mut kept = Vec::new(self.alloc);
        for _ in 0..u64::MAX {
            match self.serve(settings, &mut kept, buffer, input, output) {
                Ok(true) => {}
                Ok(false) => return self.end_input(settings, kept.as_slice()),
                Err(end) => return Err(end),
            }
        }
        Err(EarlyEnd::InputFailed)
    }

    /// What is told is written, a prompt behind it for a person; then a piece of the input is read, and played. The answer is
    /// whether there was one.
    fn serve<R: Input, W: Output>(
        &mut self,
        settings: Settings,
        kept: &mut Vec<u8>,
        buffer: &mut [u8],
        input: &mut R,
        output: &mut W,
    ) -> Result<bool, EarlyEnd>
        requires { PIECE ≤ length buffer.old }
        ensures ran { Ran result self.old.trial self.new.trial self.old.page.items self.new.page.items (W.seen output.old).bytes (W.seen output.new).bytes }
        ensures size { length buffer.new ≡ length buffer.old }
    {
        let is_fresh = kept.is_empty();
        match self.ask(settings, is_fresh, output) {
            Ok(()) => self.serve_next(settings, kept, buffer, input, output),
            Err(end) => Err(end),
        }
    }

    /// A piece of the input is read, and played. The answer is whether there was one.
    fn serve_next<R: Input, W: Output>(
        &mut self,
        settings: Settings,
        kept: &mut Vec<u8>,
        buffer: &mut [u8],
        input: &mut R,
        output: &mut W,
    ) -> Result<bool, EarlyEnd>
        requires { PIECE ≤ length buffer.old }
        ensures ran { Ran result self.old.trial self.new.trial self.old.page.items self.new.page.items (W.seen output.old).bytes (W.seen output.new).bytes }
        ensures size { length buffer.new ≡ length buffer.old }
    {
        let Ok(count) = input.read(buffer) else {
            return Err(EarlyEnd::InputFailed);
        };
        if count == 0 {
            return Ok(false);
        }
        match self.take_piece(settings, kept, &buffer[..count], output) {
            Ok(()) => Ok(!self.is_left),
            Err(end) => Err(end),
        }
    }

    /// What is told is written, a prompt behind it for a person who has not begun a line.
    fn ask<W: Output>(
        &mut self,
        settings: Settings,
        is_fresh: bool,
        output: &mut W,
    ) -> Result<(), EarlyEnd>
        ensures { Ran result self.old.trial self.new.trial self.old.page.items self.new.page.items (W.seen output.old).bytes (W.seen output.new).bytes }
    {
        match self.prompt(settings, is_fresh) {
            Ok(()) => self.hand_out(output),
            Err(end) => Err(end),
        }
    }

    /// Some bytes of the input: each line that ends in them is taken. The beginning of the next one is kept.
    fn take_piece<W: Output>(
        &mut self,
        settings: Settings,
        kept: &mut Vec<u8>,
        piece: &[u8],
        output: &mut W,
    ) -> Result<(), EarlyEnd>
        ensures { Ran result self.old.trial self.new.trial self.old.page.items self.new.page.items (W.seen output.old).bytes (W.seen output.new).bytes }
    {
        for byte in piece {
            if let Err(end) = self.take_byte(settings, kept, *byte, output) {
                return Err(end);
            }
        }
        Ok(())
    }

    /// A byte of the input: a line that ends with it is taken, and else it is kept.
    fn take_byte<W: Output>(
        &mut self,
        settings: Settings,
        kept: &mut Vec<u8>,
        byte: u8,
        output: &mut W,
    ) -> Result<(), EarlyEnd>
        ensures { Ran result self.old.trial self.new.trial self.old.page.items self.new.page.items (W.seen output.old).bytes (W.seen output.new).bytes }
    {
        if byte != b'\n' {
            return self.keep_byte(settings, kept, byte);
        }
        match self.take_line(settings, kept.as_slice()) {
            Ok(()) => {
                kept.clear();
                self.hand_out_much(output)
            }
            Err(end) => Err(end),
        }
    }

    /// A byte of a line that goes on is kept, unless the line is too long for all that follows: then a script or a log ends.
    fn keep_byte(
        &mut self,
        settings: Settings,
        kept: &mut Vec<u8>,
        byte: u8,
    ) -> Result<(), EarlyEnd>
        ensures { AddsTo result self.old.trial self.new.trial self.old.page.items self.new.page.items }
    {
        if settings.writer != Writer::Person && is_too_long(kept.len()) {
            self.refuse_long()
        } else {
            keep(kept, byte)
        }
    }

    /// The line that goes on is too long.
    fn refuse_long(&mut self) -> Result<(), EarlyEnd>
        ensures { AddsTo result self.old.trial self.new.trial self.old.page.items self.new.page.items }
    {
        self.begin_line();
        Err(EarlyEnd::LineRefused(self.lines, ScriptFault::TooLong))
    }

    /// The end of the input, behind the prompt that a person saw, and the last line, if there is one.
    fn end_input(&mut self, settings: Settings, last: &[u8]) -> Result<(), EarlyEnd>
        ensures { AddsTo result self.old.trial self.new.trial self.old.page.items self.new.page.items }
    {
        match self.leave_prompt(settings) {
            Ok(()) => self.take_last(settings, last),
            Err(end) => Err(end),
        }
    }

    /// What is on the page is written, and gone from it.
    pub(crate) fn hand_out<W: Output>(&mut self, output: &mut W) -> Result<(), EarlyEnd>
        ensures ran { (stand : Stand) → Ran result stand stand self.old.page.items self.new.page.items (W.seen output.old).bytes (W.seen output.new).bytes }
        ensures empty { OnOk result (self.new.page.items ≡ []) }
        ensures same { self.new.trial ≡ self.old.trial }
    {
        let Ok(()) = write_all(output, self.page.as_slice()) else {
            return Err(EarlyEnd::OutputFailed);
        };
        self.page.clear();
        Ok(())
    }

    /// What is on the page is written, if it is much.
    fn hand_out_much<W: Output>(&mut self, output: &mut W) -> Result<(), EarlyEnd>
        ensures ran { (stand : Stand) → Ran result stand stand self.old.page.items self.new.page.items (W.seen output.old).bytes (W.seen output.new).bytes }
        ensures same { self.new.trial ≡ self.old.trial }
    {
        if self.page.len() < PIECE {
            return Ok(());
        }
        self.hand_out(output)
    }
}

/// Whether a line is too long, whatever its last byte is.
fn is_too_long(length: usize) -> bool {
    length > LONGEST_LINE + 1
}

/// Keeps a byte of a line that goes on: of a line that is too long no more than shows that, whether its last byte is a CR
/// or not.
fn keep(kept: &mut Vec<u8>, byte: u8) -> Result<(), EarlyEnd> {
    if is_too_long(kept.len()) {
        return Ok(());
    }
    match kept.push(byte) {
        Ok(()) => Ok(()),
        Err(_) => Err(EarlyEnd::OutOfMemory),
    }
}

/// So many zeros.
fn zeros(alloc: Global, size: usize) -> Result<Vec<u8>, AllocError>
    ensures { IfOk result (λ buffer. vec_len buffer ≡ size) }
{
    Vec::from_elem(alloc, 0u8, size)
}
