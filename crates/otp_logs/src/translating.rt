//! A log comes in, and lines go out that a replay takes.

ghost use Rattle.std.specs.Prelude.{◌≡◌, ◌+◌, IfOk, OnOk};
ghost use Rattle.otp_logs.specs.Lines.{ends_in};
ghost use Rattle.otp_logs.specs.Translated.{IsTranslated, SaysFormat, StandsFor, front_text, notes_text};

use crate::daemon::{self, Daemon};
use crate::format::{Format, format_of, is_plain};
use crate::ids::Ids;
use crate::journal::Journal;
use crate::known::Known;
use crate::lines::{append_line, behind_line, line_end, put_end};
use crate::log::Log;
use crate::seeking::{line_behind, place_of_bytes};
use crate::words::strip;
use crate::{elixir, objects, otp, supervisord};
use otp_file::TreeSpec;
use otp_foreign::{Range, line_at, write_byte};
use std::alloc::{AllocError, Global};

/// How a log is read.
#[derive(Clone, Copy)]
pub struct LogWords<'a> {
    /// What it is called, before each remark.
    pub name: &'a str,
    /// The file that says which children its names mean; nothing where there is none.
    pub ids: &'a [u8],
    /// A child that the tree doesn't have is handed on, and not left out.
    pub is_strict: bool,
    /// Lines that say nothing of children stand as they are, and not as a dash.
    pub keeps_others: bool,
}

/// What stands for a log of another program.
#[derive(Drop)]
pub struct Translation {
    pub format: Format,
    /// A line for each of its lines.
    pub lines: Vec<u8>,
    /// Which format it has, how many lines say what happened to children, and which were left out.
    pub notes: Vec<u8>,
}

/// Who reads the lines.
#[derive(Drop)]
struct Reader {
    format: Format,
    /// It has reports of Elixir's supervisors: what processes say themselves would be told twice.
    has_reports: bool,
    report: otp::Report,
    elixir: elixir::Reading,
    journal: Journal,
    daemon: Daemon,
}

impl Reader {
    /// Nothing was read yet.
    fn new(alloc: Global, format: Format, text: &[u8]) -> Self {
        let has_reports = matches!(format, Format::Elixir | Format::Objects)
            && place_of_bytes(text, all_of(text), b" of Supervisor ").is_some();
        Reader {
            format,
            has_reports,
            report: otp::Report::NONE,
            elixir: elixir::Reading::NONE,
            journal: Journal::new(alloc),
            daemon: Daemon::new(alloc),
        }
    }

    /// The next line.
    fn take(&mut self, log: &mut Log<'_>, line: Range) -> Result<(), AllocError> {
        match self.format {
            Format::Otp => {
                self.report = otp::take_line(log, self.report, line)?;
                Ok(())
            }
            Format::Elixir => {
                self.elixir = elixir::take_line(log, self.elixir, self.has_reports, line)?;
                Ok(())
            }
            Format::Supervisord => supervisord::take_line(log, line),
            Format::Journal => self.journal.take_line(log, line),
            Format::JournalObjects => self.journal.take_object(log, line),
            Format::Objects => objects::take_object(log, self.has_reports, line),
            Format::Daemon => self.daemon.take_line(log, line),
            Format::DaemonObjects => self.daemon.take_object(log, line),
        }
    }
}

/// All of a text.
fn all_of(text: &[u8]) -> Range {
    Range {
        start: 0,
        end: text.len(),
    }
}

/// Whether a run of the program begins with a line, in a log that may have several.
fn is_beginning(format: Format, text: &[u8], line: Range) -> bool {
    match format {
        Format::Supervisord => supervisord::is_beginning(text, line),
        Format::Daemon | Format::DaemonObjects => daemon::is_beginning(text, line),
        _ => false,
    }
}

/// The place at which the last run begins.
fn begin_of(format: Format, text: &[u8]) -> usize {
    let mut begin: usize = 0;
    let mut line = line_at(text, 0);
    for _ in 0..text.len().saturating_add(1) {
        if is_beginning(format, text, line) {
            begin = line.start;
        }
        match line_behind(text, line) {
            Some(next) => line = next,
            None => return begin,
        }
    }
    begin
}

/// Leaves in its place what stands for a line.
fn take_line(
    reader: &mut Reader,
    log: &mut Log<'_>,
    line: Range,
    is_read: bool,
    keeps_others: bool,
) -> Result<(), AllocError> {
    log.is_put = false;
    log.line.clear();
    if is_read {
        reader.take(log, line)?;
    }
    if !log.is_put {
        let bytes = line.of(log.text);
        if is_plain(bytes) {
            // A replay would play it, and another program's log says what happened otherwise.
            log.count_plain();
        } else if keeps_others {
            log.line.extend_from_slice(bytes)?;
        } else if !strip(bytes).is_empty() {
            // It is counted as a line that isn't played, and its text isn't wanted.
            write_byte(b'-', &mut log.line)?;
        }
    }
    log.number = log.number.saturating_add(1);
    Ok(())
}

/// Writes what stands for a line, which isn't ended.
fn put_line(
    reader: &mut Reader,
    log: &mut Log<'_>,
    line: Range,
    is_read: bool,
    keeps_others: bool,
    out: &mut Vec<u8>,
) -> Result<(), AllocError>
    ensures { OnOk result (ends_in out.new.items ≡ ends_in out.old.items) }
{
    take_line(reader, log, line, is_read, keeps_others)?;
    append_line(log.line.as_slice(), out)
}

/// Writes what stands for a line that is ended.
fn put_ended(
    reader: &mut Reader,
    log: &mut Log<'_>,
    line: Range,
    is_read: bool,
    keeps_others: bool,
    out: &mut Vec<u8>,
) -> Result<(), AllocError>
    ensures { OnOk result (ends_in out.new.items ≡ ends_in out.old.items + 1) }
{
    put_line(reader, log, line, is_read, keeps_others, out)?;
    put_end(out)?;
    Ok(())
}

/// Writes what stands for all lines of a text, of which those from this place on are read.
fn put_lines(
    reader: &mut Reader,
    log: &mut Log<'_>,
    text: &[u8],
    begin: usize,
    keeps_others: bool,
    out: &mut Vec<u8>,
) -> Result<(), AllocError>
    ensures { OnOk result (ends_in out.new.items ≡ ends_in out.old.items + ends_in text.now) }
{
    let mut start: usize = 0;
    let mut rest = text;
    while let Some(end) = line_end(rest) {
        let line = Range {
            start,
            end: start.saturating_add(end),
        };
        put_ended(reader, log, line, start >= begin, keeps_others, out)?;
        start = line.end.saturating_add(1);
        rest = behind_line(rest, end);
    }
    let line = Range {
        start,
        end: text.len(),
    };
    put_line(reader, log, line, start >= begin, keeps_others, out)?;
    Ok(())
}

/// The lines that stand for those of a text.
#[tactic(auto, unfolding(crate::specs::Lines::ends_in))]
fn make_lines(
    alloc: Global,
    reader: &mut Reader,
    log: &mut Log<'_>,
    text: &[u8],
    begin: usize,
    keeps_others: bool,
) -> Result<Vec<u8>, AllocError>
    ensures { IfOk result (λ lines. StandsFor lines.items text.now) }
{
    let mut lines = Vec::new(alloc);
    put_lines(reader, log, text, begin, keeps_others, &mut lines)?;
    Ok(lines)
}

/// What is told of a log that has a name and a format, before what was counted.
#[tactic(auto, unfolding(crate::specs::Translated::front_text))]
fn front_of(is_last: bool) -> &'static str
    ensures { result.now ≡ front_text is_last }
{
    if is_last { "the last run in " } else { "" }
}

/// Notes on a log of this name and format, of which this was counted.
#[tactic(auto, unfolding(crate::specs::Translated::notes_text))]
fn notes_of(
    alloc: Global,
    name: &str,
    is_last: bool,
    format: Format,
    counts: &[u8],
) -> Result<Vec<u8>, AllocError>
    ensures { IfOk result (λ notes. notes.items ≡ notes_text name.now is_last format counts.now) }
{
    let mut notes = Vec::new(alloc);
    notes.extend_from_slice(name.as_bytes())?;
    notes.extend_from_slice(b": ")?;
    notes.extend_from_slice(front_of(is_last).as_bytes())?;
    notes.extend_from_slice(format.text().as_bytes())?;
    notes.extend_from_slice(b": ")?;
    notes.extend_from_slice(counts)?;
    Ok(notes)
}

/// Notes on a log that was read.
fn make_notes(
    alloc: Global,
    log: &Log<'_>,
    name: &str,
    is_last: bool,
    format: Format,
) -> Result<Vec<u8>, AllocError>
    ensures { IfOk result (λ notes. SaysFormat name.now format notes.items) }
{
    let mut counts = Vec::new(alloc);
    log.tell(&mut counts)?;
    let notes = notes_of(alloc, name, is_last, format, counts.as_slice())?;
    drop(counts);
    Ok(notes)
}

/// Reads a log of this format.
fn read_log(
    alloc: Global,
    tree: &TreeSpec,
    format: Format,
    text: &[u8],
    words: LogWords<'_>,
) -> Result<Translation, AllocError>
    ensures { IfOk result (λ found. (found.format ≡ format)
        × (StandsFor found.lines.items text.now × SaysFormat words.entry.name.now format found.notes.items)) }
{
    let known = Known::of(alloc, tree)?;
    let Ok(ids) = Ids::read(alloc, words.ids) else {
        drop(known);
        return Err(AllocError);
    };
    let has_paths = matches!(format, Format::Daemon | Format::DaemonObjects);
    let begin = begin_of(format, text);
    let mut log = Log::new(
        alloc,
        words.name,
        text,
        known,
        ids,
        words.is_strict,
        has_paths,
    );
    let mut reader = Reader::new(alloc, format, text);
    let made = make_lines(
        alloc,
        &mut reader,
        &mut log,
        text,
        begin,
        words.keeps_others,
    );
    drop(reader);
    let Ok(lines) = made else {
        drop(log);
        return Err(AllocError);
    };
    let told = make_notes(alloc, &log, words.name, begin > 0, format);
    drop(log);
    let Ok(notes) = told else {
        drop(lines);
        return Err(AllocError);
    };
    Ok(Translation {
        format,
        lines,
        notes,
    })
}

/// What stands for a log of another program: as many lines, of which each that a replay plays says what the line in its place says,
/// or the report that this line belongs to. None where a replay takes the log as it stands, or it is of no program that is known.
///
/// # Errors
///
/// Where memory is refused.
pub fn translate_log(
    alloc: Global,
    tree: &TreeSpec,
    text: &[u8],
    words: LogWords<'_>,
) -> Result<Option<Translation>, AllocError>
    ensures { IfOk result (λ found. IsTranslated words.entry.name.now text.now found) }
{
    let Some(format) = format_of(text) else {
        return Ok(None);
    };
    let found = read_log(alloc, tree, format, text, words)?;
    Ok(Some(found))
}
