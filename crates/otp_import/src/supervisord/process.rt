//! What the file of commands says of one process of a program.

use crate::settings::{Part, Parts, Setting};
use crate::supervisord::expand::{Process, expanded};
use otp_foreign::{ImportFault, ImportWork, Why, is_blank, number_in, write_words};

/// The seconds that a process has to live until it counts as started, where none are said.
const USUAL_START: u64 = 1;

/// The starts that fail in a row until one is given up, where none are said.
const USUAL_TRIES: u64 = 3;

/// A program: the file, and the section of it.
#[derive(Clone, Copy)]
pub(crate) struct Program<'a> {
    pub ini: &'a Parts,
    pub section: &'a Part,
}

/// The first word of a value.
fn first_word(value: &[u8]) -> &[u8] {
    match value.iter().position(|byte| is_blank(*byte)) {
        Some(end) => value.get(..end).unwrap_or(value),
        None => value,
    }
}

impl Program<'_> {
    /// The setting of this key.
    pub fn find(&self, text: &[u8], key: &[u8]) -> Option<Setting> {
        self.ini.find(text, self.section, key)
    }

    /// Whether the setting of this key is this word, in small or large letters; a comment may stand behind it.
    pub fn says(&self, text: &[u8], key: &[u8], word: &[u8]) -> bool {
        match self.find(text, key) {
            Some(setting) => first_word(setting.value.of(text)).eq_ignore_ascii_case(word),
            None => false,
        }
    }

    /// Whether the setting of this key says yes.
    pub fn is_true(&self, text: &[u8], key: &[u8]) -> bool {
        self.says(text, key, b"true")
            || self.says(text, key, b"yes")
            || self.says(text, key, b"1")
            || self.says(text, key, b"on")
    }

    /// The number of this key, or the usual one.
    pub fn number(&self, text: &[u8], key: &[u8], usual: u64) -> Result<u64, ImportFault> {
        let Some(setting) = self.find(text, key) else {
            return Ok(usual);
        };
        match number_in(setting.value.of(text)) {
            Some(number) => Ok(number),
            None => Err(ImportFault::At(setting.value.start, Why::BadNumber)),
        }
    }
}

/// Writes the words of a setting.
fn put_words(
    work: &mut ImportWork<'_>,
    key: &str,
    setting: &Setting,
    process: &Process<'_>,
    by_commas: bool,
) -> Result<(), ImportFault> {
    let value = expanded(work, setting, process)?;
    work.begin_command(key)?;
    write_words(
        value.as_slice(),
        setting.value.start,
        by_commas,
        &mut work.commands,
    )
}

/// Writes the text of a setting, if there is one.
fn put_setting(
    work: &mut ImportWork<'_>,
    program: Program<'_>,
    process: &Process<'_>,
    there: &[u8],
    here: &str,
) -> Result<(), ImportFault> {
    if let Some(setting) = program.find(work.text, there) {
        let value = expanded(work, &setting, process)?;
        work.command_text(here, value.as_slice())?;
    }
    Ok(())
}

/// Writes that a process is started by hand alone.
fn put_by_hand(work: &mut ImportWork<'_>, program: Program<'_>) -> Result<(), ImportFault> {
    if is_no(work.text, program, b"autostart") {
        work.command_word("autostart", "false")?;
    }
    Ok(())
}

/// Writes when a process counts as started, and how often it is started again. What is never started again counts as started at
/// once, so that it may end soon.
fn put_starts(work: &mut ImportWork<'_>, program: Program<'_>) -> Result<(), ImportFault> {
    if is_never(work.text, program) {
        work.command_word("restart_after", "\"1s\"")?;
        work.command_number("give_up_after", 0)?;
        work.command_word("on_give_up", "\"hold\"")?;
        return Ok(());
    }
    let seconds = program.number(work.text, b"startsecs", USUAL_START)?;
    if seconds > 0 {
        work.command_word("ready", "\"after\"")?;
        work.command_number("ready_after", seconds.saturating_mul(1000))?;
    }
    let tries = program.number(work.text, b"startretries", USUAL_TRIES)?;
    work.command_word("restart_after", "[\"1s\", \"10s\"]")?;
    if program.is_true(work.text, b"autorestart") {
        work.command_word("restart_always", "true")?;
    }
    // None would be right for starts that fail alone: what has run is started again there.
    work.command_number("give_up_after", tries.max(1))?;
    work.command_word("on_give_up", "\"hold\"")?;
    Ok(())
}

/// Whether the setting of this key says no.
fn is_no(text: &[u8], program: Program<'_>, key: &[u8]) -> bool {
    program.says(text, key, b"false")
        || program.says(text, key, b"no")
        || program.says(text, key, b"0")
        || program.says(text, key, b"off")
}

/// Whether a process is never started again.
pub(crate) fn is_never(text: &[u8], program: Program<'_>) -> bool {
    is_no(text, program, b"autorestart")
}

/// The word of the file of commands for where an output goes, if it is no file.
fn outlet_of(value: &[u8]) -> Option<&'static str> {
    match value {
        b"NONE" | b"none" | b"/dev/null" => Some("\"null\""),
        b"AUTO" | b"auto" | b"/dev/stdout" | b"/dev/stderr" | b"/dev/fd/1" | b"/dev/fd/2" => Some(
            "\"inherit\"",
        ),
        b"syslog" => Some("\"syslog\""),
        _ => None,
    }
}

/// Writes where an output goes, and whether it is a file.
fn put_outlet(
    work: &mut ImportWork<'_>,
    program: Program<'_>,
    process: &Process<'_>,
    there: &[u8],
    here: &str,
    file: &str,
) -> Result<bool, ImportFault> {
    let Some(setting) = program.find(work.text, there) else {
        return Ok(false);
    };
    if let Some(word) = outlet_of(setting.value.of(work.text)) {
        work.command_word(here, word)?;
        return Ok(false);
    }
    let path = expanded(work, &setting, process)?;
    work.command_word(here, "\"file\"")?;
    work.command_text(file, path.as_slice())?;
    Ok(true)
}

/// Writes how large a file of output may be, and how many old ones are kept.
fn put_sizes(work: &mut ImportWork<'_>, program: Program<'_>) -> Result<(), ImportFault> {
    let size = match program.find(work.text, b"stdout_logfile_maxbytes") {
        Some(setting) => setting.value.of(work.text),
        None => b"50MB",
    };
    if size == b"0".as_slice() {
        return Ok(());
    }
    work.command_text("output_max", size.strip_suffix(b"B").unwrap_or(size))?;
    let kept = program.number(work.text, b"stdout_logfile_backups", 10)?;
    work.command_number("output_keep", kept)?;
    Ok(())
}

/// Writes where what a process writes goes.
fn put_output(
    work: &mut ImportWork<'_>,
    program: Program<'_>,
    process: &Process<'_>,
) -> Result<(), ImportFault> {
    let is_file = put_outlet(
        work,
        program,
        process,
        b"stdout_logfile",
        "output",
        "output_file",
    )?;
    if is_file {
        put_sizes(work, program)?;
    }
    if program.is_true(work.text, b"redirect_stderr") {
        work.command_word("errors", "\"same\"")?;
        return Ok(());
    }
    put_outlet(
        work,
        program,
        process,
        b"stderr_logfile",
        "errors",
        "errors_file",
    )?;
    Ok(())
}

/// Writes by which signal a process is asked to end, and who gets it.
fn put_signal(work: &mut ImportWork<'_>, program: Program<'_>) -> Result<(), ImportFault> {
    if let Some(setting) = program.find(work.text, b"stopsignal") {
        let word = setting.value.of(work.text);
        let word = word.strip_prefix(b"SIG").unwrap_or(word);
        work.command_text("signal", word)?;
    }
    if !program.is_true(work.text, b"stopasgroup") {
        work.command_word("signal_to", "\"process\"")?;
    }
    Ok(())
}

/// Writes the table of one process, whose start word is this one.
pub(crate) fn put_process(
    work: &mut ImportWork<'_>,
    program: Program<'_>,
    process: &Process<'_>,
    word: &[u8],
) -> Result<(), ImportFault> {
    let Some(command) = program.find(work.text, b"command") else {
        return Err(ImportFault::At(program.section.name.start, Why::NoCommand));
    };
    work.command_head(word)?;
    put_words(work, "command", &command, process, false)?;
    put_setting(work, program, process, b"directory", "folder")?;
    if let Some(setting) = program.find(work.text, b"environment") {
        put_words(work, "env", &setting, process, true)?;
    }
    put_setting(work, program, process, b"user", "user")?;
    put_setting(work, program, process, b"umask", "umask")?;
    put_output(work, program, process)?;
    put_by_hand(work, program)?;
    put_starts(work, program)?;
    if let Some(setting) = program.find(work.text, b"exitcodes") {
        put_words(work, "normal_status", &setting, process, true)?;
    }
    put_signal(work, program)
}
