//! The programs of supervisord as children, and as commands.

use crate::settings::{Part, Parts, Setting};
use crate::supervisord::expand::{Process, expanded};
use crate::supervisord::ini::read_ini;
use crate::supervisord::order::{Unit, members_of, missing_in, name_of, units_of};
use crate::supervisord::process::{Program, is_never, put_process};
use otp_foreign::{Id, ImportFault, ImportWork, Why, set_apart};
use otp_spec::{MAX_CHILDREN, MAX_SHUTDOWN};

/// The seconds that a process has to end, where none are said.
const USUAL_STOP: u64 = 10;

/// The keys of a program that have a counterpart.
const KNOWN: [&str; 23] = [
    "command",
    "process_name",
    "numprocs",
    "numprocs_start",
    "directory",
    "environment",
    "user",
    "umask",
    "priority",
    "autostart",
    "autorestart",
    "startsecs",
    "startretries",
    "stopsignal",
    "stopwaitsecs",
    "stopasgroup",
    "killasgroup",
    "exitcodes",
    "redirect_stderr",
    "stdout_logfile",
    "stdout_logfile_maxbytes",
    "stdout_logfile_backups",
    "stderr_logfile",
];

/// Whether a key of a program has a counterpart.
fn is_known(key: &[u8]) -> bool {
    for known in &KNOWN {
        if known.as_bytes() == key {
            return true;
        }
    }
    false
}

/// Remarks on the settings of a program that have no counterpart.
fn remark_settings(
    work: &mut ImportWork<'_>,
    ini: &Parts,
    section: &Part,
) -> Result<(), ImportFault> {
    for number in section.first..section.last {
        if let Some(setting) = ini.settings.get(number) {
            let key = setting.key.of(work.text);
            if !is_known(key) {
                work.remark(
                    setting.key.start,
                    "key ",
                    key,
                    ": it has no counterpart, and is left out",
                )?;
            }
        }
    }
    Ok(())
}

/// What is said of a section that is neither a program nor a group.
fn what_of(name: &[u8]) -> &'static str {
    match name {
        b"include" => "]: the files that it names aren't read; import them as well",
        b"supervisord" => "]: of the daemon itself; see the options of otp-procs",
        b"unix_http_server" | b"inet_http_server" | b"supervisorctl" =>
            "]: in its place stands otp-procs ctl",
        _ => "]: it has no counterpart, and is left out",
    }
}

/// Remarks on the sections that are neither.
fn remark_sections(work: &mut ImportWork<'_>, ini: &Parts) -> Result<(), ImportFault> {
    for section in ini.parts.as_slice() {
        let name = section.name.of(work.text);
        if !name.starts_with(b"program:") && !name.starts_with(b"group:") {
            work.remark(section.name.start, "[", name, what_of(name))?;
        }
    }
    Ok(())
}

/// Whether a word says of `autorestart` what supervisord knows.
fn is_autorestart(text: &[u8], program: Program<'_>) -> bool {
    program.is_true(text, b"autorestart")
        || is_never(text, program)
        || program.says(text, b"autorestart", b"unexpected")
}

/// Writes how a program is restarted and stopped.
fn put_policy(work: &mut ImportWork<'_>, program: Program<'_>) -> Result<(), ImportFault> {
    if let Some(setting) = program.find(work.text, b"autorestart") {
        if !is_autorestart(work.text, program) {
            return Err(ImportFault::At(setting.value.start, Why::BadAutorestart));
        }
    }
    work.put_word("restart", b"transient")?;
    let seconds = program.number(work.text, b"stopwaitsecs", USUAL_STOP)?;
    work.put_number("shutdown", seconds.saturating_mul(1000).min(MAX_SHUTDOWN))?;
    Ok(())
}

/// Where children are written: below a path, and of which group.
#[derive(Clone, Copy)]
struct Place<'a> {
    path: &'a [u8],
    group: Option<&'a [u8]>,
}

/// The name of a process, by which supervisord's log calls it: what `process_name` says, or the program's, with a number if there
/// are several.
fn own_name(
    work: &mut ImportWork<'_>,
    program: Program<'_>,
    process: &Process<'_>,
    is_alone: bool,
) -> Result<Id, ImportFault> {
    if let Some(setting) = program.find(work.text, b"process_name") {
        let name = expanded(work, &setting, process)?;
        return Ok(Id::of(name.as_slice().trim_ascii()));
    }
    let whole = Id::of(process.name);
    if is_alone {
        Ok(whole)
    } else {
        Ok(whole.numbered(usize::try_from(process.number).unwrap_or(0)))
    }
}

/// Writes one process of a program.
fn put_one(
    work: &mut ImportWork<'_>,
    program: Program<'_>,
    place: &Place<'_>,
    process: &Process<'_>,
    is_alone: bool,
    taken: &mut Vec<Id>,
    words: &mut Vec<Id>,
) -> Result<(), ImportFault> {
    if words.len() >= MAX_CHILDREN {
        return Err(ImportFault::At(program.section.name.start, Why::TooMany));
    }
    let own = own_name(work, program, process, is_alone)?;
    let id = set_apart(own, taken)?;
    let word = set_apart(own, words)?;
    if is_alone && id.as_slice() != process.name {
        work.remark_as(
            program.section.name.start,
            "program ",
            process.name,
            ": this name stands for it: ",
            id.as_slice(),
        )?;
    }
    work.put_head("[[", place.path, "child]]\n")?;
    work.put_word("id", id.as_slice())?;
    work.put_word("start", word.as_slice())?;
    put_policy(work, program)?;
    put_process(work, program, process, word.as_slice())
}

/// Writes the processes of a program.
fn put_program(
    work: &mut ImportWork<'_>,
    ini: &Parts,
    section: &Part,
    place: &Place<'_>,
    taken: &mut Vec<Id>,
    words: &mut Vec<Id>,
) -> Result<(), ImportFault> {
    let program = Program { ini, section };
    let name = name_of(work.text, section, b"program:").unwrap_or(b"");
    remark_settings(work, ini, section)?;
    let count = program.number(work.text, b"numprocs", 1)?;
    let first = program.number(work.text, b"numprocs_start", 0)?;
    for number in 0..count.min(1000) {
        let process = Process {
            name,
            group: place.group.unwrap_or(name),
            number: first.saturating_add(number),
        };
        put_one(work, program, place, &process, count == 1, taken, words)?;
    }
    Ok(())
}

/// Remarks on the first name of a group's list that no program has.
fn remark_missing(
    work: &mut ImportWork<'_>,
    ini: &Parts,
    programs: &Setting,
) -> Result<(), ImportFault> {
    if let Some(name) = missing_in(work.text, ini, programs) {
        let text = work.text;
        work.remark(
            name.start,
            "program ",
            name.of(text),
            ": no [program:NAME] has this name here",
        )?;
    }
    Ok(())
}

/// Writes a group as a supervisor of its programs.
fn put_group(
    work: &mut ImportWork<'_>,
    ini: &Parts,
    section: &Part,
    taken: &mut Vec<Id>,
    words: &mut Vec<Id>,
) -> Result<(), ImportFault> {
    let name = name_of(work.text, section, b"group:").unwrap_or(b"");
    let id = set_apart(Id::of(name), taken)?;
    work.put_head("[[", b"", "child]]\n")?;
    work.put_word("id", id.as_slice())?;
    work.put_word("start", id.as_slice())?;
    work.put_head("[", b"", "child.tree]\n")?;
    let Some(programs) = ini.find(work.text, section, b"programs") else {
        return Ok(());
    };
    let members = members_of(work.alloc, work.text, ini, &programs)?;
    let place = Place {
        path: b"child.tree.",
        group: Some(name),
    };
    let mut inner = Vec::new(work.alloc);
    remark_missing(work, ini, &programs)?;
    for unit in members.as_slice() {
        put_program(work, ini, &unit.section, &place, &mut inner, words)?;
    }
    Ok(())
}

/// Writes programs and groups in their order.
fn put_units(work: &mut ImportWork<'_>, ini: &Parts, units: &[Unit]) -> Result<(), ImportFault> {
    let mut taken = Vec::new(work.alloc);
    let mut words = Vec::new(work.alloc);
    let place = Place {
        path: b"",
        group: None,
    };
    for unit in units {
        if unit.is_group {
            put_group(work, ini, &unit.section, &mut taken, &mut words)?;
        } else {
            put_program(work, ini, &unit.section, &place, &mut taken, &mut words)?;
        }
    }
    if words.is_empty() {
        return Err(ImportFault::At(0, Why::NoPrograms));
    }
    Ok(())
}

/// Writes the programs of supervisord's file as children, and what each runs as commands.
pub fn put_programs(work: &mut ImportWork<'_>) -> Result<(), ImportFault> {
    if std::str::from_utf8(work.text).is_err() {
        return Err(ImportFault::At(0, Why::NotUtf8));
    }
    let ini = read_ini(work.alloc, work.text)?;
    remark_sections(work, &ini)?;
    let units = units_of(work.alloc, work.text, &ini)?;
    put_units(work, &ini, units.as_slice())
}
