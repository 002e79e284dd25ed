//! What the file of commands says of a service.

use crate::settings::{Part, Parts, Setting};
use crate::units::time::time_in;
use crate::units::words::{Variables, is_for_shell, plain_value, put_shell, without_signs};
use otp_foreign::{
    ImportFault, ImportWork, Why, is_blank, number_in, write_number, write_text, write_words,
};

/// A service: all units, and which it is.
#[derive(Clone, Copy)]
pub(crate) struct Service<'a> {
    pub units: &'a Parts,
    pub unit: Part,
}

impl Service<'_> {
    /// The last setting of this key in its section of this name; none where that says nothing.
    pub fn find_in(&self, text: &[u8], section: &[u8], key: &[u8]) -> Option<Setting> {
        let setting = self.units.find_in(text, &self.unit, section, key)?;
        if setting.value.of(text).is_empty() {
            return None;
        }
        Some(setting)
    }

    /// The setting of a key in the section of the service.
    pub fn find(&self, text: &[u8], key: &[u8]) -> Option<Setting> {
        self.find_in(text, b"Service", key)
    }

    /// The value of a key, or nothing.
    pub fn value<'t>(&self, text: &'t [u8], key: &[u8]) -> &'t [u8] {
        match self.find(text, key) {
            Some(setting) => setting.value.of(text),
            None => b"",
        }
    }

    /// The milliseconds of a key, or the usual ones; none where it is `infinity`.
    pub fn time(&self, text: &[u8], key: &[u8], usual: u64) -> Result<Option<u64>, ImportFault> {
        let Some(setting) = self.find(text, key) else {
            return Ok(Some(usual));
        };
        let value = setting.value.of(text);
        if value == b"infinity".as_slice() {
            return Ok(None);
        }
        match time_in(value) {
            Some(time) => Ok(Some(time)),
            None => Err(ImportFault::At(setting.value.start, Why::BadTime)),
        }
    }

    /// The time of a key in whose place `TimeoutSec` may stand.
    pub fn time_or(&self, text: &[u8], key: &[u8], usual: u64) -> Result<Option<u64>, ImportFault> {
        if self.find(text, key).is_some() {
            return self.time(text, key, usual);
        }
        self.time(text, b"TimeoutSec", usual)
    }

    /// Whether it is started again after an end that isn't asked for.
    pub fn is_restarted(&self, text: &[u8]) -> bool {
        let word = self.value(text, b"Restart");
        !word.is_empty() && word != b"no".as_slice() && word != b"on-success".as_slice()
    }
}

/// Writes the text of a setting at a key, if there is one.
fn put_setting(
    work: &mut ImportWork<'_>,
    service: Service<'_>,
    there: &[u8],
    here: &str,
) -> Result<(), ImportFault> {
    if let Some(setting) = service.find(work.text, there) {
        let value = plain_value(work, &setting, Variables::Remarked)?;
        work.command_text(here, value.as_slice())?;
    }
    Ok(())
}

/// Writes the words of a setting at a key, if there is one.
fn put_words(
    work: &mut ImportWork<'_>,
    service: Service<'_>,
    there: &[u8],
    here: &str,
) -> Result<(), ImportFault> {
    if let Some(setting) = service.find(work.text, there) {
        let value = plain_value(work, &setting, Variables::Remarked)?;
        work.begin_command(here)?;
        write_words(
            value.as_slice(),
            setting.value.start,
            false,
            &mut work.commands,
        )?;
    }
    Ok(())
}

/// Writes what a service runs.
fn put_command(work: &mut ImportWork<'_>, service: Service<'_>) -> Result<(), ImportFault> {
    let Some(setting) = service.find(work.text, b"ExecStart") else {
        return Err(ImportFault::At(service.unit.name.start, Why::NoCommand));
    };
    let by_shell = is_for_shell(without_signs(setting.value.of(work.text)));
    let variables = if by_shell {
        Variables::Known
    } else {
        Variables::Remarked
    };
    let value = plain_value(work, &setting, variables)?;
    let command = without_signs(value.as_slice());
    if command.len() < value.as_slice().len() {
        work.remark(
            setting.value.start,
            "",
            b"",
            "the signs before this command have no counterpart, and are left out",
        )?;
    }
    work.begin_command("command")?;
    if by_shell {
        put_shell(command, &mut work.commands)?;
        return Ok(());
    }
    write_words(command, setting.value.start, false, &mut work.commands)
}

/// Writes the variables of a service, each line's behind the others'.
fn put_variables(work: &mut ImportWork<'_>, service: Service<'_>) -> Result<(), ImportFault> {
    let mut all = Vec::new(work.alloc);
    let mut place = 0;
    for number in service.unit.first..service.unit.last {
        if let Some(setting) = service.units.settings.get(number) {
            if setting.key.of(work.text) == b"Environment".as_slice() {
                let value = plain_value(work, setting, Variables::Remarked)?;
                all.extend_from_slice(value.as_slice())?;
                all.extend_from_slice(b" ")?;
                place = setting.value.start;
            }
        }
    }
    if all.is_empty() {
        return Ok(());
    }
    work.begin_command("env")?;
    write_words(all.as_slice(), place, false, &mut work.commands)
}

/// Writes when a service counts as started.
fn put_ready(work: &mut ImportWork<'_>, service: Service<'_>) -> Result<(), ImportFault> {
    let Some(setting) = service.find(work.text, b"Type") else {
        return Ok(());
    };
    match setting.value.of(work.text) {
        b"simple" | b"exec" => {}
        b"notify" | b"notify-reload" => {
            work.command_word("ready", "\"sd_notify\"")?;
            if let Some(time) = service.time_or(work.text, b"TimeoutStartSec", 90_000)? {
                work.command_number("ready_within", time)?;
            } else {
                work.command_word("ready_within", "\"infinity\"")?;
            }
        }
        b"forking" => work.remark(
            setting.value.start,
            "",
            b"",
            "a program that makes itself a daemon has to be told not to",
        )?,
        word => work.remark(
            setting.value.start,
            "Type=",
            word,
            ": it has no counterpart; the service counts as started at once",
        )?,
    }
    Ok(())
}

/// Writes how a service is started again. One that isn't is left down where it has ended.
fn put_restart(work: &mut ImportWork<'_>, service: Service<'_>) -> Result<(), ImportFault> {
    if !service.is_restarted(work.text) {
        work.command_word("restart_after", "\"1s\"")?;
        work.command_number("give_up_after", 0)?;
        work.command_word("on_give_up", "\"hold\"")?;
        return Ok(());
    }
    let time = service
        .time(work.text, b"RestartSec", 100)?
        .unwrap_or(60_000);
    let most = service
        .time(work.text, b"RestartMaxDelaySec", 60_000)?
        .unwrap_or(60_000);
    work.begin_command("restart_after")?;
    work.commands.extend_from_slice(b"[\"")?;
    write_number(time, &mut work.commands)?;
    work.commands.extend_from_slice(b"ms\", \"")?;
    write_number(time.max(most), &mut work.commands)?;
    work.commands.extend_from_slice(b"ms\"]\n")?;
    if service.value(work.text, b"Restart") == b"always".as_slice() {
        work.command_word("restart_always", "true")?;
    }
    // There the limit is one of starts within a time: so many that are further apart never reach it.
    let burst = burst_of(work.text, service)?;
    if burst > 0 && burst.saturating_mul(time) < interval_of(work.text, service)? {
        work.command_number("give_up_after", burst)?;
        work.command_word("on_give_up", "\"hold\"")?;
    }
    Ok(())
}

/// The setting of a key of the unit, which older files have in the section of the service.
fn find_limit(text: &[u8], service: Service<'_>, key: &[u8]) -> Option<Setting> {
    match service.find_in(text, b"Unit", key) {
        Some(setting) => Some(setting),
        None => service.find(text, key),
    }
}

/// The milliseconds within which starts are counted; 0 where they aren't.
fn interval_of(text: &[u8], service: Service<'_>) -> Result<u64, ImportFault> {
    let found = match find_limit(text, service, b"StartLimitIntervalSec") {
        Some(setting) => Some(setting),
        None => find_limit(text, service, b"StartLimitInterval"),
    };
    let Some(setting) = found else {
        return Ok(10_000);
    };
    let value = setting.value.of(text);
    if value == b"infinity".as_slice() {
        return Ok(u64::MAX);
    }
    match time_in(value) {
        Some(time) => Ok(time),
        None => Err(ImportFault::At(setting.value.start, Why::BadTime)),
    }
}

/// Appends the statuses of a setting, if there is one: its numbers. Of others there is a remark.
fn add_statuses(
    work: &mut ImportWork<'_>,
    service: Service<'_>,
    key: &[u8],
    all: &mut Vec<u8>,
) -> Result<(), ImportFault> {
    let Some(setting) = service.find(work.text, key) else {
        return Ok(());
    };
    let value = setting.value.of(work.text);
    for byte in value {
        if !byte.is_ascii_digit() && !is_blank(*byte) {
            work.remark(
                setting.value.start,
                "",
                value,
                ": of statuses numbers alone have a counterpart, so these are left out",
            )?;
            return Ok(());
        }
    }
    all.extend_from_slice(value)?;
    all.extend_from_slice(b" ")?;
    Ok(())
}

/// Writes which statuses are no error. After these a service isn't started again, unless it always is.
fn put_statuses(work: &mut ImportWork<'_>, service: Service<'_>) -> Result<(), ImportFault> {
    let mut all = Vec::new(work.alloc);
    add_statuses(work, service, b"SuccessExitStatus", &mut all)?;
    add_statuses(work, service, b"RestartPreventExitStatus", &mut all)?;
    if all.is_empty() {
        return Ok(());
    }
    work.begin_command("normal_status")?;
    write_words(all.as_slice(), 0, false, &mut work.commands)
}

/// How many starts in a row are tried; 0 where there is no end of them.
fn burst_of(text: &[u8], service: Service<'_>) -> Result<u64, ImportFault> {
    let Some(setting) = find_limit(text, service, b"StartLimitBurst") else {
        return Ok(5);
    };
    match number_in(setting.value.of(text)) {
        Some(number) => Ok(number),
        None => Err(ImportFault::At(setting.value.start, Why::BadNumber)),
    }
}

/// Writes where what a service writes goes, by this setting.
fn put_outlet(
    work: &mut ImportWork<'_>,
    setting: Setting,
    here: &str,
    file_key: &str,
) -> Result<(), ImportFault> {
    match setting.value.of(work.text) {
        b"journal" | b"journal+console" => work.command_word(here, "\"journal\"")?,
        b"syslog" => work.command_word(here, "\"syslog\"")?,
        b"null" => work.command_word(here, "\"null\"")?,
        b"inherit" if here == "errors" => work.command_word(here, "\"same\"")?,
        b"inherit" => work.command_word(here, "\"inherit\"")?,
        word => match word.strip_prefix(b"append:") {
            Some(file) => {
                work.command_word(here, "\"file\"")?;
                work.command_text(file_key, file)?;
            }
            None => {
                let key = setting.key.of(work.text);
                work.remark(
                    setting.key.start,
                    "key ",
                    key,
                    ": this value has no counterpart, and is left out",
                )?;
            }
        },
    }
    Ok(())
}

/// Writes where the output and the errors of a service go.
fn put_output(work: &mut ImportWork<'_>, service: Service<'_>) -> Result<(), ImportFault> {
    match service.find(work.text, b"StandardOutput") {
        Some(setting) => put_outlet(work, setting, "output", "output_file")?,
        None => work.command_word("output", "\"journal\"")?,
    }
    if let Some(setting) = service.find(work.text, b"StandardError") {
        put_outlet(work, setting, "errors", "errors_file")?;
    }
    Ok(())
}

/// Writes by which signal a service is asked to end, and who gets it.
fn put_signal(work: &mut ImportWork<'_>, service: Service<'_>) -> Result<(), ImportFault> {
    let word = service.value(work.text, b"KillSignal");
    let word = word.strip_prefix(b"SIG").unwrap_or(word);
    if !word.is_empty() {
        work.command_text("signal", word)?;
    }
    let mode = service.value(work.text, b"KillMode");
    if mode == b"process".as_slice() || mode == b"mixed".as_slice() {
        work.command_word("signal_to", "\"process\"")?;
    }
    if service.value(work.text, b"NoNewPrivileges") == b"true".as_slice()
        || service.value(work.text, b"NoNewPrivileges") == b"yes".as_slice()
    {
        work.command_word("no_new_privileges", "true")?;
    }
    Ok(())
}

/// The limits that are taken: each key of systemd's, and what stands here before its value.
const LIMITS: [(&str, &str); 5] = [
    ("LimitNOFILE", "nofile="),
    ("LimitNPROC", "nproc="),
    ("LimitCORE", "core="),
    ("LimitMEMLOCK", "memlock="),
    ("LimitSTACK", "stack="),
];

/// Writes the limits of a service.
fn put_limits(work: &mut ImportWork<'_>, service: Service<'_>) -> Result<(), ImportFault> {
    let mut all = Vec::new(work.alloc);
    for entry in &LIMITS {
        let value = service.value(work.text, entry.0.as_bytes());
        if !value.is_empty() {
            let mut limit = Vec::from_slice(work.alloc, entry.1.as_bytes())?;
            limit.extend_from_slice(value)?;
            if !all.is_empty() {
                all.extend_from_slice(b", ")?;
            }
            write_text(limit.as_slice(), &mut all)?;
        }
    }
    if all.is_empty() {
        return Ok(());
    }
    work.begin_command("limits")?;
    work.commands.extend_from_slice(b"[")?;
    work.commands.extend_from_slice(all.as_slice())?;
    work.commands.extend_from_slice(b"]\n")?;
    Ok(())
}

/// Writes the priority of a service.
fn put_nice(work: &mut ImportWork<'_>, service: Service<'_>) -> Result<(), ImportFault> {
    let value = service.value(work.text, b"Nice");
    let value = value.strip_prefix(b"+").unwrap_or(value);
    let digits = value.strip_prefix(b"-").unwrap_or(value);
    if number_in(digits).is_none() {
        return Ok(());
    }
    work.begin_command("nice")?;
    work.commands.extend_from_slice(value)?;
    work.commands.extend_from_slice(b"\n")?;
    Ok(())
}

/// Writes the watchdog's time, if there is one.
fn put_watchdog(work: &mut ImportWork<'_>, service: Service<'_>) -> Result<(), ImportFault> {
    if let Some(time) = service.time(work.text, b"WatchdogSec", 0)? {
        if time > 0 {
            work.command_number("watchdog", time)?;
        }
    }
    Ok(())
}

/// Writes the table of a service, whose start word is this one.
pub(crate) fn put_service(
    work: &mut ImportWork<'_>,
    service: Service<'_>,
    word: &[u8],
) -> Result<(), ImportFault> {
    work.command_head(word)?;
    put_command(work, service)?;
    put_setting(work, service, b"WorkingDirectory", "folder")?;
    put_variables(work, service)?;
    put_setting(work, service, b"EnvironmentFile", "env_file")?;
    put_setting(work, service, b"User", "user")?;
    put_setting(work, service, b"Group", "group")?;
    put_words(work, service, b"SupplementaryGroups", "groups")?;
    put_setting(work, service, b"UMask", "umask")?;
    put_nice(work, service)?;
    put_limits(work, service)?;
    put_output(work, service)?;
    put_ready(work, service)?;
    put_watchdog(work, service)?;
    put_restart(work, service)?;
    put_statuses(work, service)?;
    put_signal(work, service)
}
