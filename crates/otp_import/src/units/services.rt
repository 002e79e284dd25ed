//! Services of systemd as children.

use crate::settings::{Part, Parts};
use crate::units::reading::read_units;
use crate::units::service::{Service, put_service};
use otp_foreign::{Id, ImportFault, ImportWork, Why, set_apart};
use otp_spec::{MAX_CHILDREN, MAX_SHUTDOWN};

/// The milliseconds that a service has to end, where none are said.
const USUAL_STOP: u64 = 90_000;

/// The keys that have a counterpart.
const KNOWN: [&str; 35] = [
    "ExecStart",
    "WorkingDirectory",
    "Environment",
    "EnvironmentFile",
    "User",
    "Group",
    "SupplementaryGroups",
    "UMask",
    "Nice",
    "LimitNOFILE",
    "LimitNPROC",
    "LimitCORE",
    "LimitMEMLOCK",
    "LimitSTACK",
    "StandardOutput",
    "StandardError",
    "Type",
    "TimeoutSec",
    "TimeoutStartSec",
    "WatchdogSec",
    "Restart",
    "RestartSec",
    "RestartMaxDelaySec",
    "SuccessExitStatus",
    "RestartPreventExitStatus",
    "StartLimitBurst",
    "StartLimitIntervalSec",
    "StartLimitInterval",
    "KillSignal",
    "KillMode",
    "NoNewPrivileges",
    "TimeoutStopSec",
    "Description",
    "Documentation",
    "WantedBy",
];

/// What is said of keys by which one waits for another.
const ORDER: &str =
    ": it is left out; the order of the file holds, and after = [..] waits for others";

/// Of those that tie services together.
const TOGETHER: &str =
    ": it is left out; a supervisor's strategy stops and starts children together";

/// Of those that have a folder made.
const FOLDER: &str = ": it is left out; the folder has to be there";

/// Of those that bound what a service uses.
const BOUND: &str =
    ": it is left out; with --cgroup there are memory_max, cpu_weight, cpu_quota, pids_max";

/// The keys that have none, of which more is to be said.
const LEFT_OUT: [(&str, &str); 16] = [
    ("After", ORDER),
    ("Before", ORDER),
    ("Wants", ORDER),
    ("Requires", TOGETHER),
    ("BindsTo", TOGETHER),
    ("PartOf", TOGETHER),
    (
        "ExecReload",
        ": it is left out; ctl signal sends a signal, as HUP",
    ),
    (
        "ExecStartPre",
        ": it is left out; a shell may run it first: [\"sh\", \"-c\", \".. && exec ..\"]",
    ),
    ("RuntimeDirectory", FOLDER),
    ("StateDirectory", FOLDER),
    ("LogsDirectory", FOLDER),
    ("CacheDirectory", FOLDER),
    ("MemoryMax", BOUND),
    ("CPUWeight", BOUND),
    ("CPUQuota", BOUND),
    ("TasksMax", BOUND),
];

/// Whether a key has a counterpart, or says nothing of how a service runs.
fn is_known(key: &[u8]) -> bool {
    for known in &KNOWN {
        if known.as_bytes() == key {
            return true;
        }
    }
    false
}

/// What is said of a setting with a key that isn't taken.
fn what_of(key: &[u8]) -> &'static str {
    for entry in &LEFT_OUT {
        if key == entry.0.as_bytes() {
            return entry.1;
        }
    }
    ": it has no counterpart, and is left out"
}

/// Remarks on settings that have no counterpart.
fn remark_settings(
    work: &mut ImportWork<'_>,
    units: &Parts,
    unit: Part,
) -> Result<(), ImportFault> {
    for number in unit.first..unit.last {
        if let Some(setting) = units.settings.get(number) {
            let key = setting.key.of(work.text);
            if !is_known(key) {
                work.remark(setting.key.start, "key ", key, what_of(key))?;
            }
        }
    }
    Ok(())
}

/// Writes how a service is restarted and stopped.
fn put_policy(work: &mut ImportWork<'_>, service: Service<'_>) -> Result<(), ImportFault> {
    work.put_word("restart", b"transient")?;
    match service.time_or(work.text, b"TimeoutStopSec", USUAL_STOP)? {
        Some(time) => work.put_number("shutdown", time.min(MAX_SHUTDOWN))?,
        None => work.put_word("shutdown", b"infinity")?,
    }
    Ok(())
}

/// Writes a unit as a child, if it is a service.
fn put_unit(
    work: &mut ImportWork<'_>,
    units: &Parts,
    unit: Part,
    taken: &mut Vec<Id>,
) -> Result<(), ImportFault> {
    let whole = unit.name.of(work.text);
    let name = if whole.is_empty() {
        work.remark(
            unit.name.start,
            "",
            b"",
            "no line names this unit, as systemctl cat prints one: it is called service",
        )?;
        Some(b"service".as_slice())
    } else {
        whole.strip_suffix(b".service")
    };
    let Some(name) = name else {
        work.remark(
            unit.name.start,
            "unit ",
            whole,
            ": it is no service, and is left out",
        )?;
        return Ok(());
    };
    if taken.len() >= MAX_CHILDREN {
        return Err(ImportFault::At(unit.name.start, Why::TooMany));
    }
    remark_settings(work, units, unit)?;
    let id = set_apart(Id::of(name), taken)?;
    if id.as_slice() != name {
        work.remark_as(
            unit.name.start,
            "unit ",
            name,
            ": this name stands for it: ",
            id.as_slice(),
        )?;
    }
    let service = Service { units, unit };
    work.put_head("[[", b"", "child]]\n")?;
    work.put_word("id", id.as_slice())?;
    work.put_word("start", id.as_slice())?;
    put_policy(work, service)?;
    put_service(work, service, id.as_slice())
}

/// Writes services as children, in their order, and what each runs as commands.
pub fn put_units(work: &mut ImportWork<'_>) -> Result<(), ImportFault> {
    if std::str::from_utf8(work.text).is_err() {
        return Err(ImportFault::At(0, Why::NotUtf8));
    }
    let units = read_units(work.alloc, work.text)?;
    let mut taken = Vec::new(work.alloc);
    for unit in units.parts.as_slice() {
        put_unit(work, &units, *unit, &mut taken)?;
    }
    if taken.is_empty() {
        return Err(ImportFault::At(0, Why::NoServices));
    }
    Ok(())
}
