//! What was meant by words and values that other languages and programs have.

use crate::hints::allowed::Key;
use otp_file::{ChildKey, FlagKey};
use toml::Value;

/// A word, and what it stands for here.
type Meaning = (&'static str, &'static str);

const RESTARTS: [Meaning; 9] = [
    ("always", "permanent"),
    ("yes", "permanent"),
    ("on_failure", "transient"),
    ("on_abnormal", "transient"),
    ("unless_stopped", "transient"),
    ("abnormal", "transient"),
    ("never", "temporary"),
    ("no", "temporary"),
    ("none", "temporary"),
];

const STRATEGIES: [Meaning; 6] = [
    ("one", "one_for_one"),
    ("all", "one_for_all"),
    ("rest", "rest_for_one"),
    ("one_for_rest", "rest_for_one"),
    ("all_for_one", "one_for_all"),
    ("simple", "simple_one_for_one"),
];

const SHUTDOWNS: [Meaning; 7] = [
    ("kill", "brutal_kill"),
    ("brutal", "brutal_kill"),
    ("sigkill", "brutal_kill"),
    ("never", "infinity"),
    ("infinite", "infinity"),
    ("inf", "infinity"),
    ("forever", "infinity"),
];

const AUTO_SHUTDOWNS: [Meaning; 4] = [
    ("any", "any_significant"),
    ("all", "all_significant"),
    ("none", "never"),
    ("no", "never"),
];

const KINDS: [Meaning; 3] = [
    ("sup", "supervisor"),
    ("process", "worker"),
    ("gen_server", "worker"),
];

const FLAG_KEYS: [Meaning; 13] = [
    ("max_restarts", "intensity"),
    ("maxr", "intensity"),
    ("max_r", "intensity"),
    ("restarts", "intensity"),
    ("max_seconds", "period"),
    ("maxt", "period"),
    ("max_t", "period"),
    ("seconds", "period"),
    ("within", "period"),
    ("restart_strategy", "strategy"),
    ("children", "child"),
    ("childs", "child"),
    ("worker", "child"),
];

const CHILD_KEYS: [Meaning; 12] = [
    ("name", "id"),
    ("mfa", "start"),
    ("module", "start"),
    ("function", "start"),
    ("restart_type", "restart"),
    ("policy", "restart"),
    ("timeout", "shutdown"),
    ("stop_timeout", "shutdown"),
    ("shutdown_timeout", "shutdown"),
    ("kind", "type"),
    ("child_type", "type"),
    ("children", "tree"),
];

/// Headers that a supervisor of another language may have, and the root here has not.
const ROOT_HEADERS: [&str; 5] = ["supervisor", "sup", "root", "flags", "sup_flags"];

/// Whether a key, in small letters, is a header for the root.
pub fn is_root_header(key: &str) -> bool {
    ROOT_HEADERS.iter().any(|header| *header == key)
}

/// Keys of a child that say what its process is, which `otp-procs` reads.
const PROCESS_KEYS: [&str; 43] = [
    "command",
    "folder",
    "env",
    "env_file",
    "clear_env",
    "user",
    "group",
    "groups",
    "umask",
    "nice",
    "limits",
    "no_new_privileges",
    "memory_max",
    "cpu_weight",
    "cpu_quota",
    "pids_max",
    "output",
    "output_file",
    "output_max",
    "output_keep",
    "output_socket",
    "errors",
    "errors_file",
    "ready",
    "ready_after",
    "ready_line",
    "notify_fd",
    "ready_within",
    "watchdog",
    "ready_blocks",
    "after",
    "autostart",
    "restart_after",
    "restart_always",
    "give_up_after",
    "on_give_up",
    "ignored_status",
    "normal_status",
    "signal",
    "signal_to",
    "use",
    "enabled",
    "instances",
];

/// Keys of other programs for a pause before a restart.
const PAUSES: [&str; 5] = [
    "backoff",
    "delay",
    "restart_delay",
    "restart_sec",
    "restartsec",
];

/// What to do about a key of a child, in small letters, that stands for none here.
pub fn what_child_key(key: &str) -> &'static str {
    if PROCESS_KEYS.iter().any(|other| *other == key) {
        "; otp-procs has this key: otp-procs show FILE prints the tree without it"
    } else if PAUSES.iter().any(|other| *other == key) {
        "; OTP starts a child again at once; otp-procs may wait: its key is restart_after"
    } else {
        ""
    }
}

/// What to do about a key of a supervisor, in small letters, that stands for none here.
pub fn what_flag_key(key: &str) -> &'static str {
    match key {
        "include" => "; otp-procs has this key: otp-procs show FILE prints the tree without it",
        _ => "",
    }
}

/// What a word stands for by these meanings.
fn look_up(word: &str, meanings: &[Meaning]) -> Option<&'static str> {
    for (other, meant) in meanings {
        if word == *other {
            return Some(*meant);
        }
    }
    None
}

/// What this word, in small letters, stands for at a key.
pub fn meant_word(key: Key, word: &str) -> Option<&'static str> {
    match key {
        Key::Flag(FlagKey::Strategy) => look_up(word, &STRATEGIES),
        Key::Flag(FlagKey::AutoShutdown) => look_up(word, &AUTO_SHUTDOWNS),
        Key::Child(ChildKey::Restart) => look_up(word, &RESTARTS),
        Key::Child(ChildKey::Shutdown) => look_up(word, &SHUTDOWNS),
        Key::Child(ChildKey::Kind) => look_up(word, &KINDS),
        _ => None,
    }
}

/// The key of a supervisor that this one, in small letters, stands for.
pub fn meant_flag(key: &str) -> Option<&'static str> {
    look_up(key, &FLAG_KEYS)
}

/// The key of a child that this one, in small letters, stands for.
pub fn meant_child_key(key: &str) -> Option<&'static str> {
    look_up(key, &CHILD_KEYS)
}

/// What to do about a value, where more can be told than what is allowed.
pub fn what_value(key: Key, value: &Value) -> &'static str {
    match value {
        Value::String(text) => what_text(key, text.as_str()),
        Value::Float(number) => what_float(key, *number),
        Value::Boolean(is_true) => what_truth(key, *is_true),
        Value::Integer(number) => what_number(key, *number),
        Value::Array(_) if key == Key::Child(ChildKey::Start) => MODULE_ALONE,
        Value::Array(_) if key == Key::Child(ChildKey::Tree) => {
            "; its header has one pair of brackets: [child.tree]"
        }
        Value::Datetime(_) => what_date(key),
        Value::Table(_) if key == Key::Flag(FlagKey::Child) => {
            "; each child has a header in two brackets"
        }
        _ => "",
    }
}

/// What to do about a start that is a function with its arguments.
const MODULE_ALONE: &str = "; write the module alone, without the function and its arguments";

/// What to do about a whole number.
fn what_number(key: Key, number: i64) -> &'static str {
    match (key, number) {
        (Key::Child(ChildKey::Id | ChildKey::Start), _) => "; a name stands between quotes",
        (Key::Child(ChildKey::Significant), 0) => "; write false",
        (Key::Child(ChildKey::Significant), _) => "; write true",
        _ => "",
    }
}

/// What to do about a truth value.
fn what_truth(key: Key, is_true: bool) -> &'static str {
    match (key, is_true) {
        (Key::Child(ChildKey::Restart), true) => "; write \"permanent\"",
        (Key::Child(ChildKey::Restart), false) => "; write \"temporary\"",
        (Key::Child(ChildKey::Shutdown), _) => {
            "; write how many milliseconds it has, or \"brutal_kill\" where it has none"
        }
        (Key::Flag(FlagKey::AutoShutdown), true) => {
            "; write \"any_significant\" or \"all_significant\""
        }
        (Key::Flag(FlagKey::AutoShutdown), false) => "; write \"never\"",
        _ => "",
    }
}

/// What to do about a number with a fraction.
fn what_float(key: Key, number: f64) -> &'static str {
    match key {
        Key::Child(ChildKey::Shutdown) if number.is_infinite() => "; write \"infinity\"",
        Key::Child(ChildKey::Shutdown) if number.is_nan() => "",
        Key::Flag(_) if !number.is_finite() => "",
        Key::Flag(FlagKey::Intensity | FlagKey::Period) => "; write it without a point",
        Key::Child(ChildKey::Shutdown) => "; write it without a point",
        _ => "",
    }
}

/// What to do about a date, or a time of day.
fn what_date(key: Key) -> &'static str {
    match key {
        Key::Flag(FlagKey::Period) => "; write the number of seconds",
        Key::Child(ChildKey::Shutdown) => "; write the number of milliseconds",
        _ => "",
    }
}

/// What to do about a text.
fn what_text(key: Key, text: &str) -> &'static str {
    match key {
        Key::Flag(FlagKey::Intensity) if is_count(text) => "; a number stands without quotes",
        Key::Flag(FlagKey::Period) if is_count(text) => {
            "; write the number of seconds, without quotes and without a unit"
        }
        Key::Child(ChildKey::Shutdown) if is_count(text) => {
            "; write the number of milliseconds, without quotes and without a unit"
        }
        Key::Child(ChildKey::Significant) if is_truth(text) => "; true and false have no quotes",
        Key::Child(ChildKey::Significant) if text == "yes" || text == "on" => "; write true",
        Key::Child(ChildKey::Significant) if text == "no" || text == "off" => "; write false",
        Key::Child(ChildKey::Start) if text.starts_with('{') || text.contains(':') => MODULE_ALONE,
        Key::Child(ChildKey::Id) if text.contains('/') => {
            "; a path isn't written: below pool the child a is one of pool's [child.tree], with the id a"
        }
        Key::Child(ChildKey::Id | ChildKey::Start) if text.contains(' ') => "; write _ for a space",
        Key::Child(ChildKey::Tree) => {
            "; a tree stands in the file itself: write [child.tree], and below it its keys and children"
        }
        Key::Child(ChildKey::Modules) if text != "dynamic" => {
            "; names stand in brackets: [\"a\", \"b\"]"
        }
        _ => "",
    }
}

/// Whether a text begins as a number does.
fn is_count(text: &str) -> bool {
    match text.as_bytes().first() {
        Some(byte) => byte.is_ascii_digit(),
        None => false,
    }
}

/// Whether a text is a truth value.
fn is_truth(text: &str) -> bool {
    text == "true" || text == "false"
}
