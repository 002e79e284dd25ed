//! What single values of the file say. Each function is given the value at a key, if there is one.
ghost use Rattle.std.specs.Prelude.{◌≡◌, ◌≤◌, IfOk, Some, map, option_map};
ghost use Rattle.std.specs.List.{list_all};
ghost use Rattle.otp_file.specs.Values.{auto_shutdown_at, intensity_at, is_text, kind_at, modules_at, modules_in, name_at, names_in, number_within, period_at, restart_at, shutdown_at, significant_at, strategy_at, word_in};
ghost use Rattle.otp_spec.specs.Words as words;
ghost use Rattle.otp_spec.specs.Words.{shutdown_of};
ghost use Rattle.toml.specs.Data.{as_str};
ghost use Rattle.toml.specs.View.{items_view, view};

use otp_reason::Name;
use otp_spec::{
    AutoShutdown, ChildType, MAX_INTENSITY, MAX_PERIOD, MAX_SHUTDOWN, Modules, Restart, Shutdown,
    Strategy, SupFlags,
};
use toml::Value;

/// Why a value cannot stand at its key.
#[derive(Clone, Copy, Debug, PartialEq, Eq)]
pub enum Unfit {
    /// It is of another kind, or another word.
    WrongKind,
    /// It is a number, a text or a list out of its limits.
    OutOfLimits,
}

/// A whole number from `low` to `high`.
fn number_within(value: &Value, low: u64, high: u64) -> Result<u64, Unfit>
    ensures answer { result ≡ number_within low high (view value.now) }
    ensures limits { IfOk result (λ n. (low ≤ n) × (n ≤ high)) }
{
    let Some(number) = value.as_integer() else {
        return Err(Unfit::WrongKind);
    };
    match u64::try_from(number) {
        Ok(number) if low <= number && number <= high => Ok(number),
        _ => Err(Unfit::OutOfLimits),
    }
}

/// `strategy` (Supervisor Behaviour, "Restart Strategy").
pub(crate) fn strategy_at(value: Option<&Value>) -> Result<Strategy, Unfit>
    ensures { result ≡ strategy_at (option_map (λ v. view v.now) value.entry) }
{
    let Some(value) = value else {
        return Ok(SupFlags::default().strategy);
    };
    match value.as_str() {
        Some(text) => Strategy::of_word(text.as_bytes()).ok_or(Unfit::WrongKind),
        None => Err(Unfit::WrongKind),
    }
}

/// `intensity` (Supervisor Behaviour, "Maximum Restart Intensity").
pub(crate) fn intensity_at(value: Option<&Value>) -> Result<u64, Unfit>
    ensures answer { result ≡ intensity_at (option_map (λ v. view v.now) value.entry) }
    ensures limit { IfOk result (λ n. n ≤ MAX_INTENSITY) }
{
    match value {
        None => Ok(SupFlags::default().intensity),
        Some(value) => number_within(value, 0, MAX_INTENSITY),
    }
}

/// `period`, in seconds (Supervisor Behaviour, "Maximum Restart Intensity").
pub(crate) fn period_at(value: Option<&Value>) -> Result<u64, Unfit>
    ensures answer { result ≡ period_at (option_map (λ v. view v.now) value.entry) }
    ensures limits { IfOk result (λ n. (1 ≤ n) × (n ≤ MAX_PERIOD)) }
{
    match value {
        None => Ok(SupFlags::default().period),
        Some(value) => number_within(value, 1, MAX_PERIOD),
    }
}

/// `auto_shutdown` (Supervisor Behaviour, "Automatic Shutdown").
pub(crate) fn auto_shutdown_at(value: Option<&Value>) -> Result<AutoShutdown, Unfit>
    ensures { result ≡ auto_shutdown_at (option_map (λ v. view v.now) value.entry) }
{
    let Some(value) = value else {
        return Ok(SupFlags::default().auto_shutdown);
    };
    match value.as_str() {
        Some(text) => AutoShutdown::of_word(text.as_bytes()).ok_or(Unfit::WrongKind),
        None => Err(Unfit::WrongKind),
    }
}

/// A lawful name.
pub(crate) fn name_at(value: &Value) -> Result<Name, Unfit>
    ensures { result ≡ name_at (view value.now) }
{
    let Some(text) = value.as_str() else {
        return Err(Unfit::WrongKind);
    };
    match Name::new(text.as_bytes()) {
        Some(name) if name.is_lawful() => Ok(name),
        _ => Err(Unfit::OutOfLimits),
    }
}

/// `restart` (Supervisor Behaviour, "Child Specification"): permanent where it is absent.
pub(crate) fn restart_at(value: Option<&Value>) -> Result<Restart, Unfit>
    ensures { result ≡ restart_at (option_map (λ v. view v.now) value.entry) }
{
    let Some(value) = value else {
        return Ok(Restart::Permanent);
    };
    match value.as_str() {
        Some(text) => Restart::of_word(text.as_bytes()).ok_or(Unfit::WrongKind),
        None => Err(Unfit::WrongKind),
    }
}

/// `significant` (Supervisor Behaviour, "Child Specification"): false where it is absent.
pub(crate) fn significant_at(value: Option<&Value>) -> Result<bool, Unfit>
    ensures { result ≡ significant_at (option_map (λ v. view v.now) value.entry) }
{
    match value {
        None => Ok(false),
        Some(value) => value.as_bool().ok_or(Unfit::WrongKind),
    }
}

/// `shutdown` (Supervisor Behaviour, "Child Specification"), a number being milliseconds; `None` where it is absent.
pub(crate) fn shutdown_at(value: Option<&Value>) -> Result<Option<Shutdown>, Unfit>
    ensures { result ≡ shutdown_at (option_map (λ v. view v.now) value.entry) }
{
    let Some(value) = value else {
        return Ok(None);
    };
    match shutdown_word(value) {
        Some(shutdown) => Ok(Some(shutdown)),
        None => {
            let milliseconds = number_within(value, 0, MAX_SHUTDOWN)?;
            Ok(Some(Shutdown::Milliseconds(milliseconds as u32)))
        }
    }
}

/// The shutdown of a word, if the value is the word of one.
fn shutdown_word(value: &Value) -> Option<Shutdown>
    ensures { result ≡ word_in shutdown_of (as_str (view value.now)) }
{
    match value.as_str() {
        Some(text) => Shutdown::of_word(text.as_bytes()),
        None => None,
    }
}

/// `type` (Supervisor Behaviour, "Child Specification"): the default where it is absent.
pub(crate) fn kind_at(default: ChildType, value: Option<&Value>) -> Result<ChildType, Unfit>
    ensures { result ≡ kind_at default (option_map (λ v. view v.now) value.entry) }
{
    let Some(value) = value else {
        return Ok(default);
    };
    match value.as_str() {
        Some(text) => ChildType::of_word(text.as_bytes()).ok_or(Unfit::WrongKind),
        None => Err(Unfit::WrongKind),
    }
}

/// `modules` (Supervisor Behaviour, "Child Specification"); `None` where it is absent.
pub(crate) fn modules_at(value: Option<&Value>) -> Result<Option<Modules>, Unfit>
    ensures { result ≡ modules_at (option_map (λ v. view v.now) value.entry) }
{
    let Some(value) = value else {
        return Ok(None);
    };
    if let Some(word) = modules_word(value) {
        return Ok(Some(word));
    }
    let Some(names) = value.as_array() else {
        return Err(Unfit::WrongKind);
    };
    let modules = modules_of(names.as_slice())?;
    Ok(Some(modules))
}

/// The modules of a word, if the value is the word of some.
fn modules_word(value: &Value) -> Option<Modules>
    ensures { result ≡ word_in (words.modules_of) (as_str (view value.now)) }
{
    match value.as_str() {
        Some(text) => Modules::of_word(text.as_bytes()),
        None => None,
    }
}

/// At most four names.
fn modules_of(values: &[Value]) -> Result<Modules, Unfit>
    ensures { result ≡ modules_in (Some (items_view values.now)) }
{
    if !are_texts(values) {
        return Err(Unfit::WrongKind);
    }
    names_in(values)
}

/// Whether each value is a text.
fn are_texts(values: &[Value]) -> bool
    ensures { result ≡ list_all (λ v. is_text (view v)) values.now }
{
    values.iter().all(|value| value.is_str())
}

/// At most four names.
fn names_in(values: &[Value]) -> Result<Modules, Unfit>
    ensures { result ≡ names_in (map view values.now) }
{
    match values {
        [] => Ok(Modules::None),
        [first] => Ok(Modules::One(name_at(first)?)),
        [first, second] => Ok(Modules::Two(name_at(first)?, name_at(second)?)),
        [first, second, third] => Ok(Modules::Three(
            name_at(first)?,
            name_at(second)?,
            name_at(third)?,
        )),
        [first, second, third, fourth] => {
            Ok(Modules::Four(
                name_at(first)?,
                name_at(second)?,
                name_at(third)?,
                name_at(fourth)?,
            ))
        }
        _ => Err(Unfit::OutOfLimits),
    }
}
