//! Words of the supervisor as numbers, and back. The numbers are those of `otp.h`; 0 is none of them.

ghost use Rattle.std.specs.Prelude.{◌≡◌, ◌≤◌, MatchOption, SomeIff};
ghost use Rattle.otp_c.specs.Orders.{ShowsName, ShowsReasonText, ShowsSome, ShowsText};
ghost use Rattle.otp_c.specs.Shown.{IsOutside, SaysShutdown, name_said, shutdown_time};
ghost use Rattle.otp_c.specs.Reasons.{ReasonSaid};
ghost use Rattle.otp_c.specs.Words.{auto_shutdown_number, cause_number, child_type_number, flag_number, reason_number, restart_number, shutdown_number, strategy_number};

use crate::shapes::structs::{CName, CText};
use otp_reason::{Name, Reason, Text};
use otp_rules::Ending;
use otp_spec::{AutoShutdown, ChildType, Restart, Shutdown, Strategy};

/// No name.
pub fn no_name() -> CName
    ensures { result.len ≡ 0 }
{
    CName {
        len: 0,
        bytes: [0; 32],
    }
}

/// No text.
pub fn no_text() -> CText
    ensures { result.len ≡ 0 }
{
    CText {
        len: 0,
        bytes: [0; 64],
    }
}

/// The bytes of a name, of which there are 32 at the most.
pub fn name_out(name: &Name) -> CName
    ensures { ShowsName name.now result }
{
    let shown = name.as_bytes();
    if shown.len() > 32 {
        return no_name();
    }
    let mut bytes = [0; 32];
    bytes[..shown.len()].copy_from_slice(shown);
    CName {
        len: shown.len() as u8,
        bytes,
    }
}

/// Writes the bytes of a name, of which there are 32 at the most, and zeros behind them.
pub fn write_name(name: &Name, out: &mut CName)
    ensures { ShowsName name.now out.new }
{
    let shown = name.as_bytes();
    if shown.len() > 32 {
        *out = no_name();
        return;
    }
    out.len = shown.len() as u8;
    out.bytes = [0; 32];
    out.bytes[..shown.len()].copy_from_slice(shown);
}

/// Writes the bytes of a name, if there is one.
pub fn write_some_name(name: &Option<Name>, out: &mut CName)
    ensures { ShowsSome name.now out.new }
{
    match name {
        None => *out = no_name(),
        Some(name) => write_name(name, out),
    }
}

/// The bytes of a name, if there is one.
pub fn some_name_out(name: &Option<Name>) -> CName
    ensures { ShowsSome name.now result }
{
    match name {
        None => no_name(),
        Some(name) => name_out(name),
    }
}

/// The bytes of a text, of which there are 64 at the most.
pub fn text_out(text: &Text) -> CText
    ensures { ShowsText text.now result }
{
    let shown = text.as_bytes();
    if shown.len() > 64 {
        return no_text();
    }
    let mut bytes = [0; 64];
    bytes[..shown.len()].copy_from_slice(shown);
    CText {
        len: shown.len() as u8,
        bytes,
    }
}

/// The name of these bytes, whatever they are; `None` where there are more than 32.
pub fn name_in(name: &CName) -> Option<Name>
    ensures { SomeIff result (name.now.len ≤ 32) (name_said name.now) }
{
    let len = name.len as usize;
    if len > 32 {
        return None;
    }
    Name::new(&name.bytes[..len])
}

/// The number of a reason.
pub fn reason_number(reason: &Reason) -> u32
    ensures { result ≡ reason_number reason.now }
{
    match reason {
        Reason::Normal => 1,
        Reason::Shutdown => 2,
        Reason::ShutdownWith(_) => 3,
        Reason::Kill => 4,
        Reason::Killed => 5,
        Reason::NoProc => 6,
        Reason::Error(_) => 7,
    }
}

/// The text of a reason, if it has one.
pub fn reason_text(reason: &Reason) -> CText
    ensures { ShowsReasonText reason.now result }
{
    match reason {
        Reason::ShutdownWith(text) | Reason::Error(text) => text_out(text),
        _ => no_text(),
    }
}

/// Why a number and a text are no reason.
#[derive(Clone, Copy, Debug, PartialEq, Eq)]
pub enum NoReason {
    /// No reason has this number.
    Kind,
    /// The reason has a text, and these bytes are none.
    Text,
}

/// The reason that has this number, and this text where it has one.
pub fn reason_in(reason: u32, text: &[u8]) -> Result<Reason, NoReason>
    ensures { ReasonSaid reason text.now result }
{
    match reason {
        1 => Ok(Reason::Normal),
        2 => Ok(Reason::Shutdown),
        4 => Ok(Reason::Kill),
        5 => Ok(Reason::Killed),
        6 => Ok(Reason::NoProc),
        3 | 7 => match Text::new(text) {
            Some(text) => {
                if reason == 7 {
                    Ok(Reason::Error(text))
                } else {
                    Ok(Reason::ShutdownWith(text))
                }
            }
            None => Err(NoReason::Text),
        },
        _ => Err(NoReason::Kind),
    }
}

/// The number of what made a supervisor end.
pub fn cause_number(ending: &Ending) -> u32
    ensures { result ≡ cause_number ending.now }
{
    match ending {
        Ending::Intensity => 1,
        Ending::Significant(_) => 2,
        Ending::Asked => 3,
        Ending::InitFailed(_) => 4,
    }
}

pub fn restart_number(restart: Restart) -> u32
    ensures { result ≡ restart_number restart }
{
    match restart {
        Restart::Permanent => 1,
        Restart::Transient => 2,
        Restart::Temporary => 3,
    }
}

pub fn restart_in(restart: u32) -> Option<Restart>
    ensures { MatchOption result (IsOutside 1 3 restart) (λ said. restart ≡ restart_number said) }
{
    match restart {
        1 => Some(Restart::Permanent),
        2 => Some(Restart::Transient),
        3 => Some(Restart::Temporary),
        _ => None,
    }
}

/// The number of how a child is stopped.
pub fn shutdown_number(shutdown: Shutdown) -> u32
    ensures { result ≡ shutdown_number shutdown }
{
    match shutdown {
        Shutdown::BrutalKill => 1,
        Shutdown::Milliseconds(_) => 2,
        Shutdown::Infinity => 3,
    }
}

/// The milliseconds that a child has to stop; 0 where it has no such time.
pub fn shutdown_ms(shutdown: Shutdown) -> u32
    ensures { result ≡ shutdown_time shutdown }
{
    match shutdown {
        Shutdown::Milliseconds(time) => time,
        Shutdown::BrutalKill | Shutdown::Infinity => 0,
    }
}

pub fn shutdown_in(shutdown: u32, time: u32) -> Option<Shutdown>
    ensures { MatchOption result (IsOutside 1 3 shutdown) (λ said. SaysShutdown shutdown time said) }
{
    match shutdown {
        1 => Some(Shutdown::BrutalKill),
        2 => Some(Shutdown::Milliseconds(time)),
        3 => Some(Shutdown::Infinity),
        _ => None,
    }
}

pub fn child_type_number(kind: ChildType) -> u32
    ensures { result ≡ child_type_number kind }
{
    match kind {
        ChildType::Worker => 1,
        ChildType::Supervisor => 2,
    }
}

pub fn child_type_in(kind: u32) -> Option<ChildType>
    ensures { MatchOption result (IsOutside 1 2 kind) (λ said. kind ≡ child_type_number said) }
{
    match kind {
        1 => Some(ChildType::Worker),
        2 => Some(ChildType::Supervisor),
        _ => None,
    }
}

/// The number of a strategy.
pub fn strategy_number(strategy: Strategy) -> u32
    ensures { result ≡ strategy_number strategy }
{
    match strategy {
        Strategy::OneForOne => 1,
        Strategy::OneForAll => 2,
        Strategy::RestForOne => 3,
        Strategy::SimpleOneForOne => 4,
    }
}

/// The number of whose ends shut the supervisor down.
pub fn auto_shutdown_number(auto_shutdown: AutoShutdown) -> u32
    ensures { result ≡ auto_shutdown_number auto_shutdown }
{
    match auto_shutdown {
        AutoShutdown::Never => 1,
        AutoShutdown::AnySignificant => 2,
        AutoShutdown::AllSignificant => 3,
    }
}

/// 1 or 0.
pub fn flag(is_so: bool) -> u32
    ensures { result ≡ flag_number is_so }
{
    if is_so { 1 } else { 0 }
}
