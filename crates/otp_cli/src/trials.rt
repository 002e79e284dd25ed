//! What the words after `try` and `replay` ask for.

ghost use Rattle.std.specs.Prelude.{◌≡◌, codes, option_map, true, IfErr, IfOk};
ghost use Rattle.clap.specs.Words.{found_of, rows_of};
ghost use Rattle.otp_cli.specs.Asked.{AreTrialShowsOf, Asks, AsksUse, IsFileOf, IsFlagOf, clock_in, clock_named, is_person, script_in};
ghost use Rattle.otp_cli.specs.Words.{IsHandedOn};

use crate::getters::{form_in, is_set, value_of, values_of, width_in};
use crate::slips::{Slip, are_several, has_input, is_input, is_input_named, reads_twice};
use crate::words::{Command, Form, LogReading, TrialShows, Usage, WordsFault};
use clap::ArgMatches;
use otp_trial::Clock;
use otp_try::Writer;
use std::alloc::Global;

/// The script of this name, of which `-` is none but standard input.
fn script_of<'a>(named: Option<&'a str>) -> Option<&'a str>
    ensures { option_map (λ name. name.now) result ≡ script_in (option_map (λ name. name.now) named.entry) }
{
    let name = named?;
    if name == "-" {
        return None;
    }
    Some(name)
}

/// Who writes the lines.
fn writer_of(is_shown: bool) -> Writer
    ensures { is_person result ≡ is_shown }
{
    if is_shown {
        Writer::Person
    } else {
        Writer::Script
    }
}

/// The clock of this name.
fn clock_of(name: &str) -> Option<Clock>
    ensures { result ≡ clock_in name.now }
{
    if name == "milliseconds" {
        Some(Clock::Milliseconds)
    } else if name == "seconds" {
        Some(Clock::Seconds)
    } else {
        None
    }
}

/// The clock by which a trial is to be played, if one is named.
fn clock_named(named: Option<&str>) -> Option<Clock>
    ensures { result ≡ clock_named (option_map (λ name. name.now) named.entry) }
{
    match named {
        None => None,
        Some(name) => clock_of(name),
    }
}

/// What of a trial is shown, and by which clock it is played.
fn trial_shows_in(found: &ArgMatches<'_>) -> Result<TrialShows, WordsFault>
    ensures shown { IfOk result (AreTrialShowsOf (rows_of (found_of found.now))) }
    ensures handed_on { IfErr result IsHandedOn }
{
    let Some(clock) = clock_named(value_of(found, "clock")) else {
        return Err(WordsFault::UnknownClock);
    };
    let Some(width) = width_in(found) else {
        return Err(WordsFault::NoCommand);
    };
    Ok(TrialShows {
        is_drawn: is_set(found, "timeline"),
        is_quiet: is_set(found, "quiet"),
        clock,
        width,
    })
}

/// Whether an answer is wanted as text.
fn is_text(form: Form<'_>) -> bool {
    matches!(form, Form::Text)
}

/// What the words after `try` ask for where a verdict on each script is wanted.
pub(crate) fn read_judge<'a>(
    alloc: Global,
    file: &'a str,
    found: &ArgMatches<'a>,
) -> Result<Command<'a>, WordsFault>
    requires file { IsFileOf (rows_of (found_of found.now)) file.now }
    requires tap { IsFlagOf (rows_of (found_of found.now)) (codes "tap") true }
    ensures asked { IfOk result (Asks (codes "try") (rows_of (found_of found.now))) }
    ensures handed_on { IfErr result IsHandedOn }
{
    let Some(names) = values_of(found, "SCRIPT") else {
        return Err(WordsFault::Slip(Slip::NoScript));
    };
    if reads_twice(names) || is_input(file) && has_input(names) {
        return Err(WordsFault::Slip(Slip::InputTwice));
    }
    if !is_text(form_in(found)?) {
        return Err(WordsFault::Slip(Slip::TwoForms));
    }
    let Some(clock) = clock_named(value_of(found, "clock")) else {
        return Err(WordsFault::UnknownClock);
    };
    let scripts = Vec::from_slice(alloc, names)?;
    Ok(Command::Judge {
        file,
        scripts,
        clock,
    })
}

/// What the words after `try` ask for.
pub(crate) fn read_try<'a>(found: &ArgMatches<'a>) -> Result<Usage<'a>, WordsFault>
    ensures asked { IfOk result (AsksUse (codes "try") (rows_of (found_of found.now))) }
    ensures handed_on { IfErr result IsHandedOn }
{
    if are_several(values_of(found, "SCRIPT")) {
        return Err(WordsFault::Slip(Slip::ManyScripts));
    }
    let shows = trial_shows_in(found)?;
    let form = form_in(found)?;
    Ok(Usage::Try {
        script: script_of(value_of(found, "SCRIPT")),
        writer: writer_of(is_set(found, "prompt")),
        shows,
        form,
    })
}

/// What the words after `replay` ask for.
pub(crate) fn read_replay<'a>(found: &ArgMatches<'a>) -> Result<Usage<'a>, WordsFault>
    ensures asked { IfOk result (AsksUse (codes "replay") (rows_of (found_of found.now))) }
    ensures handed_on { IfErr result IsHandedOn }
{
    let Some(log) = value_of(found, "LOG") else {
        return Err(WordsFault::NoCommand);
    };
    let reading = LogReading {
        ids: value_of(found, "ids"),
        is_strict: is_set(found, "strict"),
    };
    if is_input(log) && is_input_named(reading.ids) {
        return Err(WordsFault::Slip(Slip::InputTwice));
    }
    let shows = trial_shows_in(found)?;
    Ok(Usage::Replay {
        log,
        reading,
        is_listed: is_set(found, "unmatched"),
        shows,
        is_json: is_set(found, "json"),
    })
}
