//! What the words after `run` ask for.

ghost use Rattle.std.specs.Prelude.{◌≡◌, codes, IfErr, IfOk, IfSome, None, Some};
ghost use Rattle.clap.specs.Words.{first_of, found_of, rows_of};
ghost use Rattle.otp_cli.specs.Asked.{AreSettingsOf, AreShownOf, Asks, IsFileOf, time_given};
ghost use Rattle.otp_cli.specs.Words.{IsHandedOn};

use crate::getters::{is_set, schedulers_in, time_given, turns_in, value_of};
use crate::words::{Command, RunShows, Serving, WordsFault};
use clap::ArgMatches;
use otp_file::roles::Settings;
use otp_suggest::read_time;

/// What is told of a run besides.
fn shows_in(found: &ArgMatches<'_>) -> RunShows
    ensures { AreShownOf (rows_of (found_of found.now)) result }
{
    RunShows {
        is_drawn: is_set(found, "tree"),
        is_why: is_set(found, "why"),
        is_json: is_set(found, "json"),
    }
}

/// How a tree is to be run.
fn settings_in(found: &ArgMatches<'_>) -> Option<Settings>
    ensures { IfSome result (AreSettingsOf (rows_of (found_of found.now))) }
{
    let (Some(schedulers), Some(turns)) = (schedulers_in(found), turns_in(found)) else {
        return None;
    };
    match Settings::new(usize::from(schedulers), u64::from(turns)) {
        Some(settings) => Some(settings.with_counts(is_set(found, "counts"))),
        None => None,
    }
}

/// Whether the words say how a tree is served that isn't.
fn is_served_for_no_time(found: &ArgMatches<'_>) -> bool {
    is_set(found, "log") || value_of(found, "grace").is_some()
}

/// How the words after `run` ask a tree to be run by turns.
fn read_turns<'a>(
    file: &'a str,
    settings: Settings,
    found: &ArgMatches<'a>,
) -> Result<Command<'a>, WordsFault>
    requires file { IsFileOf (rows_of (found_of found.now)) file.now }
    requires settings { AreSettingsOf (rows_of (found_of found.now)) settings }
    requires turns { first_of (codes "for") (rows_of (found_of found.now)) ≡ None }
    ensures asked { IfOk result (Asks (codes "run") (rows_of (found_of found.now))) }
    ensures handed_on { IfErr result IsHandedOn }
{
    if is_served_for_no_time(found) {
        return Err(WordsFault::NeedsFor);
    }
    let shows = shows_in(found);
    Ok(Command::Run {
        file,
        settings,
        shows,
    })
}

/// How the words after `run` ask a tree to be served for this time.
fn read_serving<'a>(
    file: &'a str,
    settings: Settings,
    time: u64,
    found: &ArgMatches<'a>,
) -> Result<Command<'a>, WordsFault>
    requires file { IsFileOf (rows_of (found_of found.now)) file.now }
    requires settings { AreSettingsOf (rows_of (found_of found.now)) settings }
    requires time { time_given (first_of (codes "for") (rows_of (found_of found.now))) ≡ Some (Some time) }
    ensures asked { IfOk result (Asks (codes "run") (rows_of (found_of found.now))) }
    ensures handed_on { IfErr result IsHandedOn }
{
    if settings.is_counted() {
        return Err(WordsFault::CountsTurns);
    }
    let Some(grace) = time_given(value_of(found, "grace")) else {
        return Err(WordsFault::NotATime);
    };
    let serving = Serving {
        time,
        grace,
        is_logged: is_set(found, "log"),
    };
    let shows = shows_in(found);
    Ok(Command::Serve {
        file,
        settings,
        serving,
        shows,
    })
}

/// How the words after `run` ask a tree to be run.
pub(crate) fn read_run<'a>(file: &'a str, found: &ArgMatches<'a>) -> Result<Command<'a>, WordsFault>
    requires file { IsFileOf (rows_of (found_of found.now)) file.now }
    ensures asked { IfOk result (Asks (codes "run") (rows_of (found_of found.now))) }
    ensures handed_on { IfErr result IsHandedOn }
{
    let Some(settings) = settings_in(found) else {
        return Err(WordsFault::NoCommand);
    };
    let Some(word) = value_of(found, "for") else {
        return read_turns(file, settings, found);
    };
    match read_time(word) {
        None => Err(WordsFault::NotATime),
        Some(time) => read_serving(file, settings, time, found),
    }
}
