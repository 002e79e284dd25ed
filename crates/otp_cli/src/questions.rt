//! What the words after `tree`, `limits`, `suggest` and `diff` ask for.

ghost use Rattle.std.specs.Prelude.{◌≡◌, codes, option_map, IfErr, IfOk};
ghost use Rattle.clap.specs.Words.{found_of, rows_of};
ghost use Rattle.otp_cli.specs.Asked.{AsksUse, IsAskedOf, IsPickOf, plays_each};
ghost use Rattle.otp_cli.specs.Words.{IsHandedOn};

use crate::getters::{form_in, is_set, value_of};
use crate::slips::Slip;
use crate::words::{Usage, WordsFault};
use clap::ArgMatches;
use otp_costs::{Grain, Pick};
use otp_suggest::Asked;

/// Which children are asked for by a child's name, by a supervisor's, or by none: a child's comes first.
fn pick_of<'a>(child: Option<&'a str>, table: Option<&'a str>) -> Pick<'a>
    ensures { IsPickOf (option_map (λ name. name.now) child.entry) (option_map (λ name. name.now) table.entry) result }
{
    match (child, table) {
        (Some(name), _) => Pick::Child(name),
        (None, Some(name)) => Pick::Table(name),
        (None, None) => Pick::All,
    }
}

/// Which children are taken together.
fn grain_of(is_each: bool) -> Grain
    ensures { plays_each result ≡ is_each }
{
    if is_each { Grain::Each } else { Grain::Alike }
}

/// What the words after `tree` ask for.
pub(crate) fn read_tree<'a>(found: &ArgMatches<'a>) -> Result<Usage<'a>, WordsFault>
    ensures asked { IfOk result (AsksUse (codes "tree") (rows_of (found_of found.now))) }
    ensures handed_on { IfErr result IsHandedOn }
{
    let form = form_in(found)?;
    Ok(Usage::Draw { form })
}

/// What the words after `limits` ask for.
pub(crate) fn read_limits<'a>(found: &ArgMatches<'a>) -> Result<Usage<'a>, WordsFault>
    ensures asked { IfOk result (AsksUse (codes "limits") (rows_of (found_of found.now))) }
    ensures handed_on { IfErr result IsHandedOn }
{
    let form = form_in(found)?;
    Ok(Usage::Limit {
        pick: pick_of(value_of(found, "child"), value_of(found, "table")),
        grain: grain_of(is_set(found, "each")),
        form,
    })
}

/// How often a child crashes, by the time between its crashes, or by how many come within a time.
fn asked_of<'a>(
    every: Option<&'a str>,
    times: Option<&'a str>,
    within: Option<&'a str>,
) -> Result<Asked<'a>, WordsFault>
    ensures asked { IfOk result (IsAskedOf (option_map (λ word. word.now) every.entry) (option_map (λ word. word.now) times.entry) (option_map (λ word. word.now) within.entry)) }
    ensures handed_on { IfErr result IsHandedOn }
{
    match (every, times, within) {
        (Some(every), None, None) => Ok(Asked::Every(every)),
        (None, Some(times), Some(within)) => Ok(Asked::Within(times, within)),
        _ => Err(WordsFault::Slip(Slip::HowOften)),
    }
}

/// What the words after `suggest` ask for.
pub(crate) fn read_suggest<'a>(found: &ArgMatches<'a>) -> Result<Usage<'a>, WordsFault>
    ensures asked { IfOk result (AsksUse (codes "suggest") (rows_of (found_of found.now))) }
    ensures handed_on { IfErr result IsHandedOn }
{
    let Some(child) = value_of(found, "child") else {
        return Err(WordsFault::NoCommand);
    };
    let asked = asked_of(
        value_of(found, "every"),
        value_of(found, "times"),
        value_of(found, "within"),
    )?;
    let is_json = is_set(found, "json");
    if !is_set(found, "root") {
        return Ok(Usage::Suggest {
            child,
            asked,
            is_json,
        });
    }
    match asked {
        Asked::Every(_) => Err(WordsFault::Slip(Slip::RootHow)),
        Asked::Within(times, within) => Ok(Usage::Root {
            child,
            times,
            within,
            is_json,
        }),
    }
}

/// What the words after `diff` ask for.
pub(crate) fn read_diff<'a>(found: &ArgMatches<'a>) -> Result<Usage<'a>, WordsFault>
    ensures asked { IfOk result (AsksUse (codes "diff") (rows_of (found_of found.now))) }
    ensures handed_on { IfErr result IsHandedOn }
{
    match value_of(found, "OTHER") {
        Some(other) => Ok(Usage::Compare {
            other,
            is_json: is_set(found, "json"),
        }),
        None => Err(WordsFault::NoCommand),
    }
}
