//! What `clap` has found for a command, by the names of its words.

ghost use Rattle.std.specs.Prelude.{◌≡◌, codes, map, option_map, IfErr, IfOk, IfSome};
ghost use Rattle.clap.specs.Words.{all_of, first_of, found_of, rows_of};
ghost use Rattle.otp_cli.specs.Asked.{IsFlagOf, IsForm, IsFormOf, IsNumberOf, page_name, time_given};
ghost use Rattle.otp_cli.specs.Words.{IsHandedOn};

use crate::slips::Slip;
use crate::words::{Form, Page, WordsFault};
use clap::ArgMatches;
use otp_suggest::read_time;

/// How many threads are to serve.
pub(crate) fn schedulers_in(found: &ArgMatches<'_>) -> Option<u8>
    ensures { IfSome result (IsNumberOf (rows_of (found_of found.now)) (codes "schedulers")) }
{
    found.get_one::<u8>("schedulers")
}

/// How many turns each is to take.
pub(crate) fn turns_in(found: &ArgMatches<'_>) -> Option<u32>
    ensures { IfSome result (IsNumberOf (rows_of (found_of found.now)) (codes "turns")) }
{
    found.get_one::<u32>("turns")
}

/// The first value of this id.
pub(crate) fn value_of<'a>(found: &ArgMatches<'a>, id: &str) -> Option<&'a str>
    ensures { option_map (λ value. value.now) result ≡ first_of id.now (rows_of (found_of found.now)) }
{
    found.get_str(id)
}

/// The values of this id.
pub(crate) fn values_of<'f, 'a>(found: &'f ArgMatches<'a>, id: &str) -> Option<&'f [&'a str]>
    ensures { option_map (λ values. map (λ value. value.now) values.now) result ≡ all_of id.now (rows_of (found_of found.now)) }
{
    found.get_strs(id)
}

/// Whether the flag of this id is set.
pub(crate) fn is_set(found: &ArgMatches<'_>, id: &str) -> bool
    ensures { IsFlagOf (rows_of (found_of found.now)) id.now result }
{
    found.get_flag(id)
}

/// The time that is given, if one is; none where a word says no time.
pub(crate) fn time_given(named: Option<&str>) -> Option<Option<u64>>
    ensures { result ≡ time_given (option_map (λ name. name.now) named.entry) }
{
    match named {
        None => Some(None),
        Some(word) => match read_time(word) {
            None => None,
            Some(time) => Some(Some(time)),
        },
    }
}

/// How many columns a picture may have.
pub(crate) fn width_in(found: &ArgMatches<'_>) -> Option<u32>
    ensures { IfSome result (IsNumberOf (rows_of (found_of found.now)) (codes "width")) }
{
    found.get_one::<u32>("width")
}

/// Where the page of this name goes: `-` is the output.
fn place_of(name: &str) -> Page<'_>
    ensures { page_name result ≡ name.now }
{
    if name == "-" {
        Page::Output
    } else {
        Page::File(name)
    }
}

/// Where a page goes, if one is named.
fn page_of(named: Option<&str>) -> Option<Page<'_>>
    ensures { option_map page_name result ≡ option_map (λ name. name.now) named.entry }
{
    match named {
        None => None,
        Some(name) => Some(place_of(name)),
    }
}

/// In which form an answer is wanted: as a page where one is named, as an object where the flag says so; both can't be.
fn form_of(page: Option<Page<'_>>, is_json: bool) -> Result<Form<'_>, WordsFault>
    ensures form { IfOk result (IsForm (option_map page_name page.entry) is_json) }
    ensures handed_on { IfErr result IsHandedOn }
{
    match page {
        Some(_) if is_json => Err(WordsFault::Slip(Slip::TwoForms)),
        Some(page) => Ok(Form::Page(page)),
        None if is_json => Ok(Form::Object),
        None => Ok(Form::Text),
    }
}

/// In which form an answer is wanted.
pub(crate) fn form_in<'a>(found: &ArgMatches<'a>) -> Result<Form<'a>, WordsFault>
    ensures form { IfOk result (IsFormOf (rows_of (found_of found.now))) }
    ensures handed_on { IfErr result IsHandedOn }
{
    form_of(page_of(value_of(found, "html")), is_set(found, "json"))
}
