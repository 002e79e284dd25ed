//! What differs in what failures cost.

ghost use Rattle.std.specs.Prelude.{◌≡◌, ◌++◌, IfOk, OnOk, codes};
ghost use Rattle.std.specs.List.{list_any};
ghost use Rattle.otp_costs.specs.Table.{alike_text};
ghost use Rattle.otp_costs.specs.Words.{burst_text, interval_text};
ghost use Rattle.otp_diff.specs.Changes.{change_text, number_change_text};
ghost use Rattle.otp_diff.specs.Costs.{affected_text, common, costs_text, counted_text, crash_title, ended_text, is_name, name_if, named_text, numbers_text, row_text, rows_if, rows_text, survived_text};

use crate::change::{Form, Values, Words, is_same, write_number_change, write_words_change};
use otp_costs::limits::{Fate, Listed, Steady};
use otp_costs::{Row, put_below, write_burst, write_interval, write_root};
use otp_json::{put_number, put_text};
use otp_reason::Name;
use otp_text::write_number;
use std::alloc::{AllocError, Global};

/// Appends how many crashes at once are survived, where it differs.
fn write_burst_change(
    form: Form,
    title: &[u8],
    a: Fate,
    b: Fate,
    words: &mut Words,
    out: &mut Vec<u8>,
) -> Result<(), AllocError>
    ensures { OnOk result (out.new.items ≡ out.old.items ++ change_text form title.now (codes "burst") (burst_text a) (burst_text b)) }
{
    words.clear();
    write_burst(a, &mut words.one)?;
    write_burst(b, &mut words.other)?;
    write_words_change(form, Values::Texts, title, b"burst", words, out)
}

/// Appends how many crashes at once the root survives, where it differs.
#[tactic(auto, unfolding(crate::specs::Costs::ended_text))]
fn write_root_change(
    form: Form,
    title: &[u8],
    a: Fate,
    b: Fate,
    words: &mut Words,
    out: &mut Vec<u8>,
) -> Result<(), AllocError>
    ensures { OnOk result (out.new.items ≡ out.old.items ++ ended_text form title.now a b) }
{
    words.clear();
    write_root(a, &mut words.one)?;
    write_root(b, &mut words.other)?;
    write_words_change(form, Values::Texts, title, b"root", words, out)
}

/// Appends an interval of two children that fare so, where it differs.
fn write_interval_change(
    form: Form,
    title: &[u8],
    key: &[u8],
    fares: (Fate, Fate),
    intervals: (Steady, Steady),
    words: &mut Words,
    out: &mut Vec<u8>,
) -> Result<(), AllocError>
    ensures { OnOk result (out.new.items ≡ out.old.items ++ change_text form title.now key.now (interval_text fares.0 intervals.0) (interval_text fares.1 intervals.1)) }
{
    words.clear();
    write_interval(fares.0, intervals.0, &mut words.one)?;
    write_interval(fares.1, intervals.1, &mut words.other)?;
    write_words_change(form, Values::Texts, title, key, words, out)
}

/// Appends what is survived, where it differs.
#[tactic(auto, unfolding(crate::specs::Costs::survived_text))]
fn write_survived(
    form: Form,
    title: &[u8],
    a: &Row,
    b: &Row,
    words: &mut Words,
    out: &mut Vec<u8>,
) -> Result<(), AllocError>
    ensures { OnOk result (out.new.items ≡ out.old.items ++ survived_text form title.now a.now b.now) }
{
    write_burst_change(form, title, a.own.burst, b.own.burst, words, out)?;
    write_interval_change(
        form,
        title,
        b"interval",
        (a.own.burst, b.own.burst),
        (a.own.steady, b.own.steady),
        words,
        out,
    )
}

/// Appends which interval is survived by whole seconds, where it differs.
#[tactic(auto, unfolding(crate::specs::Costs::counted_text))]
fn write_counted(
    form: Form,
    title: &[u8],
    a: &Row,
    b: &Row,
    words: &mut Words,
    out: &mut Vec<u8>,
) -> Result<(), AllocError>
    ensures { OnOk result (out.new.items ≡ out.old.items ++ counted_text form title.now a.now b.now) }
{
    write_interval_change(
        form,
        title,
        b"interval for OTP",
        (a.own.burst, b.own.burst),
        (a.own.seconds, b.own.seconds),
        words,
        out,
    )
}

/// Appends how many processes a crash stops and starts, where it differs.
#[tactic(auto, unfolding(crate::specs::Costs::affected_text))]
fn write_affected(
    form: Form,
    title: &[u8],
    a: &Row,
    b: &Row,
    words: &mut Words,
    out: &mut Vec<u8>,
) -> Result<(), AllocError>
    ensures { OnOk result (out.new.items ≡ out.old.items ++ affected_text form title.now a.now b.now) }
{
    write_number_change(form, title, b"stops", (a.stopped, b.stopped), words, out)?;
    write_number_change(form, title, b"starts", (a.started, b.started), words, out)
}

/// Appends what differs in the numbers of two rows.
#[tactic(auto, unfolding(crate::specs::Costs::numbers_text))]
fn write_numbers(
    form: Form,
    title: &[u8],
    a: &Row,
    b: &Row,
    words: &mut Words,
    out: &mut Vec<u8>,
) -> Result<(), AllocError>
    ensures { OnOk result (out.new.items ≡ out.old.items ++ numbers_text form title.now a.now b.now) }
{
    write_survived(form, title, a, b, words, out)?;
    write_counted(form, title, a, b, words, out)?;
    write_affected(form, title, a, b, words, out)?;
    write_root_change(form, title, a.root, b.root, words, out)
}

/// Whether two names are the same.
fn is_name(name: &Name, other: &Name) -> bool
    ensures { result ≡ is_name name.now other.now }
{
    *other == *name
}

/// Whether a name is among these.
fn is_among(name: &Name, names: &[Name]) -> bool
    ensures { result ≡ list_any (is_name name.now) names.now }
{
    names.iter().any(|other| is_name(name, other))
}

/// A name that is among others.
fn name_if(is_among: bool, name: &Name) -> Option<Name>
    ensures { result ≡ name_if is_among name.now }
{
    if is_among { Some(*name) } else { None }
}

/// Puts the names that are among both behind others.
fn put_common(news: &[Name], olds: &[Name], names: &mut Listed<Name>) -> Result<(), AllocError>
    ensures { OnOk result (names.new ≡ names.old ++ common news.now olds.now) }
{
    for name in olds {
        if let Some(name) = name_if(is_among(name, news), name) {
            names.push(name)?;
        }
    }
    Ok(())
}

/// The names that are among both.
fn find_common(alloc: Global, news: &[Name], olds: &[Name]) -> Result<Listed<Name>, AllocError>
    ensures { IfOk result (λ names. names ≡ common news.now olds.now) }
{
    let mut names = Listed::new(alloc);
    put_common(news, olds, &mut names)?;
    Ok(names)
}

/// Appends how many children fare so, where it is more than one.
#[tactic(auto, unfolding(otp_costs::specs::Table::alike_text))]
fn write_alike(count: usize, out: &mut Vec<u8>) -> Result<(), AllocError>
    ensures { OnOk result (out.new.items ≡ out.old.items ++ alike_text count) }
{
    if count <= 1 {
        return Ok(());
    }
    out.extend_from_slice(b" (")?;
    write_number(count as u64, out)?;
    out.extend_from_slice(b" alike)")
}

/// What crashes, in the place of a text. The word is another place.
#[tactic(auto, unfolding(crate::specs::Costs::crash_title))]
fn put_crash_title(
    form: Form,
    path: &[u8],
    name: &Name,
    count: usize,
    word: &mut Vec<u8>,
    title: &mut Vec<u8>,
) -> Result<(), AllocError>
    ensures { OnOk result (title.new.items ≡ crash_title form path.now name.now count) }
{
    put_below(path, name, word)?;
    title.clear();
    match form {
        Form::Text => {
            title.extend_from_slice(b"a crash of ")?;
            title.extend_from_slice(word.as_slice())?;
            write_alike(count, title)
        }
        Form::Object => {
            put_text(b"{", b"child", word.as_slice(), title)?;
            put_number(b", ", b"alike", count as u64, title)
        }
    }
}

/// Appends what differs in two rows of these children.
#[tactic(auto, unfolding(crate::specs::Costs::named_text))]
fn write_named(
    form: Form,
    names: &[Name],
    a: &Row,
    b: &Row,
    title: &mut Vec<u8>,
    words: &mut Words,
    out: &mut Vec<u8>,
) -> Result<(), AllocError>
    ensures { OnOk result (out.new.items ≡ out.old.items ++ named_text form names.now a.now b.now) }
{
    match names {
        [] => Ok(()),
        [name, ..] => {
            put_crash_title(
                form,
                a.path.as_bytes(),
                name,
                names.len(),
                &mut words.one,
                title,
            )?;
            write_numbers(form, title.as_slice(), a, b, words, out)
        }
    }
}

/// Appends what differs in two rows, of the children that have both.
#[tactic(auto, unfolding(crate::specs::Costs::rows_if))]
fn write_rows(
    alloc: Global,
    form: Form,
    a: &Row,
    b: &Row,
    title: &mut Vec<u8>,
    words: &mut Words,
    out: &mut Vec<u8>,
) -> Result<(), AllocError>
    ensures { OnOk result (out.new.items ≡ out.old.items ++ rows_text form a.now b.now) }
{
    if !is_same(a.path.as_bytes(), b.path.as_bytes()) {
        return Ok(());
    }
    let names = find_common(alloc, b.names.as_slice(), a.names.as_slice())?;
    write_named(form, names.as_slice(), a, b, title, words, out)
}

/// Appends what differs between a row and those of the other tree.
fn write_row(
    alloc: Global,
    form: Form,
    news: &[Row],
    a: &Row,
    title: &mut Vec<u8>,
    words: &mut Words,
    out: &mut Vec<u8>,
) -> Result<(), AllocError>
    ensures { OnOk result (out.new.items ≡ out.old.items ++ row_text form news.now a.now) }
{
    for b in news {
        write_rows(alloc, form, a, b, title, words, out)?;
    }
    Ok(())
}

/// Appends what differs in what failures cost.
pub(crate) fn write_costs(
    alloc: Global,
    form: Form,
    olds: &[Row],
    news: &[Row],
    title: &mut Vec<u8>,
    words: &mut Words,
    out: &mut Vec<u8>,
) -> Result<(), AllocError>
    ensures { OnOk result (out.new.items ≡ out.old.items ++ costs_text form olds.now news.now) }
{
    for a in olds {
        write_row(alloc, form, news, a, title, words, out)?;
    }
    Ok(())
}
