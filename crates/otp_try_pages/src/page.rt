//! A run as a page.

ghost use Rattle.std.specs.Prelude.{ℕ, List, ◌≡◌, ◌++◌, IfOk, OnErr, OnOk, decimal};
ghost use Rattle.otp_text.specs.Seconds.{seconds_text};
ghost use Rattle.otp_try_pages.specs.Orders.{is_bystander, is_end};
ghost use Rattle.otp_try_pages.specs.Timeline.{TellsPage, end_if, ends_from, failed_html, last_time, line_cell, lines_html, number_text, pictures, row_html, rows_html, time_cell, timeline_legend, timeline_page, told_pictures, verdict_from, verdict_line};

use crate::cells::{greatest, put_cells};
use crate::columns::{put_sums, put_titles};
use crate::names::{all_told, names_in};
use crate::object::is_played;
use crate::tracks::put_picture;
use crate::windows::put_windows;
use crate::words::{first_word, has_slash, is_down, is_text, order_in, own_part};
use otp_pages::html::{put_element, put_foot, put_head};
use otp_text::timeline::write_seconds;
use otp_text::write_number;
use otp_trial::{ActionEnd, TriedSupervisor};
use otp_try::account::{Account, Played};
use otp_try::remarks::write_trial_verdict;
use std::alloc::{AllocError, Global};

/// Whether an order is that of a supervisor below the root which ends since its parent asked for it.
#[tactic(auto, unfolding(crate::specs::Orders::is_bystander))]
fn is_bystander(order: &[u8]) -> bool
    ensures { result ≡ is_bystander order.now }
{
    has_slash(first_word(order)) && is_text(own_part(order), b"end shutdown: asked to stop")
}

/// Whether a line tells the end of a supervisor, unless its parent asked for it.
#[tactic(auto, unfolding(crate::specs::Orders::is_end))]
fn is_end(line: &[u8]) -> bool
    ensures { result ≡ is_end line.now }
{
    let order = order_in(line);
    is_text(first_word(own_part(order)), b"end") && !is_bystander(order)
}

/// Appends a line that tells how long a child was down, or the end of a supervisor; nothing of another.
#[tactic(auto, unfolding(crate::specs::Timeline::end_if))]
fn put_end_if(line: &[u8], out: &mut Vec<u8>) -> Result<(), AllocError>
    ensures { OnOk result (out.new.items ≡ out.old.items ++ end_if line.now) }
{
    if is_down(order_in(line)) {
        put_element(b"<small>", line, b"</small>", out)
    } else if is_end(line) {
        put_element(b"<span class=\"end\">", line, b"</span>", out)
    } else {
        Ok(())
    }
}

/// Appends those among these lines, the first of which has begun so.
fn put_ends(told: &[u8], line: &mut Vec<u8>, out: &mut Vec<u8>) -> Result<(), AllocError>
    ensures { OnOk result (out.new.items ≡ out.old.items ++ ends_from line.old.items told.now) }
{
    for byte in told {
        if *byte == b'\n' {
            put_end_if(line.as_slice(), out)?;
            line.clear();
        } else {
            line.push(*byte).map_err(|_| AllocError)?;
        }
    }
    Ok(())
}

/// Appends why a line did nothing, or that it isn't as it expects; nothing of one that was taken.
#[tactic(auto, unfolding(crate::specs::Timeline::failed_html))]
fn put_failed(taken: ActionEnd, out: &mut Vec<u8>) -> Result<(), AllocError>
    ensures { OnOk result (out.new.items ≡ out.old.items ++ failed_html taken) }
{
    match taken {
        ActionEnd::Done => Ok(()),
        why => put_element(
            b"<span class=\"end\">",
            why.text().as_bytes(),
            b"</span>",
            out,
        ),
    }
}

/// Appends a number between two texts.
fn put_number_between(
    front: &[u8],
    number: u64,
    back: &[u8],
    out: &mut Vec<u8>,
) -> Result<(), AllocError>
    ensures { OnOk result (out.new.items ≡ out.old.items ++ (front.now ++ decimal number ++ back.now)) }
{
    out.extend_from_slice(front)?;
    write_number(number, out)?;
    out.extend_from_slice(back)
}

/// Appends a time in seconds between two texts.
fn put_seconds_between(
    front: &[u8],
    time: u64,
    back: &[u8],
    out: &mut Vec<u8>,
) -> Result<(), AllocError>
    ensures { OnOk result (out.new.items ≡ out.old.items ++ (front.now ++ seconds_text time ++ back.now)) }
{
    out.extend_from_slice(front)?;
    write_seconds(time, out)?;
    out.extend_from_slice(back)
}

/// Appends the number of a line, or that it is the opening.
#[tactic(auto, unfolding(crate::specs::Timeline::number_text))]
fn put_line_number(number: u64, out: &mut Vec<u8>) -> Result<(), AllocError>
    ensures { OnOk result (out.new.items ≡ out.old.items ++ number_text number) }
{
    if number == 0 {
        return out.extend_from_slice(b"<td class=\"line\">the opening");
    }
    put_number_between(b"<td class=\"line\">", number, b": ", out)
}

/// Appends the cell of when a line was played, with which its row begins.
#[tactic(auto, unfolding(crate::specs::Timeline::time_cell))]
fn put_time(time: u64, out: &mut Vec<u8>) -> Result<(), AllocError>
    ensures { OnOk result (out.new.items ≡ out.old.items ++ time_cell time) }
{
    put_seconds_between(b"<tr><th scope=\"row\" class=\"n\">", time, b"</th>\n", out)
}

/// Appends the cell of a line: its number and text, why it did nothing, and the ends of supervisors that came of it. The word is
/// a place for a text.
#[tactic(auto, unfolding(crate::specs::Timeline::line_cell))]
fn put_line(one: &Played, word: &mut Vec<u8>, out: &mut Vec<u8>) -> Result<(), AllocError>
    ensures { OnOk result (out.new.items ≡ out.old.items ++ line_cell one.now) }
{
    word.clear();
    put_line_number(one.number, out)?;
    put_element(b"<code>", one.line.as_slice(), b"</code>", out)?;
    put_failed(one.outcome.taken, out)?;
    put_ends(one.told.as_slice(), word, out)?;
    out.extend_from_slice(b"</td>\n")
}

/// Appends the row of a line, before which this was the greatest number of a process.
#[tactic(auto, unfolding(crate::specs::Timeline::row_html))]
fn put_row(
    last: u64,
    seats: &[TriedSupervisor],
    one: &Played,
    word: &mut Vec<u8>,
    out: &mut Vec<u8>,
) -> Result<(), AllocError>
    ensures { OnOk result (out.new.items ≡ out.old.items ++ row_html last seats.now one.now) }
{
    put_time(one.moment.time, out)?;
    put_line(one, word, out)?;
    put_cells(last, seats, one.moment.standings.as_slice(), word, out)?;
    out.extend_from_slice(b"</tr>\n")
}

/// Appends the rows of lines, before which this was the greatest number of a process.
fn put_rows(
    last: u64,
    seats: &[TriedSupervisor],
    lines: &[Played],
    word: &mut Vec<u8>,
    out: &mut Vec<u8>,
) -> Result<(), AllocError>
    ensures { OnOk result (out.new.items ≡ out.old.items ++ rows_html last seats.now lines.now) }
{
    let mut last = last;
    for one in lines {
        put_row(last, seats, one, word, out)?;
        last = greatest(&one.moment);
    }
    Ok(())
}

/// Appends what the marks mean.
#[tactic(auto, unfolding(crate::specs::Timeline::timeline_legend))]
fn put_legend(out: &mut Vec<u8>) -> Result<(), AllocError>
    ensures { OnOk result (out.new.items ≡ out.old.items ++ timeline_legend) }
{
    out.extend_from_slice(
        b"<details><summary>Line by line</summary>\n<p class=\"legend\">A row for each line of the script, and of each supervisor the children that it changed or that don't run; all others run on. <b class=\"new\">*</b> <span class=\"up\">#N</span>: it was started since the row before, and runs as process N. <span class=\"way\">It is on its way</span>, <span class=\"down\">it has no process</span>. N/M restarts: N of M lie in the period.</p>\n",
    )
}

/// Appends a line of a verdict.
#[tactic(auto, unfolding(crate::specs::Timeline::verdict_line))]
fn put_verdict_line(line: &[u8], out: &mut Vec<u8>) -> Result<(), AllocError>
    ensures { OnOk result (out.new.items ≡ out.old.items ++ verdict_line line.now) }
{
    put_element(b"<p class=\"verdict\">", line, b"</p>\n", out)
}

/// Appends the lines of a verdict, the first of which has begun so.
fn put_verdict(verdict: &[u8], line: &mut Vec<u8>, out: &mut Vec<u8>) -> Result<(), AllocError>
    ensures { OnOk result (out.new.items ≡ out.old.items ++ verdict_from line.old.items verdict.now) }
{
    for byte in verdict {
        if *byte == b'\n' {
            put_verdict_line(line.as_slice(), out)?;
            line.clear();
        } else {
            line.push(*byte).map_err(|_| AllocError)?;
        }
    }
    Ok(())
}

/// When the last of these lines was played.
fn last_time(opening: u64, lines: &[Played]) -> u64
    ensures { result ≡ last_time opening lines.now }
{
    let mut time = opening;
    for one in lines {
        time = one.moment.time;
    }
    time
}

/// Appends what the pictures of a run show that told these lines. The word is a place for a text.
#[tactic(auto, unfolding(crate::specs::Timeline::told_pictures))]
fn put_told_pictures(
    alloc: Global,
    seats: &[TriedSupervisor],
    account: &Account,
    told: &[u8],
    word: &mut Vec<u8>,
    out: &mut Vec<u8>,
) -> Result<(), AllocError>
    ensures { OnOk result (out.new.items ≡ out.old.items ++ told_pictures seats.now account.now told.now) }
{
    let last = last_time(account.opening.moment.time, account.lines.as_slice());
    let names = names_in(alloc, told)?;
    put_picture(
        alloc,
        last,
        seats,
        account.lines.as_slice(),
        names.as_slice(),
        told,
        word,
        out,
    )?;
    put_windows(last, seats, account.lines.as_slice(), told, word, out)
}

/// Appends the pictures of a run. The word is a place for a text.
#[tactic(auto, unfolding(crate::specs::Timeline::pictures))]
fn put_pictures(
    alloc: Global,
    seats: &[TriedSupervisor],
    account: &Account,
    word: &mut Vec<u8>,
    out: &mut Vec<u8>,
) -> Result<(), AllocError>
    ensures { OnOk result (out.new.items ≡ out.old.items ++ pictures seats.now account.now) }
{
    let told = all_told(alloc, account)?;
    put_told_pictures(alloc, seats, account, told.as_slice(), word, out)
}

/// Appends the opening and each line, and how the supervisors came through. The word is a place for a text.
#[tactic(auto, unfolding(crate::specs::Timeline::lines_html))]
fn put_lines(
    seats: &[TriedSupervisor],
    account: &Account,
    word: &mut Vec<u8>,
    out: &mut Vec<u8>,
) -> Result<(), AllocError>
    ensures { OnOk result (out.new.items ≡ out.old.items ++ lines_html seats.now account.now) }
{
    put_legend(out)?;
    put_titles(seats, out)?;
    put_row(0, seats, &account.opening, word, out)?;
    put_rows(
        greatest(&account.opening.moment),
        seats,
        account.lines.as_slice(),
        word,
        out,
    )?;
    put_sums(seats, out)
}

/// Appends the page of a run with this verdict, whose tree file has this name. The word is a place for a text.
#[tactic(auto, unfolding(crate::specs::Timeline::timeline_page))]
fn put_page(
    alloc: Global,
    name: &[u8],
    seats: &[TriedSupervisor],
    account: &Account,
    verdict: &[u8],
    word: &mut Vec<u8>,
    out: &mut Vec<u8>,
) -> Result<(), AllocError>
    ensures { OnOk result (out.new.items ≡ out.old.items ++ timeline_page name.now seats.now account.now verdict.now) }
{
    word.clear();
    put_head(b"A run of", name, out)?;
    put_verdict(verdict, word, out)?;
    put_pictures(alloc, seats, account, word, out)?;
    put_lines(seats, account, word, out)?;
    put_foot(out)
}

/// The page of a run, whose tree file has this name.
fn page_of(alloc: Global, name: &[u8], account: &Account) -> Result<Vec<u8>, AllocError>
    ensures { IfOk result (λ page. TellsPage name.now account.now page.items) }
{
    let mut word = Vec::new(alloc);
    let mut verdict = Vec::new(alloc);
    let mut page = Vec::new(alloc);
    write_trial_verdict(&account.trial, is_played(account.end), &mut verdict)?;
    put_page(
        alloc,
        name,
        account.trial.seats(),
        account,
        verdict.as_slice(),
        &mut word,
        &mut page,
    )?;
    Ok(page)
}

/// Appends a run of a script as a page of HTML, with the name of the tree's file: the verdict; when each child had a process, and how full
/// the periods of supervisors were, with time to scale; a row for the opening and for each line, with how
/// each supervisor and its children stood then, and the ends of supervisors; and how each came through.
///
/// # Errors
///
/// Where memory is refused. Then nothing is appended.
pub fn write_timeline_page(
    alloc: Global,
    name: &[u8],
    account: &Account,
    out: &mut Vec<u8>,
) -> Result<(), AllocError>
    ensures page { OnOk result ((page : List ℕ) × (TellsPage name.now account.now page × (out.new.items ≡ out.old.items ++ page))) }
    ensures same { OnErr result (out.new.items ≡ out.old.items) }
{
    let page = page_of(alloc, name, account)?;
    out.extend_from_slice(page.as_slice())
}
