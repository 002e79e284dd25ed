//! Limits of a tree as text.

ghost use Rattle.std.specs.Prelude.{◌≡◌, ◌≤◌, ◌++◌, IfOk, OnOk, length};
ghost use Rattle.std.specs.List.{flat_map};
ghost use Rattle.otp_costs.specs.Table.{affected_text, alike_text, below_text, children_end, children_text, clip, crash_text, damage_text, ends_text, entry_end, entry_text, first_text, giver_text, list_text, named_text, names_text, names_width, rest_text, root_column, root_text, row_text, some_text, supervisors_text, table_text, title_of, title_text, titles, word_of};
ghost use Rattle.otp_costs.specs.declared.table.TheConstants.{SHOWN, WIDTH};

use crate::limits::{Fate, MOST_FALLS, Path, supervisor_path};
use crate::pick::put_below;
use crate::rows::Row;
use crate::words::{
    write_burst, write_clock, write_gone, write_interval, write_left, write_right, write_spaces,
};
use otp_reason::Name;
use otp_text::write_number;
use std::alloc::{AllocError, Global};

/// The most bytes of a line.
const WIDTH: usize = 80;

/// How far a line is moved in that goes on with names.
const INDENT: usize = 9;

/// The width of the column of names, where the root has a column.
const NAMES: usize = 24;

/// The most bytes of the last column.
const WHO: usize = 10;

/// How many children are shown of more than are to be shown.
pub const SHOWN: usize = 3;

/// What stands before a text of which the beginning is left out.
const CUT: &[u8] = b"...";

/// Appends a text, or of one that is longer than so many bytes, its last ones behind dots.
#[tactic(auto, unfolding(crate::specs::Table::clip))]
pub fn write_clipped(width: usize, text: &[u8], out: &mut Vec<u8>) -> Result<(), AllocError>
    ensures { OnOk result (out.new.items ≡ out.old.items ++ clip width text.now) }
{
    if text.len() <= width {
        return out.extend_from_slice(text);
    }
    out.extend_from_slice(CUT)?;
    out.extend_from_slice(&text[text.len() - width.saturating_sub(3)..])
}

/// Appends how many children a row stands for, where it is more than one.
#[tactic(auto, unfolding(crate::specs::Table::alike_text))]
fn write_alike(count: usize, out: &mut Vec<u8>) -> Result<(), AllocError>
    ensures { OnOk result (out.new.items ≡ out.old.items ++ alike_text count) }
{
    if count <= 1 {
        return Ok(());
    }
    out.extend_from_slice(b" (")?;
    write_number(count as u64, out)?;
    out.extend_from_slice(b" alike)")
}

/// The first child of a row.
pub fn put_title(row: &Row, word: &mut Vec<u8>) -> Result<(), AllocError>
    ensures { OnOk result (word.new.items ≡ title_of row.now) }
{
    put_below(row.path.as_bytes(), &row.own.id, word)?;
    write_alike(row.names.as_slice().len(), word)
}

/// Appends a name in its column, or in a line of its own where it doesn't fit.
#[tactic(auto, unfolding(crate::specs::Table::title_text))]
fn write_title(width: usize, name: &[u8], out: &mut Vec<u8>) -> Result<(), AllocError>
    ensures { OnOk result (out.new.items ≡ out.old.items ++ title_text width name.now) }
{
    if name.len() < width {
        return write_left(width, name, out);
    }
    write_clipped(WIDTH, name, out)?;
    out.extend_from_slice(b"\n")?;
    write_spaces(width, out)
}

/// Appends how many crashes at once the root survives.
#[tactic(auto, unfolding(crate::specs::Table::root_text))]
pub fn write_root(root: Fate, out: &mut Vec<u8>) -> Result<(), AllocError>
    ensures { OnOk result (out.new.items ≡ out.old.items ++ root_text root) }
{
    match root {
        Fate::Survived => {
            write_number(MOST_FALLS, out)?;
            out.extend_from_slice(b"+")
        }
        Fate::Ended(count) => write_number(count, out),
        Fate::Gone(count) => write_gone(count, b"-", b"any", out),
    }
}

/// Appends a supervisor by its path, where that fits.
#[tactic(auto, unfolding(crate::specs::Table::word_of))]
fn write_word(path: &[u8], out: &mut Vec<u8>) -> Result<(), AllocError>
    ensures { OnOk result (out.new.items ≡ out.old.items ++ word_of path.now) }
{
    if path.len() <= WHO {
        out.extend_from_slice(path)
    } else {
        out.extend_from_slice(b"supervisor")
    }
}

/// Appends who gives up after a burst of a child whose supervisor's children have this path.
#[tactic(auto, unfolding(crate::specs::Table::giver_text))]
fn write_giver(path: &[u8], burst: Fate, out: &mut Vec<u8>) -> Result<(), AllocError>
    ensures { OnOk result (out.new.items ≡ out.old.items ++ giver_text path.now burst) }
{
    match burst {
        Fate::Survived => out.extend_from_slice(b"nobody"),
        Fate::Ended(_) => write_word(supervisor_path(path), out),
        Fate::Gone(count) => write_gone(count, b"isn't up", b"nobody", out),
    }
}

/// Appends how many crashes at once the root survives in a column, which a tree with one supervisor alone has not.
#[tactic(auto, unfolding(crate::specs::Table::root_column))]
fn write_root_column(
    is_alone: bool,
    root: Fate,
    word: &mut Vec<u8>,
    out: &mut Vec<u8>,
) -> Result<(), AllocError>
    ensures { OnOk result (out.new.items ≡ out.old.items ++ root_column is_alone root) }
{
    if is_alone {
        return Ok(());
    }
    word.clear();
    write_root(root, word)?;
    write_right(8, word.as_slice(), out)
}

/// The width of the column of names.
#[tactic(auto, unfolding(crate::specs::Table::names_width))]
fn names_width(is_alone: bool) -> usize
    ensures { result ≡ names_width is_alone }
{
    if is_alone { NAMES + 8 } else { NAMES }
}

/// Appends the line of a row. The word is a place for a text that is put into a column.
#[tactic(auto, unfolding(crate::specs::Table::row_text))]
fn write_row(
    is_alone: bool,
    row: &Row,
    word: &mut Vec<u8>,
    out: &mut Vec<u8>,
) -> Result<(), AllocError>
    ensures { OnOk result (out.new.items ≡ out.old.items ++ row_text is_alone row.now) }
{
    put_title(row, word)?;
    write_title(names_width(is_alone), word.as_slice(), out)?;
    word.clear();
    write_burst(row.own.burst, word)?;
    write_right(7, word.as_slice(), out)?;
    word.clear();
    write_interval(row.own.burst, row.own.steady, word)?;
    write_right(14, word.as_slice(), out)?;
    word.clear();
    write_number(row.stopped, word)?;
    write_right(7, word.as_slice(), out)?;
    word.clear();
    write_number(row.started, word)?;
    write_right(8, word.as_slice(), out)?;
    write_root_column(is_alone, row.root, word, out)?;
    out.extend_from_slice(b"  ")?;
    write_giver(row.path.as_bytes(), row.own.burst, out)?;
    out.extend_from_slice(b"\n")
}

/// Appends a text after a column, and gives the column after it.
#[tactic(auto, unfolding(crate::specs::Table::entry_text, crate::specs::Table::entry_end))]
fn write_entry(column: usize, text: &[u8], out: &mut Vec<u8>) -> Result<usize, AllocError>
    requires { column ≤ WIDTH }
    ensures text { OnOk result (out.new.items ≡ out.old.items ++ entry_text column text.now) }
    ensures column { IfOk result (λ after. after ≡ entry_end column text.now) }
    ensures width { IfOk result (λ after. after ≤ WIDTH) }
{
    let length = text.len();
    if length < WIDTH - column {
        out.extend_from_slice(b" ")?;
        out.extend_from_slice(text)?;
        return Ok(column + 1 + length);
    }
    out.extend_from_slice(b"\n         ")?;
    write_clipped(WIDTH - INDENT, text, out)?;
    Ok(INDENT + length.min(WIDTH - INDENT))
}

/// Appends children of a supervisor with this path, from a column on, and gives the column after them.
fn write_children(
    column: usize,
    path: &[u8],
    names: &[Name],
    word: &mut Vec<u8>,
    out: &mut Vec<u8>,
) -> Result<usize, AllocError>
    requires { column ≤ WIDTH }
    ensures text { OnOk result (out.new.items ≡ out.old.items ++ children_text column path.now names.now) }
    ensures column { IfOk result (λ after. after ≡ children_end column path.now names.now) }
    ensures width { IfOk result (λ after. after ≤ WIDTH) }
{
    let mut column = column;
    for name in names {
        put_below(path, name, word)?;
        column = write_entry(column, word.as_slice(), out)?;
    }
    Ok(column)
}

/// Appends the first of these children, and how many more there are.
#[tactic(auto, unfolding(crate::specs::Table::first_text))]
fn write_first(
    column: usize,
    path: &[u8],
    names: &[Name],
    word: &mut Vec<u8>,
    out: &mut Vec<u8>,
) -> Result<(), AllocError>
    requires column { column ≤ WIDTH }
    requires names { SHOWN ≤ length names.now }
    ensures { OnOk result (out.new.items ≡ out.old.items ++ first_text column path.now names.now) }
{
    let column = write_children(column, path, &names[..SHOWN], word, out)?;
    word.clear();
    word.extend_from_slice(b"and ")?;
    write_number((names.len() - SHOWN) as u64, word)?;
    word.extend_from_slice(b" more")?;
    let _column = write_entry(column, word.as_slice(), out)?;
    Ok(())
}

/// Appends these children, or the first of them where there are more than so many.
#[tactic(auto, unfolding(crate::specs::Table::some_text))]
fn write_some(
    most: usize,
    column: usize,
    path: &[u8],
    names: &[Name],
    word: &mut Vec<u8>,
    out: &mut Vec<u8>,
) -> Result<(), AllocError>
    requires column { column ≤ WIDTH }
    requires most { SHOWN ≤ most }
    ensures { OnOk result (out.new.items ≡ out.old.items ++ some_text most column path.now names.now) }
{
    if names.len() <= most {
        let _column = write_children(column, path, names, word, out)?;
        return Ok(());
    }
    write_first(column, path, names, word, out)
}

/// Appends supervisors, from a column on.
fn write_supervisors(column: usize, paths: &[Path], out: &mut Vec<u8>) -> Result<(), AllocError>
    requires { column ≤ WIDTH }
    ensures { OnOk result (out.new.items ≡ out.old.items ++ supervisors_text column paths.now) }
{
    let mut column = column;
    for path in paths {
        column = write_entry(column, path.as_bytes(), out)?;
    }
    Ok(())
}

/// Appends children after a word, or that there are none.
#[tactic(auto, unfolding(crate::specs::Table::list_text))]
fn write_list(
    most: usize,
    before: &[u8],
    path: &[u8],
    names: &[Name],
    word: &mut Vec<u8>,
    out: &mut Vec<u8>,
) -> Result<(), AllocError>
    requires before { length before.now ≤ WIDTH }
    requires most { SHOWN ≤ most }
    ensures { OnOk result (out.new.items ≡ out.old.items ++ list_text most before.now path.now names.now) }
{
    out.extend_from_slice(before)?;
    if names.is_empty() {
        return out.extend_from_slice(b" nothing\n");
    }
    write_some(most, before.len(), path, names, word, out)?;
    out.extend_from_slice(b"\n")
}

/// Appends the children that a row stands for, if it is more than one.
#[tactic(auto, unfolding(crate::specs::Table::names_text))]
fn write_names(
    most: usize,
    path: &[u8],
    names: &[Name],
    word: &mut Vec<u8>,
    out: &mut Vec<u8>,
) -> Result<(), AllocError>
    requires most { SHOWN ≤ most }
    ensures { OnOk result (out.new.items ≡ out.old.items ++ names_text most path.now names.now) }
{
    if names.len() <= 1 {
        return Ok(());
    }
    write_list(most, b"  alike ", path, names, word, out)
}

/// Appends the supervisors that have given up, or that there are none. A tree with one supervisor alone has no such line.
#[tactic(auto, unfolding(crate::specs::Table::ends_text))]
fn write_ends(is_alone: bool, paths: &[Path], out: &mut Vec<u8>) -> Result<(), AllocError>
    ensures { OnOk result (out.new.items ≡ out.old.items ++ ends_text is_alone paths.now) }
{
    if is_alone {
        return Ok(());
    }
    if paths.is_empty() {
        return out.extend_from_slice(b"  ends   nobody\n");
    }
    out.extend_from_slice(b"  ends  ")?;
    write_supervisors(8, paths, out)?;
    out.extend_from_slice(b"\n")
}

/// Appends whose crash it is.
#[tactic(auto, unfolding(crate::specs::Table::crash_text))]
fn write_crash(row: &Row, word: &mut Vec<u8>, out: &mut Vec<u8>) -> Result<(), AllocError>
    ensures { OnOk result (out.new.items ≡ out.old.items ++ crash_text row.now) }
{
    out.extend_from_slice(b"a crash of ")?;
    put_below(row.path.as_bytes(), &row.own.id, word)?;
    write_clipped(69, word.as_slice(), out)?;
    out.extend_from_slice(b"\n")
}

/// Appends what a crash of a child stops and starts again, and how many processes below these children.
#[tactic(auto, unfolding(crate::specs::Table::affected_text))]
fn write_affected(
    most: usize,
    row: &Row,
    word: &mut Vec<u8>,
    out: &mut Vec<u8>,
) -> Result<(), AllocError>
    requires { SHOWN ≤ most }
    ensures { OnOk result (out.new.items ≡ out.old.items ++ affected_text most row.now) }
{
    write_named(most, row, word, out)?;
    write_below(
        row.stopped
            .saturating_sub(row.own.stops.as_slice().len() as u64),
        row.started
            .saturating_sub(row.own.starts.as_slice().len() as u64),
        out,
    )
}

/// Appends how many processes below some children stop, and how many start, if there are some.
#[tactic(auto, unfolding(crate::specs::Table::below_text))]
fn write_below(stops: u64, starts: u64, out: &mut Vec<u8>) -> Result<(), AllocError>
    ensures { OnOk result (out.new.items ≡ out.old.items ++ below_text stops starts) }
{
    if stops == 0 && starts == 0 {
        return Ok(());
    }
    out.extend_from_slice(b"  below  ")?;
    write_number(stops, out)?;
    out.extend_from_slice(b" stop, ")?;
    write_number(starts, out)?;
    out.extend_from_slice(b" start\n")
}

/// Appends the children that a crash of a child stops and starts again.
#[tactic(auto, unfolding(crate::specs::Table::named_text))]
fn write_named(
    most: usize,
    row: &Row,
    word: &mut Vec<u8>,
    out: &mut Vec<u8>,
) -> Result<(), AllocError>
    requires { SHOWN ≤ most }
    ensures { OnOk result (out.new.items ≡ out.old.items ++ named_text most row.now) }
{
    let path = row.path.as_bytes();
    write_list(most, b"  stops ", path, row.own.stops.as_slice(), word, out)?;
    write_list(
        most,
        b"  starts",
        path,
        row.own.starts.as_slice(),
        word,
        out,
    )
}

/// Appends whom crashes of a child end, how far apart they must be for OTP, and which children are alike.
#[tactic(auto, unfolding(crate::specs::Table::rest_text))]
fn write_rest(
    is_alone: bool,
    most: usize,
    row: &Row,
    word: &mut Vec<u8>,
    out: &mut Vec<u8>,
) -> Result<(), AllocError>
    requires { SHOWN ≤ most }
    ensures { OnOk result (out.new.items ≡ out.old.items ++ rest_text is_alone most row.now) }
{
    write_ends(is_alone, row.ends.as_slice(), out)?;
    write_clock(row.own.steady, row.own.seconds, out)?;
    write_names(most, row.path.as_bytes(), row.names.as_slice(), word, out)
}

/// Appends what a crash of a child stops and starts again, and whom its crashes end.
#[tactic(auto, unfolding(crate::specs::Table::damage_text))]
fn write_damage(
    is_alone: bool,
    most: usize,
    row: &Row,
    word: &mut Vec<u8>,
    out: &mut Vec<u8>,
) -> Result<(), AllocError>
    requires { SHOWN ≤ most }
    ensures { OnOk result (out.new.items ≡ out.old.items ++ damage_text is_alone most row.now) }
{
    write_crash(row, word, out)?;
    write_affected(most, row, word, out)?;
    write_rest(is_alone, most, row, word, out)
}

/// Appends the lines of rows.
fn write_lines(
    is_alone: bool,
    rows: &[Row],
    word: &mut Vec<u8>,
    out: &mut Vec<u8>,
) -> Result<(), AllocError>
    ensures { OnOk result (out.new.items ≡ out.old.items ++ flat_map (row_text is_alone) rows.now) }
{
    for row in rows {
        write_row(is_alone, row, word, out)?;
    }
    Ok(())
}

/// Appends what crashes of the first child of each row do.
fn write_all_damage(
    is_alone: bool,
    most: usize,
    rows: &[Row],
    word: &mut Vec<u8>,
    out: &mut Vec<u8>,
) -> Result<(), AllocError>
    requires { SHOWN ≤ most }
    ensures { OnOk result (out.new.items ≡ out.old.items ++ flat_map (damage_text is_alone most) rows.now) }
{
    for row in rows {
        write_damage(is_alone, most, row, word, out)?;
    }
    Ok(())
}

/// The titles of the columns.
#[tactic(auto, unfolding(crate::specs::Table::titles))]
fn write_titles(is_alone: bool, out: &mut Vec<u8>) -> Result<(), AllocError>
    ensures { OnOk result (out.new.items ≡ out.old.items ++ titles is_alone) }
{
    if is_alone {
        out.extend_from_slice(
            b"child                             burst      interval  stops  starts  gives up\n",
        )
    } else {
        out.extend_from_slice(
            b"child                     burst      interval  stops  starts    root  gives up\n",
        )
    }
}

/// Appends a table of what failures of the children of a tree cost, and then what each stops and starts again, and whom it
/// ends. Of more than so many children in a list the first are shown. No line has more than 80 columns: of a name that is
/// longer stand the last bytes, behind dots. A tree with one supervisor alone has no column for the root.
///
/// # Errors
///
/// Where memory is refused.
#[tactic(auto, unfolding(crate::specs::Table::table_text))]
pub fn write_table(
    alloc: Global,
    is_alone: bool,
    most: usize,
    rows: &[Row],
    out: &mut Vec<u8>,
) -> Result<(), AllocError>
    requires { SHOWN ≤ most }
    ensures { OnOk result (out.new.items ≡ out.old.items ++ table_text is_alone most rows.now) }
{
    let mut word = Vec::new(alloc);
    write_titles(is_alone, out)?;
    write_lines(is_alone, rows, &mut word, out)?;
    write_all_damage(is_alone, most, rows, &mut word, out)
}
