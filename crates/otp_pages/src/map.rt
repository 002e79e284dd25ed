//! A tree as a map, in which each child says what a crash of it takes down.

ghost use Rattle.std.specs.Prelude.{◌≡◌, ◌+◌, ◌<◌, ◌≤◌, ◌++◌, IfSome, OnOk, length, option_map, position};
ghost use Rattle.std.specs.List.{list_any};
ghost use Rattle.std.specs.Str.{bytes_eq};
ghost use Rattle.otp_file.specs.Nested.{sub_at};
ghost use Rattle.otp_pages.specs.Maps.{again_html, all_siblings_html, at_place, bears_html, crash_html, has_child, is_name, item_opening, itself_html, known_html, list_opening, map_child, map_children, map_html, root_html, siblings_html, starts_html, stops_html, summary_html, title_html, told_html};

use crate::child::put_sub;
use crate::fates::{put_bar, put_gives_up};
use crate::html::put_element;
use crate::names::{put_name, put_names, put_paths};
use crate::row::put_count;
use otp_costs::limits::Fate;
use otp_costs::{Row, write_burst, write_root};
use otp_file::nested::{NestedText, TableWriter, sub_at};
use otp_reason::Name;
use otp_spec::{ChildSpec, Restart, SupFlags};
use std::alloc::{AllocError, Global};

/// Whether two names are the same.
fn is_name(name: &Name, other: &Name) -> bool
    ensures { result ≡ is_name name.now other.now }
{
    *other == *name
}

/// Whether two texts are the same.
fn is_path(one: &[u8], other: &[u8]) -> bool
    ensures { result ≡ bytes_eq one.now other.now }
{
    one == other
}

/// Whether a name is among these.
fn is_among(name: &Name, names: &[Name]) -> bool
    ensures { result ≡ list_any (is_name name.now) names.now }
{
    names.iter().any(|other| is_name(name, other))
}

/// Whether a row is that of the child with this id, whose supervisor's children have this path.
fn has_child(path: &[u8], id: &Name, row: &Row) -> bool
    ensures { result ≡ has_child path.now id.now row.now }
{
    is_path(row.path.as_bytes(), path) && is_among(id, row.names.as_slice())
}

/// The place of the row of a child.
fn place_of(path: &[u8], id: &Name, rows: &[Row]) -> Option<usize>
    ensures place { result ≡ position (has_child path.now id.now) rows.now }
    ensures inside { IfSome result (λ place. place < length rows.now) }
{
    rows.iter().position(|row| has_child(path, id, row))
}

/// Appends a child's name, with which what is told of it begins.
#[tactic(auto, unfolding(crate::specs::Maps::title_html))]
fn put_title(id: &Name, out: &mut Vec<u8>) -> Result<(), AllocError>
    ensures { OnOk result (out.new.items ≡ out.old.items ++ title_html id.now) }
{
    put_element(
        b"<details name=\"crash\"><summary><code>",
        id.as_bytes(),
        b"</code>",
        out,
    )
}

/// Appends a child's name, and how many crashes at once are survived.
#[tactic(auto, unfolding(crate::specs::Maps::summary_html))]
fn put_summary(id: &Name, burst: Fate, out: &mut Vec<u8>) -> Result<(), AllocError>
    ensures { OnOk result (out.new.items ≡ out.old.items ++ summary_html id.now burst) }
{
    put_title(id, out)?;
    put_bar(burst, out)?;
    out.extend_from_slice(b"</summary>\n")
}

/// Appends some children behind a word that says what becomes of them.
#[tactic(auto, unfolding(crate::specs::Maps::told_html))]
fn put_told(
    front: &[u8],
    path: &[u8],
    names: &[Name],
    processes: u64,
    word: &mut Vec<u8>,
    out: &mut Vec<u8>,
) -> Result<(), AllocError>
    ensures { OnOk result (out.new.items ≡ out.old.items ++ told_html front.now path.now names.now processes) }
{
    out.extend_from_slice(front)?;
    put_names(path, names, word, out)?;
    put_count(names.len() as u64, processes, out)?;
    out.extend_from_slice(b"</p>\n")
}

/// Appends that a crash of a child stops all its siblings, if that of the first of those alike stops these.
#[tactic(auto, unfolding(crate::specs::Maps::siblings_html))]
fn put_siblings(stops: &[Name], processes: u64, out: &mut Vec<u8>) -> Result<(), AllocError>
    ensures { OnOk result (out.new.items ≡ out.old.items ++ siblings_html stops.now processes) }
{
    match stops {
        [] => out.extend_from_slice(b"<p>A crash stops <small>nothing</small></p>\n"),
        [_, ..] => put_all_siblings(stops, processes, out),
    }
}

/// Appends that a crash of a child stops all its siblings, and how many processes these are.
#[tactic(auto, unfolding(crate::specs::Maps::all_siblings_html))]
fn put_all_siblings(stops: &[Name], processes: u64, out: &mut Vec<u8>) -> Result<(), AllocError>
    ensures { OnOk result (out.new.items ≡ out.old.items ++ all_siblings_html stops.now processes) }
{
    out.extend_from_slice(b"<p>A crash stops <small>all its siblings</small>")?;
    put_count(stops.len() as u64, processes, out)?;
    out.extend_from_slice(b"</p>\n")
}

/// Appends what a crash of a child stops. Of those that are alike the row has what that of the first stops, among them the others.
#[tactic(auto, unfolding(crate::specs::Maps::stops_html))]
fn put_stops(row: &Row, word: &mut Vec<u8>, out: &mut Vec<u8>) -> Result<(), AllocError>
    ensures { OnOk result (out.new.items ≡ out.old.items ++ stops_html row.now) }
{
    let path = row.path.as_bytes();
    let stops = row.own.stops.as_slice();
    if row.names.as_slice().len() <= 1 {
        put_told(b"<p>A crash stops ", path, stops, row.stopped, word, out)
    } else {
        put_siblings(stops, row.stopped, out)
    }
}

/// Appends that a child starts itself again.
#[tactic(auto, unfolding(crate::specs::Maps::again_html))]
fn put_again(
    path: &[u8],
    id: &Name,
    word: &mut Vec<u8>,
    out: &mut Vec<u8>,
) -> Result<(), AllocError>
    ensures { OnOk result (out.new.items ≡ out.old.items ++ again_html path.now id.now) }
{
    out.extend_from_slice(b"<p>It starts again ")?;
    put_name(path, id, word, out)?;
    out.extend_from_slice(b"</p>\n")
}

/// Appends that a child starts itself again, if the first of those alike does.
#[tactic(auto, unfolding(crate::specs::Maps::itself_html))]
fn put_itself(
    path: &[u8],
    id: &Name,
    starts: &[Name],
    word: &mut Vec<u8>,
    out: &mut Vec<u8>,
) -> Result<(), AllocError>
    ensures { OnOk result (out.new.items ≡ out.old.items ++ itself_html path.now id.now starts.now) }
{
    match starts {
        [] => out.extend_from_slice(b"<p>It starts again <small>nothing</small></p>\n"),
        [_, ..] => put_again(path, id, word, out),
    }
}

/// Appends what a crash of a child starts again.
#[tactic(auto, unfolding(crate::specs::Maps::starts_html))]
fn put_starts(id: &Name, row: &Row, word: &mut Vec<u8>, out: &mut Vec<u8>) -> Result<(), AllocError>
    ensures { OnOk result (out.new.items ≡ out.old.items ++ starts_html id.now row.now) }
{
    let path = row.path.as_bytes();
    let starts = row.own.starts.as_slice();
    if row.names.as_slice().len() <= 1 || !row.own.stops.as_slice().is_empty() {
        put_told(b"<p>It starts again ", path, starts, row.started, word, out)
    } else {
        put_itself(path, id, starts, word, out)
    }
}

/// Appends how many crashes at once are survived, and who gives up then.
#[tactic(auto, unfolding(crate::specs::Maps::bears_html))]
fn put_bears(row: &Row, out: &mut Vec<u8>) -> Result<(), AllocError>
    ensures { OnOk result (out.new.items ≡ out.old.items ++ bears_html row.now) }
{
    out.extend_from_slice(b"<p>Survived at once: ")?;
    write_burst(row.own.burst, out)?;
    out.extend_from_slice(b"; then gives up ")?;
    put_gives_up(row.path.as_bytes(), row.own.burst, out)?;
    out.extend_from_slice(b"</p>\n")
}

/// Appends how many crashes at once the root survives, and through whom it goes down.
#[tactic(auto, unfolding(crate::specs::Maps::root_html))]
fn put_root(row: &Row, out: &mut Vec<u8>) -> Result<(), AllocError>
    ensures { OnOk result (out.new.items ≡ out.old.items ++ root_html row.now) }
{
    out.extend_from_slice(b"<p>The root survives ")?;
    write_root(row.root, out)?;
    put_paths(row.ends.as_slice(), out)?;
    out.extend_from_slice(b"</p>\n")
}

/// Appends what a crash of a child takes down, whose row this is. The word is a place for a text.
#[tactic(auto, unfolding(crate::specs::Maps::crash_html))]
fn put_crash(id: &Name, row: &Row, word: &mut Vec<u8>, out: &mut Vec<u8>) -> Result<(), AllocError>
    ensures { OnOk result (out.new.items ≡ out.old.items ++ crash_html id.now row.now) }
{
    put_summary(id, row.own.burst, out)?;
    put_stops(row, word, out)?;
    put_starts(id, row, word, out)?;
    put_bears(row, out)?;
    put_root(row, out)?;
    out.extend_from_slice(b"</details>\n")
}

/// Appends what a crash of a child takes down, whose row stands at this place, if it is asked for.
#[tactic(auto, unfolding(crate::specs::Maps::known_html))]
fn put_known(
    id: &Name,
    rows: &[Row],
    place: Option<usize>,
    word: &mut Vec<u8>,
    out: &mut Vec<u8>,
) -> Result<(), AllocError>
    requires { IfSome place (λ at. at < length rows.now) }
    ensures { OnOk result (out.new.items ≡ out.old.items ++ known_html id.now (at_place rows.now place)) }
{
    match place {
        None => put_element(b"<code>", id.as_bytes(), b"</code>\n", out),
        Some(place) => put_crash(id, &rows[place], word, out),
    }
}

/// Appends a word of the program's own between two texts.
fn put_between(front: &[u8], word: &[u8], back: &[u8], out: &mut Vec<u8>) -> Result<(), AllocError>
    ensures { OnOk result (out.new.items ≡ out.old.items ++ (front.now ++ word.now ++ back.now)) }
{
    out.extend_from_slice(front)?;
    out.extend_from_slice(word)?;
    out.extend_from_slice(back)
}

/// Appends the beginning of a child, which says when it is restarted.
#[tactic(auto, unfolding(crate::specs::Maps::item_opening))]
fn put_item(restart: Restart, out: &mut Vec<u8>) -> Result<(), AllocError>
    ensures { OnOk result (out.new.items ≡ out.old.items ++ item_opening restart) }
{
    put_between(b"<li class=\"is_", restart.word().as_bytes(), b"\">", out)
}

/// Appends a child, and all below it.
#[tactic(auto, unfolding(crate::specs::Maps::map_child))]
fn put_child(
    rows: &[Row],
    path: &[u8],
    spec: &ChildSpec,
    sub: Option<&NestedText>,
    word: &mut Vec<u8>,
    out: &mut Vec<u8>,
) -> Result<(), AllocError>
    ensures { OnOk result (out.new.items ≡ out.old.items ++ map_child rows.now path.now spec.now (option_map (λ piece. piece.now) sub.entry)) }
{
    put_item(spec.restart, out)?;
    put_known(&spec.id, rows, place_of(path, &spec.id, rows), word, out)?;
    put_sub(sub, out)?;
    out.extend_from_slice(b"</li>\n")
}

/// Appends these children, of which the first stands at this place.
fn put_children(
    rows: &[Row],
    path: &[u8],
    nested: &[usize],
    each: &[NestedText],
    place: usize,
    specs: &[ChildSpec],
    word: &mut Vec<u8>,
    out: &mut Vec<u8>,
) -> Result<(), AllocError>
    requires { place + length specs.now ≤ 256 }
    ensures { OnOk result (out.new.items ≡ out.old.items ++ map_children rows.now path.now nested.now each.now place specs.now) }
{
    match specs {
        [] => Ok(()),
        [spec, others @ ..] => {
            put_child(rows, path, spec, sub_at(place, nested, each), word, out)?;
            put_children(rows, path, nested, each, place + 1, others, word, out)
        }
    }
}

/// Appends the beginning of a supervisor.
#[tactic(auto, unfolding(crate::specs::Maps::list_opening))]
fn put_list(flags: &SupFlags, out: &mut Vec<u8>) -> Result<(), AllocError>
    ensures { OnOk result (out.new.items ≡ out.old.items ++ list_opening flags.now) }
{
    put_between(
        b"<ul class=\"",
        flags.strategy.word().as_bytes(),
        b"\">\n",
        out,
    )
}

/// Appends a supervisor and its children, of which those at these places have trees of which this is said.
#[tactic(auto, unfolding(crate::specs::Maps::map_html))]
fn put_map(
    rows: &[Row],
    path: &[u8],
    flags: &SupFlags,
    specs: &[ChildSpec],
    nested: &[usize],
    each: &[NestedText],
    word: &mut Vec<u8>,
    out: &mut Vec<u8>,
) -> Result<(), AllocError>
    requires { length specs.now ≤ 256 }
    ensures { OnOk result (out.new.items ≡ out.old.items ++ map_html rows.now path.now flags.now specs.now nested.now each.now) }
{
    put_list(flags, out)?;
    put_children(rows, path, nested, each, 0, specs, word, out)?;
    out.extend_from_slice(b"</ul>\n")
}

/// Who writes the map of a tree, by the rows of its children.
#[derive(Drop)]
pub(crate) struct Map<'r> {
    pub alloc: Global,
    pub rows: &'r [Row],
}

impl TableWriter for Map<'_> {
    ghost use Rattle.otp_pages.specs.Maps.{map_html};

    ghost written = { λ map. map_html map.rows.now };

    fn write(
        &self,
        path: &[u8],
        flags: &SupFlags,
        specs: &[ChildSpec],
        nested: &[usize],
        each: &[NestedText],
        out: &mut Vec<u8>,
    ) -> Result<(), AllocError> {
        let mut word = Vec::new(self.alloc);
        put_map(self.rows, path, flags, specs, nested, each, &mut word, out)
    }
}
