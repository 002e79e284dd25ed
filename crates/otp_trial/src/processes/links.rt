//! How the supervisors of a world stand: whose child each is, and whether it has a process.

ghost use Rattle.std.specs.Prelude.{◌≡◌, ◌<◌, IfSome, None, length, option_map, slice_get, slice_set};
ghost use Rattle.otp_driver.specs.Links.{asked, begun, gone, nested_of, up};
ghost use Rattle.otp_driver.specs.Members.{row_at};
ghost use Rattle.otp_trial.specs.Links.{changed_at, has_process_at, is_stopping_at};

use crate::processes::finding::place_of_process;
use otp_driver::driven::Link;
use otp_driver::driven::link::{has_nested, nested_of};
use otp_file::MAX_DEPTH;
use otp_table::Row;
use std::alloc::{AllocError, Global};

/// The child that has this process.
#[tactic(auto, unfolding(otp_driver::specs::Members::row_at))]
fn row_at(rows: &[Row], process: u64) -> Option<&Row>
    ensures { option_map (λ r. r.now) result ≡ row_at rows.now process }
{
    let place = place_of_process(rows, process)?;
    rows.get(place)
}

/// The place of the supervisor that is the child with this process, of the supervisor at this place, which has these
/// children. Where no child of it is a supervisor, no row is looked for.
pub(crate) fn nested_at(links: &[Link], place: usize, rows: &[Row], process: u64) -> Option<usize>
    ensures { result ≡ nested_of links.now place (row_at rows.now process) }
{
    if has_nested(links, place) {
        nested_of(links, place, row_at(rows, process))
    } else {
        None
    }
}

/// The supervisor at this place.
pub(crate) fn link_at(links: &[Link], place: usize) -> Option<Link>
    ensures link { result ≡ slice_get links.now place }
    ensures inside { IfSome result (λ link. place < length links.now) }
{
    if place < links.len() {
        Some(links[place])
    } else {
        None
    }
}

/// The supervisor at this place stands so.
fn put_link(links: &mut Vec<Link>, place: usize, link: Link)
    requires { place < length links.old.items }
    ensures { links.new.items ≡ slice_set links.old.items place link }
{
    links[place] = link;
}

/// Whether the supervisor at this place has a process. The root always has one.
#[tactic(auto, unfolding(crate::specs::Links::has_process_at, crate::specs::Links::has_process_in))]
pub(crate) fn has_process_at(links: &[Link], place: usize) -> bool
    ensures { result ≡ has_process_at place links.now }
{
    match link_at(links, place) {
        None => false,
        Some(link) => link.runs(place),
    }
}

/// Whether the supervisor at this place is wanted to shut down.
#[tactic(auto, unfolding(crate::specs::Links::is_stopping_at, crate::specs::Links::is_stopping_in))]
pub(crate) fn is_stopping_at(links: &[Link], place: usize) -> bool
    ensures { result ≡ is_stopping_at place links.now }
{
    match link_at(links, place) {
        None => false,
        Some(link) => link.is_stopping,
    }
}

/// The supervisor at this place is wanted to shut down.
#[tactic(auto, unfolding(crate::specs::Links::changed_at, crate::specs::Links::changed_in))]
pub(crate) fn stop_at(links: &mut Vec<Link>, place: usize)
    ensures { links.new.items ≡ changed_at asked place links.old.items }
{
    let found = link_at(links.as_slice(), place);
    if let Some(link) = found {
        put_link(links, place, link.asked());
    }
}

/// The supervisor at this place has a process of this number, and starts its children.
#[tactic(auto, unfolding(crate::specs::Links::changed_at, crate::specs::Links::changed_in))]
pub(crate) fn begin_at(links: &mut Vec<Link>, place: usize, process: u64)
    ensures { links.new.items ≡ changed_at (begun process) place links.old.items }
{
    let found = link_at(links.as_slice(), place);
    if let Some(link) = found {
        put_link(links, place, link.begun(process));
    }
}

/// The supervisor at this place has told its parent that it runs.
#[tactic(auto, unfolding(crate::specs::Links::changed_at, crate::specs::Links::changed_in))]
pub(crate) fn up_at(links: &mut Vec<Link>, place: usize)
    ensures { links.new.items ≡ changed_at up place links.old.items }
{
    let found = link_at(links.as_slice(), place);
    if let Some(link) = found {
        put_link(links, place, link.up());
    }
}

/// The supervisor at this place has no process.
#[tactic(auto, unfolding(crate::specs::Links::changed_at, crate::specs::Links::changed_in))]
pub(crate) fn end_at(links: &mut Vec<Link>, place: usize)
    ensures { links.new.items ≡ changed_at (gone None) place links.old.items }
{
    let found = link_at(links.as_slice(), place);
    if let Some(link) = found {
        put_link(links, place, link.gone(None));
    }
}

/// The supervisors have no process whose parent has none. A parent stands before its children.
pub(crate) fn end_orphans(links: &mut Vec<Link>) {
    for place in 1..links.len() {
        let found = link_at(links.as_slice(), place);
        if let Some(link) = found {
            if !has_process_at(links.as_slice(), link.parent) {
                end_at(links, place);
            }
        }
    }
}

/// These supervisors, none of which has a process.
pub(crate) fn links_again(alloc: Global, links: &[Link]) -> Result<Vec<Link>, AllocError> {
    let mut again = Vec::new(alloc);
    for link in links {
        again
            .push(Link::new(link.parent, link.child))
            .map_err(|_| AllocError)?;
    }
    Ok(again)
}

/// Whether the supervisor at `above` is that at `place`, or one above it. A parent stands before its children.
fn is_above(links: &[Link], above: usize, place: usize) -> bool {
    let mut at = place;
    for _ in 0..MAX_DEPTH {
        if at <= above || at >= links.len() {
            return at == above;
        }
        at = links[at].parent;
    }
    false
}

/// Whose child the supervisor at this place of these is, where those of the way from the root to `place` are played; each other one is
/// no supervisor to its parent.
fn link_to(links: &[Link], at: usize, place: usize) -> Link
    requires { at < length links.now }
{
    let link = links[at];
    let child = if is_above(links, at, place) {
        link.child
    } else {
        None
    };
    Link::new(link.parent, child)
}

/// These supervisors, none of which has a process, where those of the way from the root to this place are played.
pub(crate) fn links_to(
    alloc: Global,
    links: &[Link],
    place: usize,
) -> Result<Vec<Link>, AllocError> {
    let mut again = Vec::new(alloc);
    for at in 0..links.len() {
        again
            .push(link_to(links, at, place))
            .map_err(|_| AllocError)?;
    }
    Ok(again)
}
