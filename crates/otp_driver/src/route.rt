//! What an order of a supervisor is in the tree: whom it reaches, and as what.

ghost use Rattle.std.specs.Prelude.{◌≡◌, IsTrue, slice_get};
ghost use Rattle.otp_driver.specs.declared.route.Route.TheVariants.{Outside};
ghost use Rattle.otp_driver.specs.Routes.{end_route, ending_in, ready_route, route_of, start_route, stop_route};
ghost use Rattle.otp_driver.specs.Links.{nested_of};
ghost use Rattle.otp_driver.specs.Members.{row_at, state_in};

use crate::driven::link::{find_process, has_nested, nested_of, note_of_end};
use crate::driven::{Link, Supervisor};
use otp_reason::{Note, Reason};
use otp_rules::{Cause, Effect, Ending};

/// What an order of a supervisor is in the tree.
#[derive(Clone, Copy, Debug, PartialEq, Eq)]
pub enum Route {
    /// It is for the outside.
    Outside,
    /// The supervisor of this number starts, as this process.
    Start(usize, u64),
    /// The supervisor of this number is wanted to shut down.
    Stop(usize),
    /// The supervisor of this number, the parent, is told so, by one that is up or has ended for this reason.
    Tell(usize, Note, Option<Ending>),
}

pub(crate) fn link_at(links: &[Link], place: usize) -> Option<Link>
    ensures { result ≡ slice_get links.now place }
{
    let link = links.get(place)?;
    Some(*link)
}

/// The supervisor of the tree that is the child with this process, of the supervisor at a place. Where no child is one, no
/// row is looked for.
pub(crate) fn nested_at(
    links: &[Link],
    place: usize,
    supervisor: &Supervisor,
    number: u64,
) -> Option<usize>
    ensures { result ≡ nested_of links.now place (row_at (state_in supervisor.now).rows number) }
{
    if has_nested(links, place) {
        nested_of(links, place, supervisor.child(number))
    } else {
        None
    }
}

fn start_route(below: Option<usize>, number: u64) -> Route
    ensures { result ≡ start_route below number }
{
    match below {
        None => Route::Outside,
        Some(below) => Route::Start(below, number),
    }
}

fn stop_route(below: Option<usize>) -> Route
    ensures { result ≡ stop_route below }
{
    match below {
        None => Route::Outside,
        Some(below) => Route::Stop(below),
    }
}

/// What the parent of a supervisor is told that has started its children.
fn ready_route(link: Option<Link>) -> Route
    ensures { result ≡ ready_route link }
{
    let Some(link) = link else {
        return Route::Outside;
    };
    match link.process {
        None => Route::Outside,
        Some(number) => Route::Tell(link.parent, Note::Up(number), None),
    }
}

/// Why a supervisor ended, without what shows it.
pub fn ending_in(cause: &Cause) -> Ending
    ensures { result ≡ ending_in cause.now }
{
    match cause {
        Cause::Intensity { .. } => Ending::Intensity,
        Cause::Significant(number) => Ending::Significant(*number),
        Cause::Asked => Ending::Asked,
        Cause::InitFailed(id) => Ending::InitFailed(*id),
    }
}

/// What the parent of a supervisor is told that has ended.
fn end_route(link: Option<Link>, reason: Reason, ending: Ending) -> Route
    ensures { result ≡ end_route link reason ending }
{
    let Some(link) = link else {
        return Route::Outside;
    };
    match link.process {
        None => Route::Outside,
        Some(number) => Route::Tell(
            link.parent,
            note_of_end(link.is_up, number, reason),
            Some(ending),
        ),
    }
}

/// Whether this order is for the outside, as that is seen without its route: by what it is, and whom it names. Where the
/// answer is no, the route says.
#[tactic(auto, unfolding(crate::specs::Routes::route_of))]
pub(crate) fn is_outside(
    links: &[Link],
    place: usize,
    supervisor: &Supervisor,
    order: &Effect,
) -> bool
    ensures { IsTrue result → route_of links.now place (state_in supervisor.now).rows order.now ≡ Outside }
{
    match order {
        Effect::Start(_, number) => nested_at(links, place, supervisor, *number).is_none(),
        Effect::Ask(_, number) | Effect::Kill(_, number) => {
            find_process(links, place, *number).is_none()
        }
        Effect::Reply(_) => true,
        Effect::Ready | Effect::End(_) => false,
    }
}

/// What this order is, of this supervisor, which is at this place.
#[tactic(auto, unfolding(crate::specs::Routes::route_of))]
pub(crate) fn route_of(
    links: &[Link],
    place: usize,
    supervisor: &Supervisor,
    order: &Effect,
) -> Route
    ensures { result ≡ route_of links.now place (state_in supervisor.now).rows order.now }
{
    match order {
        Effect::Start(_, number) => {
            start_route(nested_at(links, place, supervisor, *number), *number)
        }
        Effect::Ask(_, number) => stop_route(find_process(links, place, *number)),
        Effect::Kill(_, number) => stop_route(find_process(links, place, *number)),
        Effect::Reply(_) => Route::Outside,
        Effect::Ready => ready_route(link_at(links, place)),
        Effect::End(end) => end_route(link_at(links, place), end.reason, ending_in(&end.cause)),
    }
}
