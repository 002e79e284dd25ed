//! Which child a process was started for.

ghost use Rattle.std.specs.Prelude.{◌≡◌, ◌<◌, ◌++◌, IfSome, OnOk, count_by, length, position};
ghost use Rattle.std.specs.List.{list_any};
ghost use Rattle.otp_trial.specs.Starts.{is_of_id, is_start_of};
ghost use Rattle.otp_trial.specs.Starts.{is_of, start_found, start_in, starts_in};

use otp_reason::Name;
use otp_rules::Effect;
use otp_script::Child;
use std::alloc::AllocError;

/// A start that a supervisor ordered.
#[derive(Clone, Copy, Debug, PartialEq, Eq)]
pub struct Started {
    /// The child's id; a dynamic child has none.
    pub id: Option<Name>,
    /// The number of its process.
    pub process: u64,
}

/// Puts the start that an order asks for behind others, if it asks for one.
#[tactic(auto, unfolding(crate::specs::Starts::start_in))]
fn put_start(order: &Effect, starts: &mut Vec<Started>) -> Result<(), AllocError>
    ensures { OnOk result (starts.new.items ≡ starts.old.items ++ start_in order.now) }
{
    match order {
        Effect::Start(id, process) => {
            let started = Started {
                id: *id,
                process: *process,
            };
            starts.push(started).map_err(|_| AllocError)
        }
        Effect::Ask(..) | Effect::Kill(..) => Ok(()),
        Effect::Reply(_) | Effect::Ready | Effect::End(_) => Ok(()),
    }
}

/// Puts the starts that orders ask for behind others.
#[tactic(auto, unfolding(crate::specs::Starts::starts_in))]
pub fn put_starts(orders: &[Effect], starts: &mut Vec<Started>) -> Result<(), AllocError>
    ensures { OnOk result (starts.new.items ≡ starts.old.items ++ starts_in orders.now) }
{
    for order in orders {
        put_start(order, starts)?;
    }
    Ok(())
}

/// Whether a start is that of the process with this number.
fn is_of(process: u64, started: &Started) -> bool
    ensures { result ≡ is_of process started.now }
{
    started.process == process
}

/// The place of the start of the process with this number.
fn place_of(starts: &[Started], process: u64) -> Option<usize>
    ensures place { result ≡ position (is_of process) starts.now }
    ensures inside { IfSome result (λ place. place < length starts.now) }
{
    starts.iter().position(|started| is_of(process, started))
}

/// The start of the process with this number.
#[tactic(auto, unfolding(crate::specs::Starts::start_found))]
pub(crate) fn start_of(starts: &[Started], process: u64) -> Option<Started>
    ensures { result ≡ start_found starts.now (position (is_of process) starts.now) }
{
    match place_of(starts, process) {
        None => None,
        Some(place) => Some(starts[place]),
    }
}

/// Whether a start is one of the child with this id.
#[tactic(auto, unfolding(crate::specs::Starts::is_of_id))]
fn is_of_id(id: &Name, started: &Started) -> bool
    ensures { result ≡ is_of_id id.now started.now }
{
    started.id == Some(*id)
}

/// How many of these starts are of the child with this id.
pub fn starts_of(id: &Name, starts: &[Started]) -> u64
    ensures { result ≡ count_by (is_of_id id.now) starts.now }
{
    let mut count: u64 = 0;
    for started in starts {
        if is_of_id(id, started) {
            count += 1;
        }
    }
    count
}

/// Whether a start is one of the child that a script means.
#[tactic(auto, unfolding(crate::specs::Starts::is_start_of))]
fn is_start_of(child: &Child, started: &Started) -> bool
    ensures { result ≡ is_start_of child.now started.now }
{
    match child {
        Child::Named(id) => is_of_id(id, started),
        Child::Numbered(process) => started.process == *process,
    }
}

/// Whether one of these starts is of the child that a script means.
pub fn has_start(child: &Child, starts: &[Started]) -> bool
    ensures { result ≡ list_any (is_start_of child.now) starts.now }
{
    starts.iter().any(|started| is_start_of(child, started))
}
