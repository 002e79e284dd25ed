//! Orders as the outside sees them.

ghost use Rattle.std.specs.Prelude.{◌≡◌, ℕ, option_map};
ghost use Rattle.otp_driver.specs.Orders.{deadline_in, start_in, task_of, what_of};
ghost use Rattle.otp_driver.specs.Members.{state_in};
ghost use Rattle.otp_driver.specs.declared.order.What.TheVariants as what;
ghost use Rattle.otp_rules.specs.declared.event.Effect.TheVariants as effect;

use crate::driven::Supervisor;
use crate::route::ending_in;
use otp_reason::{Name, Reason};
use otp_rules::{Effect, Ending};
use otp_table::{Row, RowState};

/// A process outside, as an order names it.
#[derive(Clone, Copy, Debug, PartialEq, Eq)]
pub struct Task {
    /// Its number: processes are numbered upwards, over the whole tree.
    pub number: u64,
    /// The child's id; a dynamic one has none.
    pub id: Option<Name>,
    /// The child's start word, as its specification has it; `None` where the child is gone meanwhile.
    pub start: Option<Name>,
}

/// What is ordered.
#[derive(Clone, Copy, Debug, PartialEq, Eq)]
pub enum What {
    /// Start it, and tell how that went.
    Start(Task),
    /// Ask it to shut down, and tell when it has ended. At the reading, if there is one, the order to kill it comes.
    Ask(Task, Option<u64>),
    /// Kill it, and tell when it has ended.
    Kill(Task),
    /// The call with this number was answered.
    Reply(u64),
    /// The root is up: its children have started.
    Ready,
    /// The root has ended, with this reason and for this cause.
    End(Reason, Ending),
}

/// An order for the outside.
#[derive(Clone, Copy, Debug, PartialEq, Eq)]
pub struct Order {
    /// The supervisor whose order it is: the number of its table.
    pub supervisor: usize,
    pub what: What,
}

fn start_in(row: Option<&Row>) -> Option<Name>
    ensures { result ≡ start_in (option_map (λ r. r.now) row.entry) }
{
    match row {
        None => None,
        Some(row) => Some(row.spec.start),
    }
}

fn deadline_in(row: Option<&Row>) -> Option<u64>
    ensures { result ≡ deadline_in (option_map (λ r. r.now) row.entry) }
{
    let Some(row) = row else {
        return None;
    };
    match row.state {
        RowState::Asked(_, deadline) => deadline,
        _ => None,
    }
}

fn task_of(supervisor: &Supervisor, id: &Option<Name>, number: u64) -> Task
    ensures { result ≡ task_of (state_in supervisor.now).rows id.now number }
{
    let start = start_in(supervisor.child(number));
    Task {
        number,
        id: *id,
        start,
    }
}

/// What an order of this supervisor says.
#[tactic(auto, unfolding(crate::specs::Orders::what_of))]
pub(crate) fn what_of(supervisor: &Supervisor, order: &Effect) -> What
    ensures what { result ≡ what_of (state_in supervisor.now).rows order.now }
    ensures reply { (call : ℕ) → result ≡ what.Reply call → order.now ≡ effect.Reply call }
{
    match order {
        Effect::Start(id, number) => What::Start(task_of(supervisor, id, *number)),
        Effect::Ask(id, number) => What::Ask(
            task_of(supervisor, id, *number),
            deadline_in(supervisor.child(*number)),
        ),
        Effect::Kill(id, number) => What::Kill(task_of(supervisor, id, *number)),
        Effect::Reply(call) => What::Reply(*call),
        Effect::Ready => What::Ready,
        Effect::End(end) => What::End(end.reason, ending_in(&end.cause)),
    }
}
