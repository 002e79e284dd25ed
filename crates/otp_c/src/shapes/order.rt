//! An order as a struct of C, written in its place.

ghost use Rattle.std.specs.Prelude.{◌≡◌, min, option_map};
ghost use Rattle.otp_driver.specs.Members.{state_in};
ghost use Rattle.otp_driver.specs.Orders.{deadline_in, start_in, what_of};
ghost use Rattle.otp_driver.specs.Routes.{ending_in};
ghost use Rattle.otp_c.specs.Orders.{ShowsDeadline, ShowsEnding, ShowsReasonText, ShowsSome, ShowsWhat};
ghost use Rattle.otp_c.specs.Words.{cause_number, reason_number};

use crate::shapes::structs::{CName, COrder};
use crate::shapes::words::{
    cause_number, name_out, no_name, no_text, reason_number, reason_text, write_name,
    write_some_name,
};
use otp_driver::driven::Supervisor;
use otp_driver::ending_in;
use otp_reason::{Name, Reason};
use otp_rules::{Effect, Ending, SupEnd};
use otp_table::{Row, RowState};

/// An order of this kind with nothing beside its number.
fn plain(kind: u32, number: u64) -> COrder
    ensures kind { result.kind ≡ kind }
    ensures number { result.number ≡ number }
{
    COrder {
        number,
        deadline: 0,
        kind,
        supervisor: 0,
        has_deadline: 0,
        reason: 0,
        cause: 0,
        id: no_name(),
        start: no_name(),
        text: no_text(),
    }
}

/// Writes the start word of a child, if it is there.
fn write_start(row: Option<&Row>, out: &mut CName)
    ensures { ShowsSome (start_in (option_map (λ r. r.now) row.entry)) out.new }
{
    match row {
        None => *out = no_name(),
        Some(row) => write_name(&row.spec.start, out),
    }
}

/// Writes an order of this kind for a process without a deadline.
fn write_task(kind: u32, number: u64, id: &Option<Name>, row: Option<&Row>, out: &mut COrder)
    ensures kind { out.new.kind ≡ kind }
    ensures number { out.new.number ≡ number }
    ensures id { ShowsSome id.now out.new.id }
    ensures start { ShowsSome (start_in (option_map (λ r. r.now) row.entry)) out.new.start }
    ensures has_deadline { out.new.has_deadline ≡ 0 }
{
    out.number = number;
    out.deadline = 0;
    out.kind = kind;
    out.has_deadline = 0;
    out.reason = 0;
    out.cause = 0;
    write_some_name(id, &mut out.id);
    write_start(row, &mut out.start);
    out.text = no_text();
}

/// Writes until when the process may take to shut down, if there is such a time.
fn write_deadline(deadline: Option<u64>, out: &mut COrder)
    requires { out.old.has_deadline ≡ 0 }
    ensures deadline { ShowsDeadline deadline out.new }
    ensures rest { out.new ≡ record out.old { deadline = out.new.deadline; has_deadline = out.new.has_deadline } }
{
    if let Some(deadline) = deadline {
        out.deadline = deadline;
        out.has_deadline = 1;
    }
}

/// Until when the process of this child may take to shut down.
fn deadline_in(row: Option<&Row>) -> Option<u64>
    ensures { result ≡ deadline_in (option_map (λ r. r.now) row.entry) }
{
    let Some(row) = row else {
        return None;
    };
    match row.state {
        RowState::Asked(_, deadline) => deadline,
        _ => None,
    }
}

/// The end of the root.
fn of_end(reason: &Reason, ending: &Ending) -> COrder
    ensures kind { result.kind ≡ 6 }
    ensures reason { result.reason ≡ reason_number reason.now }
    ensures text { ShowsReasonText reason.now result.text }
    ensures cause { result.cause ≡ cause_number ending.now }
    ensures ending { ShowsEnding ending.now result }
{
    let order = COrder {
        reason: reason_number(reason),
        cause: cause_number(ending),
        text: reason_text(reason),
        ..plain(6, 0)
    };
    match ending {
        Ending::Significant(number) => COrder {
            number: *number,
            ..order
        },
        Ending::InitFailed(id) => COrder {
            id: name_out(id),
            ..order
        },
        Ending::Intensity | Ending::Asked => order,
    }
}

/// Writes an order of this kind with nothing beside its number.
#[inline(never)]
fn write_plain(kind: u32, number: u64, out: &mut COrder)
    ensures kind { out.new.kind ≡ kind }
    ensures number { out.new.number ≡ number }
{
    *out = plain(kind, number);
}

/// Writes the end of the root.
#[inline(never)]
fn write_end(end: &SupEnd, out: &mut COrder)
    ensures kind { out.new.kind ≡ 6 }
    ensures reason { out.new.reason ≡ reason_number end.now.reason }
    ensures text { ShowsReasonText end.now.reason out.new.text }
    ensures cause { out.new.cause ≡ cause_number (ending_in end.now.cause) }
    ensures ending { ShowsEnding (ending_in end.now.cause) out.new }
{
    *out = of_end(&end.reason, &ending_in(&end.cause));
}

/// Writes what an order of this supervisor says, each field once.
#[tactic(auto, unfolding(otp_driver::specs::Orders::what_of))]
fn write_what(supervisor: &Supervisor, order: &Effect, out: &mut COrder)
    ensures { ShowsWhat (what_of (state_in supervisor.now).rows order.now) out.new }
{
    match order {
        Effect::Start(id, number) => write_task(1, *number, id, supervisor.child(*number), out),
        Effect::Ask(id, number) => {
            let row = supervisor.child(*number);
            write_task(2, *number, id, row, out);
            write_deadline(deadline_in(row), out);
        }
        Effect::Kill(id, number) => write_task(3, *number, id, supervisor.child(*number), out),
        Effect::Reply(call) => write_plain(4, *call, out),
        Effect::Ready => write_plain(5, 0, out),
        Effect::End(end) => write_end(end, out),
    }
}

/// Writes this order of the supervisor of this number as plain numbers and bytes.
pub fn write_order(place: usize, supervisor: &Supervisor, order: &Effect, out: &mut COrder)
    ensures supervisor { out.new.supervisor ≡ min place 1000000 }
    ensures what { ShowsWhat (what_of (state_in supervisor.now).rows order.now) out.new }
{
    write_what(supervisor, order, out);
    out.supervisor = place.min(1_000_000) as u32;
}
