//! Which children a restart is about, and which ends end the supervisor (`specs/Restarts` of the rules).

ghost use Rattle.std.specs.Prelude.{◌≡◌, ◌+◌, ◌<◌, ◌≤◌, ◌++◌, length, vec_len, vec_capacity};
ghost use Rattle.std.specs.VecDeque.{deque_len, deque_capacity};
ghost use Rattle.otp_rules.specs.Restarts.{affected_from, affected_to, dues, ends_by_significance, is_restarted, running};

use crate::decisions::places::is_temporary;
use otp_reason::Reason;
use otp_rules::Due;
use otp_spec::{AutoShutdown, Restart, Strategy};
use otp_table::{Row, RowState, Rows};
use std::collections::VecDeque;

/// Whether a child of this type that ended so is restarted.
pub fn is_restarted(restart: Restart, reason: &Reason) -> bool
    ensures { result ≡ is_restarted restart reason.now }
{
    match restart {
        Restart::Permanent => true,
        Restart::Transient => !reason.is_quiet(),
        Restart::Temporary => false,
    }
}

/// The first place that a restart affects, and the one after the last.
pub fn affected(strategy: Strategy, place: usize, count: usize) -> (usize, usize)
    requires { place < count }
    ensures { result ≡ (affected_from strategy place, affected_to strategy place count) }
{
    match strategy {
        Strategy::OneForOne | Strategy::SimpleOneForOne => (place, place + 1),
        Strategy::OneForAll => (0, count),
        Strategy::RestForOne => (place, count),
    }
}

/// Whether the child, which has ended by itself, ends its supervisor; these are the rows after its end.
pub fn ends_by_significance(auto_shutdown: AutoShutdown, row: &Row, rows: &Rows) -> bool
    ensures { result ≡ ends_by_significance auto_shutdown row.now rows.now.rows }
{
    match auto_shutdown {
        AutoShutdown::Never => false,
        AutoShutdown::AnySignificant => row.spec.significant,
        AutoShutdown::AllSignificant => row.spec.significant && !rows.has_left(),
    }
}

/// Adds the numbers of the processes that run.
pub fn list_running(rows: &[Row], list: &mut Vec<u64>)
    requires { vec_len list.old + length rows.now ≤ vec_capacity list.old }
    ensures items { list.new.items ≡ list.old.items ++ running rows.now }
    ensures len { vec_len list.new ≤ vec_len list.old + length rows.now }
{
    for row in rows {
        if let RowState::Up(number) = row.state {
            list.push_reserved(number);
        }
    }
}

/// Adds the children that are started again.
pub fn list_dues(rows: &[Row], kept: Option<u64>, list: &mut VecDeque<Due>)
    requires { deque_len list.old + length rows.now ≤ deque_capacity list.old }
    ensures items { list.new.items ≡ list.old.items ++ dues kept rows.now }
    ensures len { deque_len list.new ≤ deque_len list.old + length rows.now }
    ensures capacity { deque_capacity list.old ≤ deque_capacity list.new }
{
    for row in rows {
        if !is_temporary(row.spec.restart) {
            list.push_back_reserved(Due { id: row.id, kept });
        }
    }
}
