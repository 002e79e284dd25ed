ghost use Rattle.std.specs.Prelude.{List, count_by, get_or, ◌≡◌, ◌+◌, ◌<◌, ◌≤◌, ◌==◌, ◌++◌, ◌∷◌, [], length, max, nat_le, position, remove, vec_len, vec_capacity, slice_get, slice_range, slice_set, take, drop, OnOk, OnErr, Some, if◌then◌else◌};
ghost use Rattle.otp_table.specs.Rows.{AreDefined, AreDefinedBut, awaits_retry, calm_rows, calmed, free_slot, has_id, has_number, has_process, is_active, is_awaited, is_left, is_supervisor, is_timed, is_undefined, is_worker, row_has, with_state};
ghost use Rattle.otp_table.specs.Deadlines.{AreNotBefore};
ghost use Rattle.std.specs.List.{list_any};
ghost use Rattle.otp_table.specs.declared.row.Row.{Row};

use crate::counts::{ChildCounts, count_change, count_row, uncount_row};
use crate::deadlines::{soonest_of, soonest_place, soonest_with};
use crate::hints::Hints;
use crate::keys::{id_in, id_key, number_in};
use crate::marks::{Mark, change_mark, remove_mark};
use crate::numbers::{greatest_with, stay_apart};
use crate::row::{Row, RowState};
use crate::search;
use otp_reason::Name;
use otp_spec::{MAX_CHILDREN, SpecFault};
use std::alloc::{AllocError, Global};
use std::marker::Model;

/// A supervisor's children in start order, at most [`MAX_CHILDREN`].
#[derive(Drop)]
pub struct Rows {
    items: Vec<Row>,
    /// How many more rows the memory of `items` is known to hold.
    room: usize,
    /// How many rows there are of some kinds.
    counts: ChildCounts,
    /// So many rows, the first, are not undefined.
    defined: usize,
    /// No child has an earlier deadline.
    soonest: u64,
    /// Where one that has this deadline stands most likely.
    soonest_at: usize,
    /// Where the row with a number stands most likely.
    hints: Hints,
    /// No row has a greater number.
    greatest: u64,
    /// Whether no two rows have had the same number, so that one that has it is the first.
    is_apart: bool,
    /// The places of the rows that have an id, in the order of the ids' fingerprints.
    ids: Vec<Mark>,
    /// Whether no two rows have had ids of the same fingerprint, so that `ids` has the place of each.
    is_named: bool,
}

impl Model for Rows {
    ghost use Rattle.otp_table.specs.Table.{Table};

    ghost Value = { Table };

    ghost use Rattle.otp_table.specs.TableInside.{table_of, IsTable};

    ghost view = { table_of };

    ghost invariant = { IsTable };
}

impl Rows {
    /// No rows, and no room: takes no memory.
    pub fn new(alloc: Global) -> Self
        ensures rows { result.rows ≡ [] }
        ensures room { result.room ≡ 0 }
    {
        Rows {
            items: Vec::new(alloc),
            room: 0,
            counts: ChildCounts::new(),
            defined: 0,
            soonest: u64::MAX,
            soonest_at: 0,
            hints: Hints::new(alloc),
            greatest: 0,
            is_apart: true,
            ids: Vec::new(alloc),
            is_named: true,
        }
    }

    /// The rows in start order.
    pub fn as_slice(&self) -> &[Row]
        ensures rows { result.now ≡ self.now.rows }
        ensures limit { length self.now.rows ≤ MAX_CHILDREN }
    {
        self.items.as_slice()
    }

    /// How many rows there are.
    pub fn len(&self) -> usize
        ensures len { result ≡ length self.now.rows }
        ensures limit { result ≤ MAX_CHILDREN }
    {
        self.items.len()
    }

    /// Whether there are no rows.
    pub fn is_empty(&self) -> bool
        ensures { result ≡ (length self.now.rows == 0) }
    {
        self.items.is_empty()
    }

    /// Whether `insert` is refused.
    pub fn is_full(&self) -> bool
        ensures { result ≡ nat_le MAX_CHILDREN (length self.now.rows) }
    {
        self.items.len() >= MAX_CHILDREN
    }

    /// How many rows can be inserted without taking memory.
    pub fn room(&self) -> usize
        ensures { result ≡ self.now.room }
    {
        self.room
    }

    /// Whether an answer of a child is awaited. Looks at no row.
    pub fn has_awaited(&self) -> bool
        ensures { result ≡ list_any (row_has is_awaited) self.now.rows }
    {
        self.counts.awaited() > 0
    }

    /// Whether a child was told to shut down until a deadline. Looks at no row.
    pub fn has_timed(&self) -> bool
        ensures { result ≡ list_any (row_has is_timed) self.now.rows }
    {
        self.counts.timed() > 0
    }

    /// Whether a significant child is left. Looks at no row.
    pub fn has_left(&self) -> bool
        ensures { result ≡ list_any is_left self.now.rows }
    {
        self.counts.left > 0
    }

    /// How many children have a process that was started and has not ended. Looks at no row.
    pub fn count_active(&self) -> usize
        ensures count { result ≡ count_by (row_has is_active) self.now.rows }
        ensures limit { result ≤ MAX_CHILDREN }
    {
        self.counts.active()
    }

    /// How many children are supervisors. Looks at no row.
    pub fn count_supervisors(&self) -> usize
        ensures count { result ≡ count_by is_supervisor self.now.rows }
        ensures limit { result ≤ MAX_CHILDREN }
    {
        self.counts.supervisors
    }

    /// How many children are workers. Looks at no row.
    pub fn count_workers(&self) -> usize
        ensures count { result ≡ count_by is_worker self.now.rows }
        ensures limit { result ≤ MAX_CHILDREN }
    {
        self.counts.workers
    }

    /// A place before which no row is undefined. Where rows are started in their order, or one row is undefined, it is
    /// that of the first that is. Looks at no row.
    pub fn defined(&self) -> usize
        ensures { AreDefined result self.now.rows }
    {
        self.defined
    }

    /// A moment before which no child has a deadline: where one alone has one, that one; where none has one, 2^64 - 1. Looks
    /// at no row.
    pub fn soonest(&self) -> u64
        ensures { AreNotBefore result self.now.rows }
    {
        self.soonest
    }

    /// Where a child that has just this deadline stands most likely: whoever asks looks whether it has it.
    pub fn soonest_at(&self) -> usize {
        self.soonest_at
    }

    /// The row at this place.
    pub fn get(&self, place: usize) -> &Row
        requires { place < length self.now.rows }
        ensures { slice_get self.now.rows place ≡ Some result.now }
    {
        &self.items[place]
    }

    /// The rows that were started after the one at `place`.
    pub fn after(&self, place: usize) -> &[Row]
        requires { place < length self.now.rows }
        ensures { result.now ≡ drop (place + 1) self.now.rows }
    {
        &self.items[place + 1..]
    }

    /// The place of the row with this id.
    pub fn find_id(&self, id: &Name) -> Option<usize>
        ensures { result ≡ position (has_id id.now) self.now.rows }
    {
        if self.is_named {
            search::id_marked(&self.items, &self.ids, id)
        } else {
            search::find_id(&self.items, id)
        }
    }

    /// The place of the row whose process, or waiting retry, has this number.
    pub fn find_number(&self, number: u64) -> Option<usize>
        ensures { result ≡ position (row_has (has_number number)) self.now.rows }
    {
        if self.is_apart {
            search::number_near(&self.items, self.hints.get(number), number)
        } else {
            search::find_number(&self.items, number)
        }
    }

    /// The place of the row whose process has this number.
    pub fn find_process(&self, number: u64) -> Option<usize>
        ensures { result ≡ position (row_has (has_process number)) self.now.rows }
    {
        if self.is_apart {
            search::process_near(&self.items, self.hints.get(number), number)
        } else {
            search::find_process(&self.items, number)
        }
    }

    /// The place of the row that waits for the retry of this number.
    pub fn find_retry(&self, number: u64) -> Option<usize>
        ensures { result ≡ position (row_has (awaits_retry number)) self.now.rows }
    {
        if self.is_apart {
            search::retry_near(&self.items, self.hints.get(number), number)
        } else {
            search::find_retry(&self.items, number)
        }
    }

    /// The slot of the next child: the least that no row has.
    pub fn free_slot(&self) -> usize
        ensures slot { result ≡ free_slot self.now.rows }
        ensures limit { result ≤ length self.now.rows }
    {
        search::free_slot(&self.items)
    }

    /// Takes the memory of the next `n` inserts.
    pub fn reserve(&mut self, n: usize) -> Result<(), AllocError>
        ensures rows { self.new.rows ≡ self.old.rows }
        ensures ok { OnOk result (self.new.room ≡ max self.old.room n) }
        ensures err { OnErr result (self.new ≡ self.old) }
    {
        self.items.reserve(n)?;
        self.hints.reserve(self.items.len().saturating_add(n))?;
        reserve_marks(&mut self.ids, self.items.len().saturating_add(n))?;
        self.room = self.room.max(n);
        Ok(())
    }

    /// Adds a row last. Takes no memory.
    ///
    /// `SpecFault::TooManyChildren` (E7) where there are [`MAX_CHILDREN`] rows; nothing changes then.
    pub fn insert(&mut self, row: Row) -> Result<(), SpecFault>
        requires { length self.old.rows < MAX_CHILDREN → 0 < self.old.room }
        ensures limit { result ≡ (if nat_le MAX_CHILDREN (length self.old.rows) then Err SpecFault.TooManyChildren else Ok tt) }
        ensures rows { OnOk result (self.new.rows ≡ self.old.rows ++ row ∷ []) }
        ensures room { OnOk result (self.new.room + 1 ≡ self.old.room) }
        ensures err { OnErr result (self.new ≡ self.old) }
    {
        if self.is_full() {
            return Err(SpecFault::TooManyChildren);
        }
        count_row(&self.items, &mut self.counts, &row);
        self.defined = self.defined.min(self.items.len());
        self.soonest = soonest_with(self.soonest, row.state);
        self.soonest_at = soonest_place(self.soonest_at, self.soonest, self.items.len(), row.state);
        let number = row.state.number();
        self.is_apart = stay_apart(
            &self.items,
            self.is_apart,
            self.greatest,
            self.items.len(),
            None,
            number,
        );
        self.greatest = greatest_with(self.greatest, number);
        self.hints.note(number, self.items.len());
        self.is_named = change_mark(
            &mut self.ids,
            self.is_named,
            self.items.len(),
            None,
            id_key(&row),
        );
        self.items.push_reserved(row);
        self.room -= 1;
        Ok(())
    }

    /// Changes the state of the row at this place, and no other.
    pub fn set_state(&mut self, place: usize, state: RowState)
        requires { place < length self.old.rows }
        ensures rows { (row : Row) → slice_get self.old.rows place ≡ Some row →
            self.new.rows ≡ slice_set self.old.rows place (with_state state row) }
        ensures len { length self.new.rows ≡ length self.old.rows }
        ensures room { self.new.room ≡ self.old.room }
    {
        count_change(&self.items, &mut self.counts, place, state);
        self.defined = defined_after(self.defined, place, state, self.counts.undefined());
        self.soonest = soonest_of(soonest_with(self.soonest, state), self.counts.timed());
        self.soonest_at = soonest_place(self.soonest_at, self.soonest, place, state);
        let old = number_in(&self.items, place);
        let number = state.number();
        self.is_apart = stay_apart(
            &self.items,
            self.is_apart,
            self.greatest,
            place,
            old,
            number,
        );
        self.greatest = greatest_with(self.greatest, number);
        self.hints.note(number, place);
        self.items[place].state = state;
    }

    /// Gives up the waiting retries of the rows from one place to before another.
    pub fn calm(&mut self, from: usize, to: usize)
        requires from { from ≤ to }
        requires to { to ≤ length self.old.rows }
        ensures rows { self.new.rows ≡ take from self.old.rows ++ calm_rows (slice_range self.old.rows from to) ++ drop to self.old.rows }
        ensures len { length self.new.rows ≡ length self.old.rows }
        ensures room { self.new.room ≡ self.old.room }
    {
        for place in from..to {
            self.calm_row(place);
        }
    }

    /// Gives up the waiting retry of the row at this place, if there is one.
    fn calm_row(&mut self, place: usize)
        requires { place < length self.old.rows }
        ensures rows { (row : Row) → slice_get self.old.rows place ≡ Some row →
            self.new.rows ≡ slice_set self.old.rows place (with_state (calmed row.state) row) }
        ensures len { length self.new.rows ≡ length self.old.rows }
        ensures room { self.new.room ≡ self.old.room }
        ensures found { (row : Row) × (slice_get self.old.rows place ≡ Some row) }
    {
        let state = self.items[place].state;
        if state.is_restarting() {
            self.set_state(place, state.calmed());
        }
    }

    /// Takes the row out; those after it move up.
    pub fn remove(&mut self, place: usize) -> Row
        requires { place < length self.old.rows }
        ensures row { slice_get self.old.rows place ≡ Some result }
        ensures rows { self.new.rows ≡ remove self.old.rows place }
        ensures len { length self.new.rows + 1 ≡ length self.old.rows }
        ensures room { self.new.room ≡ self.old.room }
    {
        uncount_row(&self.items, &mut self.counts, place);
        self.defined = defined_without(self.defined, place);
        self.soonest = soonest_of(self.soonest, self.counts.timed());
        let id = id_in(&self.items, place);
        remove_mark(&mut self.ids, place, id);
        self.items.remove(place)
    }

    /// Removes all rows. Takes no memory and keeps the room.
    pub fn clear(&mut self)
        ensures rows { self.new.rows ≡ [] }
        ensures room { self.new.room ≡ self.old.room }
    {
        self.items.clear();
        self.counts = ChildCounts::new();
        self.defined = 0;
        self.soonest = u64::MAX;
        self.greatest = 0;
        self.is_apart = true;
        self.ids.clear();
        self.is_named = true;
    }
}

/// Takes memory for so many marks in all.
fn reserve_marks(marks: &mut Vec<Mark>, count: usize) -> Result<(), AllocError>
    ensures items { marks.new.items ≡ marks.old.items }
    ensures kept { vec_capacity marks.old ≤ vec_capacity marks.new }
    ensures ok { OnOk result (count ≤ vec_capacity marks.new) }
{
    marks.reserve(count.saturating_sub(marks.len()))
}

/// How many rows, the first, are not undefined, once the one at the place has this state and so many rows are undefined.
fn defined_after(defined: usize, place: usize, state: RowState, undefined: usize) -> usize
    requires { place < MAX_CHILDREN }
    ensures { (rows : List Row) → count_by (row_has is_undefined) rows ≡ undefined → AreDefinedBut place defined rows → (d : Row) → (get_or rows place d).state ≡ state → AreDefined result rows }
{
    if undefined == 0 {
        return MAX_CHILDREN;
    }
    if state.is_undefined() {
        return defined.min(place);
    }
    if place == defined {
        return place + 1;
    }
    defined
}

/// How many rows, the first, are not undefined, once the row at the place is taken out.
fn defined_without(defined: usize, place: usize) -> usize
    ensures less { result ≤ defined }
    ensures gone { place < defined → result + 1 ≡ defined }
{
    if place < defined {
        defined - 1
    } else {
        defined
    }
}
