use crate::fixtures::{got, named, same};
use otp_reason::Name;
use otp_spec::{ChildSpec, SpecFault};
use otp_table::{MAX_CHILDREN, Row, RowState, Rows, slot_of};
use std::alloc::Global;
use std::process::Abort;

fn row(rt: &impl Abort, slot: usize, id: &[u8], state: RowState) -> Row {
    let name = named(rt, id);
    Row {
        slot,
        id: Some(name),
        spec: ChildSpec::new(name, name),
        state,
    }
}

// Puts a row behind the others, for which there is room.
fn put(rt: &impl Abort, rows: &mut Rows, row: Row) {
    assert!(rt; rows.room() > 0);
    let put = rows.insert(row);
    assert!(rt; put.is_ok());
}

// A table with room for so many rows.
fn with_room(rt: &impl Abort, alloc: Global, count: usize) -> Rows {
    let mut rows = Rows::new(alloc);
    let reserved = rows.reserve(count);
    assert!(rt; reserved.is_ok());
    rows
}

// The row with this id is taken out: its slot.
fn take_out(rt: &impl Abort, rows: &mut Rows, id: &Name) -> usize {
    let Some(place) = rows.find_id(id) else {
        panic!(rt; "a row with this id");
    };
    assert!(rt; place < rows.len());
    let row = rows.remove(place);
    row.slot
}

fn has_place(rt: &impl Abort, rows: &Rows, id: &Name, place: Option<usize>) {
    same(rt, "the place of an id", rows.find_id(id), place);
}

// How many rows there are, how much room, and which slot is free.
fn has_sizes(rt: &impl Abort, rows: &Rows, wanted: (usize, usize, usize)) {
    let sizes = (rows.len(), rows.room(), rows.free_slot());
    same(rt, "rows, room and the free slot", sizes, wanted);
}

// What is done to a table, and seen of it.
#[derive(Clone, Copy)]
enum Act {
    // Room is made for so many rows.
    Reserve(usize),
    // A row is put behind the others: its slot, its id, which is its start word too, and its state.
    Put(usize, &'static [u8], RowState),
    // The row with this id is taken out; it had this slot.
    TakeOut(&'static [u8], usize),
    Clear,
    // The row with this id stands at this place.
    Has(&'static [u8], Option<usize>),
    // There are so many rows, so much room, and this slot is free.
    Sizes(usize, usize, usize),
}

fn does(rt: &impl Abort, rows: &mut Rows, act: Act) {
    match act {
        Act::Reserve(count) => got(rt, rows.reserve(count)),
        Act::Put(slot, id, state) => put(rt, rows, row(rt, slot, id, state)),
        Act::TakeOut(id, slot) => {
            let taken = take_out(rt, rows, &named(rt, id));
            same(rt, "the slot of a row", taken, slot);
        }
        Act::Clear => rows.clear(),
        Act::Has(id, place) => has_place(rt, rows, &named(rt, id), place),
        Act::Sizes(count, room, slot) => has_sizes(rt, rows, (count, room, slot)),
    }
}

fn acts(rt: &impl Abort, rows: &mut Rows, steps: &[Act]) {
    for step in steps {
        does(rt, rows, *step);
    }
}

/// Three children, one in each of three states: searched, changed and removed.
#[test]
fn three_children(rt: HostRuntime) {
    let mut rows = with_room(&rt, rt.alloc(), 3);
    are_three(&rt, &mut rows);
    are_found(&rt, &rows);
    are_calmed(&rt, &mut rows);
    acts(&rt, &mut rows, &IS_REMOVED);
    drop(rows);
}

fn are_three(rt: &impl Abort, rows: &mut Rows) {
    assert!(rt; rows.is_empty());
    assert!(rt; !rows.is_full());
    let all = [
        row(rt, 0, b"a", RowState::Up(1)),
        row(rt, 1, b"b", RowState::Restarting(2)),
        row(rt, 2, b"c", RowState::Starting(5, 3)),
    ];
    for row in &all {
        put(rt, rows, *row);
    }
    has_sizes(rt, rows, (3, 0, 3));
    same(rt, "all rows", rows.as_slice(), all.as_slice());
    assert!(rt; rows.len() == 3);
    same(rt, "the rows after the first", rows.after(0), &all[1..]);
    same(rt, "the second row", *rows.get(1), all[1]);
}

// Places of the three by id, and by number.
fn are_found(rt: &impl Abort, rows: &Rows) {
    has_place(rt, rows, &named(rt, b"c"), Some(2));
    has_place(rt, rows, &named(rt, b"d"), None);
    let places: [Option<usize>; 8] = [
        rows.find_number(2),
        rows.find_number(3),
        rows.find_process(2),
        rows.find_process(5),
        rows.find_retry(2),
        rows.find_retry(1),
        slot_of(rows.as_slice(), 5),
        slot_of(rows.as_slice(), 2),
    ];
    let wanted: [Option<usize>; 8] = [Some(1), None, None, Some(2), Some(1), None, Some(2), None];
    same(rt, "places", places.as_slice(), wanted.as_slice());
}

// The second of the three, which awaited its restart, awaits none any more.
fn are_calmed(rt: &impl Abort, rows: &mut Rows) {
    assert!(rt; rows.len() == 3);
    rows.calm(0, 3);
    rows.set_state(0, RowState::Killed(1));
    let states: [RowState; 3] = [rows.get(0).state, rows.get(1).state, rows.get(2).state];
    let wanted = [
        RowState::Killed(1),
        RowState::Undefined,
        RowState::Starting(5, 3),
    ];
    same(rt, "states", states, wanted);
}

// The second of the three is removed; the last is found where it stood.
const IS_REMOVED: [Act; 5] = [
    Act::TakeOut(b"b", 1),
    Act::Has(b"c", Some(1)),
    Act::Sizes(2, 0, 1),
    Act::Clear,
    Act::Sizes(0, 0, 0),
];

// An id that no other place has.
fn id_at(rt: &impl Abort, place: usize) -> Name {
    let letter = b'a'.saturating_add((place % 16) as u8);
    named(rt, &[b'a'.saturating_add((place / 16 % 16) as u8), letter])
}

fn put_child(rt: &impl Abort, rows: &mut Rows, place: usize) {
    let id = id_at(rt, place);
    let row = Row {
        slot: place,
        id: Some(id),
        spec: ChildSpec::new(id, id),
        state: RowState::Up(place as u64),
    };
    put(rt, rows, row);
}

/// A supervisor full of children: each is found by its id while others are taken out and put in again. The 257th is refused, and
/// nothing is lost.
#[test]
fn children_by_id(rt: HostRuntime) {
    let mut rows = with_room(&rt, rt.alloc(), MAX_CHILDREN);
    fill(&rt, &mut rows);
    one_more_is_refused(&rt, &mut rows);
    take_out_half(&rt, &mut rows);
    find_half(&rt, &rows);
    acts(&rt, &mut rows, &COMES_BACK);
    drop(rows);
}

fn fill(rt: &impl Abort, rows: &mut Rows) {
    for place in 0..MAX_CHILDREN {
        assert!(rt; !rows.is_full());
        put_child(rt, rows, place);
    }
}

fn one_more_is_refused(rt: &impl Abort, rows: &mut Rows) {
    assert!(rt; rows.is_full());
    let more = rows.insert(row(rt, 0, b"more", RowState::Undefined));
    same(rt, "one more", more, Err(SpecFault::TooManyChildren));
    same(rt, "the number of rows", rows.len(), MAX_CHILDREN);
}

// Each second child is taken out, and isn't found then.
fn take_out_half(rt: &impl Abort, rows: &mut Rows) {
    for half in 0..MAX_CHILDREN / 2 {
        let place = half.saturating_mul(2);
        let id = id_at(rt, place);
        let slot = take_out(rt, rows, &id);
        same(rt, "the slot of the row", slot, place);
        has_place(rt, rows, &id, None);
    }
}

// The others stand one after the other now.
fn find_half(rt: &impl Abort, rows: &Rows) {
    for place in 0..MAX_CHILDREN / 2 {
        let id = id_at(rt, place.saturating_mul(2).saturating_add(1));
        has_place(rt, rows, &id, Some(place));
    }
}

// The first child of all is put behind them.
const COMES_BACK: [Act; 5] = [
    Act::Reserve(1),
    Act::Put(0, b"aa", RowState::Up(0)),
    Act::Has(b"aa", Some(MAX_CHILDREN / 2)),
    Act::Clear,
    Act::Has(b"ab", None),
];

// Two rows with one id, which no supervisor has: the first is found, and the other once that one is gone.
const TWICE: [Act; 8] = [
    Act::Reserve(3),
    Act::Put(0, b"aa", RowState::Up(0)),
    Act::Put(1, b"ab", RowState::Up(1)),
    Act::Put(0, b"aa", RowState::Up(0)),
    Act::Has(b"aa", Some(0)),
    Act::TakeOut(b"aa", 0),
    Act::Has(b"ab", Some(0)),
    Act::Has(b"aa", Some(1)),
];

// Two ids of one fingerprint, which somebody searched for: each is found, by the walk then.
const ONE_FINGERPRINT: [Act; 7] = [
    Act::Reserve(2),
    Act::Put(0, b"8yn0iYCKYHlIj4-BwPqk", RowState::Up(1)),
    Act::Put(1, b"GReLUrM4wMqfg9yzV3KQ", RowState::Up(2)),
    Act::Has(b"GReLUrM4wMqfg9yzV3KQ", Some(1)),
    Act::TakeOut(b"8yn0iYCKYHlIj4-BwPqk", 0),
    Act::Has(b"GReLUrM4wMqfg9yzV3KQ", Some(0)),
    Act::Has(b"8yn0iYCKYHlIj4-BwPqk", None),
];

fn plays(rt: &impl Abort, alloc: Global, steps: &[Act]) {
    let mut rows = Rows::new(alloc);
    acts(rt, &mut rows, steps);
    drop(rows);
}

#[test]
fn one_id_twice(rt: HostRuntime) {
    plays(&rt, rt.alloc(), &TWICE);
}

#[test]
fn two_ids_of_one_fingerprint(rt: HostRuntime) {
    plays(&rt, rt.alloc(), &ONE_FINGERPRINT);
}

// What a reader of a state sees: whether it is awaited, up, undefined or awaits a restart; whether it has the number 7, as a number,
// as that of a process, and as that of a retry.
fn seen_of(state: RowState) -> [bool; 7] {
    [
        state.is_awaited(),
        state.is_up(),
        state.is_undefined(),
        state.is_restarting(),
        state.has_number(7),
        state.has_process(7),
        state.awaits_retry(7),
    ]
}

fn is_seen_so(rt: &impl Abort, state: RowState, wanted: [bool; 7]) {
    let seen = seen_of(state);
    same(rt, "a state", seen.as_slice(), wanted.as_slice());
}

/// What a reader of a row's state sees.
#[test]
fn states(rt: HostRuntime) {
    let asked = RowState::Asked(7, Some(100));
    let numbers = (asked.number(), asked.up_number());
    same(&rt, "the numbers of one asked", numbers, (Some(7), None));
    is_seen_so(&rt, asked, [true, false, false, false, true, true, false]);
    let restarting = RowState::Restarting(7);
    let seen = [false, false, false, true, true, false, true];
    is_seen_so(&rt, restarting, seen);
    let seen = [false, false, true, false, false, false, false];
    is_seen_so(&rt, restarting.calmed(), seen);
    let up = RowState::Up(7);
    let seen = [false, true, false, false, true, true, false];
    is_seen_so(&rt, up, seen);
    same(&rt, "one up that is calmed", up.calmed(), up);
    same(&rt, "the number of one up", up.up_number(), Some(7));
}
