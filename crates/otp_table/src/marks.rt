//! Rows by a key, which is the fingerprint of their id: an index that is kept in the order of the keys and searched by
//! halving.

ghost use Rattle.std.specs.Prelude.{◌≡◌, ◌+◌, ◌-◌, ◌<◌, ◌≤◌, ◌↔◌, ℕ, [], All, AllPairs, IfSome, IsTrue, None, Some, MatchOption, OnOk, OnErr, get_or, length, max, map, vec_len, vec_capacity};
ghost use Rattle.otp_table.specs.Marks.{HasKey, IsChanged, IsFree, IsGone, IsPut, IsTaken, IsUnder, Rises, moved};

/// A row's key, and the place of the row.
#[derive(Clone, Copy, Debug)]
pub struct Mark {
    pub key: u64,
    pub place: usize,
}

/// The first place from which on the keys, which rise, are this one or above it.
pub fn first_from(marks: &[Mark], key: u64) -> usize
    requires { Rises marks.now }
    ensures inside { result ≤ length marks.now }
    ensures before { (k : ℕ) (d : Mark) → k < result → (get_or marks.now k d).key < key }
    ensures after { (k : ℕ) (d : Mark) → result ≤ k → k < length marks.now → key ≤ (get_or marks.now k d).key }
{
    marks.partition_point(|mark| mark.key < key)
}

/// Where the mark with this key stands.
fn index_of(marks: &[Mark], key: u64) -> Option<usize>
    requires { Rises marks.now }
    ensures { MatchOption result ((p : ℕ) → IsUnder key p marks.now → ⊥) (λ i. HasKey key i marks.now) }
{
    let first = first_from(marks, key);
    if first < marks.len() && marks[first].key == key {
        Some(first)
    } else {
        None
    }
}

/// The place under this key.
pub fn find_mark(marks: &[Mark], key: u64) -> Option<usize>
    requires { Rises marks.now }
    ensures { MatchOption result ((p : ℕ) → IsUnder key p marks.now → ⊥) (λ place. IsUnder key place marks.now) }
{
    match index_of(marks, key) {
        None => None,
        Some(index) => Some(marks[index].place),
    }
}

/// Puts a place under a key that none stands under. Takes no memory.
pub fn put_mark(marks: &mut Vec<Mark>, key: u64, place: usize)
    requires rises { Rises marks.old.items }
    requires room { vec_len marks.old < vec_capacity marks.old }
    requires free { (p : ℕ) → IsUnder key p marks.old.items → ⊥ }
    ensures rises { Rises marks.new.items }
    ensures put { IsPut key place marks.old.items marks.new.items }
    ensures len { vec_len marks.new ≡ vec_len marks.old + 1 }
    ensures capacity { vec_capacity marks.new ≡ vec_capacity marks.old }
{
    let first = first_from(marks, key);
    if marks.insert(first, Mark { key, place }).is_err() {
        unreachable!();
    }
}

/// Takes out what stands under this key.
pub fn take_mark(marks: &mut Vec<Mark>, key: u64)
    requires { Rises marks.old.items }
    ensures rises { Rises marks.new.items }
    ensures taken { IsTaken key marks.old.items marks.new.items }
    ensures len { vec_len marks.new ≤ vec_len marks.old }
    ensures capacity { vec_capacity marks.new ≡ vec_capacity marks.old }
{
    match index_of(marks, key) {
        None => {}
        Some(index) => {
            marks.remove(index);
        }
    }
}

/// Each place above this one moves down by one.
fn shift_places(marks: &mut [Mark], place: usize)
    ensures { marks.new ≡ map (moved place) marks.old }
{
    for mark in marks.iter_mut() {
        if mark.place > place {
            mark.place -= 1;
        }
    }
}

/// In the whole list each place above this one moves down by one.
#[tactic(auto, using(crate::proofs::Rising::whole))]
fn close_gap(marks: &mut Vec<Mark>, place: usize)
    ensures items { marks.new.items ≡ map (moved place) marks.old.items }
    ensures capacity { vec_capacity marks.new ≡ vec_capacity marks.old }
{
    shift_places(marks, place);
}

/// Takes the place out, which stood under this key or under none.
fn take_old(marks: &mut Vec<Mark>, place: usize, old: Option<u64>)
    requires { Rises marks.old.items }
    ensures rises { Rises marks.new.items }
    ensures changed { IsChanged place old None marks.old.items marks.new.items }
    ensures fewer { (n p : ℕ) → IsUnder n p marks.new.items → IsUnder n p marks.old.items }
    ensures len { vec_len marks.new ≤ vec_len marks.old }
    ensures capacity { vec_capacity marks.new ≡ vec_capacity marks.old }
{
    match old {
        None => {}
        Some(key) => take_mark(marks, key),
    }
}

/// Puts the place under this key, unless there is no room or another place stands there.
fn put_key(marks: &mut Vec<Mark>, place: usize, key: u64) -> bool
    requires { Rises marks.old.items }
    ensures rises { Rises marks.new.items }
    ensures changed { IsTrue result → IsChanged place None (Some key) marks.old.items marks.new.items }
    ensures kept { vec_len marks.old < vec_capacity marks.old → IsFree (Some key) marks.old.items → IsTrue result }
    ensures capacity { vec_capacity marks.new ≡ vec_capacity marks.old }
{
    if marks.len() >= marks.capacity() {
        return false;
    }
    match find_mark(marks, key) {
        Some(_) => false,
        None => {
            put_mark(marks, key, place);
            true
        }
    }
}

/// Puts the place under this key, or under none.
fn put_new(marks: &mut Vec<Mark>, place: usize, new: Option<u64>) -> bool
    requires { Rises marks.old.items }
    ensures rises { Rises marks.new.items }
    ensures changed { IsTrue result → IsChanged place None new marks.old.items marks.new.items }
    ensures kept { vec_len marks.old < vec_capacity marks.old → IsFree new marks.old.items → IsTrue result }
    ensures capacity { vec_capacity marks.new ≡ vec_capacity marks.old }
{
    match new {
        None => true,
        Some(key) => put_key(marks, place, key),
    }
}

/// Whether these are the same key, or none both times.
pub fn is_same(one: Option<u64>, other: Option<u64>) -> bool
    ensures { IsTrue result ↔ (one ≡ other) }
{
    match (one, other) {
        (Some(one), Some(other)) => one == other,
        (None, None) => true,
        _ => false,
    }
}

/// The row at the place has one key now in place of another. Whether the marks told of each row, and do so still: where
/// there is room, only a key that stands there already ends that, and one that is kept ends it nowhere.
pub fn change_mark(
    marks: &mut Vec<Mark>,
    is_marked: bool,
    place: usize,
    old: Option<u64>,
    new: Option<u64>,
) -> bool
    requires { Rises marks.old.items }
    ensures rises { Rises marks.new.items }
    ensures before { IsTrue result → IsTrue is_marked }
    ensures changed { IsTrue result → IsChanged place old new marks.old.items marks.new.items }
    ensures kept { IsTrue is_marked → vec_len marks.old < vec_capacity marks.old → IsFree new marks.old.items → IsTrue result }
    ensures same { IsTrue is_marked → old ≡ new → IsTrue result }
    ensures capacity { vec_capacity marks.new ≡ vec_capacity marks.old }
{
    if !is_marked {
        return false;
    }
    if is_same(old, new) {
        return true;
    }
    take_old(marks, place, old);
    put_new(marks, place, new)
}

/// The row at the place is taken out, which had this key or none.
pub fn remove_mark(marks: &mut Vec<Mark>, place: usize, old: Option<u64>)
    requires { Rises marks.old.items }
    ensures rises { Rises marks.new.items }
    ensures gone { IsGone place old marks.old.items marks.new.items }
    ensures capacity { vec_capacity marks.new ≡ vec_capacity marks.old }
{
    take_old(marks, place, old);
    close_gap(marks, place);
}
