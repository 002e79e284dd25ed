ghost use Rattle.std.specs.Prelude.{◌≡◌, Contains, IfOk};
ghost use Rattle.otp_signals.specs.Lists.{AllIn};

use crate::fixtures::{got, same};
use otp_signals::{Exhausted, OpenWords, Owner, Signal, Viewer, Words, WordsNaming};
use std::alloc::Global;
use std::marker::Brand;
use std::process::Abort;
use std::test::*;
use std::thread;
use std::thread::Threads;

// What a test says that stops for want of memory.
const MEMORY: &str = "there is memory";

#[test]
fn signals_of_two_numbers(rt: HostRuntime) {
    let Ok(opened) = OpenWords::open(rt.alloc(), 2) else {
        panic!(&rt; "there is memory");
    };
    signals_in::<Brand, _>(&rt, opened);
}

// Draws so many numbers, and gives the last. It stands in the owner's list, as those before do.
fn draw_several<N: WordsNaming>(
    words: &Words<N>,
    owner: &mut Owner<N>,
    count: u8,
) -> Result<u64, Exhausted>
    ensures stands { IfOk result (Contains owner.new.drawn) }
    ensures kept { AllIn owner.old.drawn owner.new.drawn }
    ensures slots { owner.new.slots ≡ owner.old.slots }
{
    for _ in 1..count {
        words.draw(owner)?;
    }
    words.draw(owner)
}

// Posts to the first slot.
fn post_first<N: WordsNaming>(words: &Words<N>, owner: &mut Owner<N>, number: u64, signal: Signal)
    requires slot { Contains owner.old.slots 0 }
    requires number { Contains owner.old.drawn number }
    ensures drawn { owner.new.drawn ≡ owner.old.drawn }
    ensures slots { owner.new.slots ≡ owner.old.slots }
{
    words.post(owner, 0, number, signal);
}

fn signals_in<N: WordsNaming, R: Abort>(rt: &R, opened: OpenWords)
    requires name { opened.words ≡ N.words }
    requires slots { opened.slots ≡ 2 }
{
    let (words, mut owner) = opened.named::<N>();
    same(rt, "the slots", words.slots(), 2);
    let mut viewer = words.viewer(&mut owner);
    let mut other = words.split_viewer(&mut viewer);
    let shown = are_seen(rt, &words, &mut owner, &mut viewer, &mut other);
    drop(viewer);
    drop(other);
    drop(owner);
    drop(words);
    assert!(rt; shown.is_ok());
}

// What the viewers see of posts to two numbers.
fn are_seen<N: WordsNaming, R: Abort>(
    rt: &R,
    words: &Words<N>,
    owner: &mut Owner<N>,
    viewer: &mut Viewer<N>,
    other: &mut Viewer<N>,
) -> Result<(), Exhausted>
    requires slots { words.now ≡ 2 }
    requires owned { Contains owner.old.slots 0 }
{
    let five = draw_several(words, owner, 5)?;
    let nine = draw_several(words, owner, 4)?;
    same(rt, "the drawn numbers", (five, nine), (5, 9));
    post_first(words, owner, five, Signal::Shutdown);
    let seen = words.look(viewer, 0, five);
    same(rt, "of five after its shutdown", seen, Signal::Shutdown);
    post_first(words, owner, nine, Signal::None);
    post_first(words, owner, five, Signal::Kill);
    let seen = words.look(viewer, 0, five);
    same(rt, "of five after a post to nine", seen, Signal::None);
    let seen = words.look(viewer, 0, nine);
    same(rt, "of nine before its kill", seen, Signal::None);
    post_first(words, owner, nine, Signal::Kill);
    let seen = words.look(viewer, 0, nine);
    same(rt, "of nine after its kill", seen, Signal::Kill);
    let seen = words.look(other, 0, five);
    same(rt, "of five by the other viewer", seen, Signal::None);
    // The viewer's seat goes through the owner's and back: it still looks afterwards.
    words.compare(owner, viewer);
    let seen = words.look(viewer, 0, nine);
    same(rt, "of nine after the comparison", seen, Signal::Kill);
    Ok(())
}

// Draws a thousand numbers.
fn draw_thousand<N: WordsNaming, R: Abort>(
    rt: &R,
    words: &Words<N>,
    alloc: Global,
    mut owner: Owner<N>,
) -> (Vec<u64>, Owner<N>) {
    let mut drawn = got(rt, MEMORY, Vec::with_capacity(alloc, 1000));
    for _ in 0..1000u64 {
        let number = got(rt, "a number", words.draw(&mut owner));
        got(rt, MEMORY, drawn.push(number));
    }
    (drawn, owner)
}

#[test]
fn numbers_of_four_threads(rt: HostRuntime) {
    let opened = got(&rt, MEMORY, OpenWords::open(rt.alloc(), 0));
    numbers_in::<Brand, _>(&rt, rt.alloc(), opened);
}

fn numbers_in<N: WordsNaming + Send + Sync, R: Threads + Abort + Sync>(
    rt: &R,
    alloc: Global,
    opened: OpenWords,
)
    requires { opened.words ≡ N.words }
{
    let (words, mut owner) = opened.named::<N>();
    let mut numbers = draw_from_four(rt, alloc, &words, &mut owner);
    assert!(rt; owner.is_whole());
    same(rt, "the next number", words.close(owner), 4001);
    assert!(rt; numbers.sort().is_ok());
    are_first(rt, numbers.as_slice());
    same(rt, "how many were drawn by all", numbers.len(), 4000);
    drop(numbers);
}

// What a thread has drawn, and what it drew them with.
type Drawn<N> = (Vec<u64>, Owner<N>);

// All numbers that four threads draw. What they drew them with is the owner's again.
fn draw_from_four<N: WordsNaming + Send + Sync, R: Threads + Abort + Sync>(
    rt: &R,
    alloc: Global,
    words: &Words<N>,
    owner: &mut Owner<N>,
) -> Vec<u64> {
    let ((a, b), (c, d)) = draw_in_four(rt, alloc, words, owner);
    let mut all = Vec::new(alloc);
    takes_back(rt, words, owner, &mut all, a);
    takes_back(rt, words, owner, &mut all, b);
    takes_back(rt, words, owner, &mut all, c);
    takes_back(rt, words, owner, &mut all, d);
    all
}

// A thread has drawn a thousand numbers, which stand among all then. It can draw no more.
fn takes_back<N: WordsNaming, R: Abort>(
    rt: &R,
    words: &Words<N>,
    owner: &mut Owner<N>,
    all: &mut Vec<u64>,
    drawn: Drawn<N>,
) {
    let (numbers, mut part) = drawn;
    same(rt, "how many were drawn", numbers.len(), 1000);
    let more = words.draw(&mut part);
    same(rt, "one number more", more, Err(Exhausted));
    assert!(rt; !owner.is_whole());
    words.join(owner, part);
    assert!(rt; all.extend_from_slice(numbers.as_slice()).is_ok());
    drop(numbers);
}

// An owner of a thousand numbers.
fn one_of<N: WordsNaming>(rt: &impl Abort, words: &Words<N>, owner: &mut Owner<N>) -> Owner<N> {
    got(rt, "a quota", words.split(owner, 0..0, 1000))
}

// Each of four threads draws a thousand numbers.
fn draw_in_four<N: WordsNaming + Send + Sync, R: Threads + Abort + Sync>(
    rt: &R,
    alloc: Global,
    shared: &Words<N>,
    owner: &mut Owner<N>,
) -> ((Drawn<N>, Drawn<N>), (Drawn<N>, Drawn<N>)) {
    let (a, b) = (one_of(rt, shared, owner), one_of(rt, shared, owner));
    let (c, d) = (one_of(rt, shared, owner), one_of(rt, shared, owner));
    same(rt, "the quota", owner.quota(), (1 << 62) - 4001);
    thread::join(
        rt,
        || thread::join(
            rt,
            || draw_thousand(rt, shared, alloc, a),
            || draw_thousand(rt, shared, alloc, b),
        ),
        || thread::join(
            rt,
            || draw_thousand(rt, shared, alloc, c),
            || draw_thousand(rt, shared, alloc, d),
        ),
    )
}

// Each number from 1 on stands once.
fn are_first(rt: &impl Abort, numbers: &[u64]) {
    for (place, number) in numbers.iter().enumerate() {
        same(rt, "a drawn number", *number, place as u64 + 1);
    }
}

#[test]
fn text_of_exhausted(rt: HostRuntime) -> Result<(), Fail> {
    let text = format!(in rt.alloc(); "{Exhausted}")?;
    same(&rt, "the text", text.as_str(), "the quota is too small");
    Ok(())
}

#[test]
fn too_many_slots(rt: HostRuntime) {
    assert!(rt; OpenWords::open(rt.alloc(), usize::MAX).is_err());
}
