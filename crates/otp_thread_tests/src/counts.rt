ghost use Rattle.std.specs.Prelude.{◌≡◌, ◌≤◌};
ghost use Rattle.otp_signals.specs.Counts.{fresh_pass};
ghost use Rattle.otp_signals.specs.Words.{AreFew};

use crate::fixtures::{got, same};
use otp_rules::CountsNow;
use otp_signals::counts::{CountsPass, Publisher};
use std::alloc::Global;
use std::process::Abort;
use std::thread;
use std::thread::Threads;

// Counts of three children, so many of which have a process.
fn with_active(active: u64) -> CountsNow
    requires { active ≤ 256 }
    ensures { result ≡ record { specs = 3; active = active; supervisors = 1; workers = 2 } }
{
    CountsNow {
        specs: 3,
        active,
        supervisors: 1,
        workers: 2,
    }
}

// A pass reads counts of which so many have a process.
fn reads(rt: &impl Abort, pass: &mut CountsPass, active: u64)
    requires { active ≤ 256 }
    ensures { pass.new.word ≡ pass.old.word }
{
    same(rt, "the counts", pass.read(), with_active(active));
}

fn opened(rt: &impl Abort, alloc: Global, counts: CountsNow) -> Publisher
    requires { AreFew counts }
{
    got(rt, "memory was refused", Publisher::open(alloc, counts))
}

fn pass_of(rt: &impl Abort, publisher: &mut Publisher) -> CountsPass
    ensures same { publisher.new ≡ publisher.old }
    ensures pass { result ≡ fresh_pass publisher.old.word }
{
    let Ok(pass) = publisher.pass() else {
        panic!(rt; "memory was refused");
    };
    pass
}

#[test]
fn a_pass_reads_the_last(rt: HostRuntime) {
    let mut publisher = opened(&rt, rt.alloc(), with_active(0));
    let mut pass = pass_of(&rt, &mut publisher);
    reads(&rt, &mut pass, 0);
    publisher.publish(with_active(2));
    publisher.publish(with_active(1));
    reads(&rt, &mut pass, 1);
    let Ok(mut other) = pass.split() else {
        panic!(&rt; "memory was refused");
    };
    reads(&rt, &mut other, 1);
    // The pass's seat goes through the publisher's and back: it still reads afterwards.
    publisher.compare(&mut pass);
    publisher.publish(with_active(256));
    reads(&rt, &mut pass, 256);
    reads(&rt, &mut other, 256);
    drop(pass);
    drop(other);
    drop(publisher);
}

#[test]
fn each_count_has_its_place(rt: HostRuntime) {
    let counts = CountsNow {
        specs: 256,
        active: 1,
        supervisors: 255,
        workers: 256,
    };
    let mut publisher = opened(&rt, rt.alloc(), counts);
    let mut pass = pass_of(&rt, &mut publisher);
    same(&rt, "the counts", pass.read(), counts);
    drop(pass);
    drop(publisher);
}

// Publishes one process more, two hundred times.
fn publish_all(mut publisher: Publisher) -> Publisher {
    for active in 0..200u64 {
        publisher.publish(with_active(active + 1));
    }
    publisher
}

// Reads a thousand times: whether no count is less than one before it, and all are of three children.
fn read_all(mut pass: CountsPass) -> bool {
    let mut last = 0;
    let mut is_in_order = true;
    for _ in 0..1000u64 {
        let counts = pass.read();
        is_in_order = is_in_order && last <= counts.active && counts.specs == 3;
        last = counts.active;
    }
    is_in_order
}

fn on_three_threads<R: Threads + Abort>(
    rt: &R,
    mut publisher: Publisher,
) -> (Publisher, bool, bool) {
    let one = pass_of(rt, &mut publisher);
    let other = pass_of(rt, &mut publisher);
    let (publisher, (first, second)) = thread::join(
        rt,
        || publish_all(publisher),
        || thread::join(rt, || read_all(one), || read_all(other)),
    );
    (publisher, first, second)
}

#[test]
fn others_read_while_one_publishes(rt: HostRuntime) {
    let publisher = opened(&rt, rt.alloc(), with_active(0));
    let (mut publisher, first, second) = on_three_threads(&rt, publisher);
    assert!(rt; first);
    assert!(rt; second);
    let mut pass = pass_of(&rt, &mut publisher);
    reads(&rt, &mut pass, 200);
    drop(pass);
    drop(publisher);
}
