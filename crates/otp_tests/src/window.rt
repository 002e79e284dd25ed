use crate::fixtures::same;
use otp_window::{Window, Within};
use std::alloc::Global;
use std::process::Abort;

// The times of the restarts that are kept.
fn keeps_two(rt: &impl Abort, window: &Window, first: u64, last: u64) {
    let kept = window.kept();
    same(rt, "the number of times kept", kept.len(), 2);
    same(rt, "the first time kept", kept.front(), Some(&first));
    same(rt, "the last time kept", kept.back(), Some(&last));
}

/// One restart in five seconds: the second is too many up to the very end of the period.
#[test]
fn second_restart_at_period_end(rt: HostRuntime) {
    second_comes(&rt, rt.alloc(), 1000, Within::Exceeded);
    second_comes(&rt, rt.alloc(), 6000, Within::Exceeded);
    second_comes(&rt, rt.alloc(), 6001, Within::Ok);
}

// The first comes at 1000, and the second then.
fn second_comes(rt: &impl Abort, alloc: Global, second: u64, want: Within) {
    assert!(rt; second >= 1000);
    assert!(rt; second < 7000);
    let mut window = Window::new(alloc, 1, 5);
    assert!(rt; !window.is_reserved());
    let Ok(()) = window.reserve() else {
        panic!(rt; "there is memory");
    };
    assert!(rt; window.is_reserved());
    same(rt, "the first restart", window.add(1000), Within::Ok);
    let Ok(()) = window.reserve() else {
        panic!(rt; "there is memory");
    };
    let exceeds = window.would_exceed(second);
    same(
        rt,
        "whether it would be too many",
        exceeds,
        want == Within::Exceeded,
    );
    same(rt, "the second restart", window.add(second), want);
    same(rt, "the count", window.count(), 2);
    keeps_two(rt, &window, 1000, second);
    drop(window);
}

/// After a clear the memory is still there and nothing counts.
#[test]
fn cleared_window_counts_anew(rt: HostRuntime) {
    let mut window = Window::new(rt.alloc(), 1, 5);
    let Ok(()) = window.reserve() else {
        panic!(&rt; "there is memory");
    };
    window.add(1000);
    let Ok(()) = window.reserve() else {
        panic!(&rt; "there is memory");
    };
    window.clear();
    assert!(rt; window.is_reserved());
    assert!(rt; window.kept().is_empty());
    same(&rt, "the count", window.count(), 0);
    same(&rt, "a restart then", window.add(500), Within::Ok);
    drop(window);
}

/// Of three restarts the last two are kept, since one is allowed: no older one counts.
#[test]
fn window_keeps_the_last_stamps(rt: HostRuntime) {
    let mut window = Window::new(rt.alloc(), 1, 5);
    let Ok(()) = window.reserve() else {
        panic!(&rt; "there is memory");
    };
    same(&rt, "the first restart", window.add(1000), Within::Ok);
    let Ok(()) = window.reserve() else {
        panic!(&rt; "there is memory");
    };
    same(&rt, "the second restart", window.add(9000), Within::Ok);
    let Ok(()) = window.reserve() else {
        panic!(&rt; "there is memory");
    };
    let third = window.add(10_000);
    same(&rt, "the third restart", third, Within::Exceeded);
    same(&rt, "the count", window.count(), 3);
    keeps_two(&rt, &window, 9000, 10_000);
    drop(window);
}
