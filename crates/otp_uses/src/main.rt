//! Eight worked uses, short enough to copy. Four are of trees: one runs until another thread stops it, two are run by turns in one
//! call (one of two supervisors and three jobs, and one of two workers over what lies below), and one is served turn by turn. The
//! others are a supervisor driven by hand, an inbox between two threads, a signal from one thread to another, and a job whose
//! process is taken turn by turn.
//!
//! Each use of what threads share is a function that is generic in a name. The call of it at `Brand`, here in `main`, picks
//! the name: whose inbox, words or deques. A file of `proofs/` says which one that is (`proofs/main/Invariants.antt`).
#![tactic(auto)]

mod countdown;
mod mailbox;
mod signalling;
mod supervising;
mod tree;
mod two_supervisors;
mod two_workers;
mod until_stopped;

use countdown::{Countdown, run_all, step};
use mailbox::{Number, exchange};
use otp_core::Core;
use otp_inbox::UnnamedInbox;
use otp_job::{Body, BoxedJob, Process};
use otp_signals::{OpenWords, Signal};
use signalling::stop_from_outside;
use std::alloc::{AllocError, Global};
use std::io;
use std::marker::Brand;
use tree::{Run, up_and_down};
use two_supervisors::run_shop;
use two_workers::run_two_workers;
use until_stopped::run_until_stopped;

/// How many numbers are sent.
const COUNT: usize = 1000;

fn main(rt: HostRuntime) -> io::Result<()> {
    match run_until_stopped(&rt, rt.alloc()) {
        Ok(live) => println!(rt; "until stopped: {live} processes are left")?,
        Err(fault) => println!(rt; "the tree was not run: {fault}")?,
    }
    match run_shop(&rt, rt.alloc()) {
        Ok(live) => println!(rt; "two supervisors: {live} processes are left")?,
        Err(fault) => println!(rt; "the tree was not run: {fault}")?,
    }
    match run_two_workers(&rt, rt.alloc()) {
        Some((starts, live)) => println!(rt;
            "two workers: {starts} starts, {live} processes are left"
        )?,
        None => println!(rt; "the tree was not run")?,
    }
    supervise(rt)?;
    let inbox = UnnamedInbox::<usize, Number>::open(rt.alloc())?;
    let came = exchange::<Brand, _>(&rt, rt.alloc(), inbox, COUNT)?;
    let last = came.last().map_or(0, |number| number.value);
    let count = came.len();
    drop(came);
    println!(rt; "{count} numbers came, the last is {last}")?;
    let words = OpenWords::open(rt.alloc(), 1)?;
    match stop_from_outside::<Brand, _>(&rt, words) {
        Ok(Signal::Shutdown) => println!(rt; "the process saw its shutdown")?,
        _ => println!(rt; "no number was left")?,
    }
    match up_and_down(&rt, rt.alloc()) {
        Ok(
            Run {
                up: Some(up),
                counts: Some(counts),
                end: Some(end),
            },
        ) => println!(rt;
            "the tree: {up:?}, {} children, then {end:?}",
            counts.active
        )?,
        Ok(_) => println!(rt; "the tree had too few turns")?,
        Err(fault) => println!(rt; "the tree was not opened: {fault}")?,
    }
    count_down(rt)
}

// A supervisor of three children: the second crashes, and then all are stopped.
fn supervise(rt: HostRuntime) -> io::Result<()> {
    let mut core = supervising::open(rt.alloc())?;
    let done = crash_and_stop(rt, &mut core);
    drop(core);
    done
}

fn crash_and_stop(rt: HostRuntime, core: &mut Core) -> io::Result<()> {
    println!(rt; "opened:{}", children(rt.alloc(), core)?)?;
    supervising::crash(rt.alloc(), core, 2)?;
    println!(rt; "the second crashed:{}", children(rt.alloc(), core)?)?;
    supervising::stop(rt.alloc(), core)?;
    println!(rt;
        "stopped: {} children are left, it ended: {}",
        core.rows().len(),
        core.has_ended()
    )
}

// The process numbers of the children in start order.
fn children(alloc: Global, core: &Core) -> Result<String, AllocError> {
    let mut text = String::new(alloc);
    for row in core.rows() {
        let number = row.state.number().unwrap_or(0);
        text.push_str(format!(in alloc; " #{number}")?.as_str())?;
    }
    Ok(text)
}

// Three processes that are stepped by hand, and ten at a scheduler.
fn count_down(rt: HostRuntime) -> io::Result<()> {
    for signal in [Signal::None, Signal::Shutdown, Signal::Kill] {
        let job: BoxedJob = Box::new(rt.alloc(), Countdown { left: 3 })?;
        let process = Process::new(rt.alloc(), 1, 0, 0, Body::Worker(job));
        let process = process.map_err(|_| AllocError)?;
        if let Some((note, turns)) = step(process, signal) {
            println!(rt; "{signal:?}, {turns} turns: {note:?}")?;
        }
    }
    let mut processes = Vec::new(rt.alloc());
    for left in 1..=10 {
        let job: BoxedJob = Box::new(rt.alloc(), Countdown { left })?;
        let process = Process::new(rt.alloc(), u64::from(left), 0, 0, Body::Worker(job));
        processes.push(process.map_err(|_| AllocError)?)?;
    }
    let live = run_all(rt.alloc(), processes)?;
    println!(rt; "of 10 countdowns {live} are left")?;
    Ok(())
}
