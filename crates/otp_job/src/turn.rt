ghost use Rattle.std.specs.Prelude.{◌≡◌, ◌≢◌, Some};
ghost use Rattle.otp_job.specs.declared.bridge.bridge.BridgePhase.TheVariants as bridge_phase;
ghost use Rattle.otp_reason.specs.declared.note.Started.TheVariants.{Up};
ghost use Rattle.otp_job.specs.declared.process.ProcessPhase.TheVariants.{Fresh};
ghost use Rattle.otp_job.specs.Processes.{IsRunnable, IsSettled, IsUp, process_at};
ghost use Rattle.otp_job.specs.Turns.{done, exited, after_start, StartsJob, TellsJob, TurnsJob, StartsBridge, TurnsBridge, FirstTurn, LaterTurn};

use crate::body::Body;
use crate::bridge::{Bridge, Subsystem};
use crate::job::{Job, Told, Turn};
use crate::place::{Place, Site};
use crate::process::{Inside, Process, ProcessPhase, Spent, Ticket};
use otp_reason::{Delivery, Note, Reason, Started, deliver};
use otp_signals::Signal;
use std::alloc::Global;

// What a process is made of, while its body has a turn.
type Emptied<J, S> = Box<Inside<J, S>, Global>;

/// The note of an end, which brings the body home.
#[derive(Drop)]
pub struct EndNote<J: Drop, S: Drop> {
    /// Ignored, Failed or Exit.
    pub note: Note,
    /// The body, as the last call left it.
    pub body: Body<J, S>,
}

/// What became of a process in a turn.
pub enum After<J: Drop, S: Drop> {
    /// It goes on.
    Again(Process<J, S>),
    /// It goes on, and needs no turn before it is told something ([`Process::has_news`]).
    Waits(Process<J, S>),
    /// It has started. The note is to be sent before its next turn.
    Begun(Process<J, S>, Note),
    /// It ended. The note is to be sent, and what is left of the process to be counted.
    Done(EndNote<J, S>, Spent),
}

/// One turn of a worker or a bridge, with the signal that its supervisor has posted for it.
///
/// The first turn starts it and looks at no signal. In a later one a kill ends it with `Killed` and no call; a shutdown
/// ends a job that doesn't trap with `Shutdown` and no call, is told once to a job that traps, and terminates a bridge;
/// with no signal a job has its turn and a bridge looks after its subsystem.
pub fn one_turn<J: Job, S: Subsystem>(process: Process<J, S>, signal: Signal) -> After<J, S>
    requires { IsRunnable process.body }
    ensures first { process.phase ≡ Fresh → FirstTurn J.started S.inited process.ticket 0 process.body result }
    ensures later { process.phase ≢ Fresh → LaterTurn J.is_trapping J.turned S.polled S.terminated process.ticket process.phase signal process.body result }
{
    one_turn_at(process, signal, &Site::nowhere())
}

/// A turn at a site, which a job hears of at its start.
pub fn one_turn_at<J: Job, S: Subsystem>(
    process: Process<J, S>,
    signal: Signal,
    site: &Site<'_>,
) -> After<J, S>
    requires { IsRunnable process.body }
    ensures first { process.phase ≡ Fresh → FirstTurn J.started S.inited process.ticket site.now.reading process.body result }
    ensures later { process.phase ≢ Fresh → LaterTurn J.is_trapping J.turned S.polled S.terminated process.ticket process.phase signal process.body result }
{
    let Process { mut inside } = process;
    let Some(body) = inside.body.take() else {
        unreachable!();
    };
    if inside.phase != ProcessPhase::Fresh {
        return later_turn(inside, signal, body);
    }
    match body {
        Body::Worker(job) => start_job(inside, job, site),
        Body::Bridge(bridge) => start_bridge(inside, bridge),
        Body::Sup(_) => unreachable!(),
    }
}

fn later_turn<J: Job, S: Subsystem>(
    inside: Emptied<J, S>,
    signal: Signal,
    body: Body<J, S>,
) -> After<J, S>
    requires started { inside.value.phase ≢ Fresh }
    requires settled { IsUp (Some body) }
    ensures { LaterTurn J.is_trapping J.turned S.polled S.terminated inside.value.ticket inside.value.phase signal (Some body) result }
{
    match body {
        Body::Worker(job) => turn_job(inside, signal, job),
        Body::Bridge(bridge) => turn_bridge(inside, signal, bridge),
        Body::Sup(_) => unreachable!(),
    }
}

fn start_job<J: Job, S: Drop>(inside: Emptied<J, S>, mut job: J, site: &Site<'_>) -> After<J, S>
    ensures { StartsJob J.started inside.value.ticket site.now.reading job result }
{
    let Ticket {
        number,
        slot,
        table,
        id,
        again: _,
    } = inside.ticket;
    let place = Place {
        number,
        slot,
        table,
        id,
        reading: site.reading,
        post: site.post,
    };
    let answer = job.begin(&place);
    begin(inside, answer, Body::Worker(job))
}

fn turn_job<J: Job, S: Drop>(inside: Emptied<J, S>, signal: Signal, job: J) -> After<J, S>
    ensures { TurnsJob J.is_trapping J.turned inside.value.ticket inside.value.phase signal job result }
{
    let phase = inside.phase;
    match signal {
        Signal::Kill => exit(inside, Reason::Killed, Body::Worker(job)),
        Signal::Shutdown if phase != ProcessPhase::Asked => {
            match deliver(Reason::Shutdown, job.traps()) {
                Delivery::Dies(reason) => exit(inside, reason, Body::Worker(job)),
                Delivery::Message(_) => tell_job(inside, ProcessPhase::Asked, Told::Shutdown, job),
                Delivery::Ignored => tell_job(inside, phase, Told::Nothing, job),
            }
        }
        _ => tell_job(inside, phase, Told::Nothing, job),
    }
}

fn tell_job<J: Job, S: Drop>(
    inside: Emptied<J, S>,
    phase: ProcessPhase,
    told: Told,
    mut job: J,
) -> After<J, S>
    ensures { TellsJob J.turned inside.value.ticket phase told job result }
{
    match job.turn(told) {
        Turn::Again => After::Again(process(inside, phase, Body::Worker(job))),
        Turn::Wait => After::Waits(process(inside, phase, Body::Worker(job))),
        Turn::End(reason) => exit(inside, reason, Body::Worker(job)),
    }
}

fn start_bridge<J: Drop, S: Subsystem>(inside: Emptied<J, S>, mut bridge: Bridge<S>) -> After<J, S>
    ensures { StartsBridge S.inited inside.value.ticket bridge result }
{
    let answer = bridge.start();
    begin(inside, answer, Body::Bridge(bridge))
}

fn turn_bridge<J: Drop, S: Subsystem>(
    inside: Emptied<J, S>,
    signal: Signal,
    mut bridge: Bridge<S>,
) -> After<J, S>
    requires { bridge.phase ≡ bridge_phase.Up }
    ensures { TurnsBridge S.polled S.terminated inside.value.ticket inside.value.phase signal bridge result }
{
    match bridge.turn(signal) {
        None => After::Again(refill(inside, Body::Bridge(bridge))),
        Some(reason) => exit(inside, reason, Body::Bridge(bridge)),
    }
}

// What follows from the answer of a start.
fn begin<J: Drop, S: Drop>(inside: Emptied<J, S>, answer: Started, body: Body<J, S>) -> After<J, S>
    requires { answer ≡ Up → IsUp (Some body) }
    ensures { result ≡ after_start inside.value.ticket answer body }
{
    let number = inside.ticket.number;
    match answer {
        Started::Up => After::Begun(
            process(inside, ProcessPhase::Running, body),
            Note::Up(number),
        ),
        Started::Ignore => end(inside, Note::Ignored(number), body),
        Started::Fail(reason) => end(inside, Note::Failed(number, reason), body),
    }
}

// The process goes on, in this phase.
fn process<J: Drop, S: Drop>(
    mut inside: Emptied<J, S>,
    phase: ProcessPhase,
    body: Body<J, S>,
) -> Process<J, S>
    requires { IsSettled phase (Some body) }
    ensures { result ≡ process_at inside.value.ticket phase body }
{
    inside.phase = phase;
    refill(inside, body)
}

// The process goes on as far as it had come.
fn refill<J: Drop, S: Drop>(mut inside: Emptied<J, S>, body: Body<J, S>) -> Process<J, S>
    requires { IsSettled inside.value.phase (Some body) }
    ensures { result ≡ process_at inside.value.ticket inside.value.phase body }
{
    inside.body = Some(body);
    Process { inside }
}

// It exits in a turn, for this reason.
fn exit<J: Drop, S: Drop>(inside: Emptied<J, S>, reason: Reason, body: Body<J, S>) -> After<J, S>
    ensures { result ≡ exited inside.value.ticket reason body }
{
    let number = inside.ticket.number;
    drop(inside);
    let note = Note::Exit(number, reason);
    After::Done(EndNote { note, body }, Spent::of(number))
}

// It ends with its start, and this note tells why.
fn end<J: Drop, S: Drop>(inside: Emptied<J, S>, note: Note, body: Body<J, S>) -> After<J, S>
    ensures { result ≡ done inside.value.ticket note body }
{
    let number = inside.ticket.number;
    drop(inside);
    After::Done(EndNote { note, body }, Spent::of(number))
}
