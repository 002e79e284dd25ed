// What threads carry is Send, and what they share is Sync, also as seen from a crate above.
use otp_job::bridge::{BoxedSubsystem, Bridge};
use otp_job::{After, Body, BoxedJob, EndNote, Process, Spent, TableNo, Ticket};
use otp_run::{GatherFault, LiveTotal, OwnDeque, RunNaming, RunQueue, Scheduler, Share, Victim};
use otp_signals::counts::{CountsPass, Publisher};
use otp_signals::{Owner, Viewer, Words, WordsNaming};

fn is_send<T: Send>(_: &T) {}

fn is_sync<T: Sync>(_: &T) {}

pub fn processes_cross(
    process: &Process<BoxedJob, BoxedSubsystem>,
    body: &Body<BoxedJob, BoxedSubsystem>,
    bridge: &Bridge<BoxedSubsystem>,
    after: &After<BoxedJob, BoxedSubsystem>,
    note: &EndNote<BoxedJob, BoxedSubsystem>,
) {
    is_send(process);
    is_send(body);
    is_send(bridge);
    is_send(after);
    is_send(note);
}

pub fn small_ones_cross(
    spent: &Spent,
    table: &TableNo,
    ticket: &Ticket,
    share: &Share,
    publisher: &Publisher,
    pass: &CountsPass,
) {
    is_send(spent);
    is_send(table);
    is_send(ticket);
    is_send(share);
    is_send(publisher);
    is_send(pass);
    is_sync(table);
    is_sync(ticket);
}

pub fn queues_cross<N: RunNaming + Send>(
    scheduler: &Scheduler<N, BoxedJob, BoxedSubsystem>,
    own: &OwnDeque<N, BoxedJob, BoxedSubsystem>,
    victim: &Victim<N, BoxedJob, BoxedSubsystem>,
    queue: &RunQueue<BoxedJob, BoxedSubsystem>,
    total: &LiveTotal<BoxedJob, BoxedSubsystem>,
    fault: &GatherFault<N, BoxedJob, BoxedSubsystem>,
) {
    is_send(scheduler);
    is_send(own);
    is_send(victim);
    is_send(queue);
    is_send(total);
    is_send(fault);
}

pub fn words_cross<N: WordsNaming + Send + Sync>(
    words: &Words<N>,
    owner: &Owner<N>,
    viewer: &Viewer<N>,
) {
    is_send(words);
    is_sync(words);
    is_send(owner);
    is_send(viewer);
}
