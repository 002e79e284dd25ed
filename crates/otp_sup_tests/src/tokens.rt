// What threads carry of a supervisor is Send, and what they share of it is Sync, also as seen from a crate above.
use otp_inbox::{Inbox, InboxNaming, Sender, Taker};
use otp_job::bridge::BoxedSubsystem;
use otp_job::{Body, BoxedJob};
use otp_sup::{
    Bodies, Client, Evidence, Letter, MemoryPort, Message, NewProcess, Office, SubmitFault, Sup,
    SupNaming, SupParts, Table, ToldEnd, ToldNote, Unlocked,
};

type Boxed = Body<BoxedJob, BoxedSubsystem>;

fn is_send<T: Send>(_: &T) {}

fn is_sync<T: Sync>(_: &T) {}

pub fn inbox_crosses<N: InboxNaming + Send + Sync>(
    inbox: &Inbox<N, Message, Letter<Boxed>>,
    sender: &Sender<N, Message, Letter<Boxed>>,
    taker: &Taker<N, Message, Letter<Boxed>>,
) {
    is_send(inbox);
    is_sync(inbox);
    is_send(sender);
    is_send(taker);
}

pub fn supervisor_crosses<N: SupNaming + Send + Sync>(
    sup: &Sup<N, Boxed>,
    table: &Table<N, Boxed>,
    office: &Office<N>,
    client: &Client<N, Boxed>,
    unlocked: &Unlocked<N, Boxed>,
    parts: &SupParts<N, Boxed>,
) {
    is_send(sup);
    is_sync(sup);
    is_send(table);
    is_send(office);
    is_send(client);
    is_send(unlocked);
    is_send(parts);
}

// What a port takes, and what a parent keeps of it.
pub fn orders_and_bodies_are_send(
    process: &NewProcess<Boxed>,
    note: &ToldNote,
    end: &ToldEnd,
    evidence: &Evidence,
    letter: &Letter<Boxed>,
    bodies: &Bodies<Boxed>,
    port: &MemoryPort<Boxed>,
    fault: &SubmitFault<Boxed>,
) {
    is_send(process);
    is_send(note);
    is_send(end);
    is_send(evidence);
    is_send(letter);
    is_send(bodies);
    is_send(port);
    is_send(fault);
}
