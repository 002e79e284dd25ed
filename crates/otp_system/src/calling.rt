//! Calls of the supervisors of a running tree: start_child, which_children and the other functions that OTP's `supervisor`
//! exports.
ghost use Rattle.std.specs.Prelude.{◌≡◌, ◌<◌, ◌≤◌, None, Ok, is_some, false, true, IfErr, IfOk, IsTrue, OnErr, OnOk, length};
ghost use Rattle.otp_rules.specs.Homes.{is_start_call};
ghost use Rattle.otp_core.specs.declared.reply.ReplyAnswer.TheVariants as answer;
ghost use Rattle.otp_bodies.specs.Bodies.{is_left_of};
ghost use Rattle.otp_sup.specs.Turns.{HadBody, HasReply};
ghost use Rattle.otp_hand.specs.Standings.{reach_of};
ghost use Rattle.otp_system.specs.Callings.{Called, IsNotSent, IsUnsendable, Reaches, fits_call, has_time, is_nested, is_no_table, is_of_type};

use crate::system::System;
use otp_core::ReplyAnswer;
use otp_hand::TreeClient;
use otp_inbox::{Inbox, InboxNaming};
use otp_job::Body;
use otp_rules::{Call, Reply};
use otp_signals::{Words, WordsNaming};
use otp_spec::{ChildType, Shutdown};
use otp_sup::{Letter, Message, SupNaming};
use std::alloc::{AllocError, Global};
use std::sync::Wait;

/// Why a call was not sent: the first of these that is so.
#[derive(Clone, Copy, Debug, PartialEq, Eq)]
pub enum CallRefusal {
    /// E21: the tree has no supervisor of this number.
    NoSupervisor,
    /// E19: a call that starts a child has no body, or one that the child may not run, or another call has one. A worker
    /// runs a job or a bridge; a supervisor runs a bridge, or is the top of supervisors that were added (`add_tree` of `otp_tree`).
    WrongBody,
    /// E16: the child is a supervisor that was added, and has less time to shut down than it wants.
    NotInfinity,
    /// E9: the client may draw no more numbers.
    Exhausted,
    /// E0: memory was refused. A number was drawn, and is spent.
    OutOfMemory,
}

/// E21: the tree has no supervisor of this number.
#[derive(Clone, Copy, Debug, PartialEq, Eq)]
pub struct NoTable;

/// A call that was not sent, with the body that came with it.
#[derive(Drop)]
pub struct Uncalled<B> {
    pub cause: CallRefusal,
    pub body: Option<B>,
}

impl<N: SupNaming, J: Drop, S: Drop> System<N, J, S> {
    /// Whether a client can call the supervisor with this number.
    ///
    /// # Errors
    ///
    /// [`NoTable`]: the tree has none of this number.
    pub fn reach(&self, client: &TreeClient<N, Body<J, S>>, table: usize) -> Result<(), NoTable>
        ensures ok { OnOk result (Reaches self.now.tables table client.now) }
        ensures planned { OnErr result (Reaches self.now.tables table client.now → ¬ (is_some (N.plan table) ≡ true)) }
    {
        if table < client.senders.len() && self.has_table(table) {
            Ok(())
        } else {
            Err(NoTable)
        }
    }

    /// Whether it is no supervisor, or the top of some that were added.
    fn has_added(&self, body: &Option<Body<J, S>>) -> bool
        ensures { is_nested body.now ≡ false → IsTrue result }
    {
        let Some(Body::Sup(top)) = body else {
            return true;
        };
        match self.growth() {
            Some(growth) => growth.has_top(top.number()),
            None => false,
        }
    }

    /// Sends a call to the supervisor with this number, with a body exactly where it starts a new child
    /// (supervisor, start_child/2), and answers the number of the call. The supervisor takes it in one of its turns; then
    /// [`System::reply`] has the answer under this number.
    ///
    /// Where it is refused nothing was sent, and the body comes back.
    pub fn submit<R: Wait>(
        &self,
        rt: &R,
        alloc: Global,
        client: &mut TreeClient<N, Body<J, S>>,
        table: usize,
        call: Call,
        body: Option<Body<J, S>>,
    ) -> Result<u64, Uncalled<Body<J, S>>>
        // The number is the last that the client drew, and the call under it the last item that it sent to that supervisor.
        ensures sent { IfOk result (λ number. Called table number call client.old client.new) }
        ensures fits { OnOk result (fits_call call body ≡ true) }
        ensures there { OnOk result (table < self.now.tables) }
        ensures in_time { OnOk result (has_time call body ≡ true) }
        ensures refused { IfErr result (λ fault. IsNotSent fault.cause N.plan self.now.tables table call body client.old client.new) }
        ensures back { IfErr result (λ fault. fault.body ≡ body) }
        // The client sends to whom it did, by as many parts of the right to send.
        ensures reach { reach_of client.new ≡ reach_of client.old }
    {
        if let Err(_) = self.reach(client, table) {
            return Err(not_called(CallRefusal::NoSupervisor, body));
        }
        if !fits_call(&call, &body) || !self.has_added(&body) {
            return Err(not_called(CallRefusal::WrongBody, body));
        }
        if !has_time(&call, &body) {
            return Err(not_called(CallRefusal::NotInfinity, body));
        }
        send_call(
            rt,
            alloc,
            client,
            &self.shared.words,
            self.shared.inbox_of(table),
            call,
            body,
        )
    }

    /// What that supervisor knows of the answer to the call with this number: [`ReplyAnswer::Kept`] with a copy, where it was given
    /// since the last checkpoint; [`ReplyAnswer::Gone`] where a checkpoint may have dropped it; [`ReplyAnswer::NotYet`] where it
    /// wasn't answered yet, or the tree has no supervisor of this number. An error where memory for the copy is refused (E0).
    ///
    /// As of each thing that lies under a lock, contracts say that the answer, or that there is none, is that of a supervisor
    /// which keeps the rules.
    pub fn reply<R: Wait>(
        &self,
        rt: &R,
        table: usize,
        call: u64,
    ) -> Result<ReplyAnswer<Reply>, AllocError>
        ensures kept { table < self.now.tables → IfOk result (HasReply N.plan call) }
        ensures none { self.now.tables ≤ table → result ≡ Ok answer.NotYet }
    {
        match self.shared.sups.get(table) {
            Some(sup) => sup.reply(rt, call),
            None => Ok(ReplyAnswer::NotYet),
        }
    }

    /// The body that the call with this number brought, once it was answered and no child of that supervisor has the body:
    /// after a refusal, or when the child is gone. It is given once.
    pub fn take_box<R: Wait>(&self, rt: &R, table: usize, call: u64) -> Option<Body<J, S>>
        ensures kept { table < self.now.tables → HadBody N.plan (is_left_of call) (is_some result) }
        ensures none { self.now.tables ≤ table → result ≡ None }
    {
        match self.shared.sups.get(table) {
            Some(sup) => sup.take_box(rt, call),
            None => None,
        }
    }
}

/// Sends a call to the supervisor with this inbox, under a number that is drawn for it.
fn send_call<N: WordsNaming + InboxNaming, B: Drop, R: Wait>(
    rt: &R,
    alloc: Global,
    client: &mut TreeClient<N, B>,
    words: &Words<N>,
    inbox: &Inbox<N, Message, Letter<B>>,
    call: Call,
    body: Option<B>,
) -> Result<u64, Uncalled<B>>
    requires reaches { inbox.now < length client.old.senders }
    requires body { is_some body ≡ is_start_call call }
    ensures sent { IfOk result (λ number. Called inbox.now number call client.old client.new) }
    ensures refused { IfErr result (λ fault. IsUnsendable fault.cause client.old client.new) }
    ensures back { IfErr result (λ fault. fault.body ≡ body) }
    ensures reach { reach_of client.new ≡ reach_of client.old }
{
    let Ok(number) = words.draw(&mut client.owner) else {
        return Err(not_called(CallRefusal::Exhausted, body));
    };
    match client.senders.call(rt, alloc, inbox, number, call, body) {
        Ok(()) => Ok(number),
        Err(body) => Err(not_called(CallRefusal::OutOfMemory, body)),
    }
}

fn not_called<B: Drop>(cause: CallRefusal, body: Option<B>) -> Uncalled<B>
    ensures { result ≡ record { cause = cause; body = body } }
{
    Uncalled { cause, body }
}

/// Whether a call that starts a new child comes with a body that the child may run, and another one with none.
fn fits_call<J: Drop, S: Drop>(call: &Call, body: &Option<Body<J, S>>) -> bool
    ensures value { result ≡ fits_call call.now body.now }
    ensures start { result ≡ true → is_some body.now ≡ is_start_call call.now }
{
    match (call, body) {
        (Call::StartChild(spec), Some(body)) => is_of_type(spec.kind, body),
        (Call::StartDynamic, Some(body)) => is_no_table(body),
        (Call::StartChild(_) | Call::StartDynamic, None) => false,
        (_, Some(_)) => false,
        (_, None) => true,
    }
}

/// Whether a child of this type may run it.
fn is_of_type<J: Drop, S: Drop>(kind: ChildType, body: &Body<J, S>) -> bool
    ensures { result ≡ is_of_type kind body.now }
{
    match (kind, body) {
        (ChildType::Worker, Body::Worker(_)) => true,
        (_, Body::Bridge(_)) => true,
        (ChildType::Supervisor, Body::Worker(_)) => false,
        (ChildType::Supervisor, Body::Sup(_)) => true,
        (ChildType::Worker, Body::Sup(_)) => false,
    }
}

/// Whether a child that is a supervisor of its own has as much time to shut down as it wants.
fn has_time<J: Drop, S: Drop>(call: &Call, body: &Option<Body<J, S>>) -> bool
    ensures { result ≡ has_time call.now body.now }
{
    match (call, body) {
        (Call::StartChild(spec), Some(Body::Sup(_))) => matches!(spec.shutdown, Shutdown::Infinity),
        (_, _) => true,
    }
}

/// Whether it is not the number of a supervisor.
fn is_no_table<J: Drop, S: Drop>(body: &Body<J, S>) -> bool
    ensures { result ≡ is_no_table body.now }
{
    !matches!(body, Body::Sup(_))
}
