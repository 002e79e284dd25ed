//! Who sends calls to supervisors.
ghost use Rattle.std.specs.Prelude.{◌≡◌, ◌+◌, ◌/◌, ◌<◌, ◌≤◌, ◌⊎◌, [], is_some, IfOk, IfErr, OnOk, OnErr};
ghost use Rattle.otp_rules.specs.Homes.{is_start_call};
ghost use Rattle.otp_signals.specs.Holdings.{cut_of, kept_of};
ghost use Rattle.otp_sup.specs.Clients.{DrewOne, Submitted};
ghost use Rattle.otp_sup.specs.declared.client.SplitFault.TheVariants as refused;
ghost use Rattle.otp_sup.specs.declared.client.SubmitCause.TheVariants as cause;

use otp_bodies::{Letter, Message};
use otp_inbox::{Inbox, InboxNaming, Sender};
use otp_rules::Call;
use otp_signals::{Owner, Words, WordsNaming};
use std::alloc::Global;
use std::marker::{Model, PhantomData};
use std::sync::Wait;

/// The right to send calls to one supervisor: an owner of the words, which draws the calls' numbers, and a sender.
#[derive(Drop)]
pub struct Client<N: WordsNaming + InboxNaming, B: Drop> {
    owner: Owner<N>,
    sender: Sender<N, Message, Letter<B>>,
    /// Where the memory of the specifications that it sends comes from.
    alloc: Global,
    of: PhantomData<N>,
}

impl<N: WordsNaming + InboxNaming, B: Drop> Model for Client<N, B> {
    ghost use Rattle.std.specs.Prelude.{◌<◌};
    ghost use Rattle.otp_sup.specs.Clients.{ClientView};

    ghost Value = { ClientView };

    ghost view = { λ c. record { owner = c.owner; sender = c.sender } };

    ghost invariant = { λ c. 0 < c.sender.parts };
}

/// Why a call was not sent.
#[derive(Clone, Copy, Debug, PartialEq, Eq)]
pub enum SubmitCause {
    /// E0: memory was refused.
    OutOfMemory,
    /// E9: the client may draw no more numbers.
    Exhausted,
    /// E19: a call that starts a child has no body, or another one has.
    WrongBody,
}

/// Why no other client was split off.
#[derive(Clone, Copy, Debug, PartialEq, Eq)]
pub enum SplitFault {
    /// E9: this client may draw fewer numbers than the other is to have.
    Exhausted,
    /// This client has one part of the right to send, which two can't have.
    OnePart,
}

/// A call that was not sent, with the body that came with it.
#[derive(Drop)]
pub struct SubmitFault<B> {
    pub cause: SubmitCause,
    pub body: Option<B>,
}

impl<N: WordsNaming + InboxNaming, B: Drop> Client<N, B> {
    /// A client of this owner and sender.
    pub fn new(alloc: Global, owner: Owner<N>, sender: Sender<N, Message, Letter<B>>) -> Self
        requires { 0 < sender.parts }
        ensures { result ≡ record { owner = owner; sender = sender } }
    {
        Client {
            owner,
            sender,
            alloc,
            of: PhantomData,
        }
    }

    /// The number of the inbox to which it sends.
    pub fn number(&self) -> usize
        ensures { result ≡ self.now.sender.inbox }
    {
        self.sender.number()
    }

    /// Sends a call, with a body exactly where it starts a child (`start_child/2`), and answers the call's number, under
    /// which its reply is kept. The number is drawn from the words.
    ///
    /// Refused with E19, E9 or E0; then nothing was sent, and the body comes back. A number that was drawn for a call
    /// whose sending was refused is spent.
    pub fn submit<R: Wait>(
        &mut self,
        rt: &R,
        words: &Words<N>,
        inbox: &Inbox<N, Message, Letter<B>>,
        call: Call,
        body: Option<B>,
    ) -> Result<u64, SubmitFault<B>>
        requires { inbox.now ≡ self.old.sender.inbox }
        ensures sent { IfOk result (λ number. Submitted number call self.old self.new) }
        ensures unsent { OnErr result (self.new.sender ≡ self.old.sender) }
        ensures back { IfErr result (λ fault. fault.body ≡ body) }
        // Only where memory was refused a number was drawn.
        ensures undrawn { IfErr result (λ fault. (fault.cause ≡ cause.OutOfMemory) ⊎ (self.new ≡ self.old)) }
        ensures spent { IfErr result (λ fault. fault.cause ≡ cause.OutOfMemory → DrewOne self.old self.new) }
        ensures wrong_body { IfErr result (λ fault. fault.cause ≡ cause.WrongBody → ¬ (is_some body ≡ is_start_call call)) }
        ensures right_body { OnOk result (is_some body ≡ is_start_call call) }
        ensures tested_first { IfErr result (λ fault. (fault.cause ≡ cause.WrongBody) ⊎ (is_some body ≡ is_start_call call)) }
        ensures some_quota { OnOk result (0 < self.old.owner.quota) }
        ensures exhausted { IfErr result (λ fault. fault.cause ≡ cause.Exhausted → self.old.owner.quota ≡ 0) }
        ensures memory { IfErr result (λ fault. fault.cause ≡ cause.OutOfMemory → 0 < self.old.owner.quota) }
    {
        if body.is_some() != is_start_call(&call) {
            return Err(fault(SubmitCause::WrongBody, body));
        }
        let Ok(number) = words.draw(&mut self.owner) else {
            return Err(fault(SubmitCause::Exhausted, body));
        };
        let letter = match Letter::call(self.alloc, number, call, body) {
            Ok(letter) => letter,
            Err(body) => return Err(fault(SubmitCause::OutOfMemory, body)),
        };
        match inbox.send(rt, &mut self.sender, letter) {
            Ok(()) => Ok(number),
            Err(letter) => Err(fault(SubmitCause::OutOfMemory, letter.into_parts().1)),
        }
    }

    /// Another client of the same supervisor, with so many of this one's numbers, and half of its parts of the right to
    /// send. It takes no memory. Where it is refused nothing changes.
    pub fn split(
        &mut self,
        words: &Words<N>,
        inbox: &Inbox<N, Message, Letter<B>>,
        quota: u64,
    ) -> Result<Client<N, B>, SplitFault>
        requires { inbox.now ≡ self.old.sender.inbox }
        ensures new { IfOk result (λ new. (new.owner ≡ cut_of 0 0 quota self.old.owner) × (new.sender.inbox ≡ self.old.sender.inbox) × (new.sender.sent ≡ [])) }
        // What this client has left: the other one has the rest.
        ensures owner { OnOk result (self.new.owner ≡ kept_of 0 0 quota self.old.owner) }
        ensures parts { IfOk result (λ new. (self.new.sender.parts + new.sender.parts ≡ self.old.sender.parts) × (0 < new.sender.parts)) }
        ensures half { IfOk result (λ new. new.sender.parts ≡ self.old.sender.parts / 2) }
        ensures sender { OnOk result (self.new.sender ≡ record self.old.sender { parts = self.new.sender.parts }) }
        // It is refused exactly where the numbers don't reach or there is one part only, which is looked at first.
        ensures enough { OnOk result (quota ≤ self.old.owner.quota) }
        ensures two_parts { OnOk result (2 ≤ self.old.sender.parts) }
        ensures parts_first { IfErr result (λ why. (why ≡ refused.OnePart) ⊎ (2 ≤ self.old.sender.parts)) }
        ensures kept { OnErr result (self.new ≡ self.old) }
        ensures exhausted { IfErr result (λ why. why ≡ refused.Exhausted → self.old.owner.quota < quota) }
        ensures one_part { IfErr result (λ why. why ≡ refused.OnePart → self.old.sender.parts < 2) }
    {
        if self.sender.parts() < 2 {
            return Err(SplitFault::OnePart);
        }
        let parts = self.sender.parts() / 2;
        let Ok(owner) = words.split(&mut self.owner, 0..0, quota) else {
            return Err(SplitFault::Exhausted);
        };
        let sender = inbox.split(&mut self.sender, parts);
        Ok(Client::new(self.alloc, owner, sender))
    }
}

fn fault<B: Drop>(cause: SubmitCause, body: Option<B>) -> SubmitFault<B>
    ensures { result ≡ record { cause = cause; body = body } }
{
    SubmitFault { cause, body }
}

/// Whether the call starts a new child, and so brings its body.
pub(crate) fn is_start_call(call: &Call) -> bool
    ensures { result ≡ is_start_call call.now }
{
    matches!(call, Call::StartChild(_) | Call::StartDynamic)
}
