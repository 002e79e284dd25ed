//! A place is made ready for each supervisor of a tree. The plans are only lent for it, so that they are whole where memory is refused;
//! what follows moves them and takes none.
ghost use Rattle.std.specs.Prelude.{◌≡◌, ◌+◌, ◌<◌, ◌≤◌, ◌++◌, ◌∷◌, [], Contains, IfOk, OnOk, length};
ghost use Rattle.otp_signals.specs.Words.{AreFew};
ghost use Rattle.otp_spec.specs.declared.limits.TheConstants.{MAX_TABLES};
ghost use Rattle.otp_hand.specs.declared.client.TheConstants.{ROOT_SLOT};
ghost use Rattle.otp_inbox.specs.Tokens.{first_sender};
ghost use Rattle.otp_run.specs.Lists.{AllAt};
ghost use Rattle.otp_signals.specs.Lists.{EachBetween, StayBelow, StayFrom};
ghost use Rattle.otp_open.specs.Opens.{first_slot, slots_of};
ghost use Rattle.otp_open.specs.Readies.{AreReadyFor, IsReadyFor, first_counts};

use crate::opening::SLOTS;
use crate::plan::TablePlan;
use otp_hand::places::{keep, next_of};
use otp_inbox::{Inbox, Sender, Taker, UnnamedInbox};
use otp_job::Body;
use otp_rules::CountsNow;
use otp_signals::counts::{CountsPass, Publisher};
use otp_signals::{Owner, Words};
use otp_spec::SupSpec;
use otp_sup::{Bodies, Letter, Message, SupNaming};
use std::alloc::{AllocError, Global};

/// How many numbers each supervisor may draw.
const TABLE_QUOTA: u64 = 1 << 55;

/// So many inboxes.
pub fn open_inboxes<B: Drop>(
    alloc: Global,
    count: usize,
) -> Result<Vec<UnnamedInbox<Message, Letter<B>>>, AllocError>
    ensures { IfOk result (λ inboxes. length inboxes.items ≡ count) }
{
    let mut inboxes = Vec::new(alloc);
    for _ in 0..count {
        let Ok(inbox) = UnnamedInbox::open(alloc) else {
            drop(inboxes);
            return Err(AllocError);
        };
        let Ok(()) = keep(&mut inboxes, inbox) else {
            drop(inboxes);
            return Err(AllocError);
        };
    }
    Ok(inboxes)
}

/// A place that is ready for its supervisor: all of that one which takes memory, but the plan.
#[derive(Drop)]
pub struct ReadyPlace<N: SupNaming, J: Drop, S: Drop> {
    pub inbox: Inbox<N, Message, Letter<Body<J, S>>>,
    pub taker: Taker<N, Message, Letter<Body<J, S>>>,
    pub seat: Owner<N>,
    /// What the supervisor counts before its first event is published already.
    pub counts: Publisher,
    /// The memory for the bodies of the plan.
    pub space: Bodies<Body<J, S>>,
}

/// A ready place, the first sender to it, and the first pass to its counts.
#[derive(Drop)]
struct ReadyOne<N: SupNaming, J: Drop, S: Drop> {
    place: ReadyPlace<N, J, S>,
    sender: Sender<N, Message, Letter<Body<J, S>>>,
    pass: CountsPass,
}

/// What count_children would answer of a supervisor that was never opened.
fn first_counts(supervisor: &SupSpec) -> CountsNow
    ensures counts { result ≡ first_counts supervisor.now }
    ensures few { AreFew result }
{
    CountsNow {
        specs: if supervisor.flags().strategy.is_simple() {
            1
        } else {
            0
        },
        active: 0,
        supervisors: 0,
        workers: 0,
    }
}

/// What is published of a supervisor that was never opened, and the first pass to it.
fn publish(alloc: Global, supervisor: &SupSpec) -> Result<(Publisher, CountsPass), AllocError>
    ensures { IfOk result (λ r. r.0.published ≡ first_counts supervisor.now ∷ []) }
{
    let mut counts = Publisher::open(alloc, first_counts(supervisor))?;
    let pass = counts.pass()?;
    Ok((counts, pass))
}

/// The place with this number, ready for this plan. Its seat is cut off the owner.
fn ready_one<N: SupNaming, J: Drop, S: Drop>(
    alloc: Global,
    words: &Words<N>,
    owner: &mut Owner<N>,
    inbox: UnnamedInbox<Message, Letter<Body<J, S>>>,
    number: usize,
    plan: &TablePlan<J, S>,
) -> Result<ReadyOne<N, J, S>, AllocError>
    requires named { inbox ≡ N.inbox number }
    requires few { number < MAX_TABLES }
    requires slots { EachBetween (first_slot number) (first_slot (number + 1)) (Contains owner.old.slots) }
    requires unposted { owner.old.posts ≡ [] }
    ensures ready { IfOk result (λ one. IsReadyFor number plan.now one.place) }
    ensures sender { IfOk result (λ one. one.sender ≡ first_sender number) }
    ensures lower { OnOk result (StayBelow (first_slot number) owner.old.slots owner.new.slots) }
    ensures upper { OnOk result (StayFrom (first_slot (number + 1)) owner.old.slots owner.new.slots) }
    ensures posts { OnOk result (owner.new.posts ≡ []) }
{
    let Ok(space) = Bodies::with_room(alloc, plan.bodies.len()) else {
        drop(inbox);
        return Err(AllocError);
    };
    let Ok((counts, pass)) = publish(alloc, &plan.supervisor) else {
        drop(inbox);
        drop(space);
        return Err(AllocError);
    };
    let first = 1 + SLOTS * number;
    let Ok(seat) = words.split(owner, first..first + SLOTS, TABLE_QUOTA) else {
        drop(inbox);
        drop(space);
        drop(counts);
        drop(pass);
        return Err(AllocError);
    };
    let (inbox, taker, sender) = inbox.named::<N>(number);
    let place = ReadyPlace {
        inbox,
        taker,
        seat,
        counts,
        space,
    };
    Ok(ReadyOne {
        place,
        sender,
        pass,
    })
}

/// All places of a tree, the first sender to each, and the first pass to the counts of each.
#[derive(Drop)]
pub struct Readied<N: SupNaming, J: Drop, S: Drop> {
    pub places: Vec<ReadyPlace<N, J, S>>,
    pub senders: Vec<Sender<N, Message, Letter<Body<J, S>>>>,
    pub passes: Vec<CountsPass>,
}

impl<N: SupNaming, J: Drop, S: Drop> Readied<N, J, S> {
    /// None so far.
    fn new(alloc: Global) -> Self
        ensures places { result.places.items ≡ [] }
        ensures senders { result.senders.items ≡ [] }
        ensures passes { result.passes.items ≡ [] }
    {
        Readied {
            places: Vec::new(alloc),
            senders: Vec::new(alloc),
            passes: Vec::new(alloc),
        }
    }

    /// Puts one behind those that are there. Where memory is refused it is dropped.
    fn keep(&mut self, one: ReadyOne<N, J, S>) -> Result<(), AllocError>
        ensures places { OnOk result (self.new.places.items ≡ self.old.places.items ++ one.place ∷ []) }
        ensures senders { OnOk result (self.new.senders.items ≡ self.old.senders.items ++ one.sender ∷ []) }
        ensures passes { OnOk result (self.new.passes.items ≡ self.old.passes.items ++ one.pass ∷ []) }
    {
        let ReadyOne {
            place,
            sender,
            pass,
        } = one;
        let Ok(()) = keep(&mut self.places, place) else {
            drop(sender);
            drop(pass);
            return Err(AllocError);
        };
        let Ok(()) = keep(&mut self.senders, sender) else {
            drop(pass);
            return Err(AllocError);
        };
        keep(&mut self.passes, pass)
    }
}

/// A ready place for each of these plans, each under the number of its place in the list. Their seats are cut off the owner.
pub fn ready_all<N: SupNaming, J: Drop, S: Drop>(
    alloc: Global,
    words: &Words<N>,
    owner: &mut Owner<N>,
    inboxes: Vec<UnnamedInbox<Message, Letter<Body<J, S>>>>,
    plans: &[TablePlan<J, S>],
) -> Result<Readied<N, J, S>, AllocError>
    requires named { AllAt (λ k id. id ≡ N.inbox k) inboxes.items }
    requires as_many { length plans.now ≡ length inboxes.items }
    requires few { length inboxes.items ≤ MAX_TABLES }
    requires slots { EachBetween 0 (slots_of (length inboxes.items)) (Contains owner.old.slots) }
    requires unposted { owner.old.posts ≡ [] }
    ensures places { IfOk result (λ r. AreReadyFor 0 plans.now r.places.items) }
    ensures many { IfOk result (λ r. length r.places.items ≡ length inboxes.items) }
    ensures senders { IfOk result (λ r. AllAt (λ k s. s ≡ first_sender k) r.senders.items) }
    ensures count { IfOk result (λ r. length r.senders.items ≡ length inboxes.items) }
    ensures passes { IfOk result (λ r. length r.passes.items ≡ length inboxes.items) }
    ensures root { OnOk result (Contains owner.new.slots ROOT_SLOT) }
    ensures posts { OnOk result (owner.new.posts ≡ []) }
{
    let mut all = Readied::new(alloc);
    let mut inboxes = inboxes.into_iter();
    for number in 0..plans.len() {
        let inbox = next_of(&mut inboxes);
        let Ok(one) = ready_one(alloc, words, owner, inbox, number, &plans[number]) else {
            drop(inboxes);
            drop(all);
            return Err(AllocError);
        };
        let Ok(()) = all.keep(one) else {
            drop(inboxes);
            drop(all);
            return Err(AllocError);
        };
    }
    drop(inboxes);
    Ok(all)
}
