//! A tree is opened: its parts without a name first, then the tree under a name. All memory is taken while the plans are only lent, so
//! that a refusal gives them back as they were.
ghost use Rattle.std.specs.Prelude.{◌≡◌, ◌+◌, ◌*◌, ◌<◌, ◌≤◌, ℕ, None, [], IfErr, IfOk, OnOk, length, is_some, true, vec_capacity};
ghost use Rattle.otp_spec.specs.declared.limits.TheConstants.{MAX_TABLES};
ghost use Rattle.otp_close.specs.Closes.{IsReached, all_senders};
ghost use Rattle.otp_close.specs.Partings.{schedulers_of};
ghost use Rattle.otp_run.specs.Gathers.{IsAll};
ghost use Rattle.otp_run.specs.Lists.{AllAt};
ghost use Rattle.otp_run.specs.Rule.{all_parts};
ghost use Rattle.otp_open.specs.Opens.{AreOpened, root_ticket, slots_of};
ghost use Rattle.otp_open.specs.Passes.{CanRead};
ghost use Rattle.otp_open.specs.Plans.{ArePlanned, HaveBodies, IsOpenFault};
ghost use Rattle.otp_open.specs.Readies.{AreReadyFor};

use otp_hand::{Hand, ROOT_NUMBER, ROOT_SLOT, TreeClient, TreeNaming};
use otp_inbox::UnnamedInbox;
use otp_job::{Body, Process, TableNo};
use otp_open::{
    Readied, Site, SystemFault, TablePlan, Unopened, find_lacking, make_hands, open_inboxes,
    ready_all, seat, slots_of,
};
use otp_run::RunQueue;
use otp_signals::OpenWords;
use otp_signals::counts::CountsPass;
use otp_sup::{Letter, Message, Sup, SupNaming};
use otp_system::{Growth, System};
use std::alloc::{AllocError, Global};

/// The parts of a tree, without a name.
#[derive(Drop)]
pub struct Parts<J: Drop, S: Drop> {
    pub(crate) words: OpenWords,
    pub(crate) inboxes: Vec<UnnamedInbox<Message, Letter<Body<J, S>>>>,
    pub(crate) outer: UnnamedInbox<Message, Letter<Body<J, S>>>,
    pub(crate) queue: RunQueue<J, S>,
    pub(crate) plans: Vec<TablePlan<J, S>>,
}

/// All that opening gives.
#[derive(Drop)]
pub struct Opened<N: TreeNaming, J: Drop, S: Drop> {
    pub system: System<N, J, S>,
    pub hands: Vec<Hand<N, J, S>>,
    pub client: TreeClient<N, Body<J, S>>,
    /// By which whoever opened the tree reads the counts of each supervisor, in the order of their numbers.
    pub passes: Vec<CountsPass>,
}

impl<J: Drop, S: Drop> Parts<J, S> {
    /// The parts of a tree of 1 to [`MAX_TABLES`] supervisors, the root first, for 1 to 8 hands. Where memory is refused the plans come
    /// back.
    pub fn open(
        alloc: Global,
        plans: Vec<TablePlan<J, S>>,
        hands: usize,
    ) -> Result<Parts<J, S>, Unopened<J, S>>
        requires tables { length plans.items ≤ MAX_TABLES }
        requires some { 0 < hands }
        requires few { hands ≤ all_parts }
        ensures tables { IfOk result (λ p. length p.inboxes.items ≡ length plans.items) }
        ensures slots { IfOk result (λ p. p.words.slots ≡ slots_of (length p.inboxes.items)) }
        ensures few { IfOk result (λ p. length p.inboxes.items ≤ MAX_TABLES) }
        ensures hands { IfOk result (λ p. length p.queue ≡ hands) }
        ensures plans { IfOk result (λ p. p.plans ≡ plans) }
        ensures fault { IfErr result (λ back. IsOpenFault plans.items back.fault) }
        ensures back { IfErr result (λ back. back.plans.items ≡ plans.items) }
    {
        let Ok(words) = OpenWords::open(alloc, slots_of(plans.len())) else {
            return Err(Unopened::for_memory(plans));
        };
        let Ok(inboxes) = open_inboxes(alloc, plans.len()) else {
            drop(words);
            return Err(Unopened::for_memory(plans));
        };
        let Ok(outer) = UnnamedInbox::open(alloc) else {
            drop(words);
            drop(inboxes);
            return Err(Unopened::for_memory(plans));
        };
        let Ok(queue) = RunQueue::open(alloc, hands) else {
            drop(words);
            drop(inboxes);
            drop(outer);
            return Err(Unopened::for_memory(plans));
        };
        Ok(Parts {
            words,
            inboxes,
            outer,
            queue,
            plans,
        })
    }
}

/// A tree that is ready to be opened: all that takes memory is there, and only the plans are lacking.
#[derive(Drop)]
struct ReadyTree<N: TreeNaming, J: Drop, S: Drop> {
    site: Site<N, J, S>,
    /// The room for the supervisors.
    sups: Vec<Sup<N, Body<J, S>>>,
    hands: Vec<Hand<N, J, S>>,
    client: TreeClient<N, Body<J, S>>,
    passes: Vec<CountsPass>,
}

/// The parts of a tree but its plans.
#[derive(Drop)]
struct Bare<J: Drop, S: Drop> {
    words: OpenWords,
    inboxes: Vec<UnnamedInbox<Message, Letter<Body<J, S>>>>,
    outer: UnnamedInbox<Message, Letter<Body<J, S>>>,
    queue: RunQueue<J, S>,
}

impl<J: Drop, S: Drop> Bare<J, S> {
    /// Takes all memory that a tree of these plans needs, with its hands and its first client.
    fn ready<N: TreeNaming>(
        self,
        alloc: Global,
        plans: &[TablePlan<J, S>],
    ) -> Result<ReadyTree<N, J, S>, AllocError>
        requires words { self.words.words ≡ N.words }
        requires inboxes { AllAt (λ k id. id ≡ N.inbox k) self.inboxes.items }
        requires as_many { length plans.now ≡ length self.inboxes.items }
        requires outer { self.outer ≡ N.inbox (length self.inboxes.items) }
        requires deques { AllAt (λ k id. id ≡ N.deque k) self.queue }
        requires slots { self.words.slots ≡ slots_of (length self.inboxes.items) }
        requires few { length self.inboxes.items ≤ MAX_TABLES }
        ensures places { IfOk result (λ r. AreReadyFor 0 plans.now r.site.places.items) }
        ensures outer { IfOk result (λ r. r.site.outer ≡ length plans.now) }
        ensures none { IfOk result (λ r. r.sups.items ≡ []) }
        ensures room { IfOk result (λ r. length plans.now ≤ vec_capacity r.sups) }
        ensures first { IfOk result (λ r. is_some r.client.waiter ≡ true) }
        ensures passes { IfOk result (λ r. CanRead (length self.inboxes.items) r.hands.items) }
        ensures hands { IfOk result (λ r. AreOpened (root_ticket (length self.inboxes.items)) (length self.queue) r.hands.items) }
        ensures complete { IfOk result (λ r. 0 < length self.queue → IsAll (schedulers_of r.hands.items) × IsReached (length self.inboxes.items) r.client (all_senders r.client r.hands.items)) }
        ensures own { IfOk result (λ r. length r.passes.items ≡ length self.inboxes.items) }
        ensures unasked { IfOk result (λ r. r.client.owner.posts ≡ []) }
    {
        let Bare {
            words,
            inboxes,
            outer,
            queue,
        } = self;
        let tables = inboxes.len();
        let (words, mut owner) = words.named::<N>();
        let viewer = words.viewer(&mut owner);
        let Readied {
            places,
            senders,
            mut passes,
        } = ready_all(alloc, &words, &mut owner, inboxes, plans)?;
        let (outer, waiter, sender) = outer.named::<N>(tables);
        let mut senders = seat(senders, sender)?;
        let site = Site {
            words,
            places,
            outer,
        };
        let schedulers = queue.named::<N>(alloc)?;
        let body = Body::Sup(TableNo::new(0));
        let Ok(process) = Process::new(alloc, ROOT_NUMBER, ROOT_SLOT, tables, body) else {
            return Err(AllocError);
        };
        let hands = make_hands(
            alloc,
            &site,
            schedulers,
            &mut senders,
            &mut passes,
            viewer,
            process,
        )?;
        let sups = Vec::with_capacity(alloc, plans.len())?;
        let client = TreeClient::first(owner, senders, waiter);
        Ok(ReadyTree {
            site,
            sups,
            hands,
            client,
            passes,
        })
    }
}

impl<J: Drop, S: Drop> Parts<J, S> {
    /// The plans alone.
    pub(crate) fn into_plans(self) -> Vec<TablePlan<J, S>>
        ensures { result ≡ self.plans }
    {
        let Parts {
            words,
            inboxes,
            outer,
            queue,
            plans,
        } = self;
        drop(words);
        drop(inboxes);
        drop(outer);
        drop(queue);
        plans
    }

    /// The tree under a name, with its hands and its first client. Where memory is refused, or a plan lacks a body, the plans come back.
    pub fn named<N: TreeNaming>(self, alloc: Global) -> Result<Opened<N, J, S>, Unopened<J, S>>
        requires words { self.words.words ≡ N.words }
        requires inboxes { AllAt (λ k id. id ≡ N.inbox k) self.inboxes.items }
        requires plans { ArePlanned N.plan self.plans.items }
        requires as_many { length self.plans.items ≡ length self.inboxes.items }
        requires outer { self.outer ≡ N.inbox (length self.inboxes.items) }
        requires deques { AllAt (λ k id. id ≡ N.deque k) self.queue }
        requires slots { self.words.slots ≡ slots_of (length self.inboxes.items) }
        requires few { length self.inboxes.items ≤ MAX_TABLES }
        ensures first { IfOk result (λ o. is_some o.client.waiter ≡ true) }
        ensures tables { IfOk result (λ o. o.system.tables ≡ length self.inboxes.items) }
        ensures bodies { OnOk result (HaveBodies self.plans.items) }
        ensures fault { IfErr result (λ back. IsOpenFault self.plans.items back.fault) }
        ensures back { IfErr result (λ back. back.plans.items ≡ self.plans.items) }
        ensures passes { IfOk result (λ o. CanRead (length self.inboxes.items) o.hands.items) }
        // There are as many hands as were asked for, in the order of their schedulers, and the first has put the root's process: it
        // has the number and the slot for which the client stops it.
        ensures hands { IfOk result (λ o. AreOpened (root_ticket (length self.inboxes.items)) (length self.queue) o.hands.items) }
        // All parts are there, so that it can be closed again.
        ensures complete { IfOk result (λ o. 0 < length self.queue → IsAll (schedulers_of o.hands.items) × IsReached o.system.tables o.client (all_senders o.client o.hands.items)) }
        ensures own { IfOk result (λ o. length o.passes.items ≡ length self.inboxes.items) }
        // Nobody was asked to stop.
        ensures unasked { IfOk result (λ o. o.client.owner.posts ≡ []) }
    {
        if let Some(table) = find_lacking(self.plans.as_slice()) {
            return Err(Unopened {
                fault: SystemFault::NoBody { table },
                plans: self.into_plans(),
            });
        }
        let Parts {
            words,
            inboxes,
            outer,
            queue,
            plans,
        } = self;
        let bare = Bare {
            words,
            inboxes,
            outer,
            queue,
        };
        let Ok(ready) = bare.ready::<N>(alloc, plans.as_slice()) else {
            return Err(Unopened::for_memory(plans));
        };
        let ReadyTree {
            site,
            sups,
            hands,
            client,
            passes,
        } = ready;
        Ok(Opened {
            system: System::of_parts(site.open(alloc, plans, sups), None),
            hands,
            client,
            passes,
        })
    }

    /// Opens the tree with so many supervisors at first; to the other places some can be added ([`add_tree`](crate::add_tree)).
    pub fn named_growing<N: TreeNaming>(
        self,
        alloc: Global,
        opened: usize,
    ) -> Result<Opened<N, J, S>, Unopened<J, S>>
        requires words { self.words.words ≡ N.words }
        requires inboxes { AllAt (λ k id. id ≡ N.inbox k) self.inboxes.items }
        requires plans { ArePlanned N.plan self.plans.items }
        requires free { (k : ℕ) → opened ≤ k → N.plan k ≡ None }
        requires as_many { length self.plans.items ≡ length self.inboxes.items }
        requires outer { self.outer ≡ N.inbox (length self.inboxes.items) }
        requires deques { AllAt (λ k id. id ≡ N.deque k) self.queue }
        requires slots { self.words.slots ≡ slots_of (length self.inboxes.items) }
        requires few { length self.inboxes.items ≤ MAX_TABLES }
        ensures first { IfOk result (λ o. is_some o.client.waiter ≡ true) }
        ensures tables { IfOk result (λ o. o.system.tables ≡ length self.inboxes.items) }
        ensures bodies { OnOk result (HaveBodies self.plans.items) }
        ensures fault { IfErr result (λ back. IsOpenFault self.plans.items back.fault) }
        ensures back { IfErr result (λ back. back.plans.items ≡ self.plans.items) }
        ensures passes { IfOk result (λ o. CanRead (length self.inboxes.items) o.hands.items) }
        ensures hands { IfOk result (λ o. AreOpened (root_ticket (length self.inboxes.items)) (length self.queue) o.hands.items) }
        ensures complete { IfOk result (λ o. 0 < length self.queue → IsAll (schedulers_of o.hands.items) × IsReached o.system.tables o.client (all_senders o.client o.hands.items)) }
        ensures own { IfOk result (λ o. length o.passes.items ≡ length self.inboxes.items) }
        ensures unasked { IfOk result (λ o. o.client.owner.posts ≡ []) }
    {
        let Ok(growth) = Growth::open(alloc, opened) else {
            return Err(Unopened::for_memory(self.into_plans()));
        };
        match self.named::<N>(alloc) {
            Ok(all) => {
                let Opened {
                    system,
                    hands,
                    client,
                    passes,
                } = all;
                Ok(Opened {
                    system: growing(system, growth),
                    hands,
                    client,
                    passes,
                })
            }
            Err(back) => {
                drop(growth);
                Err(back)
            }
        }
    }
}

/// This tree, once supervisors can be added to it.
fn growing<N: SupNaming, J: Drop, S: Drop>(
    system: System<N, J, S>,
    growth: Growth<N>,
) -> System<N, J, S>
    ensures { result ≡ system }
{
    let (shared, none) = system.into_parts();
    drop(none);
    System::of_parts(shared, Some(growth))
}
