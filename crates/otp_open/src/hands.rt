//! A hand is made for each scheduler, with a sender to each supervisor and a pass to the counts of each.
ghost use Rattle.std.specs.Prelude.{◌≡◌, ℕ, ◌+◌, ◌<◌, IfOk, OnOk, IfSome, Some, length, map};
ghost use Rattle.otp_inbox.specs.Tokens.{first_sender};
ghost use Rattle.otp_job.specs.Processes.{nested_table_of};
ghost use Rattle.otp_run.specs.Lists.{AllAt};
ghost use Rattle.otp_open.specs.Opens.{AreOpened, HasRootOnly, IsIdle, IsOpened};
ghost use Rattle.otp_hand.specs.Begun.{starts_credited};
ghost use Rattle.otp_hand.specs.Ended.{ends_sent};
ghost use Rattle.otp_hand.specs.Hands.{senders_of};
ghost use Rattle.otp_hand.specs.Sendings.{parts_at, parts_to};
ghost use Rattle.otp_hand.specs.Standings.{AreSplit};
ghost use Rattle.otp_open.specs.Passes.{CanRead, IsFresh};

use crate::opening::Site;
use crate::passes::split_all;
use otp_hand::places::keep;
use otp_hand::waiting::{Around, Resting, Waiting};
use otp_hand::{Hand, Runner, Senders, TreeNaming};
use otp_inbox::{InboxNaming, Sender};
use otp_job::{Body, Process};
use otp_run::{RunNaming, Scheduler};
use otp_signals::Viewer;
use otp_signals::counts::CountsPass;
use otp_sup::{Letter, Message, SupNaming};
use otp_tally::Tally;
use std::alloc::{AllocError, Global};

/// The first sender to each supervisor, and the one that sends to whoever opened the tree.
pub fn seat<N: InboxNaming, B: Drop>(
    mut senders: Vec<Sender<N, Message, Letter<B>>>,
    outer: Sender<N, Message, Letter<B>>,
) -> Result<Senders<N, B>, AllocError>
    requires seated { AllAt (λ k s. s ≡ first_sender k) senders.items }
    requires outer { outer ≡ first_sender (length senders.items) }
    ensures starts { IfOk result (λ all. starts_credited all ≡ 0) }
    ensures ends { IfOk result (λ all. ends_sent all ≡ 0) }
    ensures firsts { IfOk result (λ all. AllAt (λ k s. s ≡ first_sender k) all) }
    ensures many { IfOk result (λ all. length all ≡ length senders.items + 1) }
{
    let Ok(()) = keep(&mut senders, outer) else {
        drop(senders);
        return Err(AllocError);
    };
    Ok(Senders { list: senders })
}

/// Puts the root's process, in which the supervisor with number 0 runs, into the deque of the first scheduler.
fn begin<N: RunNaming, J: Drop, S: Drop>(
    schedulers: &mut [Scheduler<N, J, S>],
    root: Process<J, S>,
) -> Result<(), AllocError>
    requires idle { AllAt (IsIdle (length schedulers.old)) schedulers.old }
    requires root { nested_table_of root.body ≡ Some 0 }
    ensures begun { OnOk result (AllAt (IsOpened root.ticket (length schedulers.old)) schedulers.new) }
    ensures many { length schedulers.new ≡ length schedulers.old }
{
    if schedulers.is_empty() {
        return Ok(());
    }
    match schedulers[0].put(root) {
        Ok(()) => Ok(()),
        Err(_) => Err(AllocError),
    }
}

/// Calls [`begin`] with a whole list: of a list that was lent as a slice in the midst of a function the prover knows nothing after.
fn begin_first<N: RunNaming, J: Drop, S: Drop>(
    schedulers: &mut Vec<Scheduler<N, J, S>>,
    root: Process<J, S>,
) -> Result<(), AllocError>
    requires idle { AllAt (IsIdle (length schedulers.old.items)) schedulers.old.items }
    requires root { nested_table_of root.body ≡ Some 0 }
    ensures begun { OnOk result (AllAt (IsOpened root.ticket (length schedulers.old.items)) schedulers.new.items) }
    ensures many { length schedulers.new.items ≡ length schedulers.old.items }
{
    begin(schedulers, root)
}

/// A sender to each supervisor and to whoever opened the tree, with so many parts of the right to send. None where
/// not more are there.
fn split_senders<N: SupNaming, J: Drop, S: Drop>(
    alloc: Global,
    site: &Site<N, J, S>,
    senders: &mut Senders<N, Body<J, S>>,
    parts: u64,
) -> Result<Option<Senders<N, Body<J, S>>>, AllocError>
    requires { 0 < parts }
    ensures len { length senders.new ≡ length senders.old }
    // What the new ones have of the right to send was split off the others, to each of which there is a new one.
    ensures split { IfOk result (λ split. IfSome split (λ s. AreSplit s senders.old senders.new)) }
    ensures reach { IfOk result (λ split. IfSome split (λ s. length s ≡ length senders.old)) }
    // The new ones were credited with nothing and sent no end, and the others have what they had.
    ensures none { IfOk result (λ split. IfSome split (λ s. starts_credited s ≡ 0)) }
    ensures none_sent { IfOk result (λ split. IfSome split (λ s. ends_sent s ≡ 0)) }
    ensures starts { starts_credited senders.new ≡ starts_credited senders.old }
    ensures ends { ends_sent senders.new ≡ ends_sent senders.old }
{
    let mut list = Vec::new(alloc);
    for place in 0..senders.len() {
        let inbox = site.inbox_of(place);
        if inbox.number() != place {
            drop(list);
            return Ok(None);
        }
        let Some(sender) = senders.split_at(inbox, parts) else {
            drop(list);
            return Ok(None);
        };
        let Ok(()) = keep(&mut list, sender) else {
            drop(list);
            return Err(AllocError);
        };
    }
    Ok(Some(Senders { list }))
}

/// A hand of a scheduler, with a viewer, a sender to each supervisor and a pass to the counts of each, which are split off.
fn make_hand<N: TreeNaming, J: Drop, S: Drop>(
    alloc: Global,
    site: &Site<N, J, S>,
    scheduler: Scheduler<N, J, S>,
    senders: &mut Senders<N, Body<J, S>>,
    passes: &mut Vec<CountsPass>,
    viewer: Viewer<N>,
) -> Result<Hand<N, J, S>, AllocError>
    requires { HasRootOnly scheduler }
    ensures scheduler { IfOk result (λ hand. hand.scheduler ≡ scheduler) }
    ensures fresh { IfOk result (λ hand. IsFresh passes.old.items hand) }
    ensures same { OnOk result (passes.new.items ≡ passes.old.items) }
    ensures split { IfOk result (λ hand. AreSplit hand.senders senders.old senders.new) }
    ensures reach { IfOk result (λ hand. length hand.senders ≡ length senders.old) }
    ensures len { length senders.new ≡ length senders.old }
    ensures starts { starts_credited senders.new ≡ starts_credited senders.old }
    ensures ends { ends_sent senders.new ≡ ends_sent senders.old }
{
    let Ok(Some(senders)) = split_senders(alloc, site, senders, 1) else {
        drop(scheduler);
        drop(viewer);
        return Err(AllocError);
    };
    let Ok(passes) = split_all(alloc, passes) else {
        drop(scheduler);
        drop(viewer);
        drop(senders);
        return Err(AllocError);
    };
    let runner = Runner {
        scheduler,
        viewer,
        turning: None,
        waiting: Waiting::new(alloc),
        resting: Resting::new(alloc),
        unsent: None,
        refusals: Tally::new(),
        around: Around::new(),
        alloc,
    };
    Ok(Hand {
        runner,
        senders,
        passes,
    })
}

/// A hand for each scheduler. The first has the root's process.
pub fn make_hands<N: TreeNaming, J: Drop, S: Drop>(
    alloc: Global,
    site: &Site<N, J, S>,
    schedulers: Vec<Scheduler<N, J, S>>,
    senders: &mut Senders<N, Body<J, S>>,
    passes: &mut Vec<CountsPass>,
    mut viewer: Viewer<N>,
    root: Process<J, S>,
) -> Result<Vec<Hand<N, J, S>>, AllocError>
    requires idle { AllAt (IsIdle (length schedulers.items)) schedulers.items }
    // The root's process runs the supervisor with number 0.
    requires root { nested_table_of root.body ≡ Some 0 }
    ensures opened { IfOk result (λ hands. AreOpened root.ticket (length schedulers.items) hands.items) }
    ensures hands { IfOk result (λ hands. CanRead (length passes.old.items) hands.items) }
    ensures same { OnOk result (passes.new.items ≡ passes.old.items) }
    // What all hands have of the right to send was split off these senders, and each hand reaches as far as they do.
    ensures split { IfOk result (λ hands. (k : ℕ) → parts_at k senders.new + parts_to k (map senders_of hands.items) ≡ parts_at k senders.old) }
    ensures reach { IfOk result (λ hands. AllAt (λ _ h. length (senders_of h) ≡ length senders.old) hands.items) }
    ensures len { length senders.new ≡ length senders.old }
    ensures starts { starts_credited senders.new ≡ starts_credited senders.old }
    ensures ends { ends_sent senders.new ≡ ends_sent senders.old }
{
    let mut schedulers = schedulers;
    begin_first(&mut schedulers, root)?;
    let mut hands = Vec::new(alloc);
    for scheduler in schedulers {
        let own = site.words.split_viewer(&mut viewer);
        let hand = make_hand(alloc, site, scheduler, senders, passes, own)?;
        keep(&mut hands, hand)?;
    }
    Ok(hands)
}
