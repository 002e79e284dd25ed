//! A tree is taken apart, once all its hands and its client are back.
ghost use Rattle.std.specs.Prelude.{◌≡◌, ◌+◌, ◌<◌, ◌≤◌, ◌∷◌, [], All, Err, IfErr, IfOk, IfSome, Some, length, map, sum_by, vec_capacity};
ghost use Rattle.otp_inbox.specs.Lists.{AsOften, EachInOrder};
ghost use Rattle.otp_inbox.specs.Tokens.{all_sent, sent_lists};
ghost use Rattle.otp_rules.specs.Needs.{numbers_of};
ghost use Rattle.otp_run.specs.Lists.{AllAt};
ghost use Rattle.otp_signals.specs.Lists.{AllIn, NoneInBoth};
ghost use Rattle.otp_close.specs.Totals.{HasAllStarts, starts_of, unsent_of, HasAllEnds, HasHeard, ends_of};
ghost use Rattle.otp_hand.specs.Begun.{starts_credited};
ghost use Rattle.otp_hand.specs.Ended.{ends_sent};
ghost use Rattle.otp_close.specs.Closes.{AreApart, HasTables, IsFreeFrom, HasBegun, HasTold, HaveBegun, IsComplete, IsIntact, IsMismatchOnly, IsMissingOnly, IsReached, IsRefusalOf, IsReportOf, NoneMissing, kept_in, report_in};
ghost use Rattle.otp_close.specs.Closings.{IsReportFrom};
ghost use Rattle.otp_bodies.specs.Messages.{items_in};
ghost use Rattle.otp_close.specs.Leavings.{AreAccounted, AreInOrder, HasCome, HasUnsent, HaveCome, IsLast, IsLastInOrder, line_of, lists_at};
ghost use Rattle.otp_close.specs.Tables.{AreOfTables, IsOfTable, shares_at};
ghost use Rattle.otp_hand.specs.Standings.{standings};
ghost use Rattle.otp_hand.specs.Sendings.{sent_at};
ghost use Rattle.otp_close.specs.Settlings.{AreReady, IsLoose, IsReady, held_in, senders_in};
ghost use Rattle.otp_close.specs.Tellings.{AreSo};
ghost use Rattle.otp_sup.specs.Plans.{AreAllPlanned, IsBegunBy};

use crate::complete::is_reached;
use crate::joining::{Joined, join_all};
use crate::parting::{Gathered, HandsFault, gather_hands};
use crate::report::{Mismatch, Report, TableReport};
use crate::rooms::LeftRoom;
use crate::settling::settle;
use crate::spares::without_spares;
use crate::unlocking::{Loose, Unready, loosen};
use otp_hand::places::next_of;
use otp_hand::{Hand, Shared, TreeClient, TreeNaming};
use otp_inbox::Sender;
use otp_job::Body;
use otp_run::LiveTotal;
use otp_signals::{Owner, Words};
use otp_sup::{Displaced, Letter, Message, SupNaming, SupParts, Unlocked};
use std::alloc::Global;
use std::sync::Wait;

/// Why a tree has no report, or one that tells of a mismatch. `K` is what comes back where nothing was taken apart: the
/// whole tree, or nothing where it can't leave the call.
#[derive(Drop)]
pub enum CloseFault<J: Drop, S: Drop, K: Drop> {
    /// E0: memory was refused.
    OutOfMemory(K),
    /// E20: a hand is missing or another tree's, or the hands aren't in the order in which the tree was opened with them,
    /// or the client isn't the one that it was opened with.
    Missing(K),
    /// A supervisor's lock holds another one's table, as the value shows. This doesn't happen, since each is opened with its own
    /// and nothing moves them; but what lies under a lock is known by its type alone, which doesn't say whose it is.
    Misplaced(K, Displaced),
    /// E17: a supervisor was told an end of another that isn't the one that the other's own history gives, as far as that is
    /// stored ([`Report::find_mismatch`]).
    Mismatch(Mismatch, Report<J, S>),
}

impl<J: Drop, S: Drop, K: Drop> CloseFault<J, S, K> {
    /// The fault without what comes back, which is dropped.
    pub fn without_tree(self) -> CloseFault<J, S, ()>
        ensures report { report_in (Err result) ≡ report_in (Err self) }
        ensures mismatch { IsMismatchOnly self → IsMismatchOnly result }
        ensures missing { NoneMissing self → NoneMissing result }
    {
        match self {
            CloseFault::OutOfMemory(_) => CloseFault::OutOfMemory(()),
            CloseFault::Missing(_) => CloseFault::Missing(()),
            CloseFault::Misplaced(_, found) => CloseFault::Misplaced((), found),
            CloseFault::Mismatch(mismatch, report) => CloseFault::Mismatch(mismatch, report),
        }
    }
}

/// Why nothing was taken apart.
#[derive(Clone, Copy, Debug, PartialEq, Eq)]
pub(crate) enum Refusal {
    OutOfMemory,
    Missing,
    Misplaced(Displaced),
}

/// A tree that was not taken apart, as it was.
#[derive(Drop)]
pub struct Intact<N: TreeNaming, J: Drop, S: Drop> {
    pub shared: Shared<N, J, S>,
    pub hands: Vec<Hand<N, J, S>>,
    pub client: TreeClient<N, Body<J, S>>,
}

/// Takes the tree apart, and reports what it was, with what is left in each inbox. So many of its places, the first, are known to have
/// a supervisor; no other had a plan when the tree got its name, and those that did nothing are left out.
///
/// Of each supervisor stands what [`Table::keeps_rules`](otp_sup::Table::keeps_rules) says; and no process number is a child's in
/// two supervisors (`apart`), since each one's seat comes home to the client's.
///
/// What began and what ended adds up. As many processes began as starts were sent, and the root's (`starts`). As many ended as
/// notes of ends were made (`ends`): a supervisor took the note or left it, or whoever opened the tree did, or a hand had it still
/// to send.
///
/// # Errors
///
/// [`CloseFault::OutOfMemory`] (E0), [`CloseFault::Missing`] (E20) and [`CloseFault::Misplaced`] are found before
/// anything is taken apart; the tree, all hands and the client come back as they were. [`CloseFault::Mismatch`] (E17)
/// has the report.
pub fn close<N: TreeNaming, J: Drop, S: Drop, R: Wait>(
    rt: &R,
    alloc: Global,
    shared: Shared<N, J, S>,
    hands: Vec<Hand<N, J, S>>,
    client: TreeClient<N, Body<J, S>>,
    known: usize,
) -> Result<Report<J, S>, CloseFault<J, S, Intact<N, J, S>>>
    requires { IsFreeFrom N.plan shared.tables known }
    // What the report says of these parts, where there is one, also with a mismatch.
    ensures report { IfSome (report_in result) (IsReportFrom N.plan shared hands.items client) }
    // Each end that a supervisor was told of another is one that the other's history gives.
    ensures told { IfOk result (λ report. AreSo report.tables.items) }
    ensures mismatch { IfErr result IsMismatchOnly }
    ensures missing { IfErr result (IsMissingOnly (IsComplete shared hands.items client)) }
    ensures back { IfErr result (λ fault. IfSome (kept_in fault) (IsIntact shared hands.items client)) }
{
    if !is_reached(shared.tables(), hands.as_slice(), &client) {
        return Err(refuse(Refusal::Missing, shared, hands, client));
    }
    let loose = match loosen(alloc, shared, hands.as_slice(), &client) {
        Ok(loose) => loose,
        Err(Unready { cause, shared }) => return Err(refuse(cause, shared, hands, client)),
    };
    match gather_hands(alloc, hands) {
        Ok(gathered) => {
            let report = report_of(rt, loose, gathered, client);
            judge(without_spares(report, known))
        }
        Err(HandsFault { cause, hands }) => Err(refuse(cause, loose.lock(), hands, client)),
    }
}

/// Closes the tree ([`close`]), once the processes that wait were given back to the run queue. Where it can't be closed it is dropped.
pub fn finish<N: TreeNaming, J: Drop, S: Drop, R: Wait>(
    rt: &R,
    alloc: Global,
    shared: Shared<N, J, S>,
    hands: Vec<Hand<N, J, S>>,
    client: TreeClient<N, Body<J, S>>,
    known: usize,
) -> Result<Report<J, S>, CloseFault<J, S, ()>>
    requires { IsFreeFrom N.plan shared.tables known }
    ensures whole { IfOk result (λ report. IsReportOf (length report.tables.items) report) }
    ensures count { IfOk result (λ report. HasTables N.plan shared.tables (length report.tables.items)) }
    ensures report { AreAllPlanned N.plan shared.tables → IfOk result (IsReportOf shared.tables) }
    ensures plans { IfSome (report_in result) (λ report. HaveBegun N.plan report.tables.items) }
    ensures mismatch { IfErr result IsMismatchOnly }
    // Of a tree that is whole no part is said to be missing.
    ensures missing { IsComplete shared hands.items client → IfErr result NoneMissing }
{
    let mut hands = hands;
    rouse_all(&mut hands);
    match close(rt, alloc, shared, hands, client, known) {
        Ok(report) => Ok(report),
        Err(fault) => Err(fault.without_tree()),
    }
}

/// Gives the processes that wait back to the run queue.
fn rouse_all<N: TreeNaming, J: Drop, S: Drop>(hands: &mut Vec<Hand<N, J, S>>)
    ensures { standings hands.new.items ≡ standings hands.old.items }
{
    for place in 0..hands.len() {
        hands[place].rouse();
    }
}

/// Takes all supervisors apart, and empties all inboxes.
fn report_of<N: SupNaming, J: Drop, S: Drop, R: Wait>(
    rt: &R,
    loose: Loose<N, J, S>,
    gathered: Gathered<N, J, S>,
    client: TreeClient<N, Body<J, S>>,
) -> Report<J, S>
    requires loose { IsLoose client (client.senders ∷ map senders_in gathered.rests.items) loose }
    requires begun { gathered.total.begun ≡ 1 + sum_by starts_credited (map senders_in gathered.rests.items) }
    requires ended { gathered.total.ended ≡ sum_by ends_sent (map senders_in gathered.rests.items) + sum_by held_in gathered.rests.items }
    requires reached { IsReached (length loose.sups.items) client (client.senders ∷ map senders_in gathered.rests.items) }
    ensures count { length result.tables.items ≡ length loose.sups.items }
    ensures plans { HaveBegun N.plan result.tables.items }
    ensures begins { All HasBegun result.tables.items }
    ensures shown { All HasTold result.tables.items }
    ensures apart { AreApart result.tables.items }
    ensures left { AreAccounted (client.senders ∷ map senders_in gathered.rests.items) result.tables.items }
    ensures order { AreInOrder (client.senders ∷ map senders_in gathered.rests.items) result.tables.items }
    ensures come { HaveCome (client.senders ∷ map senders_in gathered.rests.items) result.tables.items }
    ensures last_order { IsLastInOrder (length loose.sups.items) (client.senders ∷ map senders_in gathered.rests.items) client.waiter result.last.items }
    ensures last { IsLast (length loose.sups.items) (client.senders ∷ map senders_in gathered.rests.items) client.waiter result.last.items }
    ensures unsent { All HasUnsent result.tables.items }
    ensures tables { AreOfTables N.plan (client.senders ∷ map senders_in gathered.rests.items) result.tables.items }
    ensures starts { HasAllStarts result }
    ensures ends { HasAllEnds result }
    ensures heard { HasHeard client.waiter result.heard }
    ensures held { result.held ≡ sum_by held_in gathered.rests.items }
    ensures live { result.live ≡ gathered.total.live }
    ensures begun { result.begun ≡ gathered.total.begun }
    ensures ended { result.ended ≡ gathered.total.ended }
    ensures processes { result.processes ≡ gathered.total.left }
{
    let Loose {
        words,
        sups,
        outer,
        rooms,
        last: room,
        tables: list,
        back,
    } = loose;
    drop(back);
    let Gathered { total, rests } = gathered;
    let LiveTotal {
        live,
        begun,
        ended,
        left,
    } = total;
    let TreeClient {
        owner,
        senders,
        waiter,
        heard,
    } = client;
    let Joined { senders, held } = join_all(sups.as_slice(), &outer, senders, rests);
    let (senders, sender) = senders.into_last();
    let Some(waiter) = waiter else { unreachable!() };
    let tables = take_all_apart(rt, &words, sups, senders, rooms, owner, list);
    let last = settle(rt, &outer, waiter, sender, room);
    drop(words);
    drop(outer);
    Report {
        tables,
        live,
        begun,
        ended,
        processes: left,
        last,
        heard,
        held,
    }
}

/// Takes all supervisors apart, and empties the inbox of each.
fn take_all_apart<N: SupNaming, B: Drop, R: Wait>(
    rt: &R,
    words: &Words<N>,
    sups: Vec<Unlocked<N, B>>,
    senders: Vec<Sender<N, Message, Letter<B>>>,
    rooms: Vec<LeftRoom<B>>,
    mut owner: Owner<N>,
    mut tables: Vec<TableReport>,
) -> Vec<TableReport>
    requires none { tables.items ≡ [] }
    requires room { length sups.items ≤ vec_capacity tables }
    requires placed { AllAt (λ k u. u.inbox ≡ k) sups.items }
    requires ready { AreReady sups.items senders.items rooms.items }
    requires as_many { length senders.items ≡ length sups.items }
    ensures plans { HaveBegun N.plan result.items }
    ensures begins { All HasBegun result.items }
    ensures shown { All HasTold result.items }
    ensures apart { AreApart result.items }
    ensures left { AllAt (λ k t. AsOften (items_in (sent_at k senders.items)) (line_of t)) result.items }
    ensures order { AllAt (λ k t. EachInOrder (map items_in (lists_at k senders.items)) (line_of t)) result.items }
    ensures come { AllAt (λ k t. HasCome (sent_at k senders.items) t) result.items }
    ensures unsent { All HasUnsent result.items }
    ensures tables { AllAt (λ k t. IsOfTable N.plan k (sent_at k senders.items) (shares_at k senders.items) t) result.items }
    ensures starts { starts_credited senders.items + sum_by unsent_of result.items ≡ sum_by starts_of result.items }
    ensures ends { ends_sent senders.items ≡ sum_by ends_of result.items }
    ensures count { length result.items ≡ length sups.items }
{
    let mut senders = senders.into_iter();
    let mut rooms = rooms.into_iter();
    for sup in sups {
        let sender = next_of(&mut senders);
        let room = next_of(&mut rooms);
        tables.push_reserved(take_apart(rt, words, sup, sender, room, &mut owner));
    }
    tables
}

/// Takes a supervisor apart, and empties its inbox. Its seat is joined to the owner, which shows that no number was drawn by
/// both.
fn take_apart<N: SupNaming, B: Drop, R: Wait>(
    rt: &R,
    words: &Words<N>,
    sup: Unlocked<N, B>,
    sender: Sender<N, Message, Letter<B>>,
    room: LeftRoom<B>,
    owner: &mut Owner<N>,
) -> TableReport
    requires { IsReady sup sender room }
    ensures plan { IsBegunBy (N.plan sup.inbox) result.core.base }
    ensures begins { HasBegun result }
    ensures shown { HasTold result }
    ensures left { AsOften (items_in (all_sent sender)) (line_of result) }
    ensures order { EachInOrder (map items_in (sent_lists sender)) (line_of result) }
    ensures come { HasCome (all_sent sender) result }
    ensures unsent { HasUnsent result }
    ensures table { IsOfTable N.plan sup.inbox (all_sent sender) sender.shares result }
    ensures starts { sender.shares.starts + result.unsent ≡ starts_of result }
    ensures apart { NoneInBoth owner.old.drawn (numbers_of result.core.history) }
    ensures kept { AllIn owner.old.drawn owner.new.drawn }
    ensures gained { AllIn (numbers_of result.core.history) owner.new.drawn }
{
    sup.keeps_rules();
    let unsent_orders = sup.unsent_orders();
    let unsent = sup.unsent_starts();
    let SupParts {
        inbox,
        core,
        owner: seat,
        taker,
        counts,
        ends_told,
    } = sup.into_parts();
    drop(counts);
    words.join(owner, seat);
    let left = settle(rt, &inbox, taker, sender, room);
    TableReport {
        core,
        ends_told,
        left,
        unsent_orders,
        unsent,
    }
}

/// All comes back.
fn refuse<N: TreeNaming, J: Drop, S: Drop>(
    cause: Refusal,
    shared: Shared<N, J, S>,
    hands: Vec<Hand<N, J, S>>,
    client: TreeClient<N, Body<J, S>>,
) -> CloseFault<J, S, Intact<N, J, S>>
    ensures { IsRefusalOf cause shared hands.items client result }
{
    let tree = Intact {
        shared,
        hands,
        client,
    };
    match cause {
        Refusal::OutOfMemory => CloseFault::OutOfMemory(tree),
        Refusal::Missing => CloseFault::Missing(tree),
        Refusal::Misplaced(found) => CloseFault::Misplaced(tree, found),
    }
}

/// The report, or the first mismatch that it has.
fn judge<J: Drop, S: Drop, K: Drop>(
    report: Report<J, S>,
) -> Result<Report<J, S>, CloseFault<J, S, K>>
    ensures report { report_in result ≡ Some report }
    ensures told { IfOk result (λ report. AreSo report.tables.items) }
    ensures mismatch { IfErr result IsMismatchOnly }
{
    match report.find_mismatch() {
        Some(mismatch) => Err(CloseFault::Mismatch(mismatch, report)),
        None => Ok(report),
    }
}
