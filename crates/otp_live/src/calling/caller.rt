//! Whoever calls the supervisors of a running tree from a thread of its own, or adds some to it.
ghost use Rattle.std.specs.Prelude.{◌≡◌, ◌<◌, length};
ghost use Rattle.otp_live.specs.Stages.{IsEnded, IsUndone};

use crate::calling::locked::{Locked, ReachNaming};
use otp_core::ReplyAnswer;
use otp_job::wake::{Bells, StopFlag};
use otp_job::{Body, TableNo};
use otp_rules::{Call, Reply};
use otp_sup::SupNaming;
use otp_tree::{CallRefusal, System, TablePlan, Unadded, Uncalled, add_tree};
use std::alloc::{AllocError, Global};
use std::marker::Model;
use std::mem;
use std::sync::atomic::{AtomicU64, Ordering};
use std::sync::{Arc, Mutex, Wait};

/// A call that is to be sent.
#[derive(Drop)]
struct Outgoing<J: Drop, S: Drop> {
    table: usize,
    call: Call,
    body: Option<Body<J, S>>,
}

/// The plans of supervisors that are to be added: one at least.
#[derive(Drop)]
struct Plans<J: Drop, S: Drop> {
    all: Vec<TablePlan<J, S>>,
}

impl<J: Drop, S: Drop> Model for Plans<J, S> {
    ghost use Rattle.std.specs.Prelude.{◌<◌, ℕ, length};

    ghost Value = { ℕ };

    ghost view = { λ p. length p.all.items };

    ghost invariant = { λ p. 0 < length p.all.items };
}

impl<J: Drop, S: Drop> Plans<J, S> {
    fn of(all: Vec<TablePlan<J, S>>) -> Self
        requires { 0 < length all.items }
    {
        Plans { all }
    }

    fn into_all(self) -> Vec<TablePlan<J, S>>
        ensures some { 0 < length result.items }
        ensures all { length result.items ≡ self }
    {
        let Plans { all } = self;
        all
    }
}

/// What a hand is to do for a caller.
#[derive(Drop)]
enum Wanted<J: Drop, S: Drop> {
    Call(Outgoing<J, S>),
    Tree(Plans<J, S>),
}

/// Why no supervisor was added.
#[derive(Drop)]
pub enum AddError<J: Drop, S: Drop> {
    /// The tree didn't take them. Their plans are back.
    Refused(Unadded<J, S>),
    /// The run has ended. The plans are back, unless none were left.
    Over(Option<Vec<TablePlan<J, S>>>),
}

/// What came of a call.
#[derive(Drop)]
pub enum Answer<J: Drop, S: Drop> {
    /// The supervisor answered. Where no child has the body that the call brought, as after a refusal, it is back.
    Given(Reply, Option<Body<J, S>>),
    /// A checkpoint of the supervisor dropped the answer before it was read, so it can't be told any more; a body that no child has is
    /// back.
    Gone(Option<Body<J, S>>),
    /// It was not sent, and its body is back.
    Unsent(CallRefusal, Option<Body<J, S>>),
    /// The run has ended, and no answer was given. A body that wasn't sent is back.
    Over(Option<Body<J, S>>),
}

/// What came of what a caller wanted.
#[derive(Drop)]
enum Came<J: Drop, S: Drop> {
    Answer(Answer<J, S>),
    Added(Result<TableNo, AddError<J, S>>),
}

/// How far what a caller wants has come.
#[derive(Drop)]
enum CallStage<J: Drop, S: Drop> {
    /// It wants nothing.
    Idle,
    Wanted(Wanted<J, S>),
    /// A call was sent to this supervisor, under this number.
    Sent(usize, u64),
    /// This came of it, which the caller has still to take.
    Came(Came<J, S>),
    /// This came of it, which the caller has still to take, and the run has ended meanwhile.
    Last(Came<J, S>),
    /// The run has ended.
    Closed,
}

/// What a mark says: there is nothing to be done for the caller; a hand is to do what it wants; its answer is awaited.
const IDLE: u64 = 0;

const WANTED: u64 = 1;

const SENT: u64 = 2;

/// One who calls the supervisors of a tree while it runs, or adds some to it: threads share it, each of them makes one call after the
/// other, and waits for its answer. A tree may be run with several, which don't wait for each other.
///
/// A caller belongs to one run. A call that is made before the run begins waits for it. Once the run has ended each call is answered
/// [`Answer::Over`].
#[derive(Drop)]
pub struct Caller<J: Drop, S: Drop> {
    // Is locked as long as a call is under way.
    line: Mutex<()>,
    stage: Mutex<CallStage<J, S>>,
    // What is to be done for it, which is changed under the lock of the stage and read without. Each step is `SeqCst`, as [`Bells`]
    // asks: it says `WANTED` before the hands are rung, and a hand reads it after it announced its sleep.
    mark: AtomicU64,
    // By which the caller sleeps, and by which it wakes the hands.
    own: Bells,
    hands: Arc<Bells>,
}

impl<J: Drop, S: Drop> Caller<J, S> {
    /// A caller for a run with this stop.
    ///
    /// # Errors
    ///
    /// Where there are as many ways to the stop as a machine word counts.
    pub fn new(stop: &StopFlag) -> Result<Caller<J, S>, AllocError> {
        let hands = Arc::try_clone(stop.bells())?;
        Ok(Caller {
            line: Mutex::new(()),
            stage: Mutex::new(CallStage::Idle),
            mark: AtomicU64::new(IDLE),
            own: Bells::new(),
            hands,
        })
    }

    /// Calls the supervisor with this number, with a body exactly where the call starts a new child, and waits for the answer. One that
    /// has ended, or wasn't started yet, takes the call up once it is started: until then, or until the run has ended, there is none.
    pub fn call<R: Wait>(
        &self,
        rt: &R,
        table: usize,
        call: Call,
        body: Option<Body<J, S>>,
    ) -> Answer<J, S> {
        let line = self.line.lock(rt);
        let wanted = Wanted::Call(Outgoing { table, call, body });
        let came = self.wait_for(rt, wanted);
        drop(line);
        match came {
            Came::Answer(answer) => answer,
            Came::Added(_) => Answer::Over(None),
        }
    }

    /// Adds supervisors to the tree while it runs, from any thread, where it was run with room for them
    /// (`crate::run_growing`). The answer is the number of the first, [`Body::Sup`] of the call that makes it
    /// somebody's child ([`Caller::start_child`]): with a specification of type supervisor, and as much time to shut down as it wants.
    ///
    /// The plans are as for [`add_tree`](otp_tree::add_tree); who has a draft has `otp::grow` for it.
    ///
    /// # Errors
    ///
    /// [`AddError`], with the plans.
    pub fn add_tree<R: Wait>(
        &self,
        rt: &R,
        plans: Vec<TablePlan<J, S>>,
    ) -> Result<TableNo, AddError<J, S>>
        requires { 0 < length plans.items }
    {
        let line = self.line.lock(rt);
        let came = self.wait_for(rt, Wanted::Tree(Plans::of(plans)));
        drop(line);
        match came {
            Came::Added(added) => added,
            Came::Answer(_) => Err(AddError::Over(None)),
        }
    }

    /// Has a hand do what is wanted, and waits for what comes of it.
    fn wait_for<R: Wait>(&self, rt: &R, wanted: Wanted<J, S>) -> Came<J, S> {
        match self.want(rt, wanted) {
            Ok(()) => self.wait(rt),
            Err(wanted) => undone(wanted),
        }
    }

    /// Puts there what the hands are to do. It comes back where the run has ended.
    fn want<R: Wait>(&self, rt: &R, wanted: Wanted<J, S>) -> Result<(), Wanted<J, S>> {
        let mut stage = self.stage.lock(rt);
        if let CallStage::Closed = &*stage {
            drop(stage);
            return Err(wanted);
        }
        *stage = CallStage::Wanted(wanted);
        self.mark.store(WANTED, Ordering::SeqCst);
        drop(stage);
        self.hands.ring_all();
        Ok(())
    }

    /// Sleeps until something came of it, and takes that.
    fn wait<R: Wait>(&self, rt: &R) -> Came<J, S> {
        for _ in rt.forever() {
            let announced = self.own.announce(0);
            if let Some(came) = self.take_what_came(rt) {
                drop(announced);
                return came;
            }
            announced.sleep(rt, None);
        }
        Came::Answer(Answer::Over(None))
    }

    /// Takes what came of it, if something did.
    fn take_what_came<R: Wait>(&self, rt: &R) -> Option<Came<J, S>> {
        let mut stage = self.stage.lock(rt);
        match mem::replace(&mut *stage, CallStage::Idle) {
            CallStage::Came(came) => Some(came),
            CallStage::Last(came) => {
                *stage = CallStage::Closed;
                Some(came)
            }
            CallStage::Closed => {
                *stage = CallStage::Closed;
                Some(Came::Answer(Answer::Over(None)))
            }
            other => {
                *stage = other;
                None
            }
        }
    }

    /// For whoever serves the tree: whether a hand is to do something for it.
    pub fn is_wanted(&self) -> bool {
        self.mark.load(Ordering::SeqCst) == WANTED
    }

    /// For whoever serves the tree: whether the answer to its call is awaited.
    pub fn is_sent(&self) -> bool {
        self.mark.load(Ordering::SeqCst) == SENT
    }

    /// Notes that this is what came of it, and wakes the caller.
    fn tell<R: Wait>(&self, rt: &R, came: Came<J, S>) {
        let mut stage = self.stage.lock(rt);
        *stage = CallStage::Came(came);
        self.mark.store(IDLE, Ordering::SeqCst);
        drop(stage);
        self.own.ring(0);
    }

    /// Takes what is to be done, so that no other hand does.
    fn take_wanted<R: Wait>(&self, rt: &R) -> Option<Wanted<J, S>> {
        let mut stage = self.stage.lock(rt);
        match mem::replace(&mut *stage, CallStage::Idle) {
            CallStage::Wanted(wanted) => {
                self.mark.store(IDLE, Ordering::SeqCst);
                Some(wanted)
            }
            other => {
                *stage = other;
                None
            }
        }
    }

    /// For whoever serves the tree: does what it wants. Where a call was sent it answers to which supervisor, which is to be woken.
    pub fn serve<N, K, R>(
        &self,
        rt: &R,
        alloc: Global,
        system: &System<N, J, S>,
        client: &Mutex<Locked<N, K, J, S>>,
    ) -> Option<usize>
    where
        N: SupNaming,
        K: ReachNaming,
        R: Wait,
    {
        match self.take_wanted(rt)? {
            Wanted::Call(call) => self.send(rt, alloc, system, client, call),
            Wanted::Tree(plans) => {
                let added = match add_tree(rt, alloc, system, plans.into_all()) {
                    Ok(top) => Ok(top),
                    Err(back) => Err(AddError::Refused(back)),
                };
                self.tell(rt, Came::Added(added));
                None
            }
        }
    }

    /// Sends its call to the supervisor, and answers to which.
    fn send<N, K, R>(
        &self,
        rt: &R,
        alloc: Global,
        system: &System<N, J, S>,
        client: &Mutex<Locked<N, K, J, S>>,
        outgoing: Outgoing<J, S>,
    ) -> Option<usize>
    where
        N: SupNaming,
        K: ReachNaming,
        R: Wait,
    {
        let Outgoing { table, call, body } = outgoing;
        let mut client = client.lock(rt);
        let sent = client.submit(rt, alloc, system, table, call, body);
        drop(client);
        match sent {
            Ok(number) => {
                self.note_sent(rt, table, number);
                // A hand that gave the answer before the mark said `SENT` didn't know that it is awaited. One that gives it after
                // this look had the supervisor's lock later, and so reads the mark.
                self.collect(rt, system);
                Some(table)
            }
            Err(Uncalled { cause, body }) => {
                self.tell(rt, Came::Answer(Answer::Unsent(cause, body)));
                None
            }
        }
    }

    fn note_sent<R: Wait>(&self, rt: &R, table: usize, number: u64) {
        let mut stage = self.stage.lock(rt);
        *stage = CallStage::Sent(table, number);
        self.mark.store(SENT, Ordering::SeqCst);
        drop(stage);
    }

    /// For whoever serves the tree: looks whether its call was answered, and tells it. Other hands look after this one.
    pub fn collect<N, R>(&self, rt: &R, system: &System<N, J, S>)
    where
        N: SupNaming,
        R: Wait,
    {
        let mut stage = self.stage.lock(rt);
        let Some((table, number)) = sent_in(&*stage) else {
            drop(stage);
            return;
        };
        let Some(answer) = answer_of(rt, system, table, number) else {
            drop(stage);
            return;
        };
        *stage = CallStage::Came(Came::Answer(answer));
        self.mark.store(IDLE, Ordering::SeqCst);
        drop(stage);
        self.own.ring(0);
    }

    /// For whoever serves the tree: notes that the run has ended, and wakes the caller. Each later call is answered [`Answer::Over`].
    pub fn close<R: Wait>(&self, rt: &R) {
        let mut stage = self.stage.lock(rt);
        let next = ended(mem::replace(&mut *stage, CallStage::Closed));
        *stage = next;
        drop(stage);
        self.own.ring(0);
    }
}

/// How far it is once the run has ended. What is still wanted then comes back.
fn ended<J: Drop, S: Drop>(stage: CallStage<J, S>) -> CallStage<J, S>
    ensures { IsEnded stage result }
{
    match stage {
        CallStage::Wanted(wanted) => CallStage::Last(undone(wanted)),
        CallStage::Came(came) | CallStage::Last(came) => CallStage::Last(came),
        CallStage::Sent(..) | CallStage::Idle | CallStage::Closed => CallStage::Closed,
    }
}

/// What comes of it where the run has ended.
fn undone<J: Drop, S: Drop>(wanted: Wanted<J, S>) -> Came<J, S>
    ensures { IsUndone wanted result }
{
    match wanted {
        Wanted::Call(call) => {
            let Outgoing { body, .. } = call;
            Came::Answer(Answer::Over(body))
        }
        Wanted::Tree(plans) => Came::Added(Err(AddError::Over(Some(plans.into_all())))),
    }
}

/// The call whose answer is awaited.
fn sent_in<J: Drop, S: Drop>(stage: &CallStage<J, S>) -> Option<(usize, u64)> {
    match stage {
        CallStage::Sent(table, number) => Some((*table, *number)),
        _ => None,
    }
}

/// What the supervisor answered to this call. None where it hasn't yet; or where memory for a copy is refused, and then a later look
/// finds it.
fn answer_of<N, R, J, S>(
    rt: &R,
    system: &System<N, J, S>,
    table: usize,
    number: u64,
) -> Option<Answer<J, S>>
where
    N: SupNaming,
    R: Wait,
    J: Drop,
    S: Drop,
{
    match system.reply(rt, table, number) {
        Ok(ReplyAnswer::Kept(reply)) => {
            let body = system.take_box(rt, table, number);
            Some(Answer::Given(reply, body))
        }
        Ok(ReplyAnswer::Gone) => Some(Answer::Gone(system.take_box(rt, table, number))),
        Ok(ReplyAnswer::NotYet) | Err(_) => None,
    }
}
