//! A tree of jobs of one's own: opened, served by two hands in turn, called, asked to stop, and ended.
ghost use Rattle.std.specs.Prelude.{true};

use otp::{
    Body, BoxedSubsystem, Call, CountsNow, Fault, Hand, Job, Millis, Note, Reason, Reply,
    ReplyAnswer, Session, Started, SupFlags, System, Told, TreeClient, TreeDraft, TreeNaming, Turn,
    with_tree,
};
use std::alloc::Global;
use std::sync::Wait;

/// Waits until it is asked to shut down.
#[derive(Drop)]
struct Steady;

impl Job for Steady {
    ghost is_trapping = { λ _. true };

    fn traps(&self) -> bool {
        true
    }

    fn start(&mut self, _number: u64) -> Started {
        Started::Up
    }

    fn turn(&mut self, told: Told) -> Turn {
        match told {
            Told::Shutdown => Turn::End(Reason::Shutdown),
            Told::Nothing => Turn::Wait,
        }
    }
}

/// A clock that stands still.
#[derive(Drop)]
struct Still;

impl Millis for Still {
    fn now(&mut self) -> u64 {
        0
    }
}

/// What a tree told: when it was up, how many children the root had then, and its end.
#[derive(Drop)]
pub struct Run {
    pub up: Option<Note>,
    pub counts: Option<CountsNow>,
    pub end: Option<Note>,
}

/// Serves the tree until its root tells that it is up, counts its children, asks it to stop, and serves it until it tells
/// its end.
#[derive(Drop)]
struct UpAndDown {
    alloc: Global,
}

impl<R: Wait> Session<R, Steady, BoxedSubsystem> for UpAndDown {
    type Output = Run;

    fn run<N: TreeNaming + Send + Sync>(
        self,
        rt: &R,
        system: System<N, Steady, BoxedSubsystem>,
        hands: Vec<Hand<N, Steady, BoxedSubsystem>>,
        client: TreeClient<N, Body<Steady, BoxedSubsystem>>,
    ) -> Self::Output {
        let (mut hands, mut client) = (hands, client);
        let up = next_note(rt, &system, &mut hands, &mut client);
        let counts = count_children(rt, self.alloc, &system, &mut hands, &mut client);
        system.stop(&mut client);
        let end = next_note(rt, &system, &mut hands, &mut client);
        drop(system);
        drop(hands);
        drop(client);
        Run { up, counts, end }
    }
}

/// Gives each hand a hundred turns.
fn serve_all<N, R>(
    rt: &R,
    system: &System<N, Steady, BoxedSubsystem>,
    hands: &mut Vec<Hand<N, Steady, BoxedSubsystem>>,
)
where
    N: TreeNaming,
    R: Wait,
{
    for place in 0..hands.len() {
        system.serve(rt, &mut hands[place], &mut Still, 100);
    }
}

/// Asks the root how many children it has (supervisor, count_children/1), and gives it turns to answer.
fn count_children<N, R>(
    rt: &R,
    alloc: Global,
    system: &System<N, Steady, BoxedSubsystem>,
    hands: &mut Vec<Hand<N, Steady, BoxedSubsystem>>,
    client: &mut TreeClient<N, Body<Steady, BoxedSubsystem>>,
) -> Option<CountsNow>
where
    N: TreeNaming,
    R: Wait,
{
    let call = system.submit(rt, alloc, client, 0, Call::CountChildren, None);
    let number = call.ok()?;
    serve_all(rt, system, hands);
    match system.reply(rt, 0, number) {
        Ok(ReplyAnswer::Kept(Reply::Count(counts))) => Some(counts),
        _ => None,
    }
}

/// Serves until the root tells something: at most a hundred times a hundred turns of each hand.
fn next_note<N, R>(
    rt: &R,
    system: &System<N, Steady, BoxedSubsystem>,
    hands: &mut Vec<Hand<N, Steady, BoxedSubsystem>>,
    client: &mut TreeClient<N, Body<Steady, BoxedSubsystem>>,
) -> Option<Note>
where
    N: TreeNaming,
    R: Wait,
{
    for _ in 0..100 {
        serve_all(rt, system, hands);
        if let Some(note) = system.root_note(rt, client) {
            return Some(note);
        }
    }
    None
}

/// A tree of one supervisor and two steady workers, for two hands.
pub fn up_and_down<R: Wait>(rt: &R, alloc: Global) -> Result<Run, Fault> {
    let mut root: TreeDraft<Steady> = TreeDraft::new(alloc, SupFlags::default());
    root.add_worker("a", Steady)?;
    root.add_worker("b", Steady)?;
    Ok(with_tree(rt, alloc, root, 2, UpAndDown { alloc })?)
}
