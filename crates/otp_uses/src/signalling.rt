//! A signal from one thread to another: a process looks whether it is to stop, and its owner tells it to.
ghost use Rattle.std.specs.Prelude.{◌≡◌, ◌<◌, [], ◌∷◌, Contains, IfOk};
ghost use Rattle.otp_signals.specs.Signals.{word_of};
ghost use Rattle.otp_signals.specs.declared.signal.Signal.TheVariants.{None, Shutdown};

use otp_signals::{Exhausted, OpenWords, Owner, Signal, Viewer, Words, WordsNaming};
use std::sync::Wait;
use std::thread;
use std::thread::Threads;

/// Starts a process on another thread, tells it to stop, and answers what it saw.
///
/// The owner draws the process's number and posts to slot 0; the process looks there. When both have ended,
/// `compare` tells that what the process saw was posted for its number. So it saw the shutdown and nothing else.
pub fn stop_from_outside<N: WordsNaming + Send + Sync, R: Threads + Wait + Sync>(
    rt: &R,
    words: OpenWords,
) -> Result<Signal, Exhausted>
    requires name { words.words ≡ N.words }
    requires slot { words.slots ≡ 1 }
    ensures saw { IfOk result (λ signal. signal ≡ Shutdown) }
{
    let (words, mut owner) = words.named::<N>();
    let shared = &words;
    let viewer = shared.viewer(&mut owner);
    let number = shared.draw(&mut owner)?;
    let (mut owner, (mut viewer, signal)) = thread::join(
        rt,
        move ||
            requires { Contains owner.slots 0 × Contains owner.drawn number × (owner.posts ≡ []) }
            ensures { (result.posts ≡ (0, word_of number Shutdown) ∷ []) × (result.slots ≡ owner.slots) }
        { stop(shared, owner, number) },
        move ||
            requires { 0 < shared.now }
            ensures { (¬ (result.1 ≡ None)) × Contains result.0 (0, word_of number result.1) }
        { run_until_told(rt, shared, viewer, number) },
    );
    shared.compare(&mut owner, &mut viewer);
    Ok(signal)
}

// Tells the process with this number to stop.
fn stop<N: WordsNaming>(words: &Words<N>, mut owner: Owner<N>, number: u64) -> Owner<N>
    requires slot { Contains owner.slots 0 }
    requires number { Contains owner.drawn number }
    requires first { owner.posts ≡ [] }
    ensures posted { result.posts ≡ (0, word_of number Shutdown) ∷ [] }
    ensures slots { result.slots ≡ owner.slots }
{
    words.post(&mut owner, 0, number, Signal::Shutdown);
    owner
}

// Runs until it sees a signal for its number.
fn run_until_told<N: WordsNaming, R: Wait>(
    rt: &R,
    words: &Words<N>,
    mut viewer: Viewer<N>,
    number: u64,
) -> (Viewer<N>, Signal)
    requires slot { 0 < words.now }
    ensures told { ¬ (result.1 ≡ None) }
    ensures seen { Contains result.0 (0, word_of number result.1) }
{
    for _ in rt.forever() {
        let signal = words.look(&mut viewer, 0, number);
        if signal != Signal::None {
            return (viewer, signal);
        }
        thread::yield_now();
    }
    unreachable!()
}
