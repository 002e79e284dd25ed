//! Transcripts are replayed and counted.

ghost use Rattle.std.specs.Prelude.{◌≡◌, ◌==◌, Ok, true, cond};
ghost use Rattle.otp_parity.specs.Cut.{Shows};
ghost use Rattle.otp_parity.specs.Scores.{counted};

use crate::play::play;
use crate::transcript::{Transcript, read_transcript};
use std::alloc::Global;
use std::fmt;
use std::io::{self, Write};

/// How many transcripts passed, and how many failed.
#[derive(Clone, Copy, Debug, Default, PartialEq, Eq)]
pub struct Score {
    pub passed: u64,
    pub failed: u64,
}

impl Score {
    /// One more transcript was replayed.
    fn count(&mut self, passed: bool)
        ensures { self.new ≡ counted passed self.old }
    {
        if passed {
            self.passed = self.passed.saturating_add(1);
        } else {
            self.failed = self.failed.saturating_add(1);
        }
    }

    /// The exit status: 0 where none failed.
    pub fn status(&self) -> u8
        ensures { result ≡ cond (self.now.failed == 0) 0 1 }
    {
        if self.failed == 0 { 0 } else { 1 }
    }
}

impl fmt::Display for Score {
    fn fmt<W: fmt::Write>(&self, f: &mut fmt::Formatter<W>) -> fmt::Result {
        write!(f, "{} passed, {} failed", self.passed, self.failed)
    }
}

/// What stands before each transcript of a file.
const BEFORE: &str = "\n== ";

/// Replays the transcripts of a file, and tells of each that fails. The file's head, before the first, says what they
/// are of.
pub fn replay<W: Write>(
    alloc: Global,
    file: &str,
    out: &mut W,
    score: &mut Score,
) -> io::Result<()> {
    for text in file.split(BEFORE).skip(1) {
        let passed = replay_one(alloc, text, out)?;
        score.count(passed);
    }
    Ok(())
}

/// Replays a transcript, and tells if it fails.
fn replay_one<W: Write>(alloc: Global, text: &str, out: &mut W) -> io::Result<bool>
    ensures { result ≡ Ok true → Shows text.now }
{
    let Some(transcript) = read_transcript(text) else {
        writeln!(out, "no transcript: {text}")?;
        return Ok(false);
    };
    let played = play(
        alloc,
        transcript.tree.as_bytes(),
        transcript.lines.as_bytes(),
    );
    match played {
        Ok(printed) if printed.as_slice() == transcript.orders.as_bytes() => return Ok(true),
        Ok(printed) => tell(&transcript, &printed, out)?,
        Err(why) => writeln!(out, "failed: {}\n{why:?}", transcript.name)?,
    }
    Ok(false)
}

/// Tells what was expected and what was printed.
fn tell<W: Write>(transcript: &Transcript, printed: &[u8], out: &mut W) -> io::Result<()> {
    write!(
        out,
        "failed: {}\nexpected:\n{}printed:\n",
        transcript.name, transcript.orders
    )?;
    out.write_all(printed)
}
