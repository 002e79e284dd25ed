//! Replays transcripts of OTP's supervisor, and compares its orders with those given here.
#![tactic(auto)]

pub mod play;
pub mod replay;
pub mod transcript;

use crate::replay::{Score, replay};
use std::process::ExitCode;
use std::{env, fs, io};

fn main(rt: HostRuntime) -> io::Result<ExitCode> {
    let mut score = Score::default();
    for name in env::args(&rt)?.skip(1) {
        let text = fs::read_to_string(&rt, name.as_str())?;
        replay(rt.alloc(), text.as_str(), &mut rt.stdout(), &mut score)?;
    }
    println!(rt; "{score}")?;
    Ok(ExitCode::from(score.status()))
}
