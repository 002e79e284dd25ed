//! What somebody at a terminal sees of a run: a line that says how far it is.

use otp_live::Stopwatch;
use otp_rules::CountsNow;
use otp_tree::Gate;
use std::io::IsTerminal;

/// The clock of a run, and a line on standard error, where that is a terminal, which is written over itself.
#[derive(Drop)]
pub(crate) struct Screen<'a> {
    system: &'a HostRuntime,
    stopwatch: Stopwatch<'a, HostRuntime>,
    is_shown: bool,
}

/// So many processes of children live.
fn count_live(counts: &[CountsNow]) -> u64 {
    let mut live: u64 = 0;
    for supervisor in counts {
        live = live.saturating_add(supervisor.active);
    }
    live
}

impl<'a> Screen<'a> {
    /// A screen whose clock begins now.
    pub fn start(system: &'a HostRuntime) -> Self {
        Screen {
            system,
            stopwatch: Stopwatch::start(system),
            is_shown: system.stderr().is_terminal(),
        }
    }
}

impl<'a> Gate for Screen<'a> {
    fn before_turn(&self, _hand: usize) -> u64 {
        self.stopwatch.reading()
    }

    /// The line is taken away once all turns are made, so that the report stands alone.
    fn saw(&self, made: u64, of: u64, counts: &[CountsNow]) {
        if !self.is_shown {
            return;
        }
        let live = count_live(counts);
        // Where nothing can be shown the run goes on.
        let _shown = if made < of {
            eprint!(self.system; "\r{made} of {of} turns, {live} processes live\u{1b}[K")
        } else {
            eprint!(self.system; "\r\u{1b}[K")
        };
    }
}
