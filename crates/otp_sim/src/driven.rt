//! Who takes the lines.

ghost use Rattle.std.specs.Prelude.{◌≡◌, ◌+◌, ◌<◌, ◌≤◌, OnOk, OnErr, IfOk, is_some};
ghost use Rattle.otp_sim.specs.Sim.{Sim, begin_line, next_kind, went_on};
ghost use Rattle.otp_sim.specs.Runs.{with_text};
ghost use Rattle.otp_sim.specs.declared.driven.TheConstants.{LINE_LIMIT};

use otp_text::LineFault;
use std::alloc::AllocError;

/// No input has so many lines: a run reads less than that in bytes.
pub const LINE_LIMIT: u64 = 1 << 63;

/// Why no line is taken any more.
#[derive(Clone, Copy, Debug, PartialEq, Eq)]
pub enum LinesEnd {
    /// The line with this number, counted from 1, has no form that is read, for this reason.
    LineRefused(u64, LineFault),
    /// There were 2^62 events, as many as a supervisor has in its life.
    HistoryFull,
}

/// A supervisor that is driven by lines.
pub trait Driven {
    /// How it stands.
    ghost sim: { Self → Sim };

    /// Takes what a line, without its LF, does by itself, and appends what is printed for it.
    ///
    /// # Errors
    ///
    /// Where memory is refused. Then nothing was appended, and it is not to be used any more.
    fn begin_line(&mut self, line: &[u8], out: &mut Vec<u8>) -> Result<(), AllocError>
        requires { (sim self.old).lines + 1 < LINE_LIMIT }
        ensures ok { OnOk result (with_text out.new.items (sim self.new) ≡ begin_line line.now (with_text out.old.items (sim self.old))) }
        ensures err { OnErr result (out.new.items ≡ out.old.items) }
        ensures lines { OnOk result ((sim self.new).lines ≤ (sim self.old).lines + 1) };

    /// Takes the next of what follows by itself, and appends what is printed for it. Says whether something did.
    ///
    /// # Errors
    ///
    /// As of [`Driven::begin_line`].
    fn go_on(&mut self, out: &mut Vec<u8>) -> Result<bool, AllocError>
        ensures ok { OnOk result (with_text out.new.items (sim self.new) ≡ went_on (with_text out.old.items (sim self.old))) }
        ensures happened { IfOk result (λ happened. happened ≡ is_some (next_kind (sim self.old))) }
        ensures err { OnErr result (out.new.items ≡ out.old.items) }
        ensures lines { OnOk result ((sim self.new).lines ≡ (sim self.old).lines) };

    /// Why no line is taken any more, if none is.
    fn end(&self) -> Option<LinesEnd>
        ensures { result ≡ (sim self.now).end };
}
