ghost use Rattle.std.specs.Prelude.{◌≡◌, ◌↔◌, IsTrue};
ghost use Rattle.otp_job.specs.Bridges.{Starts, Turns, phase_after_init, phase_after_poll};
ghost use Rattle.otp_job.specs.declared.bridge.bridge.BridgePhase.TheVariants.{New, Up};

use crate::bridge::subsystem::Subsystem;
use otp_reason::{Reason, Started};
use otp_signals::Signal;
use std::marker::Model;

/// Where a bridge stands.
#[derive(Clone, Copy, Debug, PartialEq, Eq)]
pub enum BridgePhase {
    /// It was not started yet, or its last start was ignored or failed.
    New,
    /// Its subsystem runs.
    Up,
    /// Its subsystem ended by itself.
    MainEnded,
    /// It was ended from outside: shut down, or killed.
    Terminated,
}

impl BridgePhase {
    fn after_init(answer: Started) -> BridgePhase
        ensures { result ≡ phase_after_init answer }
    {
        match answer {
            Started::Up => BridgePhase::Up,
            Started::Ignore | Started::Fail(_) => BridgePhase::New,
        }
    }

    fn after_poll(ended: Option<Reason>) -> BridgePhase
        ensures { result ≡ phase_after_poll ended }
    {
        match ended {
            Some(_) => BridgePhase::MainEnded,
            None => BridgePhase::Up,
        }
    }
}

/// A subsystem as a child of a supervisor (`supervisor_bridge`). It traps exits.
///
/// It may be started again after each end; every start begins anew.
#[derive(Drop)]
pub struct Bridge<S: Drop> {
    subsystem: S,
    phase: BridgePhase,
}

impl<S: Drop> Model for Bridge<S> {
    ghost use Rattle.otp_job.specs.Bridges.{BridgeState};

    ghost Value = { BridgeState S };

    ghost view = { λ b. record { subsystem = b.subsystem; phase = b.phase } };
}

impl<S: Drop> Bridge<S> {
    /// A bridge that was not started yet. Nothing is called.
    pub fn new(subsystem: S) -> Bridge<S>
        ensures { result ≡ record { subsystem = subsystem; phase = New } }
    {
        Bridge {
            subsystem,
            phase: BridgePhase::New,
        }
    }

    /// Where it stands.
    pub fn phase(&self) -> BridgePhase
        ensures { result ≡ self.now.phase }
    {
        self.phase
    }

    /// Whether its subsystem runs, so that it may have a turn.
    pub fn is_up(&self) -> bool
        ensures { IsTrue result ↔ (self.now.phase ≡ Up) }
    {
        self.phase == BridgePhase::Up
    }

    /// Its subsystem, as the last call left it.
    pub fn into_subsystem(self) -> S
        ensures { result ≡ self.subsystem }
    {
        self.subsystem
    }
}

impl<S: Subsystem> Bridge<S> {
    /// Starts it, from whatever phase: calls `init` once, and is up where that answered so, else new.
    pub fn start(&mut self) -> Started
        ensures { Starts S.inited self.old result self.new }
    {
        self.phase = BridgePhase::New;
        let answer = self.subsystem.init();
        self.phase = BridgePhase::after_init(answer);
        answer
    }

    /// One turn of a bridge that is up; the reason, where it ended.
    ///
    /// No signal calls `poll`, and an answer ends the bridge with that reason. A shutdown calls `terminate` once and
    /// ends it with `Shutdown`. A kill calls nothing and ends it with `Killed`.
    pub fn turn(&mut self, signal: Signal) -> Option<Reason>
        requires { self.old.phase ≡ Up }
        ensures { Turns S.polled S.terminated signal self.old result self.new }
    {
        match signal {
            Signal::Kill => {
                self.phase = BridgePhase::Terminated;
                Some(Reason::Killed)
            }
            Signal::Shutdown => {
                self.subsystem.terminate(Reason::Shutdown);
                self.phase = BridgePhase::Terminated;
                Some(Reason::Shutdown)
            }
            Signal::None => {
                let ended = self.subsystem.poll();
                self.phase = BridgePhase::after_poll(ended);
                ended
            }
        }
    }
}
