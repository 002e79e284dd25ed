//! How a run of a tree is asked for.
ghost use Rattle.std.specs.Prelude.{◌≡◌, ◌<◌, ◌≤◌, false};
ghost use Rattle.std.specs.Option.{SomeIff};
ghost use Rattle.otp_file.specs.Settings.{AreSettings};

use std::marker::Model;

/// The fewest hands of a run.
pub const MIN_SCHEDULERS: usize = 1;

/// The most hands of a run.
pub const MAX_SCHEDULERS: usize = 8;

/// The fewest turns of a hand in each half of a run.
pub const MIN_TURNS: u64 = 1;

/// The most turns of a hand in each half of a run.
pub const MAX_TURNS: u64 = 10_000_000;

/// How a tree is run: with 1 to 8 hands, and 1 to 10,000,000 turns for each of them in each half of the run. And whether
/// the report says what each supervisor counts halfway.
#[derive(Debug, Drop)]
pub struct Settings {
    schedulers: usize,
    turns: u64,
    is_counted: bool,
}

impl Model for Settings {
    ghost use Rattle.otp_file.specs.Settings.{AreSettings, SettingsView};

    ghost Value = { SettingsView };

    ghost view = { λ s. record { schedulers = s.schedulers; turns = s.turns; counted = s.is_counted } };

    ghost invariant = { λ s. AreSettings s.schedulers s.turns };
}

impl Settings {
    /// So many hands and turns, and no counts; None where they are out of the limits.
    pub fn new(schedulers: usize, turns: u64) -> Option<Settings>
        ensures { SomeIff result (AreSettings schedulers turns) (record { schedulers = schedulers; turns = turns; counted = false }) }
    {
        if !(MIN_SCHEDULERS..=MAX_SCHEDULERS).contains(&schedulers) {
            return None;
        }
        if !(MIN_TURNS..=MAX_TURNS).contains(&turns) {
            return None;
        }
        Some(Settings {
            schedulers,
            turns,
            is_counted: false,
        })
    }

    /// These settings, with counts where they are wanted.
    pub fn with_counts(self, are_wanted: bool) -> Settings
        ensures { result ≡ record self { counted = are_wanted } }
    {
        Settings {
            schedulers: self.schedulers,
            turns: self.turns,
            is_counted: are_wanted,
        }
    }

    /// How many hands there are, each with a scheduler and a thread of its own.
    pub fn schedulers(&self) -> usize
        ensures value { result ≡ self.now.schedulers }
        ensures some { 0 < result }
        ensures few { result ≤ 8 }
    {
        self.schedulers
    }

    /// How many turns each makes in each half of the run.
    pub fn turns(&self) -> u64
        ensures { result ≡ self.now.turns }
    {
        self.turns
    }

    /// Whether the report says first what each supervisor counts of its children, as it published that last before the
    /// stop.
    pub fn is_counted(&self) -> bool
        ensures { result ≡ self.now.counted }
    {
        self.is_counted
    }
}
