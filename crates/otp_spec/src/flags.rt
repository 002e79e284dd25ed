ghost use Rattle.std.specs.Prelude.{◌≡◌, Contains, Some};
ghost use Rattle.otp_spec.specs.Flags.{default_flags, flags_fault, is_simple};
ghost use Rattle.otp_spec.specs.Faults.{answer_of};
ghost use Rattle.otp_spec.specs.Words.{auto_shutdown_of, auto_shutdown_word, strategy_of, strategy_word};

use crate::fault::SpecFault;
use crate::limits::{DEFAULT_INTENSITY, DEFAULT_PERIOD, MAX_INTENSITY, MAX_PERIOD};
use crate::word::is_word;

/// Which children are restarted when one ends (Supervisor Behaviour, "Restart Strategy").
#[derive(Clone, Copy, Debug, PartialEq, Eq)]
pub enum Strategy {
    /// That child alone.
    OneForOne,
    /// Every child.
    OneForAll,
    /// That child and those that were started after it.
    RestForOne,
    /// That child alone; all children are of one specification and are added while the supervisor runs.
    SimpleOneForOne,
}

impl Strategy {
    /// All strategies, in the manual's order.
    pub fn all() -> [Self; 4]
        ensures { (each : Strategy) → Contains result each }
    {
        [
            Strategy::OneForOne,
            Strategy::OneForAll,
            Strategy::RestForOne,
            Strategy::SimpleOneForOne,
        ]
    }

    /// Its word, as it is printed and read.
    #[tactic(auto, unfolding(crate::specs::Words::strategy_word, crate::specs::Words::strategy_of))]
    pub fn word(self) -> &'static str
        ensures word { result.now ≡ strategy_word self }
        ensures read_back { strategy_of result.now ≡ Some self }
    {
        match self {
            Strategy::OneForOne => "one_for_one",
            Strategy::OneForAll => "one_for_all",
            Strategy::RestForOne => "rest_for_one",
            Strategy::SimpleOneForOne => "simple_one_for_one",
        }
    }

    /// The strategy of a word, if it is the word of one.
    #[tactic(auto, unfolding(crate::specs::Words::strategy_of))]
    pub fn of_word(word: &[u8]) -> Option<Self>
        ensures { result ≡ strategy_of word.now }
    {
        if is_word(word, Strategy::OneForOne.word()) {
            Some(Strategy::OneForOne)
        } else if is_word(word, Strategy::OneForAll.word()) {
            Some(Strategy::OneForAll)
        } else if is_word(word, Strategy::RestForOne.word()) {
            Some(Strategy::RestForOne)
        } else if is_word(word, Strategy::SimpleOneForOne.word()) {
            Some(Strategy::SimpleOneForOne)
        } else {
            None
        }
    }

    /// Whether all children are of one specification.
    pub fn is_simple(self) -> bool
        ensures { result ≡ is_simple self }
    {
        matches!(self, Strategy::SimpleOneForOne)
    }
}

/// Whether the end of significant children ends the supervisor (Supervisor Behaviour, "Automatic Shutdown").
#[derive(Clone, Copy, Debug, PartialEq, Eq)]
pub enum AutoShutdown {
    /// It does not, and no child may be significant.
    Never,
    /// The end of any significant child does.
    AnySignificant,
    /// The end of the last significant child does.
    AllSignificant,
}

impl AutoShutdown {
    /// All values of the flag, in the manual's order.
    pub fn all() -> [Self; 3]
        ensures { (each : AutoShutdown) → Contains result each }
    {
        [
            AutoShutdown::Never,
            AutoShutdown::AnySignificant,
            AutoShutdown::AllSignificant,
        ]
    }

    /// Its word, as it is printed and read.
    #[tactic(auto, unfolding(crate::specs::Words::auto_shutdown_word, crate::specs::Words::auto_shutdown_of))]
    pub fn word(self) -> &'static str
        ensures word { result.now ≡ auto_shutdown_word self }
        ensures read_back { auto_shutdown_of result.now ≡ Some self }
    {
        match self {
            AutoShutdown::Never => "never",
            AutoShutdown::AnySignificant => "any_significant",
            AutoShutdown::AllSignificant => "all_significant",
        }
    }

    /// The automatic shutdown of a word, if it is the word of one.
    #[tactic(auto, unfolding(crate::specs::Words::auto_shutdown_of))]
    pub fn of_word(word: &[u8]) -> Option<Self>
        ensures { result ≡ auto_shutdown_of word.now }
    {
        if is_word(word, AutoShutdown::Never.word()) {
            Some(AutoShutdown::Never)
        } else if is_word(word, AutoShutdown::AnySignificant.word()) {
            Some(AutoShutdown::AnySignificant)
        } else if is_word(word, AutoShutdown::AllSignificant.word()) {
            Some(AutoShutdown::AllSignificant)
        } else {
            None
        }
    }
}

/// The flags of a supervisor (Supervisor Behaviour, "Supervisor Flags").
#[derive(Clone, Copy, Debug, PartialEq, Eq)]
pub struct SupFlags {
    pub strategy: Strategy,
    /// How many restarts within `period` the supervisor bears: at most [`MAX_INTENSITY`].
    pub intensity: u64,
    /// Seconds: 1 to [`MAX_PERIOD`].
    pub period: u64,
    pub auto_shutdown: AutoShutdown,
}

impl Default for SupFlags {
    ghost is_default = { λ flags. flags ≡ default_flags };

    /// One for one, at most 1 restart in 5 seconds, no automatic shutdown: the manual's defaults.
    fn default() -> Self
        ensures { result ≡ default_flags }
    {
        SupFlags {
            strategy: Strategy::OneForOne,
            intensity: DEFAULT_INTENSITY,
            period: DEFAULT_PERIOD,
            auto_shutdown: AutoShutdown::Never,
        }
    }
}

/// Tests the limits of the flags.
///
/// # Errors
///
/// [`SpecFault::BadFlag`] exactly where the intensity is above [`MAX_INTENSITY`], or the period is not 1 to
/// [`MAX_PERIOD`] seconds.
pub fn check_flags(flags: &SupFlags) -> Result<(), SpecFault>
    ensures { result ≡ answer_of (flags_fault flags.now) }
{
    if flags.intensity <= MAX_INTENSITY && 1 <= flags.period && flags.period <= MAX_PERIOD {
        Ok(())
    } else {
        Err(SpecFault::BadFlag)
    }
}
