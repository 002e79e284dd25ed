//! The rule of the word, the steps that are made on it, and how seats are split and joined.
use crate::counts::view::CountsView;
use atomic_table::{Join, Play, Split, TableRule};

/// The rule, which each step keeps.
pub struct LastStands;

impl TableRule<u8, CountsView, u64> for LastStands {
    ghost use Rattle.otp_signals.specs.CountsRules.{KeepsRule, first_view};

    ghost holds = { λ _ state. KeepsRule state };

    ghost first = { λ word. first_view word };
}

/// A word is published.
pub struct Publish;

impl Play<u8, CountsView> for Publish {
    ghost use Rattle.otp_signals.specs.CountsRules.{Publishes};

    ghost then = { Publishes };
}

/// The word is read.
pub struct Read;

impl Play<u8, CountsView> for Read {
    ghost use Rattle.otp_signals.specs.CountsRules.{Reads};

    ghost then = { Reads };
}

/// Who publishes and holds what a pass saw learns that it is a beginning of what was published. It changes nothing.
pub struct Witness;

impl Play<u8, CountsView> for Witness {
    ghost use Rattle.otp_signals.specs.CountsRules.{Witnesses};

    ghost then = { Witnesses };
}

/// A pass is split off.
pub struct Apart;

impl Split<CountsView> for Apart {
    ghost use Rattle.otp_signals.specs.CountsRules.{blank_view};

    ghost left = { λ v. v };

    ghost right = { λ _. blank_view };
}

/// Who publishes takes in what a pass saw.
pub struct Lend;

impl Join<CountsView> for Lend {
    ghost use Rattle.otp_signals.specs.CountsRules.{lent_view, blank_view};

    ghost both = { λ v w. lent_view v w };

    ghost spent = { blank_view };
}

/// Who publishes gives back what a pass saw.
pub struct GiveBack;

impl Split<CountsView> for GiveBack {
    ghost use Rattle.otp_signals.specs.CountsRules.{publisher_view, pass_view};

    ghost left = { λ v. publisher_view v };

    ghost right = { λ v. pass_view v };
}
