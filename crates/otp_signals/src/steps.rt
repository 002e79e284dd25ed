//! The rules of the words, the steps that are made on them, and how tokens are split and joined.
use crate::view::SignalsView;
use atomic_table::{Join, Play, Split, TableRule};
use std::marker::{Brand, PhantomData};

/// The number rule and the signal rule, which each step keeps.
pub struct BothRules;

impl TableRule<u8, SignalsView, usize> for BothRules {
    ghost use Rattle.otp_signals.specs.Rules.{KeepsRules, first_view};

    ghost holds = { λ slots state. KeepsRules slots state };

    ghost first = { λ slots. first_view slots };
}

/// A number is drawn.
pub struct Draw;

impl Play<u8, SignalsView> for Draw {
    ghost use Rattle.otp_signals.specs.Rules.{Draws};

    ghost then = { Draws };
}

/// A word is posted.
pub struct Post;

impl Play<u8, SignalsView> for Post {
    ghost use Rattle.otp_signals.specs.Rules.{Posts};

    ghost then = { Posts };
}

/// A word is looked at.
pub struct Look;

impl Play<u8, SignalsView> for Look {
    ghost use Rattle.otp_signals.specs.Rules.{Looks};

    ghost then = { Looks };
}

/// An owner learns what the number rule says of it. It changes nothing.
pub struct Learn;

impl Play<u8, SignalsView> for Learn {
    ghost use Rattle.otp_signals.specs.Rules.{Learns};

    ghost then = { Learns };
}

/// An owner that holds what a viewer saw learns what the signal rule says of it. It changes nothing.
pub struct Witness;

impl Play<u8, SignalsView> for Witness {
    ghost use Rattle.otp_signals.specs.Rules.{Witnesses};

    ghost then = { Witnesses };
}

/// What is cut off an owner: the slots from one to below another, and a quota. Each call picks it.
pub trait OwnerPiece {
    ghost use Rattle.std.specs.Prelude.{ℕ};

    ghost from: { ℕ };

    ghost to: { ℕ };

    ghost quota: { ℕ };
}

impl OwnerPiece for Brand {
    ghost from = { 0 };

    ghost to = { 0 };

    ghost quota = { 0 };
}

/// An owner is cut in two.
pub struct Cut<P: OwnerPiece> {
    of: PhantomData<P>,
}

impl<P: OwnerPiece> Split<SignalsView> for Cut<P> {
    ghost use Rattle.otp_signals.specs.Rules.{kept_view, cut_view};

    ghost left = { λ v. kept_view P.from P.to P.quota v };

    ghost right = { λ v. cut_view P.from P.to P.quota v };
}

/// A viewer is split off any token.
pub struct Apart;

impl Split<SignalsView> for Apart {
    ghost use Rattle.otp_signals.specs.Rules.{blank_view};

    ghost left = { λ v. v };

    ghost right = { λ v. blank_view };
}

/// An owner takes in what a viewer saw.
pub struct Lend;

impl Join<SignalsView> for Lend {
    ghost use Rattle.otp_signals.specs.Rules.{lent_view, blank_view};

    ghost both = { λ v w. lent_view v w };

    ghost spent = { blank_view };
}

/// An owner gives back what a viewer saw.
pub struct GiveBack;

impl Split<SignalsView> for GiveBack {
    ghost use Rattle.otp_signals.specs.Rules.{unlent_view, looks_view};

    ghost left = { λ v. unlent_view v };

    ghost right = { λ v. looks_view v };
}

/// An owner takes in another.
pub struct Merge;

impl Join<SignalsView> for Merge {
    ghost use Rattle.otp_signals.specs.Rules.{joined_view, blank_view};

    ghost both = { λ v w. joined_view v w };

    ghost spent = { blank_view };
}
