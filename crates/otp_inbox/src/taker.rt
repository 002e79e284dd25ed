// The taker.
ghost use Rattle.std.specs.Prelude.{◌≡◌, length, min};
ghost use Rattle.otp_inbox.specs.Tokens.{count_limit};

use crate::mail::Mail;
use crate::naming::InboxNaming;
use crate::rule::Pass;
use otp_tally::Tally;
use std::marker::{Model, PhantomData};

/// The right to take from one inbox. Each inbox has one taker.
#[derive(Drop)]
pub struct Taker<N: InboxNaming, P, T: Mail<P>> {
    pub(crate) number: usize,
    pub(crate) count: u64,
    pub(crate) empty_finds: Tally,
    pub(crate) pass: Pass<P, T>,
    pub(crate) of: PhantomData<N>,
}

impl<N: InboxNaming, P, T: Mail<P>> Model for Taker<N, P, T> {
    ghost use Rattle.std.specs.Prelude.{◌≡◌, length, min};
    ghost use Rattle.crossbeam_queue.specs.SegTies.{IsSegPassOf};
    ghost use Rattle.otp_inbox.specs.Tokens.{TakerState};
    ghost use Rattle.otp_inbox.specs.Rule.{IsTaking};

    ghost Value = { TakerState P };

    ghost view = { λ t. record { inbox = t.number; taken = t.pass.me.view.client.taken; empty_finds = t.empty_finds.count; given = t.pass.me.view.client.given } };

    ghost invariant = { λ t. IsSegPassOf (N.inbox t.number) t.pass × IsTaking t.count t.pass.me.view.client };
}

impl<N: InboxNaming, P, T: Mail<P>> Taker<N, P, T> {
    /// The number of its inbox.
    pub fn number(&self) -> usize
        ensures { result ≡ self.now.inbox }
    {
        self.number
    }

    /// How many items it took. The count stops at [`COUNT_LIMIT`](crate::COUNT_LIMIT), 2^62.
    pub fn taken_count(&self) -> u64
        ensures { result ≡ min (length self.now.taken) count_limit }
    {
        self.count
    }
}
