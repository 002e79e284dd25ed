// An inbox before it has a number and a name.
ghost use Rattle.std.specs.Prelude.{◌≡◌};
ghost use Rattle.otp_inbox.specs.Tokens.{first_sender, first_taker};

use crate::inbox::Inbox;
use crate::mail::Mail;
use crate::naming::InboxNaming;
use crate::rule::{ALL_PARTS, Pass, Queue, Roles};
use crate::sender::Sender;
use crate::taker::Taker;
use otp_tally::Tally;
use std::alloc::{AllocError, Global};
use std::marker::{Model, PhantomData};

/// An empty inbox with its taker and its first sender, which has no number and no name yet.
///
/// Contracts see it as its identity. Since no value whose type has a name can leave the call that
/// picks the name, inboxes are opened first; that call gets them and names them all.
pub struct UnnamedInbox<P, T: Mail<P>> {
    queue: Queue<P, T>,
    taker: Pass<P, T>,
    sender: Pass<P, T>,
}

impl<P, T: Mail<P>> Model for UnnamedInbox<P, T> {
    ghost use Rattle.std.specs.Prelude.{◌≡◌, []};
    ghost use Rattle.crossbeam_queue.specs.SegTies.{IsSegPassOf};
    ghost use Rattle.otp_inbox.specs.Names.{InboxId};
    ghost use Rattle.otp_inbox.specs.Rule.{taking, sending};
    ghost use Rattle.otp_inbox.specs.Tokens.{all_parts, no_shares};

    ghost Value = { InboxId };

    ghost view = { λ i. i.queue };

    ghost invariant = { λ i. IsSegPassOf i.queue i.taker × (i.taker.me.view.client ≡ taking [] no_shares) × IsSegPassOf i.queue i.sender × (i.sender.me.view.client ≡ sending all_parts [] [] no_shares) };
}

impl<P, T: Mail<P>> UnnamedInbox<P, T> {
    /// Opens an inbox. Nothing was sent to it and nothing taken, as the clauses of
    /// [`named`](UnnamedInbox::named) say.
    pub fn open(alloc: Global) -> Result<UnnamedInbox<P, T>, AllocError> {
        let (queue, mut taker) = Queue::<P, T>::with_rule(alloc)?;
        let sender = queue.another::<Roles>(&mut taker);
        Ok(UnnamedInbox {
            queue,
            taker,
            sender,
        })
    }

    /// Gives it the number that it has by the name `N`.
    pub fn named<N: InboxNaming>(
        self,
        number: usize,
    ) -> (Inbox<N, P, T>, Taker<N, P, T>, Sender<N, P, T>)
        requires { self ≡ N.inbox number }
        ensures inbox { result.0 ≡ number }
        ensures taker { result.1 ≡ first_taker number }
        ensures sender { result.2 ≡ first_sender number }
    {
        let UnnamedInbox {
            queue,
            taker,
            sender,
        } = self;
        let inbox = Inbox {
            number,
            queue,
            of: PhantomData,
        };
        let taker = Taker {
            number,
            count: 0,
            empty_finds: Tally::new(),
            pass: taker,
            of: PhantomData,
        };
        let sender = Sender {
            number,
            parts: ALL_PARTS,
            count: 0,
            pass: sender,
            of: PhantomData,
        };
        (inbox, taker, sender)
    }
}

impl<P, T: Mail<P>> Drop for UnnamedInbox<P, T> {
    fn drop(self) {
        let UnnamedInbox {
            queue,
            taker: _,
            sender: _,
        } = self;
        queue.destroy();
    }
}
