//! How an office sends its orders.
ghost use Rattle.std.specs.Prelude.{◌≡◌, ◌+◌, ◌<◌, ◌^◌, [], true, drop, is_some, option_copied, IsSome, MatchOption, None};
ghost use Rattle.otp_reason.specs.declared.note.Note.{Note};
ghost use Rattle.otp_rules.specs.declared.event.Item.TheVariants as item;
ghost use Rattle.otp_spec.specs.declared.limits.TheConstants.{MAX_CHILDREN};
ghost use Rattle.otp_core.specs.View.{state_of};
ghost use Rattle.otp_bodies.specs.Flushes.{IsFirst, Posts, Posted, FlushesTo, first_end};
ghost use Rattle.otp_bodies.specs.Ports.{carried};
ghost use Rattle.otp_bodies.specs.Letters.{Comes, is_end_note, one_if};
ghost use Rattle.otp_bodies.specs.declared.office.orders.Sending.TheVariants as sending;
ghost use Rattle.otp_bodies.specs.declared.port.Flushed.TheVariants as flushed;
ghost use Rattle.otp_bodies.specs.Rows.{slot_of};
ghost use Rattle.otp_bodies.specs.Orders.{has_some};
ghost use Rattle.otp_bodies.specs.Offices.{slot_to_start, words_with_first};
ghost use Rattle.otp_bodies.specs.Posts.{WerePosted, words_in};

use crate::office::office::Office;
use crate::office::orders::{Sending, end_in, first_order, sending_of};
use crate::office::rows::slot_of;
use crate::{Flushed, NewProcess, Port};
use otp_rules::{SupEnd, laws};
use otp_signals::{Signal, Words, WordsNaming};

impl<N: WordsNaming> Office<N> {
    /// How the first order is to be sent.
    fn first(&self) -> Option<Sending>
        ensures { MatchOption result (self.now.outbox ≡ []) (λ how. IsFirst self.now how) }
    {
        let effects = self.core.effects();
        let place = first_order(effects, self.next);
        if place >= effects.len() {
            return None;
        }
        sending_of(&effects[place], self.core.own_number())
    }

    /// The end that the first order tells, if it is that of an end.
    fn first_end(&self) -> Option<&SupEnd>
        ensures end { option_copied result ≡ first_end self.now.outbox }
        ensures comes { (note : Note) → IsFirst self.now (sending.Tell note) → Comes (item.Note note) (first_end self.now.outbox) }
        ensures whole { (note : Note) → IsFirst self.now (sending.Tell note) → is_some (first_end self.now.outbox) ≡ is_end_note note }
        // To tell something needs no post.
        ensures posted { (note : Note) → IsFirst self.now (sending.Tell note) → WerePosted (words_with_first self.now) (words_in self.now.owner.posts) }
    {
        laws::end_evidence();
        let effects = self.core.effects();
        let place = first_order(effects, self.next);
        if place >= effects.len() {
            return None;
        }
        end_in(&effects[place])
    }

    /// The slot, counted from 0, of the row that has this process.
    fn row_slot(&self, number: u64) -> usize
        ensures slot { result ≡ slot_of (state_of self.now.core).rows number }
        ensures below { result < MAX_CHILDREN }
        ensures fits { self.now.first_slot + MAX_CHILDREN < 2 ^ 64 }
    {
        laws::slots_are_owned();
        let _ = self.core.history();
        slot_of(&self.core, number)
    }

    /// Posts what the first order says, to the slot of the row that has its process.
    fn post(&mut self, words: &Words<N>, number: u64, told: Signal) -> usize
        requires { Posts self.old number told }
        ensures posted { Posted self.old self.new number told result }
        ensures words { WerePosted (words_with_first self.new) (words_in self.new.owner.posts) }
    {
        laws::orders_are_numbered();
        let _ = self.core.history();
        let slot = self.first_slot + self.row_slot(number);
        words.post(&mut self.owner, slot, number, told);
        slot
    }

    /// The first order was sent: it leaves the outbox. Its word, if it has one, was posted.
    fn drop_first(&mut self)
        requires some { has_some self.old.outbox ≡ true }
        requires posted { WerePosted (words_with_first self.old) (words_in self.old.owner.posts) }
        ensures { self.new ≡ record self.old { outbox = drop 1 self.old.outbox; sent = self.old.sent + 1 } }
    {
        let effects = self.core.effects();
        self.next = first_order(effects, self.next) + 1;
        self.sent.raise();
    }

    /// The row's slot, counted from 0, whose child is to be started by the first order.
    pub fn starting_slot(&self) -> Option<usize>
        ensures { result ≡ slot_to_start self.now }
    {
        match self.first() {
            Some(Sending::Start(_, number)) => Some(self.row_slot(number)),
            _ => None,
        }
    }

    /// Sends the first order: posts what it says, of which the port hears; and puts the process with this body, which a start must
    /// have, or tells the parent. What comes back is the body, but for a process that the port took with it.
    pub fn flush_one<B: Drop, P: Port<B>>(
        &mut self,
        words: &Words<N>,
        body: Option<B>,
        port: &mut P,
    ) -> (Flushed, Option<B>)
        requires { IsSome (slot_to_start self.old) → IsSome body }
        ensures flushed { FlushesTo result.0 self.old self.new (P.processes port.old) (P.notes port.old) (P.refusals port.old) (P.processes port.new) (P.notes port.new) (P.refusals port.new) }
        ensures bodies { one_if (is_some result.1) + carried (P.processes port.new) ≡ one_if (is_some body) + carried (P.processes port.old) }
        ensures whose { IsSome result.1 → IsSome body }
        ensures back { result.0 ≡ flushed.Refused → result.1 ≡ body }
        ensures gone { result.0 ≡ flushed.Sent → IsSome (slot_to_start self.old) → result.1 ≡ None }
        ensures beside { P.beside port.new ≡ P.beside port.old }
    {
        let Some(how) = self.first() else {
            return (Flushed::Empty, body);
        };
        match how {
            Sending::Start(id, number) => {
                let again = self.core.starts_again();
                let slot = self.post(words, number, Signal::None);
                let process = NewProcess {
                    number,
                    slot,
                    id,
                    again,
                    body,
                };
                if let Err(back) = port.put(process) {
                    return (Flushed::Refused, back.body);
                }
                self.drop_first();
                (Flushed::Sent, None)
            }
            Sending::Ask(number) => {
                let slot = self.post(words, number, Signal::Shutdown);
                port.posted(slot);
                self.drop_first();
                (Flushed::Sent, body)
            }
            Sending::Kill(number) => {
                let slot = self.post(words, number, Signal::Kill);
                port.posted(slot);
                self.drop_first();
                (Flushed::Sent, body)
            }
            Sending::Tell(note) => {
                let end = self.first_end();
                if let Err(_) = port.send(note, end) {
                    return (Flushed::Refused, body);
                }
                self.drop_first();
                (Flushed::Sent, body)
            }
        }
    }
}
