//! The events of a supervisor, kept. Most of them are short, and few have a term or a call, so these stand beside them: an
//! event takes 32 bytes, the term of its reason [`TEXT_SIZE`] more unless it is that of the last that had one, and its call
//! what a call takes.

ghost use Rattle.std.specs.Prelude.{◌≡◌, ◌+◌, ◌-◌, ◌<◌, ◌≤◌, ◌++◌, ◌∷◌, [], IsTrue, Some, length, map, slice_get, OnOk, OnErr, vec_len, vec_capacity};
ghost use Rattle.otp_reason.specs.Texts.{text_block, text_with};
ghost use Rattle.otp_machine.specs.Events.{calls_in, terms_in, terms_of};
ghost use Rattle.otp_machine.specs.HistoryInside.{is_last_block, kind_of, number_of, plain_kind, reason_as, shows_term, term_at, with_block, with_terms, KindWithin};

use crate::stores::past::PastEvents;
use otp_reason::{Note, Reason, TEXT_SIZE, Text};
use otp_rules::{Call, Event, Item, Kind};
use std::alloc::{AllocError, Global};
use std::marker::{Model, PhantomData};

/// The most terms, and the most calls, that a history has places for.
const MAX_PLACES: usize = 4_294_967_295;

/// A kind of reason.
#[derive(Clone, Copy, Debug)]
pub(crate) enum Why {
    Normal,
    Shutdown,
    ShutdownWith,
    Kill,
    Killed,
    NoProc,
    Error,
}

/// A kind of event.
#[derive(Clone, Copy, Debug)]
pub(crate) enum Tag {
    Opened,
    Up,
    Ignored,
    Failed,
    Exit,
    Called,
    Resumed,
    Ticked,
    Stopped,
}

/// What happened, its term or its call by its place.
#[derive(Clone, Copy, Debug)]
pub(crate) struct ShortKind {
    /// The process or the call that it speaks of.
    subject: u64,
    /// Where its term or its call stands.
    place: u32,
    /// How many bytes its term shows.
    shown: u8,
    tag: Tag,
    why: Why,
    /// Whether it starts a child: here, where it takes no memory of its own.
    starts: bool,
}

/// An event. Its number says nothing where it starts no child.
#[derive(Clone, Copy, Debug)]
pub(crate) struct ShortEvent {
    reading: u64,
    number: u64,
    kind: ShortKind,
}

/// The events of a supervisor in their order. Contracts see their list.
#[derive(Drop)]
pub struct History {
    events: Vec<ShortEvent>,
    /// The bytes of each term, those that it doesn't show too.
    terms: Vec<[u8; TEXT_SIZE]>,
    calls: Vec<Call>,
    /// How many more events the memory is known to hold.
    room: usize,
    /// The events that were cut off. It has no bytes.
    past: PastEvents,
}

impl Model for History {
    ghost use Rattle.otp_machine.specs.Events.{Events};

    ghost Value = { Events };

    ghost use Rattle.otp_machine.specs.HistoryInside.{events_of, IsHistory};

    ghost view = { events_of };

    ghost invariant = { IsHistory };
}

impl History {
    /// No events, and no room: takes no memory.
    pub fn new(alloc: Global) -> Self
        ensures events { result.events ≡ [] }
        ensures past { result.past ≡ [] }
    {
        History {
            past: PastEvents::new(),
            events: Vec::new(alloc),
            terms: Vec::new(alloc),
            calls: Vec::new(alloc),
            room: 0,
        }
    }

    /// How many events there are.
    pub fn len(&self) -> usize
        ensures { result ≡ length self.now.events }
    {
        self.events.len()
    }

    /// The event at a place, counted from 0.
    pub fn get(&self, place: usize) -> Event
        requires { place < length self.now.events }
        ensures { slice_get self.now.events place ≡ Some result }
    {
        let event = &self.events[place];
        Event {
            reading: event.reading,
            number: whole_number(event),
            kind: whole_kind(&self.terms, &self.calls, &event.kind),
        }
    }

    /// Takes the memory of the next `n` events, whatever they are. An `Err` leaves the history as it was; more than
    /// 4,294,967,295 terms or calls, which the history of a core never has, count as want of memory.
    pub fn reserve(&mut self, n: usize) -> Result<(), AllocError>
        ensures events { self.new.events ≡ self.old.events }
        ensures past { self.new.past ≡ self.old.past }
        ensures ok { OnOk result (n ≤ self.new.room) }
        ensures err { OnErr result (self.new ≡ self.old) }
    {
        if n <= self.room {
            return Ok(());
        }
        if self.terms.len().max(self.calls.len()).saturating_add(n) > MAX_PLACES {
            return Err(AllocError);
        }
        self.events.reserve(n)?;
        self.terms.reserve(n)?;
        self.calls.reserve(n)?;
        let events = self.events.capacity() - self.events.len();
        let terms = self.terms.capacity().min(MAX_PLACES) - self.terms.len();
        let calls = self.calls.capacity().min(MAX_PLACES) - self.calls.len();
        self.room = events.min(terms).min(calls);
        Ok(())
    }

    /// For how many more events there is memory: at least for those that were reserved.
    pub fn spare(&self) -> usize
        ensures { self.now.room ≤ result }
    {
        self.events.capacity() - self.events.len()
    }

    /// Adds an event.
    pub fn push(&mut self, reading: u64, number: Option<u64>, kind: &Kind)
        requires { 0 < self.old.room }
        ensures events { self.new.events ≡ self.old.events ++ record { reading = reading; number = number; kind = kind.now } ∷ [] }
        ensures past { self.new.past ≡ self.old.past }
        ensures room { self.new.room + 1 ≡ self.old.room }
    {
        let kind = short_kind(kind, number.is_some(), &mut self.terms, &mut self.calls);
        self.events.push_reserved(ShortEvent {
            reading,
            number: number.unwrap_or(0),
            kind,
        });
        self.room -= 1;
    }

    // All events, those that were cut off too.
    fn whole(&self) -> PastEvents
        ensures all { result.events ≡ self.now.past ++ self.now.events }
    {
        PastEvents {
            marker: PhantomData,
        }
    }

    /// Cuts all events off: their memory is kept for others, and contracts alone still see them.
    pub fn cut(&mut self)
        ensures { self.new ≡ record { past = self.old.past ++ self.old.events; events = []; room = self.old.room } }
    {
        self.past = self.whole();
        self.events.clear();
        self.terms.clear();
        self.calls.clear();
    }
}

/// An event of this kind that has neither a term nor a call.
fn plain(tag: Tag, subject: u64, starts: bool) -> ShortKind
    ensures { result ≡ plain_kind tag subject starts }
{
    ShortKind {
        subject,
        place: 0,
        shown: 0,
        tag,
        why: Why::Normal,
        starts,
    }
}

/// Whether the last of these blocks has these bytes.
fn is_last_block(terms: &[[u8; TEXT_SIZE]], bytes: &[u8; TEXT_SIZE]) -> bool
    ensures { result ≡ is_last_block bytes.now terms.now }
{
    if terms.is_empty() {
        false
    } else {
        terms[terms.len() - 1] == *bytes
    }
}

/// Puts a block last, unless it stands there: where a child fails again and again for one reason, its term is kept once.
#[tactic(auto, unfolding(crate::specs::HistoryInside::with_block))]
fn put_block(bytes: [u8; TEXT_SIZE], terms: &mut Vec<[u8; TEXT_SIZE]>)
    requires { vec_len terms.old < vec_capacity terms.old }
    ensures terms { terms.new.items ≡ with_block bytes terms.old.items }
    ensures len { vec_len terms.new ≤ vec_len terms.old + 1 }
    ensures capacity { vec_capacity terms.new ≡ vec_capacity terms.old }
{
    if !is_last_block(terms, &bytes) {
        terms.push_reserved(bytes);
    }
}

/// The place of the last of these blocks.
fn last_place(terms: &[[u8; TEXT_SIZE]]) -> u32
    requires some { 0 < length terms.now }
    requires few { length terms.now ≤ MAX_PLACES }
    ensures { result ≡ length terms.now - 1 }
{
    (terms.len() - 1) as u32
}

/// Keeps the bytes of a term. Where they stand, and how many of them it shows.
fn put_term(term: &Text, terms: &mut Vec<[u8; TEXT_SIZE]>) -> (u32, u8)
    requires room { vec_len terms.old < vec_capacity terms.old }
    requires few { vec_len terms.old < MAX_PLACES }
    ensures terms { terms.new.items ≡ with_block (text_block term.now) terms.old.items }
    ensures term { term_at terms.new.items result.0 result.1 ≡ term.now }
    ensures within { result.0 < length terms.new.items }
    ensures len { vec_len terms.new ≤ vec_len terms.old + 1 }
    ensures capacity { vec_capacity terms.new ≡ vec_capacity terms.old }
{
    let (bytes, shown) = term.parts();
    put_block(bytes, terms);
    (last_place(terms), shown)
}

/// The kind of a reason; where its term stands, and how many bytes it shows, once it is kept.
fn put_reason(reason: &Reason, terms: &mut Vec<[u8; TEXT_SIZE]>) -> (Why, u32, u8)
    requires room { vec_len terms.old < vec_capacity terms.old }
    requires few { vec_len terms.old < MAX_PLACES }
    ensures terms { terms.new.items ≡ with_terms (terms_of reason.now) terms.old.items }
    ensures reason { reason_as result.0 (term_at terms.new.items result.1 result.2) ≡ reason.now }
    ensures within { IsTrue (shows_term result.0) → result.1 < length terms.new.items }
    ensures len { vec_len terms.new ≤ vec_len terms.old + 1 }
    ensures capacity { vec_capacity terms.new ≡ vec_capacity terms.old }
{
    match reason {
        Reason::Normal => (Why::Normal, 0, 0),
        Reason::Shutdown => (Why::Shutdown, 0, 0),
        Reason::ShutdownWith(term) => {
            let (place, shown) = put_term(term, terms);
            (Why::ShutdownWith, place, shown)
        }
        Reason::Kill => (Why::Kill, 0, 0),
        Reason::Killed => (Why::Killed, 0, 0),
        Reason::NoProc => (Why::NoProc, 0, 0),
        Reason::Error(term) => {
            let (place, shown) = put_term(term, terms);
            (Why::Error, place, shown)
        }
    }
}

/// What happened, its term and its call kept, if it has any.
fn short_kind(
    kind: &Kind,
    starts: bool,
    terms: &mut Vec<[u8; TEXT_SIZE]>,
    calls: &mut Vec<Call>,
) -> ShortKind
    requires terms { vec_len terms.old < vec_capacity terms.old }
    requires calls { vec_len calls.old < vec_capacity calls.old }
    requires few_terms { vec_len terms.old < MAX_PLACES }
    requires few_calls { vec_len calls.old < MAX_PLACES }
    ensures terms { terms.new.items ≡ with_terms (terms_in kind.now) terms.old.items }
    ensures calls { calls.new.items ≡ calls.old.items ++ calls_in kind.now }
    ensures kind { kind_of terms.new.items calls.new.items result ≡ kind.now }
    ensures starts { result.starts ≡ starts }
    ensures within { KindWithin (length terms.new.items) (length calls.new.items) result }
    ensures terms_len { vec_len terms.new ≤ vec_len terms.old + 1 }
    ensures terms_capacity { vec_capacity terms.new ≡ vec_capacity terms.old }
    ensures calls_len { vec_len calls.new ≤ vec_len calls.old + 1 }
    ensures calls_capacity { vec_capacity calls.new ≡ vec_capacity calls.old }
{
    match kind {
        Kind::Opened(number) => plain(Tag::Opened, *number, starts),
        Kind::Took(Item::Note(Note::Up(number))) => plain(Tag::Up, *number, starts),
        Kind::Took(Item::Note(Note::Ignored(number))) => plain(Tag::Ignored, *number, starts),
        Kind::Took(Item::Note(Note::Failed(number, reason))) => {
            ended(Tag::Failed, *number, starts, reason, terms)
        }
        Kind::Took(Item::Note(Note::Exit(number, reason))) => {
            ended(Tag::Exit, *number, starts, reason, terms)
        }
        Kind::Took(Item::Call(number, call)) => {
            let place = calls.len() as u32;
            calls.push_reserved(*call);
            ShortKind {
                place,
                ..plain(Tag::Called, *number, starts)
            }
        }
        Kind::Resumed => plain(Tag::Resumed, 0, starts),
        Kind::Ticked => plain(Tag::Ticked, 0, starts),
        Kind::Stopped => plain(Tag::Stopped, 0, starts),
    }
}

/// The end of a process, or of its start, with its reason, the term kept.
fn ended(
    tag: Tag,
    subject: u64,
    starts: bool,
    reason: &Reason,
    terms: &mut Vec<[u8; TEXT_SIZE]>,
) -> ShortKind
    requires terms { vec_len terms.old < vec_capacity terms.old }
    requires few { vec_len terms.old < MAX_PLACES }
    ensures terms { terms.new.items ≡ with_terms (terms_of reason.now) terms.old.items }
    ensures reason { reason_as result.why (term_at terms.new.items result.place result.shown) ≡ reason.now }
    ensures within { IsTrue (shows_term result.why) → result.place < length terms.new.items }
    ensures tag { result.tag ≡ tag }
    ensures subject { result.subject ≡ subject }
    ensures starts { result.starts ≡ starts }
    ensures len { vec_len terms.new ≤ vec_len terms.old + 1 }
    ensures capacity { vec_capacity terms.new ≡ vec_capacity terms.old }
{
    let (why, place, shown) = put_reason(reason, terms);
    ShortKind {
        place,
        shown,
        why,
        ..plain(tag, subject, starts)
    }
}

fn whole_number(event: &ShortEvent) -> Option<u64>
    ensures { result ≡ number_of event.now }
{
    if event.kind.starts {
        Some(event.number)
    } else {
        None
    }
}

fn whole_term(terms: &[[u8; TEXT_SIZE]], kind: &ShortKind) -> Text
    requires { kind.now.place < length terms.now }
    ensures { result ≡ term_at terms.now kind.now.place kind.now.shown }
{
    Text::of_parts(terms[kind.place as usize], kind.shown)
}

fn whole_reason(terms: &[[u8; TEXT_SIZE]], kind: &ShortKind) -> Reason
    requires { IsTrue (shows_term kind.now.why) → kind.now.place < length terms.now }
    ensures { result ≡ reason_as kind.now.why (term_at terms.now kind.now.place kind.now.shown) }
{
    match kind.why {
        Why::Normal => Reason::Normal,
        Why::Shutdown => Reason::Shutdown,
        Why::ShutdownWith => Reason::ShutdownWith(whole_term(terms, kind)),
        Why::Kill => Reason::Kill,
        Why::Killed => Reason::Killed,
        Why::NoProc => Reason::NoProc,
        Why::Error => Reason::Error(whole_term(terms, kind)),
    }
}

fn whole_kind(terms: &[[u8; TEXT_SIZE]], calls: &[Call], kind: &ShortKind) -> Kind
    requires { KindWithin (length terms.now) (length calls.now) kind.now }
    ensures { result ≡ kind_of terms.now calls.now kind.now }
{
    let number = kind.subject;
    match kind.tag {
        Tag::Opened => Kind::Opened(number),
        Tag::Up => Kind::Took(Item::Note(Note::Up(number))),
        Tag::Ignored => Kind::Took(Item::Note(Note::Ignored(number))),
        Tag::Failed => Kind::Took(Item::Note(Note::Failed(number, whole_reason(terms, kind)))),
        Tag::Exit => Kind::Took(Item::Note(Note::Exit(number, whole_reason(terms, kind)))),
        Tag::Called => Kind::Took(Item::Call(number, calls[kind.place as usize])),
        Tag::Resumed => Kind::Resumed,
        Tag::Ticked => Kind::Ticked,
        Tag::Stopped => Kind::Stopped,
    }
}
