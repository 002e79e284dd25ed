//! What is sent to a supervisor. Most of it is notes, so the specification that a call brings stands apart, in a box, and so
//! does the end of a supervisor: a letter takes 104 bytes and those of its body's place, and more only where it brings either.
ghost use Rattle.std.specs.Prelude.{◌≡◌, is_some, option_copied, IfErr, IfOk, IfSome, None};
ghost use Rattle.otp_bodies.specs.Letters.{Comes, carries_body};
ghost use Rattle.otp_bodies.specs.LetterInside.{call_of, item_of};
ghost use Rattle.otp_rules.specs.declared.event.Item.TheVariants as item;

use crate::told::Evidence;
use otp_inbox::Mail;
use otp_reason::{Name, Note};
use otp_rules::{Call, Item, SupEnd};
use otp_spec::ChildSpec;
use std::alloc::Global;
use std::marker::Model;

/// What a call asks, its specification in a box.
#[derive(Drop)]
pub(crate) enum Asked {
    StartChild(Box<ChildSpec, Global>),
    StartDynamic,
    RestartChild(Name),
    DeleteChild(Name),
    TerminateChild(Name),
    TerminateProcess(u64),
    WhichChildren,
    CountChildren,
    GetChildspec(Name),
}

/// A letter without its body, as contracts see it on its way: what it says, and the end that it tells. No value of it is made.
pub struct Message {
    pub item: Item,
    pub end: Option<Evidence>,
}

#[derive(Drop)]
pub(crate) enum Content {
    Note(Note),
    Call(u64, Asked),
}

/// A note or a call, with the body that it brings: an end note brings the child's body home, a start call brings the
/// body of the child to be started, and no other item brings one. The note of a supervisor's end brings that end too, which
/// has the note's reason and is shown.
#[derive(Drop)]
pub struct Letter<B: Drop> {
    content: Content,
    body: Option<B>,
    end: Option<Evidence>,
}

impl<B: Drop> Model for Letter<B> {
    ghost use Rattle.std.specs.Prelude.{◌≡◌, is_some};
    ghost use Rattle.otp_bodies.specs.Letters.{Comes, Sending, carries_body};
    ghost use Rattle.otp_bodies.specs.LetterInside.{item_of};

    ghost Value = { Sending B };

    ghost view = { λ l. record { item = item_of l.content; body = l.body; end = l.end } };

    ghost invariant = { λ l. (is_some l.body ≡ carries_body (item_of l.content)) × Comes (item_of l.content) l.end };
}

impl<B: Drop> Mail<Message> for Letter<B> {
    ghost use Rattle.otp_bodies.specs.Messages.{message};

    ghost plain = { λ l. message l.item l.end };
}

impl<B: Drop> Letter<B> {
    /// A note that brings no supervisor's end. It takes no memory.
    #[tactic(auto, unfolding(crate::specs::Letters::Comes))]
    pub fn note(note: Note, body: Option<B>) -> Self
        requires { is_some body ≡ carries_body (item.Note note) }
        ensures { result ≡ record { item = item.Note note; body = body; end = None } }
    {
        Letter {
            content: Content::Note(note),
            body,
            end: None,
        }
    }

    /// A note, with the end that it tells, if it is a supervisor's. It takes no memory.
    pub fn with_end(note: Note, body: Option<B>, end: Option<Evidence>) -> Self
        requires body { is_some body ≡ carries_body (item.Note note) }
        requires end { Comes (item.Note note) end }
        ensures { result ≡ record { item = item.Note note; body = body; end = end } }
    {
        Letter {
            content: Content::Note(note),
            body,
            end,
        }
    }

    /// A call. One that brings a specification takes memory for it; where that is refused the body comes back.
    #[tactic(auto, unfolding(crate::specs::Letters::Comes))]
    pub fn call(alloc: Global, number: u64, call: Call, body: Option<B>) -> Result<Self, Option<B>>
        requires { is_some body ≡ carries_body (item.Call number call) }
        ensures ok { IfOk result (λ letter. letter ≡ record { item = item.Call number call; body = body; end = None }) }
        ensures err { IfErr result (λ back. back ≡ body) }
    {
        let Some(asked) = asked_of(alloc, call) else {
            return Err(body);
        };
        Ok(Letter {
            content: Content::Call(number, asked),
            body,
            end: None,
        })
    }

    /// The end that it tells, if it is the note of a supervisor's end.
    pub fn end(&self) -> Option<&SupEnd>
        ensures { option_copied result ≡ self.now.end }
    {
        match &self.end {
            Some(end) => Some(end.end()),
            None => None,
        }
    }

    /// What it says, its body, and the end that it tells.
    pub fn into_parts(self) -> (Item, Option<B>, Option<Evidence>)
        ensures item { result.0 ≡ self.item }
        ensures body { result.1 ≡ self.body }
        ensures end { result.2 ≡ self.end }
        ensures comes { Comes result.0 result.2 }
    {
        let Letter { content, body, end } = self;
        (item_of(content), body, end)
    }
}

/// What the call asks. None where memory for its specification is refused.
fn asked_of(alloc: Global, call: Call) -> Option<Asked>
    ensures { IfSome result (λ what. call_of what ≡ call) }
{
    Some(match call {
        Call::StartChild(spec) => Asked::StartChild(Box::new(alloc, spec).ok()?),
        Call::StartDynamic => Asked::StartDynamic,
        Call::RestartChild(id) => Asked::RestartChild(id),
        Call::DeleteChild(id) => Asked::DeleteChild(id),
        Call::TerminateChild(id) => Asked::TerminateChild(id),
        Call::TerminateProcess(number) => Asked::TerminateProcess(number),
        Call::WhichChildren => Asked::WhichChildren,
        Call::CountChildren => Asked::CountChildren,
        Call::GetChildspec(id) => Asked::GetChildspec(id),
    })
}

fn call_of(what: Asked) -> Call
    ensures { result ≡ call_of what }
{
    match what {
        Asked::StartChild(spec) => Call::StartChild(Box::into_inner(spec)),
        Asked::StartDynamic => Call::StartDynamic,
        Asked::RestartChild(id) => Call::RestartChild(id),
        Asked::DeleteChild(id) => Call::DeleteChild(id),
        Asked::TerminateChild(id) => Call::TerminateChild(id),
        Asked::TerminateProcess(number) => Call::TerminateProcess(number),
        Asked::WhichChildren => Call::WhichChildren,
        Asked::CountChildren => Call::CountChildren,
        Asked::GetChildspec(id) => Call::GetChildspec(id),
    }
}

fn item_of(content: Content) -> Item
    ensures { result ≡ item_of content }
{
    match content {
        Content::Note(note) => Item::Note(note),
        Content::Call(number, what) => Item::Call(number, call_of(what)),
    }
}
