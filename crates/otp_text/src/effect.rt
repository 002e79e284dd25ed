//! Orders as lines.

ghost use Rattle.std.specs.Prelude.{◌≡◌, ◌++◌, Option, OnOk, OnErr, OnSome, option_copied};
ghost use Rattle.otp_rules.specs.declared.call.Reply.{Reply};
ghost use Rattle.otp_text.specs.Effects.{order_line, reply_line, effect_line};
ghost use Rattle.otp_text.specs.Values.{child_name_text};

use crate::reply::write_reply;
use crate::short::ShortText;
use crate::value::{write_byte, write_child_name, write_number, write_process, write_reason};
use otp_reason::Name;
use otp_rules::{Effect, Reply};
use std::alloc::{AllocError, Global};

/// Prints orders, each as one line.
#[derive(Drop)]
pub struct Printer {
    // The line being made: it goes out whole or not at all.
    line: Vec<u8>,
}

impl Printer {
    /// A printer; it takes no memory before its first line.
    pub fn new(alloc: Global) -> Self {
        Printer {
            line: Vec::new(alloc),
        }
    }

    /// Appends the line of an order, its end of line included. `reply` is the answer that a
    /// [`Effect::Reply`] tells of: without it that order has no line. Other orders don't look at it.
    ///
    /// # Errors
    ///
    /// Where memory is refused, and then `out` is as it was.
    pub fn print(
        &mut self,
        effect: &Effect,
        reply: Option<&Reply>,
        out: &mut Vec<u8>,
    ) -> Result<(), AllocError>
        ensures ok { OnOk result (out.new.items ≡ out.old.items ++ effect_line effect.now (option_copied reply.entry)) }
        ensures err { OnErr result (out.new.items ≡ out.old.items) }
    {
        let mut short = ShortText::new();
        if let Some(()) = add_effect(effect, &mut short) {
            return out.extend_from_slice(short.as_bytes());
        }
        self.line.clear();
        write_effect(effect, reply, &mut self.line)?;
        out.extend_from_slice(self.line.as_slice())
    }
}

/// Adds the line of what is asked of a child. Other orders are longer, or are rare: they aren't added.
#[tactic(auto, unfolding(crate::specs::Effects::effect_line))]
fn add_effect(effect: &Effect, text: &mut ShortText) -> Option<()>
    ensures { (reply : Option Reply) → OnSome result (text.new ≡ text.old ++ effect_line effect.now reply) }
{
    match effect {
        Effect::Start(name, number) => add_order(b"start ", name, *number, text),
        Effect::Ask(name, number) => add_order(b"ask ", name, *number, text),
        Effect::Kill(name, number) => add_order(b"kill ", name, *number, text),
        Effect::Reply(_) | Effect::Ready | Effect::End(_) => None,
    }
}

/// Adds the line of what is asked of a child.
#[tactic(auto, unfolding(crate::specs::Effects::order_line))]
fn add_order(word: &[u8], name: &Option<Name>, number: u64, text: &mut ShortText) -> Option<()>
    ensures { OnSome result (text.new ≡ text.old ++ order_line word.now name.now number) }
{
    text.add(word)?;
    add_child_name(name, text)?;
    text.add(b" ")?;
    text.add_process(number)?;
    text.add(b"\n")
}

/// Adds a child's id, or `-` for a dynamic child.
#[tactic(auto, unfolding(crate::specs::Values::child_name_text))]
fn add_child_name(name: &Option<Name>, text: &mut ShortText) -> Option<()>
    ensures { OnSome result (text.new ≡ text.old ++ child_name_text name.now) }
{
    match name {
        None => text.add(b"-"),
        Some(id) => text.add(id.as_bytes()),
    }
}

/// Appends the line of an order.
#[tactic(auto, unfolding(crate::specs::Effects::effect_line))]
fn write_effect(effect: &Effect, reply: Option<&Reply>, out: &mut Vec<u8>) -> Result<(), AllocError>
    ensures { OnOk result (out.new.items ≡ out.old.items ++ effect_line effect.now (option_copied reply.entry)) }
{
    match effect {
        Effect::Start(name, number) => write_order(b"start ", name, *number, out),
        Effect::Ask(name, number) => write_order(b"ask ", name, *number, out),
        Effect::Kill(name, number) => write_order(b"kill ", name, *number, out),
        Effect::Reply(call) => write_answered(*call, reply, out),
        Effect::Ready => out.extend_from_slice(b"ready\n"),
        Effect::End(end) => {
            out.extend_from_slice(b"end ")?;
            write_reason(&end.reason, out)?;
            write_byte(b'\n', out)
        }
    }
}

/// Appends the line of what is asked of a child.
#[tactic(auto, unfolding(crate::specs::Effects::order_line))]
fn write_order(
    word: &[u8],
    name: &Option<Name>,
    number: u64,
    out: &mut Vec<u8>,
) -> Result<(), AllocError>
    ensures { OnOk result (out.new.items ≡ out.old.items ++ order_line word.now name.now number) }
{
    out.extend_from_slice(word)?;
    write_child_name(name, out)?;
    write_byte(b' ', out)?;
    write_process(number, out)?;
    write_byte(b'\n', out)
}

/// Appends the line of a call's answer, and nothing without the answer.
#[tactic(auto, unfolding(crate::specs::Effects::reply_line))]
fn write_answered(call: u64, reply: Option<&Reply>, out: &mut Vec<u8>) -> Result<(), AllocError>
    ensures { OnOk result (out.new.items ≡ out.old.items ++ reply_line call (option_copied reply.entry)) }
{
    match reply {
        None => Ok(()),
        Some(reply) => {
            out.extend_from_slice(b"reply ")?;
            write_number(call, out)?;
            write_byte(b' ', out)?;
            write_reply(reply, out)?;
            write_byte(b'\n', out)
        }
    }
}
