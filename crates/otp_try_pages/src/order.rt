//! Orders as objects, and children that are up again.

ghost use Rattle.std.specs.Prelude.{◌≡◌, ◌++◌, OnOk, true};
ghost use Rattle.otp_try_pages.specs.Objects.{child_object, comma_if, down_object, is_among, next_object, object_of, objects_array, objects_from, order_head, order_object, own_object};

use crate::words::{
    first_word, is_child_verb, is_down, number_in, order_in, own_part, path_part, rest_of,
};
use otp_costs::limits::supervisor_path;
use otp_json::{put_key, put_optional, put_text};
use std::alloc::AllocError;

/// Appends when an order was given, and its word.
#[tactic(auto, unfolding(crate::specs::Objects::order_head))]
fn put_head(line: &[u8], verb: &[u8], out: &mut Vec<u8>) -> Result<(), AllocError>
    ensures { OnOk result (out.new.items ≡ out.old.items ++ order_head line.now verb.now) }
{
    put_key(b"{", b"seconds", out)?;
    out.extend_from_slice(first_word(line))?;
    put_text(b", ", b"order", verb, out)
}

/// Appends the object of an order for the process of a child, of which this stands behind the word.
#[tactic(auto, unfolding(crate::specs::Objects::child_object))]
fn put_child(line: &[u8], verb: &[u8], rest: &[u8], out: &mut Vec<u8>) -> Result<(), AllocError>
    ensures { OnOk result (out.new.items ≡ out.old.items ++ child_object line.now verb.now rest.now) }
{
    put_head(line, verb, out)?;
    put_text(b", ", b"child", first_word(rest), out)?;
    put_optional(b", ", b"process", number_in(rest_of(rest)), out)?;
    out.extend_from_slice(b"}")
}

/// Appends the object of an order of the supervisor with this path, of which this stands behind the word.
#[tactic(auto, unfolding(crate::specs::Objects::own_object))]
fn put_own(
    line: &[u8],
    verb: &[u8],
    path: &[u8],
    rest: &[u8],
    out: &mut Vec<u8>,
) -> Result<(), AllocError>
    ensures { OnOk result (out.new.items ≡ out.old.items ++ own_object line.now verb.now path.now rest.now) }
{
    put_head(line, verb, out)?;
    put_text(b", ", b"supervisor", supervisor_path(path), out)?;
    put_text(b", ", b"text", rest, out)?;
    out.extend_from_slice(b"}")
}

/// Appends the object of an order, of which this line was told.
#[tactic(auto, unfolding(crate::specs::Objects::order_object))]
fn put_order(line: &[u8], out: &mut Vec<u8>) -> Result<(), AllocError>
    ensures { OnOk result (out.new.items ≡ out.old.items ++ order_object line.now) }
{
    let order = order_in(line);
    let own = own_part(order);
    let verb = first_word(own);
    if is_child_verb(verb) {
        put_child(line, verb, rest_of(own), out)
    } else {
        put_own(line, verb, path_part(order), rest_of(own), out)
    }
}

/// Appends the object of a child that is up again, of which this line was told, and this behind its time.
#[tactic(auto, unfolding(crate::specs::Objects::down_object))]
fn put_down(line: &[u8], order: &[u8], out: &mut Vec<u8>) -> Result<(), AllocError>
    ensures { OnOk result (out.new.items ≡ out.old.items ++ down_object line.now order.now) }
{
    put_key(b"{", b"seconds", out)?;
    out.extend_from_slice(first_word(line))?;
    put_text(b", ", b"child", first_word(order), out)?;
    put_key(b", ", b"down", out)?;
    out.extend_from_slice(first_word(rest_of(rest_of(rest_of(order)))))?;
    out.extend_from_slice(b"}")
}

/// Whether the line tells how long a child was down, where that is asked; or else whether it tells an order.
#[tactic(auto, unfolding(crate::specs::Objects::is_among))]
fn is_among(asks_down: bool, line: &[u8]) -> bool
    ensures { result ≡ is_among asks_down line.now }
{
    if asks_down {
        is_down(order_in(line))
    } else {
        !is_down(order_in(line))
    }
}

/// Appends the object of a line, which tells how long a child was down or an order.
#[tactic(auto, unfolding(crate::specs::Objects::object_of))]
fn put_object(asks_down: bool, line: &[u8], out: &mut Vec<u8>) -> Result<(), AllocError>
    ensures { OnOk result (out.new.items ≡ out.old.items ++ object_of asks_down line.now) }
{
    if asks_down {
        put_down(line, order_in(line), out)
    } else {
        put_order(line, out)
    }
}

/// Appends a comma, but before the first.
#[tactic(auto, unfolding(crate::specs::Objects::comma_if))]
pub(crate) fn put_comma(is_first: bool, out: &mut Vec<u8>) -> Result<(), AllocError>
    ensures { OnOk result (out.new.items ≡ out.old.items ++ comma_if is_first) }
{
    if is_first {
        Ok(())
    } else {
        out.extend_from_slice(b", ")
    }
}

/// Appends the object of a line behind others, if there are some; nothing of one that tells the other.
#[tactic(auto, unfolding(crate::specs::Objects::next_object))]
fn put_next(
    asks_down: bool,
    is_first: bool,
    line: &[u8],
    out: &mut Vec<u8>,
) -> Result<(), AllocError>
    ensures { OnOk result (out.new.items ≡ out.old.items ++ next_object asks_down is_first line.now) }
{
    if !is_among(asks_down, line) {
        return Ok(());
    }
    put_comma(is_first, out)?;
    put_object(asks_down, line, out)
}

/// Appends the objects of those lines that tell how long a child was down, or of those that tell orders; the first has begun so.
/// Each ends with LF.
fn put_objects_from(
    asks_down: bool,
    told: &[u8],
    line: &mut Vec<u8>,
    out: &mut Vec<u8>,
) -> Result<(), AllocError>
    ensures { OnOk result (out.new.items ≡ out.old.items ++ objects_from asks_down true line.old.items told.now) }
{
    let mut is_first = true;
    for byte in told {
        if *byte == b'\n' {
            put_next(asks_down, is_first, line.as_slice(), out)?;
            is_first = is_first && !is_among(asks_down, line.as_slice());
            line.clear();
        } else {
            line.push(*byte).map_err(|_| AllocError)?;
        }
    }
    Ok(())
}

/// Appends the array of those lines that tell how long a child was down, or of those that tell orders. The word is a place for a
/// text.
#[tactic(auto, unfolding(crate::specs::Objects::objects_array))]
pub(crate) fn put_objects(
    asks_down: bool,
    told: &[u8],
    word: &mut Vec<u8>,
    out: &mut Vec<u8>,
) -> Result<(), AllocError>
    ensures { OnOk result (out.new.items ≡ out.old.items ++ objects_array asks_down told.now) }
{
    word.clear();
    out.extend_from_slice(b"[")?;
    put_objects_from(asks_down, told, word, out)?;
    out.extend_from_slice(b"]")
}
