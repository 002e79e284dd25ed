//! Small moves of what is large. Each is a function of its own over a type parameter, since what is dropped there is one call for
//! the prover: beside a process, a letter or a hand, the drop of each of its fields is walked.
ghost use Rattle.std.specs.Prelude.{◌≡◌, ◌+◌, ◌<◌, ◌++◌, ◌∷◌, [], OnOk};

use otp_rules::Item;
use otp_sup::Letter;
use std::alloc::{AllocError, Global};
use std::vec::IntoIter;

/// Puts something or nothing into a place. What was there is dropped.
pub fn put_into<T: Drop>(place: &mut Option<T>, thing: Option<T>)
    ensures { place.new ≡ thing }
{
    *place = thing;
}

/// Puts it last. Where memory is refused it is dropped.
pub fn keep<T: Drop>(list: &mut Vec<T>, item: T) -> Result<(), AllocError>
    ensures { OnOk result (list.new.items ≡ list.old.items ++ item ∷ []) }
{
    list.push(item)?;
    Ok(())
}

/// What a letter says. The body and the end that came with it are dropped.
pub fn said_in<B: Drop>(letter: Letter<B>) -> Item
    ensures { result ≡ letter.item }
{
    let (item, body, end) = letter.into_parts();
    drop(body);
    drop(end);
    item
}

/// The body that came with a letter.
pub fn body_in<B: Drop>(letter: Letter<B>) -> Option<B>
    ensures { result ≡ letter.body }
{
    let (_, body, end) = letter.into_parts();
    drop(end);
    body
}

/// The next of what is left.
pub fn next_of<T: Drop>(items: &mut IntoIter<T, Global>) -> T
    requires { 0 < items.old.rest.len }
    ensures next { items.old.rest.items ≡ result ∷ items.new.rest.items }
    ensures len { items.new.rest.len + 1 ≡ items.old.rest.len }
{
    match items.next() {
        Some(item) => item,
        None => unreachable!(),
    }
}
