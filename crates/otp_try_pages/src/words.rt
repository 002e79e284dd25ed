//! Words of an order as it is told.

ghost use Rattle.std.specs.Prelude.{◌≡◌, ◌<◌, ◌==◌, IfSome, length, position};
ghost use Rattle.std.specs.Str.{bytes_eq};
ghost use Rattle.otp_try_pages.specs.Orders.{before, behind, first_word, has_slash, is_child_verb, is_down, number_in, order_in, own_part, path_part, rest_of, without_front};

use otp_text::read_number;

/// The place of the first space.
fn first_space(text: &[u8]) -> Option<usize>
    ensures place { result ≡ position (λ byte. byte == 32) text.now }
    ensures inside { IfSome result (λ place. place < length text.now) }
{
    text.iter().position(|byte| *byte == b' ')
}

/// What stands before a place, which is all where there is none.
fn before(place: Option<usize>, text: &[u8]) -> &[u8]
    requires { IfSome place (λ at. at < length text.now) }
    ensures { result.now ≡ before place text.now }
{
    match place {
        None => text,
        Some(place) => &text[..place],
    }
}

/// What stands behind a place.
fn behind(place: Option<usize>, text: &[u8]) -> &[u8]
    requires { IfSome place (λ at. at < length text.now) }
    ensures { result.now ≡ behind place text.now }
{
    match place {
        None => &[],
        Some(place) => &text[place + 1..],
    }
}

/// The word at the beginning of a text.
#[tactic(auto, unfolding(crate::specs::Orders::first_word))]
pub(crate) fn first_word(text: &[u8]) -> &[u8]
    ensures { result.now ≡ first_word text.now }
{
    before(first_space(text), text)
}

/// What stands behind the word at the beginning of a text.
#[tactic(auto, unfolding(crate::specs::Orders::rest_of))]
pub(crate) fn rest_of(text: &[u8]) -> &[u8]
    ensures { result.now ≡ rest_of text.now }
{
    behind(first_space(text), text)
}

/// A text without so many bytes at its front.
#[tactic(auto, unfolding(crate::specs::Orders::without_front))]
fn without_front(count: usize, text: &[u8]) -> &[u8]
    ensures { result.now ≡ without_front count text.now }
{
    if count <= text.len() {
        &text[count..]
    } else {
        &[]
    }
}

/// The order of a line, behind its time.
#[tactic(auto, unfolding(crate::specs::Orders::order_in))]
pub(crate) fn order_in(line: &[u8]) -> &[u8]
    ensures { result.now ≡ order_in line.now }
{
    without_front(3, rest_of(line))
}

/// Whether a `/` stands in a word, as in the path of a supervisor.
#[tactic(auto, unfolding(crate::specs::Orders::has_slash))]
pub(crate) fn has_slash(word: &[u8]) -> bool
    ensures { result ≡ has_slash word.now }
{
    word.iter().any(|byte| *byte == b'/')
}

/// The path in front of an order; the root's is empty.
#[tactic(auto, unfolding(crate::specs::Orders::path_part))]
pub(crate) fn path_part(order: &[u8]) -> &[u8]
    ensures { result.now ≡ path_part order.now }
{
    let word = first_word(order);
    if has_slash(word) { word } else { &[] }
}

/// An order without the path in front of it.
#[tactic(auto, unfolding(crate::specs::Orders::own_part))]
pub(crate) fn own_part(order: &[u8]) -> &[u8]
    ensures { result.now ≡ own_part order.now }
{
    if has_slash(first_word(order)) {
        rest_of(order)
    } else {
        order
    }
}

/// Whether two texts are the same.
pub(crate) fn is_text(one: &[u8], other: &[u8]) -> bool
    ensures { result ≡ bytes_eq one.now other.now }
{
    one == other
}

/// Whether an order with this word is one for the process of a child.
#[tactic(auto, unfolding(crate::specs::Orders::is_child_verb))]
pub(crate) fn is_child_verb(verb: &[u8]) -> bool
    ensures { result ≡ is_child_verb verb.now }
{
    is_text(verb, b"start") || is_text(verb, b"ask") || is_text(verb, b"kill")
}

/// Whether it is told in the place of an order how long a child was down.
#[tactic(auto, unfolding(crate::specs::Orders::is_down))]
pub(crate) fn is_down(order: &[u8]) -> bool
    ensures { result ≡ is_down order.now }
{
    is_text(first_word(rest_of(order)), b"was")
        && is_text(first_word(rest_of(rest_of(order))), b"down")
}

/// The number of a process, behind its `#`.
#[tactic(auto, unfolding(crate::specs::Orders::number_in))]
pub(crate) fn number_in(word: &[u8]) -> Option<u64>
    ensures { result ≡ number_in word.now }
{
    read_number(u64::MAX, without_front(1, word))
}
