//! What is known of the answer to a call.

/// What is known of the answer to a call.
#[derive(Clone, Copy, Debug, PartialEq, Eq)]
pub enum ReplyAnswer<R> {
    /// The answer, which was given since the last cut.
    Kept(R),
    /// A cut may have dropped it: it dropped an answer to this call or a later one, and the call is not still to be answered.
    Gone,
    /// None was given so far.
    NotYet,
}
