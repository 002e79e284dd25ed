//! What came of a checkpoint.

/// What came of a checkpoint ([`Table::cut`](crate::Table::cut)).
#[derive(Clone, Copy, Debug, PartialEq, Eq)]
pub enum CutAnswer {
    /// It was made.
    Cut,
    /// An order is still to be sent: nothing changed.
    Pending,
}
