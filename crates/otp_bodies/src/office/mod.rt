//! A core with the seat that draws its numbers, and its orders on their way.
//!
//! An [`Office`] takes one event at a time ([`Office::happen`]), whose number its seat draws from words that threads share. It
//! keeps the orders of the event until each was sent ([`Office::flush_one`]): a start and a stop post to the child's signal
//! word, and a [`Port`](crate::Port) takes processes, and notes to the parent.

mod draws;
pub mod office;
pub mod orders;
mod rows;
mod sending;
pub mod turns;

pub use office::Office;
pub use orders::Sending;
pub use turns::{TurnAnswer, TurnFault, answer_of};
