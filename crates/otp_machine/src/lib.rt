//! What one event does to a supervisor: a plain struct with a method for most rules of `otp_rules`, in a file of the
//! rule's name. Each method's contract is one equation with the rule. `otp_core` keeps the history beside it.
//!
//! [`stores`] are what a core keeps: its events, what waits until no work is open, and the answers to calls.
//! [`decisions`] say what becomes of rows, orders and lists of them: each function is one word of the rules.
#![tactic(auto)]

mod calls;
mod counts;
mod deaths;
pub mod decisions;
mod ends;
pub mod machine;
pub mod numbers;
mod places;
mod starts;
mod step;
mod stops;
pub mod stores;
mod work;

pub use machine::Machine;
pub use numbers::{Counter, Given, Numbers};
