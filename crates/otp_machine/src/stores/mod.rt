//! What a supervisor's core keeps: its events, what waits until no work is open, and the answers to calls.

pub mod answers;
pub mod history;
pub mod past;
pub mod waits;
