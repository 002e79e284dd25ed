//! Tests of the crates that decide, read and play, each from outside: worked rows, limits, texts, places in a text, readers and
//! writers that fail, and the happy path of each public call.
//!
//! They stand in a crate of their own, one module for a crate, since a crate with tests is proved twice. Tests of what threads
//! share are in `otp_thread_tests`, `otp_sup_tests` and `otp_tree_tests`. Event lines are read, and orders printed, by the calls
//! of `.ci/calls`, which are played with the program that the gate has built.
//!
//! A supervisor is driven by rows of texts: a step, and all that comes of it (`driver`). What else is tested stands in short stages that
//! borrow what they look at, in rows, and asserts by `fixtures::same`.
#![tactic(auto)]

#[cfg(test)]
mod changes;
#[cfg(test)]
mod checkpoints;
#[cfg(test)]
mod devices;
#[cfg(test)]
mod driver;
#[cfg(test)]
mod file;
#[cfg(test)]
mod fixtures;
#[cfg(test)]
mod history;
#[cfg(test)]
mod reason;
#[cfg(test)]
mod resumes;
#[cfg(test)]
mod rules;
#[cfg(test)]
mod runs;
#[cfg(test)]
mod sources;
#[cfg(test)]
mod spec;
#[cfg(test)]
mod supervisor;
#[cfg(test)]
mod table;
#[cfg(test)]
mod window;
