//! Tests of what threads share below the supervisors, of the jobs that they run, and of trees of jobs that are drawn up, from
//! outside: a module for each crate, and for each thing that stands on several. Those of threads run on real ones.
//!
//! They stand in a crate of their own, since a crate with tests is proved twice. Supervisors under a lock have theirs in
//! `otp_sup_tests`, trees in `otp_tree_tests`, so that each waits only for the crates that it tests.
#![tactic(auto)]

#[cfg(test)]
mod bridges;
#[cfg(test)]
mod counts;
#[cfg(test)]
mod drafts;
#[cfg(test)]
mod faults;
#[cfg(test)]
mod fixtures;
#[cfg(test)]
mod growths;
#[cfg(test)]
mod inbox;
#[cfg(test)]
mod jobs;
#[cfg(test)]
mod probes;
#[cfg(test)]
mod queues;
#[cfg(test)]
mod shown;
#[cfg(test)]
mod signals;
#[cfg(test)]
mod tally;
#[cfg(test)]
mod tokens;
