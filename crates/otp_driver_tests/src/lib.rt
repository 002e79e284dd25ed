//! Tests of `otp_driver` from outside: whole runs of nested trees, what is refused and what stands then, and answers.
//!
//! Wherever memory is refused once, the same is told or asked again; so each test passes too where any one growth of what it
//! drives is refused (`rt try --test --fail-alloc N`).
#![tactic(auto)]

#[cfg(test)]
mod calls;
#[cfg(test)]
mod changes;
#[cfg(test)]
mod fixtures;
#[cfg(test)]
mod refusals;
#[cfg(test)]
mod runs;
