//! Tests of trees of supervisors that run on threads, from outside: opened, served, stopped and closed.
//!
//! They stand in a crate of their own, since a crate with tests is proved twice. One kind of worker, one clock and one leader serve all
//! of them: what a worker does and what a leader does are told by data, so that their code is proved once.
#![tactic(auto)]

#[cfg(test)]
mod closes;
#[cfg(test)]
mod fixtures;
#[cfg(test)]
mod gates;
#[cfg(test)]
mod grows;
#[cfg(test)]
mod guests;
#[cfg(test)]
mod lives;
#[cfg(test)]
mod looks;
#[cfg(test)]
mod openings;
#[cfg(test)]
mod script;
#[cfg(test)]
mod sessions;
#[cfg(test)]
mod tokens;
