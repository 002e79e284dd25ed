//! Tests of supervisors under a lock, from outside: driven order by order over a port in memory, turn by turn, and by
//! clients on threads.
//!
//! They stand in a crate of their own, since a crate with tests is proved twice.
#![tactic(auto)]

#[cfg(test)]
mod alone;
#[cfg(test)]
mod bodies;
#[cfg(test)]
mod checkpoints;
#[cfg(test)]
mod clients;
#[cfg(test)]
mod driven;
#[cfg(test)]
mod fixtures;
#[cfg(test)]
mod script;
#[cfg(test)]
mod shut;
#[cfg(test)]
mod supervisors;
#[cfg(test)]
mod tables;
#[cfg(test)]
mod tokens;
