//! Tests of trees that run until they have ended, from outside and on threads.
#![tactic(auto)]

#[cfg(test)]
mod calls;
#[cfg(test)]
mod drawn;
#[cfg(test)]
mod grows;
#[cfg(test)]
mod guests;
#[cfg(test)]
mod runs;
#[cfg(test)]
mod served;
#[cfg(test)]
mod tokens;
#[cfg(test)]
mod wakes;
