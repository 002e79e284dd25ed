//! A run as a picture: a row for each child, a column for each moment, and below a supervisor's children how its restarts
//! fill the period.
//!
//! `specs/Picture` says the whole text, as a function of how the supervisors stand at those moments.

mod cell;
mod colour;
mod column;
mod moment;
mod names;
mod picture;
mod seconds;

pub use column::Look;
pub use moment::{Mark, Marks, Moment, Standing, Standings, no_standing, restarts_in, standing_of};
pub use picture::{LEGEND, moments_in, write_heads, write_supervisor};
pub use seconds::write_seconds;
