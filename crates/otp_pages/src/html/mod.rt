//! HTML, put behind a text: what comes from outside is escaped, and each page has one head, one style and one end.
//!
//! `specs/Markup` says how a text stands in a page, `specs/Frame` what stands round all pages.

mod frame;
pub mod laws;
mod markup;
mod style;

pub use frame::{put_foot, put_head};
pub use markup::{put_element, put_escaped, put_number_element};
