//! Terms of Erlang, as `~p` writes them, and of Elixir, as `inspect` does: read as a list of their parts, each with its place.

mod reading;
mod terms;
mod tokens;

pub use reading::read_term;
pub use terms::{Entry, Part, TermKind, Terms};
