//! What may stand in a tree file, and what was meant by what may not: the words and limits of each key, words of other programs,
//! words that are near, and what to do about a text that is no TOML.

mod allowed;
mod letters;
mod like;
mod meant;
mod near;
mod no_toml;

pub use allowed::{Key, child_keys, flag_keys, words_at, write_allowed};
pub use letters::{strange_front, strange_letter, strange_sign, write_letter};
pub use meant::{
    is_root_header, meant_child_key, meant_flag, meant_word, what_child_key, what_flag_key,
    what_value,
};
pub use near::{nearest, small_letters};
pub use no_toml::{what_no_toml, what_nothing};
