//! The word that was meant.

use std::alloc::{AllocError, Global};
use strsim::levenshtein;

/// The longest word that is compared, in bytes: no allowed one is so long.
const LONGEST: usize = 40;

/// The most changed characters of a word that is still near.
const MOST_CHANGED: usize = 3;

/// The allowed word that is nearest to this one, where one is near and is not the word itself. Large letters, and `-` or a
/// space for `_`, are no change.
pub fn nearest(
    alloc: Global,
    word: &str,
    words: &[&'static str],
) -> Result<Option<&'static str>, AllocError> {
    if word.len() > LONGEST {
        return Ok(None);
    }
    let small = small_letters(alloc, word)?;
    let mut best = None;
    let mut least = MOST_CHANGED.saturating_add(1).min(word.len());
    for other in words {
        let changed = levenshtein(alloc, small.as_str(), other)?;
        if changed < least && *other != word {
            least = changed;
            best = Some(*other);
        }
    }
    Ok(best)
}

/// A word in small letters, with `_` for `-` and for a space.
pub fn small_letters(alloc: Global, word: &str) -> Result<String, AllocError> {
    let mut small = String::new(alloc);
    for letter in word.chars() {
        small.push(small_letter(letter))?;
    }
    Ok(small)
}

/// A letter as a small one, with `_` for `-` and for a space.
fn small_letter(letter: char) -> char {
    match letter {
        '-' | ' ' => '_',
        _ => letter.to_ascii_lowercase(),
    }
}
