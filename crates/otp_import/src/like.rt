//! What a text looks like that is taken for none of those that say a tree.

use otp_foreign::{line_at, trimmed};

/// What the lines of a tree file begin with, one of which comes first.
const FRONTS: [&[u8]; 6] = [
    b"[[child]]",
    b"strategy = ",
    b"intensity = ",
    b"period = ",
    b"auto_shutdown = ",
    b"child = ",
];

/// Whether a text is a tree file, as its first line shows that is no comment.
pub(crate) fn is_tree(text: &[u8]) -> bool {
    let mut place = 0;
    for _ in 0..text.len() {
        if place >= text.len() {
            break;
        }
        let line = line_at(text, place);
        place = line.end.saturating_add(1);
        let part = trimmed(text, line).of(text);
        if !part.is_empty() && !part.starts_with(b"#") {
            return FRONTS.iter().any(|front| part.starts_with(front));
        }
    }
    false
}
