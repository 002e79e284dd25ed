//! Values of systemd: specifiers, and lines that go on.

use crate::settings::Setting;
use crate::units::reading::is_apart;
use otp_foreign::{ImportFault, ImportWork, byte_of, is_blank, write_byte, write_text};
use std::alloc::AllocError;

/// What becomes of variables in a value.
#[derive(Clone, Copy, Debug, PartialEq, Eq)]
pub(crate) enum Variables {
    /// A shell puts them in.
    Known,
    /// They stand as they are, and are remarked on.
    Remarked,
}

/// A value in which lines that go on are joined, and `%%` is a percent sign. Other specifiers are remarked on, and stand as they are.
pub(crate) fn plain_value(
    work: &mut ImportWork<'_>,
    setting: &Setting,
    variables: Variables,
) -> Result<Vec<u8>, ImportFault> {
    let value = setting.value.of(work.text);
    let mut out = Vec::new(work.alloc);
    let mut is_left = false;
    for place in 0..value.len() {
        let byte = value[place];
        let next = byte_of(value, place.saturating_add(1));
        if is_left {
            is_left = false;
            continue;
        }
        if byte == b'\\' && is_apart(value, place) {
            write_byte(b' ', &mut out)?;
            continue;
        }
        write_byte(byte, &mut out)?;
        let at = setting.value.start.saturating_add(place);
        if byte == b'%' && next == b'%' {
            is_left = true;
        } else if byte == b'%' {
            work.remark(
                at,
                "",
                &[byte, next],
                ": specifiers aren't known here, and stand as they are",
            )?;
        } else if byte == b'$' && variables == Variables::Remarked {
            work.remark(
                at,
                "",
                &[byte, next],
                "..: variables aren't put in here, and stand as they are",
            )?;
        }
    }
    Ok(out)
}

/// Whether a name of a variable may begin with this byte.
fn begins_name(byte: u8) -> bool {
    byte.is_ascii_alphabetic() || byte == b'_'
}

/// Whether a byte means nothing of its own to a shell.
fn is_plain(byte: u8) -> bool {
    byte.is_ascii_alphanumeric()
        || matches!(
            byte,
            b'-' | b'_' | b'.' | b'/' | b':' | b'=' | b',' | b'@' | b'%' | b'+'
        )
}

/// The name of a variable that is open.
#[derive(Clone, Copy, Debug, PartialEq, Eq)]
enum Name {
    None,
    /// A word of its own, in whose place the words of its value stand.
    Word,
    /// In braces, in whose place its value stands.
    Braced,
}

/// What is open at a place of a command.
#[derive(Clone, Copy, Debug)]
struct Open {
    name: Name,
    is_quoted: bool,
}

impl Open {
    /// Behind this place, where no name is open; none where a shell may understand it otherwise than systemd.
    fn take_plain(self, command: &[u8], place: usize) -> Option<Open> {
        let byte = byte_of(command, place);
        let next = byte_of(command, place.saturating_add(1));
        if byte == b'"' {
            return Some(Open {
                is_quoted: !self.is_quoted,
                ..self
            });
        }
        if byte != b'$' {
            return if is_plain(byte) || is_apart(command, place) {
                Some(self)
            } else {
                None
            };
        }
        if next == b'{' && begins_name(byte_of(command, place.saturating_add(2))) {
            return Some(Open {
                name: Name::Braced,
                ..self
            });
        }
        if self.is_quoted || !begins_name(next) || !is_apart(command, place.saturating_sub(1)) {
            return None;
        }
        Some(Open {
            name: Name::Word,
            ..self
        })
    }

    /// Behind this place; none as above.
    fn take(self, command: &[u8], place: usize) -> Option<Open> {
        let byte = byte_of(command, place);
        if self.name == Name::None {
            return self.take_plain(command, place);
        }
        let is_end = if self.name == Name::Word {
            is_apart(command, place)
        } else {
            byte == b'}'
        };
        if is_end {
            return Some(Open {
                name: Name::None,
                ..self
            });
        }
        let is_brace = byte == b'{' && byte_of(command, place.saturating_sub(1)) == b'$';
        if is_brace || byte.is_ascii_digit() || begins_name(byte) {
            return Some(self);
        }
        None
    }
}

/// Whether a command has variables, and a shell gives it the same meaning: each is a word of its own, or stands in braces, and nothing
/// else in it means something to a shell. Lines that go on were not joined.
pub(crate) fn is_for_shell(command: &[u8]) -> bool {
    let mut open = Open {
        name: Name::None,
        is_quoted: false,
    };
    let mut has_variables = false;
    for place in 0..command.len() {
        let Some(next) = open.take(command, place) else {
            return false;
        };
        has_variables = has_variables || next.name != Name::None;
        open = next;
    }
    has_variables && !open.is_quoted && open.name != Name::Braced
}

/// Writes a command that a shell runs in its own place. A variable in braces is one word.
pub(crate) fn put_shell(command: &[u8], out: &mut Vec<u8>) -> Result<(), AllocError> {
    out.extend_from_slice(b"[\"sh\", \"-c\", ")?;
    let mut text = Vec::from_slice(*out.allocator(), b"exec ")?;
    let mut is_quoted = false;
    let mut is_braced = false;
    let mut was_blank = true;
    for place in 0..command.len() {
        let byte = command[place];
        // One space stands for a run of blanks, so that the end of a line that goes on doesn't end the command.
        if was_blank && is_blank(byte) && !is_quoted {
            continue;
        }
        was_blank = is_blank(byte);
        if byte == b'"' {
            is_quoted = !is_quoted;
        }
        if byte == b'$' && byte_of(command, place.saturating_add(1)) == b'{' && !is_quoted {
            is_braced = true;
            write_byte(b'"', &mut text)?;
        }
        write_byte(if was_blank { b' ' } else { byte }, &mut text)?;
        if byte == b'}' && is_braced {
            is_braced = false;
            write_byte(b'"', &mut text)?;
        }
    }
    write_text(text.as_slice(), out)?;
    out.extend_from_slice(b"]\n")
}

/// A command without the signs that systemd takes before it.
pub(crate) fn without_signs(command: &[u8]) -> &[u8] {
    for place in 0..command.len() {
        if !matches!(command[place], b'-' | b'@' | b':' | b'+' | b'!') {
            return &command[place..];
        }
    }
    b""
}
