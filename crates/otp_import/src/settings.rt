//! The settings of a text, and to which of its parts each belongs: sections of the file of supervisord, or units of systemd.

use otp_foreign::{ImportFault, Range, Why, place_of, trimmed};
use std::alloc::Global;

/// A setting.
#[derive(Clone, Copy, Debug)]
pub(crate) struct Setting {
    /// What stands in the brackets of its section.
    pub section: Range,
    pub key: Range,
    pub value: Range,
}

/// A section or a unit, and which settings are its own.
#[derive(Clone, Copy, Debug)]
pub(crate) struct Part {
    /// What stands in the brackets of a section, or the path of a unit without folders; empty where none is said.
    pub name: Range,
    /// The number of its first setting.
    pub first: usize,
    /// The number behind that of its last.
    pub last: usize,
}

/// The parts of a text, one after the other, and all their settings.
#[derive(Drop)]
pub(crate) struct Parts {
    pub parts: Vec<Part>,
    pub settings: Vec<Setting>,
}

/// What stands in the brackets of a line that begins with one.
pub(crate) fn brackets_of(text: &[u8], line: Range) -> Result<Range, ImportFault> {
    let Some(end) = place_of(text, line, b']', b']') else {
        return Err(ImportFault::At(line.start, Why::OpenBracket));
    };
    Ok(Range {
        start: line.start.saturating_add(1),
        end,
    })
}

impl Parts {
    /// None was read.
    pub fn new(alloc: Global) -> Self {
        Parts {
            parts: Vec::new(alloc),
            settings: Vec::new(alloc),
        }
    }

    /// A part begins.
    pub fn begin(&mut self, name: Range) -> Result<(), ImportFault> {
        let first = self.settings.len();
        let part = Part {
            name,
            first,
            last: first,
        };
        self.parts.push(part).map_err(|_| ImportFault::OutOfMemory)
    }

    /// A setting of the last part stands on this line, its value behind one of these two signs.
    pub fn set(
        &mut self,
        text: &[u8],
        section: Range,
        line: Range,
        one: u8,
        other: u8,
    ) -> Result<(), ImportFault> {
        let Some(sign) = place_of(text, line, one, other) else {
            return Err(ImportFault::At(line.start, Why::NoAssignment));
        };
        let key = Range {
            start: line.start,
            end: sign,
        };
        let value = Range {
            start: sign.saturating_add(1),
            end: line.end,
        };
        let setting = Setting {
            section,
            key: trimmed(text, key),
            value: trimmed(text, value),
        };
        self.settings
            .push(setting)
            .map_err(|_| ImportFault::OutOfMemory)?;
        self.end_part();
        Ok(())
    }

    /// All settings so far that are of no other part are of the last one.
    fn end_part(&mut self) {
        let last = self.settings.len();
        let number = self.parts.len().saturating_sub(1);
        if let Some(part) = self.parts.get_mut(number) {
            part.last = last;
        }
    }

    /// The last setting goes on on this line.
    pub fn go_on(&mut self, line: Range) {
        let number = self.settings.len().saturating_sub(1);
        if let Some(setting) = self.settings.get_mut(number) {
            setting.value.end = line.end;
        }
    }

    /// The last setting of a part with this key, in its section of this name.
    pub fn find_in(&self, text: &[u8], part: &Part, section: &[u8], key: &[u8]) -> Option<Setting> {
        let mut found = None;
        for number in part.first..part.last {
            if let Some(setting) = self.settings.get(number) {
                if setting.section.of(text) == section && setting.key.of(text) == key {
                    found = Some(*setting);
                }
            }
        }
        found
    }

    /// The last setting of a section with this key.
    pub fn find(&self, text: &[u8], section: &Part, key: &[u8]) -> Option<Setting> {
        self.find_in(text, section, section.name.of(text), key)
    }
}
