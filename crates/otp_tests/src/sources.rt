//! What no clause says of places in a text: the line of a key is the one on which it stands. Documents are made up by chance, in
//! all forms that TOML has, and each number in them stands once; so the line on which its digits are is known.

use crate::fixtures::{got, holds_of};
use otp_check::source::{Part, Source};
use std::alloc::{AllocError, Global};
use std::process::Abort;
use toml::Value;

/// Numbers that look drawn at random, and are the same in each run.
#[derive(Drop)]
struct Chance {
    state: u64,
}

impl Chance {
    /// The next number below this one.
    fn below(&mut self, most: u64) -> u64 {
        self.state = self
            .state
            .wrapping_mul(6_364_136_223_846_793_005)
            .wrapping_add(1_442_695_040_888_963_407);
        (self.state >> 33).checked_rem(most).unwrap_or(0)
    }
}

/// A document that is made up.
#[derive(Drop)]
struct Draft {
    alloc: Global,
    text: Vec<u8>,
    chance: Chance,
    /// The next number, which no other has.
    next: u64,
}

/// What stands before a line.
const BEFORE: [&str; 6] = ["", "\n", "# a ] comment = [[x]]\n", "\r\n", "  \t\n", ""];

/// Headers; those that don't go with what came before make a text that is no document, and is left out.
const HEADERS: [&str; 8] = [
    "[[a]]\n",
    "[[a]]\r\n",
    "[[ a . b ]] # [[c]]\n",
    "[a.t]\n",
    "[[a.\"b\".c]]\n",
    "[s]\n",
    "[s.'x y']\n",
    "[[d]]\n",
];

/// Values that have no number, some of them over several lines.
const TEXTS: [&str; 8] = [
    "\"a ] b = c # d\"",
    "'[[a]] \"'",
    "\"\"\"\none\n[two]\nk = 3\"\"\"",
    "'''\n]\r\n}'''",
    "true",
    "\"\\\"\\\\\"",
    "\"\"",
    "1979-05-27 07:32:00",
];

/// What stands before the number of a key, and behind it.
const KEYS: [(&str, &str); 5] = [
    ("\"k ", "\" = "),
    ("'k]", "'="),
    ("k", " . \"l\"= "),
    ("shared.k", " = "),
    ("k", " = "),
];

/// What stands between the values of an array.
const BETWEEN: [&str; 5] = [",", ", ", ",\n  ", ", # ] , 1\n", "\n,\r\n"];

impl Draft {
    fn write(&mut self, text: &str) -> Result<(), AllocError> {
        self.text.extend_from_slice(text.as_bytes())
    }

    fn write_one_of(&mut self, texts: &[&str]) -> Result<(), AllocError> {
        let place = self.chance.below(texts.len() as u64) as usize;
        match texts.get(place) {
            Some(text) => self.write(text),
            None => Ok(()),
        }
    }

    fn write_number(&mut self) -> Result<(), AllocError> {
        let number = self.next;
        self.next = self.next.saturating_add(1);
        let text = format!(in self.alloc; "{number}")?;
        self.write(text.as_str())
    }

    /// A key that no other has, in one of the forms that keys have.
    fn write_key(&mut self) -> Result<(), AllocError> {
        let place = self.chance.below(KEYS.len() as u64) as usize;
        let Some((before, behind)) = KEYS.get(place) else {
            return Ok(());
        };
        self.write(before)?;
        self.write_number()?;
        self.write(behind)
    }

    /// A number or a text.
    fn write_plain(&mut self) -> Result<(), AllocError> {
        if self.chance.below(3) == 0 {
            return self.write_one_of(&TEXTS);
        }
        self.write_number()
    }

    /// A table in one line, of plain values.
    fn write_table(&mut self) -> Result<(), AllocError> {
        self.write("{ ")?;
        self.write_key()?;
        self.write_plain()?;
        self.write(", ")?;
        self.write_key()?;
        self.write_plain()?;
        self.write(" }")
    }

    /// An array of plain values, tables, and arrays of numbers.
    fn write_array(&mut self) -> Result<(), AllocError> {
        self.write("[")?;
        for _ in 0..self.chance.below(4) {
            match self.chance.below(4) {
                0 => self.write_table()?,
                1 => {
                    self.write("[ ")?;
                    self.write_number()?;
                    self.write_one_of(&BETWEEN)?;
                    self.write_number()?;
                    self.write("]")?;
                }
                _ => self.write_plain()?,
            }
            self.write_one_of(&BETWEEN)?;
        }
        self.write("]")
    }

    /// A key with its value.
    fn write_pair(&mut self) -> Result<(), AllocError> {
        self.write_key()?;
        match self.chance.below(4) {
            0 => self.write_array()?,
            1 => self.write_table()?,
            _ => self.write_plain()?,
        }
        self.write_one_of(&["\n", "\r\n", " # [a] = 1\n"])
    }

    /// Some lines, behind a mark where that is wanted.
    fn fill(&mut self, is_marked: bool) -> Result<(), AllocError> {
        if is_marked {
            self.write("\u{feff}")?;
        }
        for _ in 0..14 {
            self.write_line()?;
        }
        Ok(())
    }

    /// A header or a key with its value.
    fn write_line(&mut self) -> Result<(), AllocError> {
        self.write_one_of(&BEFORE)?;
        if self.chance.below(4) == 0 {
            return self.write_one_of(&HEADERS);
        }
        self.write_pair()
    }
}

/// The line on which a number stands in a text.
fn line_of(rt: &impl Abort, alloc: Global, text: &[u8], number: i64) -> Option<u64> {
    let digits = got(rt, format!(in alloc; "{number}"));
    let length = digits.as_str().len();
    if length == 0 {
        return None;
    }
    let mut windows = text.windows(length);
    let place = windows.position(|window| window == digits.as_bytes())?;
    let mut line: u64 = 1;
    for byte in text.iter().take(place) {
        if *byte == b'\n' {
            line = line.saturating_add(1);
        }
    }
    Some(line)
}

/// Values of a document that are still to be looked at, each with where it stands.
type Left<'a> = Vec<(&'a Value, Option<Part>)>;

/// The number is found on the line on which its digits stand.
fn is_found(rt: &impl Abort, alloc: Global, text: &[u8], line: Option<u64>, number: i64) {
    holds_of(rt, text, line.is_some());
    holds_of(rt, text, line == line_of(rt, alloc, text, number));
}

/// What stands in a table or an array is to be looked at then.
fn push_all<'a>(
    source: &Source,
    value: &'a Value,
    part: Option<Part>,
    left: &mut Left<'a>,
) -> Result<(), AllocError> {
    match value {
        Value::Table(table) => {
            for (key, value) in table.iter() {
                let part = source.at_key(part, key.as_str());
                left.push((value, part)).map_err(|_| AllocError)?;
            }
        }
        Value::Array(values) => {
            for (index, value) in values.iter().enumerate() {
                let part = source.at_index(part, index);
                left.push((value, part)).map_err(|_| AllocError)?;
            }
        }
        _ => {}
    }
    Ok(())
}

/// Compares the lines of all numbers of a document, and says how many there are.
fn compare(rt: &impl Abort, alloc: Global, text: &[u8], value: &Value) -> u64 {
    let source = got(rt, Source::read(alloc, text));
    let mut left: Left<'_> = Vec::new(alloc);
    got(rt, left.push((value, Some(Part::WHOLE))));
    let mut numbers: u64 = 0;
    for _ in 0..100_000 {
        let Some((value, part)) = left.pop() else {
            break;
        };
        if let Value::Integer(number) = value {
            numbers = numbers.saturating_add(1);
            is_found(rt, alloc, text, source.line(part), *number);
        }
        got(rt, push_all(&source, value, part, &mut left));
    }
    drop(left);
    drop(source);
    numbers
}

/// A document of some lines.
fn make_draft(rt: &impl Abort, alloc: Global, seed: u64) -> Vec<u8> {
    let mut draft = Draft {
        alloc,
        text: Vec::new(alloc),
        chance: Chance {
            state: seed.wrapping_mul(7_919),
        },
        next: 10_000_000,
    };
    got(rt, draft.fill(seed % 7 == 0));
    let Draft { text, .. } = draft;
    text
}

/// Each number of a document that `toml` reads is found under its keys and places, on the line on which its digits stand.
#[test]
fn lines_are_those_of_the_text(rt: HostRuntime) {
    let mut documents: u64 = 0;
    let mut numbers: u64 = 0;
    for seed in 0..400 {
        let text = make_draft(&rt, rt.alloc(), seed);
        if let Ok(table) = toml::table_from_slice(rt.alloc(), text.as_slice()) {
            documents = documents.saturating_add(1);
            let value = Value::Table(table);
            let found = compare(&rt, rt.alloc(), text.as_slice(), &value);
            drop(value);
            numbers = numbers.saturating_add(found);
        }
    }
    // So that the test is no empty one.
    assert!(rt; documents > 100);
    assert!(rt; numbers > 1_000);
}
