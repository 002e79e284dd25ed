//! A text is read as terms.

use crate::term::terms::{TermKind, Terms};
use crate::term::tokens::{Sign, Token, next_token};
use otp_foreign::{ImportFault, Why};
use std::alloc::Global;

/// What is to come next.
#[derive(Clone, Copy, Debug, PartialEq, Eq)]
enum Wants {
    /// A value, or the end of what was opened just before.
    First,
    Value,
    /// A comma, or the end of what is open.
    Comma,
    Arrow,
}

/// A part of which not all was read.
#[derive(Clone, Copy, Debug)]
struct Opened {
    number: usize,
    /// So many parts of it were read.
    count: usize,
    /// It is a key of Elixir with its value, which no bracket encloses.
    is_pair: bool,
}

/// What was read so far.
#[derive(Drop)]
struct Reading {
    terms: Terms,
    open: Vec<Opened>,
    wants: Wants,
}

impl Reading {
    /// The innermost part of which not all was read.
    fn inner(&self) -> Option<Opened> {
        match self.open.last() {
            Some(opened) => Some(*opened),
            None => None,
        }
    }

    /// Whether that is a map.
    fn is_in_map(&self) -> bool {
        match self.inner() {
            Some(opened) => self.terms.is_kind(opened.number, TermKind::Map),
            None => false,
        }
    }

    /// Whether that is a map of whose last key there is no value yet.
    fn is_key_last(&self) -> bool {
        match self.inner() {
            Some(opened) => self.terms.is_kind(opened.number, TermKind::Map)
                && opened.count % 2 == 1,
            None => false,
        }
    }

    /// A part more of what is open.
    fn add(&mut self, kind: TermKind, token: Token) -> Result<usize, ImportFault> {
        let whole = match self.inner() {
            Some(opened) => Some(opened.number),
            None => None,
        };
        let number = self.terms.add(kind, token.start, token.end, whole)?;
        let last = self.open.len().saturating_sub(1);
        if let Some(opened) = self.open.get_mut(last) {
            opened.count = opened.count.saturating_add(1);
        }
        Ok(number)
    }

    /// Opens a part.
    fn open(&mut self, kind: TermKind, token: Token, is_pair: bool) -> Result<(), ImportFault> {
        let number = self.add(kind, token)?;
        let opened = Opened {
            number,
            count: 0,
            is_pair,
        };
        self.open
            .push(opened)
            .map_err(|_| ImportFault::OutOfMemory)?;
        self.wants = Wants::First;
        Ok(())
    }

    /// What is to come after a value.
    fn after_value(&mut self) {
        self.wants = if self.is_key_last() {
            Wants::Arrow
        } else {
            Wants::Comma
        };
    }

    /// Closes the key of Elixir with its value that is innermost, if one is.
    fn end_pair(&mut self, end: usize) {
        let Some(opened) = self.inner() else {
            return;
        };
        if opened.is_pair {
            self.terms.close(opened.number, end);
            let _pair = self.open.pop();
        }
    }

    /// A value may stand here.
    fn expect_value(&self, token: Token) -> Result<(), ImportFault> {
        match self.wants {
            Wants::First | Wants::Value => Ok(()),
            // What stands in no bracket is no list that lacks a comma.
            Wants::Comma if self.open.is_empty() => {
                Err(ImportFault::At(token.start, Why::OtherText))
            }
            Wants::Comma => Err(ImportFault::At(token.start, Why::NoComma)),
            Wants::Arrow => Err(ImportFault::At(token.start, Why::NoArrow)),
        }
    }

    /// What is open may end here, or go on behind a comma.
    fn expect_end(&self, token: Token, is_first_fit: bool) -> Result<(), ImportFault> {
        match self.wants {
            Wants::Comma => Ok(()),
            Wants::First if is_first_fit => Ok(()),
            Wants::First | Wants::Value => Err(ImportFault::At(token.start, Why::NoValue)),
            Wants::Arrow => Err(ImportFault::At(token.start, Why::NoArrow)),
        }
    }

    /// A bracket closes what is open.
    fn close(&mut self, kind: TermKind, token: Token) -> Result<(), ImportFault> {
        self.expect_end(token, true)?;
        self.end_pair(token.start);
        let Some(opened) = self.open.pop() else {
            return Err(ImportFault::At(token.start, Why::WrongBracket));
        };
        let is_list = self.terms.is_kind(opened.number, TermKind::List);
        if is_list != (kind == TermKind::List) {
            return Err(ImportFault::At(token.start, Why::WrongBracket));
        }
        self.terms.close(opened.number, token.end);
        self.after_value();
        Ok(())
    }

    /// A comma stands between two parts.
    fn part(&mut self, token: Token) -> Result<(), ImportFault> {
        self.expect_end(token, false)?;
        self.end_pair(token.start);
        if self.inner().is_none() {
            return Err(ImportFault::At(token.start, Why::Unexpected));
        }
        self.wants = Wants::Value;
        Ok(())
    }

    /// A full stop ends a term.
    fn stop(&mut self, token: Token) -> Result<(), ImportFault> {
        if self.inner().is_some() {
            return Err(ImportFault::At(token.start, Why::StopInside));
        }
        self.expect_end(token, false)?;
        self.wants = Wants::First;
        Ok(())
    }

    /// A key of Elixir: in a map it is a key as any other, else it is a pair with the value behind it.
    fn key(&mut self, token: Token) -> Result<(), ImportFault> {
        self.expect_value(token)?;
        if !self.is_in_map() {
            self.open(TermKind::Tuple, token, true)?;
        }
        self.add(TermKind::Atom, token)?;
        self.wants = Wants::Value;
        Ok(())
    }

    /// An arrow stands between a key and its value.
    fn arrow(&mut self, token: Token) -> Result<(), ImportFault> {
        if self.wants != Wants::Arrow {
            return Err(ImportFault::At(token.start, Why::Unexpected));
        }
        self.wants = Wants::Value;
        Ok(())
    }

    /// Takes the next word or sign.
    fn take(&mut self, token: Token) -> Result<(), ImportFault> {
        match token.sign {
            Sign::Open(kind) => {
                self.expect_value(token)?;
                self.open(kind, token, false)
            }
            Sign::Close(kind) => self.close(kind, token),
            Sign::Comma => self.part(token),
            Sign::Arrow => self.arrow(token),
            Sign::Stop => self.stop(token),
            Sign::Key => self.key(token),
            Sign::Value(kind) => {
                self.expect_value(token)?;
                self.add(kind, token)?;
                self.after_value();
                Ok(())
            }
        }
    }
}

/// Reads a whole text into what was read.
fn read_all(reading: &mut Reading, text: &[u8]) -> Result<(), ImportFault> {
    let mut place = 0;
    for _ in 0..text.len() {
        match next_token(text, place)? {
            None => return Ok(()),
            Some(token) => {
                reading.take(token)?;
                place = token.end;
            }
        }
    }
    Ok(())
}

/// That a text was read to its end, and has one term.
fn is_whole(reading: &Reading) -> Result<(), ImportFault> {
    if let Some(opened) = reading.inner() {
        let start = reading.terms.start(opened.number);
        return Err(ImportFault::At(start, Why::OpenBracket));
    }
    if reading.terms.len() == 0 {
        return Err(ImportFault::At(0, Why::Nothing));
    }
    let second = reading.terms.last(0);
    if second < reading.terms.len() {
        return Err(ImportFault::At(reading.terms.start(second), Why::SeveralTerms));
    }
    Ok(())
}

/// Reads a text that is one term.
pub fn read_term(alloc: Global, text: &[u8]) -> Result<Terms, ImportFault> {
    let mut reading = Reading {
        terms: Terms::new(alloc),
        open: Vec::new(alloc),
        wants: Wants::First,
    };
    read_all(&mut reading, text)?;
    is_whole(&reading)?;
    let Reading { terms, .. } = reading;
    Ok(terms)
}
