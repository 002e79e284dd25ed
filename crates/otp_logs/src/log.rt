//! What a log says of children, line by line: what stands for a line, counts and remarks.

use crate::ids::{Ids, Said};
use crate::known::{Child, Known, Meant, id_of};
use crate::moment::Moment;
use crate::reason::is_quiet;
use crate::seeking::is_text;
use otp_foreign::{Range, write_byte, write_number};
use std::alloc::{AllocError, Global};

/// The most bytes of a line that a replay plays.
const LONGEST: usize = 470;

/// The most remarks.
const MOST_REMARKS: u64 = 20;

/// What a log says of a child.
#[derive(Clone, Copy)]
pub enum Event {
    /// It has ended, or its start has failed.
    End,
    /// It is up.
    Up,
}

impl Event {
    fn is_up(self) -> bool {
        matches!(self, Event::Up)
    }
}

/// A child as a log calls it.
#[derive(Clone, Copy)]
pub struct Called {
    /// Where its supervisor's name stands; nowhere if that isn't said.
    pub supervisor: Range,
    /// Where its own stands.
    pub name: Range,
}

impl Called {
    /// A child whose supervisor isn't said.
    pub fn alone(name: Range) -> Called {
        Called {
            supervisor: Range { start: 0, end: 0 },
            name,
        }
    }
}

/// What was counted.
#[derive(Clone, Copy)]
pub(crate) struct Counted {
    /// Lines that are handed on.
    pub played: u64,
    /// Ends that aren't, since the child isn't known, or nothing says which is meant.
    pub left_out: u64,
    /// Times that were earlier than the one before.
    pub earlier: u64,
    /// What happened after the whole was stopped.
    pub after: u64,
    /// Lines that a replay would play in a log of its own.
    pub plain: u64,
}

/// A log, and what was read of it.
#[derive(Drop)]
pub struct Log<'a> {
    /// What the log is called, before each remark.
    name: &'a str,
    pub text: &'a [u8],
    known: Known,
    ids: Ids<'a>,
    /// A child that isn't known is handed on, for a replay to find out.
    is_strict: bool,
    /// The log calls children by their paths.
    has_paths: bool,
    /// What stands for the line that is read.
    pub line: Vec<u8>,
    remarks: Vec<u8>,
    counted: Counted,
    /// The number of the line that is read.
    pub number: u64,
    /// Something was written for it.
    pub is_put: bool,
    last: Option<Moment>,
    /// The whole was stopped.
    is_stopped: bool,
    /// A place for a reason.
    pub reason: Vec<u8>,
    /// A place for a path.
    path: Vec<u8>,
}

impl<'a> Log<'a> {
    /// Nothing was read yet.
    pub fn new(
        alloc: Global,
        name: &'a str,
        text: &'a [u8],
        known: Known,
        ids: Ids<'a>,
        is_strict: bool,
        has_paths: bool,
    ) -> Self {
        Log {
            name,
            text,
            known,
            ids,
            is_strict,
            has_paths,
            line: Vec::new(alloc),
            remarks: Vec::new(alloc),
            counted: Counted {
                played: 0,
                left_out: 0,
                earlier: 0,
                after: 0,
                plain: 0,
            },
            number: 1,
            is_put: false,
            last: None,
            is_stopped: false,
            reason: Vec::new(alloc),
            path: Vec::new(alloc),
        }
    }

    /// Appends what was counted, and the remarks.
    pub fn tell(&self, out: &mut Vec<u8>) -> Result<(), AllocError> {
        write_counts(self.counted, out)?;
        out.extend_from_slice(b"\n")?;
        self.ids.tell(&self.known, out)?;
        out.extend_from_slice(self.remarks.as_slice())
    }

    /// Remarks on the line that is read: what is wrong with a name.
    fn remark(&mut self, front: &str, name: Range, back: &str) -> Result<(), AllocError> {
        self.counted.left_out = self.counted.left_out.saturating_add(1);
        if self.counted.left_out > MOST_REMARKS {
            return Ok(());
        }
        self.remarks.extend_from_slice(self.name.as_bytes())?;
        self.remarks.extend_from_slice(b":")?;
        write_number(self.number, &mut self.remarks)?;
        self.remarks.extend_from_slice(b": left out: ")?;
        self.remarks.extend_from_slice(front.as_bytes())?;
        write_shown(name.of(self.text), &mut self.remarks)?;
        self.remarks.extend_from_slice(back.as_bytes())?;
        self.remarks.extend_from_slice(b"\n")
    }

    /// The line that is read is one of a log that a replay takes as it stands.
    pub fn count_plain(&mut self) {
        self.counted.plain = self.counted.plain.saturating_add(1);
    }

    /// The time of what is written next: none is earlier than the one before.
    fn take_time(&mut self, moment: Moment) -> Moment {
        let next = later_of(self.last, moment);
        if next.millis() != moment.millis() {
            self.counted.earlier = self.counted.earlier.saturating_add(1);
        }
        self.last = Some(next);
        next
    }

    /// Leaves the path of a child in its place, by what the file of ids or the tree says; the answer is which child it is.
    fn find(&mut self, called: Called) -> Result<Option<Meant>, AllocError> {
        let supervisor = called.supervisor.of(self.text);
        let name = called.name.of(self.text);
        self.path.clear();
        match self.ids.said(supervisor, name) {
            Said::Nothing if self.has_paths => Ok(Some(self.known.at_path(name))),
            Said::Nothing => Ok(Some(self.known.meant(supervisor, name))),
            Said::Nobody => Ok(None),
            Said::Path(path) => {
                self.path.extend_from_slice(path)?;
                Ok(Some(self.known.at_path(path)))
            }
            Said::Below(path) => {
                self.path.extend_from_slice(path)?;
                if !path.is_empty() {
                    write_byte(b'/', &mut self.path)?;
                }
                self.path.extend_from_slice(id_of(name).as_slice())?;
                Ok(Some(self.known.at_path(self.path.as_slice())))
            }
        }
    }

    /// Something happened to a child. Of an end the reason stands in its place.
    pub fn take(&mut self, event: Event, moment: Moment, called: Called) -> Result<(), AllocError> {
        if self.is_stopped {
            self.counted.after = self.counted.after.saturating_add(1);
            return Ok(());
        }
        match self.find(called)? {
            None => Ok(()),
            Some(Meant::Child(number)) => match self.known.child(number) {
                Some(child) => self.take_child(event, moment, called, child),
                None => Ok(()),
            },
            // What came up and isn't of the tree has nothing to do with it.
            Some(_) if event.is_up() => Ok(()),
            Some(meant) if self.is_strict => self.put_unknown(moment, called, meant),
            Some(Meant::Unknown) if self.path.is_empty() => {
                self.remark(
                    "no child of the tree is called ",
                    called.name,
                    "; a file for --ids can say which is meant",
                )
            }
            Some(Meant::Unknown) => self.remark(
                "no child of the tree has the path that the file for --ids says: ",
                called.name,
                "",
            ),
            Some(Meant::Several) => self.remark(
                "more than one child of the tree is called ",
                called.name,
                "; a file for --ids says which is meant",
            ),
        }
    }

    /// Something happened to a child of the tree.
    fn take_child(
        &mut self,
        event: Event,
        moment: Moment,
        called: Called,
        child: Child,
    ) -> Result<(), AllocError> {
        if child.is_dynamic {
            return if event.is_up() {
                Ok(())
            } else {
                self.remark(
                    "children of a simple_one_for_one supervisor can't be told apart: ",
                    called.name,
                    "",
                )
            };
        }
        // A supervisor that ends so has given up, or was asked to: what the lines before say has led to it.
        if child.is_supervisor && !event.is_up() && is_text(self.reason.as_slice(), b"shutdown") {
            return Ok(());
        }
        self.path.clear();
        self.path.extend_from_slice(self.known.path_of(child))?;
        self.put(event, moment, called)
    }

    /// A child that the tree doesn't have is handed on, by a name that no child has.
    fn put_unknown(
        &mut self,
        moment: Moment,
        called: Called,
        meant: Meant,
    ) -> Result<(), AllocError> {
        if self.path.is_empty() {
            if matches!(meant, Meant::Several) {
                self.path.extend_from_slice(b"-/")?;
            }
            let id = id_of(called.name.of(self.text));
            self.path.extend_from_slice(id.as_slice())?;
        }
        self.put(Event::End, moment, called)
    }

    /// Writes a line: its path and its reason stand in their places.
    fn put(&mut self, event: Event, moment: Moment, called: Called) -> Result<(), AllocError> {
        if self.path.len().saturating_add(self.reason.len()) > LONGEST - 60 {
            return self.remark("its path is too long: ", called.name, "");
        }
        let time = self.take_time(moment);
        time.write(&mut self.line)?;
        self.line.extend_from_slice(match event {
            Event::Up => b" up ",
            Event::End if is_quiet(self.reason.as_slice()) => b" exit ",
            Event::End => b" crash ",
        })?;
        self.line.extend_from_slice(self.path.as_slice())?;
        if !event.is_up() {
            write_byte(b' ', &mut self.line)?;
            self.line.extend_from_slice(self.reason.as_slice())?;
        }
        self.counted.played = self.counted.played.saturating_add(1);
        self.is_put = true;
        Ok(())
    }

    /// The whole was asked to stop.
    pub fn stop(&mut self, moment: Moment) -> Result<(), AllocError> {
        if self.is_stopped {
            return Ok(());
        }
        let time = self.take_time(moment);
        time.write(&mut self.line)?;
        self.line.extend_from_slice(b" stop")?;
        self.counted.played = self.counted.played.saturating_add(1);
        self.is_put = true;
        self.is_stopped = true;
        Ok(())
    }
}

/// Appends what was counted.
fn write_counts(counted: Counted, out: &mut Vec<u8>) -> Result<(), AllocError> {
    write_number(counted.played, out)?;
    out.extend_from_slice(b" played")?;
    write_count(counted.left_out, " left out", out)?;
    write_count(
        counted.earlier,
        " earlier than the one before, and taken as that",
        out,
    )?;
    write_count(counted.after, " after the stop", out)?;
    write_count(counted.plain, " not played, as of a plain log", out)
}

/// Appends a number and what it counts, where it isn't 0.
fn write_count(count: u64, what: &str, out: &mut Vec<u8>) -> Result<(), AllocError> {
    if count == 0 {
        return Ok(());
    }
    out.extend_from_slice(b", ")?;
    write_number(count, out)?;
    out.extend_from_slice(what.as_bytes())
}

/// A time, or the one before where that is later.
fn later_of(last: Option<Moment>, moment: Moment) -> Moment {
    match last {
        Some(last) if moment.millis() < last.millis() => last,
        _ => moment,
    }
}

/// Appends a name as it is shown: no byte that isn't plain, and not too many.
fn write_shown(name: &[u8], out: &mut Vec<u8>) -> Result<(), AllocError> {
    let mut count: usize = 0;
    for byte in name {
        if count == 48 {
            return out.extend_from_slice(b"..");
        }
        count = count.saturating_add(1);
        write_byte(
            if matches!(*byte, 0x20..=0x7e) {
                *byte
            } else {
                b'?'
            },
            out,
        )?;
    }
    Ok(())
}
