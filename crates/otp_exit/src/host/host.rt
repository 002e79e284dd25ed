//! The system that the program is run on.

use crate::{LARGEST_FILE, LARGEST_TREE, TreeFiles, Unwritten};
use otp_sim::Counted;
use std::alloc::Global;
use std::env::VarError;
use std::fs::{File, Metadata};
use std::io::{ErrorKind, IsTerminal, Read, Stdout, Write};
use std::os::unix::fs::MetadataExt;
use std::sync::atomic::{AtomicU64, Ordering};
use std::{env, fs, io};

/// Whether a variable of the environment says nothing. One that can't be read may say something.
fn is_unset(variable: Result<String, VarError>) -> bool {
    match variable {
        Ok(text) => text.is_empty(),
        Err(VarError::NotPresent) => true,
        Err(_) => false,
    }
}

/// Whether a variable says that the terminal knows no colours.
fn is_dumb(variable: Result<String, VarError>) -> bool {
    match variable {
        Ok(text) => text.as_str() == "dumb",
        Err(_) => false,
    }
}

/// Reads so many bytes at the most, and one.
fn read_most<R: Read + Drop>(alloc: Global, from: R, most: usize) -> io::Result<Vec<u8>> {
    let most = most as u64;
    let mut bytes = Vec::new(alloc);
    let mut input = from.take(most.saturating_add(1));
    input.read_to_end(&mut bytes)?;
    Ok(bytes)
}

/// What a page begins with, in small letters or capitals.
const PAGE: &[u8; 14] = b"<!doctype html";

/// No write has failed.
const WRITTEN: u64 = 0;

/// A write has failed, since nobody reads what is written.
const CLOSED: u64 = 1;

/// A write has failed, since there is no room.
const NO_ROOM: u64 = 2;

/// A write has failed otherwise.
const OTHER: u64 = 3;

/// A writer that notes why it last failed.
#[derive(Drop)]
pub struct Noting<'a, W> {
    device: W,
    why: &'a AtomicU64,
}

impl<W> Noting<'_, W> {
    /// Notes why a write failed.
    fn note(&self, kind: ErrorKind) {
        let why = match kind {
            ErrorKind::Interrupted => return,
            ErrorKind::BrokenPipe => CLOSED,
            ErrorKind::StorageFull | ErrorKind::QuotaExceeded | ErrorKind::FileTooLarge => NO_ROOM,
            _ => OTHER,
        };
        // One thread writes and reads it, so no order is wanted.
        self.why.store(why, Ordering::Relaxed);
    }
}

impl<W: Write> Write for Noting<'_, W> {
    fn write(&mut self, bytes: &[u8]) -> io::Result<usize> {
        let written = self.device.write(bytes);
        if let Err(error) = &written {
            self.note(error.kind());
        }
        written
    }

    fn flush(&mut self) -> io::Result<()> {
        self.device.flush()
    }
}

/// The system that the program runs on, and why a write to standard output last failed.
#[derive(Drop)]
pub struct System<'a> {
    rt: &'a HostRuntime,
    why: AtomicU64,
}

impl<'a> System<'a> {
    /// The system as it is before anything is written.
    pub fn new(rt: &'a HostRuntime) -> Self {
        System {
            rt,
            why: AtomicU64::new(WRITTEN),
        }
    }

    /// What stands under this name, at the end of all links.
    fn look(&self, name: &str) -> io::Result<Metadata> {
        if name == "-" {
            fs::metadata(self.rt, "/dev/stdin")
        } else {
            fs::metadata(self.rt, name)
        }
    }

    /// Whether the file of this name begins as a page does. One that can't be read doesn't.
    fn has_page(&self, name: &str) -> bool {
        let mut front = [0; PAGE.len()];
        match File::open(self.rt, name) {
            Ok(mut file) => {
                file.read_exact(&mut front).is_ok() && front.eq_ignore_ascii_case(PAGE)
            }
            Err(_) => false,
        }
    }

    /// Standard output, of which it is noted why a write last failed.
    pub fn output(&self) -> Counted<Noting<'_, Stdout>> {
        Counted::new(Noting {
            device: self.rt.stdout(),
            why: &self.why,
        })
    }
}

/// The files of the system, of which nothing is known beforehand.
impl TreeFiles for System<'_> {
    ghost known = { λ _. record {
      holds = λ _ _. Unit {0};
      keeps = λ _ _. Unit {0};
      are_apart = λ _ _. Unit {0};
      is_free = λ _. Unit {0};
    } };

    fn read(&self, name: &str) -> io::Result<Vec<u8>> {
        read_most(self.rt.alloc(), File::open(self.rt, name)?, LARGEST_FILE)
    }

    fn read_tree(&self, name: &str) -> io::Result<Vec<u8>> {
        read_most(self.rt.alloc(), File::open(self.rt, name)?, LARGEST_TREE)
    }

    fn read_input(&self) -> io::Result<Vec<u8>> {
        read_most(self.rt.alloc(), self.rt.stdin(), LARGEST_TREE)
    }

    /// Two names are of one file where it is the same one of the same device. A file that isn't there is no other one.
    fn are_one(&self, name: &str, other: &str) -> bool {
        match (self.look(name), self.look(other)) {
            (Ok(one), Ok(other)) => one.dev() == other.dev() && one.ino() == other.ino(),
            _ => false,
        }
    }

    /// Nothing is lost where there is no file, one that is empty, a page, or no file that keeps what is written, as a device.
    fn is_free(&self, name: &str) -> bool {
        match self.look(name) {
            Ok(found) if found.is_file() && found.len() > 0 => self.has_page(name),
            // What else is wrong with it the write tells.
            _ => true,
        }
    }

    fn write(&self, name: &str, bytes: &[u8]) -> io::Result<()> {
        fs::write(self.rt, name, bytes)
    }

    fn is_terminal(&self) -> bool {
        self.rt.stdin().is_terminal()
    }

    /// The line is written over itself, and taken away in the end, so that the answer stands alone.
    fn saw(&self, made: usize, of: usize) {
        if !self.rt.stderr().is_terminal() {
            return;
        }
        // Where nothing can be shown the answer is found all the same.
        let _shown = if made < of {
            eprint!(self.rt; "\r{made} of {of} supervisors played\u{1b}[K")
        } else {
            eprint!(self.rt; "\r\u{1b}[K")
        };
    }

    /// So it is at a terminal, unless the variable `NO_COLOR` is set and not empty, or `TERM` says that it has none.
    fn has_colours(&self) -> bool {
        self.rt.stdout().is_terminal()
            && is_unset(env::var(self.rt, "NO_COLOR"))
            && !is_dumb(env::var(self.rt, "TERM"))
    }

    fn unwritten(&self) -> Unwritten {
        match self.why.load(Ordering::Relaxed) {
            CLOSED => Unwritten::Closed,
            NO_ROOM => Unwritten::Since("there is no room left"),
            _ => Unwritten::Unknown,
        }
    }
}
