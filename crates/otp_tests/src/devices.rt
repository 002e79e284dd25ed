//! Readers and writers that fail in mid-stream, that watch one another, and that count their calls.

use crate::fixtures::{got, same, supervisor_of};
use otp_sim::{Counted, Failed, SimEnd, sim, write_all};
use otp_spec::SupSpec;
use otp_text::LineFault;
use std::alloc::Global;
use std::cell::Cell;
use std::io;
use std::io::{Error, ErrorKind, Read, Write};
use std::process::Abort;

const THREE_WORKERS: &str =
    "[[child]]\nid = \"a\"\nstart = \"a\"\n[[child]]\nid = \"b\"\nstart = \"b\"\n[[child]]\nid = \"c\"\nstart = \"c\"\n";

fn three_workers(rt: &impl Abort, alloc: Global) -> SupSpec {
    supervisor_of(rt, alloc, THREE_WORKERS)
}

/// A reader of these bytes, so many at a call, that fails where they end. Every other call is interrupted.
#[derive(Drop)]
struct Broken<'a> {
    bytes: &'a [u8],
    at_once: usize,
    is_interrupted: bool,
}

impl<'a> Read for Broken<'a> {
    fn read(&mut self, buffer: &mut [u8]) -> io::Result<usize> {
        self.is_interrupted = !self.is_interrupted;
        if self.is_interrupted {
            return Err(Error::from(ErrorKind::Interrupted));
        }
        if self.bytes.is_empty() {
            return Err(Error::from(ErrorKind::Other));
        }
        let count = self.at_once.min(self.bytes.len()).min(buffer.len());
        let (piece, rest) = self.bytes.split_at(count);
        buffer[..count].copy_from_slice(piece);
        self.bytes = rest;
        Ok(count)
    }
}

/// A writer that takes one byte a call, and fails once it has so many. Every other call is interrupted.
#[derive(Drop)]
pub(crate) struct Slow {
    bytes: Vec<u8>,
    room: usize,
    is_interrupted: bool,
}

impl Slow {
    pub(crate) fn of_room(alloc: Global, room: usize) -> Slow {
        Slow {
            bytes: Vec::new(alloc),
            room,
            is_interrupted: false,
        }
    }

    /// What it has taken.
    pub(crate) fn into_bytes(self) -> Vec<u8> {
        let Slow { bytes, .. } = self;
        bytes
    }
}

impl Write for Slow {
    fn write(&mut self, bytes: &[u8]) -> io::Result<usize> {
        self.is_interrupted = !self.is_interrupted;
        if self.is_interrupted {
            return Err(Error::from(ErrorKind::Interrupted));
        }
        if self.bytes.len() >= self.room {
            return Err(Error::from(ErrorKind::Other));
        }
        let Some(byte) = bytes.first() else {
            return Ok(0);
        };
        self.bytes.push(*byte)?;
        Ok(1)
    }

    fn flush(&mut self) -> io::Result<()> {
        Ok(())
    }
}

/// The lines whose LF was read are served, and no other.
#[test]
fn failed_reads(rt: HostRuntime) {
    let opened = "start a #1\n";
    let second = "start a #1\nstart b #2\n";
    let end = SimEnd::InputFailed;
    reads_broken(&rt, rt.alloc(), b"up 1\n", second, end);
    reads_broken(&rt, rt.alloc(), b"up 1\nup 2", second, end);
    reads_broken(&rt, rt.alloc(), b"", opened, end);
    reads_broken(&rt, rt.alloc(), &[b'x'; 512], opened, end);
    // a line that is too long is refused before its end is read
    let end = SimEnd::LineRefused(1, LineFault::TooLong);
    reads_broken(&rt, rt.alloc(), &[b'x'; 513], opened, end);
}

/// What is printed of such an input, and how the program ends, however many bytes come at once.
fn reads_broken(rt: &impl Abort, alloc: Global, bytes: &[u8], printed: &str, end: SimEnd) {
    for at_once in [1usize, 7, 4096] {
        let supervisor = three_workers(rt, alloc);
        let mut reader = Counted::new(Broken {
            bytes,
            at_once,
            is_interrupted: false,
        });
        let mut writer = Counted::new(Vec::new(alloc));
        let ended = sim(alloc, supervisor, &mut reader, &mut writer);
        let text = writer.into_device();
        same(rt, "what is printed", text.as_slice(), printed.as_bytes());
        same(rt, "the end", ended, end);
    }
}

/// Three workers start, and are stopped.
const LINES: &str = "up 1\nup 2\nup 3\nstop\nexit 3 shutdown\nexit 2 shutdown\nexit 1 shutdown\n";

const PRINTED: &str =
    "start a #1\nstart b #2\nstart c #3\nready\nask c #3\nask b #2\nask a #1\nend shutdown\n";

/// A write that fails after so many bytes, for each number of them.
#[test]
fn failed_writes(rt: HostRuntime) {
    for room in 0..PRINTED.len() {
        writes_slowly(&rt, rt.alloc(), room, SimEnd::OutputFailed);
    }
    writes_slowly(&rt, rt.alloc(), PRINTED.len(), SimEnd::Done);
}

/// What is written of these lines where there is so much room, and how the program ends.
fn writes_slowly(rt: &impl Abort, alloc: Global, room: usize, end: SimEnd) {
    let supervisor = three_workers(rt, alloc);
    let mut reader = Counted::new(LINES.as_bytes());
    let mut writer = Counted::new(Slow::of_room(alloc, room));
    let ended = sim(alloc, supervisor, &mut reader, &mut writer);
    let bytes = writer.into_device().into_bytes();
    let written = PRINTED.as_bytes().get(..room);
    same(rt, "what is written", Some(bytes.as_slice()), written);
    same(rt, "the end", ended, end);
}

/// A reader of one line a call, that fails where the writer hasn't yet got all that the lines before print.
#[derive(Drop)]
struct Waiting<'a> {
    /// Each line, and how many bytes are to be written before it is read.
    lines: &'a [(&'a str, usize)],
    /// How many lines were read.
    count: usize,
    written: &'a Cell<usize>,
}

impl<'a> Read for Waiting<'a> {
    fn read(&mut self, buffer: &mut [u8]) -> io::Result<usize> {
        if self.count >= self.lines.len() {
            return Ok(0);
        }
        let (line, before) = self.lines[self.count];
        if self.written.get() != before {
            return Err(Error::from(ErrorKind::Other));
        }
        self.count += 1;
        let bytes = line.as_bytes();
        let count = bytes.len().min(buffer.len());
        buffer[..count].copy_from_slice(&bytes[..count]);
        Ok(count)
    }
}

/// A writer that tells how many bytes it has.
#[derive(Drop)]
struct Watched<'a> {
    written: &'a Cell<usize>,
}

impl<'a> Write for Watched<'a> {
    fn write(&mut self, bytes: &[u8]) -> io::Result<usize> {
        self.written
            .set(self.written.get().saturating_add(bytes.len()));
        Ok(bytes.len())
    }

    fn flush(&mut self) -> io::Result<()> {
        Ok(())
    }
}

/// Lines, and how much is written before each is read: all that the lines before it print.
const WAITED: [(&str, usize); 6] = [
    ("up 1\n", 11),
    ("up 2\n", 22),
    ("up 3\n", 33),
    ("count\n", 39),
    ("stop\n", 94),
    ("", 103),
];

/// At a terminal each line is answered before the next one is waited for.
#[test]
fn answers_come_before_reads(rt: HostRuntime) {
    let supervisor = three_workers(&rt, rt.alloc());
    let written = Cell::new(0usize);
    let mut reader = Counted::new(Waiting {
        lines: &WAITED,
        count: 0,
        written: &written,
    });
    let mut writer = Counted::new(Watched { written: &written });
    let ended = sim(rt.alloc(), supervisor, &mut reader, &mut writer);
    same(&rt, "the end", ended, SimEnd::Done);
    same(&rt, "how much is written", written.get(), 103);
}

/// A reader that gives all that a buffer has room for, and how often it was asked.
#[derive(Drop)]
struct Asked<'a> {
    bytes: &'a [u8],
    calls: usize,
}

impl<'a> Read for Asked<'a> {
    fn read(&mut self, buffer: &mut [u8]) -> io::Result<usize> {
        self.calls = self.calls.saturating_add(1);
        let count = self.bytes.len().min(buffer.len());
        let (piece, rest) = self.bytes.split_at(count);
        buffer[..count].copy_from_slice(piece);
        self.bytes = rest;
        Ok(count)
    }
}

/// A writer that takes all, how often it was asked and for how much, and how much at once at the most.
#[derive(Drop)]
pub(crate) struct Taking {
    pub(crate) calls: usize,
    pub(crate) bytes: usize,
    pub(crate) most: usize,
}

impl Taking {
    pub(crate) fn new() -> Taking {
        Taking {
            calls: 0,
            bytes: 0,
            most: 0,
        }
    }
}

impl Write for Taking {
    fn write(&mut self, bytes: &[u8]) -> io::Result<usize> {
        self.calls = self.calls.saturating_add(1);
        self.bytes = self.bytes.saturating_add(bytes.len());
        self.most = self.most.max(bytes.len());
        Ok(bytes.len())
    }

    fn flush(&mut self) -> io::Result<()> {
        Ok(())
    }
}

/// Many lines.
fn many_lines(rt: &impl Abort, alloc: Global) -> String {
    let mut lines = got(rt, "up 1\nup 2\nup 3\n".to_string(alloc));
    for _ in 0..20_000u64 {
        assert!(rt; lines.push_str("which\n\n\n\n\n\n").is_ok());
    }
    lines
}

/// Input is read, and output written, some 64 KiB at a time.
#[test]
fn few_reads_and_writes(rt: HostRuntime) {
    let lines = many_lines(&rt, rt.alloc());
    let supervisor = three_workers(&rt, rt.alloc());
    let mut reader = Counted::new(Asked {
        bytes: lines.as_bytes(),
        calls: 0,
    });
    let mut writer = Counted::new(Taking::new());
    let ended = sim(rt.alloc(), supervisor, &mut reader, &mut writer);
    same(&rt, "the end", ended, SimEnd::Done);
    // the last read finds the end
    let reads = reader.into_device().calls;
    let wanted = lines.len().div_ceil(65536).saturating_add(1);
    same(&rt, "the reads", reads, wanted);
    took_few(&rt, &writer.into_device(), reads);
}

/// One write before each read, and one for each 64 KiB.
fn took_few(rt: &impl Abort, taken: &Taking, reads: usize) {
    assert!(rt; taken.bytes > 1_000_000);
    assert!(rt; taken.calls <= reads.saturating_add(taken.bytes / 65536));
}

/// A writer that takes nothing, and how often it was asked.
#[derive(Drop)]
struct Full {
    calls: usize,
}

impl Write for Full {
    fn write(&mut self, _bytes: &[u8]) -> io::Result<usize> {
        self.calls = self.calls.saturating_add(1);
        Ok(0)
    }

    fn flush(&mut self) -> io::Result<()> {
        Ok(())
    }
}

/// An output that takes nothing is asked once: for orders, and for a text such as a help.
#[test]
fn full_outputs(rt: HostRuntime) {
    let supervisor = three_workers(&rt, rt.alloc());
    let mut reader = Counted::new(b"up 1\n".as_slice());
    let mut writer = Counted::new(Full { calls: 0 });
    let ended = sim(rt.alloc(), supervisor, &mut reader, &mut writer);
    same(&rt, "the end", ended, SimEnd::OutputFailed);
    same(&rt, "the writes", writer.into_device().calls, 1);
    let mut writer = Counted::new(Full { calls: 0 });
    let written = write_all(&mut writer, b"a help");
    same(&rt, "a text", written, Err(Failed));
    same(&rt, "the writes", writer.into_device().calls, 1);
}
