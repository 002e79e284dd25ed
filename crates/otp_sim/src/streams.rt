//! Readers and writers of the standard library whose failures are counted.

ghost use Rattle.std.specs.Prelude.{◌≡◌, ◌+◌, OnOk};
ghost use Rattle.std.specs.Io.{ReadsAtMost, WritesAtMost};
ghost use Rattle.std.specs.Io.KnownBytes.{ReadConsumes, WriteAppends};
ghost use Rattle.otp_sim.specs.Devices.{CountsCall, CountsWriteCall};

use crate::device::{Failed, Input, Output};
use otp_tally::Tally;
use std::io;
use std::io::{ErrorKind, Read, Write};

/// A reader or a writer, and how often it failed. The count takes no memory: contracts alone read it.
#[derive(Drop)]
pub struct Counted<D> {
    device: D,
    failures: Tally,
}

impl<D> Counted<D> {
    /// The device has not failed yet.
    pub fn new(device: D) -> Self
        ensures device { result.device ≡ device }
        ensures failures { result.failures.count ≡ 0 }
    {
        Counted {
            device,
            failures: Tally::new(),
        }
    }

    /// The device itself.
    pub fn into_device(self) -> D
        ensures { result ≡ self.device }
    {
        let Counted {
            device,
            failures: _failures,
        } = self;
        device
    }

    /// The device failed once more.
    fn fail(&mut self) -> Failed
        ensures device { self.new.device ≡ self.old.device }
        ensures failures { self.new.failures.count ≡ self.old.failures.count + 1 }
    {
        self.failures.raise();
        Failed
    }
}

impl<D: Read> Counted<D> {
    /// One call of the reader, which is counted where it fails.
    fn read_once(&mut self, buffer: &mut [u8]) -> io::Result<usize>
        ensures bound { ReadsAtMost result buffer.new }
        ensures bytes { ReadConsumes (D.remaining self.old.device) (D.remaining self.new.device) result buffer.new }
        ensures errors { CountsCall self.old.failures.count self.new.failures.count result }
        ensures ok { OnOk result (self.new.failures.count ≡ self.old.failures.count) }
    {
        match self.device.read(buffer) {
            Err(error) if error.kind() != ErrorKind::Interrupted => {
                self.failures.raise();
                Err(error)
            }
            result => result,
        }
    }
}

impl<D: Write> Counted<D> {
    /// One call of the writer, which is counted where it fails or takes nothing.
    fn write_once(&mut self, bytes: &[u8]) -> io::Result<usize>
        ensures bound { WritesAtMost result bytes.now }
        ensures bytes { WriteAppends (D.contents self.old.device) (D.contents self.new.device) result bytes.now }
        ensures calls { CountsWriteCall self.old.failures.count self.new.failures.count result bytes.now }
    {
        match self.device.write(bytes) {
            Ok(0) if !bytes.is_empty() => {
                self.failures.raise();
                Ok(0)
            }
            Err(error) if error.kind() != ErrorKind::Interrupted => {
                self.failures.raise();
                Err(error)
            }
            result => result,
        }
    }
}

impl<D: Read> Input for Counted<D> {
    ghost seen = { λ counted. record { left = D.remaining counted.device; failures = counted.failures.count } };

    /// A read that was interrupted is made again.
    fn read(&mut self, buffer: &mut [u8]) -> Result<usize, Failed> {
        for _ in 0..u64::MAX {
            match self.read_once(buffer) {
                Ok(count) => return Ok(count),
                Err(error) if error.kind() == ErrorKind::Interrupted => {}
                Err(_) => return Err(Failed),
            }
        }
        Err(self.fail())
    }
}

impl<D: Write> Output for Counted<D> {
    ghost seen = { λ counted. record { bytes = D.contents counted.device; failures = counted.failures.count } };

    /// A write that was interrupted is made again.
    fn write(&mut self, bytes: &[u8]) -> Result<usize, Failed> {
        for _ in 0..u64::MAX {
            match self.write_once(bytes) {
                Ok(0) if !bytes.is_empty() => return Err(Failed),
                Ok(count) => return Ok(count),
                Err(error) if error.kind() == ErrorKind::Interrupted => {}
                Err(_) => return Err(Failed),
            }
        }
        Err(self.fail())
    }
}
