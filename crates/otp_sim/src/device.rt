//! What `sim` reads from and writes to.

ghost use Rattle.std.specs.Prelude.{◌≤◌, length};
ghost use Rattle.std.specs.Io.{ReadsAtMost, WritesAtMost};
ghost use Rattle.std.specs.Io.KnownBytes.{ReadConsumes, WriteAppends};
ghost use Rattle.otp_sim.specs.declared.device.TheConstants.{PIECE};
ghost use Rattle.otp_sim.specs.Devices.{CountsErrors, CountsWrites, Readable, Written};

/// How many bytes are asked for at once, at the least, and from how many on printed ones are written: 64 KiB.
pub const PIECE: usize = 65_536;

/// A device failed.
#[derive(Clone, Copy, Debug, PartialEq, Eq)]
pub struct Failed;

/// What lines are read from.
pub trait Input {
    /// What it shows: the bytes that reads will give from here on, where they are known, and how often a read has failed.
    ghost seen: { Self → Readable };

    /// Reads what is there into the buffer, and says how many bytes; none only at the end.
    ///
    /// Nobody reads a little at a time: the buffer has room for [`PIECE`] bytes.
    fn read(&mut self, buffer: &mut [u8]) -> Result<usize, Failed>
        requires room { PIECE ≤ length buffer.old }
        ensures bound { ReadsAtMost result buffer.new }
        ensures bytes { ReadConsumes (seen self.old).left (seen self.new).left result buffer.new }
        ensures failures { CountsErrors (seen self.old).failures (seen self.new).failures result };
}

/// What orders are written to.
pub trait Output {
    /// What it shows: the bytes that were written, where they are known, and how often a write has failed, or has taken
    /// nothing. Both count at most once a call, so that a writer that takes nothing is not asked for ever.
    ghost seen: { Self → Written };

    /// Writes bytes from the front on, and says how many.
    fn write(&mut self, bytes: &[u8]) -> Result<usize, Failed>
        ensures bound { WritesAtMost result bytes.now }
        ensures bytes { WriteAppends (seen self.old).bytes (seen self.new).bytes result bytes.now }
        ensures failures { CountsWrites (seen self.old).failures (seen self.new).failures result bytes.now };
}
