//! What each call answers.

ghost use Rattle.std.specs.Prelude.{◌≡◌};
ghost use Rattle.otp_c.specs.Statuses.{change_status, status_of};

use otp_base::change::ChangeFault;
use otp_driver::driven::{ChangeRefusal, DriveFault};

/// It was done.
pub const OTP_OK: u32 = 0;

/// There is none.
pub const OTP_NONE: u32 = 1;

/// The handle is empty.
pub const OTP_CLOSED: u32 = 2;

/// The handle has a tree already.
pub const OTP_OPEN: u32 = 3;

/// Memory was refused.
pub const OTP_MEMORY: u32 = 4;

/// Orders wait to be taken.
pub const OTP_FULL: u32 = 5;

/// The tree takes no more, ever.
pub const OTP_SPENT: u32 = 6;

/// The reading is too large.
pub const OTP_BAD_READING: u32 = 7;

/// A number that stands for a word is none of those listed.
pub const OTP_BAD_KIND: u32 = 8;

/// A text is not lawful.
pub const OTP_BAD_TEXT: u32 = 9;

/// A name says more bytes than it has.
pub const OTP_BAD_NAME: u32 = 10;

/// The tree file is refused.
pub const OTP_BAD_TREE: u32 = 11;

/// No supervisor has this number.
pub const OTP_NO_SUPERVISOR: u32 = 12;

/// The process is a supervisor of the tree.
pub const OTP_NESTED: u32 = 13;

/// Orders wait, or children are starting or stopping.
pub const OTP_BUSY: u32 = 14;

/// A process would be left without its child or its supervisor.
pub const OTP_RUNNING: u32 = 15;

/// Children would turn into dynamic ones, or dynamic ones into others.
pub const OTP_TURNED: u32 = 16;

/// The number by which a refusal is told.
pub fn status_of(fault: DriveFault) -> u32
    ensures { result ≡ status_of fault }
{
    match fault {
        DriveFault::OutOfMemory => OTP_MEMORY,
        DriveFault::OrdersWait => OTP_FULL,
        DriveFault::Spent => OTP_SPENT,
        DriveFault::BadReading => OTP_BAD_READING,
        DriveFault::NoSupervisor => OTP_NO_SUPERVISOR,
        DriveFault::IsNested => OTP_NESTED,
    }
}

/// The number by which it is told why a supervisor isn't changed.
pub fn change_status(why: ChangeRefusal) -> u32
    ensures { result ≡ change_status why }
{
    match why {
        ChangeRefusal::OutOfMemory | ChangeRefusal::Change(ChangeFault::OutOfMemory) => OTP_MEMORY,
        ChangeRefusal::OrdersWait | ChangeRefusal::Change(ChangeFault::Busy) => OTP_BUSY,
        ChangeRefusal::Change(ChangeFault::Running) | ChangeRefusal::Runs | ChangeRefusal::Turns =>
            OTP_RUNNING,
        ChangeRefusal::Change(ChangeFault::Turned) => OTP_TURNED,
        ChangeRefusal::Change(ChangeFault::Spec(_)) => OTP_BAD_TREE,
        ChangeRefusal::Base(_) => OTP_SPENT,
    }
}
