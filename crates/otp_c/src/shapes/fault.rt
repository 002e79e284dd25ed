//! Why a tree file is refused, or a tree doesn't go on under it, as a struct of C.

ghost use Rattle.std.specs.Prelude.{◌≡◌};
ghost use Rattle.otp_c.specs.Faults.{ShowsFault, ShowsUnchanged, spot, spot_of, spot_of_place, spot_of_spec};
ghost use Rattle.otp_c.specs.Words.{child_key_number, flag_key_number};

use crate::shapes::structs::{CFault, FAULT_SIZE};
use otp_driver::Unchanged;
use otp_file::{ChildKey, FaultPlace, FlagKey, TableFault, TreeFault};
use otp_spec::{SpecFault, SpecKey};
use std::fmt::{self, Write};

/// The first bytes of a sentence.
#[derive(Drop)]
struct Sentence {
    bytes: [u8; FAULT_SIZE],
    len: usize,
}

fn flag_key(key: FlagKey) -> u32
    ensures { result ≡ flag_key_number key }
{
    match key {
        FlagKey::Strategy => 1,
        FlagKey::Intensity => 2,
        FlagKey::Period => 3,
        FlagKey::AutoShutdown => 4,
        FlagKey::Child => 5,
    }
}

fn child_key(key: ChildKey) -> u32
    ensures { result ≡ child_key_number key }
{
    match key {
        ChildKey::Id => 1,
        ChildKey::Start => 2,
        ChildKey::Restart => 3,
        ChildKey::Significant => 4,
        ChildKey::Shutdown => 5,
        ChildKey::Kind => 6,
        ChildKey::Modules => 7,
        ChildKey::Tree => 8,
    }
}

/// A place: its kind, the child's index, and the key.
#[derive(Clone, Copy)]
struct Spot {
    place: u32,
    index: u32,
    key: u32,
}

fn make_spot(place: u32, index: usize, key: u32) -> Spot
    ensures { result ≡ spot place index key }
{
    Spot {
        place,
        index: index.min(1_000_000) as u32,
        key,
    }
}

fn spot_of_place(place: FaultPlace) -> Spot
    ensures { result ≡ spot_of_place place }
{
    match place {
        FaultPlace::Table => make_spot(1, 0, 0),
        FaultPlace::Flag(key) => make_spot(2, 0, flag_key(key)),
        FaultPlace::Child(index) => make_spot(3, index, 0),
        FaultPlace::ChildKey(index, key) => make_spot(4, index, child_key(key)),
    }
}

fn spot_of_spec(fault: SpecFault) -> Spot
    ensures { result ≡ spot_of_spec fault }
{
    match fault {
        SpecFault::BadFlag | SpecFault::SimpleNeedsOne | SpecFault::TooManyChildren => make_spot(
            1, 0, 0,
        ),
        SpecFault::BadSpec { index, key } => make_spot(
            4,
            index,
            match key {
                SpecKey::Id => 1,
                SpecKey::Start => 2,
                SpecKey::Modules => 7,
            },
        ),
        SpecFault::DuplicateId { index } => make_spot(4, index, 1),
        SpecFault::SignificantPermanent { index } | SpecFault::SignificantNever { index } => {
            make_spot(4, index, 4)
        }
    }
}

fn spot_of(fault: TreeFault) -> Spot
    ensures { result ≡ spot_of fault }
{
    match fault {
        TreeFault::OutOfMemory
        | TreeFault::NotToml
        | TreeFault::TooDeep
        | TreeFault::TooManyTables => make_spot(0, 0, 0),
        TreeFault::UnknownKey(place) | TreeFault::WrongKind(place) => spot_of_place(place),
        TreeFault::MissingKey { index, key } | TreeFault::BadSpec { index, key } => {
            make_spot(4, index, child_key(key))
        }
        TreeFault::BadFlag(key) => make_spot(2, 0, flag_key(key)),
        TreeFault::Unlawful(fault) => spot_of_spec(fault),
        TreeFault::NestedNotInfinity { index } => make_spot(4, index, 5),
    }
}

impl fmt::Write for Sentence {
    fn write_str(&mut self, text: &str) -> fmt::Result {
        for byte in text.as_bytes() {
            if self.len >= FAULT_SIZE {
                return Err(fmt::Error);
            }
            self.bytes[self.len] = *byte;
            self.len += 1;
        }
        Ok(())
    }
}

/// The fault as plain numbers and bytes.
pub fn fault_of(why: &TableFault) -> CFault
    ensures { ShowsFault why.now result }
{
    let spot = spot_of(why.fault);
    let mut sentence = Sentence {
        bytes: [0; FAULT_SIZE],
        len: 0,
    };
    let _ = write!(sentence, "{why}");
    let text = sentence.bytes;
    CFault {
        code: u32::from(why.fault.code()),
        table: why.table.min(1_000_000) as u32,
        place: spot.place,
        index: spot.index,
        key: spot.key,
        text_len: sentence.len.min(FAULT_SIZE) as u32,
        text,
    }
}

/// Which supervisor of the tree that runs is why it doesn't go on under another tree file, as plain numbers and bytes.
pub fn unchanged_of(why: &Unchanged) -> CFault
    ensures { ShowsUnchanged why.now result }
{
    let mut sentence = Sentence {
        bytes: [0; FAULT_SIZE],
        len: 0,
    };
    let _ = write!(sentence, "{why}");
    let text = sentence.bytes;
    CFault {
        code: 0,
        table: why.supervisor.min(1_000_000) as u32,
        place: 1,
        index: 0,
        key: 0,
        text_len: sentence.len.min(FAULT_SIZE) as u32,
        text,
    }
}
