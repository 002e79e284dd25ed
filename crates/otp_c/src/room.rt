//! A place for the pointer of a box.
ghost use Rattle.std.specs.Prelude.{◌≡◌, IsTrue, is_some, Option, None, Some};
ghost use Rattle.otp_driver.specs.declared.session.Session.{Session};
ghost use Rattle.otp_c.specs.Held.{held_coded, room_owns};

use crate::parts::Parts;
use otp_driver::Session;
use std::alloc::Global;
use std::marker::Model;
use std::ptr;

/// The pointer of a box, or none. Its type names no other type, so that it may cross to C.
#[repr(C)]
#[derive(Drop)]
pub struct Room {
    at: *mut u8,
    alloc: Global,
    pub ghost held: { Option Session } by { held_coded },
}

impl Model for Room {
    ghost also_owns = { λ s. room_owns s.alloc s.at s.held };
}

impl Room {
    pub fn empty(alloc: Global) -> Room
        ensures { result.held ≡ None }
    {
        Room {
            at: ptr::null_mut(),
            alloc,
        }
    }

    pub fn of_parts(parts: Parts<Session, Global>) -> Room
        ensures { result.held ≡ Some parts.value }
    {
        let Parts { ptr, alloc } = parts;
        Room {
            at: ptr as *mut u8,
            alloc,
        }
    }

    pub fn into_parts(self) -> Parts<Session, Global>
        requires { IsTrue (is_some self.held) }
        ensures { self.held ≡ Some result.value }
    {
        let Room { at, alloc } = self;
        Parts {
            ptr: at as *mut Session,
            alloc,
        }
    }
}
