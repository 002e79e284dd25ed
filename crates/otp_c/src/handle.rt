//! What C holds: a session, or nothing.
ghost use Rattle.std.specs.Prelude.{◌≡◌, is_some, option_map, None, Some};

use crate::parts::Parts;
use crate::room::Room;
use otp_driver::Session;
use std::alloc::Global;
use std::mem;

#[repr(C)]
#[derive(Drop)]
pub struct Handle {
    is_open: bool,
    room: Room,
    ghost told: { is_open ≡ is_some room.held },
}

impl Handle {
    pub fn of(b: Box<Session>) -> Handle
        ensures { result.room.held ≡ Some b.value }
    {
        Handle {
            is_open: true,
            room: Room::of_parts(Parts::of(b)),
        }
    }

    /// Puts a tree back where none is.
    pub fn put(&mut self, b: Box<Session>)
        requires { self.old.room.held ≡ None }
        ensures { self.new.room.held ≡ Some b.value }
    {
        self.room = Room::of_parts(Parts::of(b));
        self.is_open = true;
    }

    pub fn take(&mut self, alloc: Global) -> Option<Box<Session>>
        ensures held { option_map (λ b. b.value) result ≡ self.old.room.held }
        ensures empty { self.new.room.held ≡ None }
    {
        if !self.is_open {
            return None;
        }
        self.is_open = false;
        let room = mem::replace(&mut self.room, Room::empty(alloc));
        Some(room.into_parts().into_box())
    }
}
