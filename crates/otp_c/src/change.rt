//! A tree goes on under another tree file.

ghost use Rattle.std.specs.Prelude.{◌≡◌, None};
ghost use Rattle.otp_c.specs.Changes.{ChangesIn, SaysGoneOn, TellsWhy};
ghost use Rattle.otp_c.specs.Handles.{IsKept, IsTold, OnTree};
ghost use Rattle.otp_c.specs.Statuses.{change_status};

use crate::handle::Handle;
use crate::shapes::{
    CFault, OTP_BAD_TREE, OTP_CLOSED, OTP_MEMORY, OTP_OK, change_status, fault_of, unchanged_of,
};
use crate::tree_of;
use otp_driver::driven::ChangeRefusal;
use otp_driver::{Session, Unchanged};
use otp_file::TreeSpec;
use std::alloc::Global;

/// Says why a tree doesn't go on.
fn tell_why(why: &Unchanged, fault: &mut CFault) -> u32
    ensures status { result ≡ change_status why.now.why }
    ensures told { TellsWhy why.now.why why.now fault.old fault.new }
{
    match why.why {
        ChangeRefusal::OutOfMemory => {}
        _ => *fault = unchanged_of(why),
    }
    change_status(why.why)
}

/// The tree goes on under this one.
fn go_on(alloc: Global, session: &mut Session, tree: &TreeSpec, fault: &mut CFault) -> u32
    ensures { SaysGoneOn tree.now result fault.old fault.new session.old session.new }
{
    match session.change(alloc, tree) {
        Ok(()) => OTP_OK,
        Err(why) => tell_why(&why, fault),
    }
}

fn change(alloc: Global, session: &mut Session, text: &[u8], fault: &mut CFault) -> u32
    ensures { ChangesIn text.now result fault.old fault.new session.old session.new }
{
    match tree_of(alloc, text) {
        Ok(tree) => go_on(alloc, session, &tree, fault),
        Err(None) => OTP_MEMORY,
        Err(Some(why)) => {
            *fault = fault_of(&why);
            OTP_BAD_TREE
        }
    }
}

/// The tree goes on under another tree file.
#[unsafe(no_mangle)]
pub extern "C" fn otp_change(
    alloc: Global,
    tree: &mut Handle,
    text: &[u8],
    fault: &mut CFault,
) -> u32
    ensures changes { OnTree tree.old.room.held tree.new.room.held (ChangesIn text.now result fault.old fault.new) }
    ensures unsaid { tree.old.room.held ≡ None → fault.new ≡ fault.old }
    ensures closed { IsTold tree.old.room.held result }
    ensures kept { IsKept tree.old.room.held tree.new.room.held }
{
    let Some(mut held) = tree.take(alloc) else {
        return OTP_CLOSED;
    };
    let status = change(alloc, &mut held, text, fault);
    tree.put(held);
    status
}
