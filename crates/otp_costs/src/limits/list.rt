//! Lists that contracts see as lists.

ghost use Rattle.std.specs.Prelude.{◌≡◌, ◌++◌, IfOk, OnOk};

use otp_reason::Name;
use std::alloc::{AllocError, Global};
use std::marker::Model;

/// Things in an order. Contracts see them as a list.
#[derive(Debug, Drop)]
pub struct Listed<T: Drop> {
    items: Vec<T>,
}

impl<T: Drop> Model for Listed<T> {
    ghost use Rattle.std.specs.Prelude.{List};

    ghost Value = { List T };

    ghost view = { λ a. a.items.items };
}

impl<T: Drop> Listed<T> {
    ghost use Rattle.std.specs.Prelude.{◌≡◌, ◌∷◌, ◌++◌, [], OnOk};

    /// Nothing yet.
    pub fn new(alloc: Global) -> Self
        ensures { result ≡ [] }
    {
        Listed {
            items: Vec::new(alloc),
        }
    }

    /// They in their order.
    pub fn as_slice(&self) -> &[T]
        ensures { result.now ≡ self.now }
    {
        &self.items
    }

    /// Puts one behind the others.
    pub fn push(&mut self, item: T) -> Result<(), AllocError>
        ensures { OnOk result (self.new ≡ self.old ++ item ∷ []) }
    {
        self.items.push(item).map_err(|_| AllocError)
    }
}

/// A copy of names.
pub(crate) fn copy_names(alloc: Global, names: &[Name]) -> Result<Listed<Name>, AllocError>
    ensures { IfOk result (λ copy. copy ≡ names.now) }
{
    let mut copy = Listed::new(alloc);
    put_names(names, &mut copy)?;
    Ok(copy)
}

/// Puts names behind others.
fn put_names(names: &[Name], copy: &mut Listed<Name>) -> Result<(), AllocError>
    ensures { OnOk result (copy.new ≡ copy.old ++ names.now) }
{
    for name in names {
        copy.push(*name)?;
    }
    Ok(())
}
