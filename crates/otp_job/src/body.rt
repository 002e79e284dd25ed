ghost use Rattle.std.specs.Prelude.{◌≡◌};

use crate::bridge::Bridge;
use std::marker::Model;

/// The number of a supervisor's table, as the body of a child: there is one of it, which goes from the parent to the
/// child's process and home again. Contracts see the number.
#[derive(Drop)]
pub struct TableNo {
    number: usize,
}

impl Model for TableNo {
    ghost use Rattle.std.specs.Prelude.{ℕ};

    ghost Value = { ℕ };

    ghost view = { λ t. t.number };
}

impl TableNo {
    /// Whoever opens the tables makes one for each nested supervisor.
    pub fn new(number: usize) -> TableNo
        ensures { result ≡ number }
    {
        TableNo { number }
    }

    /// The number.
    pub fn number(&self) -> usize
        ensures { result ≡ self.now }
    {
        self.number
    }
}

/// What a child runs.
#[derive(Drop)]
pub enum Body<J: Drop, S: Drop> {
    /// A worker's job.
    Worker(J),
    /// A bridge, with its subsystem.
    Bridge(Bridge<S>),
    /// A nested supervisor.
    Sup(TableNo),
}
