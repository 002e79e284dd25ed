//! Marks that tell most numbers of processes apart from those under which supervisors were opened, at one look.
ghost use Rattle.std.specs.Prelude.{◌≡◌, ◌%◌, ◌<◌, false, true, get_or};
ghost use Rattle.otp_core.specs.View.{stored_state};
ghost use Rattle.otp_run.specs.Lists.{AllAt};
ghost use Rattle.otp_close.specs.Marks.{AreAllMarked, AreMarked, IsMarked, StayMarked};

use crate::report::report::TableReport;
use otp_core::Core;
use otp_rules::{Phase, SupEnd};

/// So many marks: a tree has few supervisors, and they are opened seldom.
pub(crate) const MARKS: usize = 1024;

/// The place of a number's mark.
fn place_of(number: u64) -> usize
    ensures { result ≡ number % MARKS }
{
    (number % MARKS as u64) as usize
}

/// Whether a number's mark is set.
pub(crate) fn is_marked(marks: &[bool; MARKS], number: u64) -> bool
    ensures { result ≡ get_or marks.now (number % MARKS) false }
{
    marks[place_of(number)]
}

/// Sets a number's mark.
fn mark(marks: &mut [bool; MARKS], number: u64)
    ensures marked { IsMarked marks.new number }
    ensures others { StayMarked marks.old marks.new }
{
    let place = place_of(number);
    marks[place] = true;
}

/// Sets the marks of the numbers under which a supervisor ended.
fn mark_ends(marks: &mut [bool; MARKS], ends: &[(u64, SupEnd)])
    ensures marked { AllAt (λ _ x. IsMarked marks.new x.0) ends.now }
    ensures others { StayMarked marks.old marks.new }
{
    for place in 0..ends.len() {
        mark(marks, ends[place].0);
    }
}

/// Sets the marks of the numbers under which a supervisor was opened.
fn mark_openings(marks: &mut [bool; MARKS], core: &Core)
    ensures marked { AreMarked marks.new (stored_state core.now) }
    ensures others { StayMarked marks.old marks.new }
{
    mark_ends(marks, core.ends());
    if let Phase::Open(number) = core.phase() {
        mark(marks, number);
    }
}

/// The marks of all numbers under which these supervisors were opened.
pub(crate) fn marks_of(tables: &[TableReport]) -> [bool; MARKS]
    ensures { AreAllMarked result tables.now }
{
    let mut marks = [false; MARKS];
    for table in 0..tables.len() {
        mark_openings(&mut marks, &tables[table].core);
    }
    marks
}
