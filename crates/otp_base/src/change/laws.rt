//! What every change leaves as it was. A law is a function that does nothing: what it ensures is the law.

ghost use Rattle.otp_base.specs.Laws.{ChildrenFit, ChildrenStay, OrderStays, SameStays, SlotsStay, StampsFew, StampsStay};

/// Each child that has a process, or whose retry waits, keeps its slot, its id, its state and its number, and no other child
/// gets one.
pub fn children_stay()
    ensures { ChildrenStay }
{}

/// A supervisor that runs has the children of its new specifications then, in their order.
pub fn children_fit()
    ensures { ChildrenFit }
{}

/// A supervisor that is in order stays so.
pub fn order_stays()
    ensures { OrderStays }
{}

/// No two children have one slot, and each slot lies below the limit, where it was so.
pub fn slots_stay()
    ensures { SlotsStay }
{}

/// A supervisor that runs and gets the flags and specifications that it has stays as it is. Of its restarts those alone are
/// dropped that lie before the period, if it keeps the rate.
pub fn same_stays()
    ensures state { SameStays }
    ensures stamps { StampsStay }
{}

/// No more restarts are left than the intensity, so that none of them ends the supervisor.
pub fn stamps_are_few()
    ensures { StampsFew }
{}
