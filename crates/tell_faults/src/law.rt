//! The law of places of the system's own parts.

ghost use Rattle.tell_faults.specs.Places.{ToldIsAtFault};

/// Where a place is told, the file is at fault.
pub fn told_is_at_fault()
    ensures { ToldIsAtFault }
{}
