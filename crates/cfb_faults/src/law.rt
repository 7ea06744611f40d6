//! Laws of files at fault.

ghost use Rattle.cfb_faults.specs.Faults.{AlikeAtFault};

/// A file that a listing can't tell from one that is at fault has the same fault.
pub fn alike_at_fault()
    ensures { AlikeAtFault }
{}
