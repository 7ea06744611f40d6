//! The law of places of the directory.

ghost use Rattle.tell_entries.specs.Ways.{EntryIsAtFault};

/// Where a place of the directory is told, the file is at fault.
pub fn entry_is_at_fault()
    ensures { EntryIsAtFault }
{}
