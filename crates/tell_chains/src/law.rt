//! The law of places of streams' chains.

ghost use Rattle.tell_chains.specs.Streams.{StreamIsAtFault};

/// Where a place of a stream is told, the file is at fault.
pub fn stream_is_at_fault()
    ensures { StreamIsAtFault }
{}
