//! What a commit that is counted leaves of the names of files.

ghost use Rattle.std.specs.Prelude.{◌≡◌, ◌==◌, ◌||◌};
ghost use Rattle.message_values.specs.Found.{nth};
ghost use Rattle.world_run.specs.Names.{struck, struck_by, has_after, kept_after};

use crate::runs::Runs;
use tree_values::bytes::Bytes;
use world_model::event::Event;

// A file that is counted isn't one that only a stop has kept.
fn strike(kept: &mut Vec<Bytes>, name: &[u8])
    ensures { kept.new.items ≡ struck name.now kept.old.items }
{
    kept.retain(|x| x.as_slice() != name);
}

impl Runs {
    // The commit of a frame was counted.
    fn counted(&mut self, f: u32)
        ensures state { self.new.state ≡ self.old.state }
        ensures past { self.new.past ≡ self.old.past }
        ensures document { self.new.document ≡ self.old.document }
        ensures has_document { self.new.has_document ≡ (self.old.has_document || (f == 1)) }
        ensures kept { self.new.kept.items ≡ struck_by (nth self.old.state.host.core.frames f) self.old.kept.items }
    {
        self.has_document = self.has_document || f == 1;
        match self.state.host.core.frame(f) {
            Some(frame) => strike(&mut self.kept, frame.name.as_slice()),
            None => {}
        }
    }

    // What an event that has happened leaves of the names of files.
    pub(crate) fn follow(&mut self, event: &Event)
        ensures state { self.new.state ≡ self.old.state }
        ensures past { self.new.past ≡ self.old.past }
        ensures document { self.new.document ≡ self.old.document }
        ensures has_document { self.new.has_document ≡ has_after event.now self.old.has_document }
        ensures kept { self.new.kept.items ≡ kept_after event.now self.old.state.host.core.frames self.old.kept.items }
    {
        match event {
            Event::Done(f) => self.counted(*f),
            Event::Resolve(f, is_kept) => match *is_kept {
                true => self.counted(*f),
                false => {}
            },
            Event::Command(_)
            | Event::Deliver(_)
            | Event::Forge(_, _)
            | Event::Crash(_, _)
            | Event::Reap(_)
            | Event::Fail(_)
            | Event::Open(_, _, _)
            | Event::Scribble(_, _, _)
            | Event::Ask(_, _, _) => {}
        }
    }
}
