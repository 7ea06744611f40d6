//! What a file that is opened leaves in a world.

ghost use Rattle.std.specs.Prelude.{◌≡◌, ◌≤◌, [], IfOk, OnErr, option_copied, vec_len};
ghost use Rattle.message_values.specs.Found.{find};
ghost use Rattle.container_model.specs.Opens.{Given, opened};
ghost use Rattle.world_model.specs.World.{MayChoose, file_bytes, giving, is_file, took};
ghost use Rattle.world_model.specs.declared.event.Event.TheVariants as event;
ghost use Rattle.world_host.specs.Rooms.{most};
ghost use Rattle.world_host.specs.View.{bare, started};

use crate::commits::file_place;
use crate::host::{Host, Servers};
use container_model::fault::ContainerFault;
use std::alloc::{AllocError, Global};
use tree_values::bytes::Bytes;
use world_model::logs::File;

// The bytes of the file of this name.
pub(crate) fn file_bytes<'a>(files: &'a [File], name: &[u8]) -> Option<&'a [u8]>
    ensures { option_copied result ≡ file_bytes (find (is_file name.now) files.now) }
{
    match file_place(files, name) {
        Some(i) => Some(files[i].bytes.as_slice()),
        None => None,
    }
}

impl Host {
    /// A file is opened as a frame, so many columns wide and so many lines high; where it isn't, that is the answer.
    /// Gives the servers that are ended and started, which are none.
    ///
    /// Refused for want of memory alone. Then nothing changes.
    pub fn open_file(
        &mut self,
        alloc: Global,
        name: &Bytes,
        width: u16,
        height: u16,
    ) -> Result<Servers, AllocError>
        ensures taken { IfOk result (λ s. (given : Given) × MayChoose (bare self.old) (giving given)
            (event.Open name.now width height)
            × (took (bare self.old) (opened self.old.core name.now width height given)
            ≡ started (bare self.new) s.starts.items)) }
        ensures ends { IfOk result (λ s. s.ends.items ≡ []) }
        ensures few { IfOk result (λ s. vec_len s.starts ≤ most self.old.core) }
        ensures kept { OnErr result (bare self.new ≡ bare self.old) }
    {
        let room = self.make_room(alloc)?;
        let copied = name.copy(alloc)?;
        let file = file_bytes(&self.files, name.as_slice());
        match self.core.open_file(alloc, copied, width, height, file) {
            Ok(answer) => Ok(self.join(alloc, answer, room)),
            Err(ContainerFault::NoMemory) => Err(AllocError),
            Err(fault) => Ok(self.refuse(fault, room)),
        }
    }
}
