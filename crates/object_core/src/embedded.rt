//! The trait of embedded objects.

ghost use Rattle.std.specs.Prelude.{◌≡◌, IfErr, IfOk, IsTrue, OnErr, OnOk, Ok, true};
ghost use Rattle.object_core.specs.Content.{Content, is_content, stored};
ghost use Rattle.object_core.specs.Kinds.{Kind, border_of, class_of, empty, kind_of, menus_of};
ghost use Rattle.object_core.specs.Objects.{Refuses, edit, load};
ghost use Rattle.object_core.specs.Pictures.{picture_bytes};

use crate::fault::EmbedFault;
use object_state::Menus;
use std::alloc::Global;
use tree_streams::streams::Streams;
use tree_values::class_id::ClassId;

/// An object in a server, of one of the three kinds. What a kind's contents, edits and pictures are, its definitions
/// say; whatever kind stands in a box, the calls do just that to the content that it holds.
pub trait Embedded: Drop {
    ghost use Rattle.std.specs.Prelude.{◌≡◌, IfErr, IfOk, OnErr, OnOk, Ok, true};
    ghost use Rattle.object_core.specs.Content.{Content, is_content, stored};
    ghost use Rattle.object_core.specs.Kinds.{border_of, class_of, empty, kind_of, menus_of};
    ghost use Rattle.object_core.specs.Objects.{Refuses, edit, load};
    ghost use Rattle.object_core.specs.Pictures.{picture_bytes};

    /// What it contains.
    ghost content: { Self → Content };

    /// Its class id.
    fn class(&self) -> ClassId
        ensures { result ≡ class_of (kind_of (content self.now)) };

    /// Makes it an object without content, as a new one is (IPersistStorage::InitNew).
    fn init(&mut self)
        ensures { content self.new ≡ empty (kind_of (content self.old)) };

    /// Takes the content that these streams hold (IPersistStorage::Load).
    ///
    /// Refused: `BadContent` where they aren't just the one stream of its kind, in its grammar and sizes. Then the
    /// content is as before.
    fn load(&mut self, alloc: Global, streams: &Streams) -> Result<(), EmbedFault>
        ensures loaded { OnOk result (load (kind_of (content self.old)) streams.now ≡ Ok (content self.new)) }
        ensures refused { IfErr result (Refuses (load (kind_of (content self.old)) streams.now)) }
        ensures kept { OnErr result (content self.new ≡ content self.old) };

    /// Carries out the edit that these bytes spell.
    ///
    /// Refused: `BadEdit` where they spell no edit of its kind, or one outside its ranges; `TooBig` where it passes a
    /// size. Then the content is as before.
    fn edit(&mut self, alloc: Global, bytes: &[u8]) -> Result<(), EmbedFault>
        ensures edited { OnOk result (edit (content self.old) bytes.now ≡ Ok (content self.new)) }
        ensures refused { IfErr result (Refuses (edit (content self.old) bytes.now)) }
        ensures kept { OnErr result (content self.new ≡ content self.old) };

    /// The streams that hold its content (IPersistStorage::Save). They are within its kind's sizes.
    ///
    /// Refused for want of memory alone.
    fn save(&self, alloc: Global) -> Result<Streams, EmbedFault>
        ensures saved { IfOk result (λ s. s ≡ stored (content self.now)) }
        ensures sound { is_content (content self.now) ≡ true }
        ensures refused { IfErr result (λ e. e ≡ EmbedFault.NoMemory) };

    /// The lines of its picture, each ended by a line feed (IViewObject::Draw).
    ///
    /// Refused for want of memory alone.
    fn render(&self, alloc: Global) -> Result<Vec<u8>, EmbedFault>
        ensures drawn { IfOk result (λ v. v.items ≡ picture_bytes (content self.now)) }
        ensures refused { IfErr result (λ e. e ≡ EmbedFault.NoMemory) };

    /// The texts of its menus (IOleInPlaceFrame::InsertMenus).
    fn menus(&self) -> Menus
        ensures { result ≡ menus_of (kind_of (content self.now)) };

    /// The border space that it asks for, in cells: left, top, right, bottom (IOleInPlaceFrame::RequestBorderSpace).
    fn border(&self) -> [u16; 4]
        ensures { result ≡ border_of (kind_of (content self.now)) };
}
