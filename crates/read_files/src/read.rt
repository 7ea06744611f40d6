//! Reading a compound file.

ghost use Rattle.cfb_header.specs.Bytes.{joined};
ghost use Rattle.cfb_chains.specs.Fat.{IsFound, store_of};
ghost use Rattle.cfb_header.specs.Header.{IsHeader, header_read};
ghost use Rattle.read_chains.specs.View.{image_bytes};
ghost use Rattle.cfb_header.specs.declared.fault.ChainFault.{ChainFault};
ghost use Rattle.cfb_entries.specs.Entries.{IsEntry};
ghost use Rattle.read_directories.specs.Held.{held};
ghost use Rattle.read_directories.specs.Streams.{IsStreamEntry};
ghost use Rattle.cfb_names.specs.Names.{key};
ghost use Rattle.std.specs.List.{All};
ghost use Rattle.std.specs.Prelude.{[], ◌*◌, ◌<◌, ◌≡◌, ◌≢◌, ◌↔◌, IfErr, IfOk, IsTrue, List, OnOk, length};
ghost use Rattle.std.specs.Prelude.{slice_index_or, suc, take, true, ℕ};
ghost use Rattle.tree_storage.specs.Change.{Seen};
ghost use Rattle.tree_storage.specs.Kept.{kept};
ghost use Rattle.cfb_entries.specs.Tree as tree;
ghost use Rattle.cfb_file.specs.Outline.{outline_of};
ghost use Rattle.cfb_file.specs.Denotes.{Denotes};
ghost use Rattle.cfb_faults.specs.Faults.{Base, IsStorage};
ghost use Rattle.read_outlines.specs.Keeping.{wanted};
ghost use Rattle.read_outlines.specs.Places.{IsFileKept, IsPlaced, Leads};
ghost use Rattle.read_files.specs.Marks.{IsNext};
ghost use Rattle.read_files.specs.Reads.{AreSorted, HasLists, IsChildPushed, IsChildRead, IsNodeRead, IsOutlined};
ghost use Rattle.read_files.specs.Reads.{IsPartOutlined, IsStorageRead, MayLack, MayRefuseFile, MayRefuseFind};
ghost use Rattle.read_files.specs.Reads.{MayRefusePlace, MayRefuseStorage, MayRefuseStream, MayWant, chain_fault};
ghost use Rattle.read_files.specs.Reads.{directory_in, met, stream_after};
ghost use Rattle.read_outlines.specs.Streams.{stream_at};
ghost use Rattle.read_outlines.specs.View.{contents, outline_view, shown, table_for};
ghost use Rattle.read_files.specs.View.{directory_bytes};
ghost use Rattle.read_files.specs.declared.fault.ReadFault.TheVariants.{NoMemory};
ghost use Rattle.read_files.specs.declared.read.Reader as reader;

use crate::fault::{ReadFault, StreamFault};
use cfb_header::header::Header;
use cfb_names::fault::DirFault;
use cfb_names::name::Name;
use read_chains::fat::Fat;
use read_chains::image::Image;
use read_directories::entries::{Entries, Entry, EntryKind, StreamEntry};
use read_directories::held::Directory;
use read_directories::sorting::by_name;
use read_outlines::filling::storage_at;
use read_outlines::finding::place_at;
use read_outlines::keeping::Keep;
use read_outlines::outline::{Outline, Part, Place, is_short};
use read_packed::places::Places;
use std::alloc::Global;
use tree_storage::tree::Tree;
use tree_values::class_id::ClassId;

/// How many storages may stand inside one another below the root.
const DEEPEST: u32 = 32;

/// The tables of a file, which mark what was read of it, and its directory.
#[derive(Drop)]
struct Reader<'a, 'd> {
    fat: Fat<'a>,
    mini: Fat<'a>,
    entries: Entries<'d>,
}

impl<'a, 'd> Reader<'a, 'd> {
    /// Marks the sectors of the stream that lies at a place. It takes no memory.
    ///
    /// Refused: as `Fat::mark_chain`.
    fn mark_stream(&mut self, place: Place) -> Result<(), ReadFault>
        ensures found { OnOk result ((ns : List ℕ) × IsFound (table_for place.size self.old.fat self.old.mini)
            place.first place.size ns
            × (contents self.old.fat self.old.mini place ≡ take place.size
            (joined (store_of (table_for place.size self.old.fat self.old.mini)).piece ns))
            × (self.new ≡ stream_after place.size ns self.old)) }
        ensures long { OnOk result (length (contents self.old.fat self.old.mini place) ≡ place.size) }
        ensures there { (ns : List ℕ) → IsFound (table_for place.size self.old.fat self.old.mini) place.first
            place.size ns → IfErr result (λ e. e ≡ NoMemory) }
        ensures refused { IfErr result (MayRefusePlace self.old place.first place.size) }
    {
        if is_short(place) {
            self.mini.mark_chain(place.first, place.size)?;
        } else {
            self.fat.mark_chain(place.first, place.size)?;
        }
        Ok(())
    }

    /// Puts the name of a stream and where it lies behind those so far, if it is kept, and marks its sectors. Its name
    /// alone is copied, where it is kept.
    ///
    /// Refused: as `mark_stream`, and `NoMemory`.
    fn push_stream(
        &mut self,
        id: u32,
        stream: StreamEntry<'_>,
        keep: Keep<'_>,
        parts: &mut Vec<(Name, Part)>,
    ) -> Result<(), ReadFault>
        requires said { IsStreamEntry (directory_in self.old) id stream }
        requires below_root { id ≢ 0 }
        ensures outlined { OnOk result ((depth : ℕ) → IsChildPushed depth id (wanted keep.entry) parts.old.items
            parts.new.items self.old self.new) }
        ensures there { (depth : ℕ) (k name : List ℕ) (s : Seen) (new : reader.Reader)
            → IsChildRead depth id k name s self.old new → IfErr result (λ e. e ≡ NoMemory) }
        ensures refused { (b : Base) (depth : ℕ) (pending : List ℕ) → IsNext b depth id pending self.old
            → IfErr result (MayRefuseStorage b) }
    {
        let place = Place {
            first: stream.first,
            size: stream.size,
        };
        self.mark_stream(place)?;
        match keep.below(stream.name) {
            Keep::Nothing => Ok(()),
            _ => Ok(parts.push((stream.name.copy(), Part::Stream(place)))?),
        }
    }

    /// The children of an entry in the order of their names, which are marked.
    ///
    /// Refused: as `Entries::in_order` and `by_name`, and `NoMemory` only where the children are there.
    fn sorted_children(&mut self, alloc: Global, id: u32) -> Result<Vec<u32>, ReadFault>
        requires inside { 128 * id < length (directory_in self.old) }
        requires root_marked { slice_index_or self.old.entries.used 0 true ≡ true }
        ensures sorted { IfOk result (λ v. (sorted : AreSorted self.old.entries id v.items)
            × (self.new ≡ met sorted.reached self.old)) }
        ensures there { (depth : ℕ) (t : tree.Tree) (new : reader.Reader) → IsStorageRead depth id t self.old new
            → IfErr result (λ e. e ≡ NoMemory) }
        ensures memory { IfErr result (MayWant self.old.entries id) }
        ensures refused { (b : Base) (room : ℕ) (pending : List ℕ) → IsStorage (directory_in self.old) id
            → IsNext b room id pending self.old → IfErr result (MayRefuseStorage b) }
    {
        let ids = self.entries.in_order(alloc, id)?;
        let list = Vec::with_capacity(alloc, ids.len())?;
        let sorted = by_name(&self.entries, ids, list)?;
        Ok(sorted)
    }

    /// What is kept of the outline of the storage of an entry, which may have so many levels below it. All that the
    /// storage takes is marked, whatever is kept of it.
    ///
    /// Refused: as `sorted_children` and `push_child`.
    #[cycle(storages)]
    fn storage_outline(
        &mut self,
        alloc: Global,
        id: u32,
        entry: &Entry,
        depth: u32,
        keep: Keep<'_>,
    ) -> Result<Outline, ReadFault>
        requires entry { IsEntry (directory_in self.old) id entry.now }
        requires storage { IsStorage (directory_in self.old) id }
        requires root_marked { slice_index_or self.old.entries.used 0 true ≡ true }
        ensures outlined { IfOk result (λ o. IsOutlined depth id (wanted keep.entry) o self.old self.new) }
        ensures there { (t : tree.Tree) (new : reader.Reader) → IsStorageRead depth id t self.old new
            → IfErr result (λ e. e ≡ NoMemory) }
        ensures memory { IfErr result (MayWant self.old.entries id) }
        ensures refused { (b : Base) (pending : List ℕ) → IsNext b (suc depth) id pending self.old
            → IfErr result (MayRefuseStorage b) }
    {
        let ids = self.sorted_children(alloc, id)?;
        let mut parts = Vec::with_capacity(alloc, keep.room(ids.len()))?;
        for child in &ids {
            self.push_child(alloc, *child, depth, keep, &mut parts)?;
        }
        Ok(Outline {
            class: ClassId::from_bytes(entry.class),
            state: entry.state,
            parts,
        })
    }

    /// Puts the name of an entry and what is kept of the outline of what it holds behind those so far, in a storage
    /// that may have so many levels below it. Nothing where nothing is kept.
    ///
    /// Refused: as `Entries::entry` and `part_outline`, and `NoMemory`.
    #[cycle(storages)]
    fn push_child(
        &mut self,
        alloc: Global,
        id: u32,
        depth: u32,
        keep: Keep<'_>,
        parts: &mut Vec<(Name, Part)>,
    ) -> Result<(), ReadFault>
        requires below_root { id ≢ 0 }
        requires root_marked { slice_index_or self.old.entries.used 0 true ≡ true }
        ensures outlined { OnOk result (IsChildPushed depth id (wanted keep.entry) parts.old.items parts.new.items
            self.old self.new) }
        ensures there { (k name : List ℕ) (s : Seen) (new : reader.Reader)
            → IsChildRead depth id k name s self.old new → IfErr result (λ e. e ≡ NoMemory) }
        ensures refused { (b : Base) (pending : List ℕ) → IsNext b depth id pending self.old
            → IfErr result (MayRefuseStorage b) }
    {
        // What is lent of a stream needs no copy of its entry.
        if let Some(stream) = self.entries.stream(id) {
            return self.push_stream(id, stream, keep, parts);
        }
        let entry = self.entries.entry(id)?;
        let below = keep.below(&entry.name);
        let part = self.part_outline(alloc, id, &entry, depth, below)?;
        // It is pushed here and not by who calls, to whom it would be moved first.
        match below {
            Keep::Nothing => Ok(()),
            _ => Ok(parts.push((entry.name, part))?),
        }
    }

    /// What is kept of the outline of what an entry holds.
    ///
    /// Refused: `TooNested` for a storage where its own may have no level below it; as `mark_stream`, and as
    /// `storage_outline`.
    #[cycle(storages)]
    fn part_outline(
        &mut self,
        alloc: Global,
        id: u32,
        entry: &Entry,
        depth: u32,
        keep: Keep<'_>,
    ) -> Result<Part, ReadFault>
        requires entry { IsEntry (directory_in self.old) id entry.now }
        requires below_root { id ≢ 0 }
        requires root_marked { slice_index_or self.old.entries.used 0 true ≡ true }
        ensures outlined { IfOk result (λ part. IsPartOutlined depth id (wanted keep.entry) part self.old self.new) }
        ensures there { (s : Seen) (new : reader.Reader) → IsNodeRead depth id s self.old new
            → IfErr result (λ e. e ≡ NoMemory) }
        ensures memory { IfErr result (MayWant self.old.entries id) }
        ensures refused { (b : Base) (pending : List ℕ) → IsNext b depth id pending self.old
            → IfErr result (MayRefuseStorage b) }
    {
        match entry.kind {
            EntryKind::Stream => {
                let place = Place {
                    first: entry.first,
                    size: entry.size,
                };
                self.mark_stream(place)?;
                Ok(Part::Stream(place))
            }
            _ => {
                if depth == 0 {
                    return Err(ReadFault::Directory(DirFault::TooNested));
                }
                let inner = self.storage_outline(alloc, id, entry, depth - 1, keep)?;
                Ok(Part::Storage(inner))
            }
        }
    }
}

/// The tables of a file all of whose chains were walked, and what is kept of its outline.
#[derive(Drop)]
pub struct Layout<'a> {
    pub fat: Fat<'a>,
    pub mini: Fat<'a>,
    pub root: Outline,
}

/// The bytes of a directory.
#[derive(Drop)]
enum FoundDirectory<'a> {
    /// They stand in memory as they are read.
    Lent(Directory<'a>),
    /// They were joined.
    Joined(Vec<u8>),
}

impl<'a> FoundDirectory<'a> {
    /// Its bytes.
    fn lent(&self) -> Directory<'_>
        ensures { held result ≡ directory_bytes self.now }
    {
        match self {
            FoundDirectory::Lent(directory) => *directory,
            FoundDirectory::Joined(bytes) => Directory::Bytes(bytes.as_slice()),
        }
    }
}

/// The directory that lies in these sectors.
fn directory_of<'a>(
    alloc: Global,
    fat: &Fat<'a>,
    sectors: &[u32],
) -> Result<FoundDirectory<'a>, ReadFault>
    requires { All (λ n. n < length fat.now.table) sectors.now }
    ensures bytes { IfOk result (λ d. directory_bytes d ≡ joined (store_of fat.now).piece sectors.now) }
    ensures refused { IfErr result (λ e. e ≡ NoMemory) }
{
    if let Some(entries) = fat.entries(sectors) {
        return Ok(FoundDirectory::Lent(Directory::Packed(entries)));
    }
    if let Some(run) = fat.run(sectors) {
        return Ok(FoundDirectory::Lent(Directory::Bytes(run)));
    }
    let bytes = fat.join(alloc, sectors)?;
    Ok(FoundDirectory::Joined(bytes))
}

/// The tables of a compound file whose header was read, and what is kept of its outline (MS-CFB 2). Each chain of
/// sectors is walked once, whatever is kept, and no stream is read.
///
/// Refused: as `read_file`, but for the header.
fn walk<'a>(
    alloc: Global,
    header: &Header,
    file: Image<'a>,
    keep: Keep<'_>,
) -> Result<Layout<'a>, ReadFault>
    requires read { header_read (image_bytes file) ≡ Ok header.now }
    requires whole { IsHeader (image_bytes file) }
    ensures walked { IfOk result (λ l. IsFileKept (image_bytes file.entry) (contents l.fat l.mini)
        (wanted keep.entry) l.root) }
    ensures reads { (t : tree.Tree) → Denotes (image_bytes file.entry) t → IfErr result (λ e. e ≡ NoMemory) }
    ensures refused { IfErr result (MayRefuseFile (image_bytes file.entry)) }
    ensures lists { IfOk result (λ _. HasLists (image_bytes file.entry)) }
    ensures memory { IfErr result (MayLack (image_bytes file.entry)) }
{
    let mut fat = Fat::load(alloc, header, file)?;
    let chain = fat.chain(alloc, header.first_directory())?;
    let directory = directory_of(alloc, &fat, &chain)?;
    let entries = Entries::over(alloc, directory.lent())?;
    let root = entries.entry(0)?;
    let mini = fat.mini(alloc, header, root.first, root.size)?;
    let mut reader = Reader { fat, mini, entries };
    let outline = reader.storage_outline(alloc, 0, &root, DEEPEST, keep)?;
    Ok(Layout {
        fat: reader.fat,
        mini: reader.mini,
        root: outline,
    })
}

/// The tables and the outline of a compound file. Each chain of sectors is walked once, and no stream is read.
///
/// Refused: as `read_file`.
pub fn lay_out<'a>(alloc: Global, file: &'a [u8]) -> Result<Layout<'a>, ReadFault>
    ensures denotes { IfOk result (λ l. ∥ Denotes file.now (shown (contents l.fat l.mini) l.root) ∥₁) }
    ensures sized { IfOk result (λ l. outline_of (shown (contents l.fat l.mini) l.root) ≡ outline_view l.root) }
    ensures placed { IfOk result (λ l. ∥ IsPlaced file.now (shown (contents l.fat l.mini) l.root) l.root ∥₁) }
    ensures header { (e : ChainFault) → header_read file.now ≡ Err e → result ≡ Err (chain_fault e) }
    ensures reads { (t : tree.Tree) → Denotes file.now t → IfErr result (λ e. e ≡ NoMemory) }
    ensures refused { IfErr result (MayRefuseFile file.now) }
    ensures lists { IfOk result (λ _. HasLists file.now) }
    ensures memory { IfErr result (MayLack file.now) }
{
    let header = Header::read(file)?;
    let layout = walk(alloc, &header, Image::Whole(file), Keep::All)?;
    Ok(layout)
}

/// The tree that a compound file denotes (MS-CFB 2), outside transactions.
///
/// Refused: a header or chain that isn't as it must be (`Chain`), a directory that isn't (`Directory`), and `NoMemory`.
/// A file that denotes a tree is refused for want of memory alone, which is told only past the header and the lists of
/// the FAT.
pub fn read_file(alloc: Global, file: &[u8]) -> Result<Tree, ReadFault>
    ensures denotes { IfOk result (λ t. ∥ Denotes file.now (kept t).now ∥₁) }
    ensures closed { IfOk result (λ t. (kept t).saved ≡ []) }
    ensures header { (e : ChainFault) → header_read file.now ≡ Err e → result ≡ Err (chain_fault e) }
    ensures reads { (t : tree.Tree) → Denotes file.now t → IfErr result (λ e. e ≡ NoMemory) }
    ensures refused { IfErr result (MayRefuseFile file.now) }
    ensures memory { IfErr result (MayLack file.now) }
{
    let layout = lay_out(alloc, file)?;
    let root = storage_at(alloc, &layout.fat, &layout.mini, &layout.root)?;
    Ok(Tree::from_root(alloc, root))
}

/// The outline of a compound file: its storages and streams, where each stream lies, and how many bytes it has. Each
/// chain of sectors is walked as for `read_file`, and no stream is read.
///
/// Refused: as `read_file`.
pub fn read_outline(alloc: Global, file: &[u8]) -> Result<Outline, ReadFault>
    ensures outlined { IfOk result (λ o. (t : tree.Tree) × ∥ Denotes file.now t ∥₁ × (outline_view o ≡ outline_of t)) }
    ensures placed { IfOk result (λ o. (t : tree.Tree) × ∥ IsPlaced file.now t o ∥₁) }
    ensures header { (e : ChainFault) → header_read file.now ≡ Err e → result ≡ Err (chain_fault e) }
    ensures reads { (t : tree.Tree) → Denotes file.now t → IfErr result (λ e. e ≡ NoMemory) }
    ensures refused { IfErr result (MayRefuseFile file.now) }
    ensures memory { IfErr result (MayLack file.now) }
{
    let layout = lay_out(alloc, file)?;
    Ok(layout.root)
}

/// The outline of a compound file whose header was read, and of which some blocks were.
///
/// Refused: as `read_file`, but for the header.
pub fn read_placed(alloc: Global, header: &Header, file: &Places) -> Result<Outline, ReadFault>
    requires read { header_read file.now ≡ Ok header.now }
    requires whole { IsHeader file.now }
    ensures outlined { IfOk result (λ o. (t : tree.Tree) × Denotes file.now t × (outline_view o ≡ outline_of t)) }
    ensures placed { IfOk result (λ o. (t : tree.Tree) × IsPlaced file.now t o) }
    ensures reads { (t : tree.Tree) → Denotes file.now t → IfErr result (λ e. e ≡ NoMemory) }
    ensures refused { IfErr result (MayRefuseFile file.now) }
    ensures memory { IfErr result (MayLack file.now) }
{
    let walked = walk(alloc, header, Image::Placed(file), Keep::All)?;
    Ok(walked.root)
}

/// Where the stream at a path lies in a compound file whose header was read, and of which some blocks were. The file is
/// walked as for `read_placed`, but nothing is kept of it that doesn't lead to the stream.
///
/// Refused: as `read_placed`; then `NotFound` where nothing stands at the path, and `WrongKind` where a storage does,
/// or where a stream stands on the way.
pub fn find_placed(
    alloc: Global,
    header: &Header,
    file: &Places,
    path: &[Name],
) -> Result<Place, StreamFault>
    requires read { header_read file.now ≡ Ok header.now }
    requires whole { IsHeader file.now }
    ensures found { IfOk result (λ place. Leads file.now path.now (Ok place)) }
    ensures refused { IfErr result (MayRefuseFind file.now path.now) }
{
    let walked = match walk(alloc, header, Image::Placed(file), Keep::Path(path)) {
        Ok(walked) => walked,
        Err(fault) => return Err(StreamFault::Read(fault)),
    };
    match place_at(&walked.root, path) {
        Ok(place) => Ok(place),
        Err(fault) => Err(StreamFault::Tree(fault)),
    }
}
