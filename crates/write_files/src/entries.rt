//! What the entries of a tree say (MS-CFB 2.6).

ghost use Rattle.std.specs.Prelude.{[], ◌≡◌, ◌<◌, ◌+◌, ◌^◌, ◌++◌, ◌∷◌, ℕ, List, IfOk, OnOk, length};
ghost use Rattle.std.specs.Vec.{vec_len};
ghost use Rattle.cfb_file.specs.Need.{entries, long_sectors};
ghost use Rattle.cfb_file.specs.declared.limit.TheConstants.{MANY};
ghost use Rattle.write_parts.specs.Counted.{AreCounts};
ghost use Rattle.write_files.specs.Siblings.{IsBelow, AreSiblings, IsJoined, past, past_all, past_stream};
ghost use Rattle.write_parts.specs.Leads.{IsDirectory, storage_leads, stream_leads};
ghost use Rattle.write_files.specs.Walked.{child_leads, sibling_leads};
ghost use Rattle.cfb_layout.specs.Image.{pieces_of, runs};
ghost use Rattle.write_parts.specs.Streams.{long_within, short_within};
ghost use Rattle.tree_storage.specs.Child.{bytes as content, inner};
ghost use Rattle.cfb_layout.specs.Directory.{AreSpelled, IsSpelled, balanced as balanced_links, children_in, class_in};
ghost use Rattle.cfb_layout.specs.Directory.{first_of_stream, ids_from, long_start, long_streams, root_says};
ghost use Rattle.cfb_layout.specs.Directory.{short_streams, state_in};

use crate::needs::needs_with;
use crate::walks::{Branch, What};
use cfb_entries::entries::{EntryKind, NO_STREAM};
use std::alloc::{AllocError, Global};
use write_directory::links::{Links, balanced};
use write_directory::write::EntryFields;
use write_parts::counts::{Counts, chain_start};
use write_parts::leads::{Directory, Lead, class_bytes, state_bits};
use write_parts::streams::{is_short, mini_count, sector_count};
use write_parts::tables::{Tables, push_run};

/// The ids of a storage's children, of which the first has this one.
fn child_ids<B: Branch>(alloc: Global, storage: B, first: u32) -> Result<Vec<u32>, AllocError>
    requires { first + entries (B.tree storage) < MANY }
    ensures listed { IfOk result (λ ids. ids.items ≡ ids_from first (children_in (B.tree storage))) }
    ensures few { IfOk result (λ ids. vec_len ids < MANY) }
{
    let mut ids = Vec::with_capacity(alloc, storage.count())?;
    let mut id = first;
    let mut walk = storage.walk();
    while let Some(child) = B::next(&mut walk) {
        ids.push(id)?;
        id += needs_with(child.what).entries;
    }
    Ok(ids)
}

/// The entries of siblings, and how they are linked.
#[derive(Drop)]
struct Siblings {
    ids: Vec<u32>,
    links: Links,
}

/// The children of a storage, of which the first has this id.
fn siblings_of<B: Branch>(alloc: Global, storage: B, first: u32) -> Result<Siblings, AllocError>
    requires { first + entries (B.tree storage) < MANY }
    ensures { IfOk result (λ siblings. AreSiblings siblings first (children_in (B.tree storage))) }
{
    let ids = child_ids(alloc, storage, first)?;
    let links = balanced(alloc, ids.len() as u32)?;
    Ok(Siblings { ids, links })
}

impl Siblings {
    ghost use Rattle.std.specs.Prelude.{◌≡◌, ◌<◌, ℕ, length, slice_index};
    ghost use Rattle.write_files.specs.Siblings.{IsJoined};
    ghost use Rattle.cfb_layout.specs.Directory.{IsLink, balanced, linked};

    /// The entry that a link to one of the siblings names.
    fn entry_id(&self, place: u32) -> u32
        requires { IsLink (length self.now.ids.items) place }
        ensures { result ≡ linked self.now.ids.items place }
    {
        if place == NO_STREAM {
            NO_STREAM
        } else {
            self.ids[place as usize]
        }
    }

    /// The entry on top.
    fn top(&self) -> u32
        requires { IsJoined self.now }
        ensures { result ≡ linked self.now.ids.items (balanced (length self.now.ids.items)).top }
    {
        self.entry_id(self.links.top)
    }

    /// The entry to the left of the one at a place.
    fn left(&self, place: usize) -> u32
        requires joined { IsJoined self.now }
        requires there { place < length self.now.ids.items }
        ensures { result ≡ linked self.now.ids.items (slice_index (balanced (length self.now.ids.items)).left place) }
    {
        self.entry_id(self.links.left[place])
    }

    /// The entry to the right of the one at a place.
    fn right(&self, place: usize) -> u32
        requires joined { IsJoined self.now }
        requires there { place < length self.now.ids.items }
        ensures { result ≡ linked self.now.ids.items (slice_index (balanced (length self.now.ids.items)).right place) }
    {
        self.entry_id(self.links.right[place])
    }
}

/// Where the next entry, mini sector and sector stand.
#[derive(Clone, Copy)]
struct Cursor {
    id: u32,
    mini: u32,
    sector: u32,
}

/// Where a stream of so many bytes starts.
fn stream_start(at: Cursor, len: usize) -> u32
    requires { len < 2 ^ 32 }
    ensures { result ≡ first_of_stream at.mini at.sector len }
{
    if is_short(len) {
        chain_start(at.mini, mini_count(len) as u32)
    } else {
        chain_start(at.sector, sector_count(len) as u32)
    }
}

/// Where the entry of the stream of so many bytes at a place leads.
fn stream_lead(siblings: &Siblings, place: usize, at: Cursor, len: usize) -> Lead
    requires joined { IsJoined siblings.now }
    requires there { place < length siblings.now.ids.items }
    requires few { len < 2 ^ 32 }
    ensures { result ≡ stream_leads siblings.now.ids.items place at.mini at.sector len }
{
    Lead {
        left: siblings.left(place),
        right: siblings.right(place),
        down: stream_start(at, len),
    }
}

/// Where the entry of the storage at a place leads, whose children are these.
fn storage_lead<B: Branch>(
    siblings: &Siblings,
    place: usize,
    children: &Siblings,
    storage: B,
) -> Lead
    requires joined { IsJoined siblings.now }
    requires there { place < length siblings.now.ids.items }
    requires below { IsJoined children.now }
    ensures class_id { length (class_in (B.tree storage)) ≡ 16 }
    ensures state_bits { state_in (B.tree storage) < 2 ^ 32 }
    ensures leads { (id : ℕ) → AreSiblings children.now (id + 1) (children_in (B.tree storage))
        → result ≡ storage_leads siblings.now.ids.items place id (B.tree storage) }
{
    let class = storage.class();
    let _class = class_bytes(class.as_bytes());
    let _state = state_bits(storage.state());
    Lead {
        left: siblings.left(place),
        right: siblings.right(place),
        down: children.top(),
    }
}

impl Cursor {
    /// Behind a stream of so many bytes.
    fn past(self, len: usize) -> Cursor
        requires { IsBelow (past_stream self len) MANY }
        ensures { result ≡ past_stream self len }
    {
        if is_short(len) {
            Cursor {
                id: self.id + 1,
                mini: self.mini + mini_count(len) as u32,
                sector: self.sector,
            }
        } else {
            Cursor {
                id: self.id + 1,
                mini: self.mini,
                sector: self.sector + sector_count(len) as u32,
            }
        }
    }
}

/// Adds the run of a stream of so many bytes to the table that it lies in.
fn push_stream(tables: &mut Tables, at: Cursor, len: usize) -> Result<(), AllocError>
    requires { IsBelow (past_stream at len) MANY }
    ensures minis { OnOk result ((b : List ℕ) → length b ≡ len → tables.new.minis.items ≡ tables.old.minis.items
        ++ runs at.mini (pieces_of 64 (short_within (content b)))) }
    ensures fat { OnOk result ((b : List ℕ) → length b ≡ len → tables.new.fat.items ≡ tables.old.fat.items
        ++ runs at.sector (pieces_of 512 (long_within (content b)))) }
{
    if is_short(len) {
        push_run(&mut tables.minis, at.mini, mini_count(len) as u32)?;
        return Ok(());
    }
    push_run(&mut tables.fat, at.sector, sector_count(len) as u32)?;
    Ok(())
}

/// Adds where the entry of the stream of so many bytes at a place leads, and its run.
fn push_leaf(
    leads: &mut Vec<Lead>,
    tables: &mut Tables,
    siblings: &Siblings,
    place: usize,
    at: Cursor,
    len: usize,
) -> Result<Cursor, AllocError>
    requires joined { IsJoined siblings.now }
    requires there { place < length siblings.now.ids.items }
    requires few { IsBelow (past_stream at len) MANY }
    ensures pushed { OnOk result (leads.new.items ≡ leads.old.items ++ stream_leads siblings.now.ids.items place
        at.mini at.sector len ∷ []) }
    ensures minis { OnOk result ((b : List ℕ) → length b ≡ len → tables.new.minis.items ≡ tables.old.minis.items
        ++ runs at.mini (pieces_of 64 (short_within (content b)))) }
    ensures fat { OnOk result ((b : List ℕ) → length b ≡ len → tables.new.fat.items ≡ tables.old.fat.items
        ++ runs at.sector (pieces_of 512 (long_within (content b)))) }
    ensures next { IfOk result (λ next. next ≡ past_stream at len) }
    ensures spelled { OnOk result (len < 2 ^ 32) }
{
    leads.push(stream_lead(siblings, place, at, len))?;
    push_stream(tables, at, len)?;
    Ok(at.past(len))
}

/// Adds where the entries below a storage lead, whose children these are, and the runs of the streams there.
#[cycle(push_leads)]
fn push_below<B: Branch>(
    alloc: Global,
    leads: &mut Vec<Lead>,
    tables: &mut Tables,
    storage: B,
    siblings: &Siblings,
    at: Cursor,
) -> Result<Cursor, AllocError>
    requires siblings { AreSiblings siblings.now at.id (children_in (B.tree storage)) }
    requires few { IsBelow (past_all at (children_in (B.tree storage))) MANY }
    ensures pushed { OnOk result (leads.new.items ≡ leads.old.items ++ sibling_leads siblings.now.ids.items 0 at
        (children_in (B.tree storage))) }
    ensures minis { OnOk result (tables.new.minis.items ≡ tables.old.minis.items
        ++ runs at.mini (pieces_of 64 (short_streams (B.tree storage)))) }
    ensures fat { OnOk result (tables.new.fat.items ≡ tables.old.fat.items
        ++ runs at.sector (pieces_of 512 (long_streams (B.tree storage)))) }
    ensures next { IfOk result (λ next. next ≡ past_all at (children_in (B.tree storage))) }
    ensures spelled { OnOk result (AreSpelled (children_in (B.tree storage))) }
{
    let mut next = at;
    let mut place = 0;
    let mut walk = storage.walk();
    while let Some(child) = B::next(&mut walk) {
        match child.what {
            What::Stream(size) => {
                next = push_leaf(leads, tables, siblings, place, next, size)?;
            }
            What::Storage(inner) => {
                next = push_storage(alloc, leads, tables, inner, siblings, place, next)?;
            }
        }
        place += 1;
    }
    Ok(next)
}

/// Adds where the entry of the storage at a place leads, and those below it, and the runs of their streams.
#[cycle(push_leads)]
fn push_storage<B: Branch>(
    alloc: Global,
    leads: &mut Vec<Lead>,
    tables: &mut Tables,
    storage: B,
    siblings: &Siblings,
    place: usize,
    at: Cursor,
) -> Result<Cursor, AllocError>
    requires joined { IsJoined siblings.now }
    requires there { place < length siblings.now.ids.items }
    requires few { IsBelow (past at (inner (B.tree storage))) MANY }
    ensures pushed { OnOk result (leads.new.items ≡ leads.old.items ++ child_leads siblings.now.ids.items place at
        (inner (B.tree storage))) }
    ensures minis { OnOk result (tables.new.minis.items ≡ tables.old.minis.items
        ++ runs at.mini (pieces_of 64 (short_streams (B.tree storage)))) }
    ensures fat { OnOk result (tables.new.fat.items ≡ tables.old.fat.items
        ++ runs at.sector (pieces_of 512 (long_streams (B.tree storage)))) }
    ensures next { IfOk result (λ next. next ≡ past at (inner (B.tree storage))) }
    ensures spelled { OnOk result (IsSpelled (B.tree storage)) }
{
    let below = Cursor {
        id: at.id + 1,
        mini: at.mini,
        sector: at.sector,
    };
    let children = siblings_of(alloc, storage, below.id)?;
    leads.push(storage_lead(siblings, place, &children, storage))?;
    let next = push_below(alloc, leads, tables, storage, &children, below)?;
    Ok(next)
}

/// What the root's entry says, whose children these are.
fn root_entry<B: Branch>(root: B, children: &Siblings, counts: Counts) -> EntryFields
    requires children { AreSiblings children.now 1 (children_in (B.tree root)) }
    requires counts { AreCounts counts (B.tree root) }
    ensures class_id { length (class_in (B.tree root)) ≡ 16 }
    ensures state_bits { state_in (B.tree root) < 2 ^ 32 }
    ensures says { result ≡ root_says balanced_links counts.fat (B.tree root) }
{
    let class = root.class();
    let state = state_bits(root.state());
    let before = counts.own_sectors() + counts.directory_sectors() + counts.mini_fat_sectors();
    EntryFields {
        kind: EntryKind::Root,
        left: NO_STREAM,
        right: NO_STREAM,
        child: children.top(),
        class: class_bytes(class.as_bytes()),
        state,
        first: chain_start(before, counts.mini_stream_sectors()),
        size: 64 * counts.minis,
    }
}

/// The directory of a tree with these counts. The runs of the streams go into the tables.
pub(crate) fn directory_of<B: Branch>(
    alloc: Global,
    tables: &mut Tables,
    root: B,
    counts: Counts,
) -> Result<Directory, AllocError>
    requires counts { AreCounts counts (B.tree root) }
    requires few { long_start counts.fat (B.tree root) + long_sectors (B.tree root) < MANY }
    ensures directory { IfOk result (λ directory. IsDirectory directory counts.fat (B.tree root)) }
    ensures minis { OnOk result (tables.new.minis.items ≡ tables.old.minis.items
        ++ runs 0 (pieces_of 64 (short_streams (B.tree root)))) }
    ensures fat { OnOk result (tables.new.fat.items ≡ tables.old.fat.items
        ++ runs (long_start counts.fat (B.tree root)) (pieces_of 512 (long_streams (B.tree root)))) }
{
    let before = counts.own_sectors() + counts.directory_sectors() + counts.mini_fat_sectors();
    let sector = before + counts.mini_stream_sectors();
    let first = Cursor {
        id: 1,
        mini: 0,
        sector,
    };
    let children = siblings_of(alloc, root, first.id)?;
    let mut leads = Vec::with_capacity(alloc, counts.entries as usize)?;
    push_below(alloc, &mut leads, tables, root, &children, first)?;
    let root = root_entry(root, &children, counts);
    Ok(Directory { root, leads })
}
