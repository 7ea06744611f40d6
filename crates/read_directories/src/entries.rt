//! Entries of the directory (MS-CFB 2.6).

ghost use Rattle.cfb_entries.specs.Entries.{AreFree, AreLinked, IsEntry, IsFree, IsKindOf, IsNameOf, IsNamed};
ghost use Rattle.cfb_entries.specs.Entries.{MayRefuseChildren, MayRefuseEntry, MayRefuseLinked, MayRefuseLoad, child};
ghost use Rattle.cfb_entries.specs.Entries.{class_of, entry_at, first_of, kind_number, left, marked, name_length};
ghost use Rattle.cfb_entries.specs.Entries.{right, size_of, state_of};
ghost use Rattle.cfb_bytes.specs.Marks.{set_all};
ghost use Rattle.cfb_bytes.specs.Bytes.{u16_at};
ghost use Rattle.cfb_names.specs.Names.{IsName, is_forbidden};
ghost use Rattle.read_directories.specs.Held.{held};
ghost use Rattle.read_directories.specs.Reached.{AreReached};
ghost use Rattle.read_directories.specs.Streams.{IsStreamEntry};
ghost use Rattle.cfb_entries.specs.Walk.{IsTaken, MayRefuseName, unmarked};
ghost use Rattle.cfb_names.specs.declared.fault.DirFault.TheVariants.{BadEntry, NoMemory};
ghost use Rattle.read_packed.specs.Named.{named_bytes};
ghost use Rattle.std.specs.List.{All};
ghost use Rattle.std.specs.Prelude.{◌≡◌, ◌<◌, ◌≤◌, ◌*◌, ◌/◌, ◌-◌, ◌∷◌, ◌++◌, ◌≢◌, [], false, true, replicate, length};
ghost use Rattle.std.specs.Prelude.{vec_capacity, vec_len, IfErr, IfOk, IfSome, OnErr, OnOk};

use crate::held::Directory;
use cfb_bytes::numbers::{read_u16, read_u32};
pub use cfb_entries::entries::{Entry, EntryKind, NO_STREAM};
use cfb_names::fault::DirFault;
use cfb_names::name::Name;
use read_packed::named::Named;
use std::alloc::{AllocError, Global};
use std::marker::Model;
use std::mem;

/// The characters of ASCII that a name can hold, each at its own place, and zeros at the places of the others.
const ALLOWED: [u8; 128] = [
    0, 1, 2, 3, 4, 5, 6, 7, 8, 9, 10, 11, 12, 13, 14, 15, 16, 17, 18, 19, 20, 21, 22, 23, 24, 25,
    26, 27, 28, 29, 30, 31, 32, 0, 34, 35, 36, 37, 38, 39, 40, 41, 42, 43, 44, 45, 46, 0, 48, 49,
    50, 51, 52, 53, 54, 55, 56, 57, 0, 59, 60, 61, 62, 63, 64, 65, 66, 67, 68, 69, 70, 71, 72, 73,
    74, 75, 76, 77, 78, 79, 80, 81, 82, 83, 84, 85, 86, 87, 88, 89, 90, 91, 0, 93, 94, 95, 96, 97,
    98, 99, 100, 101, 102, 103, 104, 105, 106, 107, 108, 109, 110, 111, 112, 113, 114, 115, 116,
    117, 118, 119, 120, 121, 122, 123, 124, 125, 126, 127,
];

/// What the entry of a stream says, lent as it is held. The size is in bytes.
#[derive(Clone, Copy)]
pub struct StreamEntry<'a> {
    pub name: &'a Name,
    pub first: u32,
    pub size: u32,
}

/// The entries of a directory, of which some are marked.
#[derive(Drop)]
struct Table<'a> {
    directory: Directory<'a>,
    used: Vec<bool>,
}

/// The entries of a directory, which marks those that were met, with room to walk over all of them.
#[derive(Drop)]
pub struct Entries<'a> {
    table: Table<'a>,
    waiting: Vec<u32>,
    found: Vec<u32>,
}

/// The kind of an entry: entry 0 is the root, and all others are storages and streams.
fn kind_of(id: u32, kind: u8) -> Result<EntryKind, DirFault>
    ensures held { IfOk result (λ k. kind_number k ≡ kind) }
    ensures allowed { IfOk result (λ k. IsKindOf id kind) }
    ensures refused { IfErr result (λ e. (e ≡ BadEntry) × (IsKindOf id kind → ⊥)) }
{
    match (id, kind) {
        (0, 5) => Ok(EntryKind::Root),
        (0, _) => Err(DirFault::BadEntry),
        (_, 1) => Ok(EntryKind::Storage),
        (_, 2) => Ok(EntryKind::Stream),
        _ => Err(DirFault::BadEntry),
    }
}

/// The class id of an entry.
fn class_of(entry: &[u8; 128]) -> [u8; 16]
    ensures { result ≡ class_of entry.now }
{
    match entry[80..96].as_array::<16>() {
        Some(class) => *class,
        None => unreachable!(),
    }
}

/// A character of ASCII if a name can hold it, and zero if it can't.
fn allowed(unit: u16) -> u8
    requires ascii { unit ≤ 127 }
    ensures kept { result ≢ 0 → (result ≡ unit) × (is_forbidden unit ≡ false) }
    ensures forbidden { result ≡ 0 → is_forbidden unit ≡ true }
{
    // A table takes half of the instructions of comparisons.
    ALLOWED[usize::from(unit)]
}

/// What a name is refused for that has a forbidden character at a place, and none past ASCII before it: one past
/// ASCII behind it goes first.
fn forbidden_name(entry: &[u8; 128], count: usize, at: usize) -> DirFault
    requires short { count ≤ 31 }
    requires whole { name_length entry.now ≤ 64 }
    requires count { count ≡ name_length entry.now / 2 - 1 }
    requires inside { at < count }
    requires forbidden { is_forbidden (u16_at entry.now (2 * at)) ≡ true }
    ensures { MayRefuseName entry.now result }
{
    for k in at + 1..count {
        if read_u16(entry, 2 * k) > 127 {
            return DirFault::NameNotAscii;
        }
    }
    DirFault::NameForbidden
}

/// The name of an entry.
fn read_name(entry: &[u8; 128]) -> Result<Name, DirFault>
    ensures read { IfOk result (IsNamed entry.now) }
    ensures valid { IfOk result IsName }
    ensures refused { IfErr result (MayRefuseName entry.now) }
{
    let len = read_u16(entry, 64);
    if len < 4 {
        return Err(DirFault::NameEmpty);
    }
    if len > 64 {
        return Err(DirFault::NameTooLong);
    }
    if len % 2 != 0 {
        return Err(DirFault::BadEntry);
    }
    let count = len as usize / 2 - 1;
    let mut units = [0; 32];
    units[0] = count as u8;
    for k in 0..count {
        let unit = read_u16(entry, 2 * k);
        if unit > 127 {
            return Err(DirFault::NameNotAscii);
        }
        let character = allowed(unit);
        if character == 0 {
            return Err(forbidden_name(entry, count, k));
        }
        units[k + 1] = character;
    }
    Ok(Name::from_units(units))
}

/// What an entry says whose name and kind were read.
fn entry_of(name: Name, kind: EntryKind, entry: &[u8; 128]) -> Entry
    ensures name { result.name ≡ name }
    ensures kind { result.kind ≡ kind }
    ensures class { result.class ≡ class_of entry.now }
    ensures state { result.state ≡ state_of entry.now }
    ensures child { result.child ≡ child entry.now }
    ensures first { result.first ≡ first_of entry.now }
    ensures size { result.size ≡ size_of entry.now }
{
    Entry {
        name,
        kind,
        class: class_of(entry),
        state: read_u32(entry, 96),
        child: read_u32(entry, 76),
        first: read_u32(entry, 116),
        size: read_u32(entry, 120),
    }
}

/// Adds an entry to a list that has room for it.
fn push_within(list: &mut Vec<u32>, id: u32)
    requires { vec_len list.old < vec_capacity list.old }
    ensures items { list.new.items ≡ list.old.items ++ id ∷ [] }
    ensures room { vec_capacity list.old ≤ vec_capacity list.new }
{
    match list.push(id) {
        Ok(()) => {}
        Err(_) => unreachable!(),
    }
}

/// What was found, out of a list with room for all. A copy where it fills less than half of that; else the list itself,
/// and another comes in its place. No entry is found twice, so that takes place no more than twice.
fn taken(alloc: Global, found: &mut Vec<u32>) -> Result<Vec<u32>, AllocError>
    ensures found { IfOk result (λ v. v.items ≡ found.old.items) }
    ensures room { vec_capacity found.old ≤ vec_capacity found.new }
    ensures kept { OnErr result (found.new ≡ found.old) }
{
    let room = found.capacity();
    if found.len() < room / 2 {
        return Ok(Vec::from_slice(alloc, found)?);
    }
    let other = Vec::with_capacity(alloc, room)?;
    Ok(mem::replace(found, other))
}

impl<'a> Model for Table<'a> {
    ghost use Rattle.std.specs.Prelude.{◌≡◌, ◌/◌, length};
    ghost use Rattle.cfb_entries.specs.Entries.{EntriesValue};
    ghost use Rattle.read_directories.specs.Held.{held};

    ghost Value = { EntriesValue };

    ghost view = { λ t. record { directory = held t.directory; used = t.used.items } };

    ghost invariant = { λ t. length t.used.items ≡ length (held t.directory) / 128 };
}

impl<'a> Table<'a> {
    /// The entries of a directory that has some, of which the root alone is marked.
    ///
    /// Refused for want of memory alone.
    fn load(alloc: Global, directory: Directory<'a>) -> Result<Table<'a>, DirFault>
        requires some { 128 ≤ length (held directory) }
        ensures loaded { IfOk result
            (λ e. e ≡ record {
              directory = held directory.entry;
              used = set_all (replicate (length (held directory.entry) / 128) false) (0 ∷ []);
            }) }
        ensures refused { IfErr result (λ e. e ≡ NoMemory) }
    {
        let mut used = vec![in alloc; false; directory.count()]?;
        used[0] = true;
        Ok(Table { directory, used })
    }

    /// An entry below the root whose name was read as it was packed.
    #[inline(always)]
    fn named(&self, id: u32) -> Option<&'a Named>
        ensures below_root { IfSome result (λ _. id ≢ 0) }
        ensures there { IfSome result (λ _. 128 * id < length self.now.directory) }
        ensures bytes { IfSome result (λ n. named_bytes n.now ≡ entry_at self.now.directory id) }
    {
        if id == 0 {
            return None;
        }
        self.directory.named(id)
    }

    /// The name of an entry that is one of a storage or of a stream, where it was read as the entry was packed.
    #[inline(always)]
    fn known_name(&self, id: u32) -> Option<&'a Name>
        ensures read { IfSome result (λ name. IsNameOf id (entry_at self.now.directory id) name.now) }
        ensures valid { IfSome result (λ name. IsName name.now) }
    {
        match self.named(id) {
            Some(named) => match named.kind() {
                1 | 2 => Some(named.name()),
                _ => None,
            },
            None => None,
        }
    }

    /// What the entry of a stream says, where its name was read as it was packed.
    #[inline(always)]
    fn stream(&self, id: u32) -> Option<StreamEntry<'a>>
        ensures { IfSome result (IsStreamEntry self.now.directory id) }
    {
        match self.named(id) {
            Some(named) => {
                if named.kind() != 2 {
                    return None;
                }
                Some(StreamEntry {
                    name: named.name(),
                    first: named.first(),
                    size: named.size(),
                })
            }
            None => None,
        }
    }

    /// What an entry says.
    fn entry(&self, id: u32) -> Result<Entry, DirFault>
        ensures read { IfOk result (IsEntry self.now.directory id) }
        ensures valid { IfOk result (λ e. IsName e.name) }
        ensures refused { IfErr result (MayRefuseEntry self.now.directory id) }
    {
        if let Some(named) = self.named(id) {
            return match kind_of(id, named.kind()) {
                Ok(kind) => Ok(named.entry(kind)),
                Err(fault) => Err(fault),
            };
        }
        if let Some(entry) = self.directory.whole_entry(id) {
            return self.read(id, entry);
        }
        if !self.directory.has(id) {
            return Err(DirFault::BadEntry);
        }
        self.read(id, &self.directory.entry_bytes(id))
    }

    /// The name of an entry.
    fn name(&self, id: u32) -> Result<Name, DirFault>
        ensures read { IfOk result (IsNameOf id (entry_at self.now.directory id)) }
        ensures valid { IfOk result IsName }
        ensures refused { IfErr result (MayRefuseEntry self.now.directory id) }
    {
        if let Some(name) = self.known_name(id) {
            return Ok(name.copy());
        }
        if let Some(entry) = self.directory.whole_entry(id) {
            return self.read_name(id, entry);
        }
        if !self.directory.has(id) {
            return Err(DirFault::BadEntry);
        }
        self.read_name(id, &self.directory.entry_bytes(id))
    }

    /// The name of an entry that has these bytes, if its kind is one that it may have.
    fn read_name(&self, id: u32, entry: &[u8; 128]) -> Result<Name, DirFault>
        requires bytes { entry.now ≡ entry_at self.now.directory id }
        ensures read { IfOk result (IsNameOf id (entry_at self.now.directory id)) }
        ensures valid { IfOk result IsName }
        ensures refused { IfErr result (MayRefuseEntry self.now.directory id) }
    {
        kind_of(id, entry[66])?;
        if id == 0 {
            return Ok(Name::root());
        }
        read_name(entry)
    }

    /// What an entry says that has these bytes.
    fn read(&self, id: u32, entry: &[u8; 128]) -> Result<Entry, DirFault>
        requires there { 128 * id < length self.now.directory }
        requires bytes { entry.now ≡ entry_at self.now.directory id }
        ensures read { IfOk result (IsEntry self.now.directory id) }
        ensures valid { IfOk result (λ e. IsName e.name) }
        ensures refused { IfErr result (MayRefuseEntry self.now.directory id) }
    {
        let kind = kind_of(id, entry[66])?;
        match self.read_name(id, entry) {
            Ok(name) => Ok(entry_of(name, kind, entry)),
            Err(fault) => Err(fault),
        }
    }

    /// Finds and marks what links reach from an entry, a parent before what it links to, in lists with room for all
    /// entries. A refusal leaves those that were found marked.
    fn walk(
        &mut self,
        top: u32,
        waiting: &mut Vec<u32>,
        found: &mut Vec<u32>,
    ) -> Result<(), DirFault>
        requires nobody_waits { waiting.old.items ≡ [] }
        requires none_found { found.old.items ≡ [] }
        requires room_to_wait { 2 * length self.old.used < vec_capacity waiting.old }
        requires room { length self.old.used ≤ vec_capacity found.old }
        ensures linked { OnOk result (AreLinked self.old.directory top found.new.items) }
        ensures free { AreFree self.old found.new.items }
        ensures marks { self.new ≡ marked self.old found.new.items }
        ensures refused { IfErr result (MayRefuseLinked self.old top) }
        ensures waiting_kept { vec_capacity waiting.old ≤ vec_capacity waiting.new }
        ensures found_kept { vec_capacity found.old ≤ vec_capacity found.new }
    {
        push_within(waiting, top);
        while let Some(id) = waiting.pop() {
            if id == NO_STREAM {
                continue;
            }
            match self.check(id) {
                Ok(()) => {}
                Err(stopped) => return Err(stopped),
            }
            push_within(found, id);
            self.mark(id);
            let (left, right) = self.links(id);
            push_within(waiting, right);
            push_within(waiting, left);
        }
        Ok(())
    }

    /// Finds and marks what links reach from an entry, as a search tree is read in order: what the left link of an
    /// entry leads to, the entry, what its right link leads to. Those on whose left it is wait meanwhile. Both lists
    /// have room for all entries. A refusal leaves those marked that were found and that wait.
    fn walk_in_order(
        &mut self,
        top: u32,
        waiting: &mut Vec<u32>,
        found: &mut Vec<u32>,
    ) -> Result<(), DirFault>
        requires nobody_waits { waiting.old.items ≡ [] }
        requires none_found { found.old.items ≡ [] }
        requires room_to_wait { length self.old.used ≤ vec_capacity waiting.old }
        requires room { length self.old.used ≤ vec_capacity found.old }
        ensures reached { OnOk result (AreReached self.old self.new top found.new.items) }
        ensures done { OnOk result (waiting.new.items ≡ []) }
        ensures free { AreFree self.old (found.new.items ++ waiting.new.items) }
        ensures marks { self.new ≡ marked self.old (found.new.items ++ waiting.new.items) }
        ensures refused { IfErr result (MayRefuseLinked self.old top) }
        ensures waiting_kept { vec_capacity waiting.old ≤ vec_capacity waiting.new }
        ensures found_kept { vec_capacity found.old ≤ vec_capacity found.new }
    {
        let mut at = top;
        loop {
            if at != NO_STREAM {
                match self.check(at) {
                    Ok(()) => {}
                    Err(fault) => return Err(fault),
                }
                push_within(waiting, at);
                self.mark(at);
                at = self.links(at).0;
                continue;
            }
            let Some(id) = waiting.pop() else {
                return Ok(());
            };
            push_within(found, id);
            at = self.links(id).1;
        }
    }

    /// Takes marks back, the last one first.
    fn unmark(&mut self, found: &mut Vec<u32>)
        requires { All (λ n. n < length self.old.used) found.old.items }
        ensures unmarked { self.new ≡ unmarked self.old found.old.items }
        ensures kept { vec_capacity found.old ≤ vec_capacity found.new }
    {
        while let Some(id) = found.pop() {
            self.used[id as usize] = false;
        }
    }

    /// The child of an entry.
    fn child(&self, id: u32) -> Result<u32, DirFault>
        ensures read { IfOk result (λ top. (128 * id < length self.now.directory)
            × (top ≡ child (entry_at self.now.directory id))) }
        ensures refused { IfErr result (λ e. (length self.now.directory ≤ 128 * id) × (e ≡ BadEntry)) }
    {
        if !self.directory.has(id) {
            return Err(DirFault::BadEntry);
        }
        Ok(self.directory.entry_u32(id, 76))
    }

    /// The left and right link of an entry.
    #[inline(always)]
    fn links(&self, id: u32) -> (u32, u32)
        requires { 128 * id < length self.now.directory }
        ensures left { result.0 ≡ left (entry_at self.now.directory id) }
        ensures right { result.1 ≡ right (entry_at self.now.directory id) }
    {
        if let Some(named) = self.directory.named(id) {
            return named.links();
        }
        if let Some(entry) = self.directory.whole_entry(id) {
            return (read_u32(entry, 68), read_u32(entry, 72));
        }
        (
            self.directory.entry_u32(id, 68),
            self.directory.entry_u32(id, 72),
        )
    }

    /// Refuses an entry that isn't there, or is marked.
    #[inline(always)]
    fn check(&self, id: u32) -> Result<(), DirFault>
        ensures free { OnOk result (IsFree self.now id) }
        ensures refused { IfErr result (IsTaken self.now id) }
    {
        if !self.directory.has(id) {
            return Err(DirFault::BadEntry);
        }
        match self.used.get(id as usize) {
            Some(false) => Ok(()),
            _ => Err(DirFault::TreeCycle),
        }
    }

    /// Marks an entry that is there and isn't marked.
    fn mark(&mut self, id: u32)
        requires { IsFree self.old id }
        ensures { self.new ≡ marked self.old (id ∷ []) }
    {
        self.used[id as usize] = true;
    }
}

impl<'a> Model for Entries<'a> {
    ghost use Rattle.std.specs.Prelude.{◌<◌, ◌≤◌, ◌*◌, length, vec_capacity};
    ghost use Rattle.cfb_entries.specs.Entries.{EntriesValue};

    ghost Value = { EntriesValue };

    ghost view = { λ e. e.table };

    ghost invariant = { λ e. (2 * length e.table.used < vec_capacity e.waiting)
        × (length e.table.used ≤ vec_capacity e.found) };
}

impl<'a> Entries<'a> {
    /// The entries of a directory, of which the root alone is marked.
    ///
    /// Refused: `BadEntry` for a directory without an entry, else `NoMemory`: here all memory is taken that following
    /// links needs.
    pub fn load(alloc: Global, directory: &'a [u8]) -> Result<Entries<'a>, DirFault>
        ensures loaded { IfOk result
            (λ e. e ≡ record {
              directory = directory.now;
              used = set_all (replicate (length directory.now / 128) false) (0 ∷ []);
            }) }
        ensures refused { IfErr result (MayRefuseLoad directory.now) }
    {
        Entries::over(alloc, Directory::Bytes(directory))
    }

    /// The same of a directory, however it is held.
    pub fn over(alloc: Global, directory: Directory<'a>) -> Result<Entries<'a>, DirFault>
        ensures loaded { IfOk result
            (λ e. e ≡ record {
              directory = held directory.entry;
              used = set_all (replicate (length (held directory.entry) / 128) false) (0 ∷ []);
            }) }
        ensures refused { IfErr result (MayRefuseLoad (held directory.entry)) }
    {
        let count = directory.count();
        if count == 0 {
            return Err(DirFault::BadEntry);
        }
        let table = Table::load(alloc, directory)?;
        let room = count.saturating_add(count).saturating_add(1);
        let waiting = Vec::with_capacity(alloc, room)?;
        let found = Vec::with_capacity(alloc, count)?;
        Ok(Entries {
            table,
            waiting,
            found,
        })
    }

    /// What an entry says. The root is named `Root Entry`, whatever stands in the file.
    ///
    /// Refused: `BadEntry` for an id outside the directory, for an entry 0 that isn't a root, for another entry that is
    /// neither a storage nor a stream, and for an odd length of its name; what `named` refuses for its name, whose
    /// length with the closing zero is from 4 to 64 bytes (MS-CFB 2.6.1).
    pub fn entry(&self, id: u32) -> Result<Entry, DirFault>
        ensures read { IfOk result (IsEntry self.now.directory id) }
        ensures valid { IfOk result (λ e. IsName e.name) }
        ensures refused { IfErr result (MayRefuseEntry self.now.directory id) }
    {
        self.table.entry(id)
    }

    /// The name of an entry, as `entry` tells it, and refused as there.
    pub fn name(&self, id: u32) -> Result<Name, DirFault>
        ensures read { IfOk result (IsNameOf id (entry_at self.now.directory id)) }
        ensures valid { IfOk result IsName }
        ensures refused { IfErr result (MayRefuseEntry self.now.directory id) }
    {
        self.table.name(id)
    }

    /// The name of an entry below the root, as `name` tells it, where it was read as the entry was packed: that of no
    /// entry which stands as in the file, nor of one with a class id, state bits or times. Nothing is copied and
    /// nothing tested.
    pub fn known_name(&self, id: u32) -> Option<&'a Name>
        ensures read { IfSome result (λ name. IsNameOf id (entry_at self.now.directory id) name.now) }
        ensures valid { IfSome result (λ name. IsName name.now) }
    {
        self.table.known_name(id)
    }

    /// What the entry of a stream says, as `entry` tells it, where its name is known: of other entries, nothing.
    pub fn stream(&self, id: u32) -> Option<StreamEntry<'a>>
        ensures { IfSome result (IsStreamEntry self.now.directory id) }
    {
        self.table.stream(id)
    }

    /// The children of an entry, as `children` finds them, as a search tree is read in order: where links are those of
    /// one, in the order of their names. No clause says so of that order: whoever needs it looks at it.
    ///
    /// Refused: as `children`.
    pub fn in_order(&mut self, alloc: Global, id: u32) -> Result<Vec<u32>, DirFault>
        ensures reached { IfOk result (λ v. AreReached self.old self.new (child (entry_at self.old.directory id))
            v.items) }
        ensures free { IfOk result (λ v. AreFree self.old v.items) }
        ensures refused { IfErr result (MayRefuseChildren self.old id) }
        ensures kept { OnErr result (self.new ≡ self.old) }
    {
        let top = self.table.child(id)?;
        self.waiting.clear();
        self.found.clear();
        match self
            .table
            .walk_in_order(top, &mut self.waiting, &mut self.found)
        {
            Ok(()) => {}
            Err(refused) => {
                self.table.unmark(&mut self.waiting);
                self.table.unmark(&mut self.found);
                return Err(refused);
            }
        }
        match taken(alloc, &mut self.found) {
            Ok(children) => Ok(children),
            Err(_) => {
                self.table.unmark(&mut self.found);
                Err(DirFault::NoMemory)
            }
        }
    }

    /// The children of an entry: just those that links reach from its child, which it marks. A refusal marks none.
    ///
    /// Refused: `BadEntry` for an id outside the directory and where a link leaves it, `TreeCycle` where an entry is
    /// marked or reached twice; `NoMemory` only of children that are there, for the list of them.
    pub fn children(&mut self, alloc: Global, id: u32) -> Result<Vec<u32>, DirFault>
        ensures linked { IfOk result (λ v. AreLinked self.old.directory (child (entry_at self.old.directory id))
            v.items) }
        ensures free { IfOk result (λ v. AreFree self.old v.items) }
        ensures marks { IfOk result (λ v. self.new ≡ marked self.old v.items) }
        ensures refused { IfErr result (MayRefuseChildren self.old id) }
        ensures kept { OnErr result (self.new ≡ self.old) }
    {
        let top = self.table.child(id)?;
        self.waiting.clear();
        self.found.clear();
        match self.table.walk(top, &mut self.waiting, &mut self.found) {
            Ok(()) => {}
            Err(fault) => {
                self.table.unmark(&mut self.found);
                return Err(fault);
            }
        }
        match Vec::from_slice(alloc, &self.found) {
            Ok(children) => Ok(children),
            Err(_) => {
                self.table.unmark(&mut self.found);
                Err(DirFault::NoMemory)
            }
        }
    }
}
