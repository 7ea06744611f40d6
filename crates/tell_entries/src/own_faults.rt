//! What is wrong with an entry of a directory by itself.

ghost use Rattle.cfb_bytes.specs.Bytes.{u16_at, u32_at};
ghost use Rattle.cfb_entries.specs.Entries.{IsKindOf, MayRefuseEntry, entry_at, kind, name_length, name_of};
ghost use Rattle.cfb_names.specs.Names.{is_forbidden};
ghost use Rattle.cfb_names.specs.declared.fault.DirFault.TheVariants.{BadEntry};
ghost use Rattle.std.specs.List.{Contains};
ghost use Rattle.std.specs.Prelude.{◌≡◌, ◌≢◌, ◌⊎◌, ◌<◌, ◌≤◌, ◌+◌, ◌-◌, ◌*◌, ◌/◌, List, false, length, true, ℕ};

use cfb_bytes::numbers::{read_u16, read_u32};
use cfb_names::fault::DirFault;
use cfb_names::name::is_forbidden;

/// How many bytes an entry has.
pub const ENTRY: usize = 128;

/// The bytes of an entry.
#[tactic(auto, unfolding(cfb_bytes::specs::Bytes::block))]
pub fn entry_of(directory: &[u8], id: usize) -> &[u8]
    requires { 128 * id + 128 ≤ length directory.now }
    ensures is { result.now ≡ entry_at directory.now id }
    ensures long { length result.now ≡ 128 }
{
    let start = ENTRY * id;
    &directory[start..start + ENTRY]
}

/// The number in four bytes of an entry.
pub(crate) fn number_of(directory: &[u8], id: u32, at: usize) -> u32
    requires inside { 128 * id + 128 ≤ length directory.now }
    requires within { at + 4 ≤ 128 }
    ensures { result ≡ u32_at (entry_at directory.now id) at }
{
    read_u32(entry_of(directory, id as usize), at)
}

/// The kind of an entry.
pub(crate) fn kind_of(directory: &[u8], id: u32) -> u8
    requires inside { 128 * id + 128 ≤ length directory.now }
    ensures { result ≡ kind (entry_at directory.now id) }
{
    entry_of(directory, id as usize)[66]
}

/// Whether an entry may have a kind: entry 0 that of the root, and others those of storages and streams.
fn may_have_kind(id: u32, kind: u8) -> bool
    ensures allowed { result ≡ true → IsKindOf id kind }
    ensures refused { result ≡ false → IsKindOf id kind → ⊥ }
{
    match (id, kind) {
        (0, 5) => true,
        (0, _) => false,
        (_, 1) => true,
        (_, 2) => true,
        _ => false,
    }
}

/// Whether a number is odd.
fn is_odd(n: u16) -> bool
    ensures odd { result ≡ true → (k : ℕ) → n ≢ 2 * k }
    ensures even { result ≡ false → (k : ℕ) × (n ≡ 2 * k) }
{
    if n % 2 == 0 {
        return false;
    }
    true
}

/// Whether an entry has a kind that it may not have, or a name whose length is odd.
fn is_bad(entry: &[u8], id: u32) -> bool
    requires { length entry.now ≡ 128 }
    ensures bad { result ≡ true → (IsKindOf id (kind entry.now) → ⊥)
        ⊎ ((id ≢ 0) × ((k : ℕ) → name_length entry.now ≢ 2 * k)) }
    ensures good { result ≡ false
        → ((IsKindOf id (kind entry.now) → ⊥) ⊎ ((id ≢ 0) × ((k : ℕ) → name_length entry.now ≢ 2 * k))) → ⊥ }
{
    if !may_have_kind(id, entry[66]) {
        return true;
    }
    if id == 0 {
        return false;
    }
    is_odd(read_u16(entry, 64))
}

/// How many characters the name of an entry has.
fn count_characters(entry: &[u8]) -> usize
    requires { length entry.now ≡ 128 }
    ensures { result ≡ name_length entry.now / 2 - 1 }
{
    (read_u16(entry, 64) as usize / 2).saturating_sub(1)
}

/// Whether the name of an entry isn't too long, and has a character past ASCII.
fn is_past_ascii(entry: &[u8]) -> bool
    requires { length entry.now ≡ 128 }
    ensures past { result ≡ true → (name_length entry.now ≤ 64)
        × ((c : ℕ) × Contains (name_of entry.now) c × (127 < c)) }
    ensures ascii { result ≡ false → name_length entry.now ≤ 64
        → ((c : ℕ) × Contains (name_of entry.now) c × (127 < c)) → ⊥ }
{
    if read_u16(entry, 64) > 64 {
        return false;
    }
    for k in 0..count_characters(entry) {
        if read_u16(entry, 2 * k) > 127 {
            return true;
        }
    }
    false
}

/// Whether a character is forbidden in names.
fn is_refused(character: u16) -> bool
    ensures { result ≡ is_forbidden character }
{
    if character > 127 {
        return false;
    }
    is_forbidden(character as u8)
}

/// Whether the name of an entry isn't too long, and has a forbidden character.
fn has_forbidden(entry: &[u8]) -> bool
    requires { length entry.now ≡ 128 }
    ensures forbidden { result ≡ true → (name_length entry.now ≤ 64)
        × ((c : ℕ) × Contains (name_of entry.now) c × (is_forbidden c ≡ true)) }
    ensures allowed { result ≡ false → name_length entry.now ≤ 64
        → ((c : ℕ) × Contains (name_of entry.now) c × (is_forbidden c ≡ true)) → ⊥ }
{
    if read_u16(entry, 64) > 64 {
        return false;
    }
    for k in 0..count_characters(entry) {
        if is_refused(read_u16(entry, 2 * k)) {
            return true;
        }
    }
    false
}

/// Whether an entry that isn't the root has a fault of its name.
fn has_name_fault(entry: &[u8], fault: DirFault) -> bool
    requires { length entry.now ≡ 128 }
    ensures told { result ≡ true → (dir : List ℕ) → (id : ℕ) → entry.now ≡ entry_at dir id → id ≢ 0
        → MayRefuseEntry dir id fault }
    ensures free { result ≡ false → (dir : List ℕ) → (id : ℕ) → entry.now ≡ entry_at dir id → fault ≢ BadEntry
        → MayRefuseEntry dir id fault → ⊥ }
{
    match fault {
        DirFault::NameEmpty => read_u16(entry, 64) < 4,
        DirFault::NameTooLong => read_u16(entry, 64) > 64,
        DirFault::NameNotAscii => is_past_ascii(entry),
        DirFault::NameForbidden => has_forbidden(entry),
        _ => false,
    }
}

/// Whether a fault is one of an entry and not of its name.
pub(crate) fn is_of_entry(fault: DirFault) -> bool
    ensures bad { result ≡ true → fault ≡ BadEntry }
    ensures other { result ≡ false → fault ≢ BadEntry }
{
    fault == DirFault::BadEntry
}

/// Whether an entry of a directory has a fault of its own.
pub(crate) fn has_fault(directory: &[u8], id: u32, fault: DirFault) -> bool
    requires { 128 * id + 128 ≤ length directory.now }
    ensures told { result ≡ true → MayRefuseEntry directory.now id fault }
    ensures free { result ≡ false → MayRefuseEntry directory.now id fault → ⊥ }
{
    let entry = entry_of(directory, id as usize);
    if is_of_entry(fault) {
        return is_bad(entry, id);
    }
    if id == 0 {
        return false;
    }
    has_name_fault(entry, fault)
}
