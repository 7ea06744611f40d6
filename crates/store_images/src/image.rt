//! A compound file that is kept in memory.

ghost use Rattle.cfb_header.specs.declared.fault.ChainFault.{ChainFault};
ghost use Rattle.cfb_header.specs.Header.{fat_count, header_read};
ghost use Rattle.store_images.specs.Changed.{changed_blocks};
ghost use Rattle.store_images.specs.Freed.{IsFreedAs};
ghost use Rattle.store_images.specs.Need.{length_anew};
ghost use Rattle.store_images.specs.Trimmed.{trimmed};
ghost use Rattle.store_images.specs.Undone.{undone};
ghost use Rattle.cfb_file.specs.Denotes.{Denotes};
ghost use Rattle.cfb_file.specs.Limits.{MOST_BYTES, MOST_FAT_SECTORS};
ghost use Rattle.cfb_file.specs.Refusals.{Refuses, writable};
ghost use Rattle.write_zeros.specs.Zeroed.{IsZeroed};
ghost use Rattle.std.specs.Prelude.{◌≡◌, ◌≤◌, ◌+◌, ◌*◌, Err, IfErr, IfNone, IfOk, IfSome, IsTrue, Ok, OnErr, OnOk, []};
ghost use Rattle.std.specs.Prelude.{length};
ghost use Rattle.tree_storage.specs.Kept.{kept};
ghost use Rattle.cfb_entries.specs.Tree as tree;
ghost use Rattle.read_files.specs.Reads.{MayRefuseFile, chain_fault};
ghost use Rattle.read_files.specs.declared.fault.ReadFault.TheVariants.{NoMemory};

use crate::changed::{BLOCK, changed};
use crate::in_place::{Was, lay_over, put_back};
use crate::update::overlaid;
use cfb_bytes::numbers::read_u32;
use cfb_file::fault::WriteFault;
use cfb_file::limit::MOST_BYTES;
use read_files::fault::ReadFault;
use read_files::read::read_outline;
use read_queries::queries::is_file_of;
use std::alloc::{AllocError, Global};
use std::marker::Model;
use tree_storage::tree::Tree;
use write_files::needs::count;
use write_files::write::{fits, write_file};
use write_placed::freed::Freed;
use write_placed::placing::place_over;
use write_zeros::zeroed::is_zeroed;

/// The most bytes that a store takes.
const MOST: usize = MOST_BYTES as usize;

/// A compound file: its bytes, which denote a tree.
#[derive(Drop)]
pub struct Image {
    file: Vec<u8>,
}

impl Model for Image {
    ghost use Rattle.cfb_file.specs.Denotes.{Denotes};
    ghost use Rattle.std.specs.Prelude.{List, ℕ};
    ghost use Rattle.cfb_entries.specs.Tree.{Tree};

    ghost Value = { List ℕ };

    ghost view = { λ image. image.file.items };

    ghost invariant = { λ image. (t : Tree) × ∥ Denotes image.file.items t ∥₁ };
}

/// The file that a tree is written to next: it is laid out anew.
///
/// Refused: as `write_file`.
fn written(alloc: Global, tree: &Tree) -> Result<Vec<u8>, WriteFault>
    ensures denotes { IfOk result (λ v. ∥ Denotes v.items (kept tree.now).now ∥₁) }
    ensures short { IfOk result (λ v. length v.items ≤ MOST_BYTES) }
    ensures refused { IfErr result (Refuses (writable (kept tree.now).now)) }
    ensures allowed { OnOk result (writable (kept tree.now).now ≡ Ok tt) }
{
    let file = write_file(alloc, tree)?;
    Ok(file)
}

/// Whether a file can hold a tree. It takes no memory.
///
/// Refused: as `write_file`, but never `NoMemory`.
fn check_room(tree: &Tree) -> Result<(), WriteFault>
    ensures refused { IfErr result (Refuses (writable (kept tree.now).now)) }
    ensures allowed { OnOk result (writable (kept tree.now).now ≡ Ok tt) }
{
    fits(tree.root())?;
    Ok(())
}

/// How many bytes the file of a tree has where it is laid out anew. It takes no memory.
///
/// Refused: as `write_file`, but never `NoMemory`.
fn length_anew(tree: &Tree) -> Result<usize, WriteFault>
    ensures length { IfOk result (λ n. n ≡ length_anew (kept tree.now).now) }
    ensures refused { IfErr result (Refuses (writable (kept tree.now).now)) }
    ensures allowed { OnOk result (writable (kept tree.now).now ≡ Ok tt) }
{
    let counts = count(tree.root())?;
    Ok(counts.file_len())
}

/// The file, if what no list of it takes is zero. Nothing is known of it but this.
fn zeroed_so(alloc: Global, file: &[u8]) -> Result<Option<&[u8]>, AllocError>
    ensures { IfOk result (λ checked. IfSome checked (λ _. IsZeroed file.now)) }
{
    if is_zeroed(alloc, file)? {
        return Ok(Some(file));
    }
    Ok(None)
}

/// The file, if what is freed in it is as wanted.
fn freed_so(alloc: Global, file: &[u8], freed: Freed) -> Result<Option<&[u8]>, AllocError>
    ensures { IfOk result (λ checked. IfSome checked (λ _. IsFreedAs freed file.now)) }
{
    match freed {
        Freed::Kept => Ok(Some(file)),
        Freed::Zeroed => zeroed_so(alloc, file),
    }
}

/// The file, if it denotes the tree, and what is freed in it is as wanted: it is read again. Nothing is known of it but
/// this.
fn checked<'a>(
    alloc: Global,
    file: &'a [u8],
    tree: &Tree,
    freed: Freed,
) -> Result<Option<&'a [u8]>, AllocError>
    ensures denotes { IfOk result (λ checked. IfSome checked (λ _. ∥ Denotes file.now (kept tree.now).now ∥₁)) }
    ensures freed { IfOk result (λ checked. IfSome checked (λ _. IsFreedAs freed file.now)) }
{
    match is_file_of(alloc, file, tree) {
        Ok(true) => freed_so(alloc, file, freed),
        Ok(false) => Ok(None),
        Err(ReadFault::NoMemory) => Err(AllocError),
        Err(_) => Ok(None),
    }
}

/// Lays blocks over a file of as many, and tells whether it then denotes the tree. What is written over is kept, and
/// the numbers of the blocks that change are added.
fn lay_and_check(
    alloc: Global,
    file: &mut [u8],
    was: &mut Vec<Was>,
    numbers: &mut Vec<u32>,
    blocks: &[&[u8]],
    tree: &Tree,
    freed: Freed,
) -> Result<bool, AllocError>
    requires as_many { 512 * length blocks.now ≡ length file.old }
    requires few { length blocks.now ≤ 1 + 128 * MOST_FAT_SECTORS }
    requires none_kept { was.old.items ≡ [] }
    requires none_changed { numbers.old.items ≡ [] }
    ensures undone { undone was.new.items file.new ≡ file.old }
    ensures changed { OnOk result (numbers.new.items ≡ changed_blocks file.old file.new) }
    ensures denotes { IfOk result (λ is. IsTrue is → ∥ Denotes file.new (kept tree.now).now ∥₁) }
    ensures freed { IfOk result (λ is. IsTrue is → IsFreedAs freed file.new) }
{
    lay_over(file, was, numbers, blocks)?;
    match checked(alloc, file, tree, freed)? {
        Some(_) => Ok(true),
        None => Ok(false),
    }
}

/// Lays blocks over a file of as many, and gives the numbers of those that change. None where it then doesn't denote
/// the tree.
///
/// Where that is so, and where memory is wanting, the file is put back as it was.
fn change_in_place(
    alloc: Global,
    file: &mut [u8],
    blocks: &[&[u8]],
    tree: &Tree,
    freed: Freed,
) -> Result<Option<Vec<u32>>, AllocError>
    requires as_many { 512 * length blocks.now ≡ length file.old }
    requires few { length blocks.now ≤ 1 + 128 * MOST_FAT_SECTORS }
    ensures denotes { IfOk result (λ numbers. IfSome numbers (λ _. ∥ Denotes file.new (kept tree.now).now ∥₁)) }
    ensures freed { IfOk result (λ numbers. IfSome numbers (λ _. IsFreedAs freed file.new)) }
    ensures changed { IfOk result (λ numbers. IfSome numbers (λ n. n.items ≡ changed_blocks file.old file.new)) }
    ensures stays { IfOk result (λ numbers. IfNone numbers (file.new ≡ file.old)) }
    ensures kept { OnErr result (file.new ≡ file.old) }
{
    let mut was = Vec::new(alloc);
    let mut numbers = Vec::new(alloc);
    let denotes = lay_and_check(alloc, file, &mut was, &mut numbers, blocks, tree, freed);
    if let Ok(true) = denotes {
        return Ok(Some(numbers));
    }
    put_back(file, was);
    denotes?;
    Ok(None)
}

/// Puts a new file of these blocks in the place of an older one, and gives the numbers of those that change or are new.
/// None where it wouldn't denote the tree.
///
/// Where that is so, and where memory is wanting, the file stays as it was.
fn replace_file(
    alloc: Global,
    file: &mut Vec<u8>,
    blocks: &[&[u8]],
    tree: &Tree,
    freed: Freed,
) -> Result<Option<Vec<u32>>, AllocError>
    requires { length blocks.now ≤ 1 + 128 * MOST_FAT_SECTORS }
    ensures denotes { IfOk result (λ numbers. IfSome numbers (λ _. ∥ Denotes file.new.items (kept tree.now).now ∥₁)) }
    ensures freed { IfOk result (λ numbers. IfSome numbers (λ _. IsFreedAs freed file.new.items)) }
    ensures changed { IfOk result
        (λ numbers. IfSome numbers (λ n. n.items ≡ changed_blocks file.old.items file.new.items)) }
    ensures stays { IfOk result (λ numbers. IfNone numbers (file.new.items ≡ file.old.items)) }
    ensures kept { OnErr result (file.new.items ≡ file.old.items) }
{
    let update = overlaid(alloc, file, blocks)?;
    if checked(alloc, &update.file, tree, freed)?.is_none() {
        return Ok(None);
    }
    *file = update.file;
    Ok(Some(update.numbers))
}

/// Makes a file that of these blocks, in place if it has as many, and gives the numbers of those that change or are
/// new. None where it wouldn't denote the tree.
///
/// Where that is so, and where memory is wanting, the file stays as it was.
fn change_blocks(
    alloc: Global,
    file: &mut Vec<u8>,
    blocks: &[&[u8]],
    tree: &Tree,
    freed: Freed,
) -> Result<Option<Vec<u32>>, AllocError>
    requires { length blocks.now ≤ 1 + 128 * MOST_FAT_SECTORS }
    ensures denotes { IfOk result (λ numbers. IfSome numbers (λ _. ∥ Denotes file.new.items (kept tree.now).now ∥₁)) }
    ensures freed { IfOk result (λ numbers. IfSome numbers (λ _. IsFreedAs freed file.new.items)) }
    ensures changed { IfOk result
        (λ numbers. IfSome numbers (λ n. n.items ≡ changed_blocks file.old.items file.new.items)) }
    ensures stays { IfOk result (λ numbers. IfNone numbers (file.new.items ≡ file.old.items)) }
    ensures kept { OnErr result (file.new.items ≡ file.old.items) }
{
    if BLOCK * blocks.len() == file.len() {
        return change_in_place(alloc, file, blocks, tree, freed);
    }
    replace_file(alloc, file, blocks, tree, freed)
}

/// Makes a file, which denotes a tree, that of another one, in the sectors that it has, and gives the numbers of the
/// blocks that change or are new. What is freed is kept or zeroed. None where those sectors won't do.
///
/// Where that is so, and where memory is wanting, the file stays as it was.
fn change_in_sectors(
    alloc: Global,
    file: &mut Vec<u8>,
    tree: &Tree,
    freed: Freed,
) -> Result<Option<Vec<u32>>, AllocError>
    ensures denotes { IfOk result (λ numbers. IfSome numbers (λ _. ∥ Denotes file.new.items (kept tree.now).now ∥₁)) }
    ensures freed { IfOk result (λ numbers. IfSome numbers (λ _. IsFreedAs freed file.new.items)) }
    ensures changed { IfOk result
        (λ numbers. IfSome numbers (λ n. n.items ≡ changed_blocks file.old.items file.new.items)) }
    ensures stays { IfOk result (λ numbers. IfNone numbers (file.new.items ≡ file.old.items)) }
    ensures kept { OnErr result (file.new.items ≡ file.old.items) }
{
    let outline = match read_outline(alloc, file) {
        Ok(outline) => outline,
        Err(ReadFault::NoMemory) => return Err(AllocError),
        // What denotes a tree isn't refused so.
        Err(_) => return Ok(None),
    };
    let Some(laid) = place_over(alloc, file, &outline, tree.root(), freed)? else {
        return Ok(None);
    };
    let blocks = laid.blocks(alloc)?;
    change_blocks(alloc, file, &blocks, tree, freed)
}

/// Puts the file of a tree, laid out anew, in the place of an older one, and gives the numbers of the blocks that
/// change or are new. It is looked at too: that `write_file` leaves zeros where nothing lies is in no clause.
///
/// Refused: as `write_file`; `NoMemory` too where what is to be zeroed isn't. Then the file stays as it was.
fn lay_out_anew(
    alloc: Global,
    file: &mut Vec<u8>,
    tree: &Tree,
    freed: Freed,
) -> Result<Vec<u32>, WriteFault>
    ensures denotes { OnOk result (∥ Denotes file.new.items (kept tree.now).now ∥₁) }
    ensures freed { OnOk result (IsFreedAs freed file.new.items) }
    ensures changed { IfOk result (λ numbers. numbers.items ≡ changed_blocks file.old.items file.new.items) }
    ensures refused { IfErr result (Refuses (writable (kept tree.now).now)) }
    ensures allowed { OnOk result (writable (kept tree.now).now ≡ Ok tt) }
    ensures kept { OnErr result (file.new.items ≡ file.old.items) }
{
    let new = written(alloc, tree)?;
    let Ok(Some(_)) = freed_so(alloc, &new, freed) else {
        return Err(WriteFault::NoMemory);
    };
    match changed(alloc, file, &new) {
        Ok(numbers) => {
            *file = new;
            Ok(numbers)
        }
        Err(_) => Err(WriteFault::NoMemory),
    }
}

/// Makes a file, which denotes a tree, that of another one: in its sectors, of which those that are freed are kept or
/// zeroed, or else laid out anew. Gives the numbers of the blocks that change or are new.
///
/// Refused: as `write_file`. Then the file stays as it was.
fn change_file(
    alloc: Global,
    file: &mut Vec<u8>,
    tree: &Tree,
    freed: Freed,
) -> Result<Vec<u32>, WriteFault>
    ensures denotes { OnOk result (∥ Denotes file.new.items (kept tree.now).now ∥₁) }
    ensures freed { OnOk result (IsFreedAs freed file.new.items) }
    ensures changed { IfOk result (λ numbers. numbers.items ≡ changed_blocks file.old.items file.new.items) }
    ensures refused { IfErr result (Refuses (writable (kept tree.now).now)) }
    ensures allowed { OnOk result (writable (kept tree.now).now ≡ Ok tt) }
    ensures kept { OnErr result (file.new.items ≡ file.old.items) }
{
    check_room(tree)?;
    match change_in_sectors(alloc, file, tree, freed)? {
        Some(numbers) => Ok(numbers),
        None => lay_out_anew(alloc, file, tree, freed),
    }
}

/// The file cut behind the sectors that its FAT, of so many sectors, has entries for, its last sector filled with
/// zeros.
fn trim(mut file: Vec<u8>, sectors: u32) -> Result<Vec<u8>, AllocError>
    requires { sectors ≡ fat_count file.items }
    ensures { IfOk result (λ v. v.items ≡ trimmed file.items) }
{
    let count = file.len().div_ceil(512).min(1 + 128 * sectors as usize);
    file.resize(512 * count, 0)?;
    Ok(file)
}

impl Image {
    /// The image of a compound file: its bytes up to the end of the sectors that the FAT has entries for, the last
    /// sector filled with zeros.
    ///
    /// Refused: as `read_file`. The bytes are dropped then.
    pub fn open(alloc: Global, file: Vec<u8>) -> Result<Image, ReadFault>
        ensures denotes { IfOk result (λ image. (t : tree.Tree) × ∥ Denotes file.items t ∥₁ × ∥ Denotes image t ∥₁) }
        ensures trimmed { IfOk result (λ image. image ≡ trimmed file.items) }
        ensures header { (e : ChainFault) → header_read file.items ≡ Err e → result ≡ Err (chain_fault e) }
        ensures reads { (t : tree.Tree) → Denotes file.items t → IfErr result (λ e. e ≡ NoMemory) }
        ensures refused { IfErr result (MayRefuseFile file.items) }
    {
        match read_outline(alloc, &file) {
            Ok(_) => {
                let sectors = read_u32(&file, 44);
                match trim(file, sectors) {
                    Ok(file) => Ok(Image { file }),
                    Err(_) => Err(ReadFault::NoMemory),
                }
            }
            Err(fault) => Err(fault),
        }
    }

    /// The image of a tree, laid out anew: all that the tree doesn't take is zero, and it is no longer than a store
    /// takes. It is looked at: that `write_file` leaves zeros where nothing lies is in no clause.
    ///
    /// Refused: as `write_file`: `TooBig`, then `NoMemory`.
    pub fn made(alloc: Global, tree: &Tree) -> Result<Image, WriteFault>
        ensures denotes { IfOk result (λ image. ∥ Denotes image (kept tree.now).now ∥₁) }
        ensures zeroed { IfOk result (λ image. IsZeroed image) }
        ensures short { IfOk result (λ image. length image ≤ MOST_BYTES) }
        ensures refused { IfErr result (Refuses (writable (kept tree.now).now)) }
        ensures allowed { OnOk result (writable (kept tree.now).now ≡ Ok tt) }
    {
        let file = written(alloc, tree)?;
        let Ok(Some(_)) = freed_so(alloc, &file, Freed::Zeroed) else {
            return Err(WriteFault::NoMemory);
        };
        Ok(Image { file })
    }

    /// The image of a tree in the sectors of this one. None where it would have more bytes than this.
    ///
    /// Refused: as `write_file`.
    fn placed(&self, alloc: Global, tree: &Tree, most: usize) -> Result<Option<Image>, WriteFault>
        requires { writable (kept tree.now).now ≡ Ok tt }
        ensures denotes { IfOk result (λ placed. IfSome placed (λ image. ∥ Denotes image (kept tree.now).now ∥₁)) }
        ensures zeroed { IfOk result (λ placed. IfSome placed (λ image. IsZeroed image)) }
        ensures short { IfOk result (λ placed. IfSome placed (λ image. length image ≤ most)) }
        ensures refused { IfErr result (Refuses (writable (kept tree.now).now)) }
    {
        let mut image = self.copy(alloc)?;
        image.update_zeroed(alloc, tree)?;
        if image.bytes().len() > most {
            return Ok(None);
        }
        Ok(Some(image))
    }

    /// The image of a tree that takes the place of this one's: all that the tree doesn't take is zero, and it is no
    /// longer than a store takes. It has the sectors that `update_zeroed` gives it, unless it would be longer than that
    /// so, or more than twice as long as it is laid out anew. Then it is laid out anew. Which of both it is, is tested,
    /// and in no clause.
    ///
    /// Refused: as `write_file`: `TooBig`, then `NoMemory`.
    pub fn with_tree(&self, alloc: Global, tree: &Tree) -> Result<Image, WriteFault>
        ensures denotes { IfOk result (λ image. ∥ Denotes image (kept tree.now).now ∥₁) }
        ensures zeroed { IfOk result (λ image. IsZeroed image) }
        ensures short { IfOk result (λ image. length image ≤ MOST_BYTES) }
        ensures refused { IfErr result (Refuses (writable (kept tree.now).now)) }
        ensures allowed { OnOk result (writable (kept tree.now).now ≡ Ok tt) }
    {
        let most = length_anew(tree)?.saturating_mul(2).min(MOST);
        match self.placed(alloc, tree, most)? {
            Some(image) => Ok(image),
            None => Image::made(alloc, tree),
        }
    }

    /// Its bytes, which denote a tree.
    pub fn bytes(&self) -> &[u8]
        ensures value { result.now ≡ self.now }
        ensures denotes { (t : tree.Tree) × ∥ Denotes self.now t ∥₁ }
    {
        &self.file
    }

    /// An equal image.
    pub fn copy(&self, alloc: Global) -> Result<Image, AllocError>
        ensures { IfOk result (λ image. image ≡ self.now) }
    {
        Ok(Image {
            file: Vec::from_slice(alloc, &self.file)?,
        })
    }

    /// Makes it the image of a tree, and gives the numbers of the blocks of 512 bytes that differ from what they were,
    /// or that are new, rising. Block 0 is the header, and block n + 1 is sector n.
    ///
    /// A stream whose number of sectors stays, and its table, has the sectors that it had; what is freed keeps its
    /// bytes, and what is new takes the least free sectors. Where that would pass the limit the file is laid out anew.
    /// All this is tested, and in no clause.
    ///
    /// Refused: as `write_file`: `TooBig`, then `NoMemory`. A refusal changes nothing.
    pub fn update(&mut self, alloc: Global, tree: &Tree) -> Result<Vec<u32>, WriteFault>
        ensures denotes { OnOk result (∥ Denotes self.new (kept tree.now).now ∥₁) }
        ensures changed { IfOk result (λ numbers. numbers.items ≡ changed_blocks self.old self.new) }
        ensures refused { IfErr result (Refuses (writable (kept tree.now).now)) }
        ensures allowed { OnOk result (writable (kept tree.now).now ≡ Ok tt) }
        ensures kept { OnErr result (self.new ≡ self.old) }
    {
        change_file(alloc, &mut self.file, tree, Freed::Kept)
    }

    /// As `update`, but all that the tree doesn't take is zero: free sectors, free mini sectors, unused entries, and
    /// what lies behind the ends of streams. So what was deleted can't be read in its bytes, and more blocks may change
    /// than by `update`.
    ///
    /// Refused: as `update`.
    pub fn update_zeroed(&mut self, alloc: Global, tree: &Tree) -> Result<Vec<u32>, WriteFault>
        ensures denotes { OnOk result (∥ Denotes self.new (kept tree.now).now ∥₁) }
        ensures zeroed { OnOk result (IsZeroed self.new) }
        ensures changed { IfOk result (λ numbers. numbers.items ≡ changed_blocks self.old self.new) }
        ensures refused { IfErr result (Refuses (writable (kept tree.now).now)) }
        ensures allowed { OnOk result (writable (kept tree.now).now ≡ Ok tt) }
        ensures kept { OnErr result (self.new ≡ self.old) }
    {
        change_file(alloc, &mut self.file, tree, Freed::Zeroed)
    }
}
