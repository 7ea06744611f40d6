//! The table of sectors and its chains (MS-CFB 2.3, 2.4).

ghost use Rattle.cfb_header.specs.Bytes.{block, joined, sector, u32_at};
ghost use Rattle.cfb_chains.specs.Chain.{AreDistinct, FREE_SECTOR, IsChain};
ghost use Rattle.cfb_header.specs.Header.{NAMED, difat_by, fat_by};
ghost use Rattle.cfb_chains.specs.Fat.{AreFree, FatValue, IsFat, IsFound, IsFree, IsFreeChain, IsMiniFound};
ghost use Rattle.cfb_chains.specs.Fat.{IsMiniTable, IsTableOf, MayRefuse, MayRefuseChain, MayRefuseFat, MayRefuseMini};
ghost use Rattle.cfb_chains.specs.Fat.{followed, held, marked, sectors_in, store_of};
ghost use Rattle.read_chains.specs.View.{bytes_of, image_bytes, start_of, width_of};
ghost use Rattle.cfb_header.specs.declared.fault.ChainFault.TheVariants.{CrossLinked, Cycle, NoMemory, OutOfFile};
ghost use Rattle.cfb_header.specs.declared.fault.ChainFault.TheVariants.{ShortChain};
ghost use Rattle.std.specs.List.{All, Contains};
ghost use Rattle.std.specs.Prelude.{◌*◌, ◌+◌, ◌++◌, ◌<◌, ◌^◌, ◌≡◌, ◌≢◌, ◌≤◌, ◌↔◌, ◌⊎◌, IfErr, IfNone, IfOk, IfSome};
ghost use Rattle.std.specs.Prelude.{IsTrue, List, OnErr, OnOk, false, length, replicate, slice_index, take, true, ℕ};

use crate::difat::{FatSectors, fat_sectors};
use crate::image::{Image, join_placed};
use crate::links::Links;
use crate::sectors::{MINI_SECTOR, SECTOR, are_equal, join_blocks, numbers, row_length, run_of};
use crate::table::{count_entries, follow};
pub use cfb_chains::sector::FREE_SECTOR;
use cfb_header::fault::ChainFault;
use cfb_header::header::{END_OF_CHAIN, Header, NAMED};
use read_packed::packed::PackedEntries;
use read_packed::places::Places;
use std::alloc::{AllocError, Global};
use std::marker::Model;

/// A table of sectors over their bytes, which marks those that are used: the FAT over a file, or the mini FAT over
/// the mini stream.
#[derive(Drop)]
pub struct Fat<'a> {
    pieces: Pieces<'a>,
    next: Links<'a>,
    used: Vec<bool>,
}

/// Where the sectors lie.
#[derive(Drop)]
enum Pieces<'a> {
    /// Behind the header of a file, 512 bytes each.
    Sectors(Image<'a>),
    /// In a mini stream, 64 bytes each, whose sectors stand one after another.
    MiniRun(&'a [u8]),
    /// In a mini stream that was joined of its sectors.
    MiniSectors(Vec<u8>),
    /// In a mini stream that isn't joined, of these sectors of a file of which some blocks were read.
    MiniPlaced(&'a Places, Vec<u32>),
}

impl<'a> Pieces<'a> {
    /// The size of each.
    fn width(&self) -> usize
        ensures value { result ≡ width_of self.now }
        ensures either { (result ≡ 512) ⊎ (result ≡ 64) }
    {
        match self {
            Pieces::Sectors(_) => SECTOR,
            Pieces::MiniRun(_) => MINI_SECTOR,
            Pieces::MiniSectors(_) => MINI_SECTOR,
            Pieces::MiniPlaced(_, _) => MINI_SECTOR,
        }
    }

    /// The bytes of some, one after another.
    fn join(&self, alloc: Global, numbers: &[u32]) -> Result<Vec<u8>, AllocError>
        ensures { IfOk result
            (λ v. v.items ≡ joined (λ n. block (width_of self.now) (bytes_of self.now)
            (start_of self.now + width_of self.now * n)) numbers.now) }
    {
        match self {
            Pieces::Sectors(file) => file.join(alloc, numbers),
            Pieces::MiniRun(stream) => join_blocks(alloc, MINI_SECTOR, stream, 0, numbers),
            Pieces::MiniSectors(stream) => join_blocks(alloc, MINI_SECTOR, stream, 0, numbers),
            Pieces::MiniPlaced(file, sectors) => {
                let stream = join_placed(alloc, file, sectors)?;
                join_blocks(alloc, MINI_SECTOR, &stream, 0, numbers)
            }
        }
    }

    /// The bytes of some, one after another, where they stand so in memory.
    fn run(&self, numbers: &[u32]) -> Option<&'a [u8]>
        ensures { IfSome result
            (λ bytes. bytes.now ≡ joined (λ n. block (width_of self.now) (bytes_of self.now)
            (start_of self.now + width_of self.now * n)) numbers.now) }
    {
        match self {
            Pieces::Sectors(file) => file.run(numbers),
            Pieces::MiniRun(stream) => run_of(MINI_SECTOR, stream, 0, numbers),
            Pieces::MiniSectors(_) => None,
            Pieces::MiniPlaced(_, _) => None,
        }
    }

    /// The bytes of some, one after another, where they are held as the entries of a directory.
    fn entries(&self, numbers: &[u32]) -> Option<&'a PackedEntries>
        ensures { IfSome result (λ entries. entries.now
            ≡ joined (λ n. block (width_of self.now) (bytes_of self.now)
            (start_of self.now + width_of self.now * n)) numbers.now) }
    {
        match self {
            Pieces::Sectors(file) => file.entries(numbers),
            _ => None,
        }
    }

    /// Whether the first bytes of some, one after another, are these, so far as that is seen where they stand in
    /// memory.
    fn show(&self, numbers: &[u32], bytes: &[u8]) -> bool
        ensures { result ≡ true → bytes.now ≡ take (length bytes.now)
            (joined (λ n. block (width_of self.now) (bytes_of self.now) (start_of self.now + width_of self.now * n))
            numbers.now) }
    {
        let mut rest = bytes;
        let mut at = 0;
        while at < numbers.len() {
            let count = row_length(numbers, at);
            let Some(run) = self.run(&numbers[at..at + count]) else {
                return false;
            };
            let len = rest.len().min(run.len());
            if !are_equal(&rest[..len], &run[..len]) {
                return false;
            }
            rest = &rest[len..];
            at += count;
        }
        rest.is_empty()
    }
}

impl<'a> Model for Fat<'a> {
    ghost use Rattle.cfb_chains.specs.Fat.{FatValue, IsSound};
    ghost use Rattle.read_chains.specs.View.{bytes_of, start_of, width_of};

    ghost Value = { FatValue };

    ghost view = { λ f. record {
      bytes = bytes_of f.pieces;
      start = start_of f.pieces;
      width = width_of f.pieces;
      table = f.next;
      used = f.used.items;
    } };

    ghost invariant = { λ f. IsSound f.next f.used.items };
}

/// Refuses a sector that isn't among the first `count`.
fn check_present(sectors: &[u32], count: usize) -> Result<(), ChainFault>
    ensures present { OnOk result (All (λ n. n < count) sectors.now) }
    ensures refused { IfErr result (λ e. (e ≡ OutOfFile) × ((n : ℕ) × Contains sectors.now n × (count ≤ n))) }
{
    for n in sectors {
        if *n as usize >= count {
            return Err(ChainFault::OutOfFile);
        }
    }
    Ok(())
}

/// Refuses a header whose list and DIFAT have room for fewer FAT sectors than it says.
fn check_room(header: &Header) -> Result<(), ChainFault>
    ensures enough { OnOk result (header.now.fat_count ≤ length header.now.fat + NAMED * header.now.difat_count) }
    ensures refused { IfErr result (λ e. (e ≡ ShortChain)
        × (length header.now.fat + NAMED * header.now.difat_count < header.now.fat_count)) }
{
    let room = header.fat().len() + NAMED * header.difat_count() as usize;
    if header.fat_count() as usize > room {
        return Err(ChainFault::ShortChain);
    }
    Ok(())
}

/// Refuses a DIFAT for the first of its sectors that isn't among the first `count`, or to which it comes back.
fn check_difat(difat: &[u32], count: usize) -> Result<(), ChainFault>
    ensures apart { OnOk result (AreDistinct difat.now) }
    ensures present { OnOk result (All (λ n. n < count) difat.now) }
    ensures refused { IfErr result (λ e. ((e ≡ OutOfFile) × ((n : ℕ) × Contains difat.now n × (count ≤ n)))
        ⊎ ((e ≡ Cycle) × ((k : ℕ) × All (λ n. n < count) (take k difat.now) × (AreDistinct (take k difat.now) → ⊥)))) }
{
    for k in 0..difat.len() {
        if difat[k] as usize >= count {
            return Err(ChainFault::OutOfFile);
        }
        if difat[..k].contains(&difat[k]) {
            return Err(ChainFault::Cycle);
        }
    }
    Ok(())
}

impl FatSectors {
    ghost use Rattle.std.specs.Prelude.{◌≡◌, ◌++◌, IfOk};

    /// The FAT's, and the DIFAT's behind them.
    fn all(&self, alloc: Global) -> Result<Vec<u32>, AllocError>
        ensures { IfOk result (λ v. v.items ≡ self.now.fat.items ++ self.now.difat.items) }
    {
        let mut all = Vec::from_slice(alloc, &self.fat)?;
        all.extend_from_slice(&self.difat)?;
        Ok(all)
    }
}

impl<'a> Fat<'a> {
    /// The table of a file. It marks the sectors in which it lies, and those of the DIFAT.
    ///
    /// Refused: `ShortChain` where the header's list and the DIFAT have room for fewer FAT sectors than the header
    /// says; `OutOfFile` where a sector of the header's list isn't in the file; then `NoMemory`; for the first of the
    /// DIFAT's sectors at fault `OutOfFile` where it isn't in the file, and `Cycle` where the DIFAT comes back to it;
    /// `OutOfFile` where a sector of the FAT isn't in the file; `CrossLinked` where one is listed twice.
    pub fn load(alloc: Global, header: &Header, file: Image<'a>) -> Result<Fat<'a>, ChainFault>
        ensures table { IfOk result (λ f. IsTableOf (image_bytes file.entry) header.now f) }
        ensures refused { IfErr result (MayRefuseFat (image_bytes file.entry) header.now) }
        ensures there { IsFat (image_bytes file.entry) header.now → IfErr result (λ e. e ≡ NoMemory) }
    {
        check_room(header)?;
        let count = count_entries(header.fat_count() as usize, &file);
        check_present(header.fat(), count)?;
        let sectors = fat_sectors(alloc, header, &file)?;
        check_difat(&sectors.difat, count)?;
        let own = sectors.all(alloc)?;
        check_present(&own, count)?;
        let mut fat = Fat::unmarked(alloc, file, &sectors.fat, count)?;
        fat.mark_apart(&own)?;
        Ok(fat)
    }

    /// The table of a file that lies in these sectors, with so many entries, none of them marked.
    fn unmarked(
        alloc: Global,
        file: Image<'a>,
        fat: &[u32],
        count: usize,
    ) -> Result<Fat<'a>, AllocError>
        requires few { count ≤ 0xFFFFFFF9 }
        ensures made { IfOk result (λ f. f ≡ record {
          bytes = image_bytes file.entry;
          start = 512;
          width = 512;
          table = f.table;
          used = replicate count false;
        }) }
        ensures count { IfOk result (λ f. length f.table ≡ count) }
        ensures each { IfOk result (λ f. (k : ℕ) → k < count → slice_index f.table k
            ≡ u32_at (joined (sector (image_bytes file.entry)) fat.now) (4 * k)) }
    {
        let next = Links::load(alloc, &file, fat, count)?;
        let used = vec![in alloc; false; count]?;
        Ok(Fat {
            pieces: Pieces::Sectors(file),
            next,
            used,
        })
    }

    /// The chain from a sector on, whose sectors it marks. A refusal marks none.
    ///
    /// Refused: `OutOfFile` where the chain leaves the table, `Cycle` where it meets one of its own sectors again,
    /// `CrossLinked` where it meets one that is marked; then `NoMemory`.
    pub fn chain(&mut self, alloc: Global, start: u32) -> Result<Vec<u32>, ChainFault>
        ensures linked { IfOk result (λ v. IsChain (store_of self.old) start 0 v.items) }
        ensures free { IfOk result (λ v. AreFree self.old v.items) }
        ensures marks { IfOk result (λ v. self.new ≡ marked self.old v.items) }
        ensures refused { IfErr result (MayRefuseChain self.old start) }
        ensures there { (ns : List ℕ) → IsChain (store_of self.old) start 0 ns → AreFree self.old ns
            → IfErr result (λ e. e ≡ NoMemory) }
        ensures kept { OnErr result (self.new ≡ self.old) }
    {
        let count = self.count(start)?;
        let chain = self.listed(alloc, start, count)?;
        self.mark(&chain);
        Ok(chain)
    }

    /// The bytes of the sectors, one after another.
    pub fn join(&self, alloc: Global, sectors: &[u32]) -> Result<Vec<u8>, AllocError>
        requires { All (λ n. n < length self.now.table) sectors.now }
        ensures { IfOk result (λ v. v.items ≡ joined (store_of self.now).piece sectors.now) }
    {
        self.pieces.join(alloc, sectors)
    }

    /// The bytes of the sectors, one after another, where they stand so in memory and needn't be joined.
    pub fn run(&self, sectors: &[u32]) -> Option<&'a [u8]>
        ensures { IfSome result (λ bytes. bytes.now ≡ joined (store_of self.now).piece sectors.now) }
    {
        self.pieces.run(sectors)
    }

    /// The bytes of the sectors, one after another, where they are held as the entries of a directory.
    pub fn entries(&self, sectors: &[u32]) -> Option<&'a PackedEntries>
        ensures { IfSome result (λ entries. entries.now ≡ joined (store_of self.now).piece sectors.now) }
    {
        self.pieces.entries(sectors)
    }

    /// Marks the sectors of the chain from a sector on, which is to have room for `len` bytes. Where `len` is 0 there
    /// is no chain, and nothing is walked. It takes no memory, and a refusal marks none.
    ///
    /// Refused: as for `chain`, and `ShortChain` where the chain has no room for so many bytes; never `NoMemory`.
    pub fn mark_chain(&mut self, start: u32, len: u32) -> Result<(), ChainFault>
        ensures found { OnOk result ((ns : List ℕ) × IsFound self.old start len ns × (self.new ≡ marked self.old ns)) }
        ensures refused { IfErr result (MayRefuse self.old start len) }
        ensures there { (ns : List ℕ) → IsFound self.old start len ns → IfErr result (λ e. e ≡ NoMemory) }
        ensures told { IfErr result (λ e. e ≢ NoMemory) }
        ensures long { OnOk result (length (held self.old start len) ≡ len) }
        ensures holds { OnOk result ((ns : List ℕ) → IsFound self.old start len ns
            → held self.old start len ≡ take len (joined (store_of self.old).piece ns)) }
        ensures kept { OnErr result (self.new ≡ self.old) }
    {
        if len == 0 {
            return Ok(());
        }
        if self.mark_as_met(start, len) {
            return Ok(());
        }
        self.mark_counted(start, len)
    }

    /// The first `len` bytes of what the chain from a sector on holds, as far as it goes, whether its sectors are
    /// marked or not.
    pub fn held(&self, alloc: Global, start: u32, len: u32) -> Result<Vec<u8>, AllocError>
        ensures { IfOk result (λ v. v.items ≡ held self.now start len) }
    {
        let sectors = follow(alloc, &self.next, start)?;
        let mut held = self.join(alloc, &sectors)?;
        held.truncate(len as usize);
        Ok(held)
    }

    /// Whether the first bytes of what the chain from a sector on holds, as far as it goes, are these, whether its
    /// sectors are marked or not. They are compared where they stand, sectors in a row at once, and joined only where
    /// they aren't seen to be the same so.
    pub fn holds(&self, alloc: Global, start: u32, bytes: &[u8]) -> Result<bool, AllocError>
        ensures { IfOk result (λ same. IsTrue same ↔ bytes.now ≡ held self.now start (length bytes.now)) }
    {
        let sectors = follow(alloc, &self.next, start)?;
        if self.pieces.show(&sectors, bytes) {
            return Ok(true);
        }
        let mut held = self.join(alloc, &sectors)?;
        held.truncate(bytes.len());
        Ok(bytes == held.as_slice())
    }

    /// The table of the mini stream of `size` bytes that begins at `start`, with the mini FAT that the header names.
    /// The sectors of both chains are marked. A refusal marks none.
    ///
    /// Refused: as for `mark_chain`, for either chain; then `NoMemory`.
    pub fn mini(
        &mut self,
        alloc: Global,
        header: &Header,
        start: u32,
        size: u32,
    ) -> Result<Fat<'a>, ChainFault>
        ensures found { IfOk result (λ m. (mini_fat : List ℕ) × (mini_stream : List ℕ)
            × IsMiniFound self.old header.now.first_mini_fat header.now.mini_fat_count start size mini_fat mini_stream
            × IsMiniTable self.old (take header.now.mini_fat_count mini_fat) mini_stream size m
            × (self.new ≡ marked self.old (mini_fat ++ mini_stream))) }
        ensures refused { IfErr result (MayRefuseMini self.old header.now start size) }
        ensures there { (mini_fat : List ℕ) → (mini_stream : List ℕ)
            → IsMiniFound self.old header.now.first_mini_fat header.now.mini_fat_count start size mini_fat mini_stream
            → IfErr result (λ e. e ≡ NoMemory) }
        ensures kept { OnErr result (self.new ≡ self.old) }
    {
        let count = header.mini_fat_count() as usize;
        let mini_fat = self.find(
            alloc,
            header.first_mini_fat(),
            512 * header.mini_fat_count() as u64,
        )?;
        self.mark(&mini_fat);
        match self.mini_table(alloc, &mini_fat[..count], start, size) {
            Ok(mini) => Ok(mini),
            Err(fault) => {
                self.clear(&mini_fat);
                Err(fault)
            }
        }
    }

    /// The table of the mini stream of `size` bytes that begins at `start`, whose mini FAT lies in these sectors. The
    /// mini stream's sectors are marked.
    fn mini_table(
        &mut self,
        alloc: Global,
        mini_fat: &[u32],
        start: u32,
        size: u32,
    ) -> Result<Fat<'a>, ChainFault>
        requires present { All (λ n. n < length self.old.table) mini_fat.now }
        requires few { length mini_fat.now < 2 ^ 32 }
        ensures found { IfOk result (λ m. (mini_stream : List ℕ) × IsFound self.old start size mini_stream
            × IsMiniTable self.old mini_fat.now mini_stream size m
            × (self.new ≡ marked self.old mini_stream)) }
        ensures refused { IfErr result (MayRefuse self.old start size) }
        ensures there { (ns : List ℕ) → IsFound self.old start size ns → IfErr result (λ e. e ≡ NoMemory) }
        ensures kept { OnErr result (self.new ≡ self.old) }
    {
        let mini_stream = self.find(alloc, start, size as u64)?;
        let mini = self.mini_over(alloc, mini_fat, &mini_stream, size)?;
        self.mark(&mini_stream);
        Ok(mini)
    }

    /// The table of the mini stream of `size` bytes that lies in some sectors, with the mini FAT that lies in others.
    fn mini_over(
        &self,
        alloc: Global,
        mini_fat: &[u32],
        mini_stream: &[u32],
        size: u32,
    ) -> Result<Fat<'a>, AllocError>
        requires present { All (λ n. n < length self.now.table) mini_fat.now }
        requires few { length mini_fat.now < 2 ^ 32 }
        requires there { All (λ n. n < length self.now.table) mini_stream.now }
        requires either { (self.now.width ≡ 512) ⊎ (self.now.width ≡ 64) }
        ensures { IfOk result (IsMiniTable self.now mini_fat.now mini_stream.now size) }
    {
        let pieces = self.mini_pieces(alloc, mini_stream)?;
        let count = (128 * mini_fat.len()).min((size as usize + 63) / 64);
        let next = self.mini_links(alloc, mini_fat, count)?;
        let used = vec![in alloc; false; count]?;
        Ok(Fat { pieces, next, used })
    }

    /// The first entries of a mini FAT that lies in these sectors.
    fn mini_links(
        &self,
        alloc: Global,
        sectors: &[u32],
        count: usize,
    ) -> Result<Links<'a>, AllocError>
        requires present { All (λ n. n < length self.now.table) sectors.now }
        requires either { (self.now.width ≡ 512) ⊎ (self.now.width ≡ 64) }
        requires fits { count < 2 ^ 60 }
        ensures count { IfOk result (λ l. length l ≡ count) }
        ensures each { IfOk result (λ l. (k : ℕ) → k < count → slice_index l k
            ≡ u32_at (joined (store_of self.now).piece sectors.now) (4 * k)) }
    {
        if let Some(bytes) = self.run(sectors) {
            if count <= bytes.len() / 4 {
                return Ok(Links::over(bytes, count));
            }
        }
        let entries = self.join(alloc, sectors)?;
        let numbers = numbers(alloc, &entries, count)?;
        Ok(Links::of(numbers))
    }

    /// The mini sectors of a mini stream that lies in these sectors.
    fn mini_pieces(&self, alloc: Global, sectors: &[u32]) -> Result<Pieces<'a>, AllocError>
        requires { All (λ n. n < length self.now.table) sectors.now }
        ensures bytes { IfOk result (λ p. bytes_of p ≡ joined (store_of self.now).piece sectors.now) }
        ensures start { IfOk result (λ p. start_of p ≡ 0) }
        ensures width { IfOk result (λ p. width_of p ≡ 64) }
    {
        if let Some(stream) = self.run(sectors) {
            return Ok(Pieces::MiniRun(stream));
        }
        if let Pieces::Sectors(Image::Placed(file)) = &self.pieces {
            let own = Vec::from_slice(alloc, sectors)?;
            return Ok(Pieces::MiniPlaced(file, own));
        }
        let stream = self.join(alloc, sectors)?;
        Ok(Pieces::MiniSectors(stream))
    }

    /// The least sector that is free: in the table, not marked, and with the value of a sector that isn't used.
    pub fn free_sector(&self) -> Option<u32>
        ensures found { IfSome result (λ n. IsFree self.now n × (slice_index self.now.table n ≡ FREE_SECTOR)) }
        ensures least { IfSome result (λ n. (k : ℕ) → k < n → IsFree self.now k
            → slice_index self.now.table k ≢ FREE_SECTOR) }
        ensures none { IfNone result ((k : ℕ) → IsFree self.now k → slice_index self.now.table k ≢ FREE_SECTOR) }
    {
        for n in 0..self.next.len() {
            if self.next.entry(n) == FREE_SECTOR && !self.used[n] {
                return Some(n as u32);
            }
        }
        None
    }

    /// The chain from a sector on with room for `len` bytes, or none where `len` is 0, marking nothing.
    fn find(&self, alloc: Global, start: u32, len: u64) -> Result<Vec<u32>, ChainFault>
        ensures found { IfOk result (λ v. IsFound self.now start len v.items) }
        ensures refused { IfErr result (MayRefuse self.now start len) }
        ensures some { IfErr result (λ e. 0 < len) }
        ensures there { (ns : List ℕ) → IsFound self.now start len ns → IfErr result (λ e. e ≡ NoMemory) }
        ensures either { (self.now.width ≡ 512) ⊎ (self.now.width ≡ 64) }
    {
        let count = self.room(start, len)?;
        if len == 0 {
            return Ok(Vec::new(alloc));
        }
        let sectors = self.listed(alloc, start, count)?;
        Ok(sectors)
    }

    /// How many sectors the chain from a sector on has, which is to have room for `len` bytes; none is walked where
    /// `len` is 0.
    fn room(&self, start: u32, len: u64) -> Result<usize, ChainFault>
        ensures counted { IfOk result (λ count. 0 < len → (ns : List ℕ) × IsFreeChain self.now start ns
            × IsFound self.now start len ns × (length ns ≡ count)) }
        ensures refused { IfErr result (MayRefuse self.now start len) }
        ensures some { IfErr result (λ e. 0 < len) }
        ensures there { (ns : List ℕ) → IsFound self.now start len ns → IfErr result (λ e. e ≡ NoMemory) }
        ensures told { IfErr result (λ e. e ≢ NoMemory) }
        ensures few { length self.now.table ≤ 0xFFFFFFF9 }
        ensures either { (self.now.width ≡ 512) ⊎ (self.now.width ≡ 64) }
    {
        let width = self.pieces.width();
        if len == 0 {
            return Ok(0);
        }
        let count = self.count(start)?;
        if ((width * count) as u64) < len {
            return Err(ChainFault::ShortChain);
        }
        Ok(count)
    }

    /// How many sectors the chain from a sector on has.
    fn count(&self, start: u32) -> Result<usize, ChainFault>
        ensures counted { IfOk result (λ count. (ns : List ℕ) × IsFreeChain self.now start ns × (length ns ≡ count)) }
        ensures refused { IfErr result (MayRefuse self.now start 0) }
        ensures told { IfErr result (λ e. e ≢ NoMemory) }
        ensures few { length self.now.table ≤ 0xFFFFFFF9 }
        ensures short { IfOk result (λ count. count ≤ length self.now.table) }
    {
        let mut count = 0;
        let mut at = start;
        // A sector that was met, taken anew each time the way is twice as long: a circle comes back to it soon.
        let mut met = END_OF_CHAIN;
        let mut turn = 0;
        while at != END_OF_CHAIN {
            let n = at as usize;
            if n >= self.next.len() {
                return Err(ChainFault::OutOfFile);
            }
            if self.used[n] {
                return Err(ChainFault::CrossLinked);
            }
            if at == met {
                return Err(ChainFault::Cycle);
            }
            if count >= self.next.len() {
                return Err(ChainFault::Cycle);
            }
            if count >= turn {
                met = at;
                turn = 2 * count + 1;
            }
            count += 1;
            at = self.next.entry(n);
        }
        Ok(count)
    }

    /// The chain from a sector on, which has so many sectors.
    fn listed(&self, alloc: Global, start: u32, count: usize) -> Result<Vec<u32>, ChainFault>
        requires there { (ns : List ℕ) × IsFreeChain self.now start ns × (length ns ≡ count) }
        requires few { length self.now.table ≤ 0xFFFFFFF9 }
        ensures linked { IfOk result (λ v. IsChain (store_of self.now) start 0 v.items) }
        ensures free { IfOk result (λ v. AreFree self.now v.items) }
        ensures counted { IfOk result (λ v. length v.items ≡ count) }
        ensures refused { IfErr result (λ e. e ≡ NoMemory) }
    {
        let mut sectors = Vec::with_capacity(alloc, count)?;
        let mut at = start;
        while at != END_OF_CHAIN {
            sectors.push(at)?;
            at = self.next.entry(at as usize);
        }
        Ok(sectors)
    }

    /// Marks sectors as used, of which none may be used before.
    fn mark_apart(&mut self, sectors: &[u32]) -> Result<(), ChainFault>
        requires { All (λ n. n < length self.old.table) sectors.now }
        ensures marks { OnOk result (self.new ≡ marked self.old sectors.now) }
        ensures free { OnOk result (AreFree self.old sectors.now) }
        ensures refused { IfErr result (λ e. (e ≡ CrossLinked) × (AreFree self.old sectors.now → ⊥)) }
    {
        for n in sectors {
            let sector = *n as usize;
            if self.used[sector] {
                return Err(ChainFault::CrossLinked);
            }
            self.used[sector] = true;
        }
        Ok(())
    }

    /// Marks sectors as used.
    fn mark(&mut self, sectors: &[u32])
        requires { All (λ n. n < length self.old.table) sectors.now }
        ensures { self.new ≡ marked self.old sectors.now }
    {
        for n in sectors {
            self.used[*n as usize] = true;
        }
    }

    /// Marks the sectors of the chain from a sector on, which has so many sectors.
    fn mark_from(&mut self, start: u32, count: usize)
        requires { (ns : List ℕ) × IsFreeChain self.old start ns × (length ns ≡ count) }
        ensures { (ns : List ℕ) → IsFreeChain self.old start ns → length ns ≡ count → self.new ≡ marked self.old ns }
    {
        let mut at = start;
        for _ in 0..count {
            let n = at as usize;
            at = self.next.entry(n);
            self.used[n] = true;
        }
    }

    /// Marks the sectors of the chain from a sector on as it meets them, where the chain has room for `len` bytes, and
    /// tells whether it has. Where there is no such chain, the marks are as they were.
    fn mark_as_met(&mut self, start: u32, len: u32) -> bool
        ensures marks { result ≡ true → (ns : List ℕ) × IsFreeChain self.old start ns
            × (len ≤ self.old.width * length ns) × (self.new ≡ marked self.old ns) }
        ensures kept { result ≡ false → self.new ≡ self.old }
        ensures few { length self.old.table ≤ 0xFFFFFFF9 }
    {
        let width = self.pieces.width();
        let walk = self.next.mark_walk(start, self.used.as_mut_slice());
        if walk.stop == END_OF_CHAIN && len as usize <= width * walk.count {
            return true;
        }
        self.next.clear_walk(start, walk, self.used.as_mut_slice());
        false
    }

    /// Marks the sectors of the chain from a sector on, which is to have room for `len` bytes, once it has counted
    /// them: where there is no such chain, that tells what is wrong.
    fn mark_counted(&mut self, start: u32, len: u32) -> Result<(), ChainFault>
        requires { 0 < len }
        ensures found { OnOk result ((ns : List ℕ) × IsFound self.old start len ns × (self.new ≡ marked self.old ns)) }
        ensures refused { IfErr result (MayRefuse self.old start len) }
        ensures there { (ns : List ℕ) → IsFound self.old start len ns → IfErr result (λ e. e ≡ NoMemory) }
        ensures told { IfErr result (λ e. e ≢ NoMemory) }
        ensures long { OnOk result (length (held self.old start len) ≡ len) }
        ensures holds { OnOk result ((ns : List ℕ) → IsFound self.old start len ns
            → held self.old start len ≡ take len (joined (store_of self.old).piece ns)) }
        ensures kept { OnErr result (self.new ≡ self.old) }
    {
        let count = self.room(start, len as u64)?;
        self.mark_from(start, count);
        Ok(())
    }

    /// Takes back marks.
    fn clear(&mut self, sectors: &[u32])
        requires { All (λ n. n < length self.old.table) sectors.now }
        ensures { (f : FatValue) → self.old ≡ marked f sectors.now → AreFree f sectors.now → self.new ≡ f }
    {
        for n in sectors {
            self.used[*n as usize] = false;
        }
    }
}
