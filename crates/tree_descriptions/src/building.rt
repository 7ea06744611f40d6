//! Trees that are built from descriptions.

ghost use Rattle.tree_descriptions.specs.Building.{Builds, IsBuilt, IsDescribed, room};
ghost use Rattle.tree_descriptions.specs.Run.{IsRun};
ghost use Rattle.tree_descriptions.specs.Description.{Refuses, of_tree, nothing, stream_made, zero_class};
ghost use Rattle.std.specs.Prelude.{◌≡◌, ◌+◌, ◌<◌, ◌≤◌, List, [], ℕ, Ok, false, length, is_ok, replicate, IfErr, IfOk};
ghost use Rattle.std.specs.Prelude.{OnOk};
ghost use Rattle.tree_storage.specs.Change.{inner, look};
ghost use Rattle.tree_storage.specs.Kept.{Kept, kept, made, put};

use crate::fault::LineFault;
use crate::run::Run;
use cfb_file::limit::MOST_BYTES;
use cfb_names::name::Name;
use std::alloc::{AllocError, Global};
use tree_storage::fault::TreeFault;
use tree_storage::tree::Tree;
use tree_values::bytes::Bytes;
use tree_values::class_id::ClassId;

/// A tree that is built, and how many bytes its streams have together. Once these are more than a file has, its streams
/// are kept without their bytes, as nothing can come of it but a refusal.
#[derive(Drop)]
pub struct Building {
    pub tree: Tree,
    pub spent: u64,
}

/// A tree, or its outline where its streams have more bytes than a file.
#[derive(Drop)]
pub enum Described {
    Whole(Tree),
    Outline(Tree),
}

impl Building {
    /// A root of class zero without children.
    pub fn new(alloc: Global) -> Building
        ensures { IsBuilt result nothing }
    {
        Building {
            tree: Tree::new(alloc, ClassId::from_bytes([0; 16]), 0),
            spent: 0,
        }
    }

    /// The tree of a run of streams.
    pub fn from_run(alloc: Global, run: Run) -> Result<Building, AllocError>
        ensures { IfOk result (λ building. (k : Kept) → IsRun run k → IsBuilt building k) }
    {
        let (tree, spent) = run.into_parts();
        Ok(Building {
            tree: tree.into_tree(alloc)?,
            spent,
        })
    }

    /// What was built.
    pub fn finish(self) -> Described
        ensures { (k : Kept) → IsBuilt self k → IsDescribed k result }
    {
        if self.spent > MOST_BYTES {
            Described::Outline(self.tree)
        } else {
            Described::Whole(self.tree)
        }
    }

    /// Whether something stands at a path.
    fn is_taken(&self, path: &[Name]) -> bool
        ensures { result ≡ is_ok (look path.now (inner (kept self.now.tree).now)) }
    {
        self.tree.get(path).is_ok()
    }

    /// Makes a storage of class zero at a path.
    pub fn make_storage(&mut self, path: &[Name]) -> Result<(), LineFault>
        ensures { (k : Kept) → IsBuilt self.old k → Builds (of_tree (made path.now zero_class 0 k)) result self.new }
    {
        match self
            .tree
            .make_storage(path, ClassId::from_bytes([0; 16]), 0)
        {
            Ok(()) => Ok(()),
            Err(fault) => Err(LineFault::from(fault)),
        }
    }

    /// Puts a new stream of these bytes at a path.
    pub fn put_bytes(&mut self, alloc: Global, path: &[Name], bytes: Bytes) -> Result<(), LineFault>
        ensures { (k : Kept) → IsBuilt self.old k → Builds (stream_made bytes k path.now) result self.new }
    {
        let size = bytes.len() as u64;
        if self.spent.saturating_add(size) > MOST_BYTES {
            return self.put_outline(alloc, path, size);
        }
        self.put_whole(path, bytes)
    }

    /// Puts a new stream of so many equal bytes at a path.
    pub fn put_filled(
        &mut self,
        alloc: Global,
        path: &[Name],
        count: u32,
        byte: u8,
    ) -> Result<(), LineFault>
        ensures { (k : Kept) → IsBuilt self.old k → Builds (stream_made (replicate count byte) k path.now) result
            self.new }
    {
        if self.spent.saturating_add(u64::from(count)) > MOST_BYTES {
            return self.put_outline(alloc, path, u64::from(count));
        }
        match filled(alloc, count, byte) {
            Ok(bytes) => self.put_whole(path, bytes),
            // Whether the stream could else have been put is told by one without bytes.
            Err(_) => match self.put_empty(alloc, path) {
                Ok(()) => Err(LineFault::NoMemory),
                Err(fault) => Err(fault),
            },
        }
    }

    /// Puts a new stream, for whose bytes there is room, at a path.
    fn put_whole(&mut self, path: &[Name], bytes: Bytes) -> Result<(), LineFault>
        requires { self.old.spent + length bytes ≤ room }
        ensures { (k : Kept) → IsBuilt self.old k → Builds (stream_made bytes k path.now) result self.new }
    {
        if path.is_empty() {
            // The root stands there.
            return Err(LineFault::Tree(TreeFault::Exists));
        }
        let size = bytes.len() as u64;
        match self.tree.make_stream(path, bytes) {
            Ok(()) => {
                self.spent += size;
                Ok(())
            }
            Err(fault) => Err(LineFault::from(fault)),
        }
    }

    /// Puts a new stream without bytes at a path. It is refused as one with bytes would be.
    fn put_empty(&mut self, alloc: Global, path: &[Name]) -> Result<(), LineFault>
        ensures same { self.new.spent ≡ self.old.spent }
        ensures free { OnOk result (is_ok (look path.now (inner (kept self.old.tree).now)) ≡ false) }
        ensures made { OnOk result (put path.now [] (kept self.old.tree) ≡ Ok (kept self.new.tree)) }
        ensures refused { IfErr result (λ fault. (k : Kept) (bytes : List ℕ) → IsBuilt self.old k
            → Refuses (stream_made bytes k path.now) fault) }
    {
        if self.is_taken(path) {
            return Err(LineFault::Tree(TreeFault::Exists));
        }
        match self.tree.put_stream(path, Bytes::new(alloc)) {
            Ok(()) => Ok(()),
            Err(fault) => Err(LineFault::from(fault)),
        }
    }

    /// Puts the outline of a new stream, for whose bytes there is no room, at a path.
    fn put_outline(&mut self, alloc: Global, path: &[Name], size: u64) -> Result<(), LineFault>
        requires { room < self.old.spent + size }
        ensures { (k : Kept) (bytes : List ℕ) → length bytes ≡ size → IsBuilt self.old k
            → Builds (stream_made bytes k path.now) result self.new }
    {
        match self.put_empty(alloc, path) {
            Ok(()) => {
                self.spent = self.spent.saturating_add(size);
                Ok(())
            }
            Err(fault) => Err(fault),
        }
    }
}

/// So many bytes that are all the same.
pub fn filled(alloc: Global, count: u32, byte: u8) -> Result<Bytes, AllocError>
    ensures { IfOk result (λ bytes. bytes ≡ replicate count byte) }
{
    Bytes::from_vec(alloc, vec![in alloc; byte; count as usize]?)
}
