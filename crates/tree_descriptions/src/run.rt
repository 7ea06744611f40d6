//! The streams that a description begins with.

ghost use Rattle.std.specs.Prelude.{◌≡◌, ◌≤◌, ◌+◌, ◌∷◌, [], IfSome, Ok, Some, replicate};
ghost use Rattle.tree_storage.specs.Kept.{Kept};
ghost use Rattle.tree_descriptions.specs.Commands.{line_read};
ghost use Rattle.tree_descriptions.specs.Description.{carried_out, nothing, stream_made};
ghost use Rattle.tree_descriptions.specs.Run.{IsRun, Takes, TakesLine, TakesWord};
ghost use Rattle.tree_descriptions.specs.Building.{room};

use crate::building::filled;
use crate::command::{Command, plain_stream};
use cfb_file::limit::MOST_BYTES;
use cfb_names::name::Name;
use std::alloc::Global;
use text_spelling::words::read_content;
use tree_rising::rising::Rising;
use tree_values::bytes::Bytes;
use tree_values::class_id::ClassId;

/// How long the word of a stream's bytes may be that are read into the buffer. More bytes have memory of their own, in
/// which they are read at once.
const LONGEST_WORD: usize = 32_768;

/// A tree of which so far streams of the root alone are described, in name order, and how many bytes they have
/// together, which is no more than a file has.
#[derive(Drop)]
pub struct Run {
    pub tree: Rising,
    pub spent: u64,
    // The bytes of the last line are read into it. What it has is no part of what the run stands for.
    buffer: Vec<u8>,
}

impl Run {
    /// A root of class zero without children.
    pub fn new(alloc: Global) -> Run
        ensures { IsRun result nothing }
    {
        Run {
            tree: Rising::new(alloc, ClassId::from_bytes([0; 16]), 0),
            spent: 0,
            buffer: Vec::new(alloc),
        }
    }

    /// The tree that was described, and how many bytes its streams have together.
    pub fn into_parts(self) -> (Rising, u64)
        ensures { result ≡ (self.tree, self.spent) }
    {
        let Run {
            tree,
            spent,
            buffer: _,
        } = self;
        (tree, spent)
    }

    /// Carries out the command of a line, if it makes the next stream of these, and says whether it did. Where it
    /// didn't, also for want of memory, nothing has changed.
    pub fn take_line(&mut self, alloc: Global, line: &[u8]) -> bool
        ensures { TakesLine result line.now self.old self.new }
    {
        // Neither a path nor bytes in memory of their own are made of such a line.
        if let Some((name, word)) = plain_stream(line) {
            if word.len() <= LONGEST_WORD {
                return self.take_word(alloc, &name, word);
            }
        }
        match Command::parse(alloc, line) {
            Ok(Some(command)) => self.take(alloc, command),
            Ok(None) => false,
            Err(_) => false,
        }
    }

    /// Makes the next stream, of this name in the root and of the bytes that a word spells, and says whether it did.
    fn take_word(&mut self, alloc: Global, name: &Name, word: &[u8]) -> bool
        ensures { TakesWord result name.now word.now self.old self.new }
    {
        match read_content(&mut self.buffer, word) {
            Ok(true) => self.take_read(alloc, name),
            Ok(false) => false,
            Err(_) => false,
        }
    }

    /// Makes the next stream, of this name in the root and of the bytes in the buffer, and says whether it did.
    fn take_read(&mut self, alloc: Global, name: &Name) -> bool
        ensures { Takes result (λ k. stream_made self.old.buffer.items k (name.now ∷ [])) self.old self.new }
    {
        let Some(spent) = self.spent_with(self.buffer.len()) else {
            return false;
        };
        let Ok(made) = self.tree.make_last(alloc, name, &self.buffer) else {
            return false;
        };
        if !made {
            return false;
        }
        self.spent = spent;
        true
    }

    /// Carries out a command, if it makes the next stream, and says whether it did.
    fn take(&mut self, alloc: Global, command: Command) -> bool
        ensures { Takes result (carried_out command) self.old self.new }
    {
        match command {
            Command::Storage(_) => false,
            Command::Stream(path, bytes) => match path.names() {
                Ok(names) => self.take_stream(alloc, names, bytes),
                Err(_) => false,
            },
            Command::Fill(path, count, byte) => match path.names() {
                Ok(names) => self.take_filled(alloc, names, count, byte),
                Err(_) => false,
            },
        }
    }

    /// Makes the next stream, of so many equal bytes at a path, if that is in the root, and says whether it did.
    fn take_filled(&mut self, alloc: Global, path: &[Name], count: u32, byte: u8) -> bool
        ensures { Takes result (λ k. stream_made (replicate count byte) k path.now) self.old self.new }
    {
        if self.spent.saturating_add(u64::from(count)) > MOST_BYTES {
            return false;
        }
        match filled(alloc, count, byte) {
            Ok(bytes) => self.take_stream(alloc, path, bytes),
            Err(_) => false,
        }
    }

    /// Makes the next stream, of these bytes at a path, if that is in the root, and says whether it did.
    fn take_stream(&mut self, alloc: Global, path: &[Name], bytes: Bytes) -> bool
        ensures { Takes result (λ k. stream_made bytes k path.now) self.old self.new }
    {
        let [name] = path else {
            return false;
        };
        let Some(spent) = self.spent_with(bytes.len()) else {
            return false;
        };
        let Ok(made) = self.tree.make_last_whole(alloc, name, bytes) else {
            return false;
        };
        if !made {
            return false;
        }
        self.spent = spent;
        true
    }

    /// How many bytes the streams have with so many more, where these are no more than a file has.
    fn spent_with(&self, len: usize) -> Option<u64>
        ensures { IfSome result (λ spent. (spent ≤ self.now.spent + len) × (spent ≤ room)) }
    {
        let spent = self.spent.saturating_add(len as u64);
        if spent > MOST_BYTES {
            None
        } else {
            Some(spent)
        }
    }
}
