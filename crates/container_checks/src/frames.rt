//! The frames of a container.

ghost use Rattle.std.specs.Prelude.{◌≡◌, ◌<◌, ◌++◌, ◌∷◌, [], MatchOption, None, OnErr, OnOk, length, option_copied};
ghost use Rattle.std.specs.Prelude.{slice_index_or};
ghost use Rattle.std.specs.Borrow.{sem};
ghost use Rattle.container_model.specs.Numbered.{IsNth};
ghost use Rattle.message_values.specs.Found.{nth};

use crate::lookups;
use container_model::record::Frame;
use std::alloc::{AllocError, Global};
use std::marker::Model;
use std::ops::{Index, IndexMut};

/// Frames, by their numbers from 1: a frame is never dropped, so one of number `n` stands at place `n - 1`, and is
/// found there without a walk.
#[derive(Drop)]
pub struct Frames {
    list: Vec<Frame>,
}

impl Model for Frames {
    ghost use Rattle.std.specs.Prelude.{List};
    ghost use Rattle.container_model.specs.declared.record.Frame.{Frame};

    ghost Value = { List Frame };

    ghost view = { λ s. s.list.items };
}

impl Frames {
    ghost use Rattle.container_checks.specs.Lending.{lends_all};

    /// No frames.
    pub fn new(alloc: Global) -> Frames
        ensures { result ≡ [] }
    {
        Frames {
            list: Vec::new(alloc),
        }
    }

    /// How many they are, which is the greatest number among them.
    pub fn len(&self) -> usize
        ensures { result ≡ length self.now }
    {
        self.list.len()
    }

    /// Where the frame of this number stands.
    pub fn place(&self, number: u32) -> Option<usize>
        ensures { MatchOption result (nth self.now number ≡ None) (IsNth number self.now) }
    {
        lookups::place(&self.list, number)
    }

    /// The frame of this number.
    pub fn get(&self, number: u32) -> Option<&Frame>
        ensures { option_copied result ≡ nth self.now number }
    {
        match self.place(number) {
            Some(place) => Some(&self.list[place]),
            None => None,
        }
    }

    /// All of them, by rising number.
    pub fn as_slice(&self) -> &[Frame]
        ensures { result.now ≡ self.now }
    {
        &self.list
    }

    /// All of them, by rising number, each to be changed in place.
    pub fn as_mut_slice(&mut self) -> &mut [Frame]
        ensures* writes_back { sem 𝓛 (lends_all self.entry result) }
        ensures value { result.now ≡ self.old }
    {
        self.list.as_mut_slice()
    }

    /// One more, of the next number.
    ///
    /// Refused for want of memory alone. Then nothing changes.
    pub fn push(&mut self, frame: Frame) -> Result<(), AllocError>
        ensures items { OnOk result (self.new ≡ self.old ++ frame ∷ []) }
        ensures kept { OnErr result (self.new ≡ self.old) }
    {
        self.list.push(frame)?;
        Ok(())
    }
}

impl Index<usize> for Frames {
    type Output = Frame;

    ghost can_index = { λ s i. i < length s };

    ghost index_gives = { λ s i x. x ≡ slice_index_or s i x };

    fn index(&self, place: usize) -> &Frame {
        &self.list[place]
    }
}

impl IndexMut<usize> for Frames {
    ghost use Rattle.container_checks.specs.Lending.{lends_one};

    fn index_mut(&mut self, place: usize) -> &mut Frame
        requires { place < length self.old }
        ensures* writes_back { sem 𝓛 (lends_one self.entry place result) }
        ensures value { result.now ≡ slice_index_or self.old place result.now }
    {
        &mut self.list[place]
    }
}
