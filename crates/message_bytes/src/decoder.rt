//! Bytes as frames, in whatever pieces they come.

use crate::feeding::feed;
use crate::unfinished::Unfinished;
use message_model::fault::WireFault;
use message_model::frame::Frame;
use std::alloc::Global;
use std::collections::VecDeque;

/// Takes bytes as they come, and gives the frames that they spell.
///
/// The frames that were handed out, and those that wait, are the longest list whose byte forms, joined, are a prefix of
/// all bytes that were fed. Once the rest shows a fault, that stays.
#[derive(Drop)]
pub struct Decoder {
    alloc: Global,
    waiting: VecDeque<Frame>,
    bytes: Unfinished,
    fault: Option<WireFault>,
}

impl Decoder {
    ghost use Rattle.message_bytes.specs.Fronts.{Feeds, HandsOut, Stands};
    ghost use Rattle.message_model.specs.declared.frame.Frame.{Frame};
    ghost use Rattle.std.specs.Prelude.{◌≡◌, [], ℕ, Err, IfSome, List};

    /// A decoder that was fed nothing.
    pub fn new(alloc: Global) -> Decoder
        ensures { Stands result [] [] }
    {
        Decoder {
            alloc,
            waiting: VecDeque::new(alloc),
            bytes: Unfinished::new(),
            fault: None,
        }
    }

    /// The next frame, none where none is whole.
    ///
    /// Refused: the fault that the bytes show, once all frames before it are handed out, and ever after.
    pub fn next(&mut self) -> Result<Option<Frame>, WireFault>
        ensures { (fed : List ℕ) (taken : List Frame) → Stands self.old fed taken → HandsOut result fed taken self.new }
    {
        match self.waiting.pop_front() {
            Some(frame) => Ok(Some(frame)),
            None => match self.fault {
                Some(fault) => Err(fault),
                None => Ok(None),
            },
        }
    }

    /// Takes the next piece of the bytes.
    ///
    /// Refused: the fault that all bytes so far show, at the call that shows it and ever after; `NoMemory`, before
    /// that. After `NoMemory` the decoder is as before, and the same piece can be fed again.
    pub fn feed(&mut self, piece: &[u8]) -> Result<(), WireFault>
        ensures fed { (fed : List ℕ) (taken : List Frame) → Stands self.old fed taken
            → Feeds result fed piece.now taken self.new }
        ensures stuck { IfSome self.old.fault (λ fault. (result ≡ Err fault) × (self.new ≡ self.old)) }
    {
        match self.fault {
            Some(fault) => return Err(fault),
            None => {}
        }
        match feed(self.alloc, &mut self.bytes, piece, &mut self.waiting) {
            Ok(shown) => {
                self.fault = shown;
                match shown {
                    None => Ok(()),
                    Some(found) => Err(found),
                }
            }
            Err(_) => Err(WireFault::NoMemory),
        }
    }
}
