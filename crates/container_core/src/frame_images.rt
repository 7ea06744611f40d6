//! The images of frames' files: of each frame the one that was counted last, and the one of its commit that isn't
//! counted yet.

ghost use Rattle.std.specs.Prelude.{◌≡◌, None, Some, option_copied, replicate};
ghost use Rattle.container_core.specs.FrameImages.{counted, image_at, lost, settled, started};
ghost use Rattle.message_values.specs.Found.{set_nth};

use container_model::answer::Answer;
use container_model::fault::ContainerFault;
use std::mem::replace;
use store_images::image::Image;

/// The images of 8 frames, by their numbers from 1. What is kept of a frame is two images at most, and nothing grows
/// with their count.
#[derive(Drop)]
pub(crate) struct Images {
    /// What was counted last.
    committed: [Option<Image>; 8],
    /// What is counted if the commit is that is asked for or in doubt.
    next: [Option<Image>; 8],
}

// No image of any frame.
fn none() -> [Option<Image>; 8]
    ensures { result ≡ replicate 8 None }
{
    [None, None, None, None, None, None, None, None]
}

// The image of a frame, if any.
fn image_at(images: &[Option<Image>; 8], f: u32) -> Option<&Image>
    ensures { option_copied result ≡ image_at images.now f }
{
    if f == 0 {
        return None;
    }
    let place = (f - 1) as usize;
    if place >= images.len() {
        return None;
    }
    match &images[place] {
        Some(image) => Some(image),
        None => None,
    }
}

// Puts an image of a frame, or none, in the place of what there was, and gives that.
fn put_at(images: &mut [Option<Image>; 8], f: u32, image: Option<Image>) -> Option<Image>
    ensures was { result ≡ image_at images.old f }
    ensures put { images.new ≡ set_nth images.old f image }
{
    if f == 0 {
        return None;
    }
    let place = (f - 1) as usize;
    if place >= images.len() {
        return None;
    }
    replace(&mut images[place], image)
}

impl Images {
    /// No images.
    pub(crate) fn new() -> Images
        ensures { result ≡ record { committed = replicate 8 None; next = replicate 8 None } }
    {
        Images {
            committed: none(),
            next: none(),
        }
    }

    /// The image of a frame that was counted last, if it is known.
    pub(crate) fn committed(&self, f: u32) -> Option<&Image>
        ensures { option_copied result ≡ image_at self.now.committed f }
    {
        image_at(&self.committed, f)
    }

    /// Takes the image of a frame's commit that isn't counted yet.
    pub(crate) fn put(&mut self, f: u32, image: Image)
        ensures { self.new ≡ record self.old { next = set_nth self.old.next f (Some image) } }
    {
        let _ = put_at(&mut self.next, f, Some(image));
    }

    // The image of a frame's commit is its committed one. Where there is no such image, none is known of the frame.
    fn count(&mut self, f: u32)
        ensures { self.new ≡ counted f self.old }
    {
        let next = put_at(&mut self.next, f, None);
        let _ = put_at(&mut self.committed, f, next);
    }

    // The image of a frame's commit goes, and the committed one stays.
    fn lose(&mut self, f: u32)
        ensures { self.new ≡ lost f self.old }
    {
        let _ = put_at(&mut self.next, f, None);
    }

    /// Where the container took it that a commit was kept or lost, its image is the frame's committed one, or goes.
    pub(crate) fn settle(&mut self, f: u32, is_kept: bool, told: &Result<Answer, ContainerFault>)
        ensures { self.new ≡ settled f is_kept told.now self.old }
    {
        let Ok(_) = told else {
            return;
        };
        if is_kept {
            self.count(f);
        } else {
            self.lose(f);
        }
    }

    /// Where a file was opened, its image is the committed one of the frame that the answer tells.
    pub(crate) fn start(&mut self, opened: &Result<Answer, ContainerFault>, image: Image)
        ensures { self.new ≡ started opened.now image self.old }
    {
        let Ok(answer) = opened else {
            return;
        };
        let Some(f) = answer.frame else {
            return;
        };
        let _ = put_at(&mut self.committed, f, Some(image));
        let _ = put_at(&mut self.next, f, None);
    }
}
