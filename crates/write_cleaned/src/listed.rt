//! Walks over the parts of an outline.

ghost use Rattle.write_parts.specs.Blank.{blank_part, blanks};
ghost use Rattle.write_cleaned.specs.Sizes.{blank_of};
ghost use Rattle.read_outlines.specs.View.{part_view, parts_view};
ghost use Rattle.std.specs.Prelude.{◌≡◌};
ghost use Rattle.write_files.specs.Walks.{Is};

use cfb_names::name::Name;
use read_outlines::outline::{Outline, Part};
use tree_values::class_id::ClassId;
use write_files::walks::{Branch, Child, What};

/// An outline as a storage that is walked: it stands for the tree whose streams have as many bytes as it says, all
/// zero.
#[derive(Clone, Copy)]
pub struct Listed<'o> {
    pub outline: &'o Outline,
}

impl<'o> Branch for Listed<'o> {
    type Name = &'o Name;

    type Walk = &'o [(Name, Part)];

    ghost spelled = { λ name. name.now };

    ghost tree = { λ s. blank_of s.outline.now };

    ghost before = { λ walk. blanks (parts_view walk.now) };

    fn class(self) -> ClassId {
        self.outline.class
    }

    fn state(self) -> u32 {
        self.outline.state
    }

    fn count(self) -> usize {
        self.outline.parts.len()
    }

    fn walk(self) -> &'o [(Name, Part)] {
        &self.outline.parts
    }

    fn next(walk: &mut &'o [(Name, Part)]) -> Option<Child<&'o Name, Listed<'o>>> {
        match *walk {
            [] => None,
            [first, rest @ ..] => {
                *walk = rest;
                Some(Child {
                    name: &first.0,
                    what: what_of(&first.1),
                })
            }
        }
    }

    fn spell<'a>(name: &'a &'o Name) -> &'a [u8] {
        name.as_bytes()
    }
}

/// What a part of an outline is.
fn what_of(part: &Part) -> What<Listed<'_>>
    ensures { Is (λ s. blank_of s.outline.now) result (blank_part (part_view part.now)) }
{
    match part {
        Part::Stream(place) => What::Stream(place.size as usize),
        Part::Storage(outline) => What::Storage(Listed { outline }),
    }
}
