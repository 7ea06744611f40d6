//! Listings as they are asked for.

use crate::json_form::value;
use crate::lines_form::lines;
use crate::long_form::rows;
use read_outlines::outline::Outline;
use std::alloc::{AllocError, Global};

/// How the outline of a file is told.
#[derive(Clone, Copy)]
pub enum Listing {
    /// A line for each entry.
    Lines,
    /// One JSON value.
    Json,
    /// Columns for eyes.
    Long,
}

impl Listing {
    ghost use Rattle.tell_forms.specs.Listings.{listing_of, told};
    ghost use Rattle.std.specs.Prelude.{◌≡◌, IfOk};

    /// The listing that is asked for: a JSON value, or columns, or else lines.
    pub fn of(is_json: bool, is_long: bool) -> Listing
        ensures { result ≡ listing_of is_json is_long }
    {
        if is_json {
            Listing::Json
        } else if is_long {
            Listing::Long
        } else {
            Listing::Lines
        }
    }

    /// What is told of an outline.
    ///
    /// Refused for want of memory alone.
    pub fn text(self, alloc: Global, outline: &Outline) -> Result<Vec<u8>, AllocError>
        ensures { IfOk result (λ text. text.items ≡ told self outline.now) }
    {
        match self {
            Listing::Lines => lines(alloc, outline),
            Listing::Json => value(alloc, outline),
            Listing::Long => rows(alloc, outline),
        }
    }
}
