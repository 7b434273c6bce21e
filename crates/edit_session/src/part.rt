//! A part of the lines of a report that followed an edit.

ghost use Rattle.std.specs.Prelude.{◌≡◌, None};

use kept_lines::KeptLines;
use std::alloc::{Allocator, Global};

/// The lines of a part, if they followed, and how many pairs of rectangles were compared for them. Where they didn't, none are counted.
#[derive(Drop)]
pub(crate) struct FollowedPart<A: Allocator + Copy = Global> {
    pub(crate) lines: Option<KeptLines<A>>,
    pub(crate) tests: u64,
}

impl<A: Allocator + Copy> FollowedPart<A> {
    /// No lines.
    pub(crate) fn none() -> FollowedPart<A>
        ensures lines { result.lines ≡ None }
        ensures tests { result.tests ≡ 0 }
    {
        FollowedPart {
            lines: None,
            tests: 0,
        }
    }
}
