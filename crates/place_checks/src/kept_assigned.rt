//! Patterns by which groups assign components to regions, with bytes of their own.

ghost use Rattle.std.specs.Prelude.{◌≡◌, true};
ghost use Rattle.place_checks.specs.Patterns.{has_star};

use design_model::sequence::Bytes;
use std::alloc::Allocator;

/// A pattern as in `Assigned`, whose bytes are its own.
#[derive(Drop)]
pub(crate) struct KeptAssigned<A: Allocator> {
    pub(crate) pattern: Bytes<A>,
    pub(crate) region: Bytes<A>,
}

/// A pattern as in `Starred`, whose bytes are its own.
#[derive(Drop)]
pub(crate) struct KeptStarred<A: Allocator> {
    pub(crate) pattern: Bytes<A>,
    pub(crate) region: Bytes<A>,
    pub(crate) ghost starred: { has_star pattern ≡ true },
}
