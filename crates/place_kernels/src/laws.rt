//! Laws of the definitions.

ghost use Rattle.place_kernels.specs.Laws.{SitesAreHeld, SpansBetweenEnds, RowOrients, TurnedSizes, StarlessMatchesItself, StarMatchesAnyBytes, StarMatchesAll};

/// A row holds the box of each of its sites, and that box is on its sites.
pub fn sites_are_held()
    ensures { SitesAreHeld }
{}

/// The first and the last site of a line are its ends: one is leftmost, and one is rightmost.
pub fn spans_between_ends()
    ensures { SpansBetweenEnds }
{}

/// A row takes its own orientation, and the one that turns as its own does and then flips about the y axis.
pub fn row_orients()
    ensures { RowOrients }
{}

/// A turned site is as wide and as high as its turned rectangle.
pub fn turned_sizes()
    ensures { TurnedSizes }
{}

/// A pattern without a star matches itself alone.
pub fn starless_matches_itself()
    ensures { StarlessMatchesItself }
{}

/// A name matches two patterns with a star between them where its front matches the first and its end the second.
pub fn star_matches_any_bytes()
    ensures { StarMatchesAnyBytes }
{}

/// Each name matches a star.
pub fn star_matches_all()
    ensures { StarMatchesAll }
{}
