//! The lines on the components of a text, which follow its edits.
//!
//! Begin with `FollowedPlaces::of`, which notes the components of a text that take part, and the rectangles that keep them out, both over
//! tiles, and keeps what stands round components. For each exchange of statements that an edit of the text was made by, `follow` looks
//! at those that went out and at those that came in: unless one of them is of what stands round components, it exchanges in lines that are
//! kept the lines on their components, with the boxes and the rectangles alone that meet theirs, and the lines on the rectangles where they
//! keep components out, with those components alone whose boxes meet these. It reads these statements, and no others. It counts what it
//! compares: no more than the `near_pairs` of `specs/Tests`, before the exchange and after it.
//! `lines_on_places` makes the lines anew from a text, chunk by chunk.
//!
//! What is noted is `HasPlaces` of `specs/Places`, and with the kept lines `AreFollowed`. Statements are asked of
//! `design_text` by their numbers, lines are those of `place_checks`, and that they follow is a law of `staying_laws`.
//!
//! Nothing is lent. The one error is `AllocError`: what is noted, and the kept lines, are then to be made anew.
#![tactic(auto)]

mod anew;
mod around;
mod blocked_lines;
mod components;
mod followed;
mod halves;
mod keep_outs;
mod own_lines;

pub use anew::lines_on_places;
pub use followed::{FollowedOnPlaces, FollowedPlaces};
