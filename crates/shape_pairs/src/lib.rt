//! All pairs of rectangles that meet, found by the bins of a grid, each pair once.
//!
//! Begin with `for_meeting_pairs`, which folds a closure over the pairs of a list of `Numbered` rectangles that share a point.
//! `specs/Pairs` says what it does, `LeadsOverMeetingPairs`, over the definitions of `shape_rules/specs/Meeting`. In which
//! order the pairs come is left open. What the calls lead to follows from what each call does by `leads_by` of
//! `proofs/Leading`.
//!
//! The laws say what a caller needs of pairs: `meeting_pairs_have_the_lines` that the lines of all pairs of things are those of
//! the pairs whose boxes meet, where others have none, `same_pairs_have_the_lines` that they are those of these pairs in any
//! order, and `pairs_of_mapped` that the pairs of what a function gives are those of the things. `proofs/PairLemmas` has them
//! for any types.
//!
//! Rectangles are copied, and nothing is lent. Up to 64 rectangles take no memory. For more their places are kept by the bins
//! that they cover, in two lists of 8 bytes an entry: one has an entry for each bin, of which there are at most as many as
//! rectangles, the other one for each bin that a rectangle covers, four for each rectangle at most on the average while
//! coordinates lie within plus or minus 2^61. That is 40 bytes for each rectangle at most; want of memory is an `AllocError`. The
//! bins are of one size, so that rectangles which crowd into few bins are compared pair by pair.
#![tactic(auto)]

mod bins;
mod direct;
mod grid;
mod laws;
mod pairs;
mod runs;

pub use laws::{meeting_pairs_have_the_lines, pairs_of_mapped, same_pairs_have_the_lines};
pub use pairs::{Numbered, for_meeting_pairs};
