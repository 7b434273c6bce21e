//! Numbers and distances of LEF and DEF texts: reading, rounding to database units, and printing.
//!
//! Begin with `whole`, a whole number of DEF, and `microns`, a distance of LEF; `Microns::units` gives the distance in
//! database units, for 1 to 100000 of them per micron, and says whether it is exact. `print` writes a number in
//! decimal.
//!
//! The definitions are in `design_model/specs/Units`: `whole` and `distance` say how numbers are written, and
//! `IsNearest` is the relation of rounding, which has exactly one solution by the law `nearest_is_unique`. A printed
//! number is lent from the caller's buffer; nothing takes memory.
//!
//! `NumFault` is `Form` for a word that isn't written as such a number, and else `Range` for one that is too great.
#![tactic(auto)]

mod digits;
mod distance;
mod distance_text;
mod laws;
mod printed;
#[cfg(test)]
mod tests;
mod whole_text;

pub use distance::{Microns, Units};
pub use distance_text::microns;
pub use laws::{few_digits_are_whole, nearest_is_unique};
pub use printed::print;
pub use whole_text::{is_whole, whole};
