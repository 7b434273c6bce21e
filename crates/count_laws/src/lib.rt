//! Laws of the lines on the numbers in sections' headers.
//!
//! Each law is an empty function that ensures it; call it to use it.
#![tactic(auto)]

ghost use Rattle.count_laws.specs.Counts.{CountsAreBySection};

/// In a text that reads the lines on headers are those of its sections, by each section's header and its entries alone.
pub fn counts_are_by_section()
    ensures { CountsAreBySection }
{}
