//! The parts that the entries of a net draw, put into a list of nets.
//!
//! Begin with `PartWalk::new`, once for a whole drawing; it keeps the layers that were looked up last.
//! `put_drawn` puts the parts that the wires of entries and the clauses of special nets draw behind those of the last net of a
//! `net_lists::NetList`: a segment or a rectangle by itself, and a via at one place with all its shapes, each with its shapes on
//! layers of TYPE ROUTING or CUT, and only where it has some. It gives the sum of the lengths of the pieces that it went over
//! (`measure_rules/specs/Lengths`). Which parts they are is defined in `connection_rules/specs/NetParts`
//! (`drawn_parts`); `specs/Drawing` says how pieces are put in one after the other.
//!
//! The entries of one net are handed in as `net_entries` lends them, and what its wires are made by as
//! `design_wires::wires::DesignWires`, of the same library. Nothing of them is kept. The one error is `AllocError`, which may
//! leave some of the parts in the list.
#![tactic(auto)]

mod clauses;
mod drawing;
mod entries;
mod entry_pieces;
mod vias;

pub use drawing::PartWalk;
pub use entries::put_drawn;
