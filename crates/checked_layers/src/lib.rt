//! Layers of TYPE ROUTING or CUT by their names: those on which shapes connect.
//!
//! `checked_layer` gives the place of such a layer among the layers of a library, and `LastLayers`, which borrows one library, the
//! same without a hash where a name comes again and again. The law `checked_one_by_one` says what it means for shapes by the names
//! of their layers. Nothing takes memory and nothing fails.
#![tactic(auto)]

mod by_name;
mod last_layers;
mod laws;

pub use by_name::checked_layer;
pub use last_layers::LastLayers;
pub use laws::checked_one_by_one;
