//! Answers on one net and on one shape, over any set of shapes.
//!
//! Begin with `pieces_of`, which says how the parts of a net hang together, or with `put_touching`, which puts the lines of one shape
//! with those of a set behind others; each also says how many shapes it compared. The set's shapes have their part's number
//! as their `net`. The parts of one net have numbers one after the other, and `PartOwners` tells whose each number is: `Owners`,
//! which is two slices, or a table of the caller's own. `put_barred_nets` and `put_barred_part` put the lines of whole nets, or of a
//! part of one, with barriers.
//!
//! What `pieces_of` says is `with_pins` and `without_pins` of `connection_rules/specs/PartClasses`, where the set holds the net's
//! parts (`HoldsParts` of `specs/Held`); what `put_touching` puts is `short_of` of `connection_rules/specs/NetLines`, of the set's shapes
//! as `net_shapes_of` of `specs/OwnedShapes` sees them, and what the other two put is `routeblock_of` there. The laws
//! `shapes_in_any_order` and `parts_in_any_order` say that the order of shapes and of parts makes no difference to what hangs
//! together, `runs_are_held` that a set which holds the parts of many nets holds those of each, and `short_is_symmetric` that the
//! line on two shapes is the same whichever comes first.
//!
//! Nothing is lent. The one error is `AllocError`, and the set stays as it was.
#![tactic(auto)]

mod barred;
mod joining;
mod laws;
mod owner;
mod pieces;
mod shorts;

pub use barred::{put_barred_nets, put_barred_part};
pub use laws::{parts_in_any_order, runs_are_held, shapes_in_any_order, short_is_symmetric};
pub use owner::{Owners, PartOwner, PartOwners};
pub use pieces::{NetState, pieces_of};
pub use shorts::put_touching;
