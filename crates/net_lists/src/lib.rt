//! The nets of a design with their parts and shapes, in three flat lists.
//!
//! Begin with `NetList::new`, and put nets in one after the other: `begin_net`, for each of its parts `begin_part`, and for each
//! shape of the part `push_shape`. Contracts see the list as `List Net` of `connection_rules/specs/NetParts`; `specs/Building`
//! says what each call adds, and the laws `building_a_net`, `building_steps` and `growing_nets` say that a net that is put in part
//! by part and shape by shape stands whole behind the others. A loop keeps `with_parts` or `with_shapes` of what it has left.
//!
//! `heads` lends each net's name (`specs/Heads`), `shapes` all shapes, and `nets` the nets one after the other, each with its
//! head, its parts and its shapes (`specs/NetViews`), and `part_views` the parts of one, which say whether a shape is a pin's.
//!
//! Names are borrowed from the text; a part takes 8 bytes and a shape 40. The one error is `AllocError`, which leaves the list
//! as it was.
#![tactic(auto)]

mod laws;
mod net_list;
mod net_view;
mod nets;
mod part_views;
mod parts;

pub use laws::{building_a_net, building_steps, growing_nets};
pub use net_list::NetList;
pub use net_view::NetView;
pub use nets::Nets;
pub use part_views::{PartView, PartViews};
pub use parts::{NetHead, NetShape, PartHead};
