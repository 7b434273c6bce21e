//! The pieces of the wires of a design, from the statements of its text.
//!
//! Begin with `net_pieces`, the pieces of all wires of an entry of NETS, and `special_net_pieces`, those of SPECIALNETS;
//! `net_path_pieces` and `special_path_pieces` have those of one path. Who knows the design says what wires are made by: those
//! of NETS by their nondefault rule (`NetMakingsOf`), those of SPECIALNETS by their width (`SpecialMakingsOf`).
//!
//! What they give is defined in `specs/PiecesBy`; by the rules of a design it is `net_rules/specs/WirePieces` (the law
//! `pieces_of_design`). Paths become items in numbers on the way (`WireItems`, `entry_rules/specs/WireItems`). The other files
//! of `specs/` say what is left of an entry that is gone over.
//!
//! Names in pieces are those of the text and of the rules. Nothing takes memory and nothing fails.
#![tactic(auto)]

mod beginning;
mod entry_pieces;
mod item_numbers;
mod items;
mod laws;
mod made_wires;
mod makings_of;
mod pieces;
mod used_vias;
mod wire_rule;

pub use entry_pieces::{EntryPieces, NetPieces, SpecialNetPieces, net_pieces, special_net_pieces};
pub use items::{ItemParts, NetItems, SpecialItems, WireItems};
pub use laws::pieces_of_design;
pub use made_wires::{MadeWires, NetWires, SpecialNetWires};
pub use makings_of::{NetMakingsOf, SpecialMakingsOf};
pub use pieces::{net_path_pieces, special_path_pieces};
