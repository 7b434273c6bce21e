//! The nets of a design, with their pins and with what they draw, and their lengths.
//!
//! Begin with `nets_of`, which gives them as a `NetList`, from the entries of a design by their names and from what its wires are
//! made by, or `nets_with_lengths`, which gives the lengths of their wires too; or with `put_net`, which puts the net of one name into such a list, of power or not as it is told, and gives the length
//! of its wires (`measure_rules/specs/Lengths`), for who needs one net at a time; or with `pins_of_nets`, which gives them with their
//! pins alone, for who needs no more, and doesn't ask whether they are of power. They are `all_nets` of
//! `connection_rules/specs/NetParts`: entries of NETS and of SPECIALNETS of one name are one net, which `specs/NetGroups` says of a
//! group of entries. Entries by their nets come from `net_entries`, pins from `net_pins`, and what is drawn from `drawn_parts`.
//!
//! Names are lent by the text. The one error is `AllocError`.
#![tactic(auto)]

mod nets;
mod pins;

pub use nets::{NetsWithLengths, nets_of, nets_with_lengths, put_net};
pub use pins::pins_of_nets;
