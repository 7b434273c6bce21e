//! The entries of a design by their nets.
//!
//! Begin with `entries_by_net`, which gives the entries of NETS and of SPECIALNETS by the names of their nets, each name once, in the
//! order in which it comes first (`NetGroups`). Each name's place is asked of the caller (`NetPlaces`), whose table of nets is then the
//! only one that hashes names; a caller that has none hands in `NamePlaces`. `is_power` tells whether some entries of a net say that it
//! is of power. `specs/NetEntries` says what the groups are, `specs/Places` what a place is; what an entry says of its net is `wired_of`
//! of `connection_rules/specs/NetParts`.
//!
//! Entries are lent by the statements that were read, as `LentEntry`, and names by their text. The one error is `AllocError`.
#![tactic(auto)]

mod entries;
mod entry_list;
mod lent_entry;
mod net_groups;
mod net_names;
mod net_places;
mod power;

pub use entries::entries_by_net;
pub use lent_entry::LentEntry;
pub use net_groups::NetGroups;
pub use net_places::{NamePlaces, NetPlaces};
pub use power::is_power;
