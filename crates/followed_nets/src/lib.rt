//! The lines on the nets of a text, which follow its edits.
//!
//! Begin with `FollowedNets::of`, which notes the nets of a text. Before an edit, `touched_by_net`, `touched_by_component` and
//! `touched_by_pin` tell which nets it is about to change; after it, `follow` gives the lines from those before, where it changed no
//! others, and how many pairs of shapes were compared for them (`specs/Tests`). What is noted follows then, too, and else isn't to be
//! used any more.
//!
//! A net is told by few statements of the text (`told`), its entries among them (`entries`), and exchanged as a whole. Its shapes are
//! compared with each other to find how its parts hang together, and with those of other nets; both is counted. A net that lists a pin of
//! all components is kept with its parts, and an edit of a component exchanges its pins of that component (`star_pins`, `star_exchange`); of
//! its entries only the name and the terminals are read then, which are kept without the wiring, as one entry (`heads`). What is compared
//! there is counted too (`specs/StarTests`). Both are pieces of `specs/Pieces`: first all that go are taken out, then all that come are put
//! in (`exchanging`).
//!
//! Pins of the design are read for each net that is told, with what any net may be made of, by numbers that are noted; after an edit of one
//! the numbers are exchanged, too (`numbers`).
//!
//! Where routing is blocked tells no net: an edit that changes it goes and comes by the rectangles of the statements that it exchanges, and
//! the nets that have shapes there are told for their lines with these (`blocked`, `exchanging_bars`).
//!
//! Who follows something else of nets finds the statements that tell one by `common_numbers` and `told_statements`, and whether an edit
//! leaves all other nets by `exchanges_are_within`; for an edit of a component, which nets list it, and its pins of those that list a pin of
//! all components, by `StarHeads`.
#![tactic(auto)]

mod blocked;
mod changed_shapes;
pub mod entries;
mod exchanging;
mod exchanging_bars;
mod followed;
mod heads;
mod listed;
mod noted;
mod numbers;
mod star_exchange;
mod star_heads;
mod star_pins;
mod stars;
mod taking_bars;
mod told;
pub mod told_statements;
mod touched;
mod within;

pub use exchanging::FollowedOnNets;
pub use followed::FollowedNets;
pub use noted::common_numbers;
pub use star_heads::{StarHeads, ToldPins};
pub use touched::TouchedNets;
pub use within::{EditSubject, exchanges_are_within};
