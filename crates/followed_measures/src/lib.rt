//! What is measured of a text, which follows its edits.
//!
//! Begin with `FollowedMeasures::of`, which measures all nets of a text and its cells; `reports` lends the answers. Before an edit of a
//! net, `told_by_net` tells what is measured of that net; before one of a component, `told_by_component` tells what is measured of the nets
//! that list it, and its box; before any other edit, `ToldMeasures::nothing` is told. After the edit, `follow` exchanges this for what is
//! measured then, where the edit left all else that is measured, and says whether it did. If not, what was measured isn't to be used any
//! more.
//!
//! `specs/FollowedMeasures` says of what text it is (`HasMeasures`), and `specs/Told` what is told. A net is measured by few statements of
//! the text, which `followed_nets` finds. Of a net that lists a pin of all components only the pins by one are exchanged: its length stays,
//! and the box round it is known where no pin that goes may have bounded it (`bounds`). Laws of `measuring_laws` say that the other nets and
//! the cells keep what is measured of them, and `specs/ExchangedNets` what becomes of the answers where nets are exchanged one after the
//! other. A net that has entries in both sections isn't told.
//!
//! Nothing is lent by the text. The one error is `AllocError`; after one of `follow` the measures are of no use.
#![tactic(auto)]

mod bounds;
mod cells;
mod component_box;
mod exchanging;
mod exchanging_nets;
mod followed;
mod told;
mod told_edit;

pub use followed::FollowedMeasures;
pub use told_edit::ToldMeasures;
