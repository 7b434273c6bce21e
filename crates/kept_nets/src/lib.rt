//! A net's parts, kept while some of its pins go and others come.
//!
//! Begin with `KeptNet::of`, which copies a net of a list. `exchange` takes parts out, each once, if all of them are there, and puts others
//! in; it says how many pairs of shapes it compared. `put_class_lines` gives the lines on how the net hangs together then, and `put_barred`
//! those of its shapes where routing is blocked. What an exchange takes grows with the parts near those that go and come, where these tell:
//! a pin that touches none is a class by itself, and where those that it touches hang together with another pin, also without it, nothing
//! changes. Else all parts are gone over. `pins_of` has the pins of a net of a list, `shapes_of` the shapes of parts, one after the other,
//! and `is_same_shape` compares two.
//!
//! A net is seen as `Net` of `connection_rules/specs/NetParts`; in which order its parts stand is left open once some went. What is
//! known of it beside its parts is `AreKnown` of `specs/Kept`.
//!
//! Nothing is lent but the name. The one error is `AllocError`, after which nothing is said of what was to be changed.
#![tactic(auto)]

mod counted;
mod joined;
mod joint;
mod listing;
mod looks;
mod near;
mod net;
mod part;
mod places;

pub use net::{ExchangeTests, KeptNet};
pub use part::{KeptPart, is_same_shape, pins_of, shapes_of};
