//! Shapes under the names of their nets, searched by tiles.
//!
//! Begin with `NamedShapes::of`, which keeps the shapes of all nets of a list. Those of a net are taken out by `remove` and others put
//! in by `insert`, and `put_shorts` puts the lines of a net's shapes with those of the other nets behind others. `nets_touching` has the
//! nets of shapes that touch some (`specs/Touching`). Contracts see the set as a list of shapes of nets, each with the name of its net and
//! nothing else of it (`specs/Named`), in an order that is left open.
//!
//! Names are copied, each once, and stay when the last shape of a net goes. Nothing is lent. The one error is `AllocError`, after which
//! the set isn't to be used any more.
#![tactic(auto)]

mod names;
mod near;
mod shapes;
mod shorts;

pub use near::TouchingNets;
pub use shapes::NamedShapes;
