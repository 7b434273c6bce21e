//! The nets of a design: their pins and what is drawn of them, what of a net hangs together, and the lines on all that.
//!
//! A crate of definitions, with no code. Begin with `specs/NetParts`: `all_nets`, each net with its parts. `specs/PinShapes` has
//! the shapes of pins on layers of TYPE ROUTING or CUT, `specs/Terminals` which pins a net has (`net_pins`), `specs/PartClasses`
//! how many classes of parts hold a pin and how many hold none, and `specs/NetLines` the lines: `short`, `routeblock`, `open`,
//! `unrouted` and `floating` (`net_lines`).
//!
//! Lengths are in database units, of which there are u in a micron. Nothing fails.
#![tactic(auto)]
