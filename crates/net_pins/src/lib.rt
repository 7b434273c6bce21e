//! The pins of a net that count, as parts of a `NetList`.
//!
//! Begin with `Pins::new`, which reads once which pins of a design name a net, and `Pins::walk`, also once, for what is kept from one
//! net to the next. `put_pins` puts those of a net that count behind the parts of the last net: those that its entries list, and
//! those of the design that name it, each once. What pins a net
//! has is said in `connection_rules/specs`: `Terminals` (`net_pins`), `PinShapes` and `NetParts` (`pin_parts`). A pin counts where
//! it has a shape on a layer of TYPE ROUTING or CUT, placed or not.
//!
//! `specs/Counting` says what one pin more does to the nets and to the pins that were seen, `specs/MacroPins` and `specs/PortsLeft`
//! have the shapes of pins layer by layer and clause by clause, and `specs/FoundPins` the pins of macros by the names of both.
//! `Pins` is seen as its library and its design, which it borrows, with the names in them, and `PinWalk` as its library and the pins
//! that it saw. A call looks up what the entries name, and goes over all components only where a terminal is of each of them. A walk
//! keeps the pins of macros and the layers that were looked up last, since a design names the same few macros again and again.
//!
//! The one error is `AllocError`; then pins of the net may be missing.
#![tactic(auto)]

/// What `?` does with a `Result` whose error is the caller's. Written as a `match` it has less to prove at each way out.
macro_rules! or_error {
    ($result:expr) => {
        match $result {
            Ok(value) => value,
            Err(error) => return Err(error),
        }
    };
}

mod cell_frame;
mod cell_place;
mod component_pins;
mod design_pins;
mod found_pin;
mod last_pins;
mod last_rects;
mod lent_pin;
mod listed_pins;
mod macro_pins;
mod pin_walk;
mod pins;
mod port_place;
mod ports;
mod pushing;
mod seen_pins;
mod sources;

pub use pin_walk::PinWalk;
pub use pins::Pins;
