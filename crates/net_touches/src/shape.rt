//! Shapes of nets.

use net_lists::{NetHead, NetShape};

/// A shape of a net, with the head of its net, and whether it is drawn and not a pin's.
#[derive(Clone, Copy)]
pub struct ShapeOfNet<'n, 't: 'n> {
    pub shape: &'n NetShape,
    pub head: &'n NetHead<'t>,
    pub is_drawn: bool,
}
