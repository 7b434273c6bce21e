//! Pins that are lent.

use place_parts::pins::PinParts;

/// A pin of the design that is lent from the statements that were read.
#[derive(Clone, Copy, Drop)]
pub(crate) struct LentPin<'r, 't> {
    pub(crate) pin: &'r PinParts<'t>,
}
