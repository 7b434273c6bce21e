//! Heads of nets and of their parts, and shapes.

ghost use Rattle.std.specs.Prelude.{◌≡◌, ◌+◌, IfOk};

use design_model::geometry::Rect;
use design_model::identifier::LayerId;
use std::alloc::AllocError;

/// A shape of a net, in database units.
#[derive(Clone, Copy)]
pub struct NetShape {
    pub layer: LayerId,
    pub rect: Rect,
}

/// A part of a net: whether it is a pin, and how many shapes it has.
#[derive(Clone, Copy)]
pub struct PartHead {
    pub is_pin: bool,
    pub shapes: u32,
}

impl PartHead {
    /// The part with one shape more. More than fit into a number are refused as memory is.
    #[inline(always)]
    pub(crate) fn with_one_more(&self) -> Result<PartHead, AllocError>
        ensures { IfOk result (λ p. p ≡ record { is_pin = self.now.is_pin; shapes = self.now.shapes + 1 }) }
    {
        let shapes = self.shapes.checked_add(1).ok_or(AllocError)?;
        Ok(PartHead {
            is_pin: self.is_pin,
            shapes,
        })
    }
}

/// A net: its name, whether it is of power, and how many parts it has.
#[derive(Clone, Copy)]
pub struct NetHead<'t> {
    pub name: &'t [u8],
    pub is_power: bool,
    pub parts: usize,
}
