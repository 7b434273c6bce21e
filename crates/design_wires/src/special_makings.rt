//! The vias of a wire of SPECIALNETS and its width (LEF/DEF 5.8 Language Reference, "Special Wiring Statement").

ghost use Rattle.design_model.specs.Ranges.{IsSize};

use crate::wires::DesignWires;
use std::alloc::{Allocator, Global};

/// Vias of a wire of SPECIALNETS, and its width, which it has on every layer.
#[derive(Drop)]
pub struct SpecialMakings<'v, 'a, 'l, 'r, 't, A: Allocator = Global> {
    pub(crate) wires: &'v DesignWires<'a, 'l, 'r, 't, A>,
    pub(crate) width: i64,
    ghost size: { IsSize width },
}
