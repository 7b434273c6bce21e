//! A via that LEF texts define (LEF/DEF 5.8 Language Reference, "Via").

ghost use Rattle.std.specs.Prelude.{◌<◌, ◌^◌};

use crate::via::ViaBody;
use std::alloc::{Allocator, Global};

/// A via, with the number of its polygons, which aren't checked.
#[derive(Drop)]
pub struct Via<'l, A: Allocator = Global> {
    pub body: ViaBody<'l, A>,
    pub unchecked: usize,
    ghost few: { unchecked < 2 ^ 63 },
}
