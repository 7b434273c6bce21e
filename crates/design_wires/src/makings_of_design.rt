//! What the wires of a design are made by, wire by wire, and the pieces of its nets.

ghost use Rattle.std.specs.Prelude.{◌≡◌};
ghost use Rattle.design_model.specs.Ranges.{IsSize};

use crate::makings::NetMakings;
use crate::special_makings::SpecialMakings;
use crate::wires::DesignWires;
use std::alloc::{AllocError, Allocator, Global};
use wire_reading::{NetMakingsOf, SpecialMakingsOf};

/// What says what wires are made by.
#[derive(Copy, Drop)]
pub struct DesignMakings<'v, 'a, 'l, 'r, 't, A: Allocator = Global> {
    pub wires: &'v DesignWires<'a, 'l, 'r, 't, A>,
}

// (written out: a derived one copies each field by a call that can fail)
impl<'v, 'a, 'l, 'r, 't, A: Allocator + Copy> Clone for DesignMakings<'v, 'a, 'l, 'r, 't, A> {
    fn clone(&self) -> Result<DesignMakings<'v, 'a, 'l, 'r, 't, A>, AllocError> {
        Ok(*self)
    }
}

impl<'n, 'v: 'n, 'a: 'v, 'l: 'a, 'r: 'a, 't: 'a, A: Allocator + Copy> NetMakingsOf<'n>
    for DesignMakings<'v, 'a, 'l, 'r, 't, A> {
    ghost use Rattle.design_rules.specs.Boxes.{scale};
    ghost use Rattle.net_rules.specs.WirePieces.{net_wire_rules};

    type Rules = NetMakings<'n, 'v, 'a, 'l, 'r, 't, A>;

    ghost makings_of = { λ d rule. net_wire_rules d.wires.now.library d.wires.now.design (scale d.wires.now.design) rule };

    fn rules(&self, rule: Option<&'n [u8]>) -> NetMakings<'n, 'v, 'a, 'l, 'r, 't, A> {
        NetMakings::new(self.wires, rule)
    }
}

impl<'n, 'v: 'n, 'a: 'v, 'l: 'a, 'r: 'a, 't: 'a, A: Allocator + Copy> SpecialMakingsOf<'n>
    for DesignMakings<'v, 'a, 'l, 'r, 't, A> {
    ghost use Rattle.design_rules.specs.Boxes.{scale};
    ghost use Rattle.net_rules.specs.WirePieces.{special_wire_rules};

    type Rules = SpecialMakings<'v, 'a, 'l, 'r, 't, A>;

    ghost makings_of = { λ d width. special_wire_rules d.wires.now.library d.wires.now.design (scale d.wires.now.design) width };

    fn rules(&self, width: i64) -> SpecialMakings<'v, 'a, 'l, 'r, 't, A> {
        SpecialMakings::new(self.wires, width)
    }
}
