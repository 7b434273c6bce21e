//! The widths and the vias of wires of NETS and SPECIALNETS, as the kernel of their pieces asks for them (LEF/DEF 5.8 Language
//! Reference, "Regular Wiring Statement" and "Special Wiring Statement").

ghost use Rattle.std.specs.Prelude.{◌≡◌};
ghost use Rattle.std.specs.Option.{option_map};
ghost use Rattle.lefdef_tokens.specs.Views.{word_view};
ghost use Rattle.net_rules.specs.WirePieces.{net_wire_rules, special_wire_rules};
ghost use Rattle.design_model.specs.Ranges.{IsSize};
ghost use Rattle.design_rules.specs.Boxes.{scale};
ghost use Rattle.design_wires.specs.MakingsOf.{net_makings_of, special_makings_of};

use crate::known_shapes::KnownShapes;
use crate::special_makings::SpecialMakings;
use crate::widths::wire_width;
use crate::wires::DesignWires;
use std::alloc::{Allocator, Global};
use wire_shapes::{ViaOn, WiringMakings};

/// Widths and vias of a wire of NETS with a rule, or with none.
#[derive(Drop)]
pub struct NetMakings<'n, 'v, 'a, 'l, 'r, 't, A: Allocator = Global> {
    wires: &'v DesignWires<'a, 'l, 'r, 't, A>,
    rule: Option<&'n [u8]>,
}

impl<'v, 'a, 'l, 'r, 't, A: Allocator + Copy> SpecialMakings<'v, 'a, 'l, 'r, 't, A> {
    /// Those of wires of this width.
    pub fn new(
        wires: &'v DesignWires<'a, 'l, 'r, 't, A>,
        width: i64,
    ) -> SpecialMakings<'v, 'a, 'l, 'r, 't, A>
        requires { IsSize width }
        ensures { special_makings_of result ≡ special_wire_rules wires.entry.now.library wires.entry.now.design (scale wires.entry.now.design) width }
    {
        SpecialMakings { wires, width }
    }
}

impl<'n, 'v, 'a, 'l, 'r, 't, A: Allocator + Copy> NetMakings<'n, 'v, 'a, 'l, 'r, 't, A> {
    /// Those of wires with this rule, or with none.
    pub fn new(
        wires: &'v DesignWires<'a, 'l, 'r, 't, A>,
        rule: Option<&'n [u8]>,
    ) -> NetMakings<'n, 'v, 'a, 'l, 'r, 't, A>
        ensures { net_makings_of result ≡ net_wire_rules wires.entry.now.library wires.entry.now.design (scale wires.entry.now.design) (option_map word_view rule.entry) }
    {
        NetMakings { wires, rule }
    }
}

impl<'n, 'v: 'n, 'a: 'v, 'l: 'a, 'r: 'a, 't: 'a, A: Allocator + Copy> WiringMakings<'n>
    for NetMakings<'n, 'v, 'a, 'l, 'r, 't, A> {
    ghost use Rattle.design_wires.specs.MakingsOf.{net_makings_of};

    type Shapes = KnownShapes<'v, 'a>;

    ghost rules = { net_makings_of };

    fn width(&self, layer: &[u8]) -> i64 {
        let of = self.wires.definitions();
        wire_width(of.library, of.names, of.scale, self.rule, layer)
    }

    fn past_end(&self, width: i64) -> i64 {
        width / 2
    }

    fn via_on(&self, via: &[u8], layer: &[u8]) -> ViaOn<'n> {
        self.wires.via_on(via, layer)
    }

    fn via_shapes(&self, via: &[u8]) -> KnownShapes<'v, 'a> {
        self.wires.via_shapes(via)
    }
}

impl<'n, 'v: 'n, 'a: 'v, 'l: 'a, 'r: 'a, 't: 'a, A: Allocator + Copy> WiringMakings<'n>
    for SpecialMakings<'v, 'a, 'l, 'r, 't, A> {
    ghost use Rattle.design_wires.specs.MakingsOf.{special_makings_of};

    type Shapes = KnownShapes<'v, 'a>;

    ghost rules = { special_makings_of };

    fn width(&self, _layer: &[u8]) -> i64 {
        self.width
    }

    fn past_end(&self, _width: i64) -> i64 {
        0
    }

    fn via_on(&self, via: &[u8], layer: &[u8]) -> ViaOn<'n> {
        self.wires.via_on(via, layer)
    }

    fn via_shapes(&self, via: &[u8]) -> KnownShapes<'v, 'a> {
        self.wires.via_shapes(via)
    }
}
