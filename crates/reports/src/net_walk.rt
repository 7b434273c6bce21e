//! The nets of a design, drawn one after the other, each by itself.

ghost use Rattle.std.specs.Prelude.{◌≡◌, ◌<◌, ◌≤◌, [], ◌∷◌, IfOk, OnOk, flat_map, map};
ghost use Rattle.connection_rules.specs.NetLines.{shapes_of_net};
ghost use Rattle.design_rules.specs.Boxes.{scale};
ghost use Rattle.net_entries.specs.NetEntries.{wired_group};
ghost use Rattle.design_nets.specs.NetGroups.{length_of_group, net_of_group};
ghost use Rattle.reports.specs.NetWalks.{IsReady};

use cell_library::library::Library;
use design_names::names::Names;
use design_nets::put_net;
use design_wires::wires::DesignWires;
use drawn_parts::PartWalk;
use net_entries::LentEntry;
use net_lists::NetList;
use net_pins::{PinWalk, Pins};
use std::alloc::{AllocError, Allocator, Global};

/// What one net after the other is drawn with, and the net that was drawn last.
pub(crate) struct NetWalk<'v, 'a, 'l, 'r, 't, A: Allocator = Global> {
    pins: Pins<'v, 'a, 'l, 'r, 't, A>,
    pin_walk: PinWalk<'a, 'l, 't, A>,
    part_walk: PartWalk<'a, 'l, A>,
    pub(crate) net: NetList<'t, A>,
}

// (written out, so that who owns this is proved over one call)
impl<A: Allocator> Drop for NetWalk<'_, '_, '_, '_, '_, A> {
    fn drop(self) {
        let NetWalk {
            pins: _,
            pin_walk: _,
            part_walk: _,
            net: _,
        } = self;
    }
}

impl<'v, 'a, 'l: 'a, 'r: 'a, 't: 'a, A: Allocator + Copy> NetWalk<'v, 'a, 'l, 'r, 't, A> {
    /// That of a design of which no net was drawn yet.
    pub(crate) fn new(
        alloc: A,
        library: &'a Library<'l, A>,
        names: &'a Names<'r, 't, A>,
        wires: &'v DesignWires<'a, 'l, 'r, 't, A>,
    ) -> Result<NetWalk<'v, 'a, 'l, 'r, 't, A>, AllocError>
        requires some { 0 < scale names.now }
        requires few { scale names.now ≤ 100000 }
        requires same { wires.now ≡ record { library = library.now; design = names.now } }
        ensures { IfOk result (λ w. IsReady wires.entry.now w.pins w.pin_walk.layers w.part_walk.layers) }
    {
        let pins = Pins::new(alloc, library, names, wires)?;
        let pin_walk = pins.walk(alloc);
        Ok(NetWalk {
            pins,
            pin_walk,
            part_walk: PartWalk::new(library),
            net: NetList::new(alloc),
        })
    }

    /// Draws the net of these entries in the place of the one before it, and gives its length: 2^64 - 1 where it is more. Nothing
    /// that is measured depends on whether a net is of power, so this isn't asked.
    pub(crate) fn draw(
        &mut self,
        wires: &DesignWires<'a, 'l, 'r, 't, A>,
        name: &'t [u8],
        entries: &[LentEntry<'_, 't>],
    ) -> Result<u64, AllocError>
        requires { IsReady wires.now self.old.pins self.old.pin_walk.layers self.old.part_walk.layers }
        ensures ready { OnOk result (IsReady wires.now self.new.pins self.new.pin_walk.layers self.new.part_walk.layers) }
        ensures shapes { let library = wires.now.library in let design = wires.now.design in let u = scale design in
            let wired = wired_group library design u (record { name = name.now; members = entries.now }) in
            OnOk result (map (λ s. s.shape) (flat_map shapes_of_net self.new.net) ≡ map (λ s. s.shape) (flat_map shapes_of_net (net_of_group library design u wired ∷ []))) }
        ensures length { let library = wires.now.library in let design = wires.now.design in let u = scale design in
            IfOk result (λ n. n ≡ length_of_group (wired_group library design u (record { name = name.now; members = entries.now }))) }
    {
        let NetWalk {
            pins,
            pin_walk,
            part_walk,
            net,
        } = self;
        net.clear();
        put_net(pins, wires, name, false, entries, pin_walk, part_walk, net)
    }
}
