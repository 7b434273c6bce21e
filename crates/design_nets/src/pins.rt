//! The nets of a design with their pins alone.

ghost use Rattle.std.specs.Prelude.{◌≡◌, ◌++◌, ◌∷◌, ◌<◌, ◌≤◌, [], false, IfOk, OnOk, map};
ghost use Rattle.std.specs.List.{filter_map};
ghost use Rattle.design_rules.specs.Boxes.{scale};
ghost use Rattle.net_entries.specs.NetEntries.{entry_lent};
ghost use Rattle.connection_rules.specs.NetParts.{all_nets, parts_of, wired_of};
ghost use Rattle.connection_rules.specs.Terminals.{pins_by_name};
ghost use Rattle.design_nets.specs.PinsAlone.{pins_alone};

use cell_library::library::Library;
use design_names::names::Names;
use design_wires::wires::DesignWires;
use net_entries::{LentEntry, NamePlaces, entries_by_net};
use net_lists::{NetList, building_a_net};
use net_pins::{PinWalk, Pins};
use std::alloc::{AllocError, Allocator};

/// Puts the net of a name and of its entries behind the others, with its pins alone. Whether the net is of power isn't
/// asked, since that takes a reading of its entries.
fn put_pins_alone<'v, 'a, 'l: 'a, 'r: 'a, 't: 'a, A: Allocator + Copy>(
    pins: &Pins<'v, 'a, 'l, 'r, 't, A>,
    name: &'t [u8],
    entries: &[LentEntry<'_, 't>],
    walk: &mut PinWalk<'_, '_, 't, A>,
    nets: &mut NetList<'t, A>,
) -> Result<(), AllocError>
    requires walk { walk.old.layers ≡ pins.now.library }
    ensures net { let library = pins.now.library in let design = pins.now.design in let u = scale design in
        let parts = parts_of library.layers (pins_by_name library design u) name.now (filter_map (wired_of library design u) (map entry_lent entries.now)) in
        OnOk result (nets.new ≡ nets.old ++ pins_alone (record { name = name.now; is_power = false; parts = parts }) ∷ []) }
    ensures walk { OnOk result (walk.new.layers ≡ pins.now.library) }
{
    building_a_net();
    nets.begin_net(name, false)?;
    pins.put_pins(name, entries, walk, nets)?;
    Ok(())
}

/// The nets of a design with their pins alone, in the order in which their names come first: what their entries draw isn't gone over,
/// nor whether they are of power.
pub fn pins_of_nets<'a, 'l: 'a, 'r: 'a, 't: 'a, A: Allocator + Copy>(
    alloc: A,
    library: &'a Library<'l, A>,
    names: &'a Names<'r, 't, A>,
    wires: &DesignWires<'a, 'l, 'r, 't, A>,
) -> Result<NetList<'t, A>, AllocError>
    requires some { 0 < scale names.now }
    requires few { scale names.now ≤ 100000 }
    requires same { wires.now ≡ record { library = library.now; design = names.now } }
    ensures { IfOk result (λ nets. nets ≡ map pins_alone (all_nets library.entry.now names.entry.now (scale names.entry.now))) }
{
    let mut places = NamePlaces::new(alloc, names.hash_builder());
    let groups = entries_by_net(alloc, names.records(), &mut places)?;
    let pins = Pins::new(alloc, library, names, wires)?;
    let mut walk = pins.walk(alloc);
    let mut nets = NetList::new(alloc);
    for place in 0..groups.len() {
        let (name, entries) = groups.at(place);
        put_pins_alone(&pins, name, entries, &mut walk, &mut nets)?;
    }
    Ok(nets)
}
