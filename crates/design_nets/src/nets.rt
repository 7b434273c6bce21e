//! The nets of a design, and their lengths.

ghost use Rattle.std.specs.Prelude.{◌≡◌, ◌++◌, ◌∷◌, ◌<◌, ◌≤◌, [], IfOk, OnOk, map};
ghost use Rattle.std.specs.List.{filter_map, sum_by};
ghost use Rattle.design_rules.specs.Boxes.{scale};
ghost use Rattle.net_entries.specs.NetEntries.{entry_lent};
ghost use Rattle.connection_rules.specs.NetParts.{all_nets, parts_of, wired_of};
ghost use Rattle.connection_rules.specs.Terminals.{pins_by_name};
ghost use Rattle.measure_rules.specs.Lengths.{wired_length};
ghost use Rattle.drawn_parts.specs.DrawnLengths.{capped};
ghost use Rattle.design_nets.specs.NetGroups.{net_lengths};

use cell_library::library::Library;
use design_names::names::Names;
use design_wires::wires::DesignWires;
use drawn_parts::{PartWalk, put_drawn};
use net_entries::{LentEntry, NamePlaces, entries_by_net, is_power};
use net_lists::{NetList, building_a_net};
use net_pins::{PinWalk, Pins};
use std::alloc::{AllocError, Allocator, Global};

/// Puts the net of a name and of its entries behind the others, and gives the length of its wires along their centres, in database
/// units: 2^64 - 1 where it is more. Whether the net is of power is the caller's to say, as it costs one more reading of the entries.
pub fn put_net<'v, 'a, 'l: 'a, 'r: 'a, 't: 'a, A: Allocator + Copy>(
    pins: &Pins<'v, 'a, 'l, 'r, 't, A>,
    wires: &DesignWires<'a, 'l, 'r, 't, A>,
    name: &'t [u8],
    is_power: bool,
    entries: &[LentEntry<'_, 't>],
    pin_walk: &mut PinWalk<'_, '_, 't, A>,
    part_walk: &mut PartWalk<'_, '_, A>,
    nets: &mut NetList<'t, A>,
) -> Result<u64, AllocError>
    requires pins { pins.now ≡ wires.now }
    requires pin_walk { pin_walk.old.layers ≡ wires.now.library }
    requires part_walk { part_walk.old.layers ≡ wires.now.library }
    ensures net { let library = wires.now.library in let design = wires.now.design in let u = scale design in
        let parts = parts_of library.layers (pins_by_name library design u) name.now (filter_map (wired_of library design u) (map entry_lent entries.now)) in
        OnOk result (nets.new ≡ nets.old ++ record { name = name.now; is_power = is_power; parts = parts } ∷ []) }
    ensures length { let library = wires.now.library in let design = wires.now.design in
        IfOk result (λ n. n ≡ capped (sum_by wired_length (filter_map (wired_of library design (scale design)) (map entry_lent entries.now)))) }
    ensures pin_walk { OnOk result (pin_walk.new.layers ≡ wires.now.library) }
    ensures part_walk { OnOk result (part_walk.new.layers ≡ wires.now.library) }
{
    building_a_net();
    nets.begin_net(name, is_power)?;
    pins.put_pins(name, entries, pin_walk, nets)?;
    let length = put_drawn(wires, entries, part_walk, nets)?;
    Ok(length)
}

/// The nets of a design, and how long the wires of each are along their centres, in database units: 2^64 - 1 where they are longer.
#[derive(Drop)]
pub struct NetsWithLengths<'t, A: Allocator = Global> {
    pub nets: NetList<'t, A>,
    pub lengths: Vec<u64, A>,
}

/// The nets of a design, in the order in which their names come first, and the lengths of their wires. The vias are those of the same
/// library and the same design, whose text reads, so that its scale is in range.
pub fn nets_with_lengths<'a, 'l: 'a, 'r: 'a, 't: 'a, A: Allocator + Copy>(
    alloc: A,
    library: &'a Library<'l, A>,
    names: &'a Names<'r, 't, A>,
    wires: &DesignWires<'a, 'l, 'r, 't, A>,
) -> Result<NetsWithLengths<'t, A>, AllocError>
    requires some { 0 < scale names.now }
    requires few { scale names.now ≤ 100000 }
    requires same { wires.now ≡ record { library = library.now; design = names.now } }
    ensures nets { IfOk result (λ n. n.nets ≡ all_nets library.entry.now names.entry.now (scale names.entry.now)) }
    ensures lengths { IfOk result (λ n. n.lengths.items ≡ net_lengths library.entry.now names.entry.now (scale names.entry.now)) }
{
    let mut places = NamePlaces::new(alloc, names.hash_builder());
    let groups = entries_by_net(alloc, names.records(), &mut places)?;
    let pins = Pins::new(alloc, library, names, wires)?;
    let mut pin_walk = pins.walk(alloc);
    let mut part_walk = PartWalk::new(library);
    let mut nets = NetList::new(alloc);
    let mut lengths = Vec::new(alloc);
    for place in 0..groups.len() {
        let (name, entries) = groups.at(place);
        let length = put_net(
            &pins,
            wires,
            name,
            is_power(entries),
            entries,
            &mut pin_walk,
            &mut part_walk,
            &mut nets,
        )?;
        lengths.push(length)?;
    }
    Ok(NetsWithLengths { nets, lengths })
}

/// The same nets alone.
pub fn nets_of<'a, 'l: 'a, 'r: 'a, 't: 'a, A: Allocator + Copy>(
    alloc: A,
    library: &'a Library<'l, A>,
    names: &'a Names<'r, 't, A>,
    wires: &DesignWires<'a, 'l, 'r, 't, A>,
) -> Result<NetList<'t, A>, AllocError>
    requires some { 0 < scale names.now }
    requires few { scale names.now ≤ 100000 }
    requires same { wires.now ≡ record { library = library.now; design = names.now } }
    ensures { IfOk result (λ nets. nets ≡ all_nets library.entry.now names.entry.now (scale names.entry.now)) }
{
    let drawn = nets_with_lengths(alloc, library, names, wires)?;
    Ok(drawn.nets)
}
