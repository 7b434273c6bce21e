//! What is measured of one net.

ghost use Rattle.std.specs.Prelude.{◌≡◌, ◌↔◌, ◌∷◌, ◌<◌, ◌≤◌, ℕ, [], IfOk, IfSome, IsSome, List, length, map};
ghost use Rattle.std.specs.Option.{option_map};
ghost use Rattle.design_model.specs.Views.{rectangle_of};
ghost use Rattle.connection_rules.specs.NetParts.{net_named, net_names};
ghost use Rattle.design_rules.specs.Boxes.{scale};
ghost use Rattle.drawn_parts.specs.DrawnLengths.{capped};
ghost use Rattle.measure_rules.specs.Lengths.{length_of};
ghost use Rattle.net_lists.specs.PartCuts.{shape_view};
ghost use Rattle.net_entries.specs.NetEntries.{HasEntries, wired_group};
ghost use Rattle.design_nets.specs.NetGroups.{length_of_group, net_of_group};
ghost use Rattle.reports.specs.NetMeasures.{AreOfNet};

use crate::net_box::box_round;
use crate::net_walk::NetWalk;
use cell_library::library::Library;
use design_model::geometry::Rect;
use design_names::names::Names;
use design_wires::wires::DesignWires;
use net_entries::{LentEntry, NamePlaces, NetGroups, entries_by_net};
use net_lists::NetShape;
use std::alloc::{AllocError, Allocator, Global};

/// The length of a net along the centres of its wires, in database units, its shapes, and the least rectangle round them, if it has some.
#[derive(Drop)]
pub struct NetMeasures<A: Allocator = Global> {
    /// 2^64 - 1 where it is more.
    pub length: u64,
    pub shapes: Vec<NetShape, A>,
    pub bounds: Option<Rect>,
}

/// Measures the net of these entries.
fn measured<'a, 'l: 'a, 'r: 'a, 't: 'a, A: Allocator + Copy>(
    alloc: A,
    library: &'a Library<'l, A>,
    names: &'a Names<'r, 't, A>,
    wires: &DesignWires<'a, 'l, 'r, 't, A>,
    name: &'t [u8],
    entries: &[LentEntry<'_, 't>],
) -> Result<NetMeasures<A>, AllocError>
    requires some { 0 < scale names.now }
    requires few { scale names.now ≤ 100000 }
    requires same { wires.now ≡ record { library = library.now; design = names.now } }
    ensures { let u = scale names.now in let wired = wired_group library.now names.now u (record { name = name.now; members = entries.now }) in
        IfOk result (λ m. AreOfNet (net_of_group library.now names.now u wired) (length_of_group wired) m.length (map shape_view m.shapes.items) (option_map rectangle_of m.bounds)) }
{
    let mut walk = NetWalk::new(alloc, library, names, wires)?;
    let length = walk.draw(wires, name, entries)?;
    let shapes = Vec::from_slice(alloc, walk.net.shapes())?;
    let bounds = box_round(&shapes);
    Ok(NetMeasures {
        length,
        shapes,
        bounds,
    })
}

/// The entries of a design by their nets.
fn groups_of<'r, 't, A: Allocator + Copy>(
    alloc: A,
    names: &Names<'r, 't, A>,
) -> Result<NetGroups<'r, 't, A>, AllocError>
    ensures { IfOk result (λ groups. HasEntries groups names.entry.now) }
{
    let mut places = NamePlaces::new(alloc, names.hash_builder());
    entries_by_net(alloc, names.records(), &mut places)
}

/// Measures the net of a design that has entries of one net alone, by these vias of its library and its own.
fn only_net<'a, 'l: 'a, 'r: 'a, 't: 'a, A: Allocator + Copy>(
    alloc: A,
    library: &'a Library<'l, A>,
    names: &'a Names<'r, 't, A>,
    wires: &DesignWires<'a, 'l, 'r, 't, A>,
) -> Result<Option<NetMeasures<A>>, AllocError>
    requires some { 0 < scale names.now }
    requires few { scale names.now ≤ 100000 }
    requires same { wires.now ≡ record { library = library.now; design = names.now } }
    ensures one { IfOk result (λ found. IsSome found ↔ (length (net_names library.now names.now (scale names.now)) ≡ 1)) }
    ensures measures { (name : List ℕ) → let u = scale names.now in net_names library.now names.now u ≡ name ∷ []
        → IfOk result (λ found. IfSome found (λ m. AreOfNet (net_named library.now names.now u name) (capped (length_of library.now names.now u name)) m.length (map shape_view m.shapes.items) (option_map rectangle_of m.bounds))) }
{
    let groups = groups_of(alloc, names)?;
    if groups.len() != 1 {
        return Ok(None);
    }
    let (name, entries) = groups.at(0);
    let measures = measured(alloc, library, names, wires, name, entries)?;
    Ok(Some(measures))
}

/// Measures the net of a design that has entries of one net alone: `None` where it has entries of none, or of more.
pub fn net_measures<'a, A: Allocator + Copy>(
    alloc: A,
    library: &'a Library<'_, A>,
    names: &'a Names<'_, '_, A>,
) -> Result<Option<NetMeasures<A>>, AllocError>
    requires some { 0 < scale names.now }
    requires few { scale names.now ≤ 100000 }
    ensures one { IfOk result (λ found. IsSome found ↔ (length (net_names library.entry.now names.entry.now (scale names.entry.now)) ≡ 1)) }
    ensures measures { (name : List ℕ) → let u = scale names.entry.now in net_names library.entry.now names.entry.now u ≡ name ∷ []
        → IfOk result (λ found. IfSome found (λ m. AreOfNet (net_named library.entry.now names.entry.now u name) (capped (length_of library.entry.now names.entry.now u name)) m.length (map shape_view m.shapes.items) (option_map rectangle_of m.bounds))) }
{
    let wires = DesignWires::new(alloc, library, names)?;
    only_net(alloc, library, names, &wires)
}
