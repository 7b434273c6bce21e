//! What is measured of nets, one after the other.

ghost use Rattle.std.specs.Prelude.{◌≡◌, ◌+◌, ◌<◌, ◌≤◌, [], IfOk, OnOk, flat_map, length, map};
ghost use Rattle.std.specs.List.{All};
ghost use Rattle.design_model.specs.Ranges.{IsWithin};
ghost use Rattle.connection_rules.specs.NetParts.{all_nets, net_names};
ghost use Rattle.design_rules.specs.Boxes.{scale};
ghost use Rattle.net_lists.specs.PartCuts.{shape_view};
ghost use Rattle.net_entries.specs.NetEntries.{wired_group};
ghost use Rattle.net_entries.specs.Places.{group_names};
ghost use Rattle.design_nets.specs.NetGroups.{length_of_group, net_of_group};
ghost use Rattle.drawn_parts.specs.DrawnLengths.{capped};
ghost use Rattle.measure_rules.specs.GridCells.{columns, lines_along_x, lines_along_y, rows};
ghost use Rattle.measure_rules.specs.Lengths.{length_of};
ghost use Rattle.measure_rules.specs.NetBoxes.{box_round};
ghost use Rattle.reports.specs.Densities.{HoldsDensities, HoldsMore};
ghost use Rattle.reports.specs.MeasuredNets.{AreMeasured, measured_at, shape_box};

use crate::cell_densities::CellDensities;
use crate::densities::no_densities;
use crate::net_box::box_round;
use crate::net_table::{Measures, NetTable};
use crate::net_walk::NetWalk;
use cell_library::library::Library;
use def_reader::entry::Entry;
use def_reader::statement::Statement;
use design_names::names::Names;
use design_wires::wires::DesignWires;
use net_entries::{NetGroups, entries_by_net};
use net_lists::NetShape;
use std::alloc::{AllocError, Allocator, Global};

/// What was measured of nets: of each by its name, the lengths of all of them together, and how dense the cells of the grid are with
/// their shapes.
pub(crate) struct MeasuredNets<A: Allocator = Global> {
    pub(crate) table: NetTable<A>,
    /// 2^64 - 1 where it is more.
    pub(crate) total: u64,
    pub(crate) cells: CellDensities<A>,
}

// (written out, so that who owns this is proved over one call)
impl<A: Allocator> Drop for MeasuredNets<A> {
    fn drop(self) {
        let MeasuredNets {
            table: _,
            total: _,
            cells: _,
        } = self;
    }
}

impl<A: Allocator + Copy> MeasuredNets<A> {
    /// No nets, with room for the names of those of a design.
    pub(crate) fn new(alloc: A, names: &Names<'_, '_, A>) -> Result<MeasuredNets<A>, AllocError>
        requires across { All (IsWithin 2147483647) (flat_map lines_along_x names.now) }
        requires upward { All (IsWithin 2147483647) (flat_map lines_along_y names.now) }
        ensures table { IfOk result (λ m. m.table ≡ []) }
        ensures total { IfOk result (λ m. m.total ≡ 0) }
        ensures cells { IfOk result (λ m. HoldsDensities (columns names.entry.now) (rows names.entry.now) [] m.cells) }
    {
        let most = net_entry_count(names.records());
        let table = NetTable::with_room(alloc, names.hash_builder(), most)?;
        Ok(MeasuredNets {
            table,
            total: 0,
            cells: no_densities(alloc, names)?,
        })
    }

    /// Measures the net at a place of the table, which has these shapes and this length.
    fn add(&mut self, place: usize, shapes: &[NetShape], net_length: u64) -> Result<(), AllocError>
        requires { place < length self.old.table }
        ensures table { OnOk result (self.new.table ≡ measured_at place net_length (box_round (map shape_box shapes.now)) self.old.table) }
        ensures total { OnOk result (self.new.total ≡ capped (self.old.total + net_length)) }
        ensures cells { OnOk result (HoldsMore (map shape_view shapes.now) self.old.cells self.new.cells) }
    {
        let measures = Measures {
            length: net_length,
            bounds: box_round(shapes),
        };
        self.table.set_at(place, measures);
        self.cells.add_shapes(shapes)?;
        self.total = self.total.saturating_add(net_length);
        Ok(())
    }
}

/// Measures the nets of these groups of entries, which have the places of the groups in the table. Each is drawn by itself: no list
/// holds the shapes of all.
fn add_groups<'a, 'l: 'a, 'r: 'a, 't: 'a, A: Allocator + Copy>(
    alloc: A,
    library: &'a Library<'l, A>,
    names: &'a Names<'r, 't, A>,
    wires: &DesignWires<'a, 'l, 'r, 't, A>,
    groups: &NetGroups<'_, 't, A>,
    measured: &mut MeasuredNets<A>,
) -> Result<(), AllocError>
    requires some { 0 < scale names.now }
    requires few { scale names.now ≤ 100000 }
    requires same { wires.now ≡ record { library = library.now; design = names.now } }
    requires none { AreMeasured (columns names.now) (rows names.now) [] [] (group_names groups.now) measured.old.table measured.old.total measured.old.cells }
    ensures { let u = scale names.now in let wired = map (wired_group library.now names.now u) groups.now in
        OnOk result (AreMeasured (columns names.now) (rows names.now) (map (net_of_group library.now names.now u) wired) (map length_of_group wired) [] measured.new.table measured.new.total measured.new.cells) }
{
    let mut walk = NetWalk::new(alloc, library, names, wires)?;
    for place in 0..groups.len() {
        let (name, entries) = groups.at(place);
        let length = walk.draw(wires, name, entries)?;
        measured.add(place, walk.net.shapes(), length)?;
    }
    Ok(())
}

/// Whether a statement is an entry of NETS or of SPECIALNETS.
fn is_net_entry(statement: &Statement<'_>) -> bool {
    matches!(
        statement,
        Statement::Entry(Entry::Net(_)) | Statement::Entry(Entry::SpecialNet(_))
    )
}

/// How many entries of NETS and of SPECIALNETS there are: at least as many as nets.
fn net_entry_count(records: &[Statement<'_>]) -> usize {
    records
        .iter()
        .filter(|statement| is_net_entry(statement))
        .count()
}

/// Measures the nets of a design, of which none was measured before.
fn add_all<'a, 'l: 'a, 'r: 'a, 't: 'a, A: Allocator + Copy>(
    alloc: A,
    library: &'a Library<'l, A>,
    names: &'a Names<'r, 't, A>,
    wires: &DesignWires<'a, 'l, 'r, 't, A>,
    measured: &mut MeasuredNets<A>,
) -> Result<(), AllocError>
    requires some { 0 < scale names.now }
    requires few { scale names.now ≤ 100000 }
    requires same { wires.now ≡ record { library = library.now; design = names.now } }
    requires table { measured.old.table ≡ [] }
    requires total { measured.old.total ≡ 0 }
    requires cells { HoldsDensities (columns names.now) (rows names.now) [] measured.old.cells }
    ensures { let u = scale names.now in
        OnOk result (AreMeasured (columns names.now) (rows names.now) (all_nets library.now names.now u) (map (λ name. capped (length_of library.now names.now u name)) (net_names library.now names.now u)) [] measured.new.table measured.new.total measured.new.cells) }
{
    let groups = entries_by_net(alloc, names.records(), &mut measured.table)?;
    add_groups(alloc, library, names, wires, &groups, measured)
}

/// Measures the nets of a design. What they are drawn by is kept no longer than that.
pub(crate) fn measured_nets<A: Allocator + Copy>(
    alloc: A,
    library: &Library<'_, A>,
    names: &Names<'_, '_, A>,
) -> Result<MeasuredNets<A>, AllocError>
    requires some { 0 < scale names.now }
    requires few { scale names.now ≤ 100000 }
    requires across { All (IsWithin 2147483647) (flat_map lines_along_x names.now) }
    requires upward { All (IsWithin 2147483647) (flat_map lines_along_y names.now) }
    ensures { let u = scale names.entry.now in
        IfOk result (λ m. AreMeasured (columns names.entry.now) (rows names.entry.now) (all_nets library.entry.now names.entry.now u) (map (λ name. capped (length_of library.entry.now names.entry.now u name)) (net_names library.entry.now names.entry.now u)) [] m.table m.total m.cells) }
{
    let wires = DesignWires::new(alloc, library, names)?;
    let mut measured = MeasuredNets::new(alloc, names)?;
    add_all(alloc, library, names, &wires, &mut measured)?;
    Ok(measured)
}
