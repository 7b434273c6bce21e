//! What is measured of a design.

ghost use Rattle.std.specs.Prelude.{◌≡◌, ◌+◌, ◌<◌, ◌≤◌, ◌^◌, IfOk, List, OnOk, flat_map, length, map};
ghost use Rattle.std.specs.List.{All};
ghost use Rattle.std.specs.Option.{option_map};
ghost use Rattle.design_model.specs.Ranges.{IsWithin};
ghost use Rattle.design_model.specs.Views.{rectangle_of};
ghost use Rattle.def_grammar.specs.Records.{Record};
ghost use Rattle.lef_grammar.specs.Library.{Library as TheLibrary};
ghost use Rattle.connection_rules.specs.NetParts.{all_nets};
ghost use Rattle.design_rules.specs.Boxes.{scale};
ghost use Rattle.measure_rules.specs.GridCells.{lines_along_x, lines_along_y};
ghost use Rattle.measure_rules.specs.Lengths.{total_length};
ghost use Rattle.net_lists.specs.PartCuts.{shape_view};
ghost use Rattle.reports.specs.Answers.{ReportsOn, box_in, cell_in, length_in, place_cell_in};
ghost use Rattle.design_nets.specs.NetGroups.{net_lengths};
ghost use Rattle.reports.specs.DrawnNets.{AreWithoutNets};
ghost use Rattle.reports.specs.Exchanges.{ComponentExchanged, NetExchanged};

use crate::cell_densities::CellDensities;
use crate::densities::place_densities;
use crate::drawn_nets::{measure_each, sum_of};
use crate::measured_nets::{MeasuredNets, measured_nets};
use crate::net_table::Measures;
use cell_library::library::Library;
use design_model::geometry::Rect;
use design_model::identifier::LayerId;
use design_names::names::Names;
use measure_laws::lengths::none_is_longer;
use net_lists::{NetList, NetShape};
use std::alloc::{AllocError, Allocator, Global};
use std::marker::Model;

/// More layers are refused as memory is: areas are summed under twice a layer's number.
const MOST_LAYERS: usize = usize::MAX / 2;

/// The lengths of all nets and the boxes round them, and how dense the cells of the grid are, of one design.
pub struct Reports<A: Allocator = Global> {
    layers: usize,
    measured: MeasuredNets<A>,
    place_cells: CellDensities<A>,
}

// (written out, so that who owns this is proved over one call)
impl<A: Allocator> Drop for Reports<A> {
    fn drop(self) {
        let Reports {
            layers: _,
            measured: _,
            place_cells: _,
        } = self;
    }
}

impl<A: Allocator> Model for Reports<A> {
    ghost use Rattle.std.specs.Prelude.{◌<◌, ◌^◌};
    ghost use Rattle.reports.specs.Answers.{Answers};

    ghost Value = { Answers };

    ghost view = { λ r. record { layers = r.layers; nets = r.measured.table; total_length = r.measured.total; cells = r.measured.cells; place_cells = r.place_cells } };

    ghost invariant = { λ r. r.layers < 2 ^ 63 };
}

/// How many layers a library has, unless they are too many.
fn few_layers<A: Allocator + Copy>(library: &Library<'_, A>) -> Result<usize, AllocError>
    ensures count { IfOk result (λ n. n ≡ length library.now.layers) }
    ensures few { IfOk result (λ n. n < 2 ^ 63) }
{
    let layers = library.layer_count();
    if layers > MOST_LAYERS {
        return Err(AllocError);
    }
    Ok(layers)
}

impl<A: Allocator + Copy> Reports<A> {
    /// Measures a design whose text reads, so that its scale, its lengths and the lines of its grid are in range.
    pub fn open<'t>(
        alloc: A,
        library: &'t Library<'_, A>,
        names: &Names<'_, 't, A>,
    ) -> Result<Reports<A>, AllocError>
        requires some { 0 < scale names.now }
        requires few { scale names.now ≤ 100000 }
        requires lengths { total_length library.now names.now (scale names.now) < 2 ^ 64 }
        requires across { All (IsWithin 2147483647) (flat_map lines_along_x names.now) }
        requires upward { All (IsWithin 2147483647) (flat_map lines_along_y names.now) }
        ensures { IfOk result (ReportsOn library.entry.now names.entry.now) }
    {
        none_is_longer();
        let layers = few_layers(library)?;
        let measured = measured_nets(alloc, library, names)?;
        let place_cells = place_densities(alloc, library, names, &measured.cells)?;
        Ok(Reports {
            layers,
            measured,
            place_cells,
        })
    }

    /// Measures all of a design but its nets, which are put in by `put_nets` before anything is asked. The design is one whose text
    /// reads, as for `open`.
    pub fn without_nets<'t>(
        alloc: A,
        library: &'t Library<'_, A>,
        names: &Names<'_, 't, A>,
    ) -> Result<Reports<A>, AllocError>
        requires some { 0 < scale names.now }
        requires few { scale names.now ≤ 100000 }
        requires lengths { total_length library.now names.now (scale names.now) < 2 ^ 64 }
        requires across { All (IsWithin 2147483647) (flat_map lines_along_x names.now) }
        requires upward { All (IsWithin 2147483647) (flat_map lines_along_y names.now) }
        ensures { IfOk result (AreWithoutNets library.entry.now names.entry.now) }
    {
        let layer_count = few_layers(library)?;
        let measured = MeasuredNets::new(alloc, names)?;
        let place_cells = place_densities(alloc, library, names, &measured.cells)?;
        Ok(Reports {
            layers: layer_count,
            measured,
            place_cells,
        })
    }

    /// Measures the nets of the design, which are drawn: these are all of them, with the lengths of their wires in database units. The
    /// design itself isn't asked any more. After an error the answers are of no use.
    pub fn put_nets(&mut self, nets: &NetList<'_, A>, lengths: &[u64]) -> Result<(), AllocError>
        ensures { (library : TheLibrary) (design : List Record) → AreWithoutNets library design self.old → nets.now ≡ all_nets library design (scale design) → lengths.now ≡ net_lengths library design (scale design)
            → OnOk result (ReportsOn library design self.new) }
    {
        none_is_longer();
        let MeasuredNets {
            table,
            total,
            cells,
        } = &mut self.measured;
        measure_each(nets, lengths, table)?;
        cells.add_shapes(nets.shapes())?;
        *total = sum_of(lengths);
        Ok(())
    }

    /// Follows an exchange of some shapes of a net by others, after which the net has this length and this box. The old length is that
    /// which the net had, 0 if it is new. Lengths are in database units, and so are rectangles. After an error the answers are of no use.
    pub fn exchange_net(
        &mut self,
        name: &[u8],
        old_length: u64,
        new_length: u64,
        gone: &[NetShape],
        come: &[NetShape],
        bounds: Option<Rect>,
    ) -> Result<(), AllocError>
        requires within { old_length ≤ self.old.total_length }
        requires fits { self.old.total_length + new_length < old_length + 2 ^ 64 }
        ensures { OnOk result (NetExchanged name.now old_length new_length (map shape_view gone.now) (map shape_view come.now) (option_map rectangle_of bounds) self.old self.new) }
    {
        let MeasuredNets {
            table,
            total,
            cells,
        } = &mut self.measured;
        let measures = Measures {
            length: new_length,
            bounds,
        };
        table.set(name, measures)?;
        cells.exchange(gone, come)?;
        *total = *total - old_length + new_length;
        Ok(())
    }

    /// Follows an exchange of the box of a component that takes part by another: one that moves has both, one that is removed has none
    /// any more, and one that is added had none. Boxes are in database units. After an error the answers are of no use.
    pub fn exchange_component(
        &mut self,
        gone: Option<Rect>,
        come: Option<Rect>,
    ) -> Result<(), AllocError>
        ensures { OnOk result (ComponentExchanged (option_map rectangle_of gone) (option_map rectangle_of come) self.old self.new) }
    {
        self.place_cells.exchange_box(gone, come)
    }

    /// The length of a net along the centres of its wires, in database units; `None` where there is no such net.
    pub fn net_length(&self, name: &[u8]) -> Option<u64>
        ensures { result ≡ length_in self.now name.now }
    {
        match self.measured.table.get(name) {
            Some(net) => Some(net.length),
            None => None,
        }
    }

    /// The least rectangle round all shapes of a net, in database units, if it has some; `None` where there is no such net.
    pub fn net_box(&self, name: &[u8]) -> Option<Option<Rect>>
        ensures { option_map (option_map rectangle_of) result ≡ box_in self.now name.now }
    {
        match self.measured.table.get(name) {
            Some(net) => Some(net.bounds),
            None => None,
        }
    }

    /// The lengths of all nets together, in database units.
    pub fn total_length(&self) -> u64
        ensures { result ≡ self.now.total_length }
    {
        self.measured.total
    }

    /// The area that shapes of nets on a layer have in common with the cell in a column and a row of the grid, in squares of
    /// database units, overlaps counted each time; `None` where there is no such cell or layer.
    pub fn cell(&self, i: usize, j: usize, layer: LayerId) -> Option<u128>
        ensures { result ≡ cell_in self.now i j layer.0 }
    {
        if layer.0 < self.layers {
            self.measured.cells.density(layer.0, i, j)
        } else {
            None
        }
    }

    /// The same of the boxes of components that take part.
    pub fn place_cell(&self, i: usize, j: usize) -> Option<u128>
        ensures { result ≡ place_cell_in self.now i j }
    {
        self.place_cells.density(0, i, j)
    }
}
