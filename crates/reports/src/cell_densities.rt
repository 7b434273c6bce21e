//! How dense the cells of a grid are with shapes that come and go.

ghost use Rattle.std.specs.Prelude.{◌≡◌, ◌<◌, ◌^◌, [], ◌∷◌, IfOk, OnOk, map};
ghost use Rattle.std.specs.Option.{option_map};
ghost use Rattle.design_model.specs.Views.{rectangle_of};
ghost use Rattle.net_lists.specs.PartCuts.{shape_view};
ghost use Rattle.reports.specs.Densities.{HasExchanged, HoldsDensities, HoldsLess, HoldsMore, box_shapes, density_in, shape_on};

use cell_sums::{CellSums, GridLines};
use design_model::geometry::Rect;
use net_lists::NetShape;
use std::alloc::{AllocError, Allocator, Global};
use std::hash::RandomState;
use std::marker::Model;

/// The densities of shapes in the cells of a grid, layer by layer, in squares of database units. Sums of cells only grow, so the areas
/// of shapes that came and of those that went are summed apart, under twice the layer's number and under one more.
pub(crate) struct CellDensities<A: Allocator = Global> {
    sums: CellSums<A>,
}

// (written out, so that who owns this is proved over one call)
impl<A: Allocator> Drop for CellDensities<A> {
    fn drop(self) {
        let CellDensities { sums: _ } = self;
    }
}

impl<A: Allocator> Model for CellDensities<A> {
    ghost use Rattle.cell_sums.specs.Tables.{CellTable};

    ghost Value = { CellTable };

    ghost view = { λ d. d.sums };
}

impl<A: Allocator + Copy> CellDensities<A> {
    /// The densities of no shapes, in the cells between these lines. It takes no memory.
    pub(crate) fn new(
        alloc: A,
        hash_builder: RandomState,
        columns: GridLines<A>,
        rows: GridLines<A>,
    ) -> CellDensities<A>
        ensures { HoldsDensities columns rows [] result }
    {
        CellDensities {
            sums: CellSums::new(alloc, hash_builder, columns, rows),
        }
    }

    /// The densities of no shapes, in the same cells.
    pub(crate) fn none_alike(
        &self,
        alloc: A,
        hash_builder: RandomState,
    ) -> Result<CellDensities<A>, AllocError>
        ensures { IfOk result (HoldsDensities self.now.columns self.now.rows []) }
    {
        Ok(CellDensities {
            sums: self.sums.none_alike(alloc, hash_builder)?,
        })
    }

    /// Adds a shape. A layer whose number is too high to be doubled is refused as memory is, here and where a shape is taken out.
    #[inline(always)]
    pub(crate) fn add(&mut self, layer: usize, rect: Rect) -> Result<(), AllocError>
        ensures { OnOk result (HoldsMore (shape_on layer (rectangle_of rect) ∷ []) self.old self.new) }
    {
        let came = layer.checked_mul(2).ok_or(AllocError)?;
        self.sums.add(came, rect)
    }

    /// Takes a shape out.
    fn take(&mut self, layer: usize, rect: Rect) -> Result<(), AllocError>
        ensures { OnOk result (HoldsLess (shape_on layer (rectangle_of rect) ∷ []) self.old self.new) }
    {
        let came = layer.checked_mul(2).ok_or(AllocError)?;
        self.sums.add(came + 1, rect)
    }

    /// Adds shapes, each on its layer.
    pub(crate) fn add_shapes(&mut self, shapes: &[NetShape]) -> Result<(), AllocError>
        ensures { OnOk result (HoldsMore (map shape_view shapes.now) self.old self.new) }
    {
        for shape in shapes {
            self.add(shape.layer.0, shape.rect)?;
        }
        Ok(())
    }

    /// Takes shapes out, each on its layer.
    fn take_shapes(&mut self, shapes: &[NetShape]) -> Result<(), AllocError>
        ensures { OnOk result (HoldsLess (map shape_view shapes.now) self.old self.new) }
    {
        for shape in shapes {
            self.take(shape.layer.0, shape.rect)?;
        }
        Ok(())
    }

    /// Adds the box of a component, on layer 0, if it has one.
    pub(crate) fn add_box(&mut self, rect: Option<Rect>) -> Result<(), AllocError>
        ensures { OnOk result (HoldsMore (box_shapes (option_map rectangle_of rect)) self.old self.new) }
    {
        match rect {
            Some(rect) => self.add(0, rect),
            None => Ok(()),
        }
    }

    /// Takes the box of a component out, from layer 0, if it has one.
    fn take_box(&mut self, rect: Option<Rect>) -> Result<(), AllocError>
        ensures { OnOk result (HoldsLess (box_shapes (option_map rectangle_of rect)) self.old self.new) }
    {
        match rect {
            Some(rect) => self.take(0, rect),
            None => Ok(()),
        }
    }

    /// Puts shapes in the place of others that are there. After an error the densities are of no use.
    pub(crate) fn exchange(
        &mut self,
        gone: &[NetShape],
        come: &[NetShape],
    ) -> Result<(), AllocError>
        ensures { OnOk result (HasExchanged (map shape_view gone.now) (map shape_view come.now) self.old self.new) }
    {
        self.take_shapes(gone)?;
        self.add_shapes(come)
    }

    /// Puts the box of a component in the place of one that is there, each if there is one. After an error the densities are of no use.
    pub(crate) fn exchange_box(
        &mut self,
        gone: Option<Rect>,
        come: Option<Rect>,
    ) -> Result<(), AllocError>
        ensures { OnOk result (HasExchanged (box_shapes (option_map rectangle_of gone)) (box_shapes (option_map rectangle_of come)) self.old self.new) }
    {
        self.take_box(gone)?;
        self.add_box(come)
    }

    /// The density of a cell on a layer; `None` where there is no such cell. It takes no memory.
    pub(crate) fn density(&self, layer: usize, column: usize, row: usize) -> Option<u128>
        requires { layer < 2 ^ 63 }
        ensures { result ≡ density_in self.now layer column row }
    {
        let came = self.sums.sum(layer * 2, column, row)?;
        let went = self.sums.sum(layer * 2 + 1, column, row)?;
        Some(came.saturating_sub(went))
    }
}
