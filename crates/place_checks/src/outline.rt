//! Macros with their boundaries (LEF/DEF 5.8 Language Reference, "Macro").

ghost use Rattle.std.specs.Prelude.{◌≡◌, ◌≤◌, ◌<◌, nat_abs};
ghost use Rattle.std.specs.Option.{option_map};
ghost use Rattle.design_model.specs.Views.{rectangle_of};
ghost use Rattle.lef_grammar.specs.Measures.{boundary_of};
ghost use Rattle.lefdef_tokens.specs.Views.{word_view};
ghost use Rattle.design_rules.specs.Boxes.{is_cover};
ghost use Rattle.cell_library.specs.CellViews.{cell_view};
ghost use Rattle.cell_library.specs.Numbers.{IsWithin};
ghost use Rattle.place_checks.specs.Corners.{corner, in_order};
ghost use Rattle.place_checks.specs.Outlines.{IsOutline};

use cell_library::macro_view::MacroView;
use design_model::geometry::Rect;
use lefdef_tokens::is_word;
use std::alloc::Allocator;

/// What of a macro makes the boxes of its components: its boundary in database units, and its class and its sites.
#[derive(Clone, Copy)]
pub(crate) struct Outline<'t> {
    pub(crate) boundary: Rect,
    pub(crate) class: Option<&'t [u8]>,
    pub(crate) sites: &'t [&'t [u8]],
}

/// The rectangle between the origin and a corner.
fn corner_box(width: i64, height: i64) -> Rect
    requires narrow { nat_abs width ≤ 100000000000 }
    requires low { nat_abs height ≤ 100000000000 }
    ensures spans { rectangle_of result ≡ in_order (corner width height) }
    ensures small { IsWithin 100000000000 (rectangle_of result) }
{
    Rect {
        x1: width.min(0),
        y1: height.min(0),
        x2: width.max(0),
        y2: height.max(0),
    }
}

/// The boundary of a macro, in database units: one without `SIZE` is a point.
fn boundary_of<A: Allocator + Copy>(cell: MacroView<'_, '_, A>, scale: u32) -> Rect
    requires some { 0 < scale }
    requires few { scale ≤ 100000 }
    ensures spans { rectangle_of result ≡ in_order (boundary_of scale (cell_view cell.entry).cell.size) }
    ensures small { IsWithin 100000000000 (rectangle_of result) }
{
    let size = cell.size(scale);
    corner_box(size.x, size.y)
}

impl<'t> Outline<'t> {
    /// That of a macro, by a number of database units per micron.
    pub(crate) fn of<A: Allocator + Copy>(cell: MacroView<'t, '_, A>, scale: u32) -> Outline<'t>
        requires some { 0 < scale }
        requires few { scale ≤ 100000 }
        ensures { IsOutline scale (cell_view cell.entry).cell result }
    {
        Outline {
            boundary: boundary_of(cell, scale),
            class: cell.cell_class(),
            sites: cell.sites(),
        }
    }

    /// Whether it is that of a cover.
    pub(crate) fn is_cover(&self) -> bool
        ensures { result ≡ is_cover (option_map word_view self.now.class) }
    {
        match self.class {
            Some(word) => is_word(word, b"COVER"),
            None => false,
        }
    }
}
