//! The rectangles of a via about its origin (LEF/DEF 5.8 Language Reference, "Vias" and "Via").

ghost use Rattle.std.specs.Prelude.{◌≡◌, [], IfSome};
ghost use Rattle.std.specs.List.{filter_map};
ghost use Rattle.std.specs.Option.{option_map};
ghost use Rattle.cell_library.specs.ViaViews.{body_view};
ghost use Rattle.design_model.specs.Views.{rectangle_of};
ghost use Rattle.net_rules.specs.ViaRectangles.{body_shapes, def_via_shapes, listed_shape, shapes_if};
ghost use Rattle.via_parts.specs.ViaViews.{via_clause_view, via_view};
ghost use Rattle.design_model.specs.Ranges.{IsBoxWithin};
ghost use Rattle.wire_shapes.specs.RuleViews.{GivesShape, shape_reach, shape_view};
ghost use Rattle.design_wires.specs.FoundVias.{found_view, shapes_of};
ghost use Rattle.design_wires.specs.PlanViews.{IsPlan, plan_view};
ghost use Rattle.design_wires.specs.Scales.{units_of};
ghost use Rattle.design_wires.specs.ViaRectsLeft.{clauses_left, generated_if_left, rects_left};

use crate::corners::corner_rectangle;
use crate::layer_rects::LayerRects;
use crate::scale::Scale;
use crate::via_clauses::is_generated;
use crate::via_plan::ViaPlan;
use crate::via_plans::{plan_in_def, plan_in_lef};
use crate::via_view::ViaView;
use cell_library::via::ViaBody;
use cell_library::via_definition::Via;
use statement_reader::parts::Parts;
use std::alloc::{Allocator, Global};
use via_parts::vias::{ViaClause, ViaParts};
use wire_shapes::{GeneratedShapes, LayerShape, LayerShapes};

/// What is left of a via: clauses of an entry of VIAS, rectangles of LEF, or shapes of a generated via.
#[derive(Clone, Copy, Drop)]
pub(crate) enum RectsLeft<'a, 'l, 't, A: Allocator = Global> {
    Clauses(Parts<'t, ViaClause<'t>>),
    Layers(LayerRects<'a, 'l, A>),
    Generated(Option<GeneratedShapes<'a>>),
}

/// Gives the rectangles of a via. It takes no memory.
#[derive(Clone, Copy, Drop)]
pub struct ViaRects<'a, 'l, 't, A: Allocator = Global> {
    left: RectsLeft<'a, 'l, 't, A>,
}

/// The rectangle that a clause is.
fn listed_shape<'t>(clause: ViaClause<'t>) -> Option<LayerShape<'t>>
    ensures is { option_map shape_view result ≡ listed_shape (via_clause_view clause.entry) }
    ensures near { IfSome result (λ s. IsBoxWithin shape_reach (rectangle_of s.rect)) }
{
    match clause {
        ViaClause::Rectangle(rectangle) => Some(LayerShape {
            layer: rectangle.layer.bytes,
            rect: corner_rectangle(&rectangle.corners),
        }),
        _ => None,
    }
}

/// The first rectangle among clauses that are left; at the end `None`.
fn next_listed<'t>(clauses: &mut Parts<'t, ViaClause<'t>>) -> Option<LayerShape<'t>>
    ensures { GivesShape (clauses_left clauses.old) result (clauses_left clauses.new) }
{
    while let Some(clause) = clauses.next() {
        if let Some(shape) = listed_shape(clause) {
            return Some(shape);
        }
    }
    None
}

/// The first shape that is left of a generated via; at the end `None`.
fn next_generated<'a>(shapes: &mut Option<GeneratedShapes<'a>>) -> Option<LayerShape<'a>>
    ensures { GivesShape (generated_if_left shapes.old) result (generated_if_left shapes.new) }
{
    match shapes {
        Some(shapes) => shapes.next(),
        None => None,
    }
}

/// The shapes of a generated via, if it can be made by what is said of it.
fn generated_rects<'a>(plan: ViaPlan<'a>) -> Option<GeneratedShapes<'a>>
    requires { IsPlan plan }
    ensures { generated_if_left result ≡ shapes_if (plan_view plan.entry) }
{
    let via = plan.generated()?;
    Some(GeneratedShapes::new(via))
}

impl<'a, 'l: 'a, 't: 'a, A: Allocator + Copy> ViaRects<'a, 'l, 't, A> {
    /// Those of a via of DEF.
    fn in_def(via: &'a ViaParts<'t>) -> Self
        ensures { rects_left result ≡ def_via_shapes (via_view via.entry.now) }
    {
        let left = if is_generated(via.clauses.again()) {
            RectsLeft::Generated(generated_rects(plan_in_def(via)))
        } else {
            RectsLeft::Clauses(via.clauses.again())
        };
        ViaRects { left }
    }

    /// Those of a via of LEF.
    fn in_lef(via: &'a Via<'l, A>, scale: Scale) -> Self
        ensures { rects_left result ≡ body_shapes (units_of scale) (body_view via.entry.now.body) }
    {
        let left = match &via.body {
            ViaBody::Listed(shapes) => RectsLeft::Layers(LayerRects {
                scale,
                layer: b"",
                rectangles: &[],
                later: shapes.as_slice(),
            }),
            ViaBody::Generated(generated) => RectsLeft::Generated(generated_rects(plan_in_lef(
                generated, scale,
            ))),
        };
        ViaRects { left }
    }

    /// The rectangles of a via.
    pub fn new(via: ViaView<'a, 'l, 't, A>, scale: Scale) -> Self
        ensures { rects_left result ≡ shapes_of (units_of scale) (found_view via.entry) }
    {
        let found = match via {
            ViaView::Def(parts) => return Self::in_def(parts),
            ViaView::Lef(found) => found,
        };
        Self::in_lef(found, scale)
    }

    /// Those of a via that isn't known, which has none.
    pub fn none() -> Self
        ensures { rects_left result ≡ [] }
    {
        ViaRects {
            left: RectsLeft::Generated(None),
        }
    }
}

impl<'n, 'a: 'n, 'l: 'a, 't: 'a, A: Allocator + Copy> LayerShapes<'n> for ViaRects<'a, 'l, 't, A> {
    ghost use Rattle.design_wires.specs.ViaRectsLeft.{rects_left};

    ghost shapes = { rects_left };

    fn next(&mut self) -> Option<LayerShape<'n>>
        ensures { GivesShape (rects_left self.old) result (rects_left self.new) }
    {
        match &mut self.left {
            RectsLeft::Clauses(clauses) => next_listed(clauses),
            RectsLeft::Layers(rects) => rects.next(),
            RectsLeft::Generated(shapes) => next_generated(shapes),
        }
    }
}
