//! The lines of one shape with those of a set, and with barriers.

ghost use Rattle.std.specs.Prelude.{◌≡◌, ◌++◌, ◌≤◌, IfOk, OnOk, map, flat_map};
ghost use Rattle.connection_rules.specs.NetLines.{routeblock_of, short_of};
ghost use Rattle.line_laws.specs.Lines.{SameLines};
ghost use Rattle.net_touches.specs.Barriers.{barrier_view, name_at};
ghost use Rattle.net_touches.specs.ShapeViews.{shape_view};
ghost use Rattle.shape_index.specs.Shapes.{met_count};
ghost use Rattle.net_queries.specs.OwnedShapes.{Adds, lines_of, net_shapes_of};

use crate::owner::PartOwners;
use net_lists::NetShape;
use net_touches::{Barrier, ShapeOfNet, put_routeblock, put_short};
use report_lines::{Checked, Lines};
use shape_index::{Shape, ShapeSet};
use std::alloc::{AllocError, Allocator};

/// Puts the line of a shape with one of a set, where that one's part is known.
fn put_held<A: Allocator + Copy, O: PartOwners>(
    names: &[&[u8]],
    shape: &ShapeOfNet<'_, '_>,
    held: &Shape,
    owners: &O,
    lines: &mut Lines<A>,
) -> Result<(), AllocError>
    ensures { OnOk result (lines.new ≡ lines.old ++ lines_of (short_of (name_at (map (λ w. w.now) names.now)) (shape_view shape.now)) (O.owner owners.now) held.now) }
{
    let Some((owner, head)) = owners.of_part(held.net) else {
        return Ok(());
    };
    let other = NetShape {
        layer: held.layer,
        rect: held.rect,
    };
    let other = ShapeOfNet {
        shape: &other,
        head: &head,
        is_drawn: !owner.is_pin,
    };
    put_short(shape, &other, names, lines)
}

/// Puts that line behind those that were put, if there was memory for these.
fn put_met<A: Allocator + Copy, O: PartOwners>(
    names: &[&[u8]],
    shape: &ShapeOfNet<'_, '_>,
    met: &Shape,
    owners: &O,
    lines: Result<Lines<A>, AllocError>,
) -> Result<Lines<A>, AllocError>
    ensures { IfOk result (λ l. Adds lines (lines_of (short_of (name_at (map (λ w. w.now) names.now)) (shape_view shape.now)) (O.owner owners.now) met.now) l) }
{
    let mut lines = lines?;
    put_held(names, shape, met, owners, &mut lines)?;
    Ok(lines)
}

/// Puts the lines of a shape with barriers behind others.
pub(crate) fn put_barred<A: Allocator + Copy>(
    names: &[&[u8]],
    shape: &ShapeOfNet<'_, '_>,
    barriers: &[Barrier],
    lines: &mut Lines<A>,
) -> Result<(), AllocError>
    ensures { OnOk result (lines.new ≡ lines.old ++ flat_map (routeblock_of (name_at (map (λ w. w.now) names.now)) (shape_view shape.now)) (map barrier_view barriers.now)) }
{
    for barrier in barriers {
        put_routeblock(shape, barrier, names, lines)?;
    }
    Ok(())
}

/// Puts the lines of a shape with those of a set that are of another net and touch it behind others, in an order that is left open, and
/// says how many shapes of the set were compared for them: all that touch it, and others near it.
pub fn put_touching<A: Allocator + Copy, S: ShapeSet, O: PartOwners>(
    names: &[&[u8]],
    shape: &ShapeOfNet<'_, '_>,
    shapes: &S,
    owners: &O,
    lines: Lines<A>,
) -> Result<Checked<A>, AllocError>
    ensures lines { IfOk result (λ c. SameLines c.lines
        (lines ++ flat_map (short_of (name_at (map (λ w. w.now) names.now)) (shape_view shape.now)) (net_shapes_of (O.owner owners.now) (S.shapes shapes.now).entries))) }
    ensures tests { IfOk result (λ c. c.tests ≤ S.most shapes.now shape.now.shape.now.layer shape.now.shape.now.rect) }
    ensures least { IfOk result (λ c. met_count shape.now.shape.now.layer shape.now.shape.now.rect (S.shapes shapes.now).entries ≤ c.tests) }
{
    let own = shape.shape;
    let (found, tests) = shapes.for_met(own.layer, own.rect, Ok(lines), |lines, _, met| {
        put_met(names, shape, met, owners, lines)
    });
    let lines = found?;
    Ok(Checked { lines, tests })
}
