//! The lines of things that are compared with one another, all of them.

ghost use Rattle.std.specs.Prelude.{◌≡◌, ◌++◌, IfOk, OnOk, map, option_map};
ghost use Rattle.design_model.specs.Families.{pair_lines};
ghost use Rattle.line_laws.specs.Lines.{SameLines};
ghost use Rattle.net_touches.specs.Barriers.{name_at};
ghost use Rattle.net_touches.specs.ThingViews.{seen, seen_at, thing_view};
ghost use Rattle.net_touches.specs.Things.{Adds, lines_at, lines_of_found, lines_of_two};

use crate::thing::{Thing, put_line};
use report_lines::Lines;
use shape_pairs::{Numbered, for_meeting_pairs};
use std::alloc::{AllocError, Allocator};

/// The rectangles of things, each with its thing's place.
fn numbered<A: Allocator + Copy>(
    alloc: A,
    things: &[Thing<'_, '_>],
) -> Result<Vec<Numbered, A>, AllocError>
    ensures { IfOk result (λ v. map (seen_at (map thing_view things.now)) v.items ≡ map seen (map thing_view things.now)) }
{
    let mut items = Vec::with_capacity(alloc, things.len())?;
    for (id, thing) in things.iter().enumerate() {
        items.push(Numbered {
            rect: thing.rect(),
            id,
        })?;
    }
    Ok(items)
}

/// Puts the line of two things, where both are there.
fn put_found<A: Allocator + Copy>(
    first: Option<&Thing<'_, '_>>,
    second: Option<&Thing<'_, '_>>,
    names: &[&[u8]],
    lines: &mut Lines<A>,
) -> Result<(), AllocError>
    ensures { OnOk result (lines.new ≡ lines.old ++ lines_of_found (name_at (map (λ w. w.now) names.now)) (option_map (λ x. thing_view x.now) first.entry) (option_map (λ x. thing_view x.now) second.entry)) }
{
    match (first, second) {
        (Some(first), Some(second)) => put_line(first, second, names, lines),
        _ => Ok(()),
    }
}

/// Puts the line of the things at two places, where there was memory for the lines before.
fn put_pair<A: Allocator + Copy>(
    names: &[&[u8]],
    things: &[Thing<'_, '_>],
    lines: Result<Lines<A>, AllocError>,
    i: usize,
    j: usize,
) -> Result<Lines<A>, AllocError>
    ensures { Adds (lines_at (name_at (map (λ w. w.now) names.now)) (map thing_view things.now) i j) lines result }
{
    let mut lines = lines?;
    put_found(things.get(i), things.get(j), names, &mut lines)?;
    Ok(lines)
}

/// Puts the lines of all pairs of things behind others, in an order that is left open.
pub(crate) fn put_pairs<A: Allocator + Copy>(
    alloc: A,
    names: &[&[u8]],
    things: &[Thing<'_, '_>],
    lines: Lines<A>,
) -> Result<Lines<A>, AllocError>
    ensures { IfOk result (λ l. SameLines l (lines ++ pair_lines (lines_of_two (name_at (map (λ w. w.now) names.now))) (map thing_view things.now))) }
{
    let items = numbered(alloc, things)?;
    for_meeting_pairs(alloc, &items, Ok(lines), |lines, i, j| {
        put_pair(names, things, lines, i, j)
    })?
}
