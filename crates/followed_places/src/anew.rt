//! The lines on the components of a text, made anew while few statements are held at a time.

ghost use Rattle.std.specs.Prelude.{◌≡◌, ◌<◌, ◌≤◌, ◌++◌, IfOk, OnOk, filter, flat_map, map};
ghost use Rattle.std.specs.List.{filter_map};
ghost use Rattle.def_reader.specs.StatementViews.{records_view};
ghost use Rattle.design_rules.specs.Boxes.{box_of};
ghost use Rattle.design_rules.specs.PlaceLines.{lines_in};
ghost use Rattle.design_rules.specs.Surroundings.{Surroundings as Around};
ghost use Rattle.design_model.specs.Views.{rectangle_of};
ghost use Rattle.line_laws.specs.Lines.{SameLines, SameThings};
ghost use Rattle.line_laws.specs.OneLaws.{component_lines};
ghost use Rattle.place_checks.specs.IndexViews.{surroundings_view};
ghost use Rattle.place_checks.specs.SameSurroundings.{HaveSameLines};
ghost use Rattle.place_checks.specs.Sweep.{InSweepOrder};
ghost use Rattle.place_checks.specs.Views.{bare, swept_view};
ghost use Rattle.staying_laws.specs.PlaceStatements.{surrounds_or_blocks};
ghost use Rattle.staying_laws.specs.Staying.{lines_on_places};
ghost use Rattle.design_text.specs.DesignTexts.{design_of};
ghost use Rattle.design_text.specs.Exchanges.{records_in};
ghost use Rattle.followed_places.specs.Halves.{is_in};

use crate::around::push_numbers_around;
use crate::followed::units_are_good;
use crate::halves::{Half, components_in, reaching};
use cell_library::library::Library;
use def_reader::statement::Statement;
use design_model::geometry::Rect;
use design_model::identifier::StmtId;
use design_text::text::DesignText;
use line_laws::same::{maps_are_same, permutations_are_same};
use place_checks::between::{put_lines_across, put_lines_between};
use place_checks::keep_outs::keep_outs_of;
use place_checks::place_lines::put_components;
use place_checks::scale::scale_of;
use place_checks::surroundings::{Surroundings, surroundings_of};
use place_checks::swept_box::SweptBox;
use report_lines::Lines;
use staying_laws::surroundings_are_told;
use std::alloc::{AllocError, Allocator};
use text_pieces::lent::chunks_go_on;

/// The numbers of the statements of a text that tell what stands round components and what keeps them out, in their order.
fn numbers_in<A: Allocator + Copy>(
    alloc: A,
    text: &DesignText<A>,
) -> Result<Vec<StmtId, A>, AllocError>
    ensures { IfOk result (λ v. v.items ≡ map (λ x. x.0) (filter (λ x. surrounds_or_blocks x.1) (records_in text.now))) }
{
    chunks_go_on();
    text.statements_are_kept();
    let mut numbers = Vec::new(alloc);
    for place in 0..text.chunks() {
        let statements = text.kept_numbered(alloc, text.chunk(place))?;
        push_numbers_around(&statements, &mut numbers)?;
    }
    Ok(numbers)
}

/// These statements.
fn statements_around<'t, A: Allocator + Copy>(
    alloc: A,
    text: &'t DesignText<A>,
) -> Result<Vec<Statement<'t>, A>, AllocError>
    ensures { IfOk result (λ v. records_view v.items ≡ filter surrounds_or_blocks (design_of text.entry.now)) }
{
    text.statements_are_kept();
    let numbers = numbers_in(alloc, text)?;
    let around = text.kept(alloc, &numbers)?;
    Ok(around)
}

/// A text whose components are gone over: what they are measured by, what they stand in, and what keeps them out.
#[derive(Drop)]
struct Placement<'a, 't, 'l, A: Allocator + Copy> {
    library: &'t Library<'l, A>,
    scale: u32,
    surroundings: &'a Surroundings<'t, A>,
    keep_outs: &'a [Rect],
    text: &'t DesignText<A>,
}

/// Puts the lines of the components of a half in their surroundings behind others, and what a sweep knows of them behind what it knows of
/// others. Of the statements those of one chunk alone are held.
fn put_components_in<'t, A: Allocator + Copy>(
    alloc: A,
    placement: &Placement<'_, 't, '_, A>,
    half: Half,
    boxes: &mut Vec<SweptBox<'t>, A>,
    lines: &mut Lines<A>,
) -> Result<(), AllocError>
    requires some { 0 < placement.now.scale }
    requires few { placement.now.scale ≤ 100000 }
    ensures lines { (s : Around) → HaveSameLines (surroundings_view placement.now.surroundings.now) s
        → OnOk result (lines.new ≡ lines.old ++ flat_map (lines_in s) (filter (is_in half) (filter_map (box_of placement.now.library.now placement.now.scale) (design_of placement.now.text.now)))) }
    ensures boxes { OnOk result (map swept_view boxes.new.items ≡ map swept_view boxes.old.items ++ map bare (filter (is_in half) (filter_map (box_of placement.now.library.now placement.now.scale) (design_of placement.now.text.now)))) }
{
    chunks_go_on();
    let text = placement.text;
    text.statements_are_kept();
    for place in 0..text.chunks() {
        let statements = text.kept(alloc, text.chunk(place))?;
        let components = components_in(
            alloc,
            placement.library,
            placement.scale,
            half,
            &statements,
        )?;
        put_components(alloc, placement.surroundings, &components, boxes, lines)?;
    }
    Ok(())
}

/// Puts all lines of the components of a half by themselves behind others, and gives what a sweep knows of them, in its order.
fn put_half<'t, A: Allocator + Copy>(
    alloc: A,
    placement: &Placement<'_, 't, '_, A>,
    half: Half,
    lines: &mut Lines<A>,
) -> Result<Vec<SweptBox<'t>, A>, AllocError>
    requires some { 0 < placement.now.scale }
    requires few { placement.now.scale ≤ 100000 }
    ensures lines { (s : Around) → HaveSameLines (surroundings_view placement.now.surroundings.now) s
        → OnOk result (SameLines lines.new (lines.old ++ component_lines s (map rectangle_of placement.now.keep_outs.now) (filter (is_in half) (filter_map (box_of placement.now.library.now placement.now.scale) (design_of placement.now.text.now))))) }
    ensures sorted { IfOk result (λ v. InSweepOrder v.items) }
    ensures same { IfOk result (λ v. SameThings (map bare (filter (is_in half) (filter_map (box_of placement.now.library.now placement.now.scale) (design_of placement.now.text.now)))) (map swept_view v.items)) }
{
    permutations_are_same::<SweptBox<'t>>();
    maps_are_same::<SweptBox<'t>>();
    let mut boxes = Vec::new(alloc);
    put_components_in(alloc, placement, half, &mut boxes, lines)?;
    put_lines_between(&mut boxes, placement.keep_outs, lines)?;
    Ok(boxes)
}

/// The ordinate at which components are parted in two halves: the middle of the die.
fn middle_of<A: Allocator>(surroundings: &Surroundings<'_, A>) -> i64 {
    match surroundings.die {
        Some(die) => die.y1 / 2 + die.y2 / 2,
        None => 0,
    }
}

/// The lines on the components of a text: those of each half by itself, and then those of components of the lower half that reach into the
/// upper one with those of that one.
fn lines_in_halves<A: Allocator + Copy>(
    alloc: A,
    placement: &Placement<'_, '_, '_, A>,
) -> Result<Lines<A>, AllocError>
    requires some { 0 < placement.now.scale }
    requires few { placement.now.scale ≤ 100000 }
    ensures { (s : Around) → HaveSameLines (surroundings_view placement.now.surroundings.now) s
        → IfOk result (λ l. SameLines l (component_lines s (map rectangle_of placement.now.keep_outs.now) (filter_map (box_of placement.now.library.now placement.now.scale) (design_of placement.now.text.now)))) }
{
    let middle = middle_of(placement.surroundings);
    let mut lines = Lines::new(alloc);
    let low = put_half(alloc, placement, Half::Below(middle), &mut lines)?;
    let up = reaching(alloc, &low, middle)?;
    drop(low);
    let high = put_half(alloc, placement, Half::From(middle), &mut lines)?;
    put_lines_across(&up, &high, &mut lines)?;
    Ok(lines)
}

/// The lines on the components of a text, made anew, in an order that is left open. Each statement is read three times and few are held at a
/// time: of each component of one half of the die 48 bytes are kept until these are compared.
pub fn lines_on_places<'t, A: Allocator + Copy>(
    alloc: A,
    library: &'t Library<'_, A>,
    text: &'t DesignText<A>,
) -> Result<Lines<A>, AllocError>
    ensures { IfOk result (λ l. SameLines l (lines_on_places library.entry.now (design_of text.entry.now))) }
{
    units_are_good(text);
    surroundings_are_told();
    text.statements_are_kept();
    let around = statements_around(alloc, text)?;
    let scale = scale_of(&around);
    let surroundings = surroundings_of(alloc, library, &around)?;
    let keep_outs = keep_outs_of(alloc, &around)?;
    drop(around);
    let placement = Placement {
        library,
        scale,
        surroundings: &surroundings,
        keep_outs: &keep_outs,
        text,
    };
    let lines = lines_in_halves(alloc, &placement)?;
    Ok(lines)
}
