//! The lines of a report on the present text, part by part.

ghost use Rattle.std.specs.Prelude.{◌≡◌, ◌++◌, ◌<◌, ◌≤◌, ◌^◌, IfOk, IsSome, List, MatchOption, OnOk, flat_map, map};
ghost use Rattle.def_grammar.specs.Records.{Record};
ghost use Rattle.def_reader.specs.StatementViews.{record_view};
ghost use Rattle.lef_grammar.specs.Library.{Library as TheLibrary};
ghost use Rattle.connection_rules.specs.NetLines.{net_lines};
ghost use Rattle.design_rules.specs.Boxes.{scale};
ghost use Rattle.report_rules.specs.Diagnostics.{statement_lines};
ghost use Rattle.design_rules.specs.OverlapLines.{overlap_lines};
ghost use Rattle.design_rules.specs.PlaceLines.{place_lines};
ghost use Rattle.line_laws.specs.Lines.{SameLines};
ghost use Rattle.staying_laws.specs.Staying.{lines_on_places, lines_on_statements};
ghost use Rattle.design_text.specs.DesignTexts.{design_of, text_of};
ghost use Rattle.net_checks.specs.Drawings.{IsDrawingOf};
ghost use Rattle.std.specs.List.{All};
ghost use Rattle.design_model.specs.Ranges.{IsWithin};
ghost use Rattle.measure_rules.specs.GridCells.{lines_along_x, lines_along_y};
ghost use Rattle.measure_rules.specs.Lengths.{total_length};
ghost use Rattle.edit_session.specs.Known.{AllKnown, AreDrawn, AreDrawnOf, AreKept, AreKnown, AreKnownOf};

use crate::drawn_nets::{DrawnNets, drawn_nets};
use crate::known_lines::KnownLines;
use crate::no_nets::know_no_nets;
use cell_library::library::Library;
use def_reader::statement::Statement;
use design_names::names::{Names, names_of};
use design_text::text::DesignText;
use entry_checks::known::Defined;
use entry_checks::statement_lines::StatementChecks;
use entry_checks::unchecked::unchecked_in_library;
use followed_places::lines_on_places;
use followed_statements::{lines_on_statements, put_statement};
use kept_lines::KeptLines;
use line_laws::scales::scales_are_good;
use line_laws::sorting::same_lines_sort_alike;
use measure_laws::lengths::lengths_fit;
use measure_laws::ranges::lines_fit;
use net_checks::NetDrawing;
use place_checks::between::put_lines_between;
use place_checks::boxes::boxes_among;
use place_checks::count::counts_of;
use place_checks::keep_outs::keep_outs_of;
use place_checks::place_lines::put_components;
use place_checks::scale::scale_of;
use place_checks::surroundings::surroundings_of;
use report_lines::Lines;
use std::alloc::{AllocError, Allocator};

/// Puts the lines on each of these statements by itself behind others, in one walk over them.
fn put_each<'t, A: Allocator + Copy>(
    alloc: A,
    library: &Library<'_, A>,
    names: &Names<'_, 't, A>,
    records: &[Statement<'t>],
    lines: &mut Lines<A>,
) -> Result<(), AllocError>
    ensures { OnOk result (lines.new ≡ lines.old ++ flat_map (statement_lines library.now names.now) (map record_view records.now)) }
{
    let defined = Defined { library, names };
    let mut checks = StatementChecks::new(alloc, &defined);
    for statement in records {
        put_statement(&mut checks, statement, lines)?;
    }
    Ok(())
}

/// Puts the lines on components and what they stand in behind others, in the order of a sweep over them.
fn put_places<'t, A: Allocator + Copy>(
    alloc: A,
    library: &'t Library<'_, A>,
    records: &[Statement<'t>],
    lines: &mut Lines<A>,
) -> Result<(), AllocError>
    requires some { 0 < scale (map record_view records.now) }
    requires few { scale (map record_view records.now) ≤ 100000 }
    ensures { let design = map record_view records.entry.now in
        OnOk result (SameLines lines.new (lines.old ++ (overlap_lines library.now design ++ place_lines library.now design))) }
{
    let surroundings = surroundings_of(alloc, library, records)?;
    let keep_outs = keep_outs_of(alloc, records)?;
    let components = boxes_among(alloc, library, scale_of(records), records)?;
    let mut boxes = Vec::new(alloc);
    put_components(alloc, &surroundings, &components, &mut boxes, lines)?;
    put_lines_between(&mut boxes, &keep_outs, lines)
}

/// The lines on components.
fn on_places<'t, A: Allocator + Copy>(
    alloc: A,
    library: &'t Library<'_, A>,
    records: &[Statement<'t>],
) -> Result<KeptLines<A>, AllocError>
    requires some { 0 < scale (map record_view records.now) }
    requires few { scale (map record_view records.now) ≤ 100000 }
    ensures { IfOk result (AreKept (lines_on_places library.entry.now (map record_view records.entry.now))) }
{
    same_lines_sort_alike();
    let mut lines = Lines::new(alloc);
    put_places(alloc, library, records, &mut lines)?;
    Ok(KeptLines::of(lines))
}

/// The lines on headers, on each statement by itself, and on the library.
fn on_statements<A: Allocator + Copy>(
    alloc: A,
    library: &Library<'_, A>,
    names: &Names<'_, '_, A>,
) -> Result<KeptLines<A>, AllocError>
    ensures { IfOk result (AreKept (lines_on_statements library.now names.now)) }
{
    let records = names.records();
    let mut lines = Lines::new(alloc);
    counts_of(records, &mut lines)?;
    put_each(alloc, library, names, records, &mut lines)?;
    unchecked_in_library(library, &mut lines)?;
    Ok(KeptLines::of(lines))
}

/// The lines on nets.
fn on_nets<A: Allocator + Copy>(
    alloc: A,
    nets: &NetDrawing<'_, '_, A>,
) -> Result<KeptLines<A>, AllocError>
    ensures { (library : TheLibrary) (design : List Record) → IsDrawingOf library design nets.now → IfOk result (AreKept (net_lines library design (scale design))) }
{
    same_lines_sort_alike();
    let lines = nets.put_lines(alloc, Lines::new(alloc))?;
    Ok(KeptLines::of(lines))
}

/// Makes the lines on components known.
fn know_places<'t, A: Allocator + Copy>(
    alloc: A,
    library: &'t Library<'_, A>,
    records: &[Statement<'t>],
    known: &mut KnownLines<A>,
) -> Result<(), AllocError>
    requires some { 0 < scale (map record_view records.now) }
    requires few { scale (map record_view records.now) ≤ 100000 }
    requires known { AreKnown library.now (map record_view records.now) known.old }
    ensures known { AreKnown library.entry.now (map record_view records.entry.now) known.new }
    ensures places { OnOk result (IsSome known.new.places) }
{
    if known.places.is_none() {
        known.places = Some(on_places(alloc, library, records)?);
    }
    Ok(())
}

/// Makes the lines on statements known, and gives what is drawn of a design, unless the lines on nets are known.
fn know_statements<'l, 't, A: Allocator + Copy>(
    alloc: A,
    library: &'t Library<'l, A>,
    records: &[Statement<'t>],
    is_measured: bool,
    known: &mut KnownLines<A>,
) -> Result<Option<DrawnNets<'l, 't, A>>, AllocError>
    requires some { 0 < scale (map record_view records.now) }
    requires few { scale (map record_view records.now) ≤ 100000 }
    requires lengths { total_length library.now (map record_view records.now) (scale (map record_view records.now)) < 2 ^ 64 }
    requires across { All (IsWithin 2147483647) (flat_map lines_along_x (map record_view records.now)) }
    requires upward { All (IsWithin 2147483647) (flat_map lines_along_y (map record_view records.now)) }
    requires known { AreKnown library.now (map record_view records.now) known.old }
    ensures known { AreKnown library.entry.now (map record_view records.entry.now) known.new }
    ensures places { known.new.places ≡ known.old.places }
    ensures statements { OnOk result (IsSome known.new.statements) }
    ensures nets { IfOk result (λ nets. MatchOption nets (IsSome known.new.nets) (AreDrawn library.entry.now (map record_view records.entry.now))) }
{
    let names = names_of(alloc, library.hash_builder(), records)?;
    if known.statements.is_none() {
        known.statements = Some(on_statements(alloc, library, &names)?);
    }
    if known.nets.is_some() {
        return Ok(None);
    }
    let drawn = drawn_nets(alloc, library, &names, is_measured)?;
    Ok(Some(drawn))
}

/// The lines on the headers and the statements of a text and on its library, few statements at a time.
fn on_statements_of<A: Allocator + Copy>(
    alloc: A,
    library: &Library<'_, A>,
    text: &DesignText<A>,
) -> Result<KeptLines<A>, AllocError>
    ensures { IfOk result (AreKept (lines_on_statements library.now (design_of text.now))) }
{
    same_lines_sort_alike();
    Ok(KeptLines::of(lines_on_statements(alloc, library, text)?))
}

/// The lines on the components of a text, few statements at a time.
fn on_places_of<A: Allocator + Copy>(
    alloc: A,
    library: &Library<'_, A>,
    text: &DesignText<A>,
) -> Result<KeptLines<A>, AllocError>
    ensures { IfOk result (AreKept (lines_on_places library.now (design_of text.now))) }
{
    same_lines_sort_alike();
    Ok(KeptLines::of(lines_on_places(alloc, library, text)?))
}

/// Makes the lines on the statements of a text known, few statements at a time.
fn know_statements_of<A: Allocator + Copy>(
    alloc: A,
    library: &Library<'_, A>,
    text: &DesignText<A>,
    known: &mut KnownLines<A>,
) -> Result<(), AllocError>
    requires { AreKnown library.now (design_of text.now) known.old }
    ensures known { AreKnown library.now (design_of text.now) known.new }
    ensures nets { known.new.nets ≡ known.old.nets }
    ensures statements { OnOk result (IsSome known.new.statements) }
{
    if known.statements.is_none() {
        known.statements = Some(on_statements_of(alloc, library, text)?);
    }
    Ok(())
}

/// Makes the lines on the components of a text known, few statements at a time.
fn know_places_of<A: Allocator + Copy>(
    alloc: A,
    library: &Library<'_, A>,
    text: &DesignText<A>,
    known: &mut KnownLines<A>,
) -> Result<(), AllocError>
    requires { AreKnown library.now (design_of text.now) known.old }
    ensures known { AreKnown library.now (design_of text.now) known.new }
    ensures nets { known.new.nets ≡ known.old.nets }
    ensures statements { known.new.statements ≡ known.old.statements }
    ensures places { OnOk result (IsSome known.new.places) }
{
    if known.places.is_none() {
        known.places = Some(on_places_of(alloc, library, text)?);
    }
    Ok(())
}

/// Makes the lines on statements and on components known, where those on nets are. All statements are never held at once.
fn know_by_few<A: Allocator + Copy>(
    alloc: A,
    library: &Library<'_, A>,
    text: &DesignText<A>,
    known: &mut KnownLines<A>,
) -> Result<(), AllocError>
    requires known { AreKnownOf library.now (text_of text.now) known.old }
    requires nets { IsSome known.old.nets }
    ensures known { AreKnownOf library.now (text_of text.now) known.new }
    ensures all { OnOk result (AllKnown known.new) }
{
    text.design_is_read();
    know_statements_of(alloc, library, text, known)?;
    know_places_of(alloc, library, text, known)?;
    Ok(())
}

/// Makes all lines known but those on nets, and gives what is drawn of them, unless the lines on them are known too. Each statement is
/// read once, from its piece, and none is kept.
fn know_all_but_nets<'l, 't, A: Allocator + Copy>(
    alloc: A,
    library: &'t Library<'l, A>,
    text: &'t DesignText<A>,
    is_measured: bool,
    known: &mut KnownLines<A>,
) -> Result<Option<DrawnNets<'l, 't, A>>, AllocError>
    requires { AreKnownOf library.now (text_of text.now) known.old }
    ensures known { AreKnownOf library.entry.now (text_of text.entry.now) known.new }
    ensures statements { OnOk result (IsSome known.new.statements) }
    ensures places { OnOk result (IsSome known.new.places) }
    ensures nets { IfOk result (λ nets. MatchOption nets (IsSome known.new.nets) (λ d. AreDrawnOf library.entry.now (text_of text.entry.now) d)) }
{
    scales_are_good();
    lengths_fit();
    lines_fit();
    let records = text.statements(alloc)?;
    know_places(alloc, library, &records, known)?;
    know_statements(alloc, library, &records, is_measured, known)
}

/// Makes the lines on nets known, and what is measured with them, if that is to be.
fn know_nets<A: Allocator + Copy>(
    alloc: A,
    drawn: DrawnNets<'_, '_, A>,
    known: &mut KnownLines<A>,
) -> Result<(), AllocError>
    ensures known { (library : TheLibrary) (design : List Record) → AreDrawn library design drawn.entry → AreKnown library design known.old → AreKnown library design known.new }
    ensures statements { known.new.statements ≡ known.old.statements }
    ensures places { known.new.places ≡ known.old.places }
    ensures nets { OnOk result (IsSome known.new.nets) }
{
    known.nets = Some(on_nets(alloc, &drawn.nets)?);
    known.measures = drawn.into_measures()?;
    Ok(())
}

/// Makes the lines on a text known, and what is measured of it, unless it is measured already. What was known is not made again.
pub(crate) fn know_lines<A: Allocator + Copy>(
    alloc: A,
    library: &Library<'_, A>,
    text: &DesignText<A>,
    is_measured: bool,
    known: &mut KnownLines<A>,
) -> Result<(), AllocError>
    requires { AreKnownOf library.now (text_of text.now) known.old }
    ensures known { AreKnownOf library.now (text_of text.now) known.new }
    ensures all { OnOk result (AllKnown known.new) }
{
    know_no_nets(alloc, text, known);
    if known.are_all() {
        return Ok(());
    }
    if known.nets.is_some() {
        return know_by_few(alloc, library, text, known);
    }
    if let Some(drawn) = know_all_but_nets(alloc, library, text, is_measured, known)? {
        know_nets(alloc, drawn, known)?;
    }
    Ok(())
}
