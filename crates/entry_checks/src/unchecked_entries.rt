//! Parts of entries whose shape isn't checked (LEF/DEF 5.8 Language Reference, "DEF Syntax").

ghost use Rattle.std.specs.Prelude.{◌≡◌, ◌<◌, ◌≤◌, ◌^◌, ◌++◌, filter, length, IfOk, OnOk};
ghost use Rattle.def_grammar.specs.Records.{blockage};
ghost use Rattle.place_parts.specs.BlockageViews.{blockage_entry_view, blockage_shape_view, blockage_shapes_of};
ghost use Rattle.place_parts.specs.DieAreaViews.{die_area_view};
ghost use Rattle.place_parts.specs.PinViews.{pin_clauses_of};
ghost use Rattle.via_parts.specs.ViaViews.{via_clauses_of};
ghost use Rattle.def_reader.specs.EntryViews.{entry_view};
ghost use Rattle.entry_rules.specs.References.{entry_references};
ghost use Rattle.entry_references.specs.ReferenceViews.{references_view};
ghost use Rattle.entry_rules.specs.Unchecked.{is_blocked_polygon, is_more, is_polygon_of_pin, is_polygon_of_via, one_if, unchecked_in};

use crate::unchecked_parts::{UncheckedParts, count_unchecked};
use crate::unchecked_special_nets::in_special_net;
use def_reader::entry::Entry;
use entry_references::entries::push_references;
use entry_references::nets::push_net;
use entry_references::reference::Reference;
use entry_references::token_count::few_tokens;
use place_parts::blockages::{BlockageEntry, BlockageShape};
use place_parts::die_area::DieAreaParts;
use place_parts::pins::PinClause;
use statement_reader::parts::Parts;
use std::alloc::{AllocError, Allocator};
use via_parts::vias::ViaClause;

impl<'t> UncheckedParts for Parts<'t, PinClause<'t>> {
    ghost unchecked = { λ p. length (filter is_polygon_of_pin (pin_clauses_of p)) };

    ghost left = { λ p. p.most };

    fn next_unchecked(&mut self) -> Option<usize> {
        match self.next()? {
            PinClause::Polygon(_, _) => Some(1),
            _ => Some(0),
        }
    }
}

impl<'t> UncheckedParts for Parts<'t, ViaClause<'t>> {
    ghost unchecked = { λ p. length (filter is_polygon_of_via (via_clauses_of p)) };

    ghost left = { λ p. p.most };

    fn next_unchecked(&mut self) -> Option<usize> {
        match self.next()? {
            ViaClause::Polygon(_) => Some(1),
            _ => Some(0),
        }
    }
}

/// 1 for a polygon.
fn in_shape(shape: &BlockageShape<'_>) -> usize
    ensures { result ≡ one_if (is_blocked_polygon (blockage_shape_view shape.now)) }
{
    match shape {
        BlockageShape::Polygon(_) => 1,
        BlockageShape::Rectangle(_) => 0,
    }
}

impl<'t> UncheckedParts for Parts<'t, BlockageShape<'t>> {
    ghost unchecked = { λ p. length (filter is_blocked_polygon (blockage_shapes_of p)) };

    ghost left = { λ p. p.most };

    fn next_unchecked(&mut self) -> Option<usize> {
        let shape = self.next()?;
        Some(in_shape(&shape))
    }
}

/// How many clauses of a pin are polygons.
#[tactic(auto, using(crate::proofs::ClauseCounts::few_of_pin))]
fn polygons_of_pin<'t>(clauses: &Parts<'t, PinClause<'t>>) -> usize
    ensures count { result ≡ length (filter is_polygon_of_pin (pin_clauses_of clauses.now)) }
    ensures few { result ≤ 2 ^ 62 }
{
    few_tokens(&clauses.cursor);
    count_unchecked(clauses.again())
}

/// How many clauses of a via are polygons.
#[tactic(auto, using(crate::proofs::ClauseCounts::few_of_via))]
fn polygons_of_via<'t>(clauses: &Parts<'t, ViaClause<'t>>) -> usize
    ensures count { result ≡ length (filter is_polygon_of_via (via_clauses_of clauses.now)) }
    ensures few { result ≤ 2 ^ 62 }
{
    few_tokens(&clauses.cursor);
    count_unchecked(clauses.again())
}

/// How many blocked shapes are polygons.
#[tactic(auto, using(crate::proofs::ClauseCounts::few_blocked))]
fn blocked_polygons<'t>(shapes: &Parts<'t, BlockageShape<'t>>) -> usize
    ensures count { result ≡ length (filter is_blocked_polygon (blockage_shapes_of shapes.now)) }
    ensures few { result ≤ 2 ^ 62 }
{
    few_tokens(&shapes.cursor);
    count_unchecked(shapes.again())
}

/// How many parts of a blockage aren't checked: its polygons, or all of one without its form, as one.
fn in_blockage(entry: &BlockageEntry<'_>) -> usize
    ensures count { result ≡ unchecked_in (blockage (blockage_entry_view entry.now)) }
    ensures few { result < 2 ^ 63 }
{
    match entry {
        BlockageEntry::Kept(_) => 1,
        BlockageEntry::Blocks(parts) => in_shape(&parts.first) + blocked_polygons(&parts.others),
    }
}

/// Adds what an entry names, and gives the count of its parts that have no checked shape.
fn push_counted<'t, A: Allocator>(
    entry: &Entry<'t>,
    unchecked: usize,
    references: &mut Vec<Reference<'t>, A>,
) -> Result<usize, AllocError>
    ensures references { OnOk result (references_view references.new.items ≡ references_view references.old.items ++ entry_references (entry_view entry.now)) }
    ensures count { IfOk result (λ n. n ≡ unchecked) }
{
    push_references(entry, references)?;
    Ok(unchecked)
}

/// Adds what an entry names, and gives how many of its parts have no checked shape.
pub(crate) fn push_entry<'t, A: Allocator>(
    entry: &Entry<'t>,
    references: &mut Vec<Reference<'t>, A>,
) -> Result<usize, AllocError>
    ensures references { OnOk result (references_view references.new.items ≡ references_view references.old.items ++ entry_references (entry_view entry.now)) }
    ensures count { IfOk result (λ n. n ≡ unchecked_in (entry_view entry.now)) }
    ensures few { IfOk result (λ n. n < 2 ^ 63) }
{
    match entry {
        Entry::Net(net) => push_net(net, references),
        Entry::SpecialNet(parts) => push_counted(entry, in_special_net(parts), references),
        Entry::Pin(parts) => push_counted(entry, polygons_of_pin(&parts.clauses), references),
        Entry::Blockage(blockage) => push_counted(
            entry,
            in_blockage(&blockage.parts()),
            references,
        ),
        Entry::Via(parts) => push_counted(entry, polygons_of_via(&parts.clauses), references),
        Entry::Component(_)
        | Entry::Region(_)
        | Entry::Group(_)
        | Entry::Rule(_)
        | Entry::Skipped(_, _) => push_counted(entry, 0, references),
    }
}

/// 1 for a die's area of more than two points, which counts as one part.
pub(crate) fn unchecked_in_die(area: &DieAreaParts<'_>) -> usize
    ensures count { result ≡ one_if (is_more (die_area_view area.now).others) }
    ensures few { result ≤ 1 }
{
    match area.others.again().peek() {
        Some(_) => 1,
        None => 0,
    }
}
