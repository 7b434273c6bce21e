//! Rectangles where routing is blocked (LEF/DEF 5.8 Language Reference, "Blockages").

ghost use Rattle.std.specs.Prelude.{◌≡◌, ◌++◌, IfOk, OnOk, Some, flat_map, map};
ghost use Rattle.std.specs.List.{list_any};
ghost use Rattle.design_model.specs.Views.{rectangle_of};
ghost use Rattle.place_parts.specs.BlockageViews.{blockage_clause_view, blockage_clauses_of, blockage_view};
ghost use Rattle.def_reader.specs.StatementViews.{records_view};
ghost use Rattle.connection_rules.specs.NetLines.{barriers_of, barriers_of_kind, barriers_on, spares_power};
ghost use Rattle.net_touches.specs.Barriers.{barrier_view};
ghost use Rattle.net_checks.specs.BarrierViews.{as_barrier};

use cell_library::library::Library;
use def_reader::entry::Entry;
use def_reader::statement::Statement;
use design_model::geometry::Rect;
use design_model::identifier::LayerId;
use lefdef_tokens::is_word;
use net_touches::Barrier;
use place_checks::blocked_shapes::{is_spared, push_rectangles};
use place_parts::blockages::{BlockageClause, BlockageEntry, BlockageKind, BlockageParts};
use statement_reader::parts::Parts;
use std::alloc::{AllocError, Allocator};

/// Whether one of these clauses spares nets of power.
fn spares_power<'t>(clauses: Parts<'t, BlockageClause<'t>>) -> bool
    ensures { result ≡ list_any spares_power (blockage_clauses_of clauses.entry) }
{
    let mut left = clauses;
    while let Some(clause) = left.next() {
        if is_word(clause.kept.keyword.bytes, b"EXCEPTPGNET") {
            return true;
        }
    }
    false
}

/// Adds these rectangles as barriers on a layer.
fn push_barriers<A: Allocator>(
    layer: LayerId,
    spares_power: bool,
    rects: &[Rect],
    found: &mut Vec<Barrier, A>,
) -> Result<(), AllocError>
    ensures { OnOk result (map barrier_view found.new.items ≡ map barrier_view found.old.items ++ map (as_barrier layer.0 spares_power) (map rectangle_of rects.now)) }
{
    for rect in rects {
        found.push(Barrier {
            layer,
            rect: *rect,
            spares_power,
        })?;
    }
    Ok(())
}

/// Adds the barriers of an entry on a layer.
fn push_on<A: Allocator + Copy>(
    alloc: A,
    blockage: &BlockageParts<'_>,
    layer: LayerId,
    found: &mut Vec<Barrier, A>,
) -> Result<(), AllocError>
    ensures { OnOk result (map barrier_view found.new.items ≡ map barrier_view found.old.items ++ barriers_on (blockage_view blockage.now) (Some layer.0)) }
{
    let mut rects = Vec::new(alloc);
    push_rectangles(blockage, &mut rects)?;
    push_barriers(layer, spares_power(blockage.clauses.again()), &rects, found)?;
    Ok(())
}

/// Adds the barriers of an entry.
fn push_of_blockage<A: Allocator + Copy>(
    alloc: A,
    library: &Library<'_, A>,
    blockage: &BlockageParts<'_>,
    found: &mut Vec<Barrier, A>,
) -> Result<(), AllocError>
    ensures { let b = blockage_view blockage.now in OnOk result (map barrier_view found.new.items ≡ map barrier_view found.old.items ++ barriers_of_kind library.now.layers b b.kind) }
{
    match blockage.kind {
        BlockageKind::Layer(name) if !is_spared(blockage) => match library.layer(name.bytes) {
            Some(layer) => push_on(alloc, blockage, layer, found),
            None => Ok(()),
        },
        BlockageKind::Placement | BlockageKind::Layer(_) => Ok(()),
    }
}

/// The rectangles where routing is blocked on a layer, in the order of the text.
pub fn barriers_of<A: Allocator + Copy>(
    alloc: A,
    library: &Library<'_, A>,
    records: &[Statement<'_>],
) -> Result<Vec<Barrier, A>, AllocError>
    ensures { IfOk result (λ v. map barrier_view v.items ≡ flat_map (barriers_of library.now.layers) (records_view records.now)) }
{
    let mut found = Vec::new(alloc);
    for statement in records {
        let Statement::Entry(Entry::Blockage(blockage)) = statement else {
            continue;
        };
        if let BlockageEntry::Blocks(blockage) = blockage.parts() {
            push_of_blockage(alloc, library, &blockage, &mut found)?;
        }
    }
    Ok(found)
}
