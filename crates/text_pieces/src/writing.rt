//! Writing the pieces of a text, one after the other.

ghost use Rattle.std.specs.Prelude.{◌<◌, ◌≤◌, ◌+◌, ◌^◌, map};
ghost use Rattle.std.specs.List.{concat};
ghost use Rattle.text_pieces.specs.Content.{bytes_of};
ghost use Rattle.text_pieces.specs.Tables.{AreHome, IsTable, kept_at, standing, table_of};
ghost use Rattle.text_pieces.specs.Writing.{Writes};

use crate::table::PieceTable;
use counted_devices::counted::CountedWrite;
use counted_devices::output::{WriteFault, write_whole};
use design_model::identifier::StmtId;
use std::alloc::Allocator;

/// Writes the pieces of some numbers.
fn write_ids<A: Allocator, W: CountedWrite>(
    table: &PieceTable<A>,
    ids: &[StmtId],
    chunk: usize,
    out: &mut W,
    patience: &mut u32,
) -> Result<(), WriteFault>
    requires kept { AreHome (table_of table.now).slots chunk ids.now }
    requires few { W.failed out.old + patience.old < 2 ^ 63 + 2 ^ 32 }
    ensures { Writes
        (record { contents = W.contents out.old; hard = W.failed_hard out.old; failed = W.failed out.old; patience = patience.old })
        (record { contents = W.contents out.new; hard = W.failed_hard out.new; failed = W.failed out.new; patience = patience.new })
        (concat (bytes_of (map (kept_at (table_of table.now).slots) ids.now)))
        result }
{
    for id in ids {
        write_whole(out, table.pieces[id.0].bytes.as_slice(), patience)?;
    }
    Ok(())
}

/// Writes the pieces of all statements that stand.
pub(crate) fn write_pieces<A: Allocator, W: CountedWrite>(
    table: &PieceTable<A>,
    out: &mut W,
    patience: &mut u32,
) -> Result<(), WriteFault>
    requires table { IsTable (table_of table.now) }
    requires few { W.failed out.old + patience.old < 2 ^ 63 + 2 ^ 32 }
    ensures { Writes
        (record { contents = W.contents out.old; hard = W.failed_hard out.old; failed = W.failed out.old; patience = patience.old })
        (record { contents = W.contents out.new; hard = W.failed_hard out.new; failed = W.failed out.new; patience = patience.new })
        (concat (bytes_of (standing (table_of table.now))))
        result }
{
    for k in 0..table.chunk_count() {
        write_ids(table, table.ids_in(k), k, out, patience)?;
    }
    Ok(())
}
