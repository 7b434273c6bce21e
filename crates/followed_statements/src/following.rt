//! Lines that follow an edit, exchange by exchange.

ghost use Rattle.std.specs.Prelude.{IfOk, IfSome, List};
ghost use Rattle.design_model.specs.declared.identifier.StmtId.{StmtId as Number};
ghost use Rattle.def_grammar.specs.Records.{Record};
ghost use Rattle.design_text.specs.DesignTexts.{design_of};
ghost use Rattle.design_text.specs.Exchanges.{AreExchanges, IsExchange, exchange_view, records_in};
ghost use Rattle.followed_statements.specs.Following.{AreKeptBy, AreOnStatements, said};
ghost use Rattle.followed_statements.specs.Telling.{AreStatementsTold};

use crate::lines::lines_under;
use crate::listing::told_lines;
use crate::seeing::shows_all_but;
use crate::showing::shows_same;
use crate::telling::{ToldStatements, name_in};
use agreement_laws::{lines_follow_one_name, same_outline_same_counts, same_shown_same_lines};
use cell_library::library::Library;
use design_text::made::{Exchange, Made};
use design_text::text::DesignText;
use kept_lines::KeptLines;
use std::alloc::{AllocError, Allocator};

/// How many lines may be moved in all where some are exchanged: beyond that, making all of them anew is quicker.
const MOST_MOVED: usize = 1 << 28;

/// The lines after one exchange, by what names stand for in the text.
fn follow_exchange<A: Allocator + Copy>(
    alloc: A,
    library: &Library<'_, A>,
    text: &DesignText<A>,
    exchange: Exchange<'_>,
    kept: KeptLines<A>,
) -> Result<Option<KeptLines<A>>, AllocError>
    requires { (old : List (Number × Record)) × (new : List (Number × Record)) × IsExchange text.now.pieces.table.slots old new (exchange_view exchange) × AreKeptBy library.now (design_of text.now) (said old) kept }
    ensures { (old new : List (Number × Record)) → IsExchange text.now.pieces.table.slots old new (exchange_view exchange.entry) → AreKeptBy library.now (design_of text.now) (said old) kept
        → IfOk result (λ found. IfSome found (AreKeptBy library.now (design_of text.now) (said new))) }
{
    let out = lines_under(alloc, library, text, exchange.went)?;
    let put = lines_under(alloc, library, text, exchange.came)?;
    kept.followed(out, put, MOST_MOVED)
}

/// The lines after all exchanges of an edit, by what names stand for in the text.
fn follow_exchanges<A: Allocator + Copy>(
    alloc: A,
    library: &Library<'_, A>,
    text: &DesignText<A>,
    made: &Made<A>,
    kept: KeptLines<A>,
) -> Result<Option<KeptLines<A>>, AllocError>
    requires { (old : List (Number × Record)) × AreExchanges text.now.pieces.table.slots old made.now.exchanges (records_in text.now) × AreKeptBy library.now (design_of text.now) (said old) kept }
    ensures { IfOk result (λ found. IfSome found (AreKeptBy library.now (design_of text.now) (said (records_in text.now)))) }
{
    let mut kept = kept;
    for place in 0..made.len() {
        let Some(exchange) = made.exchange(place) else {
            return Ok(None);
        };
        let Some(lines) = follow_exchange(alloc, library, text, exchange, kept)? else {
            return Ok(None);
        };
        kept = lines;
    }
    Ok(Some(kept))
}

/// The lines on headers, on each statement by itself, and on the library after an edit that exchanges each statement for one that shows
/// the same.
fn follow_same<A: Allocator + Copy>(
    alloc: A,
    library: &Library<'_, A>,
    text: &DesignText<A>,
    made: &Made<A>,
    kept: KeptLines<A>,
) -> Result<Option<KeptLines<A>>, AllocError>
    requires { (old : List (Number × Record)) × AreExchanges text.now.pieces.table.slots old made.now.exchanges (records_in text.now) × AreOnStatements library.now (said old) kept }
    ensures { (old : List (Number × Record)) → AreExchanges text.now.pieces.table.slots old made.now.exchanges (records_in text.now) → AreOnStatements library.now (said old) kept
        → IfOk result (λ found. IfSome found (AreOnStatements library.now (said (records_in text.now)))) }
{
    same_outline_same_counts();
    same_shown_same_lines();
    text.statements_are_kept();
    if !shows_same(alloc, text, made)? {
        return Ok(None);
    }
    follow_exchanges(alloc, library, text, made, kept)
}

/// The same lines after an edit that changes sections, or what others see of a component, of which this was told before it.
fn follow_told<A: Allocator + Copy>(
    alloc: A,
    library: &Library<'_, A>,
    text: &DesignText<A>,
    made: &Made<A>,
    told: ToldStatements<A>,
    kept: KeptLines<A>,
) -> Result<Option<KeptLines<A>>, AllocError>
    requires { (old : List (Number × Record)) × AreExchanges text.now.pieces.table.slots old made.now.exchanges (records_in text.now) × AreStatementsTold library.now (said old) told × AreOnStatements library.now (said old) kept }
    ensures { (old : List (Number × Record)) → AreExchanges text.now.pieces.table.slots old made.now.exchanges (records_in text.now) → AreStatementsTold library.now (said old) told → AreOnStatements library.now (said old) kept
        → IfOk result (λ found. IfSome found (AreOnStatements library.now (said (records_in text.now)))) }
{
    same_shown_same_lines();
    lines_follow_one_name();
    text.statements_are_kept();
    let component = name_in(&told.component);
    if !shows_all_but(alloc, text, made, component)? {
        return follow_same(alloc, library, text, made, kept);
    }
    let Some(lines) = told_lines(alloc, library, text, component)? else {
        return Ok(None);
    };
    let Some(kept) = kept.followed(told.lines, lines, MOST_MOVED)? else {
        return Ok(None);
    };
    follow_exchanges(alloc, library, text, made, kept)
}

/// The lines on headers, on each statement by itself, and on the library after an edit, from those before it, of which something was told
/// if the edit changes sections; `None` where they are to be made anew, since the text shows something else of its statements then.
pub fn follow_statements<A: Allocator + Copy>(
    alloc: A,
    library: &Library<'_, A>,
    text: &DesignText<A>,
    made: &Made<A>,
    told: Option<ToldStatements<A>>,
    kept: KeptLines<A>,
) -> Result<Option<KeptLines<A>>, AllocError>
    requires { (old : List (Number × Record)) × AreExchanges text.now.pieces.table.slots old made.now.exchanges (records_in text.now) × IfSome told (AreStatementsTold library.now (said old)) × AreOnStatements library.now (said old) kept }
    ensures { (old : List (Number × Record)) → AreExchanges text.now.pieces.table.slots old made.now.exchanges (records_in text.now) → IfSome told (AreStatementsTold library.now (said old)) → AreOnStatements library.now (said old) kept
        → IfOk result (λ found. IfSome found (AreOnStatements library.now (said (records_in text.now)))) }
{
    match told {
        Some(told) => follow_told(alloc, library, text, made, told, kept),
        None => follow_same(alloc, library, text, made, kept),
    }
}
