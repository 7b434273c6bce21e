//! The numbers of the statements that are read whichever net is told, after an edit.
//!
//! An exchange takes some of them, which stand one behind the other, out of the numbers, and puts others in at their place.

ghost use Rattle.std.specs.Prelude.{◌≡◌, ◌<◌, ◌+◌, ◌++◌, ◌∷◌, IfOk, IfSome, List, drop, length, take};
ghost use Rattle.std.specs.List.{list_any};
ghost use Rattle.design_model.specs.declared.identifier.StmtId.{StmtId as Number};
ghost use Rattle.def_grammar.specs.Records.{Record};
ghost use Rattle.text_pieces.specs.KeptRecords.{HavePieces};
ghost use Rattle.design_tables.specs.Lookups.{is_number};
ghost use Rattle.design_text.specs.Exchanges.{AreExchanges, IsExchange, exchange_view, records_in};
ghost use Rattle.followed_nets.specs.Noted.{AreCommon, telling_under};

use crate::noted::common_numbers;
use design_model::identifier::StmtId;
use design_text::made::{Exchange, Made};
use design_text::text::DesignText;
use std::alloc::{AllocError, Allocator};

/// Whether a number is one of these.
fn is_among(ids: &[StmtId], id: StmtId) -> bool
    ensures { result ≡ list_any (is_number id) ids.now }
{
    for other in ids {
        if other.0 == id.0 {
            return true;
        }
    }
    false
}

/// Where a number stands first among these.
fn place_of(ids: &[StmtId], id: StmtId) -> Option<usize>
    ensures parted { IfSome result (λ place. ids.now ≡ take place ids.now ++ id ∷ drop (place + 1) ids.now) }
    ensures below { IfSome result (λ place. place < length ids.now) }
{
    for place in 0..ids.len() {
        if ids[place].0 == id.0 {
            return Some(place);
        }
    }
    None
}

/// The numbers from a place on.
fn from_place<'i>(ids: &'i [StmtId], place: usize) -> Option<&'i [StmtId]>
    ensures { IfSome result (λ rest. rest.now ≡ drop place ids.entry.now) }
{
    let rest = ids.get(place..)?;
    Some(rest)
}

/// Where a number stands among these, if it stands there once.
fn only_place(ids: &[StmtId], id: StmtId) -> Option<usize>
    ensures { (front rest : List Number) → ids.now ≡ front ++ id ∷ rest → IfSome result (λ place. (front ≡ take place ids.now) × (length front ≡ place)) }
{
    let place = place_of(ids, id)?;
    let front = ids.get(..place)?;
    let rest = from_place(ids, place + 1)?;
    if is_among(front, id) || is_among(rest, id) {
        return None;
    }
    Some(place)
}

/// The numbers up to a place, others behind them, and what stands from another place on.
fn joined<A: Allocator + Copy>(
    alloc: A,
    ids: &[StmtId],
    from: usize,
    came: &[StmtId],
    to: usize,
) -> Result<Option<Vec<StmtId, A>>, AllocError>
    ensures { IfOk result (λ found. IfSome found (λ v. v.items ≡ take from ids.now ++ (came.now ++ drop to ids.now))) }
{
    let (Some(front), Some(rest)) = (ids.get(..from), ids.get(to..)) else {
        return Ok(None);
    };
    let mut all = Vec::from_slice(alloc, front)?;
    all.extend_from_slice(came)?;
    all.extend_from_slice(rest)?;
    Ok(Some(all))
}

/// Numbers once some that stand in a row among them went and others came at their place, where each stands once; `None` too where none went
/// and some came, whose place isn't known.
fn with_exchanged<A: Allocator + Copy>(
    alloc: A,
    ids: &[StmtId],
    went: &[StmtId],
    came: &[StmtId],
) -> Result<Option<Vec<StmtId, A>>, AllocError>
    ensures { (front rest : List Number) → ids.now ≡ front ++ (went.now ++ rest) → IfOk result (λ found. IfSome found (λ v. v.items ≡ front ++ (came.now ++ rest))) }
{
    let Some(first) = went.first() else {
        if !came.is_empty() {
            return Ok(None);
        }
        return Ok(Some(Vec::from_slice(alloc, ids)?));
    };
    let Some(place) = only_place(ids, *first) else {
        return Ok(None);
    };
    let Some(end) = place.checked_add(went.len()) else {
        return Ok(None);
    };
    joined(alloc, ids, place, came, end)
}

/// Of some numbers of statements that are kept, those of statements that are read whichever net is told.
fn telling<A: Allocator + Copy>(
    alloc: A,
    text: &DesignText<A>,
    ids: &[StmtId],
) -> Result<Vec<StmtId, A>, AllocError>
    requires { HavePieces text.now.pieces.table.slots ids.now }
    ensures { IfOk result (λ v. v.items ≡ telling_under text.now.pieces.table.slots ids.now) }
{
    let statements = text.kept_numbered(alloc, ids)?;
    common_numbers(alloc, &statements)
}

/// The numbers after one exchange, from those before it.
fn after_exchange<A: Allocator + Copy>(
    alloc: A,
    text: &DesignText<A>,
    exchange: Exchange<'_>,
    numbers: &[StmtId],
) -> Result<Option<Vec<StmtId, A>>, AllocError>
    requires { (old : List (Number × Record)) × (new : List (Number × Record)) × IsExchange text.now.pieces.table.slots old new (exchange_view exchange) }
    ensures { (old new : List (Number × Record)) → IsExchange text.now.pieces.table.slots old new (exchange_view exchange.entry) → AreCommon old numbers.now
        → IfOk result (λ found. IfSome found (λ v. AreCommon new v.items)) }
{
    let went = telling(alloc, text, exchange.went)?;
    let came = telling(alloc, text, exchange.came)?;
    with_exchanged(alloc, numbers, &went, &came)
}

/// The numbers after an edit that was made, from those before it; `None` where a place among them isn't known.
pub(crate) fn numbers_after<A: Allocator + Copy>(
    alloc: A,
    text: &DesignText<A>,
    made: &Made<A>,
    numbers: &[StmtId],
) -> Result<Option<Vec<StmtId, A>>, AllocError>
    requires { (old : List (Number × Record)) × AreExchanges text.now.pieces.table.slots old made.now.exchanges (records_in text.now) }
    ensures { (old : List (Number × Record)) → AreExchanges text.now.pieces.table.slots old made.now.exchanges (records_in text.now) → AreCommon old numbers.now
        → IfOk result (λ found. IfSome found (λ v. AreCommon (records_in text.now) v.items)) }
{
    let mut after = Vec::from_slice(alloc, numbers)?;
    for place in 0..made.len() {
        let Some(exchange) = made.exchange(place) else {
            return Ok(None);
        };
        let Some(next) = after_exchange(alloc, text, exchange, &after)? else {
            return Ok(None);
        };
        after = next;
    }
    Ok(Some(after))
}
