//! Edits that leave the lines on components.

ghost use Rattle.std.specs.Prelude.{◌≡◌, IfOk, List, true};
ghost use Rattle.std.specs.List.{list_any};
ghost use Rattle.design_model.specs.declared.identifier.StmtId.{StmtId as Number};
ghost use Rattle.def_grammar.specs.Records.{Record};
ghost use Rattle.def_reader.specs.StatementViews.{record_view, records_view};
ghost use Rattle.design_text.specs.Exchanges.{AreExchanges, IsExchange, exchange_view, records_in};
ghost use Rattle.followed_statements.specs.Following.{said};
ghost use Rattle.place_parts.specs.BlockageViews.{blockage_entry_view};
ghost use Rattle.followed_statements.specs.Places.{SamePlaces, is_of_places, is_placement_blockage};

use def_reader::entry::Entry;
use def_reader::statement::Statement;
use design_text::made::{Exchange, Made};
use design_text::text::DesignText;
use place_parts::blockages::{BlockageEntry, BlockageKind};
use staying_laws::components_are_exchanged;
use std::alloc::{AllocError, Allocator};

/// Whether an entry of BLOCKAGES blocks placement.
fn blocks_placement(entry: &BlockageEntry<'_>) -> bool
    ensures { result ≡ is_placement_blockage (blockage_entry_view entry.now) }
{
    match entry {
        BlockageEntry::Blocks(blockage) => match blockage.kind {
            BlockageKind::Placement => true,
            BlockageKind::Layer(_) => false,
        },
        BlockageEntry::Kept(_) => false,
    }
}

/// Whether lines on components hang on a statement.
fn is_of_places(statement: &Statement<'_>) -> bool
    ensures { result ≡ is_of_places (record_view statement.now) }
{
    match statement {
        Statement::Units(_) | Statement::Floor(_) => true,
        Statement::Entry(entry) => match entry {
            Entry::Component(_) | Entry::Region(_) | Entry::Group(_) => true,
            Entry::Blockage(blockage) => blocks_placement(&blockage.parts()),
            _ => false,
        },
        _ => false,
    }
}

/// Whether lines on components hang on one of these statements.
fn are_some_of_places(statements: &[Statement<'_>]) -> bool
    ensures { result ≡ list_any is_of_places (records_view statements.now) }
{
    for statement in statements {
        if is_of_places(statement) {
            return true;
        }
    }
    false
}

/// Whether lines on components hang on no statement of an exchange.
fn exchange_leaves_places<A: Allocator + Copy>(
    alloc: A,
    text: &DesignText<A>,
    exchange: Exchange<'_>,
) -> Result<bool, AllocError>
    requires { (old : List (Number × Record)) × (new : List (Number × Record)) × IsExchange text.now.pieces.table.slots old new (exchange_view exchange) }
    ensures { (old new : List (Number × Record)) → IsExchange text.now.pieces.table.slots old new (exchange_view exchange.entry) → IfOk result (λ b. b ≡ true → SamePlaces (said old) (said new)) }
{
    components_are_exchanged();
    let went = text.kept(alloc, exchange.went)?;
    let came = text.kept(alloc, exchange.came)?;
    if are_some_of_places(&went) {
        return Ok(false);
    }
    Ok(!are_some_of_places(&came))
}

/// Whether an edit exchanged no statement on which lines on components hang. Then these are as before it.
pub fn leaves_places<A: Allocator + Copy>(
    alloc: A,
    text: &DesignText<A>,
    made: &Made<A>,
) -> Result<bool, AllocError>
    requires { (old : List (Number × Record)) × AreExchanges text.now.pieces.table.slots old made.now.exchanges (records_in text.now) }
    ensures { (old : List (Number × Record)) → AreExchanges text.now.pieces.table.slots old made.now.exchanges (records_in text.now) → IfOk result (λ b. b ≡ true → SamePlaces (said old) (said (records_in text.now))) }
{
    for place in 0..made.len() {
        let Some(exchange) = made.exchange(place) else {
            return Ok(false);
        };
        if !exchange_leaves_places(alloc, text, exchange)? {
            return Ok(false);
        }
    }
    Ok(true)
}
