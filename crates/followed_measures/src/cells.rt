//! Statements that an edit exchanges: whether they are of what cells hold beside nets.

ghost use Rattle.std.specs.Prelude.{◌≡◌, false, not, true, filter, IfOk, List, map};
ghost use Rattle.std.specs.List.{list_any};
ghost use Rattle.std.specs.Option.{option_map};
ghost use Rattle.design_model.specs.declared.identifier.StmtId.{StmtId as Number};
ghost use Rattle.def_grammar.specs.Records.{Record};
ghost use Rattle.def_reader.specs.StatementViews.{record_view, records_view};
ghost use Rattle.measuring_laws.specs.Measuring.{is_of_cells};
ghost use Rattle.net_laws.specs.Within.{is_component};
ghost use Rattle.text_pieces.specs.KeptRecords.{HavePieces, record_of};
ghost use Rattle.text_pieces.specs.Tables.{kept_at};
ghost use Rattle.design_text.specs.Exchanges.{AreExchanges, exchange_view, records_in};
ghost use Rattle.followed_nets.specs.Noted.{said};
ghost use Rattle.followed_measures.specs.Cells.{LeavesCells};

use def_reader::entry::Entry;
use def_reader::floor::Floor;
use def_reader::statement::Statement;
use design_model::identifier::StmtId;
use design_text::made::{Exchange, Made};
use design_text::text::DesignText;
use measuring_laws::others_leave_cells;
use std::alloc::{AllocError, Allocator};

/// Whether a name is that of the component, where there is one.
fn is_component(but: Option<&[u8]>, name: &[u8]) -> bool
    ensures { result ≡ is_component (option_map (λ w. w.now) but.entry) name.now }
{
    match but {
        Some(own) => own == name,
        None => false,
    }
}

/// Whether a statement is of the grid, or a component, but for that of this name, where there is one.
fn is_of_cells(but: Option<&[u8]>, statement: &Statement<'_>) -> bool
    ensures { result ≡ is_of_cells (option_map (λ w. w.now) but.entry) (record_view statement.now) }
{
    match statement {
        Statement::Floor(Floor::GcellGrid(_)) => true,
        Statement::Entry(Entry::Component(parts)) => !is_component(but, parts.name.bytes),
        _ => false,
    }
}

/// Whether one of these statements is.
fn is_any_of_cells(but: Option<&[u8]>, statements: &[Statement<'_>]) -> bool
    ensures { result ≡ list_any (is_of_cells (option_map (λ w. w.now) but.entry)) (records_view statements.now) }
{
    for statement in statements {
        if is_of_cells(but, statement) {
            return true;
        }
    }
    false
}

/// Whether none of the statements is that are kept under these numbers.
fn are_others<A: Allocator + Copy>(
    alloc: A,
    text: &DesignText<A>,
    but: Option<&[u8]>,
    ids: &[StmtId],
) -> Result<bool, AllocError>
    requires { HavePieces text.now.pieces.table.slots ids.now }
    ensures { IfOk result (λ b. b ≡ not (list_any (is_of_cells (option_map (λ w. w.now) but.entry)) (map (λ id. record_of (kept_at text.now.pieces.table.slots id)) ids.now))) }
{
    let statements = text.kept(alloc, ids)?;
    Ok(!is_any_of_cells(but, &statements))
}

/// Whether no statement of one exchange is.
fn leaves_cells<A: Allocator + Copy>(
    alloc: A,
    text: &DesignText<A>,
    but: Option<&[u8]>,
    exchange: Exchange<'_>,
) -> Result<bool, AllocError>
    requires went { HavePieces text.now.pieces.table.slots exchange.went.now }
    requires came { HavePieces text.now.pieces.table.slots exchange.came.now }
    ensures { IfOk result (λ b. b ≡ true → LeavesCells text.now.pieces.table.slots (option_map (λ w. w.now) but.entry) (exchange_view exchange.entry)) }
{
    let goes = are_others(alloc, text, but, exchange.went)?;
    Ok(goes && are_others(alloc, text, but, exchange.came)?)
}

/// Whether an edit exchanged no component but that of this name, where there is one, and no statement of the grid. Then it leaves what
/// cells hold beside nets and that component.
pub(crate) fn exchanges_leave_cells<A: Allocator + Copy>(
    alloc: A,
    text: &DesignText<A>,
    made: &Made<A>,
    but: Option<&[u8]>,
) -> Result<bool, AllocError>
    requires { (old : List (Number × Record)) × AreExchanges text.now.pieces.table.slots old made.now.exchanges (records_in text.now) }
    ensures { (old : List (Number × Record)) → AreExchanges text.now.pieces.table.slots old made.now.exchanges (records_in text.now)
        → IfOk result (λ b. b ≡ true → filter (is_of_cells (option_map (λ w. w.now) but.entry)) (said old) ≡ filter (is_of_cells (option_map (λ w. w.now) but.entry)) (said (records_in text.now))) }
{
    others_leave_cells();
    for place in 0..made.len() {
        let Some(exchange) = made.exchange(place) else {
            return Ok(false);
        };
        if !leaves_cells(alloc, text, but, exchange)? {
            return Ok(false);
        }
    }
    Ok(true)
}
