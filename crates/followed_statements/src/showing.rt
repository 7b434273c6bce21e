//! What others can see of statements.

ghost use Rattle.std.specs.Prelude.{◌≡◌, ◌∷◌, [], IfOk, IsTrue, List, true};
ghost use Rattle.design_model.specs.declared.identifier.StmtId.{StmtId as Number};
ghost use Rattle.def_grammar.specs.Records.{Record};
ghost use Rattle.agreement_laws.specs.Agreement.{shown};
ghost use Rattle.def_reader.specs.EntryViews.{entry_view};
ghost use Rattle.def_reader.specs.StatementViews.{record_view, records_view};
ghost use Rattle.design_text.specs.Exchanges.{AreExchanges, IsExchange, exchange_view, records_in};
ghost use Rattle.followed_statements.specs.Following.{ShowSame, said};

use def_reader::entry::Entry;
use def_reader::statement::Statement;
use design_text::made::{Exchange, Made};
use design_text::text::DesignText;
use std::alloc::{AllocError, Allocator};
use wire_parts::nets::NetEntry;

/// How many statements may be exchanged at once so that the lines on them follow.
pub(crate) const MOST_STATEMENTS: usize = 256;

/// Whether others can see the same of two entries: their sections, their names, and the macro of a component. Of a via they see all, so
/// two of these aren't compared, nor are entries of rare sections.
fn entries_show_same(a: &Entry<'_>, b: &Entry<'_>) -> bool
    ensures { IsTrue result → shown (entry_view a.now) ≡ shown (entry_view b.now) }
{
    match (a, b) {
        (Entry::Component(a), Entry::Component(b)) => {
            a.name.bytes == b.name.bytes && a.cell.bytes == b.cell.bytes
        }
        (Entry::Pin(a), Entry::Pin(b)) => a.name.bytes == b.name.bytes,
        (Entry::Net(NetEntry::Net(a)), Entry::Net(NetEntry::Net(b))) => a.name.bytes
            == b.name.bytes,
        (Entry::SpecialNet(a), Entry::SpecialNet(b)) => a.name.bytes == b.name.bytes,
        (Entry::Group(a), Entry::Group(b)) => a.name.bytes == b.name.bytes,
        (Entry::Blockage(_), Entry::Blockage(_)) => true,
        _ => false,
    }
}

/// Whether others can see the same of two statements, a header's number among it. Of those at the top, but for a header and `UNITS`, they see
/// nothing.
#[tactic(auto, using(crate::proofs::ShowLemmas::entries_same))]
pub(crate) fn statements_show_same(a: &Statement<'_>, b: &Statement<'_>) -> bool
    ensures { IsTrue result → ShowSame (record_view a.now ∷ []) (record_view b.now ∷ []) }
{
    match (a, b) {
        (Statement::Entry(a), Statement::Entry(b)) => entries_show_same(a, b),
        (Statement::Header(s, m), Statement::Header(t, n)) => s == t && m.bytes == n.bytes,
        (Statement::Floor(_), Statement::Floor(_))
        | (Statement::Kept(..), Statement::Kept(..))
        | (Statement::Extension(_), Statement::Extension(_))
        | (Statement::Properties, Statement::Properties)
        | (Statement::Property(_), Statement::Property(_))
        | (Statement::EndSection(_), Statement::EndSection(_))
        | (Statement::EndDesign, Statement::EndDesign) => true,
        _ => false,
    }
}

/// Whether others can see the same of each of these statements as of the one that comes for it.
fn all_show_same(went: &[Statement<'_>], came: &[Statement<'_>]) -> bool
    ensures { IsTrue result → ShowSame (records_view went.now) (records_view came.now) }
{
    if went.len() != came.len() {
        return false;
    }
    for place in 0..went.len() {
        if !statements_show_same(&went[place], &came[place]) {
            return false;
        }
    }
    true
}

/// Whether others can see the same of the statements of one exchange.
fn exchange_shows_same<A: Allocator + Copy>(
    alloc: A,
    text: &DesignText<A>,
    exchange: Exchange<'_>,
) -> Result<bool, AllocError>
    requires { (old : List (Number × Record)) × (new : List (Number × Record)) × IsExchange text.now.pieces.table.slots old new (exchange_view exchange) }
    ensures { (old new : List (Number × Record)) → IsExchange text.now.pieces.table.slots old new (exchange_view exchange.entry) → IfOk result (λ b. b ≡ true → ShowSame (said old) (said new)) }
{
    let went = text.kept(alloc, exchange.went)?;
    let came = text.kept(alloc, exchange.came)?;
    Ok(all_show_same(&went, &came))
}

/// Whether a text shows the same after an edit as before it.
pub(crate) fn shows_same<A: Allocator + Copy>(
    alloc: A,
    text: &DesignText<A>,
    made: &Made<A>,
) -> Result<bool, AllocError>
    requires { (old : List (Number × Record)) × AreExchanges text.now.pieces.table.slots old made.now.exchanges (records_in text.now) }
    ensures { (old : List (Number × Record)) → AreExchanges text.now.pieces.table.slots old made.now.exchanges (records_in text.now) → IfOk result (λ b. b ≡ true → ShowSame (said old) (said (records_in text.now))) }
{
    for place in 0..made.len() {
        let Some(exchange) = made.exchange(place) else {
            return Ok(false);
        };
        if exchange.went.len() > MOST_STATEMENTS {
            return Ok(false);
        }
        if !exchange_shows_same(alloc, text, exchange)? {
            return Ok(false);
        }
    }
    Ok(true)
}
