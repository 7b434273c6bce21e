//! What others see of statements, where an edit changes sections.

ghost use Rattle.std.specs.Prelude.{◌≡◌, ◌<◌, ◌+◌, ◌∷◌, [], IfOk, IfSome, IsTrue, List, None, Some, drop, length, slice_get, true};
ghost use Rattle.std.specs.List.{list_any};
ghost use Rattle.std.specs.Option.{option_map};
ghost use Rattle.design_model.specs.declared.identifier.StmtId.{StmtId as Number};
ghost use Rattle.def_grammar.specs.Records.{Record};
ghost use Rattle.def_reader.specs.EntryViews.{entry_view};
ghost use Rattle.def_reader.specs.StatementViews.{record_view, records_view};
ghost use Rattle.def_reader.specs.declared.statement.Statement.{Statement as TheStatement};
ghost use Rattle.design_text.specs.Exchanges.{AreExchanges, IsExchange, exchange_view, records_in};
ghost use Rattle.followed_statements.specs.Following.{ShowSame, said};
ghost use Rattle.followed_statements.specs.Seen.{ShowAllBut, is_component, is_of_net, is_seen, is_seen_record, passing};

use crate::showing::{MOST_STATEMENTS, statements_show_same};
use def_reader::entry::Entry;
use def_reader::statement::Statement;
use design_text::made::{Exchange, Made};
use design_text::text::DesignText;
use std::alloc::{AllocError, Allocator};

/// Whether an entry is one of COMPONENTS.
fn is_component(entry: &Entry<'_>) -> bool
    ensures { result ≡ is_component (entry_view entry.now) }
{
    match entry {
        Entry::Component(_) => true,
        _ => false,
    }
}

/// Whether others see an entry: it has a name, and isn't the component that is left out.
fn is_seen(entry: &Entry<'_>, component: Option<&[u8]>) -> bool
    ensures { result ≡ is_seen (option_map (λ c. c.now) component.entry) (entry_view entry.now) }
{
    let Some(name) = entry.name() else {
        return false;
    };
    let Some(component) = component else {
        return true;
    };
    !(is_component(entry) && name == component)
}

/// Whether others see a statement: it is such an entry.
fn is_seen_statement(statement: &Statement<'_>, component: Option<&[u8]>) -> bool
    ensures { result ≡ is_seen_record (option_map (λ c. c.now) component.entry) (record_view statement.now) }
{
    match statement {
        Statement::Entry(entry) => is_seen(entry, component),
        _ => false,
    }
}

/// The place of the first statement from one on that others see.
fn next_seen(statements: &[Statement<'_>], from: usize, component: Option<&[u8]>) -> Option<usize>
    ensures none { result ≡ None → passing (is_seen_record (option_map (λ c. c.now) component.entry)) (drop from statements.now) ≡ [] }
    ensures one { IfSome result (λ n. (n < length statements.now) × ((x : TheStatement) → Some x ≡ slice_get statements.now n → passing (is_seen_record (option_map (λ c. c.now) component.entry)) (drop from statements.now) ≡ record_view x ∷ passing (is_seen_record (option_map (λ c. c.now) component.entry)) (drop (n + 1) statements.now))) }
{
    for place in from..statements.len() {
        if is_seen_statement(&statements[place], component) {
            return Some(place);
        }
    }
    None
}

/// Whether others can see the same of each of these statements that they see as of the one that comes for it.
fn seen_show_same(went: &[Statement<'_>], came: &[Statement<'_>], component: Option<&[u8]>) -> bool
    ensures { IsTrue result → ShowSame (passing (is_seen_record (option_map (λ c. c.now) component.entry)) went.now) (passing (is_seen_record (option_map (λ c. c.now) component.entry)) came.now) }
{
    let mut from = 0;
    for statement in went {
        if is_seen_statement(statement, component) {
            let Some(place) = next_seen(came, from, component) else {
                return false;
            };
            if !statements_show_same(statement, &came[place]) {
                return false;
            }
            from = place + 1;
        }
    }
    next_seen(came, from, component).is_none()
}

/// Whether a statement is an entry of a net: no other lists a component.
fn is_of_net(statement: &Statement<'_>) -> bool
    ensures { result ≡ is_of_net (record_view statement.now) }
{
    match statement {
        Statement::Entry(entry) => match entry {
            Entry::Net(_) | Entry::SpecialNet(_) => true,
            _ => false,
        },
        _ => false,
    }
}

/// Whether one of these statements is such an entry.
fn have_nets(statements: &[Statement<'_>]) -> bool
    ensures { result ≡ list_any is_of_net (records_view statements.now) }
{
    for statement in statements {
        if is_of_net(statement) {
            return true;
        }
    }
    false
}

/// Whether others see the same of the statements of one exchange, but for a component that is left out, and no net went or came.
fn exchange_shows_all_but<A: Allocator + Copy>(
    alloc: A,
    text: &DesignText<A>,
    exchange: Exchange<'_>,
    component: Option<&[u8]>,
) -> Result<bool, AllocError>
    requires { (old : List (Number × Record)) × (new : List (Number × Record)) × IsExchange text.now.pieces.table.slots old new (exchange_view exchange) }
    ensures { (old new : List (Number × Record)) → IsExchange text.now.pieces.table.slots old new (exchange_view exchange.entry)
        → IfOk result (λ b. b ≡ true → ShowAllBut (option_map (λ c. c.now) component.entry) (said old) (said new)) }
{
    let went = text.kept(alloc, exchange.went)?;
    let came = text.kept(alloc, exchange.came)?;
    if have_nets(&went) {
        return Ok(false);
    }
    if have_nets(&came) {
        return Ok(false);
    }
    Ok(seen_show_same(&went, &came, component))
}

/// Whether others see the same of a text after an edit as before it, but for a component that is left out, and no net went or came.
pub(crate) fn shows_all_but<A: Allocator + Copy>(
    alloc: A,
    text: &DesignText<A>,
    made: &Made<A>,
    component: Option<&[u8]>,
) -> Result<bool, AllocError>
    requires { (old : List (Number × Record)) × AreExchanges text.now.pieces.table.slots old made.now.exchanges (records_in text.now) }
    ensures { (old : List (Number × Record)) → AreExchanges text.now.pieces.table.slots old made.now.exchanges (records_in text.now)
        → IfOk result (λ b. b ≡ true → ShowAllBut (option_map (λ c. c.now) component.entry) (said old) (said (records_in text.now))) }
{
    for place in 0..made.len() {
        let Some(exchange) = made.exchange(place) else {
            return Ok(false);
        };
        if exchange.went.len() > MOST_STATEMENTS {
            return Ok(false);
        }
        if exchange.came.len() > MOST_STATEMENTS {
            return Ok(false);
        }
        if !exchange_shows_all_but(alloc, text, exchange, component)? {
            return Ok(false);
        }
    }
    Ok(true)
}
