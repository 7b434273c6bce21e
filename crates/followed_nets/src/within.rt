//! Statements that an edit exchanges: whether they are of some nets, and of a component or a pin of the design that no other net lists.

ghost use Rattle.std.specs.Prelude.{◌≡◌, ◌||◌, not, true, IfOk, List, None, map};
ghost use Rattle.std.specs.List.{list_any};
ghost use Rattle.std.specs.Option.{option_map};
ghost use Rattle.design_model.specs.declared.identifier.StmtId.{StmtId as Number};
ghost use Rattle.form_meanings.specs.Firsts.{first_of};
ghost use Rattle.def_grammar.specs.Pins.{net_of_clause};
ghost use Rattle.def_grammar.specs.Records.{Record, entry as said_entry, pin as said_pin};
ghost use Rattle.def_grammar.specs.Terminals.{is_of_all};
ghost use Rattle.lefdef_tokens.specs.Views.{word_view};
ghost use Rattle.place_parts.specs.PinViews.{pin_clauses_of, pin_view};
ghost use Rattle.def_reader.specs.EntryViews.{entry_view};
ghost use Rattle.def_reader.specs.StatementViews.{record_view, records_view};
ghost use Rattle.entry_rules.specs.Unknown.{is_same};
ghost use Rattle.net_laws.specs.NetChanges.{is_one_of};
ghost use Rattle.net_laws.specs.NetsTold.{terminals_of};
ghost use Rattle.net_laws.specs.Within.{component_in, is_component, is_none_or_one_of, is_within, pin_in};
ghost use Rattle.text_pieces.specs.KeptRecords.{HavePieces, record_of};
ghost use Rattle.text_pieces.specs.Tables.{kept_at};
ghost use Rattle.design_text.specs.Exchanges.{AreExchanges, IsExchange, exchange_view, records_in};
ghost use Rattle.followed_nets.specs.Noted.{AreCommon, said};
ghost use Rattle.followed_nets.specs.SubjectViews.{subject_view};
ghost use Rattle.followed_nets.specs.Within.{Leaves};

use crate::stars::lists_all;
use def_reader::entry::Entry;
use def_reader::statement::Statement;
use design_model::identifier::StmtId;
use design_text::made::{Exchange, Made};
use design_text::text::DesignText;
use name_keys::OwnName;
use net_laws::{agree_on_and_on, apart_on_and_on, one_exchanged_agree, within_apart};
use place_parts::pins::{PinClause, PinParts};
use statement_reader::parts::Parts;
use std::alloc::{AllocError, Allocator};
use wire_parts::nets::NetEntry;

/// What an edit is of beside nets: a component or a pin of the design, by its name, or neither.
#[derive(Clone, Copy)]
pub enum EditSubject<'n> {
    Component(&'n [u8]),
    Pin(&'n [u8]),
    Neither,
}

/// Whether a name is one of these.
pub(crate) fn is_one_of<A: Allocator>(nets: &[OwnName<A>], name: &[u8]) -> bool
    ensures { result ≡ is_one_of nets.now name.now }
{
    for net in nets {
        if net.bytes() == name {
            return true;
        }
    }
    false
}

/// Whether a name is that of the component that an edit is of.
fn is_component(subject: EditSubject<'_>, name: &[u8]) -> bool
    ensures { result ≡ is_component (component_in (subject_view subject.entry)) name.now }
{
    match subject {
        EditSubject::Component(own) => own == name,
        EditSubject::Pin(_) => false,
        EditSubject::Neither => false,
    }
}

/// Whether a name is that of the pin of the design that an edit is of.
fn is_pin(subject: EditSubject<'_>, name: &[u8]) -> bool
    ensures { result ≡ is_same name.now (pin_in (subject_view subject.entry)) }
{
    match subject {
        EditSubject::Pin(own) => own == name,
        EditSubject::Component(_) => false,
        EditSubject::Neither => false,
    }
}

/// The net that the first `NET` of some clauses of a pin names.
pub(crate) fn net_of_pin<'t>(clauses: &Parts<'t, PinClause<'t>>) -> Option<&'t [u8]>
    ensures { option_map word_view result ≡ first_of net_of_clause (pin_clauses_of clauses.now) }
{
    let mut left = clauses.again();
    while let Some(clause) = left.next() {
        if let PinClause::Net(name) = clause {
            return Some(name.bytes);
        }
    }
    None
}

/// Whether a name is one of these, if there is one.
fn is_none_or_one_of<A: Allocator>(nets: &[OwnName<A>], net: Option<&[u8]>) -> bool
    ensures { result ≡ is_none_or_one_of nets.now (option_map word_view net.entry) }
{
    match net {
        Some(name) => is_one_of(nets, name),
        None => true,
    }
}

/// Whether a pin of the design is the one that an edit is of, and names one of these nets or none.
fn is_pin_within<A: Allocator>(
    pin: &PinParts<'_>,
    nets: &[OwnName<A>],
    subject: EditSubject<'_>,
) -> bool
    ensures { result ≡ is_within nets.now (subject_view subject.entry) (said_entry (said_pin (pin_view pin.now))) }
{
    is_pin(subject, pin.name.bytes) && is_none_or_one_of(nets, net_of_pin(&pin.clauses))
}

/// Whether an entry is one of these nets, or what an edit is of, or one that no net is made of.
fn is_entry_within<A: Allocator>(
    entry: &Entry<'_>,
    nets: &[OwnName<A>],
    subject: EditSubject<'_>,
) -> bool
    ensures { result ≡ is_within nets.now (subject_view subject.entry) (said_entry (entry_view entry.now)) }
{
    match entry {
        Entry::Component(parts) => is_component(subject, parts.name.bytes),
        Entry::Pin(parts) => is_pin_within(parts, nets, subject),
        Entry::Net(NetEntry::Net(net)) => is_one_of(nets, net.name.bytes),
        Entry::SpecialNet(net) => is_one_of(nets, net.name.bytes),
        Entry::Via(_) | Entry::Rule(_) => false,
        _ => true,
    }
}

/// Whether a statement is such an entry, or of what no net is made of.
fn is_within<A: Allocator>(
    statement: &Statement<'_>,
    nets: &[OwnName<A>],
    subject: EditSubject<'_>,
) -> bool
    ensures { result ≡ is_within nets.now (subject_view subject.entry) (record_view statement.now) }
{
    match statement {
        Statement::Entry(entry) => is_entry_within(entry, nets, subject),
        Statement::Units(_) => false,
        _ => true,
    }
}

/// Whether one of these statements isn't within, or lists a pin of all components.
fn is_any_outside<A: Allocator>(
    statements: &[Statement<'_>],
    nets: &[OwnName<A>],
    subject: EditSubject<'_>,
) -> bool
    ensures { result ≡ list_any (λ r. not (is_within nets.now (subject_view subject.entry) r) || list_any is_of_all (terminals_of r)) (records_view statements.now) }
{
    for statement in statements {
        if !is_within(statement, nets, subject) || lists_all(statement) {
            return true;
        }
    }
    false
}

/// Whether all statements that are kept under these numbers are within, and none of them lists a pin of all components.
fn are_within<A: Allocator + Copy>(
    alloc: A,
    text: &DesignText<A>,
    ids: &[StmtId],
    nets: &[OwnName<A>],
    subject: EditSubject<'_>,
) -> Result<bool, AllocError>
    requires { HavePieces text.now.pieces.table.slots ids.now }
    ensures { IfOk result (λ b. b ≡ not (list_any (λ r. not (is_within nets.now (subject_view subject.entry) r) || list_any is_of_all (terminals_of r)) (map (λ id. record_of (kept_at text.now.pieces.table.slots id)) ids.now))) }
{
    let statements = text.kept(alloc, ids)?;
    Ok(!is_any_outside(&statements, nets, subject))
}

/// Whether the statements of one exchange are all within, and none lists a pin of all components.
fn exchange_is_within<A: Allocator + Copy>(
    alloc: A,
    text: &DesignText<A>,
    exchange: Exchange<'_>,
    nets: &[OwnName<A>],
    subject: EditSubject<'_>,
) -> Result<bool, AllocError>
    requires { (old : List (Number × Record)) × (new : List (Number × Record)) × IsExchange text.now.pieces.table.slots old new (exchange_view exchange) }
    ensures { (old new : List (Number × Record)) (common : List Number) → IsExchange text.now.pieces.table.slots old new (exchange_view exchange.entry)
        → IfOk result (λ b. b ≡ true → Leaves (said old) (said new) nets.now (subject_view subject.entry) × (pin_in (subject_view subject.entry) ≡ None → AreCommon old common → AreCommon new common)) }
{
    within_apart();
    one_exchanged_agree();
    let goes = are_within(alloc, text, exchange.went, nets, subject)?;
    Ok(goes && are_within(alloc, text, exchange.came, nets, subject)?)
}

/// Whether the statements that an edit exchanged are all entries of these nets, or what it is of, or of what no net is made of. Then it
/// leaves the other nets, if none of them lists what it is of; and unless that is a pin, the numbers that are noted stay.
pub fn exchanges_are_within<A: Allocator + Copy>(
    alloc: A,
    text: &DesignText<A>,
    made: &Made<A>,
    nets: &[OwnName<A>],
    subject: EditSubject<'_>,
) -> Result<bool, AllocError>
    requires { (old : List (Number × Record)) × AreExchanges text.now.pieces.table.slots old made.now.exchanges (records_in text.now) }
    ensures { (old : List (Number × Record)) (common : List Number) → AreExchanges text.now.pieces.table.slots old made.now.exchanges (records_in text.now)
        → IfOk result (λ b. b ≡ true → Leaves (said old) (said (records_in text.now)) nets.now (subject_view subject.entry) × (pin_in (subject_view subject.entry) ≡ None → AreCommon old common → AreCommon (records_in text.now) common)) }
{
    apart_on_and_on();
    agree_on_and_on();
    for place in 0..made.len() {
        let Some(exchange) = made.exchange(place) else {
            return Ok(false);
        };
        if !exchange_is_within(alloc, text, exchange, nets, subject)? {
            return Ok(false);
        }
    }
    Ok(true)
}
