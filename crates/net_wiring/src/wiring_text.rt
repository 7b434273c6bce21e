//! Whether a text is wiring clauses alone.
//!
//! That is said of the text with a `;` behind it, which isn't put there, since a text that is no wiring is refused without taking
//! memory: each clause but the last ends before a `+`, and of the last the body is read, which ends where the text does.

ghost use Rattle.std.specs.Prelude.{◌≡◌, true, false, Some, MatchOption};
ghost use Rattle.form_meanings.specs.Words.{Gives, is_done};
ghost use Rattle.def_grammar.specs.Nets.{net_clause};
ghost use Rattle.def_grammar.specs.SpecialNets.{special_clause};
ghost use Rattle.edit_rules.specs.NetEdits.{net_role, special_role};
ghost use Rattle.lefdef_tokens.specs.Views.{rest_of};
ghost use Rattle.wire_parts.specs.NetViews.{net_by_word};
ghost use Rattle.wire_parts.specs.SpecialNetViews.{special_by_word};
ghost use Rattle.net_wiring.specs.WiringViews.{is_ended, is_said, past_body, past_body_in, past_clause, past_clause_in, reads_wiring, said_from};

use crate::comments::opens_comment;
use crate::wiring_clauses::{NetSection, net_role, special_role};
use lefdef_tokens::{Cursor, TokenRun};
use statement_reader::parts::Part;
use wire_parts::nets::{NetClause, net_body_at};
use wire_parts::special_nets::{SpecialClause, special_body_at};

/// What comes after the next clause of NETS, if it is wiring.
fn past_net_clause<'t>(cursor: Cursor<'t>) -> Option<Cursor<'t>>
    ensures { Gives rest_of result (past_clause net_clause net_role (rest_of cursor.entry)) }
{
    let Some((clause, later)) = NetClause::read(cursor) else {
        return None;
    };
    if net_role(&clause).is_wiring() {
        Some(later)
    } else {
        None
    }
}

/// What comes after the next clause of SPECIALNETS, if it is wiring.
fn past_special_clause<'t>(cursor: Cursor<'t>) -> Option<Cursor<'t>>
    ensures { Gives rest_of result (past_clause special_clause special_role (rest_of cursor.entry)) }
{
    let Some((clause, later)) = SpecialClause::read(cursor) else {
        return None;
    };
    if special_role(&clause).is_wiring() {
        Some(later)
    } else {
        None
    }
}

/// What comes after the body of the next clause of NETS, if it is wiring.
fn past_net_body<'t>(cursor: Cursor<'t>) -> Option<Cursor<'t>>
    ensures { Gives rest_of result (past_body net_by_word net_role (rest_of cursor.entry)) }
{
    let Some(body) = cursor.key(b"+") else {
        return None;
    };
    if body.next_is(b"SUBNET") {
        return None;
    }
    let Some((clause, later)) = net_body_at(body) else {
        return None;
    };
    if net_role(&clause).is_wiring() {
        Some(later)
    } else {
        None
    }
}

/// What comes after the body of the next clause of SPECIALNETS, if it is wiring.
fn past_special_body<'t>(cursor: Cursor<'t>) -> Option<Cursor<'t>>
    ensures { Gives rest_of result (past_body special_by_word special_role (rest_of cursor.entry)) }
{
    let Some(body) = cursor.key(b"+") else {
        return None;
    };
    if body.next_is(b"SUBNET") {
        return None;
    }
    let Some((clause, later)) = special_body_at(body) else {
        return None;
    };
    if special_role(&clause).is_wiring() {
        Some(later)
    } else {
        None
    }
}

/// What comes after the next clause of a section, if it is wiring.
fn past_clause<'t>(section: NetSection, cursor: Cursor<'t>) -> Option<Cursor<'t>>
    ensures { Gives rest_of result (past_clause_in (rest_of cursor.entry) section) }
{
    match section {
        NetSection::Nets => past_net_clause(cursor),
        NetSection::SpecialNets => past_special_clause(cursor),
    }
}

/// What comes after the body of the next clause of a section, if it is wiring.
fn past_body<'t>(section: NetSection, cursor: Cursor<'t>) -> Option<Cursor<'t>>
    ensures { Gives rest_of result (past_body_in (rest_of cursor.entry) section) }
{
    match section {
        NetSection::Nets => past_net_body(cursor),
        NetSection::SpecialNets => past_special_body(cursor),
    }
}

/// The end of a text, where the next clause is the last one and is wiring.
fn end_of_last<'t>(section: NetSection, cursor: Cursor<'t>) -> Option<Cursor<'t>>
    ensures { MatchOption result (is_ended (past_body_in (rest_of cursor.entry) section) ≡ false) (λ x. (past_body_in (rest_of cursor.entry) section ≡ Some (rest_of x)) × (is_done (rest_of x) ≡ true)) }
{
    let Some(end) = past_body(section, cursor) else {
        return None;
    };
    if end.is_done() { Some(end) } else { None }
}

/// Whether the tokens that are left are wiring clauses alone, with no invalid number.
fn are_wiring<'t>(section: NetSection, cursor: Cursor<'t>) -> bool
    ensures { result ≡ said_from (rest_of cursor.entry) section }
{
    let mut left = cursor;
    loop {
        if let Some(end) = end_of_last(section, left) {
            return end.bad.is_none();
        }
        let Some(later) = past_clause(section, left) else {
            return false;
        };
        left = later;
    }
}

/// Whether a text says wiring clauses of a section alone.
pub fn is_wiring(section: NetSection, text: &[u8]) -> bool
    ensures { result ≡ is_said (reads_wiring section) text.now }
{
    if opens_comment(text) {
        return false;
    }
    let Ok(run) = TokenRun::of_text(text) else {
        return false;
    };
    are_wiring(section, Cursor::start(run))
}
