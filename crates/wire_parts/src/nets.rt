//! Entries of NETS (LEF/DEF 5.8 Language Reference, "Nets").

ghost use Rattle.std.specs.Prelude.{◌≡◌, List, codes, IfSome};
ghost use Rattle.form_meanings.specs.Words.{Gives, is_plus, is_semicolon};
ghost use Rattle.statement_model.specs.Form.{left, on, or_else, read, right, spell, upto};
ghost use Rattle.def_grammar.specs.Clauses.{kept_clause};
ghost use Rattle.def_grammar.specs.Nets.{net, net_clause, net_form, net_listed, net_name};
ghost use Rattle.lefdef_tokens.specs.Places.{behind, past};
ghost use Rattle.lefdef_tokens.specs.Views.{IsLater, pieces_of, rest_of};
ghost use Rattle.def_parts.specs.ClauseViews.{OptionAt, mask_view};
ghost use Rattle.def_parts.specs.PointViews.{with_rest};
ghost use Rattle.wire_parts.specs.NetViews.{NetAt, NetClauseAt, NetEntryAt, net_by_word, net_clause_view, net_entry_view, net_view};

use crate::keyword::past_keyword;
use crate::terminals::Terminal;
use crate::wiring::{Wiring, wiring_at};
use def_parts::clauses::{KeptClause, kept_clause_at};
use lefdef_tokens::{Cursor, Token, TokenRun, is_plus};
use statement_reader::parts::{Part, Parts, read_parts, read_usual_parts};

/// A clause of an entry, without its `+`.
#[derive(Clone, Copy, Drop)]
pub enum NetClause<'t> {
    /// All tokens up to the entry's end, without meaning.
    Subnet(TokenRun<'t>),
    Use(Token<'t>),
    /// The nondefault rule of the net.
    Rule(Token<'t>),
    Wiring(Wiring<'t>),
    /// A clause without meaning, or one that hasn't its form.
    Other(KeptClause<'t>),
}

/// A net: its name, its terminals, and its clauses.
#[derive(Clone, Copy)]
pub struct NetParts<'t> {
    pub name: Token<'t>,
    pub terminals: Parts<'t, Terminal<'t>>,
    pub clauses: Parts<'t, NetClause<'t>>,
}

/// An entry of NETS.
#[derive(Clone, Copy)]
pub enum NetEntry<'t> {
    /// The tokens behind MUSTJOIN, which mean nothing.
    MustJoin(TokenRun<'t>),
    Net(NetParts<'t>),
}

impl<'t> NetEntry<'t> {
    ghost use Rattle.statement_model.specs.Tokens as definitions;

    /// The name of its net. MUSTJOIN has none.
    pub fn name(&self) -> Option<Token<'t>>
        ensures gives { mask_view result ≡ net_name (net_entry_view self.now) }
        ensures lent { (ps : List definitions.Token) → NetEntryAt ps self.now → OptionAt ps result }
    {
        match self {
            NetEntry::MustJoin(_) => None,
            NetEntry::Net(net) => Some(net.name),
        }
    }
}

/// The body of a clause but SUBNET, whatever comes behind it: `USE word`, `NONDEFAULTRULE name`, or wiring
pub fn net_body_at<'t>(cursor: Cursor<'t>) -> Option<(NetClause<'t>, Cursor<'t>)>
    ensures gives { Gives (with_rest net_clause_view) result (read (right (left net_by_word)) (rest_of cursor.entry)) }
    ensures later { IfSome result (λ x. IsLater cursor.entry x.1) }
    ensures left { IfSome result (λ x. pieces_of x.1.tokens ≡ behind (spell (right (left net_by_word)) (net_clause_view x.0)) (pieces_of cursor.entry.tokens)) }
    ensures lent { IfSome result (λ x. NetClauseAt (pieces_of cursor.entry.tokens) x.0) }
{
    if cursor.next_is(b"USE") {
        let (word, cursor) = cursor.plain_word_behind(b"USE")?;
        Some((NetClause::Use(word), cursor))
    } else if cursor.next_is(b"NONDEFAULTRULE") {
        let (name, cursor) = cursor.name_behind(b"NONDEFAULTRULE")?;
        Some((NetClause::Rule(name), cursor))
    } else {
        let (wiring, cursor) = wiring_at(cursor)?;
        Some((NetClause::Wiring(wiring), cursor))
    }
}

/// A clause that has its form, before a `+` or a `;`
#[tactic(auto, unfolding(def_grammar::specs::Nets::net_listed))]
fn listed_at<'t>(cursor: Cursor<'t>) -> Option<(NetClause<'t>, Cursor<'t>)>
    ensures gives { Gives (with_rest net_clause_view) result (read (right (left net_listed)) (rest_of cursor.entry)) }
    ensures later { IfSome result (λ x. IsLater cursor.entry x.1) }
    ensures left { IfSome result (λ x. pieces_of x.1.tokens ≡ behind (spell (right (left net_listed)) (net_clause_view x.0)) (pieces_of cursor.entry.tokens)) }
    ensures lent { IfSome result (λ x. NetClauseAt (pieces_of cursor.entry.tokens) x.0) }
{
    let (clause, cursor) = net_body_at(cursor)?;
    if cursor.next_is_stop() {
        Some((clause, cursor))
    } else {
        None
    }
}

/// A clause that has its form, or any other
fn listed_or_kept_at<'t>(cursor: Cursor<'t>) -> Option<(NetClause<'t>, Cursor<'t>)>
    ensures gives { Gives (with_rest net_clause_view) result (read (right (or_else net_listed kept_clause)) (rest_of cursor.entry)) }
    ensures later { IfSome result (λ x. IsLater cursor.entry x.1) }
    ensures left { IfSome result (λ x. pieces_of x.1.tokens ≡ behind (spell (right (or_else net_listed kept_clause)) (net_clause_view x.0)) (pieces_of cursor.entry.tokens)) }
    ensures lent { IfSome result (λ x. NetClauseAt (pieces_of cursor.entry.tokens) x.0) }
{
    if let Some(listed) = listed_at(cursor) {
        return Some(listed);
    }
    let (clause, cursor) = kept_clause_at(cursor)?;
    Some((NetClause::Other(clause), cursor))
}

impl<'t> Part<'t> for NetClause<'t> {
    ghost use Rattle.def_grammar.specs.Nets.{NetClause as TheClause};

    ghost Value = { TheClause };

    ghost view = { net_clause_view };

    ghost lent = { λ ps clause. NetClauseAt (past 1 ps) clause };

    ghost test = { is_plus };

    ghost reads = { read net_clause };

    ghost spells = { spell net_clause };

    ghost spelled = { λ r p e. (net_clause.exact.shows r p e).words };

    fn begins(word: &[u8]) -> bool
        ensures { result ≡ is_plus word.now }
    {
        is_plus(word)
    }

    #[tactic(auto, unfolding(def_grammar::specs::Nets::net_clause))]
    fn read(cursor: Cursor<'t>) -> Option<(NetClause<'t>, Cursor<'t>)>
        ensures gives { Gives (with_rest net_clause_view) result (read net_clause (rest_of cursor.entry)) }
        ensures later { IfSome result (λ x. IsLater cursor.entry x.1) }
        ensures left { IfSome result (λ x. pieces_of x.1.tokens ≡ behind (spell net_clause (net_clause_view x.0)) (pieces_of cursor.entry.tokens)) }
        ensures lent { IfSome result (λ x. NetClauseAt (past 1 (pieces_of cursor.entry.tokens)) x.0) }
    {
        let cursor = cursor.key(b"+")?;
        if let Some(cursor) = past_keyword(cursor, b"SUBNET") {
            let (tokens, cursor) = cursor.up_to_semicolon();
            Some((NetClause::Subnet(tokens), cursor))
        } else {
            listed_or_kept_at(cursor)
        }
    }
}

/// `name terminal* (+ clause)*`
#[tactic(auto, unfolding(def_grammar::specs::Nets::net), using(lefdef_tokens::proofs::PlaceLemmas::behind_append))]
fn net_at<'t>(cursor: Cursor<'t>) -> Option<(NetParts<'t>, Cursor<'t>)>
    ensures gives { Gives (with_rest net_view) result (read net (rest_of cursor.entry)) }
    ensures later { IfSome result (λ x. IsLater cursor.entry x.1) }
    ensures left { IfSome result (λ x. pieces_of x.1.tokens ≡ behind (spell net (net_view x.0)) (pieces_of cursor.entry.tokens)) }
    ensures lent { IfSome result (λ x. NetAt (pieces_of cursor.entry.tokens) x.0) }
{
    let (name, cursor) = cursor.name()?;
    let (terminals, cursor) = read_usual_parts::<Terminal<'t>>(cursor)?;
    let (clauses, cursor) = read_parts::<NetClause<'t>>(cursor)?;
    let parts = NetParts {
        name,
        terminals,
        clauses,
    };
    Some((parts, cursor))
}

/// `MUSTJOIN any*`, or a net
fn must_join_or_net_at<'t>(cursor: Cursor<'t>) -> Option<(NetEntry<'t>, Cursor<'t>)>
    ensures gives { Gives (with_rest net_entry_view) result (read (on (codes "MUSTJOIN") (upto is_semicolon) net) (rest_of cursor.entry)) }
    ensures later { IfSome result (λ x. IsLater cursor.entry x.1) }
    ensures left { IfSome result (λ x. pieces_of x.1.tokens ≡ behind (spell (on (codes "MUSTJOIN") (upto is_semicolon) net) (net_entry_view x.0)) (pieces_of cursor.entry.tokens)) }
    ensures lent { IfSome result (λ x. NetEntryAt (pieces_of cursor.entry.tokens) x.0) }
{
    if let Some(cursor) = past_keyword(cursor, b"MUSTJOIN") {
        let (tokens, cursor) = cursor.up_to_semicolon();
        Some((NetEntry::MustJoin(tokens), cursor))
    } else {
        let (net, cursor) = net_at(cursor)?;
        Some((NetEntry::Net(net), cursor))
    }
}

/// `- MUSTJOIN any* ;`, or `- name terminal* (+ clause)* ;`
#[tactic(auto, unfolding(def_grammar::specs::Nets::net_form), using(lefdef_tokens::proofs::PlaceLemmas::behind_append))]
#[inline(never)]
pub fn net_entry_at<'t>(cursor: Cursor<'t>) -> Option<(NetEntry<'t>, Cursor<'t>)>
    ensures gives { Gives (with_rest net_entry_view) result (read net_form (rest_of cursor.entry)) }
    ensures later { IfSome result (λ x. IsLater cursor.entry x.1) }
    ensures left { IfSome result (λ x. pieces_of x.1.tokens ≡ behind (spell net_form (net_entry_view x.0)) (pieces_of cursor.entry.tokens)) }
    ensures lent { IfSome result (λ x. NetEntryAt (past 1 (pieces_of cursor.entry.tokens)) x.0) }
{
    let (entry, cursor) = must_join_or_net_at(cursor.key(b"-")?)?;
    let cursor = cursor.key(b";")?;
    Some((entry, cursor))
}
