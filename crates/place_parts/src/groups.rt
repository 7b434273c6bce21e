//! Entries of GROUPS (LEF/DEF 5.8 Language Reference, "Groups").

ghost use Rattle.std.specs.Prelude.{◌≡◌, ℕ, List, IfSome};
ghost use Rattle.std.specs.Option.{option_map};
ghost use Rattle.form_meanings.specs.Words.{Gives, is_plain, is_plus};
ghost use Rattle.statement_model.specs.Form.{read, spell, word};
ghost use Rattle.def_grammar.specs.Groups.{group_clause, group_form, region_named};
ghost use Rattle.statement_model.specs.Tokens.{Token as TheToken};
ghost use Rattle.lefdef_tokens.specs.Places.{StandsAt, behind, past};
ghost use Rattle.lefdef_tokens.specs.Views.{IsLater, pieces_of, rest_of};
ghost use Rattle.def_parts.specs.ClauseViews.{bytes_view};
ghost use Rattle.def_parts.specs.PointViews.{with_rest};
ghost use Rattle.place_parts.specs.GroupViews.{group_clause_view, group_view, pattern_view, GroupAt, GroupClauseAt, PatternAt};

use crate::keywords::after_word;
use def_parts::clauses::{KeptClause, kept_clause_at};
use lefdef_tokens::{Cursor, Token, TokenRun, is_name, is_plain, is_plus};
use statement_reader::parts::{Part, Parts, read_parts};

/// A pattern of components' names.
#[derive(Clone, Copy, Drop)]
pub struct Pattern<'t> {
    pub word: Token<'t>,
}

/// A clause of an entry, without its `+`.
#[derive(Clone, Copy, Drop)]
pub enum GroupClause<'t> {
    /// By the tokens after `REGION`.
    Region(TokenRun<'t>),
    Kept(KeptClause<'t>),
}

/// An entry: its name, the patterns of its components' names, and its clauses.
#[derive(Clone, Copy)]
pub struct GroupParts<'t> {
    pub name: Token<'t>,
    pub patterns: Parts<'t, Pattern<'t>>,
    pub clauses: Parts<'t, GroupClause<'t>>,
}

impl<'t> GroupClause<'t> {
    /// The region that it names: `REGION` with one name.
    pub fn region(self) -> Option<Token<'t>>
        ensures gives { option_map bytes_view result ≡ region_named (group_clause_view self.entry) }
        ensures lent { (ps : List TheToken) → GroupClauseAt ps self.entry → IfSome result (λ name. StandsAt (past 2 ps) name) }
    {
        let GroupClause::Region(rest) = self else {
            return None;
        };
        let (name, others) = or_none!(rest.split_first());
        if others.is_empty() && is_name(name.bytes) {
            Some(name)
        } else {
            None
        }
    }
}

impl<'t> Part<'t> for Pattern<'t> {
    ghost Value = { List ℕ };

    ghost view = { pattern_view };

    ghost lent = { PatternAt };

    ghost test = { is_plain };

    ghost reads = { read (word is_plain) };

    ghost spells = { spell (word is_plain) };

    ghost spelled = { λ r p e. ((word is_plain).exact.shows r p e).words };

    fn begins(word: &[u8]) -> bool
        ensures { result ≡ is_plain word.now }
    {
        is_plain(word)
    }

    /// A word of a pattern
    fn read(cursor: Cursor<'t>) -> Option<(Pattern<'t>, Cursor<'t>)>
        ensures gives { Gives (with_rest pattern_view) result (read (word is_plain) (rest_of cursor.entry)) }
        ensures later { IfSome result (λ x. IsLater cursor.entry x.1) }
        ensures left { IfSome result (λ x. pieces_of x.1.tokens ≡ behind (spell (word is_plain) (pattern_view x.0)) (pieces_of cursor.entry.tokens)) }
        ensures lent { IfSome result (λ x. PatternAt (pieces_of cursor.entry.tokens) x.0) }
    {
        let (word, cursor) = or_none!(cursor.plain_word());
        Some((Pattern { word }, cursor))
    }
}

impl<'t> Part<'t> for GroupClause<'t> {
    ghost use Rattle.def_grammar.specs.Groups.{GroupClause as TheClause};

    ghost Value = { TheClause };

    ghost view = { group_clause_view };

    ghost lent = { GroupClauseAt };

    ghost test = { is_plus };

    ghost reads = { read group_clause };

    ghost spells = { spell group_clause };

    ghost spelled = { λ r p e. (group_clause.exact.shows r p e).words };

    fn begins(word: &[u8]) -> bool
        ensures { result ≡ is_plus word.now }
    {
        is_plus(word)
    }

    /// `+ REGION rest`, or `+ word rest`
    #[tactic(auto, unfolding(def_grammar::specs::Groups::group_clause))]
    fn read(cursor: Cursor<'t>) -> Option<(GroupClause<'t>, Cursor<'t>)>
        ensures gives { Gives (with_rest group_clause_view) result (read group_clause (rest_of cursor.entry)) }
        ensures later { IfSome result (λ x. IsLater cursor.entry x.1) }
        ensures left { IfSome result (λ x. pieces_of x.1.tokens ≡ behind (spell group_clause (group_clause_view x.0)) (pieces_of cursor.entry.tokens)) }
        ensures lent { IfSome result (λ x. GroupClauseAt (pieces_of cursor.entry.tokens) x.0) }
    {
        let cursor = or_none!(cursor.key(b"+"));
        if let Some(behind) = after_word(cursor, b"REGION") {
            let (rest, cursor) = behind.rest();
            return Some((GroupClause::Region(rest), cursor));
        }
        let (kept, cursor) = or_none!(kept_clause_at(cursor));
        Some((GroupClause::Kept(kept), cursor))
    }
}

/// `- name word* (+ clause)* ;`
#[tactic(auto, unfolding(def_grammar::specs::Groups::group_form), using(lefdef_tokens::proofs::PlaceLemmas::behind_append))]
#[inline(never)]
pub fn group_at<'t>(cursor: Cursor<'t>) -> Option<(GroupParts<'t>, Cursor<'t>)>
    ensures gives { Gives (with_rest group_view) result (read group_form (rest_of cursor.entry)) }
    ensures later { IfSome result (λ x. IsLater cursor.entry x.1) }
    ensures left { IfSome result (λ x. pieces_of x.1.tokens ≡ behind (spell group_form (group_view x.0)) (pieces_of cursor.entry.tokens)) }
    ensures lent { IfSome result (λ x. GroupAt (pieces_of cursor.entry.tokens) x.0) }
{
    let (name, cursor) = or_none!(cursor.name_behind(b"-"));
    let (patterns, cursor) = or_none!(read_parts::<Pattern<'t>>(cursor));
    let (clauses, cursor) = or_none!(read_parts::<GroupClause<'t>>(cursor));
    let cursor = or_none!(cursor.key(b";"));
    let parts = GroupParts {
        name,
        patterns,
        clauses,
    };
    Some((parts, cursor))
}
