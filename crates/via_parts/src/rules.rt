//! Entries of NONDEFAULTRULES (LEF/DEF 5.8 Language Reference, "Nondefault Rules").

ghost use Rattle.std.specs.Prelude.{◌≡◌, IfSome};
ghost use Rattle.form_meanings.specs.Words.{Gives, is_plus};
ghost use Rattle.statement_model.specs.Form.{read, spell};
ghost use Rattle.def_grammar.specs.Rules.{rule_clause, rule_form, rule_layer};
ghost use Rattle.lefdef_tokens.specs.Places.{behind};
ghost use Rattle.lefdef_tokens.specs.Views.{IsLater, pieces_of, rest_of};
ghost use Rattle.def_parts.specs.PointViews.{with_rest};
ghost use Rattle.via_parts.specs.RuleViews.{RuleAt, RuleClauseAt, RuleLayerAt, rule_clause_view, rule_layer_view, rule_view};

use def_parts::clauses::{KeptClause, kept_clause_at};
use def_parts::number::size_at;
use lefdef_tokens::{Cursor, Token, TokenRun, is_plus};
use statement_reader::parts::{Part, Parts, read_parts};

/// The width of a rule's wires on a layer, in database units of the design.
#[derive(Clone, Copy)]
pub struct RuleLayer<'t> {
    pub layer: Token<'t>,
    pub width: Token<'t>,
    /// The tokens behind the width, which mean nothing.
    pub rest: TokenRun<'t>,
}

/// A clause of an entry, without its `+`.
#[derive(Clone, Copy, Drop)]
pub enum RuleClause<'t> {
    Layer(RuleLayer<'t>),
    /// A clause without meaning.
    Other(KeptClause<'t>),
}

/// An entry: its name, and its clauses.
#[derive(Clone, Copy)]
pub struct RuleParts<'t> {
    pub name: Token<'t>,
    pub clauses: Parts<'t, RuleClause<'t>>,
}

/// `layer WIDTH width rest`, after `LAYER`
#[tactic(auto, unfolding(def_grammar::specs::Rules::rule_layer))]
fn rule_layer_at<'t>(cursor: Cursor<'t>) -> Option<(RuleLayer<'t>, Cursor<'t>)>
    ensures gives { Gives (with_rest rule_layer_view) result (read rule_layer (rest_of cursor.entry)) }
    ensures later { IfSome result (λ x. IsLater cursor.entry x.1) }
    ensures left { IfSome result (λ x. pieces_of x.1.tokens ≡ behind (spell rule_layer (rule_layer_view x.0)) (pieces_of cursor.entry.tokens)) }
    ensures lent { IfSome result (λ x. RuleLayerAt (pieces_of cursor.entry.tokens) x.0) }
{
    let (layer, cursor) = cursor.name()?;
    let (width, cursor) = size_at(cursor.key(b"WIDTH")?)?;
    let (rest, cursor) = cursor.rest();
    Some((RuleLayer { layer, width, rest }, cursor))
}

/// `+ LAYER layer WIDTH width rest`, or a clause without meaning behind its `+`
#[tactic(auto, unfolding(def_grammar::specs::Rules::rule_clause))]
fn rule_clause_at<'t>(cursor: Cursor<'t>) -> Option<(RuleClause<'t>, Cursor<'t>)>
    ensures gives { Gives (with_rest rule_clause_view) result (read rule_clause (rest_of cursor.entry)) }
    ensures later { IfSome result (λ x. IsLater cursor.entry x.1) }
    ensures left { IfSome result (λ x. pieces_of x.1.tokens ≡ behind (spell rule_clause (rule_clause_view x.0)) (pieces_of cursor.entry.tokens)) }
    ensures lent { IfSome result (λ x. RuleClauseAt (pieces_of cursor.entry.tokens) x.0) }
{
    let cursor = cursor.key(b"+")?;
    if cursor.next_is(b"LAYER") {
        let (layer, cursor) = rule_layer_at(cursor.key(b"LAYER")?)?;
        Some((RuleClause::Layer(layer), cursor))
    } else {
        let (clause, cursor) = kept_clause_at(cursor)?;
        Some((RuleClause::Other(clause), cursor))
    }
}

impl<'t> Part<'t> for RuleClause<'t> {
    ghost use Rattle.def_grammar.specs.Rules.{RuleClause as TheClause};

    ghost Value = { TheClause };

    ghost view = { rule_clause_view };

    ghost lent = { RuleClauseAt };

    ghost test = { is_plus };

    ghost reads = { read rule_clause };

    ghost spells = { spell rule_clause };

    ghost spelled = { λ r p e. (rule_clause.exact.shows r p e).words };

    fn begins(word: &[u8]) -> bool
        ensures { result ≡ is_plus word.now }
    {
        is_plus(word)
    }

    fn read(cursor: Cursor<'t>) -> Option<(RuleClause<'t>, Cursor<'t>)>
        ensures gives { Gives (with_rest rule_clause_view) result (read rule_clause (rest_of cursor.entry)) }
        ensures later { IfSome result (λ x. IsLater cursor.entry x.1) }
        ensures left { IfSome result (λ x. pieces_of x.1.tokens ≡ behind (spell rule_clause (rule_clause_view x.0)) (pieces_of cursor.entry.tokens)) }
        ensures lent { IfSome result (λ x. RuleClauseAt (pieces_of cursor.entry.tokens) x.0) }
    {
        rule_clause_at(cursor)
    }
}

/// `- name (+ clause)* ;`
#[tactic(auto, unfolding(def_grammar::specs::Rules::rule_form), using(lefdef_tokens::proofs::PlaceLemmas::behind_append))]
#[inline(never)]
pub fn rule_at<'t>(cursor: Cursor<'t>) -> Option<(RuleParts<'t>, Cursor<'t>)>
    ensures gives { Gives (with_rest rule_view) result (read rule_form (rest_of cursor.entry)) }
    ensures later { IfSome result (λ x. IsLater cursor.entry x.1) }
    ensures left { IfSome result (λ x. pieces_of x.1.tokens ≡ behind (spell rule_form (rule_view x.0)) (pieces_of cursor.entry.tokens)) }
    ensures lent { IfSome result (λ x. RuleAt (pieces_of cursor.entry.tokens) x.0) }
{
    let (name, cursor) = cursor.name_behind(b"-")?;
    let (clauses, cursor) = read_parts::<RuleClause<'t>>(cursor)?;
    let cursor = cursor.key(b";")?;
    Some((RuleParts { name, clauses }, cursor))
}
