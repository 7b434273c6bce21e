//! How a component is placed: by the first of its clauses that says so.

ghost use Rattle.std.specs.Prelude.{◌≡◌, length, None, IfSome, MatchOption};
ghost use Rattle.std.specs.Option.{option_map};
ghost use Rattle.form_meanings.specs.Meaning.{spell_all};
ghost use Rattle.statement_model.specs.Form.{spell};
ghost use Rattle.def_grammar.specs.Components.{clause, component_form};
ghost use Rattle.def_grammar.specs.Placing.{before_placing, placing};
ghost use Rattle.lefdef_tokens.specs.Places.{behind};
ghost use Rattle.lefdef_tokens.specs.Views.{pieces_of, words_of};
ghost use Rattle.place_parts.specs.ClauseViews.{clause_view, clauses_of, ClauseAt};
ghost use Rattle.place_parts.specs.ComponentViews.{component_view};
ghost use Rattle.place_parts.specs.PlacingViews.{placing_view, IsPlacing};

use crate::component_parts::ComponentParts;
use crate::components::Clause;
use lefdef_tokens::TokenRun;
use statement_reader::parts::Parts;

/// The clause that places a component, how many tokens the clauses before it have, and how many it has itself.
#[derive(Clone, Copy)]
struct PlacingClause<'t> {
    clause: Clause<'t>,
    before: usize,
    count: usize,
}

/// The first of some clauses that places a component.
fn placing_clause<'t>(clauses: Parts<'t, Clause<'t>>) -> Option<PlacingClause<'t>>
    ensures clause { option_map placing_view result ≡ placing (clauses_of clauses.entry) }
    ensures before { IfSome result (λ p. p.before ≡ length (spell_all (spell clause) (before_placing (clauses_of clauses.entry)))) }
    ensures count { IfSome result (λ p. p.count ≡ length (spell clause (clause_view p.clause))) }
    ensures lent { IfSome result (λ p. ClauseAt (behind (spell_all (spell clause) (before_placing (clauses_of clauses.entry))) (pieces_of clauses.entry.cursor.tokens)) p.clause) }
{
    let all = clauses.cursor.len();
    let mut left = clauses;
    let mut at = all;
    while let Some(clause) = left.next() {
        let after = left.cursor.len();
        if clause.is_placing() {
            return Some(PlacingClause {
                clause,
                before: all - at,
                count: at - after,
            });
        }
        at = after;
    }
    None
}

impl<'t> ComponentParts<'t> {
    /// The clause that places the component, with its tokens from its word on, of those of the entry.
    pub fn placing_tokens(self, entry: TokenRun<'t>) -> Option<(Clause<'t>, TokenRun<'t>)>
        requires { words_of entry ≡ spell component_form (component_view self) }
        ensures clause { option_map (λ x. clause_view x.0) result ≡ placing (component_view self.entry).clauses }
        ensures gives { MatchOption result (placing (component_view self.entry).clauses ≡ None) (λ x. IsPlacing (component_view self.entry) entry.entry x.1) }
        ensures text { IfSome result (λ x. x.1.text.now ≡ entry.entry.text.now) }
    {
        let found = placing_clause(self.clauses)?;
        let first = 3 + self.rest.len() + found.before + 1;
        let tokens = entry.skip(first).front(found.count - 1);
        Some((found.clause, tokens))
    }
}
