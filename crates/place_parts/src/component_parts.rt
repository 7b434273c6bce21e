//! An entry of COMPONENTS (LEF/DEF 5.8 Language Reference, "Components").

ghost use Rattle.std.specs.Prelude.{◌≡◌};
ghost use Rattle.std.specs.Option.{option_map};
ghost use Rattle.form_meanings.specs.Firsts.{first_of};
ghost use Rattle.def_grammar.specs.Components.{region_of_clause};
ghost use Rattle.place_parts.specs.ClauseViews.{clauses_of};
ghost use Rattle.lefdef_tokens.specs.Views.{word_view};
ghost use Rattle.place_parts.specs.StandingViews.{standing_of};

use crate::components::Clause;
use crate::standing::{Standing, noted_clauses_at};
use lefdef_tokens::{Cursor, Token, TokenRun};
use statement_reader::parts::Parts;

/// An entry: its name, its macro, the rest of its fixed part, and its clauses; what the first of them that places it says, and
/// the first region that one of them names.
#[derive(Clone, Copy)]
pub struct ComponentParts<'t> {
    pub name: Token<'t>,
    pub cell: Token<'t>,
    pub rest: TokenRun<'t>,
    pub clauses: Parts<'t, Clause<'t>>,
    pub standing: Option<Standing>,
    pub region: Option<&'t [u8]>,
    pub ghost stands: { standing ≡ standing_of (clauses_of clauses) },
    pub ghost assigned: { option_map word_view region ≡ first_of region_of_clause (clauses_of clauses) },
}

impl<'t> ComponentParts<'t> {
    ghost use Rattle.std.specs.Prelude.{IfSome};
    ghost use Rattle.form_meanings.specs.Words.{Gives};
    ghost use Rattle.statement_model.specs.Form.{read, spell};
    ghost use Rattle.def_grammar.specs.Components.{component_form};
    ghost use Rattle.lefdef_tokens.specs.Places.{behind};
    ghost use Rattle.lefdef_tokens.specs.Views.{IsLater, pieces_of, rest_of};
    ghost use Rattle.def_parts.specs.PointViews.{with_rest};
    ghost use Rattle.place_parts.specs.ComponentViews.{component_view, ComponentAt};

    /// `- name macro rest (+ clause)* ;`
    #[tactic(auto, unfolding(def_grammar::specs::Components::component_form), using(lefdef_tokens::proofs::PlaceLemmas::behind_append))]
    #[inline(never)]
    pub fn read(cursor: Cursor<'t>) -> Option<(ComponentParts<'t>, Cursor<'t>)>
        ensures gives { Gives (with_rest component_view) result (read component_form (rest_of cursor.entry)) }
        ensures later { IfSome result (λ x. IsLater cursor.entry x.1) }
        ensures left { IfSome result (λ x. pieces_of x.1.tokens ≡ behind (spell component_form (component_view x.0)) (pieces_of cursor.entry.tokens)) }
        ensures lent { IfSome result (λ x. ComponentAt (pieces_of cursor.entry.tokens) x.0) }
    {
        let (name, cursor) = or_none!(cursor.name_behind(b"-"));
        let (cell, cursor) = or_none!(cursor.name());
        let (rest, cursor) = cursor.rest();
        let ((clauses, noted), cursor) = or_none!(noted_clauses_at(cursor));
        let cursor = or_none!(cursor.key(b";"));
        let parts = ComponentParts {
            name,
            cell,
            rest,
            clauses,
            standing: noted.standing,
            region: noted.region,
        };
        Some((parts, cursor))
    }
}
