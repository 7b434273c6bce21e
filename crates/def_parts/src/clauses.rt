//! Clauses without meaning, and masks.

ghost use Rattle.std.specs.Prelude.{◌≡◌, IfSome};
ghost use Rattle.form_meanings.specs.Words.{Gives};
ghost use Rattle.statement_model.specs.Form.{read, spell};
ghost use Rattle.def_grammar.specs.Clauses.{kept_clause, mask};
ghost use Rattle.lefdef_tokens.specs.Places.{behind};
ghost use Rattle.lefdef_tokens.specs.Views.{IsLater, pieces_of, rest_of};
ghost use Rattle.def_parts.specs.ClauseViews.{KeptAt, MaskAt, kept_view, mask_view};
ghost use Rattle.def_parts.specs.PointViews.{with_rest};

use lefdef_tokens::{Cursor, Token, TokenRun};

/// A clause without meaning, by its word and its other tokens.
#[derive(Clone, Copy)]
pub struct KeptClause<'t> {
    pub keyword: Token<'t>,
    pub rest: TokenRun<'t>,
}

/// A word and the tokens up to the next `+` or `;`, after a `+`.
#[tactic(auto, unfolding(def_grammar::specs::Clauses::kept_clause))]
pub fn kept_clause_at<'t>(cursor: Cursor<'t>) -> Option<(KeptClause<'t>, Cursor<'t>)>
    ensures gives { Gives (with_rest kept_view) result (read kept_clause (rest_of cursor.entry)) }
    ensures later { IfSome result (λ x. IsLater cursor.entry x.1) }
    ensures left { IfSome result (λ x. pieces_of x.1.tokens ≡ behind (spell kept_clause (kept_view x.0)) (pieces_of cursor.entry.tokens)) }
    ensures lent { IfSome result (λ x. KeptAt (pieces_of cursor.entry.tokens) x.0) }
{
    let (keyword, cursor) = cursor.plain_word()?;
    let (rest, cursor) = cursor.rest();
    Some((KeptClause { keyword, rest }, cursor))
}

/// `[MASK word]`
#[inline(always)]
pub fn mask_at<'t>(cursor: Cursor<'t>) -> Option<(Option<Token<'t>>, Cursor<'t>)>
    ensures gives { Gives (with_rest mask_view) result (read mask (rest_of cursor.entry)) }
    ensures later { IfSome result (λ x. IsLater cursor.entry x.1) }
    ensures left { IfSome result (λ x. pieces_of x.1.tokens ≡ behind (spell mask (mask_view x.0)) (pieces_of cursor.entry.tokens)) }
    ensures lent { IfSome result (λ x. MaskAt (pieces_of cursor.entry.tokens) x.0) }
{
    if cursor.next_is(b"MASK") {
        let (word, cursor) = cursor.plain_word_behind(b"MASK")?;
        Some((Some(word), cursor))
    } else {
        Some((None, cursor))
    }
}
