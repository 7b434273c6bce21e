//! Keywords, and what stands behind them.

ghost use Rattle.std.specs.Prelude.{◌≡◌, false, true, IfSome, MatchOption};
ghost use Rattle.form_meanings.specs.Words.{Gives, is_word, key, next_passes};
ghost use Rattle.statement_model.specs.Form.{◌▸◌, read};
ghost use Rattle.def_grammar.specs.Parts.{int};
ghost use Rattle.lefdef_tokens.specs.Places.{StandsAt, past};
ghost use Rattle.lefdef_tokens.specs.Views.{IsLater, pieces_of, rest_of, word_of};

use def_parts::number::int_at;
use lefdef_tokens::{Cursor, Token};

/// What comes after this very word, where it is next.
#[inline(always)]
pub(crate) fn after_word<'t>(cursor: Cursor<'t>, word: &[u8]) -> Option<Cursor<'t>>
    ensures next { MatchOption result (next_passes (is_word word.now) (rest_of cursor.entry) ≡ false) (λ x. next_passes (is_word word.now) (rest_of cursor.entry) ≡ true) }
    ensures gives { Gives rest_of result (key word.now (rest_of cursor.entry)) }
    ensures later { IfSome result (λ x. IsLater cursor.entry x) }
    ensures left { IfSome result (λ x. pieces_of x.tokens ≡ past 1 (pieces_of cursor.entry.tokens)) }
{
    cursor.key(word)
}

/// A number behind this very word.
#[inline(always)]
pub(crate) fn int_behind<'t>(cursor: Cursor<'t>, word: &[u8]) -> Option<(Token<'t>, Cursor<'t>)>
    ensures gives { Gives word_of result (read (word.now ▸ int) (rest_of cursor.entry)) }
    ensures later { IfSome result (λ x. IsLater cursor.entry x.1) }
    ensures left { IfSome result (λ x. pieces_of x.1.tokens ≡ past 2 (pieces_of cursor.entry.tokens)) }
    ensures lent { IfSome result (λ x. StandsAt (past 1 (pieces_of cursor.entry.tokens)) x.0) }
{
    int_at(or_none!(cursor.key(word)))
}
