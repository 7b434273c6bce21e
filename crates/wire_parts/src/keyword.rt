//! A word that says what comes behind it.

ghost use Rattle.std.specs.Prelude.{◌≡◌, false, true, Some, IfSome, MatchOption};
ghost use Rattle.form_meanings.specs.Words.{is_word, key, next_passes};
ghost use Rattle.lefdef_tokens.specs.Places.{past};
ghost use Rattle.lefdef_tokens.specs.Views.{IsLater, pieces_of, rest_of};

use lefdef_tokens::Cursor;

/// What comes after this very word, where it is next.
#[tactic(auto, using(crate::proofs::Keywords::not_next))]
#[inline(always)]
pub(crate) fn past_keyword<'t>(cursor: Cursor<'t>, word: &[u8]) -> Option<Cursor<'t>>
    ensures is { MatchOption result (next_passes (is_word word.now) (rest_of cursor.entry) ≡ false) (λ x. next_passes (is_word word.now) (rest_of cursor.entry) ≡ true) }
    ensures gives { IfSome result (λ x. key word.now (rest_of cursor.entry) ≡ Some (rest_of x)) }
    ensures later { IfSome result (λ x. IsLater cursor.entry x) }
    ensures left { IfSome result (λ x. pieces_of x.tokens ≡ past 1 (pieces_of cursor.entry.tokens)) }
{
    if cursor.next_is(word) {
        cursor.key(word)
    } else {
        None
    }
}
