//! What ends a part of a statement.

ghost use Rattle.std.specs.Prelude.{◌≡◌, ℕ, Bool, List};
ghost use Rattle.form_meanings.specs.Words.{is_semicolon, is_stop};

use crate::words;

/// A kind of words before which a part ends.
pub trait PartEnd {
    ghost test: { List ℕ → Bool };

    /// Whether a word is of this kind.
    fn is_at(word: &[u8]) -> bool
        ensures { result ≡ test word.now };
}

/// A clause ends before the next `+` or `;`.
pub(crate) struct ClauseEnd;

/// A statement ends at its `;`.
pub(crate) struct StatementEnd;

impl PartEnd for ClauseEnd {
    ghost test = { is_stop };

    fn is_at(word: &[u8]) -> bool
        ensures { result ≡ is_stop word.now }
    {
        words::is_stop(word)
    }
}

impl PartEnd for StatementEnd {
    ghost test = { is_semicolon };

    fn is_at(word: &[u8]) -> bool
        ensures { result ≡ is_semicolon word.now }
    {
        words::is_semicolon(word)
    }
}
