//! Words compared byte for byte.

ghost use Rattle.std.specs.Prelude.{◌≡◌};
ghost use Rattle.form_meanings.specs.Words.{is_word};

/// Whether the bytes are this very word.
pub fn is_word(bytes: &[u8], word: &[u8]) -> bool
    ensures { result ≡ is_word word.now bytes.now }
{
    bytes == word
}
