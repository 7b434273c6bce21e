//! Kinds of words, by their bytes.

ghost use Rattle.std.specs.Prelude.{◌≡◌, codes};
ghost use Rattle.form_meanings.specs.Words.{is_word, is_quoted, is_plus, is_semicolon, is_stop, is_plain, is_place, is_name};

/// Whether the bytes are this very word.
#[inline(always)]
pub fn is_word(bytes: &[u8], word: &[u8]) -> bool
    ensures { result ≡ is_word word.now bytes.now }
{
    bytes == word
}

/// Whether the bytes are those of a string.
#[inline(always)]
pub fn is_quoted(bytes: &[u8]) -> bool
    ensures { result ≡ is_quoted bytes.now }
{
    matches!(bytes, [b'"', ..])
}

#[inline(always)]
pub fn is_plus(bytes: &[u8]) -> bool
    ensures { result ≡ is_plus bytes.now }
{
    matches!(bytes, [b'+'])
}

#[inline(always)]
pub fn is_semicolon(bytes: &[u8]) -> bool
    ensures { result ≡ is_semicolon bytes.now }
{
    matches!(bytes, [b';'])
}

/// Whether the bytes end a clause: the `+` of the next one, or the `;` of the statement.
#[inline(always)]
pub fn is_stop(bytes: &[u8]) -> bool
    ensures { result ≡ is_stop bytes.now }
{
    matches!(bytes, [b'+' | b';'])
}

/// Whether the bytes are a word that begins no clause and ends no statement.
#[inline(always)]
pub fn is_plain(bytes: &[u8]) -> bool
    ensures { result ≡ is_plain bytes.now }
{
    !matches!(bytes, [b'"', ..] | [b'+' | b';'])
}

/// Whether the bytes can stand in the place of a number.
#[inline(always)]
pub fn is_place(bytes: &[u8]) -> bool
    ensures { result ≡ is_place bytes.now }
{
    !matches!(bytes, [b'"', ..] | [b';' | b'(' | b')' | b'+' | b'-'])
}

/// Whether the bytes can stand in the place of a name.
#[inline(always)]
pub fn is_name(bytes: &[u8]) -> bool
    ensures { result ≡ is_name bytes.now }
{
    is_place(bytes) && !matches!(bytes, [b'*'])
}
