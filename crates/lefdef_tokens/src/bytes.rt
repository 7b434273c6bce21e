//! Kinds of bytes.

ghost use Rattle.std.specs.Prelude.{◌≡◌, ◌≤◌, ◌<◌, true, false};
ghost use Rattle.statement_model.specs.Tokens.{is_white, is_refused};

/// Whether a byte is white space.
#[inline(always)]
pub fn is_white(byte: u8) -> bool
    ensures { result ≡ is_white byte }
{
    matches!(byte, b' ' | b'\t' | b'\r' | b'\n')
}

#[inline(always)]
pub fn is_refused(byte: u8) -> bool
    ensures { result ≡ is_refused byte }
{
    (byte < 32 && !is_white(byte)) || byte == 127
}
