//! How many tokens a statement can have.

ghost use Rattle.std.specs.Prelude.{◌<◌, ◌≤◌, ◌^◌, length};
ghost use Rattle.lefdef_tokens.specs.Views.{rest_of};

use lefdef_tokens::Cursor;

/// A text has fewer than 2^63 bytes.
fn few_bytes(_text: &[u8])
    ensures { length _text.now < 2 ^ 63 }
{}

/// At most 2^62 tokens are left, since a text has two bytes for each but the last.
pub fn few_tokens(cursor: &Cursor<'_>)
    ensures { length (rest_of cursor.now).words ≤ 2 ^ 62 }
{
    few_bytes(cursor.tokens.text);
}
