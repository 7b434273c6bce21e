//! Numbers in the lines of a script.

ghost use Rattle.std.specs.Prelude.{◌≡◌};
ghost use Rattle.design_model.specs.Units.{whole};
ghost use Rattle.edit_rules.specs.Script.{number_or_out};

use unit_numbers::whole;

/// A number that no DEF text may hold: it stands for an invalid number.
const OUT_OF_RANGE: i64 = 2147483648;

/// The number that a word is, and one out of range where it is invalid.
pub(crate) fn number_of(word: &[u8]) -> i64
    ensures { result ≡ number_or_out (whole word.now) }
{
    match whole(word) {
        Ok(number) => number as i64,
        Err(_) => OUT_OF_RANGE,
    }
}
