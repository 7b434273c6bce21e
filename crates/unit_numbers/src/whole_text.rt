//! Whole numbers, as they are written.

ghost use Rattle.std.specs.Prelude.{◌≡◌, ◌↔◌, IsOk, IsTrue};
ghost use Rattle.design_model.specs.Units.{whole};

use crate::digits::{spelled, split_sign};
use design_model::number::NumFault;

const LIMIT: u64 = 2147483647;

/// The whole number that a word is. A word that is not written as one has the fault `Form`,
/// and one outside plus or minus 2147483647 the fault `Range`.
#[tactic(auto, unfolding(design_model::specs::Units::whole))]
#[inline(always)]
pub fn whole(text: &[u8]) -> Result<i32, NumFault>
    ensures { result ≡ whole text.now }
{
    let (minus, body) = split_sign(text);
    if body.is_empty() {
        return Err(NumFault::Form);
    }
    let Some(size) = spelled(0, body) else {
        return Err(NumFault::Form);
    };
    if size > LIMIT {
        return Err(NumFault::Range);
    }
    let size = size as i32;
    Ok(if minus { -size } else { size })
}

/// Whether a word is a sign or none and one to nine digits, as most numbers are.
#[inline(always)]
fn is_short(text: &[u8]) -> bool
    ensures { IsTrue result → IsOk (whole text.now) }
{
    let (_, body) = split_sign(text);
    if body.len() == 0 || body.len() > 9 {
        return false;
    }
    for byte in body {
        if !byte.is_ascii_digit() {
            return false;
        }
    }
    true
}

/// Whether a word is a whole number.
#[inline(never)]
pub fn is_whole(text: &[u8]) -> bool
    ensures { IsTrue result ↔ IsOk (whole text.now) }
{
    is_short(text) || whole(text).is_ok()
}
