//! Distances, as they are written.

ghost use Rattle.std.specs.Prelude.{◌≡◌, ◌≤◌, ◌*◌, ◌^◌, IfOk};
ghost use Rattle.design_model.specs.Units.{before_point, behind_point, distance};
ghost use Rattle.unit_numbers.specs.Distances.{distance_seen, sized};

use crate::digits::{spelled, split_sign};
use crate::distance::{Microns, power};
use design_model::number::NumFault;

const MOST_PLACES: usize = 12;

const MOST_MICRONS: u64 = 1000000;

/// What stands before the first point, and behind it.
fn split_point(body: &[u8]) -> (&[u8], &[u8])
    ensures before { result.0.now ≡ before_point body.now }
    ensures behind { result.1.now ≡ behind_point body.now }
{
    for place in 0..body.len() {
        if body[place] == b'.' {
            return (&body[..place], &body[place + 1..]);
        }
    }
    (body, &[])
}

/// The digits before and behind a point as one number, and how many of them stand behind it.
fn sized(before: &[u8], behind: &[u8]) -> Result<(u64, u8), NumFault>
    ensures value { result ≡ sized before.now behind.now }
    ensures few { IfOk result (λ s. s.1 ≤ 12) }
    ensures small { IfOk result (λ s. s.0 ≤ 1000000 * 10 ^ s.1) }
    ensures bound { IfOk result (λ s. s.0 ≤ 1000000000000000000) }
{
    if behind.len() > MOST_PLACES || (before.is_empty() && behind.is_empty()) {
        return Err(NumFault::Form);
    }
    let Some(front) = spelled(0, before) else {
        return Err(NumFault::Form);
    };
    let Some(size) = spelled(front, behind) else {
        return Err(NumFault::Form);
    };
    let places = behind.len() as u8;
    if size > MOST_MICRONS * power(places) {
        return Err(NumFault::Range);
    }
    Ok((size, places))
}

/// The distance that a word is, in microns. A word that is not written as one, or has more than 12 digits
/// behind the point, has the fault `Form`, and one outside plus or minus 1000000 the fault `Range`.
#[tactic(auto, unfolding(design_model::specs::Units::distance))]
pub fn microns(text: &[u8]) -> Result<Microns, NumFault>
    ensures { distance_seen result ≡ distance text.now }
{
    let (minus, body) = split_sign(text);
    let (before, behind) = split_point(body);
    let (size, places) = sized(before, behind)?;
    let size = size as i64;
    Ok(Microns {
        value: if minus { -size } else { size },
        places,
    })
}
