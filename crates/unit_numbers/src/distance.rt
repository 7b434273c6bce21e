//! Distances in microns and in database units.

ghost use Rattle.std.specs.Prelude.{◌≡◌, ◌≤◌, ◌<◌, ◌+◌, ◌*◌, ◌/◌, ◌^◌, ◌↔◌, IsTrue, nat_abs};
ghost use Rattle.design_model.specs.Units.{IsNearest, IsExact};

/// The distance value / 10 ^ places, in microns.
#[derive(Clone, Copy, Debug, PartialEq, Eq)]
pub struct Microns {
    pub value: i64,
    pub places: u8,
    ghost few: { places ≤ 12 },
    ghost small: { nat_abs value ≤ 1000000 * 10 ^ places },
}

/// A distance in database units, and whether nothing was rounded.
#[derive(Clone, Copy, Debug, PartialEq, Eq)]
pub struct Units {
    pub value: i64,
    pub exact: bool,
}

/// Ten to this power.
pub(crate) fn power(places: u8) -> u64
    requires { places ≤ 12 }
    ensures value { result ≡ 10 ^ places }
    ensures some { 0 < result }
    ensures bound { result ≤ 1000000000000 }
{
    match places {
        0 => 1,
        1 => 10,
        2 => 100,
        3 => 1000,
        4 => 10000,
        5 => 100000,
        6 => 1000000,
        7 => 10000000,
        8 => 100000000,
        9 => 1000000000,
        10 => 10000000000,
        11 => 100000000000,
        _ => 1000000000000,
    }
}

/// size / scale, rounded to the nearest whole number, a tie upwards, and whether nothing was rounded.
fn rounded(size: u128, scale: u64) -> (u64, bool)
    requires some { 0 < scale }
    requires low { scale ≤ 1000000000000 }
    requires high { size ≤ 100000000000 * scale }
    ensures value { result.0 ≡ (2 * size + scale) / (2 * scale) }
    ensures exact { IsTrue result.1 ↔ (result.0 * scale ≡ size) }
    ensures bound { result.0 ≤ 100000000000 }
{
    let scale = scale as u128;
    let value = (2 * size + scale) / (2 * scale);
    (value as u64, value * scale == size)
}

impl Microns {
    /// The distance at so many database units per micron: the nearest whole number, a tie away from zero
    /// (LEF/DEF 5.8 Language Reference, "Units").
    pub fn units(self, per_micron: u32) -> Units
        requires some { 0 < per_micron }
        requires few { per_micron ≤ 100000 }
        ensures nearest { IsNearest self.value self.places per_micron result.value }
        ensures exact { IsTrue result.exact ↔ IsExact self.value self.places per_micron result.value }
        ensures bound { nat_abs result.value ≤ 100000000000 }
    {
        let size = self.value.unsigned_abs() as u128 * per_micron as u128;
        let (value, exact) = rounded(size, power(self.places));
        let value = value as i64;
        Units {
            value: if self.value < 0 { -value } else { value },
            exact,
        }
    }
}
