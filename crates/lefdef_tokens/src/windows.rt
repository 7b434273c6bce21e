//! Blanks and digits among the next bytes of a text, many at a time.

ghost use Rattle.std.specs.Prelude.{◌≡◌, ◌↔◌, ◌≤◌, ◌<◌, ◌+◌, ℕ, length, slice_index, true};
ghost use Rattle.std.specs.Char.{is_ascii_digit};
ghost use Rattle.lefdef_tokens.specs.Windows.{LowMarks};

use std::simd::prelude::*;

/// Marks for those of the 32 bytes from `at` on that are a blank or below one.
#[inline(always)]
pub fn low_marks(text: &[u8], at: usize) -> u64
    requires { at + 32 ≤ length text.now }
    ensures { LowMarks text.now at result }
{
    u8x32::from_slice(&text[at..])
        .simd_le(u8x32::splat(b' '))
        .to_bitmask()
}

/// How many of the 16 bytes from `at` on are digits, up to the first other one.
#[inline(always)]
pub fn digit_run(text: &[u8], at: usize) -> usize
    requires { at + 16 ≤ length text.now }
    ensures { (k : ℕ) → k < result → k < 16 → is_ascii_digit (slice_index text.now (at + k)) ≡ true }
{
    let values = u8x16::from_slice(&text[at..]) - u8x16::splat(b'0');
    let digits = values.simd_le(u8x16::splat(9)).to_bitmask();
    digits.trailing_ones() as usize
}
