//! The first byte that can end a word, or that may be refused, many bytes at a time.

ghost use Rattle.std.specs.Prelude.{◌≡◌, ◌≢◌, ◌↔◌, ◌≤◌, ◌<◌, ◌+◌, ◌==◌, ℕ, length, slice_index, true, nat_le, bit_or, if◌then◌else◌};
ghost use Rattle.std.specs.Int.{bit_at};
ghost use Rattle.memchr.specs.Find.{IsFirst, Passes};
ghost use Rattle.lefdef_tokens.specs.Runs.{HasLanes, Marks, stops};

use std::simd::prelude::*;

#[inline(always)]
fn stops(low: u8, byte: u8) -> bool
    ensures { result ≡ stops low byte }
{
    byte <= low || byte == 127
}

#[inline(always)]
fn load(text: &[u8], at: usize) -> u8x16
    requires { at + 16 ≤ length text.now }
    ensures { HasLanes result (λ k. slice_index text.now (at + k)) }
{
    u8x16::from_slice(&text[at..])
}

#[inline(always)]
fn at_most(bytes: u8x16, low: u8) -> u8x16
    ensures { HasLanes result (λ k. if nat_le (slice_index bytes k) low then 255 else 0) }
{
    bytes
        .simd_le(u8x16::splat(low))
        .select(u8x16::splat(255), u8x16::splat(0))
}

#[inline(always)]
fn equal_to(bytes: u8x16, byte: u8) -> u8x16
    ensures { HasLanes result (λ k. if slice_index bytes k == byte then 255 else 0) }
{
    bytes
        .simd_eq(u8x16::splat(byte))
        .select(u8x16::splat(255), u8x16::splat(0))
}

#[inline(always)]
fn either(first: u8x16, second: u8x16) -> u8x16
    ensures { HasLanes result (λ k. bit_or (slice_index first k) (slice_index second k)) }
{
    first | second
}

#[inline(always)]
fn top_bits(lanes: u8x16) -> u64
    ensures { (k : ℕ) → (bit_at result k ≡ 1) ↔ (128 ≤ slice_index lanes k) }
{
    lanes.simd_ge(u8x16::splat(128)).to_bitmask()
}

/// Marks for the 16 bytes from `at` on that stop.
#[inline(always)]
fn marks(text: &[u8], at: usize, low: u8) -> u64
    requires { at + 16 ≤ length text.now }
    ensures { Marks low text.now at result }
{
    let bytes = load(text, at);
    top_bits(either(at_most(bytes, low), equal_to(bytes, 127)))
}

#[inline(always)]
fn lowest(marks: u64) -> usize
    requires { marks ≢ 0 }
    ensures set { bit_at marks result ≡ 1 }
    ensures below { (k : ℕ) → k < result → bit_at marks k ≢ 1 }
{
    marks.trailing_zeros() as usize
}

/// The first byte from `from` up to `end` that is at most `low`, or 127.
#[inline(always)]
pub fn first_stop(text: &[u8], from: usize, end: usize, low: u8) -> Option<usize>
    requires low { from ≤ end }
    requires high { end ≤ length text.now }
    ensures { IsFirst (Passes (stops low) text.now) from end result }
{
    // Many words of a DEF have one byte.
    if from < end && text[from] <= low {
        return Some(from);
    }
    let mut pos = from;
    while end - pos >= 16 {
        let marks = marks(text, pos, low);
        if marks != 0 {
            return Some(pos + lowest(marks));
        }
        pos += 16;
    }
    for at in pos..end {
        if stops(low, text[at]) {
            return Some(at);
        }
    }
    None
}
