//! Which of 64 bytes are of a kind, by one bit for each.

ghost use Rattle.std.specs.Prelude.{◌≡◌, ◌≤◌, ◌+◌, map, length};
ghost use Rattle.std.specs.List.{count_by, position_or_len, range_with_len, slice_range};
ghost use Rattle.std.specs.Simd.Lanes.{mask_l, zip2};
ghost use Rattle.lefdef_tokens.specs.Skipping.{begins_after, begins_at, is_special};

use std::simd::prelude::*;

#[inline(always)]
fn load(text: &[u8], at: usize) -> u8x64
    requires { at + 64 ≤ length text.now }
    ensures { result ≡ slice_range text.now at (at + 64) }
{
    u8x64::from_slice(&text[at..])
}

/// Marks for the special bytes.
#[inline(always)]
fn special(bytes: u8x64) -> u64
    ensures { result ≡ mask_l (map is_special bytes) }
{
    let white = bytes.simd_eq(u8x64::splat(b' '))
        | bytes.simd_eq(u8x64::splat(b'\t'))
        | bytes.simd_eq(u8x64::splat(b'\r'))
        | bytes.simd_eq(u8x64::splat(b'\n'));
    let low = bytes.simd_le(u8x64::splat(b'#')) & !white;
    (low | bytes.simd_eq(u8x64::splat(127)) | bytes.simd_eq(u8x64::splat(b';'))).to_bitmask()
}

/// Marks for the bytes at which a word begins, where `last` has the byte before each.
#[inline(always)]
fn begun(last: u8x64, bytes: u8x64) -> u64
    ensures { result ≡ mask_l (zip2 begins_after last bytes) }
{
    let white = u8x64::splat(b' ');
    (last.simd_le(white) & !bytes.simd_le(white)).to_bitmask()
}

/// How many of the 64 bytes from `at` on stand before the first special one.
#[inline(always)]
pub fn plain_length(text: &[u8], at: usize) -> usize
    requires { at + 64 ≤ length text.now }
    ensures { result ≡ position_or_len is_special (slice_range text.now at (at + 64)) }
{
    special(load(text, at)).trailing_zeros() as usize
}

/// At how many of the first `plain` bytes from `at` on a word begins.
#[inline(always)]
pub fn words_begun(text: &[u8], at: usize, plain: usize) -> usize
    requires low { 1 ≤ at }
    requires high { at + 64 ≤ length text.now }
    requires within { plain ≤ 64 }
    ensures { result ≡ count_by (begins_at text.now) (range_with_len at plain) }
{
    let marks = begun(load(text, at - 1), load(text, at));
    let first = if plain == 64 {
        marks
    } else {
        marks & ((1 << plain) - 1)
    };
    first.count_ones() as usize
}
