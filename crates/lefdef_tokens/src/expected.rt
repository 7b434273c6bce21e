//! Words of a kind that is expected, where a blank stands right before them.

ghost use Rattle.std.specs.Prelude.{◌≤◌, ◌<◌, length, slice_index, IfSome};
ghost use Rattle.lefdef_tokens.specs.Expected.{DigitsStand, MarkStands};

use crate::bytes::is_white;
use crate::windows::digit_run;

/// Where a word of one to nine digits stands between two blanks; `None` says nothing.
#[inline(always)]
pub fn digits_at(text: &[u8], from: usize) -> Option<(usize, usize)>
    requires { from ≤ length text.now }
    ensures { IfSome result (λ x. DigitsStand text.now from x.0 x.1) }
{
    if text.len() - from < 18 || text[from] != b' ' {
        return None;
    }
    let start = from + 1;
    let count = digit_run(text, start);
    if count == 0 || count > 9 {
        return None;
    }
    let end = start + count;
    if text[end] == b' ' {
        Some((start, end))
    } else {
        None
    }
}

/// Where this byte is a word, behind a blank; `None` says nothing.
#[inline(always)]
pub fn mark_at(text: &[u8], from: usize, mark: u8) -> Option<(usize, usize)>
    requires within { from ≤ length text.now }
    requires high { 35 < mark }
    requires low { mark < 127 }
    ensures { IfSome result (λ x. MarkStands mark text.now from x.0 x.1) }
{
    if text.len() - from < 3 || text[from] != b' ' || text[from + 1] != mark {
        return None;
    }
    if is_white(text[from + 2]) {
        Some((from + 1, from + 2))
    } else {
        None
    }
}
