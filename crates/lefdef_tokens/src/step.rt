//! The first token of what is left of a text.

ghost use Rattle.std.specs.Prelude.{◌≡◌, ◌≤◌, ◌<◌, ◌+◌, length, slice_index, IfOk, IfSome};
ghost use Rattle.lefdef_tokens.specs.TokenViews.{IsIn, IsNext, Steps, token_of};
ghost use Rattle.statement_model.specs.Tokens.{left_from};
ghost use Rattle.lefdef_tokens.specs.Runs.{ComesFirst, FirstStands, token_from};
ghost use Rattle.lefdef_tokens.specs.Windows.{IsNextLow, LowMarks};

use crate::runs::{string_end, token_start, word_end};
use crate::token::Token;
use crate::windows::low_marks;
use design_model::fault::Fault;
use design_model::token_kind::TokenKind;

/// Where the first token from a place between two tokens on begins, and where it ends.
#[inline(always)]
pub fn token_bounds(text: &[u8], pos: usize) -> Result<Option<(usize, usize)>, Fault>
    requires { pos ≤ length text.now }
    ensures { FirstStands text.now pos result }
{
    let start = token_start(text, pos)?;
    if start == text.len() {
        return Ok(None);
    }
    let end = if text[start] == b'"' {
        string_end(text, start)?
    } else {
        word_end(text, start)?
    };
    Ok(Some((start, end)))
}

/// The first of the 64 bytes from a place on that stands after `start` and is a blank or below one. The marks are those of
/// the first 32, and there `start` is the first that has none.
#[inline(always)]
fn next_low(text: &[u8], from: usize, start: usize, marks: u64) -> Option<usize>
    requires room { from + 64 ≤ length text.now }
    requires marks { LowMarks text.now from marks }
    requires low { from ≤ start }
    requires near { start ≤ from + 32 }
    requires high { 32 < slice_index text.now start }
    ensures { IfSome result (λ end. IsNextLow text.now start end) }
{
    let later = marks >> (start - from);
    if later != 0 {
        return Some(start + later.trailing_zeros() as usize);
    }
    let marks = low_marks(text, from + 32);
    if marks != 0 {
        Some(from + 32 + marks.trailing_zeros() as usize)
    } else {
        None
    }
}

/// Where a word of some tokens that are left begins and ends, if it ends within 64 bytes, as most do, and no comment or
/// string comes first; `None` says nothing.
#[inline(always)]
fn short_word(text: &[u8], from: usize) -> Option<(usize, usize)>
    requires within { from ≤ length text.now }
    requires some { 0 < length (left_from text.now from).pieces }
    ensures { IfSome result (λ x. ComesFirst text.now from x.0 x.1) }
{
    if text.len() - from < 64 {
        return None;
    }
    let marks = low_marks(text, from);
    let start = from + marks.trailing_ones() as usize;
    if text[start] <= b'#' {
        return None;
    }
    let end = next_low(text, from, start, marks)?;
    Some((start, end))
}

/// Where the first token of some that are left begins and ends, whatever it is.
#[cold]
#[inline(never)]
fn any_bounds(text: &[u8], pos: usize) -> (usize, usize)
    requires within { pos ≤ length text.now }
    requires some { 0 < length (left_from text.now pos).pieces }
    ensures { ComesFirst text.now pos result.0 result.1 }
{
    match token_bounds(text, pos) {
        Ok(Some(bounds)) => bounds,
        _ => unreachable!(),
    }
}

/// Where the first token of some that are left begins and ends.
#[inline(never)]
pub fn first_bounds(text: &[u8], pos: usize) -> (usize, usize)
    requires within { pos ≤ length text.now }
    requires some { 0 < length (left_from text.now pos).pieces }
    ensures { ComesFirst text.now pos result.0 result.1 }
{
    match short_word(text, pos) {
        Some(bounds) => bounds,
        None => any_bounds(text, pos),
    }
}

/// The token that stands there.
#[inline(always)]
pub fn token_between<'t>(text: &'t [u8], start: usize, end: usize) -> Token<'t>
    requires some { start < end }
    requires within { end ≤ length text.now }
    ensures piece { token_of result ≡ token_from text.now start end }
    ensures slice { IsIn text.now result }
    ensures len { length result.bytes.now + start ≡ end }
{
    let kind = if text[start] == b'"' {
        TokenKind::Quoted
    } else {
        TokenKind::Word
    };
    Token {
        kind,
        bytes: &text[start..end],
        pos: start,
    }
}

/// The first token from a place between two tokens on, and the place after it.
#[inline(always)]
pub fn token_at<'t>(text: &'t [u8], pos: usize) -> Result<Option<(Token<'t>, usize)>, Fault>
    requires { pos ≤ length text.now }
    ensures steps { Steps text.now pos result }
    ensures slice { IfOk result (λ found. IfSome found (λ x. IsIn text.now x.0)) }
    ensures span { IfOk result (λ found. IfSome found (λ x. IsNext pos x.0 x.1)) }
{
    match token_bounds(text, pos)? {
        Some((start, end)) => Ok(Some((token_between(text, start, end), end))),
        None => Ok(None),
    }
}
