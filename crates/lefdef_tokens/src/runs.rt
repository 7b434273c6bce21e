//! How far white space, comments, words and strings go.

ghost use Rattle.std.specs.Prelude.{◌≡◌, ◌≤◌, ◌<◌, ◌≢◌, ℕ, ◌+◌, List, [], ◌∷◌, length, drop, slice_index, true, IfOk};
ghost use Rattle.memchr.specs.Find.{IsFirst, Passes, is_byte};
ghost use Rattle.statement_model.specs.Tokens.{is_refused};
ghost use Rattle.lefdef_tokens.specs.Runs.{GoesTo, IsLineEnd, IsClosing, piece_at, begins};
ghost use Rattle.design_model.specs.declared.fault.FaultCode.TheVariants.{RefusedByte};
ghost use Rattle.design_model.specs.declared.token_kind.TokenKind.TheVariants.{Word, Quoted};

use crate::bytes::{is_refused, is_white};
use crate::stops::first_stop;
use design_model::fault::{Fault, FaultCode};
use memchr::memchr;

/// The first place of a byte from `from` on.
fn find_byte(text: &[u8], from: usize, byte: u8) -> Option<usize>
    requires { from ≤ length text.now }
    ensures { IsFirst (Passes (is_byte byte) text.now) from (length text.now) result }
{
    match memchr(byte, &text[from..]) {
        Some(at) => Some(from + at),
        None => None,
    }
}

/// The first refused byte from `from` up to `end`.
fn find_refused(text: &[u8], from: usize, end: usize) -> Option<usize>
    requires low { from ≤ end }
    requires high { end ≤ length text.now }
    ensures { IsFirst (Passes is_refused text.now) from end result }
{
    let mut pos = from;
    while let Some(stop) = first_stop(text, pos, end, 31) {
        if is_refused(text[stop]) {
            return Some(stop);
        }
        pos = stop + 1;
    }
    None
}

fn refused(pos: usize) -> Fault
    ensures { result ≡ record { code = RefusedByte; pos = pos } }
{
    Fault {
        code: FaultCode::RefusedByte,
        pos,
    }
}

/// The first line end from `from` on, or the text's length.
fn line_end(text: &[u8], from: usize) -> usize
    requires { from ≤ length text.now }
    ensures { IsLineEnd text.now from result }
{
    match find_byte(text, from, b'\n') {
        Some(end) => end,
        None => text.len(),
    }
}

/// Where the comment that begins at `start` ends: at its line end, or with the text.
#[inline(never)]
pub fn comment_end(text: &[u8], start: usize) -> Result<usize, Fault>
    requires within { start < length text.now }
    requires sign { slice_index text.now start ≡ 35 }
    ensures goes { GoesTo text.now start (λ _. []) result }
    ensures further { IfOk result (λ end. start < end) }
{
    let end = line_end(text, start + 1);
    match find_refused(text, start + 1, end) {
        Some(pos) => Err(refused(pos)),
        None => Ok(end),
    }
}

/// Where the first token from `from` on begins, or the text's length.
#[inline(always)]
pub fn token_start(text: &[u8], from: usize) -> Result<usize, Fault>
    requires { from ≤ length text.now }
    ensures goes { GoesTo text.now from (λ _. []) result }
    ensures begins { IfOk result (λ start. start < length text.now → begins (slice_index text.now start) ≡ true) }
{
    let mut pos = from;
    while pos < text.len() {
        let byte = text[pos];
        if is_white(byte) {
            pos += 1;
        } else if byte == b'#' {
            pos = comment_end(text, pos)?;
        } else if is_refused(byte) {
            return Err(refused(pos));
        } else {
            return Ok(pos);
        }
    }
    Ok(pos)
}

/// Where the word that begins at `start` ends.
#[inline(always)]
pub fn word_end(text: &[u8], start: usize) -> Result<usize, Fault>
    requires within { start < length text.now }
    requires begins { begins (slice_index text.now start) ≡ true }
    requires no_quote { slice_index text.now start ≢ 34 }
    ensures goes { GoesTo text.now start (λ end. piece_at Word text.now start end ∷ []) result }
    ensures further { IfOk result (λ end. start < end) }
{
    match first_stop(text, start + 1, text.len(), b' ') {
        Some(pos) => {
            if is_white(text[pos]) {
                Ok(pos)
            } else {
                Err(refused(pos))
            }
        }
        None => Ok(text.len()),
    }
}

/// The quote that ends the string that begins at `start`.
fn closing_quote(text: &[u8], start: usize) -> Option<usize>
    requires { start < length text.now }
    ensures { IsClosing text.now start result }
{
    let mut from = start + 1;
    while let Some(quote) = find_byte(text, from, b'"') {
        if text[quote - 1] != b'\\' {
            return Some(quote);
        }
        from = quote + 1;
    }
    None
}

/// Where the string that begins at `start` ends.
#[inline(never)]
pub fn string_end(text: &[u8], start: usize) -> Result<usize, Fault>
    requires within { start < length text.now }
    requires quote { slice_index text.now start ≡ 34 }
    ensures goes { GoesTo text.now start (λ end. piece_at Quoted text.now start end ∷ []) result }
    ensures further { IfOk result (λ end. start < end) }
{
    match closing_quote(text, start) {
        Some(quote) => match find_refused(text, start + 1, quote) {
            Some(pos) => Err(refused(pos)),
            None => Ok(quote + 1),
        },
        None => match find_refused(text, start + 1, text.len()) {
            Some(pos) => Err(refused(pos)),
            None => Err(Fault {
                code: FaultCode::OpenString,
                pos: start,
            }),
        },
    }
}
