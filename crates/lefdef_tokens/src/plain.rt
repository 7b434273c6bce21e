//! Words without a semicolon, many bytes at a time.

ghost use Rattle.std.specs.Prelude.{◌≡◌, ◌≤◌, ◌<◌, ◌+◌, ◌-◌, length, slice_index, true};
ghost use Rattle.statement_model.specs.Tokens.{is_white};
ghost use Rattle.lefdef_tokens.specs.Skipping.{HasBegun, IsWordStart, Skips};

use crate::bytes::is_white;
use crate::lanes::{plain_length, words_begun};

/// A place after `from`, and how many words begin between them. No byte from `from` to the word that is open at that place
/// ends a statement or begins a string or a comment.
fn go_over(text: &[u8], from: usize) -> (usize, usize)
    requires within { from < length text.now }
    requires apart { is_white (slice_index text.now from) ≡ true }
    ensures { HasBegun text.now from result.0 result.1 }
{
    let mut at = from + 1;
    let mut count = 0;
    while text.len() - at >= 64 {
        let plain = plain_length(text, at);
        count += words_begun(text, at, plain);
        at += plain;
        if plain < 64 {
            break;
        }
    }
    (at, count)
}

/// Where the word begins that is open at a place after `from`, or that place where no word is open.
fn word_start(text: &[u8], from: usize, at: usize) -> usize
    requires low { from < at }
    requires high { at ≤ length text.now }
    requires apart { is_white (slice_index text.now from) ≡ true }
    ensures { IsWordStart text.now from at result }
{
    let mut start = at;
    while !is_white(text[start - 1]) {
        start -= 1;
    }
    start
}

/// A later place between two tokens, with the number of tokens up to it, where none of them is a `;`. It goes over whole
/// words by many bytes at a time, no further than to the first string, comment or `;`, and may stop anywhere before.
pub fn skip_plain(text: &[u8], from: usize) -> (usize, usize)
    requires { from ≤ length text.now }
    ensures low { from ≤ result.0 }
    ensures high { result.0 ≤ length text.now }
    ensures few { from + result.1 ≤ result.0 }
    ensures skips { Skips text.now from result.0 result.1 }
{
    // Behind white space a word begins wherever white space stands before it.
    if from == text.len() || !is_white(text[from]) {
        return (from, 0);
    }
    let (at, count) = go_over(text, from);
    let start = word_start(text, from, at);
    if start < at {
        (start, count - 1)
    } else {
        (start, count)
    }
}
