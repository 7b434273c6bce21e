//! Tokens in a row.

ghost use Rattle.std.specs.Prelude.{◌≡◌, ◌≤◌, length};
ghost use Rattle.statement_model.specs.Tokens.{left_from};

use crate::span::Span;
use crate::step::{first_bounds, token_at, token_between};
use crate::token::Token;
use design_model::fault::Fault;

/// A number of tokens of a text, from a place between two tokens on.
#[derive(Clone, Copy)]
pub struct TokenRun<'t> {
    pub text: &'t [u8],
    pub pos: usize,
    pub count: usize,
    ghost within: { pos ≤ length text.now },
    ghost there: { count ≤ length (left_from text.now pos).pieces },
}

impl<'t> TokenRun<'t> {
    ghost use Rattle.std.specs.Prelude.{◌+◌, ◌<◌, ◌↔◌, ◌∷◌, [], drop, take, Ok, IfOk, IfSome, MatchOption, MatchResult, IsTrue};
    ghost use Rattle.std.specs.List.{slice_get};
    ghost use Rattle.statement_model.specs.Tokens.{tokens};
    ghost use Rattle.form_meanings.specs.Words.{Gives};
    ghost use Rattle.lefdef_tokens.specs.Runs.{ComesFirst};
    ghost use Rattle.lefdef_tokens.specs.TokenViews.{IsIn, IsNext, StandsFirst, token_of, pieces_of, span_of, words_of};

    /// All tokens of a text.
    pub fn of_text(text: &'t [u8]) -> Result<TokenRun<'t>, Fault>
        ensures end { MatchResult result (λ run. (tokens text.now).end ≡ Ok (length text.now)) (λ fault. (tokens text.now).end ≡ Err fault) }
        ensures gives { IfOk result (λ run. pieces_of run ≡ (tokens text.now).pieces) }
        ensures same { IfOk result (λ run. run.text.now ≡ text.now) }
    {
        let mut pos = 0;
        let mut count = 0;
        while let Some((_, end)) = token_at(text, pos)? {
            count += 1;
            pos = end;
        }
        Ok(TokenRun {
            text,
            pos: 0,
            count,
        })
    }

    /// Where the first token begins and ends.
    #[inline(always)]
    pub(crate) fn first_bounds(self) -> (usize, usize)
        ensures { 0 < self.entry.count → ComesFirst self.entry.text.now self.entry.pos result.0 result.1 }
    {
        if self.count == 0 {
            (self.pos, self.pos)
        } else {
            first_bounds(self.text, self.pos)
        }
    }

    /// The first token, by where it stands.
    #[inline(always)]
    pub(crate) fn first_between(self, start: usize, end: usize) -> Option<Token<'t>>
        requires { 0 < self.count → ComesFirst self.text.now self.pos start end }
        ensures { MatchOption result (self.entry.count ≡ 0) (λ token. StandsFirst self.entry token) }
    {
        if self.count == 0 {
            None
        } else {
            Some(token_between(self.text, start, end))
        }
    }

    /// The first token.
    #[inline(always)]
    pub(crate) fn first(self) -> Option<Token<'t>>
        ensures { MatchOption result (self.entry.count ≡ 0) (λ token. StandsFirst self.entry token) }
    {
        let (start, end) = self.first_bounds();
        self.first_between(start, end)
    }

    /// The tokens after the first one.
    #[inline(always)]
    pub(crate) fn after(self, first: Token<'t>) -> TokenRun<'t>
        requires { StandsFirst self first }
        ensures pieces { pieces_of self.entry ≡ token_of first.entry ∷ pieces_of result }
        ensures words { words_of self.entry ≡ first.entry.bytes.now ∷ words_of result }
        ensures same { result.text.now ≡ self.entry.text.now }
        ensures pos { result.pos ≡ first.entry.pos + length first.entry.bytes.now }
        ensures count { result.count + 1 ≡ self.entry.count }
    {
        TokenRun {
            text: self.text,
            pos: first.pos + first.bytes.len(),
            count: self.count - 1,
        }
    }

    /// The first token, and the tokens after it.
    #[inline(always)]
    pub fn split_first(self) -> Option<(Token<'t>, TokenRun<'t>)>
        ensures pieces { MatchOption result (pieces_of self.entry ≡ []) (λ x. pieces_of self.entry ≡ token_of x.0 ∷ pieces_of x.1) }
        ensures words { MatchOption result (words_of self.entry ≡ []) (λ x. words_of self.entry ≡ x.0.bytes.now ∷ words_of x.1) }
        ensures slice { IfSome result (λ x. IsIn self.entry.text.now x.0) }
        ensures same { IfSome result (λ x. x.1.text.now ≡ self.entry.text.now) }
        ensures span { IfSome result (λ x. IsNext self.entry.pos x.0 x.1.pos) }
        ensures count { IfSome result (λ x. x.1.count + 1 ≡ self.entry.count) }
    {
        let first = self.first()?;
        Some((first, self.after(first)))
    }

    #[inline(always)]
    pub fn len(self) -> usize
        ensures { result ≡ length (words_of self.entry) }
    {
        self.count
    }

    #[inline(always)]
    pub fn is_empty(self) -> bool
        ensures { IsTrue result ↔ (words_of self.entry ≡ []) }
    {
        self.len() == 0
    }

    /// The first `count` tokens.
    #[inline(always)]
    pub fn front(self, count: usize) -> TokenRun<'t>
        requires { count ≤ self.count }
        ensures gives { pieces_of result ≡ take count (pieces_of self.entry) }
        ensures words { words_of result ≡ take count (words_of self.entry) }
        ensures same { result.text.now ≡ self.entry.text.now }
        ensures count { result.count ≡ count }
    {
        TokenRun {
            text: self.text,
            pos: self.pos,
            count,
        }
    }

    /// The tokens after the first `count`.
    pub fn skip(self, count: usize) -> TokenRun<'t>
        ensures gives { pieces_of result ≡ drop count (pieces_of self.entry) }
        ensures words { words_of result ≡ drop count (words_of self.entry) }
        ensures same { result.text.now ≡ self.entry.text.now }
    {
        let mut left = self;
        for _ in 0..count {
            let Some((_, later)) = left.split_first() else {
                return left;
            };
            left = later;
        }
        left
    }

    /// The token after `n` others.
    pub fn token(self, n: usize) -> Option<Token<'t>>
        ensures gives { Gives token_of result (slice_get (pieces_of self.entry) n) }
        ensures slice { IfSome result (λ t. IsIn self.entry.text.now t) }
    {
        let (token, _) = self.skip(n).split_first()?;
        Some(token)
    }

    /// From the first token's start to the last one's end, or 0 and 0 where there are no tokens.
    pub fn span(self) -> Span
        ensures gives { result ≡ span_of (pieces_of self.entry) }
        ensures order { result.lo ≤ result.hi }
        ensures within { result.hi ≤ length self.entry.text.now }
    {
        let Some((first, mut left)) = self.split_first() else {
            return Span { lo: 0, hi: 0 };
        };
        while let Some((_, later)) = left.split_first() {
            left = later;
        }
        Span {
            lo: first.pos,
            hi: left.pos,
        }
    }
}
