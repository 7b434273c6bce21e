//! Reading the tokens of a statement from left to right.

ghost use Rattle.std.specs.Prelude.{◌≡◌, ◌<◌, None};
ghost use Rattle.lefdef_tokens.specs.Runs.{ComesFirst};

use crate::part_end::{ClauseEnd, PartEnd, StatementEnd};
use crate::token::Token;
use crate::token_run::TokenRun;
use crate::unseen::Unseen;
use crate::words;

/// The tokens that are left, and how many were left where the first invalid number stood. Where the next token stands is
/// kept, so that looking at it is free.
#[derive(Clone, Copy)]
pub struct Cursor<'t> {
    pub tokens: TokenRun<'t>,
    pub bad: Option<usize>,
    start: usize,
    end: usize,
    ghost at_first: { 0 < tokens.count → ComesFirst tokens.text.now tokens.pos start end },
}

impl<'t> Cursor<'t> {
    ghost use Rattle.std.specs.Prelude.{◌∷◌, List, [], length, false, ℕ, IfSome, MatchOption};
    ghost use Rattle.form_meanings.specs.Words.{Gives, is_done, is_name, is_plain, is_place, is_plus, is_semicolon, is_stop, is_word, key, name_at, next_passes, next_word, noted, split_rest, word_that};
    ghost use Rattle.statement_model.specs.Form.{◌▸◌, read, word};
    ghost use Rattle.lefdef_tokens.specs.TokenViews.{StandsFirst, pieces_of};
    ghost use Rattle.lefdef_tokens.specs.Places.{StandsAt, RunAt, behind, past};
    ghost use Rattle.lefdef_tokens.specs.Unseens.{IsFurther, unseen_rest};
    ghost use Rattle.lefdef_tokens.specs.Views.{IsIn, IsLater, rest_of, run_of, word_of, words_of};

    /// Before the first token of a run.
    #[inline(always)]
    pub fn start(run: TokenRun<'t>) -> Cursor<'t>
        ensures tokens { result.tokens ≡ run.entry }
        ensures bad { result.bad ≡ None }
    {
        Cursor::at(run, None)
    }

    /// Before the first of these tokens, where this was noted before.
    #[inline(always)]
    pub(crate) fn at(tokens: TokenRun<'t>, bad: Option<usize>) -> Cursor<'t>
        ensures tokens { result.tokens ≡ tokens.entry }
        ensures bad { result.bad ≡ bad }
    {
        let (start, end) = tokens.first_bounds();
        Cursor {
            tokens,
            bad,
            start,
            end,
        }
    }

    /// The next token, as the first of those that are left.
    #[inline(always)]
    fn first(self) -> Option<Token<'t>>
        ensures { MatchOption result (self.entry.tokens.count ≡ 0) (λ token. StandsFirst self.entry.tokens token) }
    {
        self.tokens.first_between(self.start, self.end)
    }

    /// The next token.
    #[inline(always)]
    pub fn next(self) -> Option<(Token<'t>, Cursor<'t>)>
        ensures gives { Gives word_of result (next_word (rest_of self.entry)) }
        ensures first { MatchOption result (words_of self.entry.tokens ≡ []) (λ x. words_of self.entry.tokens ≡ x.0.bytes.now ∷ words_of x.1.tokens) }
        ensures bad { IfSome result (λ x. x.1.bad ≡ self.entry.bad) }
        ensures at { IfSome result (λ x. StandsAt (pieces_of self.entry.tokens) x.0) }
        ensures left { IfSome result (λ x. pieces_of x.1.tokens ≡ past 1 (pieces_of self.entry.tokens)) }
        ensures later { IfSome result (λ x. IsLater self.entry x.1) }
    {
        let first = self.first()?;
        Some((first, Cursor::at(self.tokens.after(first), self.bad)))
    }

    /// The next token, which stays the next.
    #[inline(always)]
    pub fn peek(self) -> Option<Token<'t>>
        ensures first { MatchOption result (words_of self.entry.tokens ≡ []) (λ token. (ws : List (List ℕ)) × (words_of self.entry.tokens ≡ token.bytes.now ∷ ws)) }
        ensures at { IfSome result (λ token. StandsAt (pieces_of self.entry.tokens) token) }
    {
        self.first()
    }

    /// Whether no token is left.
    #[inline(always)]
    pub fn is_done(self) -> bool
        ensures { result ≡ is_done (rest_of self.entry) }
    {
        self.tokens.is_empty()
    }

    /// How many tokens are left.
    #[inline(always)]
    pub fn len(self) -> usize
        ensures { result ≡ length (rest_of self.entry).words }
    {
        self.tokens.len()
    }

    /// What comes after this very word.
    #[inline(always)]
    pub fn key(self, word: &[u8]) -> Option<Cursor<'t>>
        ensures gives { Gives rest_of result (key word.now (rest_of self.entry)) }
        ensures left { IfSome result (λ x. pieces_of x.tokens ≡ past 1 (pieces_of self.entry.tokens)) }
        ensures later { IfSome result (λ x. IsLater self.entry x) }
    {
        let (token, cursor) = self.next()?;
        if words::is_word(token.bytes, word) {
            Some(cursor)
        } else {
            None
        }
    }

    /// What comes after this very word, where the token behind it isn't looked for.
    #[inline(always)]
    pub fn past(self, word: &[u8]) -> Option<Unseen<'t>>
        ensures gives { Gives unseen_rest result (key word.now (rest_of self.entry)) }
        ensures left { IfSome result (λ x. pieces_of x.tokens ≡ past 1 (pieces_of self.entry.tokens)) }
        ensures further { IfSome result (λ x. IsFurther self.entry.tokens x.tokens) }
    {
        let first = self.first()?;
        if words::is_word(first.bytes, word) {
            let tokens = self.tokens.after(first);
            let bad = self.bad;
            Some(Unseen { tokens, bad })
        } else {
            None
        }
    }

    /// A name.
    #[inline(always)]
    pub fn name(self) -> Option<(Token<'t>, Cursor<'t>)>
        ensures gives { Gives word_of result (name_at (rest_of self.entry)) }
        ensures at { IfSome result (λ x. StandsAt (pieces_of self.entry.tokens) x.0) }
        ensures left { IfSome result (λ x. pieces_of x.1.tokens ≡ past 1 (pieces_of self.entry.tokens)) }
        ensures later { IfSome result (λ x. IsLater self.entry x.1) }
    {
        let (token, cursor) = self.next()?;
        if words::is_name(token.bytes) {
            Some((token, cursor))
        } else {
            None
        }
    }

    /// A word that begins no clause and ends no statement.
    #[inline(always)]
    pub fn plain_word(self) -> Option<(Token<'t>, Cursor<'t>)>
        ensures gives { Gives word_of result (word_that is_plain (rest_of self.entry)) }
        ensures at { IfSome result (λ x. StandsAt (pieces_of self.entry.tokens) x.0) }
        ensures left { IfSome result (λ x. pieces_of x.1.tokens ≡ past 1 (pieces_of self.entry.tokens)) }
        ensures later { IfSome result (λ x. IsLater self.entry x.1) }
    {
        let (token, cursor) = self.next()?;
        if words::is_plain(token.bytes) {
            Some((token, cursor))
        } else {
            None
        }
    }

    /// A name behind this very word.
    #[inline(always)]
    pub fn name_behind(self, keyword: &[u8]) -> Option<(Token<'t>, Cursor<'t>)>
        ensures gives { Gives word_of result (read (keyword.now ▸ word is_name) (rest_of self.entry)) }
        ensures at { IfSome result (λ x. StandsAt (past 1 (pieces_of self.entry.tokens)) x.0) }
        ensures left { IfSome result (λ x. pieces_of x.1.tokens ≡ past 2 (pieces_of self.entry.tokens)) }
        ensures later { IfSome result (λ x. IsLater self.entry x.1) }
    {
        self.key(keyword)?.name()
    }

    /// A word that begins no clause and ends no statement, behind this very word.
    #[inline(always)]
    pub fn plain_word_behind(self, keyword: &[u8]) -> Option<(Token<'t>, Cursor<'t>)>
        ensures gives { Gives word_of result (read (keyword.now ▸ word is_plain) (rest_of self.entry)) }
        ensures at { IfSome result (λ x. StandsAt (past 1 (pieces_of self.entry.tokens)) x.0) }
        ensures left { IfSome result (λ x. pieces_of x.1.tokens ≡ past 2 (pieces_of self.entry.tokens)) }
        ensures later { IfSome result (λ x. IsLater self.entry x.1) }
    {
        self.key(keyword)?.plain_word()
    }

    /// A word in the place of a number.
    #[inline(always)]
    pub fn place(self) -> Option<(Token<'t>, Cursor<'t>)>
        ensures gives { Gives word_of result (word_that is_place (rest_of self.entry)) }
        ensures at { IfSome result (λ x. StandsAt (pieces_of self.entry.tokens) x.0) }
        ensures left { IfSome result (λ x. pieces_of x.1.tokens ≡ past 1 (pieces_of self.entry.tokens)) }
        ensures later { IfSome result (λ x. IsLater self.entry x.1) }
    {
        let (token, cursor) = self.next()?;
        if words::is_place(token.bytes) {
            Some((token, cursor))
        } else {
            None
        }
    }

    /// The same tokens, where a number was good or not, and `left` tokens were left before it.
    #[inline(always)]
    pub fn noted(self, good: bool, left: usize) -> Cursor<'t>
        ensures noted { rest_of result ≡ noted good left (rest_of self.entry) }
        ensures tokens { result.tokens ≡ self.entry.tokens }
        ensures later { IsLater self.entry result }
    {
        if good || self.bad.is_some() {
            return self;
        }
        Cursor {
            tokens: self.tokens,
            bad: Some(left),
            start: self.start,
            end: self.end,
        }
    }

    /// Whether a `+` is next.
    #[inline(always)]
    pub fn next_is_plus(self) -> bool
        ensures { result ≡ next_passes is_plus (rest_of self.entry) }
    {
        match self.peek() {
            Some(token) => words::is_plus(token.bytes),
            None => false,
        }
    }

    /// Whether a `+` or a `;` is next.
    #[inline(always)]
    pub fn next_is_stop(self) -> bool
        ensures { result ≡ next_passes is_stop (rest_of self.entry) }
    {
        match self.peek() {
            Some(token) => words::is_stop(token.bytes),
            None => false,
        }
    }

    /// Whether this very word is next.
    #[inline(always)]
    pub fn next_is(self, word: &[u8]) -> bool
        ensures { result ≡ next_passes (is_word word.now) (rest_of self.entry) }
    {
        match self.peek() {
            Some(token) => words::is_word(token.bytes, word),
            None => false,
        }
    }

    /// The tokens before the next one that ends a part of a kind, and the cursor at that one.
    pub fn up_to<E: PartEnd>(self) -> (TokenRun<'t>, Cursor<'t>)
        ensures gives { run_of result ≡ split_rest E.test (rest_of self.entry) }
        ensures later { IsLater self.entry result.1 }
        ensures at { RunAt (pieces_of self.entry.tokens) result.0 }
        ensures left { pieces_of result.1.tokens ≡ behind (words_of result.0) (pieces_of self.entry.tokens) }
        ensures lent { result.0.text.now ≡ self.entry.tokens.text.now }
    {
        let mut left = self;
        let mut count = 0;
        while let Some((token, later)) = left.next() {
            if E::is_at(token.bytes) {
                return (self.tokens.front(count), left);
            }
            count += 1;
            left = later;
        }
        (self.tokens, left)
    }

    /// The tokens before the next `+` or `;`, and the cursor at that one.
    pub fn rest(self) -> (TokenRun<'t>, Cursor<'t>)
        ensures gives { run_of result ≡ split_rest is_stop (rest_of self.entry) }
        ensures later { IsLater self.entry result.1 }
        ensures at { RunAt (pieces_of self.entry.tokens) result.0 }
        ensures left { pieces_of result.1.tokens ≡ behind (words_of result.0) (pieces_of self.entry.tokens) }
        ensures lent { result.0.text.now ≡ self.entry.tokens.text.now }
    {
        self.up_to::<ClauseEnd>()
    }

    /// The tokens before the next `;`, and the cursor at that one.
    pub fn up_to_semicolon(self) -> (TokenRun<'t>, Cursor<'t>)
        ensures gives { run_of result ≡ split_rest is_semicolon (rest_of self.entry) }
        ensures later { IsLater self.entry result.1 }
        ensures at { RunAt (pieces_of self.entry.tokens) result.0 }
        ensures left { pieces_of result.1.tokens ≡ behind (words_of result.0) (pieces_of self.entry.tokens) }
        ensures lent { result.0.text.now ≡ self.entry.tokens.text.now }
    {
        self.up_to::<StatementEnd>()
    }

    /// All tokens that are left, and the cursor after them.
    pub fn tail(self) -> (TokenRun<'t>, Cursor<'t>)
        ensures gives { run_of result ≡ split_rest (λ w. false) (rest_of self.entry) }
        ensures later { IsLater self.entry result.1 }
        ensures at { RunAt (pieces_of self.entry.tokens) result.0 }
        ensures left { pieces_of result.1.tokens ≡ behind (words_of result.0) (pieces_of self.entry.tokens) }
        ensures lent { result.0.text.now ≡ self.entry.tokens.text.now }
    {
        let none = TokenRun {
            text: self.tokens.text,
            pos: self.tokens.pos,
            count: 0,
        };
        (self.tokens, Cursor::at(none, self.bad))
    }
}
