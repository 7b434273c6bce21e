//! Parts of a statement that are repeated, read one at a time from its text.

ghost use Rattle.std.specs.Prelude.{◌≡◌, ◌<◌, ℕ, Bool, List, ◌++◌, length, take, true, Option, Some, IfSome, MatchOption};
ghost use Rattle.form_meanings.specs.Words.{Rest, Gives, next_passes};
ghost use Rattle.form_meanings.specs.Meaning.{read_many, items, repeat, spell_all};
ghost use Rattle.statement_model.specs.Tokens.{Token};
ghost use Rattle.lefdef_tokens.specs.Places.{RunAt, behind};
ghost use Rattle.lefdef_tokens.specs.Unseens.{Finds};
ghost use Rattle.lefdef_tokens.specs.Views.{pieces_of, rest_of, words_of, IsLater};
ghost use Rattle.statement_reader.specs.PartViews.{Going, GoingPast, IsFirst, IsStep, PartsAt, left_after, tokens_after};

use lefdef_tokens::{Cursor, TokenRun};
use std::marker::PhantomData;

/// A part that can be repeated: `reads` says what it means, `test` by which words it begins, and `spells` how it is written.
/// It lends from its tokens what `lent` says.
pub trait Part<'t>: Sized + Copy + Drop {
    ghost Value: { Type 0 };

    ghost view: { Self → Value };

    ghost lent: { List Token → Self → Type 0 };

    ghost test: { List ℕ → Bool };

    ghost reads: { Rest → Option (Value × Rest) };

    ghost spells: { Value → List (List ℕ) };

    /// Whether a word begins one.
    fn begins(word: &[u8]) -> bool
        ensures { result ≡ test word.now };

    /// The part that is next, and what comes after it.
    fn read(cursor: Cursor<'t>) -> Option<(Self, Cursor<'t>)>
        ensures gives { Gives (λ x. (view x.0, rest_of x.1)) result (reads (rest_of cursor.entry)) }
        ensures later { IfSome result (λ x. IsLater cursor.entry x.1) }
        ensures left { IfSome result (λ x. pieces_of x.1.tokens ≡ behind (spells (view x.0)) (pieces_of cursor.entry.tokens)) }
        ensures lent { IfSome result (λ x. lent (pieces_of cursor.entry.tokens) x.0) };

    ghost spelled: { (r : Rest) (p : Value × Rest) → reads r ≡ Some p → r.words ≡ spells p.0 ++ p.1.words };
}

/// A part that has a most usual form, in which it is passed faster than it is read.
pub trait UsualPart<'t>: Part<'t> {
    /// What comes after the part that is next, where it has that form; `None` says nothing.
    fn skip(cursor: Cursor<'t>) -> Option<Cursor<'t>>
        ensures begins { IfSome result (λ x. next_passes Self.test (rest_of cursor.entry) ≡ true) }
        ensures gives { Finds rest_of result (left_after (Self.reads (rest_of cursor.entry))) }
        ensures later { IfSome result (λ x. IsLater cursor.entry x) }
        ensures left { Finds (λ x. pieces_of x.tokens) result (tokens_after Self.spells (pieces_of cursor.entry.tokens) (Self.reads (rest_of cursor.entry))) };
}

/// Parts that are left, at most `most` of them. They are read when they are asked for, and take no memory.
#[derive(Clone, Copy)]
pub struct Parts<'t, P> {
    pub cursor: Cursor<'t>,
    pub most: usize,
    of: PhantomData<P>,
}

/// Whether a part is next.
#[inline(always)]
fn next_begins<'t, P: Part<'t>>(cursor: Cursor<'t>) -> bool
    ensures { result ≡ next_passes P.test (rest_of cursor.entry) }
{
    match cursor.peek() {
        Some(token) => P::begins(token.bytes),
        None => false,
    }
}

/// What comes after the next parts of the most usual form, and how many more parts there can be, of at most `most`.
#[inline(never)]
fn skip_usual<'t, P: UsualPart<'t>>(cursor: Cursor<'t>, most: usize) -> (Cursor<'t>, usize)
    ensures going { Going P.test P.reads most (rest_of cursor.entry) result.1 (rest_of result.0) }
    ensures left { GoingPast P.spells P.test P.reads most (rest_of cursor.entry) (pieces_of cursor.entry.tokens) result.1 (rest_of result.0) (pieces_of result.0.tokens) }
    ensures later { IsLater cursor.entry result.0 }
{
    let mut left = cursor;
    for passed in 0..most {
        let Some(later) = P::skip(left) else {
            return (left, most - passed);
        };
        left = later;
    }
    (left, 0)
}

/// What comes after the next parts, which are at most `most`; or `None` where one of them has no form.
#[inline(always)]
fn pass_parts<'t, P: Part<'t>>(cursor: Cursor<'t>, most: usize) -> Option<Cursor<'t>>
    ensures gives { Gives rest_of result (left_after (repeat most P.test P.reads (rest_of cursor.entry))) }
    ensures left { Finds (λ x. pieces_of x.tokens) result (tokens_after (spell_all P.spells) (pieces_of cursor.entry.tokens) (repeat most P.test P.reads (rest_of cursor.entry))) }
    ensures later { IfSome result (λ x. IsLater cursor.entry x) }
{
    let mut left = cursor;
    for _ in 0..most {
        if !next_begins::<P>(left) {
            return Some(left);
        }
        let (_, later) = P::read(left)?;
        left = later;
    }
    let goes_on = next_begins::<P>(left);
    if goes_on { None } else { Some(left) }
}

/// The same, where a part has not its most usual form.
#[cold]
#[inline(never)]
fn pass_unusual<'t, P: UsualPart<'t>>(cursor: Cursor<'t>, most: usize) -> Option<Cursor<'t>>
    ensures gives { Gives rest_of result (left_after (repeat most P.test P.reads (rest_of cursor.entry))) }
    ensures left { Finds (λ x. pieces_of x.tokens) result (tokens_after (spell_all P.spells) (pieces_of cursor.entry.tokens) (repeat most P.test P.reads (rest_of cursor.entry))) }
    ensures later { IfSome result (λ x. IsLater cursor.entry x) }
{
    pass_parts::<P>(cursor, most)
}

/// The parts that come next, and what comes after them; or `None` where one of them has no form.
#[inline(always)]
pub fn read_parts<'t, P: Part<'t>>(cursor: Cursor<'t>) -> Option<(Parts<'t, P>, Cursor<'t>)>
    ensures gives { Gives (λ x. (items x.0.most P.test P.reads (rest_of x.0.cursor), rest_of x.1)) result (read_many P.test P.reads (rest_of cursor.entry)) }
    ensures later { IfSome result (λ x. IsLater cursor.entry x.1) }
    ensures left { IfSome result (λ x. pieces_of x.1.tokens ≡ behind (spell_all P.spells (items x.0.most P.test P.reads (rest_of x.0.cursor))) (pieces_of cursor.entry.tokens)) }
    ensures lent { IfSome result (λ x. PartsAt (pieces_of cursor.entry.tokens) x.0) }
{
    let most = cursor.len();
    let all = Parts {
        cursor,
        most,
        of: PhantomData,
    };
    let later = pass_parts::<P>(cursor, most)?;
    Some((all, later))
}

/// The same, where most parts have their most usual form.
#[inline(always)]
pub fn read_usual_parts<'t, P: UsualPart<'t>>(
    cursor: Cursor<'t>,
) -> Option<(Parts<'t, P>, Cursor<'t>)>
    ensures gives { Gives (λ x. (items x.0.most P.test P.reads (rest_of x.0.cursor), rest_of x.1)) result (read_many P.test P.reads (rest_of cursor.entry)) }
    ensures later { IfSome result (λ x. IsLater cursor.entry x.1) }
    ensures left { IfSome result (λ x. pieces_of x.1.tokens ≡ behind (spell_all P.spells (items x.0.most P.test P.reads (rest_of x.0.cursor))) (pieces_of cursor.entry.tokens)) }
    ensures lent { IfSome result (λ x. PartsAt (pieces_of cursor.entry.tokens) x.0) }
{
    let most = cursor.len();
    let all = Parts {
        cursor,
        most,
        of: PhantomData,
    };
    let (left, fewer) = skip_usual::<P>(cursor, most);
    if next_begins::<P>(left) {
        let later = pass_unusual::<P>(left, fewer)?;
        Some((all, later))
    } else {
        Some((all, left))
    }
}

/// What comes after the next parts, where each has its most usual form; `None` says nothing.
#[inline(always)]
pub fn skip_parts<'t, P: UsualPart<'t>>(cursor: Cursor<'t>) -> Option<Cursor<'t>>
    ensures gives { Finds (λ x. (items (length (rest_of cursor.entry).words) P.test P.reads (rest_of cursor.entry), rest_of x)) result (read_many P.test P.reads (rest_of cursor.entry)) }
    ensures left { Finds (λ x. pieces_of x.tokens) result (tokens_after (spell_all P.spells) (pieces_of cursor.entry.tokens) (read_many P.test P.reads (rest_of cursor.entry))) }
    ensures later { IfSome result (λ x. IsLater cursor.entry x) }
{
    let (later, _) = skip_usual::<P>(cursor, cursor.len());
    if next_begins::<P>(later) {
        None
    } else {
        Some(later)
    }
}

impl<'t, P: Part<'t>> Parts<'t, P> {
    /// These parts, to be read from the first of them on.
    #[inline(always)]
    pub fn again(&self) -> Parts<'t, P>
        ensures { result ≡ self.now }
    {
        *self
    }

    /// The next part; at the end `None`, and nothing changes.
    pub fn next(&mut self) -> Option<P>
        ensures step { IsStep P.view P.test P.reads self.old.most (rest_of self.old.cursor) result self.new.most (rest_of self.new.cursor) }
        ensures reads { IfSome result (λ x. P.reads (rest_of self.old.cursor) ≡ Some (P.view x, rest_of self.new.cursor)) }
        ensures fewer { MatchOption result ((self.new.most ≡ self.old.most) × (self.new.cursor ≡ self.old.cursor)) (λ x. self.new.most < self.old.most) }
        ensures later { IsLater self.old.cursor self.new.cursor }
        ensures left { IfSome result (λ x. pieces_of self.new.cursor.tokens ≡ behind (P.spells (P.view x)) (pieces_of self.old.cursor.tokens)) }
        ensures lent { IfSome result (λ x. P.lent (pieces_of self.old.cursor.tokens) x) }
    {
        if self.most == 0 || !next_begins::<P>(self.cursor) {
            return None;
        }
        let (part, later) = P::read(self.cursor)?;
        self.cursor = later;
        self.most -= 1;
        Some(part)
    }

    /// The next part, and its tokens; at the end `None`, and nothing changes.
    pub fn next_with_tokens(&mut self) -> Option<(P, TokenRun<'t>)>
        ensures step { IsStep (λ x. P.view x.0) P.test P.reads self.old.most (rest_of self.old.cursor) result self.new.most (rest_of self.new.cursor) }
        ensures fewer { MatchOption result ((self.new.most ≡ self.old.most) × (self.new.cursor ≡ self.old.cursor)) (λ x. self.new.most < self.old.most) }
        ensures tokens { IfSome result (λ x. words_of x.1 ≡ P.spells (P.view x.0)) }
        ensures first { IfSome result (λ x. RunAt (pieces_of self.old.cursor.tokens) x.1) }
        ensures left { IfSome result (λ x. pieces_of self.new.cursor.tokens ≡ behind (words_of x.1) (pieces_of self.old.cursor.tokens)) }
        ensures text { IfSome result (λ x. x.1.text.now ≡ self.old.cursor.tokens.text.now) }
        ensures lent { IfSome result (λ x. P.lent (pieces_of self.old.cursor.tokens) x.0) }
        ensures later { IsLater self.old.cursor self.new.cursor }
    {
        let before = self.cursor;
        let part = self.next()?;
        let count = before.len() - self.cursor.len();
        Some((part, before.tokens.front(count)))
    }

    /// The next part, which stays the next.
    pub fn peek(self) -> Option<P>
        ensures first { IsFirst P.view P.test P.reads self.entry.most (rest_of self.entry.cursor) result }
        ensures lent { IfSome result (λ x. P.lent (pieces_of self.entry.cursor.tokens) x) }
    {
        let mut parts = self;
        parts.next()
    }
}
