//! Parts that statements of several blocks have.

ghost use Rattle.std.specs.Prelude.{◌≡◌, codes, None, IfSome, IsSomeAnd, MatchOption};
ghost use Rattle.form_meanings.specs.Words.{Gives};
ghost use Rattle.statement_model.specs.Form.{◌◂◌, ◌⨟◌, read};
ghost use Rattle.lef_grammar.specs.Extents.{bare_block_ending, block_ending, is_array_count, is_distance, is_extent, is_kept_word, kept_statement, size_statement, to_end};
ghost use Rattle.lefdef_tokens.specs.Places.{RunAt, StandsAt, past};
ghost use Rattle.lefdef_tokens.specs.Views.{pieces_of, rest_of, run_of, word_of};
ghost use Rattle.statement_reader.specs.Endings.{ending_view};
ghost use Rattle.lef_reader.specs.Parts.{PairAt, SizeAt, WordsAt, is_good, may_be, of_kind, pair_view, with_rest, words_view};

use lefdef_tokens::{Cursor, Token, TokenRun, is_name, is_place, is_quoted, is_semicolon, is_word};
use statement_reader::boundary::Ending;
use unit_numbers::{microns, whole};

/// What a word of a statement is.
#[derive(Clone, Copy)]
pub(crate) enum WordKind {
    Name,
    /// Any word but `;`.
    Kept,
    /// In microns.
    Distance,
    /// A distance that isn't below 0.
    Extent,
    /// A number of rows or columns.
    ArrayCount,
}

/// How a statement in a block ends whose `END` has a name, by its first token.
pub(crate) fn block_ending(first: &[u8]) -> Ending
    ensures { ending_view result ≡ block_ending first.now }
{
    if is_word(first, b"END") {
        Ending::WithNext
    } else if is_semicolon(first) {
        Ending::Alone
    } else {
        Ending::UpTo(b";")
    }
}

/// How a statement in a block ends whose `END` stands alone, by its first token.
pub(crate) fn bare_block_ending(first: &[u8]) -> Ending
    ensures { ending_view result ≡ bare_block_ending first.now }
{
    if is_word(first, b"END") || is_semicolon(first) {
        Ending::Alone
    } else {
        Ending::UpTo(b";")
    }
}

/// Whether a word is any but `;`.
fn is_kept_word(word: &[u8]) -> bool
    ensures { result ≡ is_kept_word word.now }
{
    !(is_quoted(word) || is_semicolon(word))
}

/// Whether a word is a distance.
#[tactic(auto, unfolding(lef_grammar::specs::Extents::is_distance))]
fn is_distance(word: &[u8]) -> bool
    ensures { result ≡ is_distance word.now }
{
    microns(word).is_ok()
}

/// Whether a word is a distance that isn't below 0.
#[tactic(auto, unfolding(lef_grammar::specs::Extents::is_extent))]
fn is_extent(word: &[u8]) -> bool
    ensures { result ≡ is_extent word.now }
{
    match microns(word) {
        Ok(distance) => 0 <= distance.value,
        Err(_) => false,
    }
}

/// Whether a word is a number of rows or columns.
#[tactic(auto, unfolding(lef_grammar::specs::Extents::is_array_count))]
fn is_array_count(word: &[u8]) -> bool
    ensures { result ≡ is_array_count word.now }
{
    match whole(word) {
        Ok(number) => 1 <= number && number <= 1000000,
        Err(_) => false,
    }
}

impl WordKind {
    /// Whether a word may stand for one.
    #[inline(always)]
    fn may_be(self, word: &[u8]) -> bool
        ensures { result ≡ may_be self word.now }
    {
        match self {
            WordKind::Name => is_name(word),
            WordKind::Kept => is_kept_word(word),
            _ => is_place(word),
        }
    }

    /// Whether a word that may stand for one is valid.
    #[inline(always)]
    fn is_good(self, word: &[u8]) -> bool
        ensures { result ≡ is_good self word.now }
    {
        match self {
            WordKind::Distance => is_distance(word),
            WordKind::Extent => is_extent(word),
            WordKind::ArrayCount => is_array_count(word),
            _ => true,
        }
    }
}

/// A word of a kind. A word in the place of a number that is none is noted.
#[tactic(auto, using(crate::proofs::WordLemmas::reads_word))]
#[inline(always)]
pub(crate) fn word_at<'l>(kind: WordKind, cursor: Cursor<'l>) -> Option<(Token<'l>, Cursor<'l>)>
    ensures gives { Gives word_of result (read (of_kind kind) (rest_of cursor.entry)) }
    ensures left { IfSome result (λ x. pieces_of x.1.tokens ≡ past 1 (pieces_of cursor.entry.tokens)) }
    ensures lent { IfSome result (λ x. StandsAt (pieces_of cursor.entry.tokens) x.0) }
{
    let (token, later) = cursor.next()?;
    if kind.may_be(token.bytes) {
        let good = kind.is_good(token.bytes);
        Some((token, later.noted(good, cursor.len())))
    } else {
        None
    }
}

/// A word of a kind and `;`
#[inline(always)]
pub(crate) fn only_at<'l>(kind: WordKind, cursor: Cursor<'l>) -> Option<(Token<'l>, Cursor<'l>)>
    ensures gives { Gives word_of result (read (of_kind kind ◂ codes ";") (rest_of cursor.entry)) }
    ensures lent { IfSome result (λ x. StandsAt (pieces_of cursor.entry.tokens) x.0) }
{
    let (word, cursor) = word_at(kind, cursor)?;
    Some((word, cursor.key(b";")?))
}

/// Two words of a kind and `;`
#[inline(always)]
pub(crate) fn two_at<'l>(
    kind: WordKind,
    cursor: Cursor<'l>,
) -> Option<((Token<'l>, Token<'l>), Cursor<'l>)>
    ensures gives { Gives (with_rest pair_view) result (read (of_kind kind ⨟ of_kind kind ◂ codes ";") (rest_of cursor.entry)) }
    ensures lent { IfSome result (λ x. PairAt (pieces_of cursor.entry.tokens) x.0) }
{
    let (first, cursor) = word_at(kind, cursor)?;
    let (second, cursor) = only_at(kind, cursor)?;
    Some(((first, second), cursor))
}

/// `word any* ;`, with its `;` among the others
#[tactic(auto, unfolding(lef_grammar::specs::Extents::kept_statement))]
pub(crate) fn kept_at<'l>(cursor: Cursor<'l>) -> Option<((Token<'l>, TokenRun<'l>), Cursor<'l>)>
    ensures gives { Gives (with_rest words_view) result (read kept_statement (rest_of cursor.entry)) }
    ensures lent { IfSome result (λ x. WordsAt (pieces_of cursor.entry.tokens) x.0) }
{
    let (word, later) = cursor.next()?;
    if !is_kept_word(word.bytes) {
        return None;
    }
    let (others, cursor) = later.tail();
    Some(((word, others), cursor))
}

/// `any* ;`
#[tactic(auto, unfolding(lef_grammar::specs::Extents::to_end))]
pub(crate) fn to_end_at<'l>(cursor: Cursor<'l>) -> Option<(TokenRun<'l>, Cursor<'l>)>
    ensures gives { Gives run_of result (read to_end (rest_of cursor.entry)) }
    ensures lent { IfSome result (λ x. RunAt (pieces_of cursor.entry.tokens) x.0) }
{
    let (others, cursor) = cursor.up_to_semicolon();
    let cursor = cursor.key(b";")?;
    Some((others, cursor))
}

/// A word of a kind and `any* ;`
#[inline(always)]
pub(crate) fn word_to_end_at<'l>(
    kind: WordKind,
    cursor: Cursor<'l>,
) -> Option<((Token<'l>, TokenRun<'l>), Cursor<'l>)>
    ensures gives { Gives (with_rest words_view) result (read (of_kind kind ⨟ to_end) (rest_of cursor.entry)) }
    ensures lent { IfSome result (λ x. WordsAt (pieces_of cursor.entry.tokens) x.0) }
{
    let (word, cursor) = word_at(kind, cursor)?;
    let (others, cursor) = to_end_at(cursor)?;
    Some(((word, others), cursor))
}

/// `dec BY dec ;`, after `SIZE`
#[tactic(auto, unfolding(lef_grammar::specs::Extents::size_statement))]
pub(crate) fn size_at<'l>(cursor: Cursor<'l>) -> Option<((Token<'l>, Token<'l>), Cursor<'l>)>
    ensures gives { Gives (with_rest pair_view) result (read size_statement (rest_of cursor.entry)) }
    ensures lent { IfSome result (λ x. SizeAt (pieces_of cursor.entry.tokens) x.0) }
{
    let (width, cursor) = word_at(WordKind::Extent, cursor)?;
    let (height, cursor) = only_at(WordKind::Extent, cursor.key(b"BY")?)?;
    Some(((width, height), cursor))
}

/// A part that was found, told as another one.
#[inline(always)]
pub(crate) fn told<S, T, B, F: FnOnce(S) -> T>(found: Option<(S, B)>, tell: F) -> Option<(T, B)>
    requires { F.IsAlwaysCallable tell }
    ensures { MatchOption found (result ≡ None) (λ x. IsSomeAnd result (λ r. F.post tell x.0 r.0 × (r.1 ≡ x.1))) }
{
    match found {
        Some((said, left)) => Some((tell(said), left)),
        None => None,
    }
}

/// Two parts that were found, told as one.
#[inline(always)]
pub(crate) fn told_pair<R, S, T, B, F: FnOnce(R, S) -> T>(
    found: Option<((R, S), B)>,
    tell: F,
) -> Option<(T, B)>
    requires { F.IsAlwaysCallable tell }
    ensures { MatchOption found (result ≡ None) (λ x. IsSomeAnd result (λ r. F.post tell x.0.0 x.0.1 r.0 × (r.1 ≡ x.1))) }
{
    match found {
        Some(((first, second), left)) => Some((tell(first, second), left)),
        None => None,
    }
}
