//! Places for whole numbers in a statement.

ghost use Rattle.std.specs.Prelude.{◌≡◌, true, IfSome};
ghost use Rattle.form_meanings.specs.Words.{Gives, is_place, next_passes, number_at};
ghost use Rattle.statement_model.specs.Form.{number, read};
ghost use Rattle.def_grammar.specs.Limits.{is_array, is_copies, is_cuts, is_in_range, is_lines, is_size};
ghost use Rattle.def_grammar.specs.Numbers.{int_of, is_int, is_scale, is_count};
ghost use Rattle.def_grammar.specs.Parts.{int};
ghost use Rattle.def_grammar.specs.Points.{coordinate, is_coordinate};
ghost use Rattle.lefdef_tokens.specs.Unseens.{Finds, IsFurther, unseen_rest, unseen_word};
ghost use Rattle.lefdef_tokens.specs.Places.{StandsAt, past};
ghost use Rattle.lefdef_tokens.specs.Views.{IsLater, pieces_of, rest_of, word_of};
ghost use Rattle.def_parts.specs.Numbers.{is_of_kind};

use lefdef_tokens::{Cursor, Token, Unseen, is_word};
use unit_numbers::{few_digits_are_whole, is_whole, whole};

/// What a whole number stands for, which bounds it.
#[derive(Clone, Copy)]
enum NumberKind {
    /// Any whole number.
    Int,
    /// A number of database units per micron.
    Scale,
    /// A number of entries, or a size: 0 or more.
    Count,
    /// A number of vias in a line of an array.
    Copies,
    /// A number of cuts in a line of a generated via.
    Cuts,
    /// A number of lines of a grid.
    Lines,
    /// A whole number, or `*` for the coordinate of the point before.
    Coordinate,
}

/// Whether a word is a whole number.
#[tactic(auto, unfolding(def_grammar::specs::Numbers::is_int))]
#[inline(always)]
fn is_int(word: &[u8]) -> bool
    ensures { result ≡ is_int word.now }
{
    is_whole(word)
}

/// Whether a word is a number of database units per micron.
#[tactic(auto, unfolding(def_grammar::specs::Numbers::is_scale))]
fn is_scale(word: &[u8]) -> bool
    ensures { result ≡ is_scale word.now }
{
    match whole(word) {
        Ok(number) => 1 <= number && number <= 100000,
        Err(_) => false,
    }
}

/// Whether a word is 0 or more.
#[tactic(auto, unfolding(def_grammar::specs::Numbers::is_count))]
fn is_count(word: &[u8]) -> bool
    ensures { result ≡ is_count word.now }
{
    match whole(word) {
        Ok(number) => 0 <= number,
        Err(_) => false,
    }
}

/// Whether a word is 1 or more.
#[tactic(auto, unfolding(def_grammar::specs::Limits::is_copies))]
fn is_copies(word: &[u8]) -> bool
    ensures { result ≡ is_copies word.now }
{
    match whole(word) {
        Ok(number) => 1 <= number,
        Err(_) => false,
    }
}

/// Whether a word is a number of cuts.
#[tactic(auto, unfolding(def_grammar::specs::Limits::is_cuts))]
fn is_cuts(word: &[u8]) -> bool
    ensures { result ≡ is_cuts word.now }
{
    match whole(word) {
        Ok(number) => number <= 1000000 && 1 <= number,
        Err(_) => false,
    }
}

/// Whether a word is a number of lines.
#[tactic(auto, unfolding(def_grammar::specs::Limits::is_lines))]
fn is_lines(word: &[u8]) -> bool
    ensures { result ≡ is_lines word.now }
{
    match whole(word) {
        Ok(number) => number <= 100000 && 1 <= number,
        Err(_) => false,
    }
}

/// Whether a word is a coordinate or `*`.
#[tactic(auto, unfolding(def_grammar::specs::Points::is_coordinate))]
#[inline(always)]
fn is_coordinate(word: &[u8]) -> bool
    ensures { result ≡ is_coordinate word.now }
{
    is_word(word, b"*") || is_int(word)
}

/// The number that a word is, and 0 where it is none.
pub fn int_of(word: &[u8]) -> i32
    ensures { result ≡ int_of word.now }
{
    match whole(word) {
        Ok(number) => number,
        Err(_) => 0,
    }
}

/// Whether an array of vias has at most 1000000.
#[tactic(auto, unfolding(def_grammar::specs::Limits::is_array))]
pub fn is_array(columns: &[u8], rows: &[u8]) -> bool
    ensures { result ≡ is_array columns.now rows.now }
{
    let columns = int_of(columns).unsigned_abs() as u64;
    let rows = int_of(rows).unsigned_abs() as u64;
    columns * rows <= 1000000
}

/// Whether the last of some lines is within the range of numbers.
#[tactic(auto, unfolding(def_grammar::specs::Limits::is_in_range))]
pub fn is_in_range(start: &[u8], count: &[u8], step: &[u8]) -> bool
    ensures { result ≡ is_in_range start.now count.now step.now }
{
    let start = int_of(start) as i64;
    let count = int_of(count) as i64;
    let step = int_of(step) as i64;
    start + (count - 1) * step <= 2147483647
}

/// Whether a word is a number of a kind.
#[inline(always)]
fn is_of_kind(kind: NumberKind, word: &[u8]) -> bool
    ensures { result ≡ is_of_kind kind word.now }
{
    match kind {
        NumberKind::Int => is_int(word),
        NumberKind::Scale => is_scale(word),
        NumberKind::Count => is_count(word),
        NumberKind::Copies => is_copies(word),
        NumberKind::Cuts => is_cuts(word),
        NumberKind::Lines => is_lines(word),
        NumberKind::Coordinate => is_coordinate(word),
    }
}

/// A place for a number of a kind. A word that is no such number is noted.
#[tactic(auto, unfolding(form_meanings::specs::Words::number_at))]
#[inline(always)]
fn number_at<'t>(kind: NumberKind, cursor: Cursor<'t>) -> Option<(Token<'t>, Cursor<'t>)>
    ensures gives { Gives word_of result (number_at (is_of_kind kind) (rest_of cursor.entry)) }
    ensures later { IfSome result (λ x. IsLater cursor.entry x.1) }
    ensures left { IfSome result (λ x. pieces_of x.1.tokens ≡ past 1 (pieces_of cursor.entry.tokens)) }
    ensures lent { IfSome result (λ x. StandsAt (pieces_of cursor.entry.tokens) x.0) }
{
    let (token, later) = cursor.place()?;
    let good = is_of_kind(kind, token.bytes);
    Some((token, later.noted(good, cursor.len())))
}

/// A place for a whole number.
#[inline(always)]
pub fn int_at<'t>(cursor: Cursor<'t>) -> Option<(Token<'t>, Cursor<'t>)>
    ensures gives { Gives word_of result (read int (rest_of cursor.entry)) }
    ensures later { IfSome result (λ x. IsLater cursor.entry x.1) }
    ensures left { IfSome result (λ x. pieces_of x.1.tokens ≡ past 1 (pieces_of cursor.entry.tokens)) }
    ensures lent { IfSome result (λ x. StandsAt (pieces_of cursor.entry.tokens) x.0) }
{
    number_at(NumberKind::Int, cursor)
}

/// A place for a number of database units per micron.
pub fn scale_at<'t>(cursor: Cursor<'t>) -> Option<(Token<'t>, Cursor<'t>)>
    ensures gives { Gives word_of result (read (number is_scale) (rest_of cursor.entry)) }
    ensures later { IfSome result (λ x. IsLater cursor.entry x.1) }
    ensures left { IfSome result (λ x. pieces_of x.1.tokens ≡ past 1 (pieces_of cursor.entry.tokens)) }
    ensures lent { IfSome result (λ x. StandsAt (pieces_of cursor.entry.tokens) x.0) }
{
    number_at(NumberKind::Scale, cursor)
}

/// A place for a number of entries.
pub fn count_at<'t>(cursor: Cursor<'t>) -> Option<(Token<'t>, Cursor<'t>)>
    ensures gives { Gives word_of result (read (number is_count) (rest_of cursor.entry)) }
    ensures later { IfSome result (λ x. IsLater cursor.entry x.1) }
    ensures left { IfSome result (λ x. pieces_of x.1.tokens ≡ past 1 (pieces_of cursor.entry.tokens)) }
    ensures lent { IfSome result (λ x. StandsAt (pieces_of cursor.entry.tokens) x.0) }
{
    number_at(NumberKind::Count, cursor)
}

/// A place for a size, 0 or more.
#[inline(always)]
pub fn size_at<'t>(cursor: Cursor<'t>) -> Option<(Token<'t>, Cursor<'t>)>
    ensures gives { Gives word_of result (read (number is_size) (rest_of cursor.entry)) }
    ensures later { IfSome result (λ x. IsLater cursor.entry x.1) }
    ensures left { IfSome result (λ x. pieces_of x.1.tokens ≡ past 1 (pieces_of cursor.entry.tokens)) }
    ensures lent { IfSome result (λ x. StandsAt (pieces_of cursor.entry.tokens) x.0) }
{
    number_at(NumberKind::Count, cursor)
}

/// A place for a number of vias in a line of an array.
pub fn copies_at<'t>(cursor: Cursor<'t>) -> Option<(Token<'t>, Cursor<'t>)>
    ensures gives { Gives word_of result (read (number is_copies) (rest_of cursor.entry)) }
    ensures later { IfSome result (λ x. IsLater cursor.entry x.1) }
    ensures left { IfSome result (λ x. pieces_of x.1.tokens ≡ past 1 (pieces_of cursor.entry.tokens)) }
    ensures lent { IfSome result (λ x. StandsAt (pieces_of cursor.entry.tokens) x.0) }
{
    number_at(NumberKind::Copies, cursor)
}

/// A place for a number of cuts in a line of a generated via.
pub fn cuts_at<'t>(cursor: Cursor<'t>) -> Option<(Token<'t>, Cursor<'t>)>
    ensures gives { Gives word_of result (read (number is_cuts) (rest_of cursor.entry)) }
    ensures later { IfSome result (λ x. IsLater cursor.entry x.1) }
    ensures left { IfSome result (λ x. pieces_of x.1.tokens ≡ past 1 (pieces_of cursor.entry.tokens)) }
    ensures lent { IfSome result (λ x. StandsAt (pieces_of cursor.entry.tokens) x.0) }
{
    number_at(NumberKind::Cuts, cursor)
}

/// A place for a number of lines of a grid.
pub fn lines_at<'t>(cursor: Cursor<'t>) -> Option<(Token<'t>, Cursor<'t>)>
    ensures gives { Gives word_of result (read (number is_lines) (rest_of cursor.entry)) }
    ensures later { IfSome result (λ x. IsLater cursor.entry x.1) }
    ensures left { IfSome result (λ x. pieces_of x.1.tokens ≡ past 1 (pieces_of cursor.entry.tokens)) }
    ensures lent { IfSome result (λ x. StandsAt (pieces_of cursor.entry.tokens) x.0) }
{
    number_at(NumberKind::Lines, cursor)
}

/// A place for a coordinate of a later point of a row, or `*`.
#[inline(always)]
pub fn coordinate_at<'t>(cursor: Cursor<'t>) -> Option<(Token<'t>, Cursor<'t>)>
    ensures gives { Gives word_of result (read coordinate (rest_of cursor.entry)) }
    ensures later { IfSome result (λ x. IsLater cursor.entry x.1) }
    ensures left { IfSome result (λ x. pieces_of x.1.tokens ≡ past 1 (pieces_of cursor.entry.tokens)) }
    ensures lent { IfSome result (λ x. StandsAt (pieces_of cursor.entry.tokens) x.0) }
{
    number_at(NumberKind::Coordinate, cursor)
}

/// A place for a whole number, where it has one to nine digits and stands between blanks; `None` says nothing.
#[tactic(auto, unfolding(form_meanings::specs::Words::number_at, def_grammar::specs::Numbers::is_int))]
#[inline(always)]
pub fn few_digits_at<'t>(left: Unseen<'t>) -> Option<(Token<'t>, Unseen<'t>)>
    ensures gives { Finds unseen_word result (read int (unseen_rest left.entry)) }
    ensures further { IfSome result (λ x. IsFurther left.entry.tokens x.1.tokens) }
    ensures left { IfSome result (λ x. pieces_of x.1.tokens ≡ past 1 (pieces_of left.entry.tokens)) }
    ensures lent { IfSome result (λ x. StandsAt (pieces_of left.entry.tokens) x.0) }
{
    few_digits_are_whole();
    let (number, later) = left.digits()?;
    Some((number, later))
}

/// A place for a size, where it has one to nine digits and stands between blanks; `None` says nothing.
#[tactic(auto, unfolding(form_meanings::specs::Words::number_at, def_grammar::specs::Numbers::is_count))]
#[inline(always)]
pub fn few_digits_size_at<'t>(left: Unseen<'t>) -> Option<(Token<'t>, Unseen<'t>)>
    ensures gives { Finds unseen_word result (read (number is_size) (unseen_rest left.entry)) }
    ensures place { IfSome result (λ x. next_passes is_place (unseen_rest left.entry) ≡ true) }
    ensures further { IfSome result (λ x. IsFurther left.entry.tokens x.1.tokens) }
    ensures left { IfSome result (λ x. pieces_of x.1.tokens ≡ past 1 (pieces_of left.entry.tokens)) }
    ensures lent { IfSome result (λ x. StandsAt (pieces_of left.entry.tokens) x.0) }
{
    few_digits_are_whole();
    let (size, later) = left.digits()?;
    Some((size, later))
}

/// A place for a coordinate of a later point, where it is `*` or has one to nine digits; `None` says nothing.
#[tactic(auto, unfolding(form_meanings::specs::Words::number_at, def_grammar::specs::Points::is_coordinate, def_grammar::specs::Numbers::is_int))]
#[inline(always)]
pub fn few_digits_or_star_at<'t>(left: Unseen<'t>) -> Option<(Token<'t>, Unseen<'t>)>
    ensures gives { Finds unseen_word result (read coordinate (unseen_rest left.entry)) }
    ensures further { IfSome result (λ x. IsFurther left.entry.tokens x.1.tokens) }
    ensures left { IfSome result (λ x. pieces_of x.1.tokens ≡ past 1 (pieces_of left.entry.tokens)) }
    ensures lent { IfSome result (λ x. StandsAt (pieces_of left.entry.tokens) x.0) }
{
    few_digits_are_whole();
    match left.mark(b'*') {
        Some(found) => Some(found),
        None => left.digits(),
    }
}
