//! What the statements of a kind of text are to the one who reads them.

ghost use Rattle.std.specs.Prelude.{◌≡◌, ℕ, Bool, List, Option, Some, IfSome};
ghost use Rattle.form_meanings.specs.Words.{Gives};
ghost use Rattle.statement_model.specs.Form.{whole};
ghost use Rattle.statement_model.specs.Grammar.{Grammar};
ghost use Rattle.statement_model.specs.Tokens.{Token};
ghost use Rattle.lefdef_tokens.specs.Views.{pieces_of, words_of};
ghost use Rattle.statement_reader.specs.Endings.{ending_view};

use crate::boundary::Ending;
use lefdef_tokens::{Span, TokenRun};

/// The statements of a kind of text, such as DEF: by `grammar`, which says what they mean. A statement lends from its
/// tokens what `lent` says.
pub trait Statement<'t>: Sized + Copy + Drop {
    /// Where a statement stands, such as a section or a block.
    type Place: Copy + Drop;

    ghost Where: { Type 0 };

    ghost Says: { Type 0 };

    ghost grammar: { Grammar Where Says };

    ghost place_view: { Self.Place → Where };

    ghost view: { Self → Says };

    ghost lent: { List Token → Self → Type 0 };

    /// How a statement ends, by its first token.
    fn ending(place: Self::Place, first: &[u8]) -> Ending
        ensures { ending_view result ≡ grammar.ending (place_view place) first.now };

    /// The statement that these tokens are, and how many of them were left at the first invalid number.
    fn read(place: Self::Place, tokens: TokenRun<'t>) -> Option<(Self, Option<usize>)>
        ensures gives { Gives (λ x. (view x.0, x.1)) result (whole (grammar.form (place_view place)) (words_of tokens.entry)) }
        ensures lent { IfSome result (λ x. lent (pieces_of tokens.entry) x.0) };

    /// Where the statement after it stands.
    fn after(place: Self::Place, statement: &Self) -> Self::Place
        ensures { place_view result ≡ grammar.after (place_view place) (view statement.now) };

    /// Whether the text may end there.
    fn may_end(place: Self::Place) -> bool
        ensures { result ≡ grammar.may_end (place_view place) };
}

/// A statement that was read, with its tokens, where the next one stands, the position of its first byte, and the one after
/// its last.
#[derive(Clone, Copy)]
pub struct Read<'t, S, P> {
    pub statement: S,
    pub tokens: TokenRun<'t>,
    pub place: P,
    pub start: usize,
    pub end: usize,
}

impl<'t, S, P> Read<'t, S, P> {
    /// From its first byte to the one after its last.
    pub fn span(&self) -> Span
        ensures { result ≡ record { lo = self.now.start; hi = self.now.end } }
    {
        Span {
            lo: self.start,
            hi: self.end,
        }
    }
}
