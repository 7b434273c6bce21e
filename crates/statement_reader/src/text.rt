//! The statements of a text, one after the other.

ghost use Rattle.std.specs.Prelude.{◌≤◌, length};

use crate::grammar::{Read, Statement};
use crate::read_statement::read_statement;
use std::marker::PhantomData;

/// Gives the statements of a text in order, up to its end or the first statement with a fault.
#[derive(Drop)]
pub struct Statements<'t, S, P: Drop> {
    pub text: &'t [u8],
    pub place: P,
    pub pos: usize,
    of: PhantomData<S>,
    ghost within: { pos ≤ length text.now },
}

impl<'t, S: Statement<'t, Place = P>, P: Copy + Drop> Statements<'t, S, P> {
    ghost use Rattle.std.specs.Prelude.{◌≡◌, ◌<◌, IfSome, MatchOption, Ok, Some};
    ghost use Rattle.lefdef_tokens.specs.Views.{pieces_of, span_of};
    ghost use Rattle.statement_reader.specs.StatementViews.{GivesNext, ReadsStatement};

    /// Before the first statement of a text, which stands in a place.
    pub fn new(place: P, text: &'t [u8]) -> Statements<'t, S, P>
        ensures text { result.text.now ≡ text.now }
        ensures place { result.place ≡ place }
        ensures pos { result.pos ≡ 0 }
    {
        Statements {
            text,
            place,
            pos: 0,
            of: PhantomData,
        }
    }

    /// The next statement, or `None` at the end of the text or at a fault, and from then on.
    pub fn next(&mut self) -> Option<Read<'t, S, P>>
        ensures same { self.new.text.now ≡ self.old.text.now }
        ensures further { MatchOption result ((self.new.place ≡ self.old.place) × (self.new.pos ≡ self.old.pos)) (λ x. self.old.pos < self.new.pos) }
        ensures gives { GivesNext S.grammar S.place_view S.view self.old.place self.old.text.now self.old.pos result self.new.place self.new.pos }
        ensures reads { IfSome result (λ x. ReadsStatement S.grammar S.place_view S.view self.old.place self.old.text.now self.old.pos (Ok (Some x))) }
        ensures place { IfSome result (λ x. x.place ≡ self.new.place) }
        ensures pos { IfSome result (λ x. x.end ≡ self.new.pos) }
        ensures lent { IfSome result (λ x. S.lent (pieces_of x.tokens) x.statement) }
        ensures tokens { IfSome result (λ x. x.tokens.text.now ≡ self.old.text.now) }
        ensures span { IfSome result (λ x. span_of (pieces_of x.tokens) ≡ record { lo = x.start; hi = x.end }) }
    {
        let Ok(found) = read_statement::<S>(self.place, self.text, self.pos) else {
            return None;
        };
        let read = found?;
        self.place = read.place;
        self.pos = read.end;
        Some(read)
    }
}
