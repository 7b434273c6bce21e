//! Edits of the text of a design that were made.

ghost use Rattle.std.specs.Prelude.{◌≡◌, length};
ghost use Rattle.std.specs.List.{slice_get};
ghost use Rattle.std.specs.Option.{option_map};
ghost use Rattle.design_text.specs.DesignTexts.{text_of};
ghost use Rattle.design_text.specs.Exchanges.{exchange_view, exchanged_by, exchanges_by, records_in};

use crate::step::Step;
use crate::text::DesignText;
use design_model::identifier::StmtId;
use std::alloc::{Allocator, Global};
use std::marker::Model;

/// The numbers of the statements that went out of a text, and of those that came in for them, each in their order.
#[derive(Clone, Copy)]
pub struct Exchange<'m> {
    pub went: &'m [StmtId],
    pub came: &'m [StmtId],
}

/// The changes by which an edit was made, one after the other. Each leads back.
#[derive(Drop)]
pub(crate) enum Steps<A: Allocator + Copy = Global> {
    Zero,
    One(Step<A>),
    Two(Step<A>, Step<A>),
}

impl<A: Allocator + Copy> Steps<A> {
    /// How many there are.
    fn len(&self) -> usize
        ensures { result ≡ length (exchanges_by self.now) }
    {
        match self {
            Steps::Zero => 0,
            Steps::One(_) => 1,
            Steps::Two(_, _) => 2,
        }
    }

    /// The one at a place, in the order in which they were made.
    fn at(&self, place: usize) -> Option<&Step<A>>
        ensures { option_map (λ s. exchanged_by s.now) result ≡ slice_get (exchanges_by self.now) place }
    {
        match self {
            Steps::Zero => None,
            Steps::One(step) => (place == 0).then_some(step),
            Steps::Two(first, second) => match place {
                0 => Some(first),
                1 => Some(second),
                _ => None,
            },
        }
    }
}

/// An edit that was made. The statements that went out are kept until it is let go of (`DesignText::let_go`).
pub struct Made<A: Allocator + Copy = Global> {
    pub(crate) reads: u64,
    pub(crate) steps: Steps<A>,
}

// (written out, so that who owns an edit is proved over one call)
impl<A: Allocator + Copy> Drop for Made<A> {
    fn drop(self) {
        let Made { reads: _, steps: _ } = self;
    }
}

impl<A: Allocator + Copy> Model for Made<A> {
    ghost use Rattle.design_text.specs.Exchanges.{MadeEdit, exchanges_by};

    ghost Value = { MadeEdit };

    ghost view = { λ m. record { reads = m.reads; exchanges = exchanges_by m.steps } };
}

impl<A: Allocator + Copy> Made<A> {
    /// The changes by which it was made.
    fn into_steps(self) -> Steps<A> {
        let Made { reads: _, steps } = self;
        steps
    }

    /// How many statements were read for the new text.
    pub fn reads(&self) -> u64
        ensures { result ≡ self.now.reads }
    {
        self.reads
    }

    /// In how many exchanges of statements the edit was made.
    pub fn len(&self) -> usize
        ensures { result ≡ length self.now.exchanges }
    {
        self.steps.len()
    }

    /// Which statements were exchanged by the exchange at a place, in the order in which they were made.
    pub fn exchange(&self, place: usize) -> Option<Exchange<'_>>
        ensures { option_map exchange_view result ≡ slice_get self.now.exchanges place }
    {
        let Some(step) = self.steps.at(place) else {
            return None;
        };
        Some(Exchange {
            went: step.went(),
            came: step.came(),
        })
    }
}

impl<A: Allocator + Copy> DesignText<A> {
    /// Lets go of an edit that was made, and of the statements that went out by it.
    pub fn let_go(&mut self, made: Made<A>)
        ensures text { text_of self.new ≡ text_of self.old }
        ensures records { records_in self.new ≡ records_in self.old }
    {
        match made.into_steps() {
            Steps::Zero => {}
            Steps::One(step) => self.let_go_of(step),
            Steps::Two(first, second) => {
                self.let_go_of(second);
                self.let_go_of(first);
            }
        }
    }
}
