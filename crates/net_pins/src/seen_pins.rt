//! The pins of a net that were seen.

ghost use Rattle.std.specs.Prelude.{◌≡◌, ◌++◌, ◌∷◌, [], IfOk, OnOk, false, not, true, if◌then◌else◌};
ghost use Rattle.statement_model.specs.Reading.{is_among};
ghost use Rattle.std.specs.Cmp.{partial_equiv_from_equiv};
ghost use Rattle.net_pins.specs.SeenViews.{AreNew, end_of, is_same_pin, last_byte, same_pins, same_words_of, words_of};

use indexmap::IndexSet;
use std::alloc::{AllocError, Allocator, Global};
use std::hash::{Hash, Hasher, RandomState};
use std::marker::Model;

/// How many pins are gone over one by one, which are all pins of most nets.
const FEW: usize = 8;

/// The component of a pin, unless it is the design's, and its name: a key of a table, each hashed by one write.
#[derive(Clone, Copy, Drop)]
pub(crate) struct PinWords<'t> {
    pub(crate) component: Option<&'t [u8]>,
    pub(crate) pin: &'t [u8],
}

/// The last byte of a component's name, in which the names of most components of a net differ; 0 where there is none.
#[inline(always)]
fn end_of(component: Option<&[u8]>) -> u8
    ensures { result ≡ end_of component.entry }
{
    match component {
        Some(name) => last_byte(name),
        None => 0,
    }
}

/// The last byte of a name, or 0 where there is none.
#[inline(always)]
fn last_byte(name: &[u8]) -> u8
    ensures { result ≡ last_byte name.now }
{
    match name.last() {
        Some(byte) => *byte,
        None => 0,
    }
}

impl<'t> PartialEq for PinWords<'t> {
    ghost eq = { is_same_pin };

    ghost laws = { partial_equiv_from_equiv same_pins };

    fn eq(&self, other: &PinWords<'t>) -> bool {
        end_of(self.component) == end_of(other.component)
            && self.component == other.component
            && self.pin == other.pin
    }
}

impl<'t> Eq for PinWords<'t> {
    ghost laws = { same_pins };
}

impl<'t> Hash for PinWords<'t> {
    ghost hash_input = { words_of };

    ghost respects_eq = { same_words_of };

    fn hash<H: Hasher>(&self, state: &mut H) {
        if let Some(component) = self.component {
            state.write(component);
        }
        state.write(self.pin);
    }
}

/// Pins by their words, in the order in which they were noted: the first of them, and those behind them, which are looked up by a
/// hash. Those that were known to be new come into the table only when another one is looked up.
#[derive(Drop)]
pub(crate) struct SeenPins<'t, A: Allocator = Global> {
    first: Vec<PinWords<'t>, A>,
    further: IndexSet<PinWords<'t>, RandomState, A>,
    unlisted: Vec<PinWords<'t>, A>,
}

/// Puts pins into a table, each behind the others.
fn put_into<'t, A: Allocator + Copy>(
    table: &mut IndexSet<PinWords<'t>, RandomState, A>,
    pins: &[PinWords<'t>],
) -> Result<(), AllocError>
    requires { AreNew table.old.keys pins.now }
    ensures { OnOk result (table.new.keys ≡ table.old.keys ++ pins.now) }
{
    for pin in pins {
        table.insert(*pin)?;
    }
    Ok(())
}

impl<'t, A: Allocator> Model for SeenPins<'t, A> {
    ghost use Rattle.std.specs.Prelude.{◌++◌, List, map};
    ghost use Rattle.statement_model.specs.Grammar.{Key};
    ghost use Rattle.net_pins.specs.SeenViews.{AreNoted, words_of};

    ghost Value = { List Key };

    ghost view = { λ s. map words_of (s.first.items ++ (s.further.keys ++ s.unlisted.items)) };

    ghost invariant = { λ s. AreNoted s.first.items s.further.keys s.unlisted.items };
}

impl<'t, A: Allocator + Copy> SeenPins<'t, A> {
    /// No pins. It takes no memory.
    pub(crate) fn new(alloc: A, hash_builder: RandomState) -> SeenPins<'t, A>
        ensures { result ≡ [] }
    {
        SeenPins {
            first: Vec::new(alloc),
            further: IndexSet::with_hasher(alloc, hash_builder),
            unlisted: Vec::new(alloc),
        }
    }

    /// Whether there are none.
    pub(crate) fn is_empty(&self) -> bool
        ensures none { result ≡ true → self.now ≡ [] }
        ensures only_then { self.now ≡ [] → result ≡ true }
    {
        self.first.as_slice().is_empty()
    }

    /// Forgets all pins. The room for those outside the table stays, unless there were others: emptying a large table costs as much
    /// as filling it.
    pub(crate) fn clear(&mut self)
        ensures { self.new ≡ [] }
    {
        if self.further.is_empty() {
            self.first.clear();
            self.unlisted.clear();
        } else {
            let alloc = *self.further.allocator();
            let hash_builder = *self.further.hasher();
            *self = SeenPins::new(alloc, hash_builder);
        }
    }

    /// Notes a pin, and says whether it is new.
    pub(crate) fn note(&mut self, pin: PinWords<'t>) -> Result<bool, AllocError>
        ensures is_new { IfOk result (λ is_new. is_new ≡ not (is_among self.old (words_of pin.entry))) }
        ensures noted { OnOk result (self.new ≡ (if is_among self.old (words_of pin.entry) then self.old else self.old ++ words_of pin.entry ∷ [])) }
    {
        if self.first.as_slice().contains(&pin) {
            return Ok(false);
        }
        if self.first.len() < FEW {
            self.first.push(pin)?;
            return Ok(true);
        }
        let listed = put_into(&mut self.further, &self.unlisted);
        self.unlisted.clear();
        listed?;
        let is_new = self.further.insert(pin)?;
        Ok(is_new)
    }

    /// Notes a pin that is new.
    pub(crate) fn note_new(&mut self, pin: PinWords<'t>) -> Result<(), AllocError>
        requires { is_among self.old (words_of pin) ≡ false }
        ensures { OnOk result (self.new ≡ self.old ++ words_of pin.entry ∷ []) }
    {
        if self.first.len() < FEW {
            self.first.push(pin)?;
        } else {
            self.unlisted.push(pin)?;
        }
        Ok(())
    }
}
