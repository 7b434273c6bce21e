//! Macros that were looked up last.

ghost use Rattle.std.specs.Prelude.{◌≡◌, ◌≤◌, ◌<◌, ℕ, IfSome, MatchOption, None};
ghost use Rattle.lef_grammar.specs.Library.{Library as TheLibrary, macro_named};
ghost use Rattle.place_checks.specs.Outlines.{IsOutlineOf};

use crate::outline::Outline;
use cell_library::library::Library;
use lefdef_tokens::is_word;
use std::alloc::{Allocator, Global};
use std::marker::Model;

/// How many slots there are for macros.
const SLOTS: usize = 128;

/// What makes the boxes of a macro's components, with its name.
#[derive(Clone, Copy)]
pub(crate) struct FoundMacro<'t> {
    pub(crate) name: &'t [u8],
    pub(crate) outline: Outline<'t>,
}

/// A library and a number of database units per micron, and those of its macros that were looked up last, in slots by their names. One
/// that is looked up again is known by its name: neither is the name hashed nor the boundary made once more.
#[derive(Drop)]
pub struct LastMacros<'t, 'l, A: Allocator = Global> {
    library: &'t Library<'l, A>,
    scale: u32,
    slots: [Option<FoundMacro<'t>>; SLOTS],
}

impl<'t, 'l, A: Allocator> Model for LastMacros<'t, 'l, A> {
    ghost use Rattle.place_checks.specs.Outlines.{KeepsMacros, Scaled};

    ghost Value = { Scaled };

    ghost view = { λ m. record { library = m.library.now; scale = m.scale } };

    ghost invariant = { λ m. KeepsMacros m.library.now m.scale m.slots };
}

/// The byte so many places before the end of a name, or 0 where there is none.
fn byte_from_end(name: &[u8], places: usize) -> usize
    ensures { result < 256 }
{
    match name.get(name.len().wrapping_sub(places)) {
        Some(byte) => *byte as usize,
        None => 0,
    }
}

/// The slot of a macro's name. Names as `NAND2_X1` or `nand2_4` differ from others in their last bytes or in their length.
fn slot_of(name: &[u8]) -> usize
    ensures { result < 128 }
{
    let bytes = byte_from_end(name, 1) * 31
        + byte_from_end(name, 3) * 33
        + byte_from_end(name, 4) * 25;
    (bytes + name.len() % SLOTS * 57) % SLOTS
}

/// A macro, if it was found by this name.
fn if_named<'t>(found: Option<FoundMacro<'t>>, name: &[u8]) -> Option<Outline<'t>>
    ensures { (library : TheLibrary) (u : ℕ) → IfSome found.entry (λ f. IsOutlineOf library u f.name.now f.outline) → IfSome result (IsOutlineOf library u name.now) }
{
    let Some(found) = found else {
        return None;
    };
    if is_word(found.name, name) {
        Some(found.outline)
    } else {
        None
    }
}

/// The macro of a name, with its boundary.
fn look_up<'t, A: Allocator + Copy>(
    library: &'t Library<'_, A>,
    scale: u32,
    name: &[u8],
) -> Option<Outline<'t>>
    requires some { 0 < scale }
    requires few { scale ≤ 100000 }
    ensures { MatchOption result (macro_named library.entry.now name.now ≡ None) (IsOutlineOf library.entry.now scale name.now) }
{
    match library.macro_of(name) {
        Some(cell) => Some(Outline::of(cell, scale)),
        None => None,
    }
}

impl<'t, 'l, A: Allocator + Copy> LastMacros<'t, 'l, A> {
    /// No macros of a library yet.
    pub fn new(library: &'t Library<'l, A>, scale: u32) -> LastMacros<'t, 'l, A>
        requires some { 0 < scale }
        requires few { scale ≤ 100000 }
        ensures { result ≡ record { library = library.entry.now; scale = scale } }
    {
        LastMacros {
            library,
            scale,
            slots: [None; SLOTS],
        }
    }

    /// Looks a macro up, and keeps it. This is rare, so what it needs room for stays out of `outline_of`.
    #[inline(never)]
    fn find(&mut self, slot: usize, name: &'t [u8]) -> Option<Outline<'t>>
        requires { slot < 128 }
        ensures found { MatchOption result (macro_named self.old.library name.entry.now ≡ None) (IsOutlineOf self.old.library self.old.scale name.entry.now) }
        ensures same { self.new ≡ self.old }
    {
        let Some(outline) = look_up(self.library, self.scale, name) else {
            return None;
        };
        let slots = &mut self.slots[..];
        slots[slot] = Some(FoundMacro { name, outline });
        Some(outline)
    }

    /// The macro of a name, with its boundary.
    pub(crate) fn outline_of(&mut self, name: &'t [u8]) -> Option<Outline<'t>>
        ensures found { MatchOption result (macro_named self.old.library name.entry.now ≡ None) (IsOutlineOf self.old.library self.old.scale name.entry.now) }
        ensures same { self.new ≡ self.old }
    {
        let slot = slot_of(name);
        let slots = &self.slots[..];
        let kept = if_named(slots[slot], name);
        if kept.is_some() {
            kept
        } else {
            self.find(slot, name)
        }
    }
}
