//! Pins of macros that were looked up last.

ghost use Rattle.std.specs.Prelude.{◌≡◌, ◌<◌, IfOk, IfSome, MatchOption, None};
ghost use Rattle.lef_grammar.specs.Library.{Library as TheLibrary};
ghost use Rattle.design_wires.specs.Scales.{units_of};
ghost use Rattle.net_pins.specs.FoundPins.{AreKept, IsFound, IsKept, found_pin};

use crate::cell_frame::CellFrame;
use crate::found_pin::FoundPin;
use crate::pushing::push;
use cell_library::library::Library;
use design_wires::scale::Scale;
use std::alloc::{AllocError, Allocator, Global};
use std::marker::Model;

/// How many slots there are for pins: the macros that a design uses most have some hundred. With one more they are a power of 2, the
/// room that a vector takes, since a pin is pushed behind them before it goes into its slot.
const SLOTS: usize = 255;

/// A library, and those pins of its macros that were looked up last, in slots by the names of both. One that is looked up again is
/// known by these names, without a hash.
#[derive(Drop)]
pub(crate) struct LastPins<'a, 'l, 't, A: Allocator = Global> {
    library: &'a Library<'l, A>,
    /// None before the first pin, which is then in all of them.
    slots: Vec<FoundPin<'a, 'l, 't, A>, A>,
}

impl<'a, 'l, 't, A: Allocator> Model for LastPins<'a, 'l, 't, A> {
    ghost use Rattle.lef_grammar.specs.Library.{Library as TheLibrary};
    ghost use Rattle.net_pins.specs.FoundPins.{AreKept};

    ghost Value = { TheLibrary };

    ghost view = { λ l. l.library.now };

    ghost invariant = { λ l. AreKept l.library.now l.slots.items };
}

/// The byte so many places before the end of a name, or 0 where there is none.
#[inline(always)]
fn byte_from_end(name: &[u8], places: usize) -> usize
    ensures { result < 256 }
{
    match name.get(name.len().wrapping_sub(places)) {
        Some(byte) => *byte as usize,
        None => 0,
    }
}

/// The slot of a pin by the names of its macro and its own. Macros as `NAND2_X1` or `nand2_4` differ from others in their last bytes
/// or in their length.
#[inline(always)]
fn slot_of(cell: &[u8], pin: &[u8]) -> usize
    ensures { result < 255 }
{
    let cell_bytes = byte_from_end(cell, 1) * 31
        + byte_from_end(cell, 3) * 33
        + byte_from_end(cell, 4) * 25;
    let pin_bytes = byte_from_end(pin, 1) * 17 + byte_from_end(pin, 2) * 53;
    let lengths = cell.len() % SLOTS * 57 + pin.len() % SLOTS * 15;
    (cell_bytes + pin_bytes + lengths) % SLOTS
}

/// The pin in a slot, if it was found by these names and with this scale.
#[inline(always)]
fn pin_in<'a, 'l, 't, A: Allocator + Copy>(
    slots: &[FoundPin<'a, 'l, 't, A>],
    slot: usize,
    scale: Scale,
    cell: &[u8],
    name: &[u8],
) -> Option<FoundPin<'a, 'l, 't, A>>
    ensures { (library : TheLibrary) → AreKept library slots.now → IfSome result (IsFound library cell.now name.now (units_of scale)) }
{
    let Some(pin) = slots.get(slot) else {
        return None;
    };
    if pin.is_of(scale, cell, name) {
        Some(*pin)
    } else {
        None
    }
}

/// The pin of a name of the macro of a name.
fn look_up<'a, 'l, 't, A: Allocator + Copy>(
    library: &'a Library<'l, A>,
    scale: Scale,
    cell: &'t [u8],
    name: &'t [u8],
) -> Option<FoundPin<'a, 'l, 't, A>>
    ensures found { MatchOption result (found_pin library.entry.now cell.entry.now name.entry.now ≡ None) (IsFound library.entry.now cell.entry.now name.entry.now (units_of scale)) }
    ensures kept { IfSome result (IsKept library.entry.now) }
{
    let Some(view) = library.macro_of(cell) else {
        return None;
    };
    let Some(pin) = view.pin(name) else {
        return None;
    };
    Some(FoundPin {
        cell,
        name,
        frame: CellFrame::of(view, scale),
        pin,
    })
}

/// Makes the slots, with a pin in each.
fn fill<'a, 'l, 't, A: Allocator + Copy>(
    slots: &mut Vec<FoundPin<'a, 'l, 't, A>, A>,
    pin: FoundPin<'a, 'l, 't, A>,
) -> Result<(), AllocError>
    ensures { (library : TheLibrary) → AreKept library slots.old.items → IsKept library pin.entry → AreKept library slots.new.items }
{
    for _ in slots.len()..SLOTS {
        or_error!(push(slots, pin));
    }
    Ok(())
}

/// Keeps a pin in a slot.
fn keep<'a, 'l, 't, A: Allocator + Copy>(
    slots: &mut Vec<FoundPin<'a, 'l, 't, A>, A>,
    slot: usize,
    pin: FoundPin<'a, 'l, 't, A>,
) -> Result<(), AllocError>
    ensures { (library : TheLibrary) → AreKept library slots.old.items → IsKept library pin.entry → AreKept library slots.new.items }
{
    if slots.len() <= slot {
        return fill(slots, pin);
    }
    or_error!(push(slots, pin));
    slots.swap_remove(slot);
    Ok(())
}

impl<'a, 'l, 't, A: Allocator + Copy> LastPins<'a, 'l, 't, A> {
    /// No pins of a library yet. It takes no memory.
    pub(crate) fn new(alloc: A, library: &'a Library<'l, A>) -> LastPins<'a, 'l, 't, A>
        ensures { result ≡ library.entry.now }
    {
        LastPins {
            library,
            slots: Vec::new(alloc),
        }
    }

    /// Looks a pin up, and keeps it. This is rare, so what it needs room for stays out of `pin_of`.
    #[inline(never)]
    fn find(
        &mut self,
        slot: usize,
        scale: Scale,
        cell: &'t [u8],
        name: &'t [u8],
    ) -> Result<Option<FoundPin<'a, 'l, 't, A>>, AllocError>
        ensures found { IfOk result (λ found. MatchOption found (found_pin self.old cell.entry.now name.entry.now ≡ None) (IsFound self.old cell.entry.now name.entry.now (units_of scale))) }
        ensures same { self.new ≡ self.old }
    {
        let Some(pin) = look_up(self.library, scale, cell, name) else {
            return Ok(None);
        };
        or_error!(keep(&mut self.slots, slot, pin));
        Ok(Some(pin))
    }

    /// The pin of a name of the macro of a name, with the macro at a scale.
    #[inline(always)]
    pub(crate) fn pin_of(
        &mut self,
        scale: Scale,
        cell: &'t [u8],
        name: &'t [u8],
    ) -> Result<Option<FoundPin<'a, 'l, 't, A>>, AllocError>
        ensures found { IfOk result (λ found. MatchOption found (found_pin self.old cell.entry.now name.entry.now ≡ None) (IsFound self.old cell.entry.now name.entry.now (units_of scale))) }
        ensures same { self.new ≡ self.old }
    {
        let slot = slot_of(cell, name);
        let kept = pin_in(self.slots.as_slice(), slot, scale, cell, name);
        if kept.is_some() {
            Ok(kept)
        } else {
            self.find(slot, scale, cell, name)
        }
    }
}
