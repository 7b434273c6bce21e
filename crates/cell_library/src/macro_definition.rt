//! A macro that LEF texts define (LEF/DEF 5.8 Language Reference, "Macro").

ghost use Rattle.std.specs.Prelude.{◌≡◌, ◌<◌, ◌^◌};
ghost use Rattle.cell_library.specs.PinViews.{pins_view, unchecked_in};

use crate::named::Named;
use crate::numbers::MicronPoint;
use crate::pin::Pin;
use design_model::sequence::Sequence;
use std::alloc::{Allocator, Global};

/// A macro: the first word of its first `CLASS`, its first `SIZE` and `ORIGIN`, the names of its sites, and the first of its
/// pins of each name.
#[derive(Drop)]
pub struct Macro<'l, A: Allocator = Global> {
    pub class: Option<&'l [u8]>,
    pub size: Option<MicronPoint>,
    pub origin: Option<MicronPoint>,
    pub sites: Sequence<&'l [u8], A>,
    pub pins: Named<'l, Pin<'l, A>, A>,
    ghost few: { unchecked_in (pins_view pins) < 2 ^ 63 },
}

impl<'l, A: Allocator + Copy> Macro<'l, A> {
    /// How many parts of its pins have no checked shape: fewer than 2^63.
    pub fn unchecked(&self) -> usize
        ensures { result ≡ unchecked_in (pins_view self.now.pins) }
    {
        let mut count = 0;
        let mut place = 0;
        while let Some((_, pin)) = self.pins.at(place) {
            count += pin.unchecked;
            place += 1;
        }
        count
    }
}
