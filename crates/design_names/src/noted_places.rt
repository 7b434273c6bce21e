//! Places of entries in a table, noted by their names.

ghost use Rattle.std.specs.Prelude.{◌<◌};

/// How many slots there are for places: names that differ in their last four digits mostly have one each.
const SLOTS: usize = 8192;

/// Where entries were found last in a table of names, in slots by the ends of their names. A name may find another one's place in its
/// slot: who reads a place looks whether the name stands there, so nothing hangs on a slot but time.
#[derive(Drop)]
pub struct NotedPlaces {
    slots: [u32; SLOTS],
}

/// The byte so many places before the end of a name, or 0 where there is none.
#[inline(always)]
fn byte_from_end(name: &[u8], places: usize) -> usize
    ensures { result < 256 }
{
    match name.get(name.len().wrapping_sub(places)) {
        Some(byte) => *byte as usize,
        None => 0,
    }
}

/// The slot of a name. Names as `U1234` and `state_reg\[12\]`, which are numbered one after the other, mostly have different ones.
#[inline(always)]
fn slot_of(name: &[u8]) -> usize
    ensures { result < 8192 }
{
    let last = byte_from_end(name, 1)
        + byte_from_end(name, 2) * 10
        + byte_from_end(name, 3) * 100
        + byte_from_end(name, 4) * 1000;
    let before = byte_from_end(name, 7) * 7 + byte_from_end(name, 8) * 70;
    (last + before) % SLOTS
}

impl NotedPlaces {
    /// No places yet.
    pub fn new() -> NotedPlaces {
        NotedPlaces { slots: [0; SLOTS] }
    }

    /// The place that was noted last in the slot of a name.
    #[inline(always)]
    pub(crate) fn place_for(&self, name: &[u8]) -> usize {
        self.slots[slot_of(name)] as usize
    }

    /// Notes the place of a name, unless it is behind the first 2^32.
    pub(crate) fn note(&mut self, name: &[u8], place: usize) {
        let Ok(place) = u32::try_from(place) else {
            return;
        };
        self.slots[slot_of(name)] = place;
    }
}
