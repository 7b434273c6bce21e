//! The slots in which names of layers and vias are kept.

ghost use Rattle.std.specs.Prelude.{◌<◌};

/// How many slots there are for names of one kind. Designs name some ten layers and some ten vias.
pub(crate) const SLOTS: usize = 32;

/// The byte of a name at a place, or 0 behind its end.
fn byte_at(name: &[u8], place: usize) -> usize
    ensures { result < 256 }
{
    match name.get(place) {
        Some(byte) => *byte as usize,
        None => 0,
    }
}

/// The slot of a name. Names that differ in their second, fourth or last byte, as `M1M2_PR`, `VIA12_1C` and `met1` do from those of
/// the next layers, mostly have different ones.
pub(crate) fn slot_of(name: &[u8]) -> usize
    ensures { result < 32 }
{
    let Some(last) = name.last() else {
        return 0;
    };
    let bytes = byte_at(name, 1) * 3 + byte_at(name, 3) * 5 + *last as usize;
    (bytes + name.len() % SLOTS * 2) % SLOTS
}
