//! What stands behind an edit of a text.

ghost use Rattle.std.specs.Prelude.{◌≡◌, ◌<◌, ◌^◌, List, IfSome, slice_get};
ghost use Rattle.std.specs.Option.{option_map};
ghost use Rattle.rereading.specs.Segments.{OldBytes, segment_view};

use design_model::mode::Mode;

/// Bytes of the text behind an edit: a statement of it with the blanks before it and the mode in which it stands, or bytes
/// in which a later edit is made, or what stands behind all statements.
#[derive(Clone, Copy)]
pub struct Segment<'t> {
    pub bytes: &'t [u8],
    pub mode: Option<Mode>,
}

/// The segments behind an edit in their order, up to the end of the text. They are asked for one at a time, so that they need
/// not stand in a list.
pub trait Segments {
    ghost listed: { Self → List OldBytes };

    /// A segment by how many stand before it, or `None` behind the last.
    fn segment(&self, k: usize) -> Option<Segment<'_>>
        ensures at { option_map segment_view result ≡ slice_get (listed self.now) k }
        ensures few { IfSome result (λ s. k < 2 ^ 63) };
}

impl<'t> Segments for &'t [Segment<'t>] {
    ghost use Rattle.std.specs.Prelude.{map};

    ghost listed = { λ s. map segment_view s.now };

    fn segment(&self, k: usize) -> Option<Segment<'_>> {
        self.get(k).copied()
    }
}
