//! Lines of a report on a design.

ghost use Rattle.std.specs.Prelude.{◌≡◌, IsPermutation};
ghost use Rattle.design_model.specs.Lines.{kind_word};
ghost use Rattle.design_model.specs.Order.{texts, sorted_by_bytes};

use crate::sequence::{Bytes, Sequence};
use std::alloc::{Allocator, Global};

/// What a line reports.
#[derive(Clone, Copy, Debug, PartialEq, Eq)]
pub enum DiagKind {
    /// The number in a section's header isn't that of its entries.
    Count,
    /// Two components lie on one another.
    Overlap,
    /// A name that isn't defined.
    Unknown,
    /// A via doesn't join the layer of its wire to another.
    ViaLayer,
    /// Parts whose shape isn't checked.
    Unchecked,
    /// No row holds a component that needs one.
    OffRow,
    /// A row holds a component, but none on its sites.
    OffSite,
    /// A component on a site is turned as no row there lets it be.
    Flip,
    /// A component reaches out of the die.
    Outside,
    /// A component lies on a rectangle where placement is blocked.
    Blocked,
    /// A component reaches out of the fence that it is assigned to.
    Fence,
    /// A component lies in a fence that it isn't assigned to.
    Intruder,
    /// Shapes of two nets meet.
    Short,
    /// A wire or a via lies on a rectangle where routing is blocked.
    RouteBlock,
    /// A net with wires or vias is in several parts that hold terminals.
    OpenNet,
    /// The same of a net without wires and vias.
    Unrouted,
    /// A net has parts that hold no terminal.
    Floating,
}

impl DiagKind {
    /// The word that its lines begin with.
    pub fn word(self) -> &'static [u8]
        ensures { result.now ≡ kind_word self }
    {
        match self {
            DiagKind::Count => b"count",
            DiagKind::Overlap => b"overlap",
            DiagKind::Unknown => b"unknown",
            DiagKind::ViaLayer => b"vialayer",
            DiagKind::Unchecked => b"unchecked",
            DiagKind::OffRow => b"offrow",
            DiagKind::OffSite => b"offsite",
            DiagKind::Flip => b"flip",
            DiagKind::Outside => b"outside",
            DiagKind::Blocked => b"blocked",
            DiagKind::Fence => b"fence",
            DiagKind::Intruder => b"intruder",
            DiagKind::Short => b"short",
            DiagKind::RouteBlock => b"routeblock",
            DiagKind::OpenNet => b"open",
            DiagKind::Unrouted => b"unrouted",
            DiagKind::Floating => b"floating",
        }
    }
}

/// A report as it is printed, without a line end.
#[derive(Drop)]
pub struct DiagLine<A: Allocator = Global> {
    pub kind: DiagKind,
    pub text: Bytes<A>,
}

/// The lines of a report.
pub type DiagLines<A = Global> = Sequence<DiagLine<A>, A>;

/// Puts lines into the order of their bytes; each keeps its kind. It takes no memory.
pub fn sort_lines<A: Allocator>(lines: &mut Vec<DiagLine<A>, A>)
    ensures sorted { texts lines.new.items ≡ sorted_by_bytes (texts lines.old.items) }
    ensures same { IsPermutation lines.old.items lines.new.items }
{
    lines.sort_unstable_by(|a, b| a.text.as_slice().cmp(b.text.as_slice()))
}
