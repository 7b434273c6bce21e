//! Rectangles that are taken out of those where routing is blocked.

ghost use Rattle.std.specs.Prelude.{◌≡◌, ◌<◌, ◌∷◌, ◌++◌, IfNone, IfOk, IfSome, IsFalse, IsTrue, OnOk, get_or, length, map};
ghost use Rattle.design_model.specs.Views.{rectangle_of};
ghost use Rattle.line_laws.specs.Lines.{SameThings};
ghost use Rattle.net_touches.specs.Barriers.{barrier_view};
ghost use Rattle.followed_nets.specs.Blocked.{AreNotBoth, is_bar, is_rectangle, times_barred};

use crate::blocked::ChangedBars;
use design_model::geometry::Rect;
use net_touches::Barrier;
use std::alloc::{AllocError, Allocator};

/// Whether two rectangles are one.
fn is_rectangle(a: &Rect, b: &Rect) -> bool
    ensures value { result ≡ is_rectangle (rectangle_of a.now) (rectangle_of b.now) }
    ensures same { IsTrue result → rectangle_of a.now ≡ rectangle_of b.now }
{
    a.x1 == b.x1 && a.y1 == b.y1 && a.x2 == b.x2 && a.y2 == b.y2
}

/// Whether two rectangles are one, on one layer, and both spare nets of power or neither.
fn is_same(a: &Barrier, b: &Barrier) -> bool
    ensures value { result ≡ is_bar (barrier_view a.now) (barrier_view b.now) }
    ensures same { IsTrue result → barrier_view a.now ≡ barrier_view b.now }
{
    a.layer.0 == b.layer.0 && a.spares_power == b.spares_power && is_rectangle(&a.rect, &b.rect)
}

/// The last place of a rectangle, if it is there.
fn place_of(bars: &[Barrier], bar: &Barrier) -> Option<usize>
    ensures there { IfSome result (λ n. (n < length bars.now) × ((d : _) → barrier_view (get_or bars.now n d) ≡ barrier_view bar.now)) }
    ensures none { IfNone result (times_barred (barrier_view bar.now) (map barrier_view bars.now) ≡ 0) }
{
    for place in (0..bars.len()).rev() {
        if is_same(bar, &bars[place]) {
            return Some(place);
        }
    }
    None
}

/// Takes a rectangle out, once, and says whether it was there.
fn take_bar<A: Allocator + Copy>(bars: &mut Vec<Barrier, A>, bar: &Barrier) -> bool
    ensures taken { IsTrue result → SameThings (map barrier_view bars.old.items) (barrier_view bar.now ∷ map barrier_view bars.new.items) }
    ensures none { IsFalse result → times_barred (barrier_view bar.now) (map barrier_view bars.old.items) ≡ 0 }
    ensures left { IsFalse result → bars.new.items ≡ bars.old.items }
{
    let Some(place) = place_of(bars, bar) else {
        return false;
    };
    bars.swap_remove(place);
    true
}

/// Takes rectangles out, each once, and says whether all of them were there.
pub(crate) fn take_bars<A: Allocator + Copy>(bars: &mut Vec<Barrier, A>, gone: &[Barrier]) -> bool
    ensures { IsTrue result → SameThings (map barrier_view bars.old.items) (map barrier_view gone.now ++ map barrier_view bars.new.items) }
{
    for bar in gone {
        if !take_bar(bars, bar) {
            return false;
        }
    }
    true
}

/// Takes a rectangle that went out of those that came, where it is there, and else puts it behind those that went alone.
fn take_or_push<A: Allocator + Copy>(
    come: &mut Vec<Barrier, A>,
    left: &mut Vec<Barrier, A>,
    bar: &Barrier,
) -> Result<(), AllocError>
    ensures same { OnOk result (SameThings (map barrier_view come.old.items ++ map barrier_view left.new.items) (map barrier_view left.old.items ++ (barrier_view bar.now ∷ map barrier_view come.new.items))) }
    ensures apart { OnOk result (AreNotBoth (map barrier_view left.old.items) (map barrier_view come.old.items) → AreNotBoth (map barrier_view left.new.items) (map barrier_view come.new.items)) }
{
    if !take_bar(come, bar) {
        left.push(*bar)?;
    }
    Ok(())
}

/// Takes out of those that came the rectangles that went, too, each as often, and gives the others that went.
fn went_alone<A: Allocator + Copy>(
    alloc: A,
    gone: &[Barrier],
    come: &mut Vec<Barrier, A>,
) -> Result<Vec<Barrier, A>, AllocError>
    ensures same { IfOk result (λ left. SameThings (map barrier_view gone.now ++ map barrier_view come.new.items) (map barrier_view come.old.items ++ map barrier_view left.items)) }
    ensures apart { IfOk result (λ left. AreNotBoth (map barrier_view left.items) (map barrier_view come.new.items)) }
{
    let mut left = Vec::new(alloc);
    for bar in gone {
        take_or_push(come, &mut left, bar)?;
    }
    Ok(left)
}

/// The rectangles that went or came, but not both, each as often.
pub(crate) fn without_both<A: Allocator + Copy>(
    alloc: A,
    changed: ChangedBars<A>,
) -> Result<ChangedBars<A>, AllocError>
    ensures same { IfOk result (λ c. SameThings (map barrier_view changed.gone.items ++ map barrier_view c.come.items) (map barrier_view changed.come.items ++ map barrier_view c.gone.items)) }
    ensures apart { IfOk result (λ c. AreNotBoth (map barrier_view c.gone.items) (map barrier_view c.come.items)) }
{
    let ChangedBars { gone, come } = changed;
    let mut come = come;
    let gone = went_alone(alloc, &gone, &mut come)?;
    Ok(ChangedBars { gone, come })
}
