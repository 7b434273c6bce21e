//! All pairs of a short list, each compared.

ghost use Rattle.std.specs.Prelude.{filter, map};
ghost use Rattle.shape_pairs.specs.Pairs.{CallsLead, is_meeting, meeting_pairs, one_if};

use crate::pairs::Numbered;
use orient_geom::meets;

/// Calls `f` at the numbers of two rectangles, if they are to be told.
pub(crate) fn tell_if<B, F: Fn(B, usize, usize) -> B>(
    is_told: bool,
    a: &Numbered,
    b: &Numbered,
    acc: B,
    f: &F,
) -> B
    requires { F.IsAlwaysCallable f.now }
    ensures { CallsLead (F.post f.now) acc (one_if is_told (a.now, b.now)) result }
{
    if is_told { f(acc, a.id, b.id) } else { acc }
}

/// Folds `f` over the pairs of one rectangle with others that meet it.
fn for_pairs_with<B, F: Fn(B, usize, usize) -> B>(
    first: &Numbered,
    others: &[Numbered],
    acc: B,
    f: &F,
) -> B
    requires { F.IsAlwaysCallable f.now }
    ensures { CallsLead (F.post f.now) acc (filter is_meeting (map (λ other. (first.now, other)) others.now)) result }
{
    let mut acc = acc;
    let mut rest = others;
    while let Some((other, later)) = rest.split_first() {
        acc = tell_if(meets(first.rect, other.rect), first, other, acc, f);
        rest = later;
    }
    acc
}

/// Folds `f` over the pairs of rectangles that meet, in the order of the list.
pub(crate) fn for_pairs_directly<B, F: Fn(B, usize, usize) -> B>(
    items: &[Numbered],
    acc: B,
    f: &F,
) -> B
    requires { F.IsAlwaysCallable f.now }
    ensures { CallsLead (F.post f.now) acc (meeting_pairs items.now) result }
{
    let mut acc = acc;
    let mut rest = items;
    while let Some((first, later)) = rest.split_first() {
        acc = for_pairs_with(first, later, acc, f);
        rest = later;
    }
    acc
}
