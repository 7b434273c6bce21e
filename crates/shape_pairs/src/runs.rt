//! The pairs of each bin, along the places of its rectangles.

ghost use Rattle.std.specs.Prelude.{◌≡◌, ◌<◌, ℕ, filter, map, length};
ghost use Rattle.std.specs.List.{All, flat_map};
ghost use Rattle.shape_rules.specs.Classes.{numbers};
ghost use Rattle.shape_pairs.specs.Grids.{bin_count};
ghost use Rattle.shape_pairs.specs.Pairs.{CallsLead};
ghost use Rattle.shape_pairs.specs.Entries.{AreBinned, covers, item_at, meet_at_home, pairs_at_home};
ghost use Rattle.shape_pairs.specs.declared.pairs.Numbered.{Numbered};

use crate::bins::{Bins, item_at};
use crate::direct::tell_if;
use crate::grid::Grid;
use crate::pairs::Numbered;
use orient_geom::meets;
use std::alloc::Allocator;

/// Whether two rectangles meet and are at home in a bin.
fn meet_at_home(grid: &Grid, bin: usize, a: &Numbered, b: &Numbered) -> bool
    ensures { result ≡ meet_at_home grid.now bin (a.now, b.now) }
{
    meets(a.rect, b.rect) && grid.home(&a.rect, &b.rect) == bin
}

/// Folds `f` over the pairs that a rectangle has with later ones of its bin and that are at home there.
fn for_pairs_with_later<B, F: Fn(B, usize, usize) -> B>(
    grid: &Grid,
    items: &[Numbered],
    bin: usize,
    first: &Numbered,
    later: &[usize],
    acc: B,
    f: &F,
) -> B
    requires callable { F.IsAlwaysCallable f.now }
    requires placed { All (λ place. place < length items.now) later.now }
    ensures { (other : Numbered) → CallsLead (F.post f.now) acc (filter (meet_at_home grid.now bin) (map (λ second. (first.now, second)) (map (item_at grid.now items.now other) later.now))) result }
{
    let mut acc = acc;
    let mut rest = later;
    while let Some((place, others)) = rest.split_first() {
        let second = item_at(items, *place);
        acc = tell_if(
            meet_at_home(grid, bin, first, second),
            first,
            second,
            acc,
            f,
        );
        rest = others;
    }
    acc
}

/// Folds `f` over the pairs of the rectangles of a bin that are at home there.
fn for_pairs_in_bin<B, F: Fn(B, usize, usize) -> B>(
    grid: &Grid,
    items: &[Numbered],
    bin: usize,
    places: &[usize],
    acc: B,
    f: &F,
) -> B
    requires callable { F.IsAlwaysCallable f.now }
    requires placed { All (λ place. place < length items.now) places.now }
    ensures { (other : Numbered) → CallsLead (F.post f.now) acc (pairs_at_home grid.now bin (map (item_at grid.now items.now other) places.now)) result }
{
    let mut acc = acc;
    let mut rest = places;
    while let Some((place, later)) = rest.split_first() {
        let first = item_at(items, *place);
        acc = for_pairs_with_later(grid, items, bin, first, later, acc, f);
        rest = later;
    }
    acc
}

/// Folds `f` over the pairs of each bin that are at home there.
pub(crate) fn for_pairs_in_bins<B, A: Allocator + Copy, F: Fn(B, usize, usize) -> B>(
    grid: &Grid,
    items: &[Numbered],
    bins: &Bins<A>,
    acc: B,
    f: &F,
) -> B
    requires callable { F.IsAlwaysCallable f.now }
    requires bins { AreBinned grid.now items.now bins.now.ends.items bins.now.places.items }
    ensures { CallsLead (F.post f.now) acc (flat_map (λ bin. pairs_at_home grid.now bin (filter (covers grid.now bin) items.now)) (numbers 0 (bin_count grid.now))) result }
{
    let mut acc = acc;
    for bin in 0..grid.bin_count() {
        let places = bins.places_in(bin);
        acc = for_pairs_in_bin(grid, items, bin, places, acc, f);
    }
    acc
}
