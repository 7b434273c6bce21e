//! Parts of a net that are joined by the shapes of a set.

ghost use Rattle.std.specs.Prelude.{◌≡◌, ◌≤◌, ◌<◌, ◌+◌, ◌-◌, ◌^◌, ◌&&◌, nat_lt, length, map, flat_map, min, sum_by, if◌then◌else◌};
ghost use Rattle.shape_rules.specs.Classes.{joined};
ghost use Rattle.net_lists.specs.NetViews.{net_view};
ghost use Rattle.net_lists.specs.PartCuts.{shape_view};
ghost use Rattle.shape_index.specs.Shapes.{met_count};
ghost use Rattle.net_queries.specs.Held.{is_among, shapes_from};
ghost use Rattle.net_queries.specs.Joining.{JoinedBy, joins_of};

use net_lists::{NetShape, NetView};
use part_classes::Classes;
use shape_index::ShapeSet;
use std::alloc::Allocator;

/// The classes of a net's parts while these are joined, and how many shapes were compared for them.
#[derive(Drop)]
pub(crate) struct Joining<A: Allocator> {
    pub(crate) classes: Classes<A>,
    pub(crate) tests: u64,
}

/// Joins a part with another one by that one's number among the parts of all nets, where it is of the same net.
fn join_numbered<A: Allocator>(
    classes: Classes<A>,
    first: usize,
    part: usize,
    other: usize,
) -> Classes<A>
    ensures { result ≡ (if is_among first (length classes) other && nat_lt part (length classes) then joined (part, other - first) classes else classes) }
{
    let mut classes = classes;
    let count = classes.len();
    if other >= first && other - first < count && part < count {
        classes.join(part, other - first);
    }
    classes
}

/// Joins a part with the parts that have a shape in the set which touches one of its shapes.
fn join_touched<A: Allocator, S: ShapeSet>(
    joining: Joining<A>,
    first: usize,
    part: usize,
    own: &NetShape,
    shapes: &S,
) -> Joining<A>
    requires { part < length joining.classes }
    ensures joined { JoinedBy joining.classes (joins_of first (length joining.classes) (S.shapes shapes.now).entries (part, shape_view own.now)) result.classes }
    ensures tests { result.tests ≤ joining.tests + S.most shapes.now own.now.layer own.now.rect }
    ensures least { min (joining.tests + met_count own.now.layer own.now.rect (S.shapes shapes.now).entries) (2 ^ 64 - 1) ≤ result.tests }
{
    let (classes, compared) = shapes.for_met(
        own.layer,
        own.rect,
        joining.classes,
        |classes, _, met| { join_numbered(classes, first, part, met.net) },
    );
    Joining {
        classes,
        tests: joining.tests.saturating_add(compared),
    }
}

/// Joins a part with those that its shapes touch.
fn join_part<A: Allocator, S: ShapeSet>(
    joining: Joining<A>,
    first: usize,
    part: usize,
    own: &[NetShape],
    shapes: &S,
) -> Joining<A>
    requires { part < length joining.classes }
    ensures joined { JoinedBy joining.classes (flat_map (joins_of first (length joining.classes) (S.shapes shapes.now).entries) (map (λ s. (part, shape_view s)) own.now)) result.classes }
    ensures tests { result.tests ≤ joining.tests + sum_by (λ s. S.most shapes.now s.layer s.rect) own.now }
    ensures least { min (joining.tests + sum_by (λ s. met_count s.layer s.rect (S.shapes shapes.now).entries) own.now) (2 ^ 64 - 1) ≤ result.tests }
{
    let mut joining = joining;
    for shape in own {
        joining = join_touched(joining, first, part, shape, shapes);
    }
    joining
}

/// Joins the parts of a net that touch, by the shapes of a set that holds them under the numbers from the first on.
pub(crate) fn join_parts<A: Allocator, S: ShapeSet>(
    joining: Joining<A>,
    first: usize,
    net: &NetView<'_, '_>,
    shapes: &S,
) -> Joining<A>
    requires { length net.now.parts.now ≡ length joining.classes }
    ensures joined { JoinedBy joining.classes (flat_map (joins_of first (length joining.classes) (S.shapes shapes.now).entries) (shapes_from 0 (net_view net.now).parts)) result.classes }
    ensures tests { result.tests ≤ joining.tests + sum_by (λ s. S.most shapes.now s.layer s.rect) net.now.shapes.now }
    ensures least { min (joining.tests + sum_by (λ s. met_count s.layer s.rect (S.shapes shapes.now).entries) net.now.shapes.now) (2 ^ 64 - 1) ≤ result.tests }
{
    let mut joining = joining;
    let mut left = net.shapes;
    for (part, head) in net.parts.iter().enumerate() {
        let (own, later) = left.split_at(head.shapes as usize);
        joining = join_part(joining, first, part, own, shapes);
        left = later;
    }
    joining
}
