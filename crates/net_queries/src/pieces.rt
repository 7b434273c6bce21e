//! How a net's parts hang together.

ghost use Rattle.std.specs.Prelude.{◌≡◌, ◌≤◌, ◌-◌, ◌^◌, IfOk, map, min, sum_by};
ghost use Rattle.connection_rules.specs.PartClasses.{with_pins, without_pins};
ghost use Rattle.net_lists.specs.NetViews.{net_view};
ghost use Rattle.net_queries.specs.Held.{HoldsParts};
ghost use Rattle.shape_index.specs.Shapes.{met_count};

use crate::joining::{Joining, join_parts};
use net_lists::{NetView, PartHead};
use part_classes::{Classes, order_is_open};
use shape_index::ShapeSet;
use std::alloc::{AllocError, Allocator};

/// How a net's parts hang together: how many of their classes hold a pin and how many hold none, and how many shapes were
/// compared to find this.
#[derive(Clone, Copy)]
pub struct NetState {
    pub classes: usize,
    pub floating: usize,
    pub tests: u64,
}

/// Which parts are pins.
fn marks_of<A: Allocator>(alloc: A, parts: &[PartHead]) -> Result<Vec<bool, A>, AllocError>
    ensures { IfOk result (λ v. v.items ≡ map (λ p. p.is_pin) parts.now) }
{
    parts.iter().map(|part| part.is_pin).collect(alloc)
}

/// How the parts of a net hang together, where a set holds their shapes under the numbers from the first on. Each of its shapes is
/// compared with all that touch it, itself too, and with others near it; the count ends at 2^64 - 1.
pub fn pieces_of<A: Allocator + Copy, S: ShapeSet>(
    alloc: A,
    first: usize,
    net: &NetView<'_, '_>,
    shapes: &S,
) -> Result<NetState, AllocError>
    ensures classes { IfOk result (λ s. HoldsParts first (net_view net.now).parts (S.shapes shapes.now).entries → s.classes ≡ with_pins (net_view net.now).parts) }
    ensures floating { IfOk result (λ s. HoldsParts first (net_view net.now).parts (S.shapes shapes.now).entries → s.floating ≡ without_pins (net_view net.now).parts) }
    ensures tests { IfOk result (λ s. s.tests ≤ sum_by (λ x. S.most shapes.now x.layer x.rect) net.now.shapes.now) }
    ensures least { IfOk result (λ s. min (sum_by (λ x. met_count x.layer x.rect (S.shapes shapes.now).entries) net.now.shapes.now) (2 ^ 64 - 1) ≤ s.tests) }
{
    let marks = marks_of(alloc, net.parts)?;
    let classes = Classes::new(alloc, net.parts.len())?;
    let joining = Joining { classes, tests: 0 };
    let mut joining = join_parts(joining, first, net, shapes);
    let counts = joining.classes.counts(&marks)?;
    order_is_open();
    Ok(NetState {
        classes: counts.holding,
        floating: counts.bare,
        tests: joining.tests,
    })
}
