//! The lines on the classes of each net's parts.

ghost use Rattle.std.specs.Prelude.{◌≡◌, ◌++◌, ◌<◌, ◌^◌, IfOk, OnOk, flat_map, if◌then◌else◌};
ghost use Rattle.design_model.specs.declared.diagnostic.DiagKind.TheVariants.{Floating, OpenNet, Unrouted};
ghost use Rattle.connection_rules.specs.NetLines.{class_lines, count_line, is_drawn};
ghost use Rattle.connection_rules.specs.PartClasses.{with_pins, without_pins};
ghost use Rattle.net_lists.specs.NetViews.{net_view};

use crate::class_counts::classes_of;
use design_model::diagnostic::DiagKind;
use net_lists::{NetList, NetView};
use part_classes::Counts;
use report_lines::Lines;
use std::alloc::{AllocError, Allocator};

/// Whether a net has wires or vias.
fn is_drawn(net: &NetView<'_, '_>) -> bool
    ensures { result ≡ is_drawn (net_view net.now).parts }
{
    net.parts.iter().any(|part| !part.is_pin)
}

/// Puts the line on so many classes of a net, if they are more than `least`.
fn put_count<A: Allocator + Copy>(
    kind: DiagKind,
    name: &[u8],
    least: usize,
    count: usize,
    lines: &mut Lines<A>,
) -> Result<(), AllocError>
    requires { count < 2 ^ 63 }
    ensures { OnOk result (lines.new ≡ lines.old ++ count_line kind name.now least count) }
{
    if count <= least {
        return Ok(());
    }
    lines.put(kind, &[name], &[count as i64])
}

/// How a net hangs together: how many classes its parts have of each kind, and whether it has wires or vias.
#[derive(Clone, Copy)]
pub struct NetClasses {
    pub counts: Counts,
    pub is_drawn: bool,
}

/// How a net hangs together.
#[tactic(auto, using(crate::proofs::PartHeads::few_with_pins, crate::proofs::PartHeads::few_without_pins, crate::proofs::PartHeads::length_parts))]
pub fn net_classes_of<A: Allocator + Copy>(
    alloc: A,
    net: &NetView<'_, '_>,
) -> Result<NetClasses, AllocError>
    ensures holding { IfOk result (λ c. c.counts.holding ≡ with_pins (net_view net.now).parts) }
    ensures bare { IfOk result (λ c. c.counts.bare ≡ without_pins (net_view net.now).parts) }
    ensures drawn { IfOk result (λ c. c.is_drawn ≡ is_drawn (net_view net.now).parts) }
    ensures few { IfOk result (λ c. (c.counts.holding < 2 ^ 63) × (c.counts.bare < 2 ^ 63)) }
{
    Ok(NetClasses {
        counts: classes_of(alloc, net)?,
        is_drawn: is_drawn(net),
    })
}

/// Puts the lines on how a net of a name hangs together.
pub fn put_lines_of_classes<A: Allocator + Copy>(
    name: &[u8],
    classes: NetClasses,
    lines: &mut Lines<A>,
) -> Result<(), AllocError>
    requires holding { classes.counts.holding < 2 ^ 63 }
    requires bare { classes.counts.bare < 2 ^ 63 }
    ensures { OnOk result (lines.new ≡ lines.old ++ (count_line (if classes.is_drawn then OpenNet else Unrouted) name.now 1 classes.counts.holding ++ count_line Floating name.now 0 classes.counts.bare)) }
{
    let kind = if classes.is_drawn {
        DiagKind::OpenNet
    } else {
        DiagKind::Unrouted
    };
    put_count(kind, name, 1, classes.counts.holding, lines)?;
    put_count(DiagKind::Floating, name, 0, classes.counts.bare, lines)?;
    Ok(())
}

/// Puts the lines on the classes of a net's parts.
fn put_lines_of_net<A: Allocator + Copy>(
    alloc: A,
    net: &NetView<'_, '_>,
    lines: &mut Lines<A>,
) -> Result<(), AllocError>
    ensures { OnOk result (lines.new ≡ lines.old ++ class_lines (net_view net.now)) }
{
    let classes = net_classes_of(alloc, net)?;
    put_lines_of_classes(net.head.name, classes, lines)
}

/// Puts the lines on each net's classes behind others.
pub fn put_class_lines<A: Allocator + Copy>(
    alloc: A,
    nets: &NetList<'_, A>,
    lines: &mut Lines<A>,
) -> Result<(), AllocError>
    ensures { OnOk result (lines.new ≡ lines.old ++ flat_map class_lines nets.now) }
{
    let mut left = nets.nets();
    while let Some(net) = left.next() {
        put_lines_of_net(alloc, &net, lines)?;
    }
    Ok(())
}
