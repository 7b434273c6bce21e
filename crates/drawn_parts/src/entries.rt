//! What entries of a net draw, put into a list of nets.

ghost use Rattle.std.specs.Prelude.{◌≡◌, ◌<◌, length, map, IfOk, OnOk};
ghost use Rattle.std.specs.List.{filter_map, sum_by};
ghost use Rattle.connection_rules.specs.NetParts.{drawn_parts, wired_net, wired_of, wired_special};
ghost use Rattle.def_reader.specs.EntryViews.{entry_view};
ghost use Rattle.design_rules.specs.Boxes.{scale};
ghost use Rattle.measure_rules.specs.Lengths.{wired_length};
ghost use Rattle.net_lists.specs.Building.{with_parts};
ghost use Rattle.wire_parts.specs.NetViews.{net_entry_view, net_view};
ghost use Rattle.wire_parts.specs.SpecialNetViews.{special_net_view};
ghost use Rattle.def_grammar.specs.Records.{net};
ghost use Rattle.drawn_parts.specs.DrawnLengths.{capped, length_if};
ghost use Rattle.drawn_parts.specs.EntryParts.{parts_drawn, parts_if};
ghost use Rattle.net_entries.specs.NetEntries.{entry_lent};

use crate::clauses::put_clauses;
use crate::drawing::PartWalk;
use crate::entry_pieces::{put_net_wires, put_special_wires};
use def_reader::entry::Entry;
use design_wires::wires::DesignWires;
use net_entries::LentEntry;
use net_lists::NetList;
use std::alloc::{AllocError, Allocator};
use wire_parts::nets::{NetEntry, NetParts};
use wire_parts::special_nets::SpecialNetParts;

/// Puts the parts that a net draws, and gives the length of its wires.
fn put_net<'a, 'l: 'a, 'r: 'a, 't: 'a, A: Allocator + Copy>(
    wires: &DesignWires<'a, 'l, 'r, 't, A>,
    parts: &NetParts<'_>,
    walk: &mut PartWalk<'_, '_, A>,
    nets: &mut NetList<'_, A>,
) -> Result<u64, AllocError>
    requires { 0 < length nets.old }
    ensures ok { OnOk result (nets.new ≡ with_parts (parts_drawn walk.old.layers.layers (wired_net wires.now.library wires.now.design (scale wires.now.design) (net_view parts.now))) nets.old) }
    ensures net { OnOk result (0 < length nets.new) }
    ensures same { OnOk result (walk.new.layers ≡ walk.old.layers) }
    ensures length { IfOk result (λ n. n ≡ capped (wired_length (wired_net wires.now.library wires.now.design (scale wires.now.design) (net_view parts.now)))) }
{
    walk.is_begun = false;
    let length = put_net_wires(wires, parts, walk, nets)?;
    Ok(length)
}

/// Puts the parts that a special net draws: those of its wires, and then those of its clauses. It gives the length of its wires;
/// what its clauses draw has none.
fn put_special_net<'p, 'a, 'l: 'a, 'r: 'a, 't: 'a, A: Allocator + Copy>(
    wires: &DesignWires<'a, 'l, 'r, 't, A>,
    parts: &SpecialNetParts<'p>,
    walk: &mut PartWalk<'_, '_, A>,
    nets: &mut NetList<'_, A>,
) -> Result<u64, AllocError>
    requires { 0 < length nets.old }
    ensures ok { OnOk result (nets.new ≡ with_parts (parts_drawn walk.old.layers.layers (wired_special wires.now.library wires.now.design (scale wires.now.design) (special_net_view parts.now))) nets.old) }
    ensures net { OnOk result (0 < length nets.new) }
    ensures same { OnOk result (walk.new.layers ≡ walk.old.layers) }
    ensures length { IfOk result (λ n. n ≡ capped (wired_length (wired_special wires.now.library wires.now.design (scale wires.now.design) (special_net_view parts.now)))) }
{
    walk.is_begun = false;
    let length = put_special_wires(wires, parts, walk, nets)?;
    put_clauses(wires, parts.clauses.again(), walk, nets)?;
    Ok(length)
}

/// Puts the parts that an entry of NETS draws, and gives the length of its wires. One of MUSTJOIN draws none.
fn put_net_entry<'a, 'l: 'a, 'r: 'a, 't: 'a, A: Allocator + Copy>(
    wires: &DesignWires<'a, 'l, 'r, 't, A>,
    entry: &NetEntry<'_>,
    walk: &mut PartWalk<'_, '_, A>,
    nets: &mut NetList<'_, A>,
) -> Result<u64, AllocError>
    requires { 0 < length nets.old }
    ensures ok { OnOk result (nets.new ≡ with_parts (parts_if walk.old.layers.layers (wired_of wires.now.library wires.now.design (scale wires.now.design) (net (net_entry_view entry.now)))) nets.old) }
    ensures net { OnOk result (0 < length nets.new) }
    ensures same { OnOk result (walk.new.layers ≡ walk.old.layers) }
    ensures length { IfOk result (λ n. n ≡ capped (length_if (wired_of wires.now.library wires.now.design (scale wires.now.design) (net (net_entry_view entry.now))))) }
{
    match entry {
        NetEntry::MustJoin(_) => Ok(0),
        NetEntry::Net(parts) => put_net(wires, parts, walk, nets),
    }
}

/// Puts the parts that an entry draws, if it is one of NETS or SPECIALNETS, and gives the length of its wires.
fn put_entry<'a, 'l: 'a, 'r: 'a, 't: 'a, A: Allocator + Copy>(
    wires: &DesignWires<'a, 'l, 'r, 't, A>,
    entry: &Entry<'_>,
    walk: &mut PartWalk<'_, '_, A>,
    nets: &mut NetList<'_, A>,
) -> Result<u64, AllocError>
    requires { 0 < length nets.old }
    ensures ok { OnOk result (nets.new ≡ with_parts (parts_if walk.old.layers.layers (wired_of wires.now.library wires.now.design (scale wires.now.design) (entry_view entry.now))) nets.old) }
    ensures net { OnOk result (0 < length nets.new) }
    ensures same { OnOk result (walk.new.layers ≡ walk.old.layers) }
    ensures length { IfOk result (λ n. n ≡ capped (length_if (wired_of wires.now.library wires.now.design (scale wires.now.design) (entry_view entry.now)))) }
{
    match entry {
        Entry::Net(net) => put_net_entry(wires, net, walk, nets),
        Entry::SpecialNet(parts) => put_special_net(wires, parts, walk, nets),
        _ => Ok(0),
    }
}

/// Puts the parts that entries of a net draw behind those of the last net, and gives the length of their wires in database units:
/// 2^64 - 1 where it is more.
pub fn put_drawn<'a, 'l: 'a, 'r: 'a, 't: 'a, A: Allocator + Copy>(
    wires: &DesignWires<'a, 'l, 'r, 't, A>,
    entries: &[LentEntry<'_, '_>],
    walk: &mut PartWalk<'_, '_, A>,
    nets: &mut NetList<'_, A>,
) -> Result<u64, AllocError>
    requires library { walk.old.layers ≡ wires.now.library }
    requires net { 0 < length nets.old }
    ensures ok { let design = wires.now.design in OnOk result (nets.new ≡ with_parts (drawn_parts walk.old.layers.layers (filter_map (wired_of walk.old.layers design (scale design)) (map entry_lent entries.now))) nets.old) }
    ensures net { OnOk result (0 < length nets.new) }
    ensures same { OnOk result (walk.new.layers ≡ walk.old.layers) }
    ensures length { let design = wires.now.design in IfOk result (λ n. n ≡ capped (sum_by wired_length (filter_map (wired_of walk.old.layers design (scale design)) (map entry_lent entries.now)))) }
{
    let mut length: u64 = 0;
    for lent in entries {
        let more = put_entry(wires, lent.entry, walk, nets)?;
        length = length.saturating_add(more);
    }
    Ok(length)
}
