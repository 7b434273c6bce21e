//! The entries of a design by their nets.

ghost use Rattle.std.specs.Prelude.{◌≡◌, [], IfOk, OnOk, map};
ghost use Rattle.def_reader.specs.EntryViews.{entry_view};
ghost use Rattle.def_reader.specs.StatementViews.{records_view};
ghost use Rattle.connection_rules.specs.NetParts.{wired_of};
ghost use Rattle.net_entries.specs.NetEntries.{HasEntries, wired_group, with_wired};
ghost use Rattle.net_entries.specs.Places.{group_names};

use crate::lent_entry::LentEntry;
use crate::net_groups::NetGroups;
use crate::net_names::net_name;
use crate::net_places::NetPlaces;
use def_reader::entry::Entry;
use def_reader::statement::Statement;
use std::alloc::{AllocError, Allocator};

/// Puts an entry behind those of its net, if it speaks of one. The places are those of the groups.
fn add_entry<'r, 't, P: NetPlaces, A: Allocator + Copy>(
    groups: &mut NetGroups<'r, 't, A>,
    places: &mut P,
    entry: &'r Entry<'t>,
) -> Result<(), AllocError>
    requires { P.names places.old ≡ group_names groups.old }
    ensures wired { OnOk result ((library : _) (design : _) (u : _) → map (wired_group library design u) groups.new ≡ with_wired (wired_of library design u (entry_view entry.entry.now)) (map (wired_group library design u) groups.old)) }
    ensures names { OnOk result (P.names places.new ≡ group_names groups.new) }
{
    if let Some(name) = net_name(entry) {
        let place = places.place_of(name)?;
        groups.add_at(place, name, LentEntry { entry })?;
    }
    Ok(())
}

/// The entries of NETS and of SPECIALNETS by the names of their nets, in the order of the text. Each net stands at the place that its
/// name has among the places.
pub fn entries_by_net<'r, 't, P: NetPlaces, A: Allocator + Copy>(
    alloc: A,
    records: &'r [Statement<'t>],
    places: &mut P,
) -> Result<NetGroups<'r, 't, A>, AllocError>
    requires { P.names places.old ≡ [] }
    ensures entries { IfOk result (λ groups. HasEntries groups (records_view records.entry.now)) }
    ensures names { IfOk result (λ groups. P.names places.new ≡ group_names groups) }
{
    let mut groups = NetGroups::new(alloc);
    for statement in records {
        if let Statement::Entry(entry) = statement {
            add_entry(&mut groups, places, entry)?;
        }
    }
    Ok(groups)
}
