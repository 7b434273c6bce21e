//! Names of nets in the statements of a text (LEF/DEF 5.8 Language Reference, "Nets" and "Special Nets").

ghost use Rattle.std.specs.Prelude.{◌≡◌};
ghost use Rattle.std.specs.Option.{option_map};
ghost use Rattle.lefdef_tokens.specs.Views.{word_view};
ghost use Rattle.def_reader.specs.EntryViews.{entry_view};
ghost use Rattle.connection_rules.specs.NetParts.{wired_of};
ghost use Rattle.net_entries.specs.NetEntries.{wired_name};

use def_reader::entry::Entry;
use wire_parts::nets::NetEntry;

/// The name of the net that an entry of NETS or SPECIALNETS speaks of.
pub(crate) fn net_name<'t>(entry: &Entry<'t>) -> Option<&'t [u8]>
    ensures { (library : _) (design : _) (u : _) → option_map word_view result ≡ option_map wired_name (wired_of library design u (entry_view entry.now)) }
{
    match entry {
        Entry::Net(NetEntry::Net(net)) => Some(net.name.bytes),
        Entry::SpecialNet(net) => Some(net.name.bytes),
        _ => None,
    }
}
