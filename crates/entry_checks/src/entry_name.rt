//! The name of an entry, as lines have it.

ghost use Rattle.std.specs.Prelude.{◌≡◌};
ghost use Rattle.def_grammar.specs.Records.{name_of};
ghost use Rattle.def_reader.specs.EntryViews.{entry_view};
ghost use Rattle.entry_rules.specs.Unknown.{name_or_dash};

use def_reader::entry::Entry;

/// The name of an entry, or `-` where it has none.
pub(crate) fn name_or_dash<'t>(entry: &Entry<'t>) -> &'t [u8]
    ensures { result.now ≡ name_or_dash (name_of (entry_view entry.now)) }
{
    match entry.name() {
        Some(name) => name,
        None => b"-",
    }
}
