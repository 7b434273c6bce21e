//! Which nets are of power (LEF/DEF 5.8 Language Reference, "Nets" and "Special Nets").

ghost use Rattle.std.specs.Prelude.{◌≡◌, Some, map};
ghost use Rattle.std.specs.List.{filter_map, list_any};
ghost use Rattle.std.specs.Option.{option_map};
ghost use Rattle.lefdef_tokens.specs.Views.{word_view};
ghost use Rattle.form_meanings.specs.Firsts.{first_of};
ghost use Rattle.wire_parts.specs.NetViews.{net_clauses_of};
ghost use Rattle.wire_parts.specs.SpecialNetViews.{special_clauses_of};
ghost use Rattle.def_reader.specs.EntryViews.{entry_view};
ghost use Rattle.connection_rules.specs.NetParts.{Wired, is_power_use, use_of_clause, use_of_special, wired_of};
ghost use Rattle.net_entries.specs.NetEntries.{entry_lent, says_power};

use crate::lent_entry::LentEntry;
use def_reader::entry::Entry;
use lefdef_tokens::is_word;
use statement_reader::parts::Parts;
use wire_parts::nets::{NetClause, NetEntry};
use wire_parts::special_nets::SpecialClause;

/// Whether a net of this use is of power.
fn is_power_use(word: Option<&[u8]>) -> bool
    ensures { result ≡ is_power_use (option_map word_view word.entry) }
{
    match word {
        Some(word) => is_word(word, b"POWER") || is_word(word, b"GROUND"),
        None => false,
    }
}

/// The use that the first such clause of an entry of NETS names.
fn net_use<'t>(clauses: Parts<'t, NetClause<'t>>) -> Option<&'t [u8]>
    ensures { option_map word_view result ≡ first_of use_of_clause (net_clauses_of clauses.entry) }
{
    let mut left = clauses;
    while let Some(clause) = left.next() {
        if let NetClause::Use(word) = clause {
            return Some(word.bytes);
        }
    }
    None
}

/// That of an entry of SPECIALNETS.
fn special_use<'t>(clauses: Parts<'t, SpecialClause<'t>>) -> Option<&'t [u8]>
    ensures { option_map word_view result ≡ first_of use_of_special (special_clauses_of clauses.entry) }
{
    let mut left = clauses;
    while let Some(clause) = left.next() {
        if let SpecialClause::Use(word) = clause {
            return Some(word.bytes);
        }
    }
    None
}

/// Whether an entry speaks of a net and says that it is of power.
fn says_power(entry: &Entry<'_>) -> bool
    ensures { (library : _) (design : _) (u : _) → result ≡ says_power (wired_of library design u (entry_view entry.now)) }
{
    match entry {
        Entry::Net(NetEntry::Net(net)) => is_power_use(net_use(net.clauses.again())),
        Entry::SpecialNet(net) => is_power_use(special_use(net.clauses.again())),
        _ => false,
    }
}

/// Whether one of these entries of a net says that it is of power.
pub fn is_power(entries: &[LentEntry<'_, '_>]) -> bool
    ensures { (library : _) (design : _) (u : _) → result ≡ list_any (λ (w : Wired). w.is_power) (filter_map (wired_of library design u) (map entry_lent entries.now)) }
{
    for lent in entries {
        if says_power(lent.entry) {
            return true;
        }
    }
    false
}
