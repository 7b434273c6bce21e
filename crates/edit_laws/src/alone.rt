//! Laws of an entry's own bytes.

ghost use Rattle.edit_laws.specs.AloneLaws.{EntriesStandAlone};

use splicing_laws::slicing::runs_are_texts;

/// An entry that is found in a text that reads is read from its own bytes as it is in the text.
pub fn entries_stand_alone()
    ensures { EntriesStandAlone }
{
    runs_are_texts();
}
