//! Laws of entries, whatever edit asks for a change of one.

ghost use Rattle.edit_laws.specs.EntryLaws.{EntriesAreWritten, OneIsEdited};

/// An entry of a text that reads is spelled with its words, fits its form, and has no invalid number.
pub fn entries_are_written()
    ensures { EntriesAreWritten }
{}

/// A name stands once in its section: an edit of all entries that leaves those of other names is the change of one.
pub fn one_is_edited()
    ensures { OneIsEdited }
{}
