//! Laws of reading whole texts.

ghost use Rattle.statement_reader.specs.ReadingLaws.{FaultsStop, RepeatsStop, ReadingGoesOn, ReadingEnds, RecordsAreRead, RecordsAreLocated};

use crate::grammar::Statement;

/// What reading a text gives, by its next statement and what is left after it: its fault, a repeat, its record and then
/// those of what is left, or the end of the text.
pub fn reading_goes_on<'t, S: Statement<'t>>()
    ensures fault { FaultsStop S.grammar }
    ensures repeats { RepeatsStop S.grammar }
    ensures goes_on { ReadingGoesOn S.grammar }
    ensures ends { ReadingEnds S.grammar }
{}

/// The records of a text that reads are what its statements say, one after the other.
pub fn records_are_read<'t, S: Statement<'t>>()
    ensures read { RecordsAreRead S.grammar }
    ensures located { RecordsAreLocated S.grammar }
{}
