//! Laws of reading whole texts.

ghost use Rattle.lef_reader.specs.Events.{EndIsOfText, FaultIsOfText, RecordsAreGiven};

use crate::statement::LefStatement;
use statement_reader::laws::{reading_goes_on, records_are_read};

/// The records of a text that reads are what `LefEvents` gives, one after the other, and then the end.
pub fn records_are_given()
    ensures { RecordsAreGiven }
{
    records_are_read::<LefStatement<'_>>();
}

/// Where `LefEvents` comes to the end, the text reads as what it gave; where it comes to a fault, that is the text's.
pub fn events_are_of_the_text()
    ensures end { EndIsOfText }
    ensures fault { FaultIsOfText }
{
    reading_goes_on::<LefStatement<'_>>();
}
