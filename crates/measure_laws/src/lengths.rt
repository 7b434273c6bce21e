//! Laws of the lengths of nets.

ghost use Rattle.measure_laws.specs.LengthLaws.{LengthsFit, NoneIsLonger, TotalIsOfAllEntries};

use statement_laws::forms::def_forms_are_spelled;

/// The lengths of all nets together are those of all entries.
pub fn total_is_of_all_entries()
    ensures { TotalIsOfAllEntries }
{}

/// The entries of a name, whether it is a net's or not, are at most as long as all nets together.
pub fn none_is_longer()
    ensures { NoneIsLonger }
{}

/// The lengths of all nets of a DEF text that reads fit a `u64` together, whatever the library and the units.
pub fn lengths_fit()
    ensures { LengthsFit }
{
    def_forms_are_spelled();
}
