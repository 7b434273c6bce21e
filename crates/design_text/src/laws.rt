//! Laws of a text that reads.

ghost use Rattle.design_text.specs.NamedEntries.{NamedOnce};

use def_reader::statement::Statement;
use piece_laws::keys::{fresh_is_once, keys_are_apart};
use statement_reader::laws::records_are_read;

/// An entry of a section that has a name is the only one.
pub fn named_once()
    ensures { NamedOnce }
{
    records_are_read::<Statement<'_>>();
    keys_are_apart();
    fresh_is_once();
}
