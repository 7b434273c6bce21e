//! How many database units a micron has (LEF/DEF 5.8 Language Reference, "Units").

ghost use Rattle.std.specs.Prelude.{◌≡◌};
ghost use Rattle.design_rules.specs.Boxes.{scale};
ghost use Rattle.def_reader.specs.StatementViews.{records_view};

use def_parts::number::int_of;
use def_reader::statement::Statement;

/// Database units per micron: those of `UNITS`.
pub fn scale_of(records: &[Statement<'_>]) -> u32
    ensures { result ≡ scale (records_view records.now) }
{
    for statement in records {
        if let Statement::Units(number) = statement {
            return int_of(number.bytes).unsigned_abs();
        }
    }
    1
}
