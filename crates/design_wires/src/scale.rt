//! How many database units a micron has (LEF/DEF 5.8 Language Reference, "Units").

ghost use Rattle.std.specs.Prelude.{◌≡◌, ◌<◌, ◌≤◌};
ghost use Rattle.std.specs.Option.{option_map};
ghost use Rattle.def_reader.specs.StatementViews.{records_view};
ghost use Rattle.design_rules.specs.Boxes.{scale};
ghost use Rattle.design_wires.specs.ScaleRange.{if_in_range};

use def_parts::number::int_of;
use def_reader::statement::Statement;

/// Database units per micron, of which there are 1 to 100000.
#[derive(Clone, Copy)]
pub struct Scale {
    per_micron: u32,
    ghost some: { 0 < per_micron },
    ghost few: { per_micron ≤ 100000 },
}

/// How many database units a micron has in a design: those of its `UNITS`, and 1 without them.
fn per_micron_of(records: &[Statement<'_>]) -> u32
    ensures { result ≡ scale (records_view records.now) }
{
    for statement in records {
        if let Statement::Units(number) = statement {
            return int_of(number.bytes).unsigned_abs();
        }
    }
    1
}

impl Scale {
    /// That of a design, which a text that reads has in range.
    pub fn of(records: &[Statement<'_>]) -> Scale
        requires some { 0 < scale (records_view records.now) }
        requires few { scale (records_view records.now) ≤ 100000 }
        ensures { result.per_micron ≡ scale (records_view records.now) }
    {
        let per_micron = per_micron_of(records);
        Scale { per_micron }
    }

    /// So many database units per micron, unless there are none or too many.
    pub fn new(per_micron: u32) -> Option<Scale>
        ensures { option_map (λ s. s.per_micron) result ≡ if_in_range per_micron }
    {
        if 1 <= per_micron && per_micron <= 100000 {
            Some(Scale { per_micron })
        } else {
            None
        }
    }

    /// How many there are.
    pub fn per_micron(self) -> u32
        ensures is { result ≡ self.per_micron }
        ensures some { 0 < result }
        ensures few { result ≤ 100000 }
    {
        self.per_micron
    }
}
