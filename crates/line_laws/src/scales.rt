//! Laws of database units.

ghost use Rattle.line_laws.specs.ScaleLaws.{ScalesAreGood};

/// A text that reads has at least 1 and at most 100000 database units per micron.
pub fn scales_are_good()
    ensures { ScalesAreGood }
{}
