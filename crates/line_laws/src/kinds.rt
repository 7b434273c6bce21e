//! Laws of the kinds of lines.

ghost use Rattle.line_laws.specs.KindLaws.{KindsAreTold};

/// A text is a line of one kind at most.
pub fn kinds_are_told()
    ensures { KindsAreTold }
{}
