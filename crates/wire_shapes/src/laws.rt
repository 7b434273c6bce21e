//! Laws of the definitions.

ghost use Rattle.wire_rules.specs.Paths.{PiecesJoin, WireMakings};
ghost use Rattle.wire_shapes.specs.Laws.{LinesOfPlaces, SegmentHoldsItsEnds, TurningViasBack};

/// The rectangle of a wire between two points holds both.
pub fn segment_holds_its_ends()
    ensures { SegmentHoldsItsEnds }
{}

/// Turning the shapes of a via by an orientation and then by its inverse gives them back.
pub fn turning_vias_back()
    ensures { TurningViasBack }
{}

/// A place of a line of vias is as many steps from the first as there are places before it.
pub fn lines_of_places()
    ensures { LinesOfPlaces }
{}

/// The pieces of a path are those of its front, and then, from the place and the layer that this reaches, those of the rest.
pub fn pieces_join()
    ensures { (rules : WireMakings) → PiecesJoin rules }
{}
