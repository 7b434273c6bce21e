//! What the pieces of entries are by the rules of a design.

ghost use Rattle.wire_reading.specs.PiecesBy.{NetPiecesOfDesign, SpecialNetPiecesOfDesign};

/// By the rules of a design the pieces of its entries are those that its wires have.
pub fn pieces_of_design()
    ensures nets { NetPiecesOfDesign }
    ensures special_nets { SpecialNetPiecesOfDesign }
{}
