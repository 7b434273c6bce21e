//! Laws of what is measured of a design of which some nets or a component are exchanged: lengths, boxes, and the cells of its grid.
//!
//! Each law is an empty function that ensures it; call it to use it. Which nets an edit exchanges is told by `net_laws`.
#![tactic(auto)]

ghost use Rattle.measuring_laws.specs.Measuring.{LengthsAreTold, OthersLeaveCells, ToldCellsFollow, ToldMeasuresFollow};

use net_laws::{nets_are_told, one_net_is_told, told_nets_are_exchanged};

/// A net is as long in designs that agree on its entries, and on what any net may be made of, whatever pins they have.
pub fn lengths_are_told()
    ensures { LengthsAreTold }
{}

/// Where designs agree apart from some nets that few statements tell in both, the others keep what is measured of them.
pub fn told_measures_follow()
    ensures { ToldMeasuresFollow }
{
    nets_are_told();
    one_net_is_told();
    told_nets_are_exchanged();
}

/// Designs of one scale that agree on the statements of the grid and on components, but for those of one name, have the same cells, and the
/// same boxes in them but for that one's.
pub fn told_cells_follow()
    ensures { ToldCellsFollow }
{}

/// An exchange of other statements leaves these.
pub fn others_leave_cells()
    ensures { OthersLeaveCells }
{}
