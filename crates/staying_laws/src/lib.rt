//! Laws of the parts of a report: which of them an edit leaves as they are.
//!
//! Each law is an empty function that ensures it; call it to use it. A report has the lines on headers, single statements and the
//! library (`lines_on_statements` of `specs/Staying`), those on components (`lines_on_places`), and those on nets. The second part follows
//! any exchange of statements that leaves those of what stands round components (`specs/PlaceStatements`), blockages too; the first one
//! follows by `agreement_laws`, and the third by `net_laws`.
#![tactic(auto)]

ghost use Rattle.staying_laws.specs.PlaceStatements.{SurroundingsAreTold, ComponentsAreExchanged};
ghost use Rattle.staying_laws.specs.Staying.{PartsAreAll};

use following_laws::component_lines_follow;

/// The parts of a report are all its lines.
pub fn parts_are_all()
    ensures { PartsAreAll }
{}

/// What stands round components, and what keeps them out, is told by some statements alone: rows, the die, regions, groups, blockages and
/// UNITS.
pub fn surroundings_are_told()
    ensures { SurroundingsAreTold }
{}

/// Where those statements but blockages stay, the lines on components follow an exchange of others by the lines on the components and the
/// blockages among them.
pub fn components_are_exchanged()
    ensures { ComponentsAreExchanged }
{
    component_lines_follow();
}
