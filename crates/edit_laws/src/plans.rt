//! Laws of plans, whatever edit has the plan.

ghost use Rattle.edit_laws.specs.PlanLaws.{PlansAreApplied, PlansStandInOrder};

use crate::statements::{changes_stand_in_order, statements_are_changed};

/// A text that reads, with the cuts of an accepted plan made, reads as the design that its changes make.
pub fn plans_are_applied()
    ensures { PlansAreApplied }
{
    statements_are_changed();
}

/// The changes of a plan that isn't refused for a reason of its own lie within their statements, and their cuts stand in order
/// within the text.
pub fn plans_stand_in_order()
    ensures { PlansStandInOrder }
{
    changes_stand_in_order();
}
