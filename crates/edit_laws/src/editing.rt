//! Laws of edits.

ghost use Rattle.edit_laws.specs.EditLaws.{EditsAreApplied, EditsKeepTheRest, EditsStandInOrder};

use crate::components::component_plans_are_made;
use crate::nets::net_plans_are_made;
use crate::plans::{plans_are_applied, plans_stand_in_order};
use crate::sections::section_plans_are_made;

/// A text that reads, with the cuts of an accepted edit made, reads as the edited design.
pub fn edits_are_applied()
    ensures { EditsAreApplied }
{
    component_plans_are_made();
    net_plans_are_made();
    section_plans_are_made();
    plans_are_applied();
}

/// The changes of an edit that isn't refused for a reason of its own lie within their statements, and their cuts stand in
/// order within the text.
pub fn edits_stand_in_order()
    ensures { EditsStandInOrder }
{
    component_plans_are_made();
    net_plans_are_made();
    section_plans_are_made();
    plans_stand_in_order();
}

/// The cuts of an accepted edit of a text that reads stand in order within the text: the bytes around them stay.
pub fn edits_keep_the_rest()
    ensures { EditsKeepTheRest }
{
    edits_stand_in_order();
}
