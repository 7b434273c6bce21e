//! Laws of edits of a component: each has a plan for the edited design.

ghost use Rattle.edit_laws.specs.ComponentLaws.{ComponentPlansAreMade, ComponentsAreFound};

use crate::entries::{entries_are_written, one_is_edited};
use crate::placing::{placings_are_changes, remasterings_are_changes, unplacings_are_changes};
use crate::statements::same_keys_are_once;

/// The component that is found by its name stands among the statements, and has that name.
pub fn components_are_found()
    ensures { ComponentsAreFound }
{}

/// The plan of an edit of a component is one for the edited design.
pub fn component_plans_are_made()
    ensures { ComponentPlansAreMade }
{
    components_are_found();
    entries_are_written();
    one_is_edited();
    same_keys_are_once();
    placings_are_changes();
    unplacings_are_changes();
    remasterings_are_changes();
}
