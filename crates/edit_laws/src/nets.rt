//! Laws of edits of a net: each has a plan for the edited design.

ghost use Rattle.edit_laws.specs.NetLaws.{EntriesAreFound, NetEntriesAreEdited, NetPlansAreMade};

use crate::entries::{entries_are_written, one_is_edited};
use crate::statements::same_keys_are_once;
use splicing_laws::putting::spaced_are_tokens;
use splicing_laws::splicing::tokens_are_put;

/// The entry that is found by its section and its name stands among the statements, in that section and with that name.
pub fn entries_are_found()
    ensures { EntriesAreFound }
{}

/// An edit of a net that isn't refused makes its entry the edited one.
pub fn net_entries_are_edited()
    ensures { NetEntriesAreEdited }
{
    spaced_are_tokens();
    tokens_are_put();
}

/// The plan of an edit of a net is one for the edited design.
pub fn net_plans_are_made()
    ensures { NetPlansAreMade }
{
    entries_are_found();
    entries_are_written();
    one_is_edited();
    same_keys_are_once();
    net_entries_are_edited();
}
