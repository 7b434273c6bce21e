//! Laws of edits that put an entry into a section or take it out: each has a plan for the edited design.

ghost use Rattle.edit_laws.specs.SectionLaws.{SectionPlansAreMade};

use crate::components::components_are_found;
use crate::entries::entries_are_written;
use splicing_laws::putting::{
    printed_numbers_are_read, printed_numbers_are_words, spaced_are_tokens,
};
use splicing_laws::splicing::tokens_are_put;

/// The plan of such an edit is one for the edited design.
pub fn section_plans_are_made()
    ensures { SectionPlansAreMade }
{
    spaced_are_tokens();
    tokens_are_put();
    printed_numbers_are_words();
    printed_numbers_are_read();
    components_are_found();
    entries_are_written();
}
