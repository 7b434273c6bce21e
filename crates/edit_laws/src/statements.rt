//! Laws of changes of statements, whatever edit asks for them.

ghost use Rattle.edit_laws.specs.StatementLaws.{ChangesStandInOrder, SameKeysAreOnce, StatementsAreChanged};

use splicing_laws::splicing::{tokens_are_put, tokens_begin, tokens_end};

/// From any place of a text on: with the cuts of changes of statements made, the text reads as the records that they make.
pub fn statements_are_changed()
    ensures { StatementsAreChanged }
{
    tokens_begin();
    tokens_end();
    tokens_are_put();
}

/// The cuts of changes of statements stand in order within the text.
pub fn changes_stand_in_order()
    ensures { ChangesStandInOrder }
{
    tokens_begin();
    tokens_end();
    tokens_are_put();
}

/// Where the keys of what is read stay, none stands twice.
pub fn same_keys_are_once()
    ensures { SameKeysAreOnce }
{}
