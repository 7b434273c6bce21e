//! Laws of placing a component, unplacing it, and giving it another macro: each is a change of its entry.

ghost use Rattle.edit_laws.specs.PlacingLaws.{
  PlacedComponentsFit,
  PlacementsAreTokens,
  PlacingsAreChanges,
  RemasteringsAreChanges,
  UnplacingsAreChanges,
};

use splicing_laws::putting::{
    printed_numbers_are_read, printed_numbers_are_words, spaced_are_tokens,
};

/// The bytes of a placement are its tokens.
pub fn placements_are_tokens()
    ensures { PlacementsAreTokens }
{
    spaced_are_tokens();
    printed_numbers_are_words();
}

/// A component that fits its form does so with a placement within the limits of a text.
pub fn placed_components_fit()
    ensures { PlacedComponentsFit }
{
    printed_numbers_are_words();
    printed_numbers_are_read();
}

/// Placing a component is a change of its entry.
pub fn placings_are_changes()
    ensures { PlacingsAreChanges }
{
    placements_are_tokens();
    placed_components_fit();
}

/// Unplacing a component is no change, and it stays, or one of its entry.
pub fn unplacings_are_changes()
    ensures { UnplacingsAreChanges }
{
    spaced_are_tokens();
}

/// Giving a component another macro is a change of its entry.
pub fn remasterings_are_changes()
    ensures { RemasteringsAreChanges }
{
    spaced_are_tokens();
}
