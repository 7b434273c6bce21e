//! Laws of the tokens of a text.

ghost use Rattle.lefdef_tokens.specs.Laws.{TokensAreSlices, TokensJoin, TokensMove};
ghost use Rattle.lefdef_tokens.specs.RunLaws.{TokensOfRuns};

/// The tokens of one text after another are those of the first and then those of the second.
pub fn tokens_join()
    ensures { TokensJoin }
{}

/// What is read doesn't depend on where it stands, but for the places.
pub fn tokens_move()
    ensures { TokensMove }
{}

/// The tokens stand in the text in order and apart, and their bytes are slices of it.
pub fn tokens_are_slices()
    ensures { TokensAreSlices }
{}

/// A token of a run is the slice of its text at its place.
pub fn tokens_of_runs()
    ensures { TokensOfRuns }
{}
