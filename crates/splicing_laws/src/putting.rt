//! Laws of the bytes that are put: words with a space between each two, and printed numbers among them.

ghost use Rattle.splicing_laws.specs.WordLaws.{PrintedNumbersAreRead, PrintedNumbersAreWords, SpacedAreTokens};

/// White space and then words with a space between each two are these words as tokens.
pub fn spaced_are_tokens()
    ensures { SpacedAreTokens }
{}

/// A printed number is one word, and can stand in the place of a number.
pub fn printed_numbers_are_words()
    ensures { PrintedNumbersAreWords }
{}

/// A printed number within the limits of a text reads as itself.
pub fn printed_numbers_are_read()
    ensures { PrintedNumbersAreRead }
{}
