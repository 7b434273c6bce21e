//! Laws of the bytes of tokens in a row.

ghost use Rattle.splicing_laws.specs.SliceLaws.{RunsAreTexts};

/// Tokens in a row are those of their own bytes, but for the places.
pub fn runs_are_texts()
    ensures { RunsAreTexts }
{}
