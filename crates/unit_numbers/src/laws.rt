//! Laws of the definitions.

ghost use Rattle.unit_numbers.specs.Laws.{FewDigitsAreWhole, NearestIsUnique};

/// Each distance has exactly one nearest number of database units.
pub fn nearest_is_unique()
    ensures { NearestIsUnique }
{}

/// One to nine digits are a whole number.
pub fn few_digits_are_whole()
    ensures { FewDigitsAreWhole }
{}
