//! Laws of the bytes that a cut keeps.

ghost use Rattle.splicing_laws.specs.KeepingLaws.{OneCutKeepsTheRest};

/// One cut within a text keeps the bytes before it and after it.
pub fn one_cut_keeps_the_rest()
    ensures { OneCutKeepsTheRest }
{}
