//! Laws of the lines of all pairs of things.

ghost use Rattle.design_rules.specs.Boxes.{Boxed};
ghost use Rattle.line_laws.specs.PairLaws.{OverlapLinesAreUnordered, OverlapsAreSymmetric, PairsAreUnordered};

/// The lines of two components don't hang on which is first.
pub fn overlaps_are_symmetric()
    ensures { OverlapsAreSymmetric }
{}

/// The lines of all pairs of boxes, by any comparison of which that is so, don't hang on the order of the boxes.
pub fn pairs_of_boxes_are_unordered()
    ensures { PairsAreUnordered Boxed }
{}

/// The lines on overlaps don't hang on the order of the boxes.
pub fn overlap_lines_are_unordered()
    ensures { OverlapLinesAreUnordered }
{}
