//! Laws of the least rectangle round others.

ghost use Rattle.measure_laws.specs.BoxLaws.{ABoxIsTheLeast, BoxesGrow, NoRectanglesNoBox};

/// The box round rectangles holds all of them, and lies in each rectangle that does.
pub fn a_box_is_the_least()
    ensures { ABoxIsTheLeast }
{}

/// Just where there is no rectangle there is no box.
pub fn no_rectangles_no_box()
    ensures { NoRectanglesNoBox }
{}

/// The box round rectangles and one more is the box round that one and theirs.
pub fn boxes_grow()
    ensures { BoxesGrow }
{}
