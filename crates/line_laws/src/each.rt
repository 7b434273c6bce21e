//! Laws of the lines of each component, and of each with each rectangle.

ghost use Rattle.design_model.specs.Geometry.{Rectangle};
ghost use Rattle.design_rules.specs.Boxes.{Boxed};
ghost use Rattle.line_laws.specs.EachLaws.{CrossesAreUnordered, CrossesTurn, EachIsUnordered};

/// The lines of each component don't hang on the order of the components.
pub fn each_is_unordered()
    ensures { EachIsUnordered Boxed }
{}

/// The lines of each component with each rectangle don't hang on the order of either.
pub fn crosses_are_unordered()
    ensures { CrossesAreUnordered Boxed Rectangle }
{}

/// They are the lines of each rectangle with each component.
pub fn crosses_turn()
    ensures { CrossesTurn Boxed Rectangle }
{}
