//! Laws of the lines that one component of a list takes with it.

ghost use Rattle.design_rules.specs.Boxes.{Boxed};
ghost use Rattle.line_laws.specs.OneLaws.{ComponentsInAnyOrder, DesignHasComponentLines, OneComponentTakesItsLines, OneTakesItsLines};

/// The lines of all pairs are those of one component with the others, and those of the others.
pub fn one_takes_its_lines()
    ensures { OneTakesItsLines Boxed }
{}

/// The lines on overlaps and on places are those of one component, and those of the others.
pub fn one_component_takes_its_lines()
    ensures { OneComponentTakesItsLines }
{}

/// The lines of a design on overlaps and on places are those on its components.
pub fn design_has_component_lines()
    ensures { DesignHasComponentLines }
{}

/// The lines of a design on overlaps and on places can be made of its components in any order, part by part.
pub fn components_in_any_order()
    ensures { ComponentsInAnyOrder }
{}
