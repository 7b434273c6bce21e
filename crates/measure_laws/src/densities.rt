//! Laws of densities.

ghost use Rattle.measure_laws.specs.DensityLaws.{AddedShapesAddTheirAreas, CommonIsInTheCell, DensitiesAddUp, DensitiesAreWithin};

/// A shape that is added at the end adds the area that it has on the layer in the cell.
pub fn added_shapes_add_their_areas()
    ensures { AddedShapesAddTheirAreas }
{}

/// The density of shapes and then more is that of the first and that of the others.
pub fn densities_add_up()
    ensures { DensitiesAddUp }
{}

/// What a rectangle has in common with a cell is no more than the cell.
pub fn common_is_in_the_cell()
    ensures { CommonIsInTheCell }
{}

/// Shapes have at most the area of the cell each.
pub fn densities_are_within()
    ensures { DensitiesAreWithin }
{}
