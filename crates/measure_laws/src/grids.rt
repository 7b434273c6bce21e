//! Laws of the lines of a grid and of its cells.

ghost use Rattle.measure_laws.specs.CellLaws.{CellsOfAGridAddUp, DensitiesOfAGridAddUp};
ghost use Rattle.measure_laws.specs.LineLaws.{LinesAreInOrder, NeighboursAreNext, OrderIsOne, SameByMembers};

/// Lines in order rise strictly, and are the lines that there were.
pub fn lines_are_in_order()
    ensures { LinesAreInOrder }
{}

/// Lines that rise strictly, and are the same lines, are these in order.
pub fn order_is_one()
    ensures { OrderIsOne }
{}

/// Lines are the same just where each of the first is among the others, and the other way round.
pub fn same_by_members()
    ensures { SameByMembers }
{}

/// The neighbours of a number are the line of that number and the next one, where there are both.
pub fn neighbours_are_next()
    ensures { NeighboursAreNext }
{}

/// What a rectangle that lies among lines has in common with their cells is its area.
pub fn cells_of_a_grid_add_up()
    ensures { CellsOfAGridAddUp }
{}

/// The densities of all cells on a layer are the areas of the shapes on it, where all of them lie among the lines.
pub fn densities_of_a_grid_add_up()
    ensures { DensitiesOfAGridAddUp }
{}
