//! Laws of lists of texts in the order of their bytes.

ghost use Rattle.line_laws.specs.SortingLaws.{SameLinesSortAlike, SortingIsByLines};

/// The sorted list has the same lines, in order, and lists with the same lines give the same.
pub fn sorting_is_by_lines()
    ensures { SortingIsByLines }
{}

/// Lists that have each line as often, in whatever order, give the same sorted list.
pub fn same_lines_sort_alike()
    ensures { SameLinesSortAlike }
{}
