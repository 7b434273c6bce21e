//! Laws of lines and of things without their order.

ghost use Rattle.design_rules.specs.Boxes.{Boxed};
ghost use Rattle.line_laws.specs.SameLaws.{LinesAreTheirOwn, MapsAreSame, PartsTurn, PermutationsAreSame, SameLinesAppend, SameLinesChain, SameLinesTurn};

/// Each list has the lines that it has.
pub fn lines_are_their_own()
    ensures { LinesAreTheirOwn }
{}

/// Which of two lists with the same lines comes first makes no difference.
pub fn same_lines_turn()
    ensures { SameLinesTurn }
{}

/// Lists with the lines of one have the same lines.
pub fn same_lines_chain()
    ensures { SameLinesChain }
{}

/// Two lists with the same lines, each put before such a one, have the same lines.
pub fn same_lines_append()
    ensures { SameLinesAppend }
{}

/// Which of two parts of a list comes first makes no difference to its lines.
pub fn parts_turn()
    ensures { PartsTurn }
{}

/// A permutation has the same things.
pub fn permutations_are_same<T>()
    ensures { PermutationsAreSame T }
{}

/// The components that a function gives of the same things are the same.
pub fn maps_are_same<T>()
    ensures { MapsAreSame T Boxed }
{}
