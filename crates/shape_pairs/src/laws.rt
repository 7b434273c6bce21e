//! Laws of the pairs that meet.

ghost use Rattle.shape_pairs.specs.PairLaws.{MeetingPairsHaveTheLines, PairsOfMapped, SamePairsHaveTheLines};
ghost use Rattle.shape_pairs.specs.declared.pairs.Numbered.{Numbered};

/// The lines of all pairs are those of the pairs that meet, where others have none.
pub fn meeting_pairs_have_the_lines<T>()
    ensures { MeetingPairsHaveTheLines T }
{}

/// So they are those of the same pairs in any order.
pub fn same_pairs_have_the_lines<T>()
    ensures { SamePairsHaveTheLines T }
{}

/// The pairs of what a function gives of things are what it gives of the pairs.
pub fn pairs_of_mapped<T>()
    ensures { PairsOfMapped T Numbered }
{}
