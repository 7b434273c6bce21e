//! Laws of the definitions.

ghost use Rattle.orient_geom.specs.Covering.{CoveredByOne, CoveredBySquares, CoveredWithoutArea};
ghost use Rattle.orient_geom.specs.Laws.{TurningBack, OverlapIsSymmetric, OverlapIsSharedArea};
ghost use Rattle.orient_geom.specs.Meeting.{CommonHasSharedPoints, CommonIsSymmetric, MeetingIsSymmetric, NoneIsApart};

/// Turning by an orientation and then by its inverse gives the rectangle back.
pub fn turning_back()
    ensures { TurningBack }
{}

/// Which of two rectangles comes first makes no difference to whether they overlap.
pub fn overlap_is_symmetric()
    ensures { OverlapIsSymmetric }
{}

/// Two rectangles overlap exactly where some unit square lies in both.
pub fn overlap_is_shared_area()
    ensures { OverlapIsSharedArea }
{}

/// Which of two rectangles comes first makes no difference to whether they meet.
pub fn meeting_is_symmetric()
    ensures { MeetingIsSymmetric }
{}

/// Which of two rectangles comes first makes no difference to what they share.
pub fn common_is_symmetric()
    ensures { CommonIsSymmetric }
{}

/// A point lies in both of two rectangles that meet exactly where it lies in what they share.
pub fn common_has_shared_points()
    ensures { CommonHasSharedPoints }
{}

/// Two rectangles share nothing exactly where no point lies in both.
pub fn none_is_apart()
    ensures { NoneIsApart }
{}

/// Rectangles cover a box exactly where each of its unit squares lies in one of them.
pub fn covered_by_squares()
    ensures { CoveredBySquares }
{}

/// A rectangle that a box lies in covers it, whatever stands beside it.
pub fn covered_by_one()
    ensures { CoveredByOne }
{}

/// Any rectangles cover a box without area.
pub fn covered_without_area()
    ensures { CoveredWithoutArea }
{}
