//! The law of what is near.

ghost use Rattle.statement_boxes.specs.BoxLaws.{MetBoxesAreNear};

/// A box that meets a rectangle is near it.
pub fn met_boxes_are_near()
    ensures { MetBoxesAreNear }
{}
