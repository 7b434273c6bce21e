//! Laws of labels and counts.

ghost use Rattle.part_classes.specs.Laws.{LabelsAreClasses, OrderIsOpen, CountsAreAll};

/// Two parts have one label exactly where each labelling that gives joined parts one label gives these one.
pub fn labels_are_classes()
    ensures { LabelsAreClasses }
{}

/// The labels don't depend on the order in which parts are joined, nor on how often.
pub fn order_is_open()
    ensures { OrderIsOpen }
{}

/// The classes that hold a marked part and those that hold none are all classes.
pub fn counts_are_all()
    ensures { CountsAreAll }
{}
