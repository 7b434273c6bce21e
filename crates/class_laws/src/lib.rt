//! Laws of how the parts of a net hang together.
//!
//! Each law is an empty function that ensures it; call it to use it. There are no more classes than parts, and the order of the parts
//! is open. Where a pin is put to other parts, few of these tell how many classes there are then: none that is joined to it, or all
//! that are, with so many more that these hang together by themselves (`specs/OneMore`).
#![tactic(auto)]

ghost use Rattle.class_laws.specs.OneMore.{AloneIsAClass, ClassesAreFew, FewTell, SamePartsAreAlike};

use net_queries::parts_in_any_order;
use part_classes::labels_are_classes;

/// There are no more classes than parts.
pub fn classes_are_few()
    ensures { ClassesAreFew }
{}

/// How parts hang together doesn't depend on their order.
pub fn same_parts_are_alike()
    ensures { SamePartsAreAlike }
{
    parts_in_any_order();
}

/// A pin that is joined to no part is a class by itself,
pub fn alone_is_a_class()
    ensures { AloneIsAClass }
{
    labels_are_classes();
}

/// and one is in a class of others that has a pin, where few of them tell so.
pub fn few_tell()
    ensures { FewTell }
{
    labels_are_classes();
}
