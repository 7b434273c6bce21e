//! Laws of groups.

ghost use Rattle.name_groups.specs.Laws.{AddedAreSeen, FoundAreSeen, GroupsGrow, MembersAreNamed};

/// Groups to which one more thing is added are the groups of all things.
pub fn groups_grow<T>()
    ensures { GroupsGrow T }
{}

/// A group of things has all of its name, in their order.
pub fn members_are_named<T>()
    ensures { MembersAreNamed T }
{}

/// Where something is seen of each thing, a thing that is added is seen behind those of its name.
pub fn added_are_seen<T, U>()
    ensures { AddedAreSeen T U }
{}

/// Where something is seen of each thing, the things that are found by a name are seen under that name.
pub fn found_are_seen<T, U>()
    ensures { FoundAreSeen T U }
{}
