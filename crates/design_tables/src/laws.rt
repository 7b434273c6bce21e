//! Laws of tables.

ghost use Rattle.design_tables.specs.AnyOrder.{KeysInAnyOrder, TablesInAnyOrder};

/// A law: the order of statements makes no difference to their tables, nor to whether a text may have them.
pub fn order_makes_no_difference()
    ensures tables { TablesInAnyOrder }
    ensures keys { KeysInAnyOrder }
{}
