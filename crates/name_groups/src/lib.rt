//! Things by their names: a table with a group for each name, in the order in which each name came first.
//!
//! Begin with `Groups::new`, and `add` things one after the other. `get` lends the things of a name by one look-up, and `at` lends
//! each group by its place among `len`. Contracts see `Groups` as the list of its groups: `specs/Groups` says what `add` does to
//! it (`with_member`) and what `get` finds (`members_named`), and `grouped` is the list of groups that things have. The law
//! `groups_grow` says that adding one thing after the other makes that list, and `members_are_named` that a group has all things
//! of its name, in their order. Where things are references, `added_are_seen` and `found_are_seen` say what that means for the
//! values that they point to. A loop that adds cites `grouped_none` and `one_more_seen` of `proofs/GroupLaws`.
//!
//! Names are lent by the text that they stand in; things are kept, and lent as slices. The one error is `AllocError`, of `add`
//! alone.
#![tactic(auto)]

mod laws;
mod table;

pub use laws::{added_are_seen, found_are_seen, groups_grow, members_are_named};
pub use table::Groups;
