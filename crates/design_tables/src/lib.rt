//! Which statements of a DEF text have to do with a name, in tables, so that an edit needn't read the text for them.
//!
//! Begin with `Tables::new`, or `with_room` where many statements will come, and `add` the statements of a text one after the
//! other, each under a number of its own, with the text: it says whether what a text has once comes again, and `has_units` whether
//! there is UNITS.
//! `find` gives the number of a section's entry by its name, `header` and `end` those of a section, and `entries_in` says how many
//! entries it has. `nets_of`, `nets_by_star` and `nets_of_design_pin` give the numbers of the entries of NETS and SPECIALNETS that
//! list a pin, one at a time by `Numbers::next`. None of these takes memory.
//!
//! A change is statements that go out and others that are put in. `prepare` makes what stands under their names after it beside the
//! tables, which go on to say what they said. `commit` exchanges the two and takes no memory, and a second commit puts back what
//! stood before. `let_go` ends a change that isn't needed any more, with the names of it under which nothing stands.
//!
//! `specs/Marks` defines how a statement has to do with names (`marks_of`), and `specs/Listings` that tables are those of numbered
//! statements, in whatever order (`AreTablesOf`). Each contract holds for all statements of which they are the tables:
//! `specs/Lookups` says what is found among them, and `specs/Prepared` what a change is between (`IsBetween`), and that what a text
//! has once stands once (`AreKeyed`). The tables keep numbers, and share the text for the names that
//! stand in it; names of later statements are copied.
//!
//! The errors are `AllocError`, of `add`, and `PrepareError`, of `prepare`: `Duplicate` where what a text has once would stand twice,
//! or UNITS not at all.
#![tactic(auto)]

mod added;
mod edited;
mod kept_name;
pub mod laws;
mod letting_go;
mod likely;
mod mark_list;
mod marks;
mod names;
mod prepared;
mod role;
mod small_id;
mod tables;

pub use prepared::{PrepareError, PreparedTables};
pub use role::{Mark, Role};
pub use small_id::SmallId;
pub use tables::{Numbered, Numbers, Tables};
