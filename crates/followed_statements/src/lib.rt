//! The lines on the statements of a text, which follow its edits.
//!
//! `follow_statements` gives them after an edit from those before it, where each statement that it exchanges shows others the same as the
//! one that comes for it (`all_shown` of `agreement_laws/specs/Agreement`): the lines on those that went go, the lines on those that came
//! come, and no other statement is read. `specs/Following` says what lines these are. Where an edit puts an entry into a section or takes
//! one out, or gives a component another macro, `tell_statements` tells the lines on headers, and on the entries of nets that list that
//! component, before it; the lines follow then if what others see is the same but for the components of its name (`specs/Seen`). What a statement names is looked up in the tables of the text.
//! `leaves_places` tells of an edit that it exchanged nothing that lines on components hang on. `put_statement` gives the lines on one
//! statement, by any look-ups, and `lines_on_statements` all of them anew, chunk by chunk. The one error is `AllocError`.
#![tactic(auto)]

mod counts;
mod defined_text;
mod following;
mod lines;
mod listing;
mod places;
mod seeing;
mod showing;
mod telling;

pub use following::follow_statements;
pub use lines::{lines_on_statements, put_statement};
pub use places::leaves_places;
pub use telling::{ToldStatements, tell_statements};
