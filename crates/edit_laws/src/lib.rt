//! Laws of edits: what the text of an edited design reads as, and which of its bytes stay.
//!
//! Each law is an empty function that ensures it; call it to use it. Begin with `editing`: a text that reads, with the
//! cuts of an accepted edit made, reads as the edited design, and its cuts stand in order within the text, so that the
//! bytes around them stay. `running` has the same over runs of edits and outputs of scripts.
//!
//! `plans` and `statements` have the laws that name no edit: of a plan (`specs/PlanLaws`), and of changes of statements,
//! as many as there are and from any place of a text on (`specs/StatementLaws`). An edit owes that its plan is one for the
//! edited design: `components` says so of the edits of a component (`specs/ComponentLaws`), by `placing`, which says that
//! placing one, unplacing it and giving it another macro are changes of its entry (`specs/PlacingLaws`), and by the laws
//! of `entries`; `nets` says so of the edits of a net, and `sections` of those that put an entry into a section or take it
//! out. The edits themselves are defined in `edit_rules/specs/Edits`. `alone` says that an entry reads from its own bytes
//! as it does in its text.
#![tactic(auto)]

pub mod alone;
pub mod components;
pub mod editing;
pub mod entries;
pub mod nets;
pub mod placing;
pub mod plans;
pub mod running;
pub mod sections;
pub mod statements;
