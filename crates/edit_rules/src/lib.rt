//! What edits and the lines of a script do (own).
//!
//! A crate of definitions, with no code. An edit is a plan (`specs/Plans`): why it is refused, and the statements that it changes.
//! `specs/Edits` has the bytes that an edit changes, or its refusal (`cuts_of`), and what it makes of the records (`applied`), group
//! by group: `specs/ComponentEdits`.
//!
//! `specs/Runs` says what may be answered to an edit of the design or of the text (`Answers`), and `specs/Script` what
//! a line of a script asks. A refusal is an `EditRefusal`, the first that applies; want of memory may be answered where
//! `Answers` allows it.
#![tactic(auto)]
