//! What a text of tokens and statements is, for LEF and DEF alike: tokens, where statements end, forms, and reading the
//! statements of a text in order.
//!
//! A crate of definitions, with no code. Begin with `specs/Grammar` (what a kind of text has to say) and
//! `specs/Reading`: `read_text` gives the records of a text, or its fault, and `read_at` the next statement.
//! `specs/Tokens` has the tokens of a text with their places, `specs/Boundaries` where a statement ends, `specs/Form`
//! the ways of making forms, and `specs/Cuts` a text with other bytes put in.
//!
//! A fault is one of the tokens (`RefusedByte`, `OpenString`), a statement that isn't whole (`Unfinished`), has no form
//! (`NoForm`), has an invalid number (`Number`) or repeats what stands already (`Repeated`, `NameTaken`), or `TooLong`;
//! a grammar may name what a text lacks.
#![tactic(auto)]
