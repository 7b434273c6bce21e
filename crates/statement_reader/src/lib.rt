//! Reads the statements of a text, for DEF and LEF alike.
//!
//! A kind of text implements `grammar::Statement` for its statements. Then begin with `read_statement`, one statement from
//! a position on, or with `text::Statements`, all of them in order. `parts::read_parts` reads a part that is repeated
//! within a statement (`read_usual_parts`, where most have a usual form that is passed faster than it is read), and `boundary::statement_run` finds where a statement ends.
//!
//! What reading gives is said in `statement_model/specs/Reading`, by a grammar of `statement_model/specs/Grammar`;
//! `specs/StatementViews` ties the program to it, and `laws` says how a whole text is read statement by statement.
//! Statements, their tokens and parts lend from the text and take no memory. The end of a
//! statement that ends with `;` is found many bytes at a time, and then each token is read once, for its form.
//!
//! A fault is one of the tokens, a statement that doesn't end (`Unfinished`), one without a form (`NoForm`) or an invalid
//! number (`Number`), in this order, at its position. What a text may have only once is up to the caller.
#![tactic(auto)]

pub mod boundary;
pub mod grammar;
pub mod laws;
pub mod parts;
pub mod read_statement;
pub mod text;
