//! What forms of statements mean: how they are read, and the words that their values are spelled with.
//!
//! A crate of definitions, with no code. Begin with `specs/Words`: `Rest` and `next_word`, reading words from left to
//! right with the first bad number noted. `specs/Meaning` has `Meaning`: a form's reader, its spelling, where a value
//! fits, and its first bad number; and a meaning for each way of making a form.
//!
//! `Exact` says that the four agree, and `proofs/Exact` proves it for each way. `statement_model/specs/Form` makes
//! forms of a meaning and its proof. Nothing here fails: a form that isn't there reads as `None`, and a bad number is
//! noted and read past.
#![tactic(auto)]
