//! The grammar of DEF (LEF/DEF 5.8 Language Reference, "DEF Syntax"): what its statements say, and how they are
//! written.
//!
//! A crate of definitions, with no code. Begin with `specs/Records`: `Record` is what a statement says, `def` the
//! grammar of a text, and `read_def` gives the records of a text, or its fault. `specs/Top` has the statements outside
//! of sections, and each section its file; `specs/Parts`, `specs/Points` and `specs/Clauses` have the forms that several
//! share, `specs/Numbers` and `specs/Limits` what numbers may be, `specs/Terminals` and `specs/Wiring` the parts of nets,
//! and `specs/Placing` the clause that places a component.
//!
//! A record holds the bytes of its tokens, numbers as they are written. To the faults of `statement_model` DEF adds
//! `NoUnits`.
#![tactic(auto)]
