//! The grammar of LEF (LEF/DEF 5.8 Language Reference, "LEF Syntax"), and what a library of LEF texts defines.
//!
//! A crate of definitions, with no code. Begin with `specs/LefRecords`: `LefRecord` is what a statement says, `Block` where
//! it stands, `lef` the grammar of a text, and `read_lef` gives the records of a text, or its fault. Each block has its
//! file; `specs/KeptBlocks` has those whose statements mean nothing, and `specs/Extents` what several blocks share.
//! `specs/Definitions` says what a text defines, and `specs/Library` what several do: `library_of` has the first definition
//! of each name, or the fault of the first text that has one, and `macro_named` finds one. `specs/Measures` has the numbers
//! and shapes in database units.
//!
//! A record holds the bytes of its tokens, numbers in microns as they are written. A LEF text lacks nothing and has nothing
//! once, so its faults are those of `statement_model` but for repeats. The words behind the name of a VIA or a VIARULE are
//! statements of their own, where the block's header goes on. A fault of the tokens up to where it ends comes before its own
//! (`first_fault`, by `specs/HeaderWords`).
#![tactic(auto)]
