//! Worked rows of the definitions: what they say of small texts, by computing.
//!
//! A crate of proofs, with no code. `proofs/TokenRows` has tokens and where statements end, `proofs/DefRows` reading DEF
//! and its faults, `proofs/WholeRows` DEF texts with statements and sections of each kind, `proofs/StatementRows`,
//! `proofs/SectionRows` and `proofs/NetRows` the forms of DEF, `proofs/LefRows` reading LEF, `proofs/LibraryRows` what LEF
//! texts define, `proofs/LimitRows` the limits of a text, `proofs/EditRows` the cuts of edits and of changes, `proofs/ShowRows` entries
//! shown, `proofs/WireRows` wires and vias, and `proofs/TextRows` text edits, the lines of a report and the lines of a script. A row names what it computes
//! with by a word of `proofs/Computing`. A definition that comes to mean another thing leaves a row here unproved.
#![tactic(auto)]
