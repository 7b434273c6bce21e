//! Parts of the entries of a DEF text that are about vias and nondefault rules (LEF/DEF 5.8 Language Reference, "DEF
//! Syntax").
//!
//! Begin with `vias::via_at`, an entry of VIAS, or `rules::rule_at`, one of NONDEFAULTRULES; each section has its file.
//!
//! What they say is in `def_grammar/specs/DefVias` and `Rules`; `specs/ViaViews` and `specs/RuleViews` have the views of
//! these parts there, and what they lend. Tokens are lent from the text that was read, parts that are repeated are read
//! when they are asked for (`statement_reader::parts`), and nothing takes memory.
//!
//! Where an entry isn't in its form a function answers `None`. An invalid number is noted by the cursor after it.
#![tactic(auto)]

pub mod rules;
pub mod vias;
