//! Parts of the entries and statements of a DEF text that are about places (LEF/DEF 5.8 Language Reference,
//! "DEF Syntax").
//!
//! Begin with `component_parts::ComponentParts::read`, an entry of COMPONENTS; each section and statement has its file,
//! and `placing` says how a component is placed.
//!
//! What they say is in `def_grammar/specs`, in the file of the same name; `specs/NAMEViews` have the views of these
//! parts there, and which of the statement's tokens each of them is. Tokens are lent from the text that was read, parts
//! that are repeated are read when they are asked for (`statement_reader::parts`), and nothing takes memory.
//!
//! Where an entry isn't in its form a function answers `None`. An invalid number is noted by the cursor after it.
#![tactic(auto)]

/// What `?` does with an `Option`. Written as a `match` it has a third less to prove at each way out.
macro_rules! or_none {
    ($option:expr) => {
        match $option {
            Some(found) => found,
            None => return None,
        }
    };
}

pub mod blockages;
pub mod component_parts;
pub mod components;
pub mod die_area;
pub mod grids;
pub mod groups;
mod keywords;
pub mod pins;
pub mod placing;
pub mod read_again;
pub mod regions;
pub mod rows;
pub mod standing;
