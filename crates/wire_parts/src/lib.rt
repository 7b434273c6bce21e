//! Parts of the entries of a DEF text that are about nets and their wires (LEF/DEF 5.8 Language Reference, "DEF Syntax").
//!
//! Begin with `nets::net_entry_at`, an entry of NETS; each section has its file. `terminals`, `paths` and `wiring` are
//! what the two sections of nets share, and `NetParts::paths` gives the wires of a net, one after the other.
//!
//! What they say is in `def_grammar/specs`, in the file of the same name (`paths` in `Wiring`); `specs/NAMEViews` have
//! the views of these parts there, and what they lend. Tokens are lent from the text that was read, parts that are
//! repeated are read when they are asked for (`statement_reader::parts`), and nothing takes memory.
//!
//! Where an entry isn't in its form a function answers `None`. An invalid number is noted by the cursor after it. A
//! clause that hasn't its form is kept, and says nothing.
#![tactic(auto)]

mod keyword;
pub mod net_wires;
pub mod nets;
pub mod paths;
pub mod special_nets;
pub mod special_wires;
pub mod terminals;
pub mod wiring;
