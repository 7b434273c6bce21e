//! Worked rows of the definitions of `agreement_laws`, `staying_laws`, `net_laws` and `count_laws`: what the lines on a statement depend
//! on, the parts of a report, what tells a net, and the lines on headers by section, by computing.
//!
//! A crate of proofs, with no code. `proofs/AgreementRows` has what entries of small DEF texts show others, what their outline is, the
//! vias that are named in wires, and what a row refers to. `proofs/PartRows` has the lines on statements and on places of a small design,
//! and what edits leave of them, and `proofs/PlaceRows` which statements are of what stands round components, and the lines that
//! components bring which are exchanged. `proofs/ToldRows` has which statements tell a net, and which nets a statement touches;
//! `proofs/PinRows` which pins of a design are of which nets; `proofs/StarRows` what one component is to a net. `proofs/CountRows` has the
//! line on each of some sections.
#![tactic(auto)]
