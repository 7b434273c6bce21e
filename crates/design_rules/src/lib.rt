//! Lines on places and on counts (own).
//!
//! A crate of definitions, with no code. `specs/Boxes`, `OverlapLines`, `PlaceLines` and `CountLines` have what is reported of
//! components and of headers, and `specs/Surroundings` what components stand in.
#![tactic(auto)]
