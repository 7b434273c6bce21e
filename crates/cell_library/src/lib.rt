//! LEF texts, and the library that they define.
//!
//! Begin with `lef_texts::LefTexts`, which keeps copies of the texts, and then `library::Library::read`, which reads them in
//! their order. `Library` finds a layer, a site, a via, a rule or a macro by its name, and takes no memory for it.
//! A macro comes as a `macro_view::MacroView`, which gives the shapes of its pins in database units one after the other.
//!
//! What texts define is said in `lef_grammar/specs/Library` (`library_of`): of each kind the first definition of each name.
//! `specs/LibraryViews` ties the program to it, and a file of `specs/` for each kind. Names are borrowed from the texts, which
//! stay as they are as long as the library lives. Distances are read once, in microns; `numbers` gives them in database units.
//!
//! `LibraryError` is the fault of the first text that has one, with the text's number from 1, or refused memory. A refused
//! growth leaves `LefTexts` as they were.
#![tactic(auto)]

mod definition;
pub mod layer;
pub mod lef_texts;
pub mod library;
pub mod macro_definition;
pub mod macro_shapes;
pub mod macro_view;
pub mod named;
mod noted;
pub mod numbers;
pub mod pin;
mod placing;
pub mod rule;
pub mod shapes;
pub mod site;
pub mod via;
pub mod via_definition;
