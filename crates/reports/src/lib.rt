//! What is measured of a design: the lengths of its nets, the boxes round them, and how dense the cells of its grid are.
//!
//! Begin with `Reports::open`, which makes it all once; then ask `net_length`, `net_box`, `total_length`, `cell` and `place_cell`.
//! What they answer is defined in `measure_rules/specs`; `specs/Answers` says that of all of them together (`ReportsOn`). They follow an
//! exchange of the shapes of one net, or of the box of one component, by `exchange_net` and `exchange_component`; `specs/Exchanges` says
//! what becomes of each answer. The nets come from `design_nets`, components that take part from `place_checks`, the lines of the grid
//! from `design_grid`, and sums by cells from `cell_sums`.
//!
//! `net_measures` measures the one net of a few statements, for such an exchange (`specs/NetMeasures`).
//!
//! `Reports` owns what it holds and lends nothing: a name, a length and a box for each net, and the sums of cells that are in use.
//! While it is made it draws one net after the other, and holds the shapes of that net alone. Who has the nets drawn already begins
//! with `Reports::without_nets` and puts them in by `put_nets` (`specs/DrawnNets`). Making it, putting nets in and following an exchange
//! are all that takes memory, and their one error is `AllocError`; after one of the last two the reports are of no use.
#![tactic(auto)]

mod cell_densities;
mod densities;
mod drawn_nets;
mod measured_nets;
mod net_box;
pub mod net_measures;
mod net_table;
mod net_walk;
mod reports;

pub use reports::Reports;
