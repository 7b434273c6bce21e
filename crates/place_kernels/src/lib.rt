//! Kernels of place checks over plain values: how a box stands in a row of sites, and which names a pattern matches.
//!
//! Begin with `sites::holds` and `sites::on_sites`, how a box stands in a `SiteRow`, `sites::turned_site` and
//! `sites::rows_agree`, how sites and components are turned there; and `patterns::StarredPattern`, which names match a pattern
//! with `*`.
//!
//! The definitions are in `place_rules/specs`: `Sites` and `Patterns`; the laws of `laws` say what they mean. Rectangles, points
//! and rows are copied, and nothing is lent. Nothing fails and nothing takes memory: the calls on rows ask that each number
//! lies within plus or minus 2^61, which the numbers of texts that read do.
#![tactic(auto)]

mod laws;
pub mod patterns;
pub mod sites;

pub use laws::{
    row_orients, sites_are_held, spans_between_ends, star_matches_all, star_matches_any_bytes,
    starless_matches_itself, turned_sizes,
};
