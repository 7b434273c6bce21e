//! How components stand in rows of sites (LEF/DEF 5.8 Language Reference, "Rows").

ghost use Rattle.std.specs.Prelude.{◌≡◌, ◌++◌, OnOk, map};
ghost use Rattle.std.specs.Option.{option_map};
ghost use Rattle.lefdef_tokens.specs.Views.{word_view};
ghost use Rattle.design_rules.specs.PlaceLines.{is_held_by, is_row_class, row_lines};
ghost use Rattle.place_checks.specs.IndexViews.{rows_view};
ghost use Rattle.place_checks.specs.PlaceViews.{placed_row_view};
ghost use Rattle.place_checks.specs.RowFits.{best_fit, better, kind_of, needs_row, row_fit};
ghost use Rattle.place_checks.specs.Views.{boxed_view};

use crate::names::is_one_of;
use crate::placed_box::PlacedBox;
use crate::placed_row::PlacedRow;
use crate::row_index::{NO_EDGE, RowIndex};
use design_model::diagnostic::DiagKind;
use lefdef_tokens::is_word;
use place_kernels::sites::{holds, on_sites, rows_agree};
use report_lines::Lines;
use std::alloc::{AllocError, Allocator};

/// How well rows take a component.
#[derive(Clone, Copy)]
pub enum Fit {
    /// No row holds it.
    NotHeld,
    /// A row holds it, but none on a site.
    OffSite,
    /// It is on a site, but turned as no row there lets it be.
    Flipped,
    Fits,
}

/// Whether a row of a site of the component's macro holds the component.
fn is_held_by(component: &PlacedBox<'_>, row: &PlacedRow<'_>) -> bool
    ensures { result ≡ is_held_by (boxed_view component.now) (placed_row_view row.now) }
{
    is_one_of(component.sites, row.site) && holds(&row.sites, &component.rect)
}

/// How well a row takes a component.
fn row_fit(component: &PlacedBox<'_>, row: &PlacedRow<'_>) -> Fit
    ensures { result ≡ row_fit (boxed_view component.now) (placed_row_view row.now) }
{
    if !is_held_by(component, row) {
        Fit::NotHeld
    } else if !on_sites(&row.sites, &component.rect) {
        Fit::OffSite
    } else if !rows_agree(row.orient, component.orient) {
        Fit::Flipped
    } else {
        Fit::Fits
    }
}

/// The better one of two.
fn better(first: Fit, second: Fit) -> Fit
    ensures { result ≡ better first second }
{
    match (first, second) {
        (Fit::Fits, _) | (_, Fit::Fits) => Fit::Fits,
        (Fit::Flipped, _) | (_, Fit::Flipped) => Fit::Flipped,
        (Fit::OffSite, _) | (_, Fit::OffSite) => Fit::OffSite,
        (Fit::NotHeld, Fit::NotHeld) => Fit::NotHeld,
    }
}

/// How well the best of some rows takes a component.
fn best_fit(component: &PlacedBox<'_>, rows: &[PlacedRow<'_>]) -> Fit
    ensures { result ≡ best_fit (boxed_view component.now) (map placed_row_view rows.now) }
{
    let mut best = Fit::NotHeld;
    for row in rows {
        best = better(best, row_fit(component, row));
    }
    best
}

/// How well the best of rows in two lists takes a component.
fn fit_in(component: &PlacedBox<'_>, beside: &[PlacedRow<'_>], elsewhere: &[PlacedRow<'_>]) -> Fit
    ensures { result ≡ best_fit (boxed_view component.now) (map placed_row_view (beside.now ++ elsewhere.now)) }
{
    better(best_fit(component, beside), best_fit(component, elsewhere))
}

/// Whether a component of this class belongs into rows.
fn is_row_class(class: Option<&[u8]>) -> bool
    ensures { result ≡ is_row_class (option_map word_view class.entry) }
{
    match class {
        Some(word) => is_word(word, b"CORE") || is_word(word, b"ENDCAP"),
        None => false,
    }
}

/// Whether a component belongs into rows.
fn needs_row(component: &PlacedBox<'_>) -> bool
    ensures { result ≡ needs_row (boxed_view component.now) }
{
    is_row_class(component.class) && !component.sites.is_empty()
}

/// What is reported of a component that rows take so.
fn kind_of(component: &PlacedBox<'_>, fit: Fit) -> Option<DiagKind>
    ensures { result ≡ kind_of (boxed_view component.now) fit }
{
    match fit {
        Fit::NotHeld if needs_row(component) => Some(DiagKind::OffRow),
        Fit::NotHeld | Fit::Fits => None,
        Fit::OffSite => Some(DiagKind::OffSite),
        Fit::Flipped => Some(DiagKind::Flip),
    }
}

/// Puts the line of a component that none of the rows in two lists holds though it belongs into rows, that is on no site,
/// or that is turned as no row there lets it be.
pub(crate) fn put_by_rows<A: Allocator + Copy>(
    beside: &[PlacedRow<'_>],
    elsewhere: &[PlacedRow<'_>],
    component: &PlacedBox<'_>,
    lines: &mut Lines<A>,
) -> Result<(), AllocError>
    ensures { OnOk result (lines.new ≡ lines.old ++ row_lines (map placed_row_view (beside.now ++ elsewhere.now)) (boxed_view component.now)) }
{
    match kind_of(component, fit_in(component, beside, elsewhere)) {
        Some(kind) => lines.put(kind, &[component.name], &[]),
        None => Ok(()),
    }
}

/// Puts the line of a component that no row holds though it belongs into rows, that is on no site, or that is turned as
/// no row there lets it be. Rows with one line of sites are looked up by the component's lower edge.
pub(crate) fn put_in_rows<A: Allocator + Copy>(
    index: &RowIndex<'_, A>,
    component: &PlacedBox<'_>,
    lines: &mut Lines<A>,
) -> Result<(), AllocError>
    ensures { OnOk result (lines.new ≡ lines.old ++ row_lines (rows_view index.now) (boxed_view component.now)) }
{
    let beside = index.at_edge(component.rect.y1);
    put_by_rows(beside, index.at_edge(NO_EDGE), component, lines)
}
