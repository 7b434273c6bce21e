//! Nets that list a pin of all components, of which the pins by one are exchanged in the reports.

ghost use Rattle.std.specs.Prelude.{◌≡◌, ◌+◌, ◌<◌, ◌≤◌, ◌^◌, ◌∷◌, [], true, IfOk, IsTrue, List, ℕ, map};
ghost use Rattle.std.specs.Option.{option_map};
ghost use Rattle.design_model.specs.Views.{rectangle_of};
ghost use Rattle.def_grammar.specs.Records.{Record};
ghost use Rattle.lef_grammar.specs.Library.{Library as TheLibrary};
ghost use Rattle.net_lists.specs.PartCuts.{shape_view};
ghost use Rattle.reports.specs.Exchanges.{NetExchanged};
ghost use Rattle.followed_nets.specs.StarHeads.{pin_names};
ghost use Rattle.followed_nets.specs.StarHeadViews.{pins_view};
ghost use Rattle.followed_measures.specs.Exchanging.{AwaitsStar, AwaitsStars};
ghost use Rattle.followed_measures.specs.ExchangedNets.{NetsExchanged};

use crate::bounds::bounds_after;
use design_model::geometry::Rect;
use followed_nets::ToldPins;
use measuring_laws::lengths_are_told;
use net_laws::{entries_tell, one_component_exchanged};
use net_lists::NetShape;
use reports::Reports;
use std::alloc::{AllocError, Allocator};

/// Whether a length can be one of those that have this sum, and another fits in its place.
fn fits(total: u64, old_length: u64, new_length: u64) -> bool
    ensures { IsTrue result → (old_length ≤ total) × (total + new_length < old_length + 2 ^ 64) }
{
    if old_length > total {
        return false;
    }
    (total - old_length).checked_add(new_length).is_some()
}

/// Gives a net this length and this box, and exchanges some of its shapes, if its lengths fit: those of a text do.
pub(crate) fn exchange_one<A: Allocator + Copy>(
    reports: &mut Reports<A>,
    name: &[u8],
    old_length: u64,
    new_length: u64,
    gone: &[NetShape],
    come: &[NetShape],
    bounds: Option<Rect>,
) -> Result<bool, AllocError>
    ensures { IfOk result (λ b. b ≡ true → NetExchanged name.now old_length new_length (map shape_view gone.now) (map shape_view come.now) (option_map rectangle_of bounds) reports.old reports.new) }
{
    if !fits(reports.total_length(), old_length, new_length) {
        return Ok(false);
    }
    reports.exchange_net(name, old_length, new_length, gone, come, bounds)?;
    Ok(true)
}

/// Exchanges the pins by one component of a net that lists a pin of all. Where one that goes may have bounded the net, it isn't followed.
fn exchange_star<A: Allocator + Copy>(
    reports: &mut Reports<A>,
    before: &ToldPins<A>,
    after: &ToldPins<A>,
) -> Result<bool, AllocError>
    ensures { (library : TheLibrary) (old new : List Record) (component : List ℕ) → AwaitsStar library old new component (pins_view before.now) (pins_view after.now) reports.old
        → IfOk result (λ b. b ≡ true → NetsExchanged library old new ((pins_view before.now).name ∷ []) reports.old reports.new) }
{
    lengths_are_told();
    one_component_exchanged();
    entries_tell();
    let name = before.name.bytes();
    if name != after.name.bytes() {
        return Ok(false);
    }
    let Some(length) = reports.net_length(name) else {
        return Ok(false);
    };
    let Some(old) = reports.net_box(name) else {
        return Ok(false);
    };
    let Some(bounds) = bounds_after(old, &before.shapes, &after.shapes) else {
        return Ok(false);
    };
    exchange_one(
        reports,
        name,
        length,
        length,
        &before.shapes,
        &after.shapes,
        bounds,
    )
}

/// The same of several nets.
pub(crate) fn exchange_stars<A: Allocator + Copy>(
    reports: &mut Reports<A>,
    before: Vec<ToldPins<A>, A>,
    after: Vec<ToldPins<A>, A>,
) -> Result<bool, AllocError>
    ensures { (library : TheLibrary) (old new : List Record) (component : List ℕ) → AwaitsStars library old new component (map pins_view before.items) (map pins_view after.items) reports.old
        → IfOk result (λ b. b ≡ true → NetsExchanged library old new (pin_names (map pins_view before.items)) reports.old reports.new) }
{
    let mut before = before;
    let mut after = after;
    while let Some(went) = before.pop() {
        let Some(came) = after.pop() else {
            return Ok(false);
        };
        if !exchange_star(reports, &went, &came)? {
            return Ok(false);
        }
    }
    Ok(true)
}
