//! The items of paths, in numbers.

ghost use Rattle.std.specs.Prelude.{◌≡◌, ◌<◌, IfSome};
ghost use Rattle.def_grammar.specs.Wiring.{special_via as special_form, wire_via as net_form};
ghost use Rattle.entry_rules.specs.WireItems.{item_after, items_after, net_via, point_after_item, special_via};
ghost use Rattle.wire_parts.specs.PathViews.{item_view, items_of};
ghost use Rattle.wire_shapes.specs.ItemViews.{GivesItem, IsItemInRange, IsPlace};
ghost use Rattle.wire_reading.specs.FoundItems.{EntersItem, found_item, same};

use crate::item_numbers::extension_of;
use crate::used_vias::UsedVia;
use design_model::geometry::Point;
use orient_geom::span;
use statement_reader::parts::Parts;
use wire_parts::paths::{self, SpecialVia, WireVia};
use wire_shapes::{PathItem, PathItems};

/// The items that are left of a path, by the section of its net.
pub trait ItemParts<'a>: Sized + Drop {
    ghost use Rattle.std.specs.Prelude.{ℕ, List};
    ghost use Rattle.design_model.specs.declared.geometry.Point.{Point as ThePoint};
    ghost use Rattle.wire_rules.specs.Paths.{PathItem as TheItem};

    ghost after: { ThePoint → Self → List TheItem };

    ghost most: { Self → ℕ };

    /// Goes on from a point with the next item, and gives its numbers. A mask has none.
    fn enter(&mut self, at: &mut Point) -> Option<Option<PathItem<'a>>>
        requires { IsPlace at.old }
        ensures gives { EntersItem (after at.old self.old) result (after at.new self.new) }
        ensures fewer { IfSome result (λ i. most self.new < most self.old) }
        ensures place { IsPlace at.new };
}

/// Goes on from a point with an item, and gives its numbers. A mask has none.
fn numbers_of<'t, V: UsedVia<'t>>(
    at: &mut Point,
    item: paths::PathItem<'t, V>,
) -> Option<PathItem<'t>>
    requires { IsPlace at.old }
    ensures gives { found_item result ≡ item_after same at.old (item_view V.use_of item.entry) }
    ensures in_range { IfSome result IsItemInRange }
    ensures goes { at.new ≡ point_after_item same at.old (item_view V.use_of item.entry) }
    ensures place { IsPlace at.new }
{
    match item {
        paths::PathItem::Mask(_) => None,
        paths::PathItem::Virtual(to) => {
            *at = to.place_after(*at);
            Some(PathItem::JumpTo(*at))
        }
        paths::PathItem::Rectangle(corners) => {
            let rect = span(corners.first.place(), corners.second.place());
            Some(PathItem::Patch(rect))
        }
        paths::PathItem::Point(to) => {
            *at = to.at.place_after(*at);
            Some(PathItem::ToPoint(*at, extension_of(&to)))
        }
        paths::PathItem::Via(via) => Some(PathItem::UseVia(via.used())),
    }
}

impl<'a, 't: 'a> ItemParts<'a> for Parts<'t, paths::PathItem<'t, WireVia<'t>>> {
    ghost after = { λ at parts. items_after net_via at (items_of net_form parts) };

    ghost most = { λ parts. parts.most };

    #[tactic(auto, unfolding(entry_rules::specs::WireItems::items_after))]
    fn enter(&mut self, at: &mut Point) -> Option<Option<PathItem<'a>>> {
        let item = self.next()?;
        Some(numbers_of(at, item))
    }
}

impl<'a, 't: 'a> ItemParts<'a> for Parts<'t, paths::PathItem<'t, SpecialVia<'t>>> {
    ghost after = { λ at parts. items_after special_via at (items_of special_form parts) };

    ghost most = { λ parts. parts.most };

    #[tactic(auto, unfolding(entry_rules::specs::WireItems::items_after))]
    fn enter(&mut self, at: &mut Point) -> Option<Option<PathItem<'a>>> {
        let special = self.next()?;
        Some(numbers_of(at, special))
    }
}

/// The next item after a point that has numbers. Masks are passed over.
fn next_item<'a, P: ItemParts<'a>>(at: &mut Point, left: &mut P) -> Option<PathItem<'a>>
    requires { IsPlace at.old }
    ensures gives { GivesItem (P.after at.old left.old) result (P.after at.new left.new) }
    ensures place { IsPlace at.new }
{
    while let Some(item) = left.enter(at) {
        if let Some(found) = item {
            return Some(found);
        }
    }
    None
}

/// Gives the items of a path in numbers, one after the other. It takes no memory.
#[derive(Drop)]
pub struct WireItems<P> {
    at: Point,
    left: P,
    ghost in_range: { IsPlace at },
}

/// Those of a path of NETS.
pub type NetItems<'t> = WireItems<Parts<'t, paths::PathItem<'t, WireVia<'t>>>>;

/// Those of a path of SPECIALNETS.
pub type SpecialItems<'t> = WireItems<Parts<'t, paths::PathItem<'t, SpecialVia<'t>>>>;

impl<P> WireItems<P> {
    /// Those after a point.
    pub(crate) fn after(at: Point, left: P) -> WireItems<P>
        requires { IsPlace at }
        ensures place { result.at ≡ at }
        ensures left { result.left ≡ left }
    {
        WireItems { at, left }
    }
}

impl<'a, P: ItemParts<'a>> PathItems<'a> for WireItems<P> {
    ghost use Rattle.wire_reading.specs.ItemsLeft.{items_left};

    ghost items = { items_left P.after };

    fn next(&mut self) -> Option<PathItem<'a>>
        ensures { GivesItem (items_left P.after self.old) result (items_left P.after self.new) }
    {
        next_item(&mut self.at, &mut self.left)
    }
}
