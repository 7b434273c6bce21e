//! Shapes under the names of their nets.

ghost use Rattle.std.specs.Prelude.{◌≡◌, ◌++◌, IfOk, IsTrue, OnOk, List, map};
ghost use Rattle.lef_grammar.specs.Measures.{Shape as TheShape};
ghost use Rattle.line_laws.specs.Lines.{SameThings};
ghost use Rattle.net_lists.specs.PartCuts.{shape_view};
ghost use Rattle.named_shapes.specs.Named.{named, shapes_by_name};

use crate::names::NetNames;
use net_lists::{NetList, NetShape};
use placed_shapes::{PlacedShapes, push_placed};
use std::alloc::{AllocError, Allocator, Global};
use std::hash::RandomState;
use std::marker::Model;

/// Shapes under the names of their nets, searched by tiles.
#[derive(Drop)]
pub struct NamedShapes<A: Allocator = Global> {
    pub(crate) names: NetNames<A>,
    // The owner of each is its net, by the place of its name.
    pub(crate) placed: PlacedShapes<A>,
}

impl<A: Allocator> Model for NamedShapes<A> {
    ghost use Rattle.std.specs.Prelude.{List};
    ghost use Rattle.connection_rules.specs.NetLines.{NetShape as OfNet};
    ghost use Rattle.named_shapes.specs.Named.{HaveNames, named_shapes};

    ghost Value = { List OfNet };

    ghost view = { λ s. named_shapes s.names s.placed };

    ghost invariant = { λ s. HaveNames s.names s.placed };
}

impl<A: Allocator + Copy> NamedShapes<A> {
    /// The shapes of these nets.
    pub fn of(
        alloc: A,
        hash_builder: RandomState,
        nets: &NetList<'_, A>,
    ) -> Result<NamedShapes<A>, AllocError>
        ensures { IfOk result (λ s. SameThings s (shapes_by_name nets.now)) }
    {
        let mut names = NetNames::new(alloc, hash_builder);
        let mut shapes = Vec::with_capacity(alloc, nets.shapes().len())?;
        let mut left = nets.nets();
        while let Some(net) = left.next() {
            let place = names.put(alloc, net.head.name)?;
            push_placed(place, net.shapes, &mut shapes)?;
        }
        let placed = PlacedShapes::of(alloc, &shapes)?;
        Ok(NamedShapes { names, placed })
    }

    /// Takes shapes of a net out, each once, and says whether all of them were there. Where they weren't, some may be gone.
    pub fn remove(&mut self, net: &[u8], shapes: &[NetShape]) -> bool
        ensures { IsTrue result → SameThings self.old (map (named net.now) (map shape_view shapes.now) ++ self.new) }
    {
        let Some(place) = self.names.place_of(net) else {
            return false;
        };
        self.placed.remove(place, shapes)
    }

    /// Puts shapes of a net in.
    pub fn insert(&mut self, alloc: A, net: &[u8], shapes: &[NetShape]) -> Result<(), AllocError>
        ensures { OnOk result (SameThings self.new (map (named net.now) (map shape_view shapes.now) ++ self.old)) }
    {
        let place = self.names.put(alloc, net)?;
        self.placed.insert(place, shapes)
    }
}
