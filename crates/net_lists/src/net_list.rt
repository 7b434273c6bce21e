//! The nets of a design.

ghost use Rattle.std.specs.Prelude.{◌≡◌, ◌<◌, ◌++◌, ◌∷◌, [], OnOk, OnErr, length, map, flat_map};
ghost use Rattle.design_model.specs.Views.{rectangle_of};
ghost use Rattle.connection_rules.specs.NetLines.{shapes_of_net};
ghost use Rattle.net_lists.specs.Building.{bare_net, last_parts, with_part, with_shape};
ghost use Rattle.net_lists.specs.Heads.{head_of};
ghost use Rattle.net_lists.specs.NetViews.{head_view};
ghost use Rattle.net_lists.specs.PartCuts.{shape_view};

use crate::nets::Nets;
use crate::parts::{NetHead, NetShape, PartHead};
use design_model::geometry::Rect;
use design_model::identifier::LayerId;
use std::alloc::{AllocError, Allocator, Global};
use std::marker::Model;

/// The nets of a design, in the order in which they were begun, with their parts and shapes.
#[derive(Drop)]
pub struct NetList<'t, A: Allocator = Global> {
    nets: Vec<NetHead<'t>, A>,
    parts: Vec<PartHead, A>,
    shapes: Vec<NetShape, A>,
}

impl<'t, A: Allocator> Model for NetList<'t, A> {
    ghost use Rattle.std.specs.Prelude.{List};
    ghost use Rattle.connection_rules.specs.NetParts.{Net};
    ghost use Rattle.net_lists.specs.NetViews.{nets_of, AddUp};

    ghost Value = { List Net };

    ghost view = { λ l. nets_of l.nets.items l.parts.items l.shapes.items };

    ghost invariant = { λ l. AddUp l.nets.items l.parts.items l.shapes.items };
}

impl<'t, A: Allocator + Copy> NetList<'t, A> {
    /// No nets. It takes no memory.
    pub fn new(alloc: A) -> NetList<'t, A>
        ensures { result ≡ [] }
    {
        NetList {
            nets: Vec::new(alloc),
            parts: Vec::new(alloc),
            shapes: Vec::new(alloc),
        }
    }

    /// Takes all nets out. The room that they had stays for others.
    pub fn clear(&mut self)
        ensures { self.new ≡ [] }
    {
        self.nets.clear();
        self.parts.clear();
        self.shapes.clear();
    }

    /// Puts a net without parts behind the others. A refused growth leaves the list as it was.
    pub fn begin_net(&mut self, name: &'t [u8], is_power: bool) -> Result<(), AllocError>
        ensures ok { OnOk result (self.new ≡ self.old ++ bare_net name.now is_power ∷ []) }
        ensures net { OnOk result (0 < length self.new) }
        ensures err { OnErr result (self.new ≡ self.old) }
    {
        self.nets.push(NetHead {
            name,
            is_power,
            parts: 0,
        })?;
        Ok(())
    }

    /// Puts a part without shapes behind those of the last net. A refused growth leaves the list as it was.
    #[inline(always)]
    pub fn begin_part(&mut self, is_pin: bool) -> Result<(), AllocError>
        requires { 0 < length self.old }
        ensures ok { OnOk result (self.new ≡ with_part is_pin self.old) }
        ensures net { OnOk result (0 < length self.new) }
        ensures part { OnOk result (0 < length (last_parts self.new)) }
        ensures err { OnErr result (self.new ≡ self.old) }
    {
        let last = self.nets.len() - 1;
        self.parts.push(PartHead { is_pin, shapes: 0 })?;
        self.nets[last].parts += 1;
        Ok(())
    }

    /// Puts a shape behind those of the last net's last part. A refused growth leaves the list as it was, and a part
    /// of 2^32 - 1 shapes doesn't grow.
    #[inline(always)]
    pub fn push_shape(&mut self, layer: LayerId, rect: Rect) -> Result<(), AllocError>
        requires { 0 < length (last_parts self.old) }
        ensures ok { OnOk result (self.new ≡ with_shape (record { layer = layer.0; box = rectangle_of rect }) self.old) }
        ensures net { OnOk result (0 < length self.new) }
        ensures part { OnOk result (0 < length (last_parts self.new)) }
        ensures err { OnErr result (self.new ≡ self.old) }
    {
        let last = self.parts.len() - 1;
        let part = self.parts[last].with_one_more()?;
        self.shapes.push(NetShape { layer, rect })?;
        self.parts[last] = part;
        Ok(())
    }

    /// How many nets there are.
    pub fn len(&self) -> usize
        ensures { result ≡ length self.now }
    {
        self.nets.len()
    }

    /// The name of each net, whether it is of power, and how many parts it has.
    pub fn heads(&self) -> &[NetHead<'t>]
        ensures heads { map head_view result.now ≡ map head_of self.now }
        ensures len { length result.now ≡ length self.now }
    {
        self.nets.as_slice()
    }

    /// All shapes, net by net and part by part.
    pub fn shapes(&self) -> &[NetShape]
        ensures { map shape_view result.now ≡ map (λ s. s.shape) (flat_map shapes_of_net self.now) }
    {
        self.shapes.as_slice()
    }

    /// The nets, one after the other.
    pub fn nets(&self) -> Nets<'_, 't>
        ensures { result ≡ self.now }
    {
        Nets::new(&self.nets, &self.parts, &self.shapes)
    }
}
