//! The nets that parts under numbers are of.

ghost use Rattle.std.specs.Prelude.{◌≡◌, ℕ, Option, map};
ghost use Rattle.std.specs.Option.{option_map};
ghost use Rattle.net_lists.specs.NetViews.{head_view};
ghost use Rattle.net_queries.specs.OwnedShapes.{owner_at};

use net_lists::NetHead;

/// A part of a net under a number: which net's it is, by its place among the heads, and whether it is a pin.
#[derive(Clone, Copy)]
pub struct PartOwner {
    pub net: usize,
    pub is_pin: bool,
}

/// Tells whose the part under a number is.
pub trait PartOwners {
    ghost use Rattle.net_lists.specs.Heads.{Head};
    ghost use Rattle.net_queries.specs.declared.owner.PartOwner.{PartOwner as Owner};

    ghost owner: { Self → ℕ → Option (Owner × Head) };

    /// The part under a number, and the head of its net.
    fn of_part(&self, number: usize) -> Option<(PartOwner, NetHead<'_>)>
        ensures { option_map (λ x. (x.0, head_view x.1)) result ≡ owner self.now number };
}

/// The nets, and the parts under their numbers, each with its net's place.
#[derive(Clone, Copy)]
pub struct Owners<'n, 't: 'n> {
    pub heads: &'n [NetHead<'t>],
    pub parts: &'n [PartOwner],
}

impl<'n, 't> PartOwners for Owners<'n, 't> {
    ghost owner = { λ o. owner_at (map head_view o.heads.now) o.parts.now };

    fn of_part(&self, number: usize) -> Option<(PartOwner, NetHead<'_>)> {
        let part = self.parts.get(number)?;
        let head = self.heads.get(part.net)?;
        Some((*part, *head))
    }
}
