//! The nets of a text that list a pin of all components, by their heads, and the nets that list one of its components: for who follows
//! something else of nets than the lines on them.

ghost use Rattle.std.specs.Prelude.{◌≡◌, ◌++◌, false, IfOk, IfSome, IsTrue, List, ℕ, map, true};
ghost use Rattle.std.specs.List.{AllByRecursion};
ghost use Rattle.net_laws.specs.NetChanges.{is_one_of};
ghost use Rattle.design_tables.specs.TableViews.{numbered_view};
ghost use Rattle.design_text.specs.DesignTexts.{design_of};
ghost use Rattle.design_text.specs.Exchanges.{records_in};
ghost use Rattle.followed_nets.specs.Listed.{AreApart};
ghost use Rattle.followed_nets.specs.Noted.{AreCommon};
ghost use Rattle.followed_nets.specs.StarHeads.{AreAllListing, ArePinShapes, AreStarHeads, IsPinsBy, IsStarHead, head_names, pin_names};
ghost use Rattle.followed_nets.specs.StarHeadViews.{pins_view};
ghost use Rattle.followed_nets.specs.ToldViews.{head_view};

use crate::entries::entries_of;
use crate::heads::{Head, are_of_others, head_of};
use crate::listed::{add_name, nets_listing};
use crate::noted::star_names;
use crate::star_pins::star_pins;
use cell_library::library::Library;
use design_model::identifier::StmtId;
use design_tables::Numbered;
use design_text::text::DesignText;
use kept_nets::shapes_of;
use lefdef_tokens::is_word;
use name_keys::OwnName;
use net_lists::NetShape;
use std::alloc::{AllocError, Allocator, Global};
use std::marker::Model;

/// The nets of a text that list a pin of all components. Of each the name and the terminals are read at each edit of a component.
#[derive(Drop)]
pub struct StarHeads<A: Allocator = Global> {
    heads: Vec<Head<A>, A>,
}

impl<A: Allocator> Model for StarHeads<A> {
    ghost use Rattle.std.specs.Prelude.{List, map};
    ghost use Rattle.followed_nets.specs.Heads.{Head};
    ghost use Rattle.followed_nets.specs.ToldViews.{head_view};

    ghost Value = { List Head };

    ghost view = { λ s. map head_view s.heads.items };
}

/// The shapes of the pins of a net by one component.
#[derive(Drop)]
pub struct ToldPins<A: Allocator = Global> {
    pub name: OwnName<A>,
    pub shapes: Vec<NetShape, A>,
}

/// The head of the net of a name in a text, if it has an entry.
fn star_head<A: Allocator + Copy>(
    alloc: A,
    text: &DesignText<A>,
    net: &[u8],
) -> Result<Option<Head<A>>, AllocError>
    ensures named { IfOk result (λ found. IfSome found (λ h. (head_view h).name ≡ net.now)) }
    ensures head { IfOk result (λ found. IfSome found (λ h. IsStarHead (design_of text.now) (head_view h))) }
{
    let Some(entries) = entries_of(text, net) else {
        return Ok(None);
    };
    let found = head_of(alloc, &entries)?;
    Ok(found)
}

/// The heads of the nets of these names, unless one of them has none.
fn heads_named<A: Allocator + Copy>(
    alloc: A,
    text: &DesignText<A>,
    names: &[OwnName<A>],
) -> Result<Option<Vec<Head<A>, A>>, AllocError>
    ensures named { IfOk result (λ found. IfSome found (λ v. head_names (map head_view v.items) ≡ names.now)) }
    ensures heads { IfOk result (λ found. IfSome found (λ v. AllByRecursion (IsStarHead (design_of text.now)) (map head_view v.items))) }
{
    let mut heads = Vec::new(alloc);
    for name in names {
        match star_head(alloc, text, name.bytes())? {
            Some(head) => heads.push(head)?,
            None => return Ok(None),
        }
    }
    Ok(Some(heads))
}

/// Whether one of these heads is of the net of this name.
fn is_head<A: Allocator>(heads: &[Head<A>], name: &[u8]) -> bool
    ensures { result ≡ is_one_of (head_names (map head_view heads.now)) name.now }
{
    for head in heads {
        if head.name.bytes() == name {
            return true;
        }
    }
    false
}

/// Those of these names that aren't of nets with heads.
fn names_of_others<A: Allocator + Copy>(
    alloc: A,
    names: &[OwnName<A>],
    heads: &[Head<A>],
) -> Result<Vec<OwnName<A>, A>, AllocError>
    ensures apart { let stars = head_names (map head_view heads.now) in AreApart names.now → AreApart stars → IfOk result (λ v. AreApart (v.items ++ stars)) }
    ensures all { let stars = head_names (map head_view heads.now) in IfOk result (λ v. (net : List ℕ) → is_one_of names.now net ≡ true → is_one_of (v.items ++ stars) net ≡ true) }
{
    let mut others = Vec::new(alloc);
    for name in names {
        if !is_head(heads, name.bytes()) {
            add_name(alloc, &mut others, name.bytes())?;
        }
    }
    Ok(others)
}

/// The shapes of the pins of the net of a head by a component, under the net's name, unless the head isn't read.
fn told_pins<A: Allocator + Copy>(
    alloc: A,
    library: &Library<'_, A>,
    text: &DesignText<A>,
    common: &[StmtId],
    head: &Head<A>,
    component: &[u8],
) -> Result<Option<ToldPins<A>>, AllocError>
    requires common { AreCommon (records_in text.now) common.now }
    requires head { IsStarHead (design_of text.now) (head_view head.now) }
    ensures named { IfOk result (λ found. IfSome found (λ p. (pins_view p).name ≡ (head_view head.now).name)) }
    ensures pins { IfOk result (λ found. IfSome found (λ p. IsPinsBy library.now (design_of text.now) component.now (pins_view p))) }
{
    let Some(pins) = star_pins(alloc, library, text, common, head, component)? else {
        return Ok(None);
    };
    let shapes = shapes_of(alloc, &pins)?;
    let name = OwnName::copy_of(alloc, head.name.bytes())?;
    Ok(Some(ToldPins { name, shapes }))
}

/// Those of each of these heads, in their order, unless one isn't read.
fn pins_of_heads<A: Allocator + Copy>(
    alloc: A,
    library: &Library<'_, A>,
    text: &DesignText<A>,
    common: &[StmtId],
    heads: &[Head<A>],
    component: &[u8],
) -> Result<Option<Vec<ToldPins<A>, A>>, AllocError>
    requires common { AreCommon (records_in text.now) common.now }
    requires heads { AllByRecursion (IsStarHead (design_of text.now)) (map head_view heads.now) }
    ensures named { IfOk result (λ found. IfSome found (λ v. pin_names (map pins_view v.items) ≡ head_names (map head_view heads.now))) }
    ensures shapes { IfOk result (λ found. IfSome found (λ v. ArePinShapes library.now (design_of text.now) component.now (map pins_view v.items))) }
{
    let mut told = Vec::new(alloc);
    for head in heads {
        match told_pins(alloc, library, text, common, head, component)? {
            Some(pins) => told.push(pins)?,
            None => return Ok(None),
        }
    }
    Ok(Some(told))
}

impl<A: Allocator + Copy> StarHeads<A> {
    /// Those of a text with these statements: `None` where they are many, or a head of one isn't read.
    pub fn of(
        alloc: A,
        text: &DesignText<A>,
        statements: &[Numbered<'_>],
    ) -> Result<Option<StarHeads<A>>, AllocError>
        requires { map numbered_view statements.now ≡ records_in text.now }
        ensures { IfOk result (λ found. IfSome found (AreStarHeads (design_of text.now))) }
    {
        text.statements_are_kept();
        let Some(names) = star_names(alloc, statements)? else {
            return Ok(None);
        };
        let Some(heads) = heads_named(alloc, text, &names)? else {
            return Ok(None);
        };
        Ok(Some(StarHeads { heads }))
    }

    /// Whether none of them has one of these names.
    pub fn are_others(&self, names: &[OwnName<A>]) -> bool
        ensures { IsTrue result → AllByRecursion (λ h. is_one_of names.now h.name ≡ false) self.now }
    {
        are_of_others(&self.heads, names)
    }

    /// The names of the other nets of a text that list a component, each once, unless they are many.
    pub fn others_listing(
        &self,
        alloc: A,
        text: &DesignText<A>,
        component: &[u8],
    ) -> Result<Option<Vec<OwnName<A>, A>>, AllocError>
        requires { AreStarHeads (design_of text.now) self.now }
        ensures { IfOk result (λ found. IfSome found (λ v. AreAllListing (design_of text.now) component.now v.items (head_names self.now))) }
    {
        // (pins of the design, and virtual ones, stand under these names in entries of nets)
        if is_word(component, b"PIN") || is_word(component, b"VPIN") {
            return Ok(None);
        }
        let Some(listing) = nets_listing(alloc, text, component)? else {
            return Ok(None);
        };
        let names = names_of_others(alloc, &listing, &self.heads)?;
        Ok(Some(names))
    }

    /// The shapes of the pins that each of them has by a component, in their order, unless a head isn't read.
    pub fn pins_by(
        &self,
        alloc: A,
        library: &Library<'_, A>,
        text: &DesignText<A>,
        common: &[StmtId],
        component: &[u8],
    ) -> Result<Option<Vec<ToldPins<A>, A>>, AllocError>
        requires common { AreCommon (records_in text.now) common.now }
        requires heads { AreStarHeads (design_of text.now) self.now }
        ensures named { IfOk result (λ found. IfSome found (λ v. pin_names (map pins_view v.items) ≡ head_names self.now)) }
        ensures shapes { IfOk result (λ found. IfSome found (λ v. ArePinShapes library.now (design_of text.now) component.now (map pins_view v.items))) }
    {
        pins_of_heads(alloc, library, text, common, &self.heads, component)
    }
}
