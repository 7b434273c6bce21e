//! The nets that an edit is about to change.

ghost use Rattle.std.specs.Prelude.{◌≡◌, ◌≤◌, [], IfOk, IfSome, IsTrue, List, None, map};
ghost use Rattle.std.specs.List.{AllByRecursion};
ghost use Rattle.def_grammar.specs.Records.{Record};
ghost use Rattle.lef_grammar.specs.Library.{Library as TheLibrary};
ghost use Rattle.design_rules.specs.Boxes.{scale};
ghost use Rattle.net_laws.specs.StarNets.{pins_by_one};
ghost use Rattle.net_touches.specs.Barriers.{barrier_view};
ghost use Rattle.design_text.specs.DesignTexts.{design_of};
ghost use Rattle.design_text.specs.Exchanges.{records_in};
ghost use Rattle.followed_nets.specs.Exchanging.{AreToldIn, name_of};
ghost use Rattle.followed_nets.specs.Heads.{IsHead};
ghost use Rattle.followed_nets.specs.Noted.{AreCommon};
ghost use Rattle.followed_nets.specs.Stars.{names_of};
ghost use Rattle.followed_nets.specs.Tests.{near_own};
ghost use Rattle.followed_nets.specs.ToldViews.{head_view, star_view, tests_of, told_view};
ghost use Rattle.followed_nets.specs.Touched.{ArePinsBy, AreTouched, star_names};

use crate::heads::{Head, head_named};
use crate::star_pins::star_pins;
use crate::told::{ToldNet, told_net};
use cell_library::library::Library;
use design_model::identifier::StmtId;
use design_text::text::DesignText;
use kept_nets::{KeptNet, KeptPart};
use name_keys::OwnName;
use net_touches::Barrier;
use std::alloc::{AllocError, Allocator, Global};
use std::marker::Model;

/// The pins of a net by one component.
#[derive(Drop)]
pub(crate) struct ToldStar<A: Allocator = Global> {
    pub(crate) name: OwnName<A>,
    pub(crate) pins: Vec<KeptPart<A>, A>,
}

/// The component that an edit is of, and its pins of the nets that are kept with their parts.
#[derive(Drop)]
pub(crate) struct TouchedComponent<A: Allocator = Global> {
    pub(crate) name: OwnName<A>,
    pub(crate) stars: Vec<ToldStar<A>, A>,
}

/// The nets that an edit is about to change, as they are before it, and the component that it is of, or the pin of the design.
#[derive(Drop)]
pub struct TouchedNets<A: Allocator = Global> {
    pub(crate) names: Vec<OwnName<A>, A>,
    pub(crate) before: Vec<ToldNet<A>, A>,
    pub(crate) component: Option<TouchedComponent<A>>,
    pub(crate) pin: Option<OwnName<A>>,
}

impl<A: Allocator> Model for TouchedNets<A> {
    ghost use Rattle.std.specs.Prelude.{map};
    ghost use Rattle.std.specs.Option.{option_map};
    ghost use Rattle.followed_nets.specs.ToldViews.{stars_of, tests_of, told_view};
    ghost use Rattle.followed_nets.specs.Touched.{Touched};

    ghost Value = { Touched };

    ghost view = { λ t. record { names = t.names.items; component = option_map (λ c. c.name) t.component; pin = t.pin; before = map told_view t.before.items; tests = tests_of t.before.items; stars = stars_of t.component } };
}

impl<A: Allocator + Copy> TouchedNets<A> {
    /// None, for an edit that is about to change none. It takes no memory.
    pub fn none(alloc: A) -> TouchedNets<A>
        ensures touched { (library : TheLibrary) (design : List Record) → AreTouched library design result }
        ensures none { (result.names ≡ []) × (result.stars ≡ []) × (result.component ≡ None) }
    {
        TouchedNets {
            names: Vec::new(alloc),
            before: Vec::new(alloc),
            component: None,
            pin: None,
        }
    }
}

/// What is told of some nets of a text, where these rectangles block routing, unless something isn't told of one of them.
pub(crate) fn told_nets<A: Allocator + Copy>(
    alloc: A,
    library: &Library<'_, A>,
    text: &DesignText<A>,
    common: &[StmtId],
    bars: &[Barrier],
    names: &[OwnName<A>],
) -> Result<Option<Vec<ToldNet<A>, A>>, AllocError>
    requires { AreCommon (records_in text.now) common.now }
    ensures told { IfOk result (λ found. IfSome found (λ v. AreToldIn library.now (map barrier_view bars.now) (design_of text.now) (map told_view v.items))) }
    ensures named { IfOk result (λ found. IfSome found (λ v. map name_of (map told_view v.items) ≡ names.now)) }
    ensures few { IfOk result (λ found. IfSome found (λ v. tests_of v.items ≤ near_own (map told_view v.items))) }
{
    let mut told = Vec::new(alloc);
    for name in names {
        match told_net(alloc, library, text, common, bars, name.bytes())? {
            Some(net) => told.push(net)?,
            None => return Ok(None),
        }
    }
    Ok(Some(told))
}

/// The pins of a net of a text by a component, under the net's name, unless there is no head of it.
fn told_star<A: Allocator + Copy>(
    alloc: A,
    library: &Library<'_, A>,
    text: &DesignText<A>,
    common: &[StmtId],
    heads: &[Head<A>],
    net: &[u8],
    component: &[u8],
) -> Result<Option<ToldStar<A>>, AllocError>
    requires common { AreCommon (records_in text.now) common.now }
    requires heads { AllByRecursion (IsHead (design_of text.now)) (map head_view heads.now) }
    ensures named { IfOk result (λ found. IfSome found (λ s. (star_view s).name ≡ net.now)) }
    ensures pins { IfOk result (λ found. IfSome found (λ s. (star_view s).pins ≡ pins_by_one library.now (design_of text.now) (scale (design_of text.now)) net.now component.now)) }
{
    let Some(head) = head_named(heads, net) else {
        return Ok(None);
    };
    let Some(pins) = star_pins(alloc, library, text, common, head, component)? else {
        return Ok(None);
    };
    let name = OwnName::copy_of(alloc, net)?;
    Ok(Some(ToldStar { name, pins }))
}

/// The same of each of some nets that are kept with their parts.
pub(crate) fn told_stars<A: Allocator + Copy>(
    alloc: A,
    library: &Library<'_, A>,
    text: &DesignText<A>,
    common: &[StmtId],
    heads: &[Head<A>],
    stars: &[KeptNet<A>],
    component: &[u8],
) -> Result<Option<Vec<ToldStar<A>, A>>, AllocError>
    requires common { AreCommon (records_in text.now) common.now }
    requires heads { AllByRecursion (IsHead (design_of text.now)) (map head_view heads.now) }
    ensures pins { IfOk result (λ found. IfSome found (λ v. ArePinsBy library.now (design_of text.now) component.now (map star_view v.items))) }
    ensures named { IfOk result (λ found. IfSome found (λ v. star_names (map star_view v.items) ≡ names_of stars.now)) }
{
    let mut told = Vec::new(alloc);
    for star in stars {
        match told_star(alloc, library, text, common, heads, star.name(), component)? {
            Some(net) => told.push(net)?,
            None => return Ok(None),
        }
    }
    Ok(Some(told))
}

/// Whether nets that are kept have these names, in their order.
pub(crate) fn are_named<A: Allocator + Copy>(stars: &[KeptNet<A>], told: &[ToldStar<A>]) -> bool
    ensures { IsTrue result → star_names (map star_view told.now) ≡ names_of stars.now }
{
    if stars.len() != told.len() {
        return false;
    }
    for place in 0..stars.len() {
        if stars[place].name() != told[place].name.bytes() {
            return false;
        }
    }
    true
}
