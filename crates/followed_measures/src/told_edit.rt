//! What is measured of what an edit is about to change.

ghost use Rattle.std.specs.Prelude.{◌≡◌, ◌∷◌, IfOk, IfSome, List, Some, map};
ghost use Rattle.std.specs.List.{AllByRecursion};
ghost use Rattle.def_grammar.specs.Records.{Record};
ghost use Rattle.lef_grammar.specs.Library.{Library as TheLibrary};
ghost use Rattle.design_text.specs.DesignTexts.{design_of};
ghost use Rattle.design_text.specs.Exchanges.{records_in};
ghost use Rattle.followed_nets.specs.Noted.{AreCommon};
ghost use Rattle.followed_nets.specs.StarHeads.{AreStarHeads, head_names};
ghost use Rattle.followed_measures.specs.Told.{IsNetIn, IsToldIn, told_names};
ghost use Rattle.followed_measures.specs.ToldViews.{net_view, told_view};

use crate::component_box::box_in;
use crate::told::{ToldNet, told_net};
use cell_library::library::Library;
use design_model::geometry::Rect;
use design_model::identifier::StmtId;
use design_text::text::DesignText;
use followed_nets::{StarHeads, ToldPins};
use name_keys::OwnName;
use std::alloc::{AllocError, Allocator, Global};

/// The component that an edit is of: its name, its box, where it takes part, and the shapes of its pins of each net that lists a pin of
/// all components.
#[derive(Drop)]
pub(crate) struct ToldComponent<A: Allocator = Global> {
    pub(crate) name: OwnName<A>,
    pub(crate) bounds: Option<Rect>,
    pub(crate) stars: Vec<ToldPins<A>, A>,
}

/// What is measured of the nets that an edit is about to change, and of the component that it is of, if it is of one.
#[derive(Drop)]
pub struct ToldMeasures<A: Allocator = Global> {
    pub(crate) nets: Vec<ToldNet<A>, A>,
    pub(crate) component: Option<ToldComponent<A>>,
}

impl<A: Allocator + Copy> ToldMeasures<A> {
    /// Of an edit that is about to change nothing that is measured. It takes no memory.
    pub fn nothing(alloc: A) -> ToldMeasures<A>
        ensures { (library : TheLibrary) (design : List Record) → IsToldIn library design (told_view result) }
    {
        ToldMeasures {
            nets: Vec::new(alloc),
            component: None,
        }
    }
}

/// What is measured of some nets of a text, unless one of them is told by more than is soon read.
fn told_nets<A: Allocator + Copy>(
    alloc: A,
    library: &Library<'_, A>,
    text: &DesignText<A>,
    common: &[StmtId],
    names: &[OwnName<A>],
) -> Result<Option<Vec<ToldNet<A>, A>>, AllocError>
    requires { AreCommon (records_in text.now) common.now }
    ensures told { IfOk result (λ found. IfSome found (λ v. AllByRecursion (IsNetIn library.now (design_of text.now)) (map net_view v.items))) }
    ensures named { IfOk result (λ found. IfSome found (λ v. told_names (map net_view v.items) ≡ names.now)) }
{
    let mut told = Vec::new(alloc);
    for name in names {
        match told_net(alloc, library, text, common, name.bytes())? {
            Some(net) => told.push(net)?,
            None => return Ok(None),
        }
    }
    Ok(Some(told))
}

/// What is measured of a net of a text.
pub(crate) fn told_by_net<A: Allocator + Copy>(
    alloc: A,
    library: &Library<'_, A>,
    text: &DesignText<A>,
    common: &[StmtId],
    net: &[u8],
) -> Result<Option<ToldMeasures<A>>, AllocError>
    requires { AreCommon (records_in text.now) common.now }
    ensures { IfOk result (λ found. IfSome found (λ t. IsToldIn library.now (design_of text.now) (told_view t))) }
{
    let mut names = Vec::new(alloc);
    names.push(OwnName::copy_of(alloc, net)?)?;
    let Some(nets) = told_nets(alloc, library, text, common, &names)? else {
        return Ok(None);
    };
    Ok(Some(ToldMeasures {
        nets,
        component: None,
    }))
}

/// What is measured of a component of a text, and of the nets that list it by its name.
pub(crate) fn told_by_component<A: Allocator + Copy>(
    alloc: A,
    library: &Library<'_, A>,
    text: &DesignText<A>,
    common: &[StmtId],
    heads: &StarHeads<A>,
    component: &[u8],
) -> Result<Option<ToldMeasures<A>>, AllocError>
    requires common { AreCommon (records_in text.now) common.now }
    requires heads { AreStarHeads (design_of text.now) heads.now }
    ensures { IfOk result (λ found. IfSome found (λ t. IsToldIn library.now (design_of text.now) (told_view t))) }
{
    let Some(names) = heads.others_listing(alloc, text, component)? else {
        return Ok(None);
    };
    let Some(nets) = told_nets(alloc, library, text, common, &names)? else {
        return Ok(None);
    };
    let Some(stars) = heads.pins_by(alloc, library, text, common, component)? else {
        return Ok(None);
    };
    let bounds = box_in(alloc, library, text, common, component)?;
    let name = OwnName::copy_of(alloc, component)?;
    Ok(Some(ToldMeasures {
        nets,
        component: Some(ToldComponent {
            name,
            bounds,
            stars,
        }),
    }))
}
