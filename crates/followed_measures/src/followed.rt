//! What was measured of a text, and how it follows an edit of a net, of a component, or of nothing that is measured.

ghost use Rattle.std.specs.Prelude.{◌≡◌, [], false, true, filter, IfOk, IfSome, IsTrue, List, map, None, Option, Some};
ghost use Rattle.std.specs.List.{AllByRecursion};
ghost use Rattle.std.specs.Option.{option_map};
ghost use Rattle.design_model.specs.declared.identifier.StmtId.{StmtId as Number};
ghost use Rattle.def_grammar.specs.Records.{Record};
ghost use Rattle.lef_grammar.specs.Library.{Library as TheLibrary};
ghost use Rattle.design_model.specs.Views.{rectangle_of};
ghost use Rattle.measuring_laws.specs.Measuring.{is_of_cells};
ghost use Rattle.net_laws.specs.NetChanges.{is_one_of};
ghost use Rattle.net_laws.specs.Within.{pin_in};
ghost use Rattle.design_text.specs.DesignTexts.{design_of};
ghost use Rattle.design_text.specs.Exchanges.{AreExchanges, records_in};
ghost use Rattle.reports.specs.Answers.{ReportsOn};
ghost use Rattle.followed_nets.specs.Noted.{AreCommon, said};
ghost use Rattle.followed_nets.specs.StarHeads.{AreStarHeads};
ghost use Rattle.followed_nets.specs.StarHeadViews.{pins_view};
ghost use Rattle.followed_nets.specs.SubjectViews.{subject_view};
ghost use Rattle.followed_nets.specs.Touched.{subject_by};
ghost use Rattle.followed_nets.specs.Within.{Leaves};
ghost use Rattle.followed_measures.specs.FollowedMeasures.{HasMeasures};
ghost use Rattle.followed_measures.specs.Told.{IsToldIn, told_names};
ghost use Rattle.followed_measures.specs.ToldViews.{net_view, told_view};

use crate::cells::exchanges_leave_cells;
use crate::component_box::box_in;
use crate::exchanging::exchange_stars;
use crate::exchanging_nets::exchange_nets;
use crate::told::ToldNet;
use crate::told_edit::{ToldComponent, ToldMeasures, told_by_component, told_by_net};
use cell_library::library::Library;
use design_model::identifier::StmtId;
use design_names::names::names_of;
use design_text::made::Made;
use design_text::text::DesignText;
use followed_nets::{EditSubject, StarHeads, common_numbers, exchanges_are_within};
use line_laws::scales::scales_are_good;
use measure_laws::lengths::lengths_fit;
use measure_laws::ranges::lines_fit;
use measuring_laws::{told_cells_follow, told_measures_follow};
use name_keys::OwnName;
use net_laws::told_nets_are_exchanged;
use reports::Reports;
use std::alloc::{AllocError, Allocator, Global};
use std::marker::Model;

/// What was measured of a text, and what is noted of its statements once an edit is to be followed.
pub struct FollowedMeasures<A: Allocator = Global> {
    reports: Reports<A>,
    /// The numbers of those that are read whichever net is told.
    common: Option<Vec<StmtId, A>>,
    /// The nets that list a pin of all components, unless these can't be followed.
    heads: Option<StarHeads<A>>,
}

// (written out, so that who owns this is proved over one call in the place of all that it keeps)
impl<A: Allocator> Drop for FollowedMeasures<A> {
    fn drop(self) {
        let FollowedMeasures {
            reports: _,
            common: _,
            heads: _,
        } = self;
    }
}

impl<A: Allocator> Model for FollowedMeasures<A> {
    ghost use Rattle.std.specs.Option.{option_map};
    ghost use Rattle.followed_measures.specs.FollowedMeasures.{Measures};

    ghost Value = { Measures };

    ghost view = { λ m. record { answers = m.reports; common = option_map (λ v. v.items) m.common; heads = m.heads } };
}

/// The lengths and boxes of all nets of a text, and its cells. Each statement is read once, from its piece.
fn reports_on<'t, A: Allocator + Copy>(
    alloc: A,
    library: &'t Library<'_, A>,
    text: &'t DesignText<A>,
) -> Result<Reports<A>, AllocError>
    ensures { IfOk result (ReportsOn library.now (design_of text.now)) }
{
    scales_are_good();
    lengths_fit();
    lines_fit();
    text.design_is_read();
    let records = text.statements(alloc)?;
    let names = names_of(alloc, library.hash_builder(), &records)?;
    Reports::open(alloc, library, &names)
}

/// The names of nets.
fn names_in<A: Allocator + Copy>(
    alloc: A,
    nets: &[ToldNet<A>],
) -> Result<Vec<OwnName<A>, A>, AllocError>
    ensures { IfOk result (λ v. v.items ≡ told_names (map net_view nets.now)) }
{
    let mut names = Vec::new(alloc);
    for net in nets {
        names.push(OwnName::copy_of(alloc, net.name.bytes())?)?;
    }
    Ok(names)
}

/// What an edit is of: this component, or none.
fn subject_of(component: Option<&[u8]>) -> EditSubject<'_>
    ensures subject { subject_view result ≡ subject_by (option_map (λ w. w.now) component.entry) None }
    ensures no_pin { pin_in (subject_view result) ≡ None }
{
    match component {
        Some(name) => EditSubject::Component(name),
        None => EditSubject::Neither,
    }
}

/// What an edit of these nets, or of this component, leaves: nothing else of what nets are made of was exchanged, and nothing else of
/// what cells hold beside nets.
fn leaves_others<A: Allocator + Copy>(
    alloc: A,
    text: &DesignText<A>,
    made: &Made<A>,
    nets: &[OwnName<A>],
    component: Option<&[u8]>,
) -> Result<bool, AllocError>
    requires { (old : List (Number × Record)) × AreExchanges text.now.pieces.table.slots old made.now.exchanges (records_in text.now) }
    ensures { (old : List (Number × Record)) (common : List Number) → AreExchanges text.now.pieces.table.slots old made.now.exchanges (records_in text.now) → AreCommon old common
        → IfOk result (λ b. b ≡ true → Leaves (said old) (said (records_in text.now)) nets.now (subject_by (option_map (λ w. w.now) component.entry) None) × AreCommon (records_in text.now) common
        × (filter (is_of_cells (option_map (λ w. w.now) component.entry)) (said old) ≡ filter (is_of_cells (option_map (λ w. w.now) component.entry)) (said (records_in text.now)))) }
{
    if !exchanges_are_within(alloc, text, made, nets, subject_of(component))? {
        return Ok(false);
    }
    exchanges_leave_cells(alloc, text, made, component)
}

impl<A: Allocator + Copy> FollowedMeasures<A> {
    /// Measures a text.
    pub fn of(
        alloc: A,
        library: &Library<'_, A>,
        text: &DesignText<A>,
    ) -> Result<FollowedMeasures<A>, AllocError>
        ensures { IfOk result (HasMeasures library.now (records_in text.now)) }
    {
        text.statements_are_kept();
        let reports = reports_on(alloc, library, text)?;
        Ok(FollowedMeasures::made(reports))
    }

    /// What was measured of a text already.
    pub fn made(reports: Reports<A>) -> FollowedMeasures<A>
        ensures { (library : TheLibrary) (records : List (Number × Record)) → ReportsOn library (said records) reports → HasMeasures library records result }
    {
        FollowedMeasures {
            reports,
            common: None,
            heads: None,
        }
    }

    /// What was measured.
    pub fn reports(&self) -> &Reports<A>
        ensures { result.now ≡ self.now.answers }
    {
        &self.reports
    }

    /// Notes what edits are followed by, if it isn't noted. All statements are read for that.
    fn note(&mut self, alloc: A, text: &DesignText<A>) -> Result<(), AllocError>
        requires { IfSome self.old.common (AreCommon (records_in text.now)) }
        ensures answers { self.new.answers ≡ self.old.answers }
        ensures common { IfSome self.new.common (AreCommon (records_in text.now)) }
        ensures heads { IfSome self.old.heads (AreStarHeads (said (records_in text.now))) → IfSome self.new.heads (AreStarHeads (said (records_in text.now))) }
    {
        text.statements_are_kept();
        if self.common.is_some() {
            return Ok(());
        }
        let statements = text.numbered_statements(alloc)?;
        let common = common_numbers(alloc, &statements)?;
        let heads = StarHeads::of(alloc, text, &statements)?;
        self.common = Some(common);
        self.heads = heads;
        Ok(())
    }

    /// What is measured of the net that an edit is about to change, by few statements; `None` where it has no entry, or one in each
    /// section, or is told by more than is soon read.
    pub fn told_by_net(
        &mut self,
        alloc: A,
        library: &Library<'_, A>,
        text: &DesignText<A>,
        net: &[u8],
    ) -> Result<Option<ToldMeasures<A>>, AllocError>
        requires { HasMeasures library.now (records_in text.now) self.old }
        ensures told { IfOk result (λ found. IfSome found (λ t. IsToldIn library.now (design_of text.now) (told_view t))) }
        ensures measures { HasMeasures library.now (records_in text.now) self.new }
    {
        self.note(alloc, text)?;
        let Some(common) = &self.common else {
            return Ok(None);
        };
        told_by_net(alloc, library, text, common, net)
    }

    /// What is measured of the component that an edit is about to change, and of the nets that list it; `None` where these are many, or
    /// can't be told so.
    pub fn told_by_component(
        &mut self,
        alloc: A,
        library: &Library<'_, A>,
        text: &DesignText<A>,
        component: &[u8],
    ) -> Result<Option<ToldMeasures<A>>, AllocError>
        requires { HasMeasures library.now (records_in text.now) self.old }
        ensures told { IfOk result (λ found. IfSome found (λ t. IsToldIn library.now (design_of text.now) (told_view t))) }
        ensures measures { HasMeasures library.now (records_in text.now) self.new }
    {
        text.statements_are_kept();
        self.note(alloc, text)?;
        let Some(common) = &self.common else {
            return Ok(None);
        };
        let Some(heads) = &self.heads else {
            return Ok(None);
        };
        told_by_component(alloc, library, text, common, heads, component)
    }

    /// Whether none of the nets that list a pin of all components has one of these names.
    fn are_others(&self, names: &[OwnName<A>]) -> bool
        ensures { IsTrue result → IfSome self.now.heads (AllByRecursion (λ h. is_one_of names.now h.name ≡ false)) }
    {
        match &self.heads {
            Some(heads) => heads.are_others(names),
            None => true,
        }
    }

    /// Follows an edit that is of no component, after which these nets are as they are told by few statements.
    fn follow_nets(
        &mut self,
        alloc: A,
        library: &Library<'_, A>,
        text: &DesignText<A>,
        made: &Made<A>,
        nets: Vec<ToldNet<A>, A>,
    ) -> Result<bool, AllocError>
        requires { (old : List (Number × Record)) × AreExchanges text.now.pieces.table.slots old made.now.exchanges (records_in text.now) × IfSome self.old.common (AreCommon old) }
        ensures { (old : List (Number × Record)) → AreExchanges text.now.pieces.table.slots old made.now.exchanges (records_in text.now) → IsToldIn library.now (said old) (record { nets = map net_view nets.items; component = None; bounds = None; stars = [] }) → HasMeasures library.now old self.old
            → IfOk result (λ b. b ≡ true → HasMeasures library.now (records_in text.now) self.new) }
    {
        text.statements_are_kept();
        told_measures_follow();
        told_nets_are_exchanged();
        told_cells_follow();
        let names = names_in(alloc, &nets)?;
        if !self.are_others(&names) || !leaves_others(alloc, text, made, &names, None)? {
            return Ok(false);
        }
        let Some(common) = &self.common else {
            return Ok(nets.is_empty());
        };
        exchange_nets(&mut self.reports, alloc, library, text, common, nets)
    }

    /// Follows an edit of a component: first the nets that list a pin of all components, then those that list it by its name, then its
    /// box.
    fn follow_component(
        &mut self,
        alloc: A,
        library: &Library<'_, A>,
        text: &DesignText<A>,
        made: &Made<A>,
        nets: Vec<ToldNet<A>, A>,
        own: ToldComponent<A>,
    ) -> Result<bool, AllocError>
        requires { (old : List (Number × Record)) × AreExchanges text.now.pieces.table.slots old made.now.exchanges (records_in text.now) × HasMeasures library.now old self.old }
        ensures { (old : List (Number × Record)) → AreExchanges text.now.pieces.table.slots old made.now.exchanges (records_in text.now) → IsToldIn library.now (said old) (record { nets = map net_view nets.items; component = Some own.name; bounds = option_map rectangle_of own.bounds; stars = map pins_view own.stars.items }) → HasMeasures library.now old self.old
            → IfOk result (λ b. b ≡ true → HasMeasures library.now (records_in text.now) self.new) }
    {
        text.statements_are_kept();
        told_measures_follow();
        told_nets_are_exchanged();
        told_cells_follow();
        let none = Vec::new(alloc);
        let name = own.name.bytes();
        if !leaves_others(alloc, text, made, &none, Some(name))? {
            return Ok(false);
        }
        let (Some(common), Some(heads)) = (&self.common, &self.heads) else {
            return Ok(false);
        };
        let Some(after) = heads.pins_by(alloc, library, text, common, name)? else {
            return Ok(false);
        };
        let come = box_in(alloc, library, text, common, name)?;
        if !exchange_stars(&mut self.reports, own.stars, after)? {
            return Ok(false);
        }
        if !exchange_nets(&mut self.reports, alloc, library, text, common, nets)? {
            return Ok(false);
        }
        self.reports.exchange_component(own.bounds, come)?;
        Ok(true)
    }

    /// Follows an edit that was made, and says whether it could: it can where the edit left all that is measured but for what was told
    /// before it. If not, or after an error, what was measured isn't to be used any more.
    pub fn follow(
        &mut self,
        alloc: A,
        library: &Library<'_, A>,
        text: &DesignText<A>,
        made: &Made<A>,
        told: ToldMeasures<A>,
    ) -> Result<bool, AllocError>
        requires { (old : List (Number × Record)) × AreExchanges text.now.pieces.table.slots old made.now.exchanges (records_in text.now) × IsToldIn library.now (said old) (told_view told) × HasMeasures library.now old self.old }
        ensures { (old : List (Number × Record)) → AreExchanges text.now.pieces.table.slots old made.now.exchanges (records_in text.now) → IsToldIn library.now (said old) (told_view told) → HasMeasures library.now old self.old
            → IfOk result (λ b. b ≡ true → HasMeasures library.now (records_in text.now) self.new) }
    {
        let ToldMeasures { nets, component } = told;
        match component {
            Some(own) => self.follow_component(alloc, library, text, made, nets, own),
            None => self.follow_nets(alloc, library, text, made, nets),
        }
    }
}
