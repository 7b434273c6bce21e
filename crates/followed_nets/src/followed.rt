//! The nets of a text that are noted, and the lines on them that follow.

ghost use Rattle.std.specs.Prelude.{◌≡◌, ◌++◌, ◌∷◌, ◌+◌, ◌*◌, ◌≤◌, ℕ, [], false, true, IfNone, IfOk, IfSome, IsTrue, List, None, Some, flat_map, map};
ghost use Rattle.std.specs.List.{AllByRecursion};
ghost use Rattle.std.specs.Option.{option_map};
ghost use Rattle.design_model.specs.declared.identifier.StmtId.{StmtId as Number};
ghost use Rattle.def_grammar.specs.Records.{Record};
ghost use Rattle.connection_rules.specs.NetLines.{Barrier as TheBarrier, barriers, layer_name};
ghost use Rattle.connection_rules.specs.NetParts.{Net};
ghost use Rattle.design_rules.specs.Boxes.{scale};
ghost use Rattle.line_laws.specs.Lines.{SameLines, SameThings};
ghost use Rattle.net_laws.specs.Blocked.{BarsChange};
ghost use Rattle.net_laws.specs.NetChanges.{is_one_of};
ghost use Rattle.net_laws.specs.Within.{NoOtherLists};
ghost use Rattle.design_text.specs.DesignTexts.{design_of};
ghost use Rattle.design_text.specs.Exchanges.{AreExchanges, records_in};
ghost use Rattle.net_touches.specs.Barriers.{barrier_view};
ghost use Rattle.followed_nets.specs.Blocked.{AllTell, barred_lines};
ghost use Rattle.followed_nets.specs.FollowedNets.{HasNets};
ghost use Rattle.followed_nets.specs.Heads.{IsHead};
ghost use Rattle.followed_nets.specs.Listed.{AllList, AllOfPin, AreApart};
ghost use Rattle.followed_nets.specs.Noted.{AreCommon, said};
ghost use Rattle.followed_nets.specs.Pieces.{AreOnPieces, ArePieces, Piece};
ghost use Rattle.followed_nets.specs.StarExchanges.{AwaitsOwn, HaveComponent};
ghost use Rattle.followed_nets.specs.Stars.{IsStar, names_of};
ghost use Rattle.followed_nets.specs.StarTests.{FewForStars};
ghost use Rattle.followed_nets.specs.SubjectViews.{subject_view};
ghost use Rattle.followed_nets.specs.Tests.{FewBarred, FewTests, near_barred, near_pairs, near_told};
ghost use Rattle.followed_nets.specs.ToldViews.{star_view, stars_of, told_view};
ghost use Rattle.followed_nets.specs.Touched.{AreBarred, AreFollowed, ArePinsOf, AreTouched, star_names, subject_by};
ghost use Rattle.followed_nets.specs.Within.{Fits, LeavesOthers};

use crate::blocked::{BarredLines, ChangedBars, changed_bars, lines_near, nets_near};
use crate::exchanging::{FollowedOnNets, exchange_nets};
use crate::exchanging_bars::{exchange_bars, exchange_lines};
use crate::heads::{Head, are_of_others, heads_if};
use crate::listed::{add_name, nets_listing, nets_of_pin};
use crate::noted::{common_numbers, drawn_nets, star_names};
use crate::numbers::numbers_after;
use crate::star_exchange::{ExchangedStars, ToldExchange, exchange_stars, with_more};
use crate::taking_bars::without_both;
use crate::told::tests_told;
use crate::touched::{TouchedComponent, TouchedNets, are_named, told_nets, told_stars};
use crate::within::{EditSubject, exchanges_are_within, is_one_of};
use cell_library::library::Library;
use design_model::identifier::StmtId;
use design_text::made::Made;
use design_text::text::DesignText;
use kept_lines::KeptLines;
use kept_nets::KeptNet;
use lefdef_tokens::is_word;
use line_laws::sorting::same_lines_sort_alike;
use name_keys::OwnName;
use named_shapes::NamedShapes;
use net_checks::layer_names::layer_names;
use net_laws::{
    barred_lines_follow, bars_are_exchanged, entries_tell, nets_are_told, one_component_exchanged,
    pin_lines_follow, told_nets_are_exchanged,
};
use net_queries::short_is_symmetric;
use net_touches::{Barrier, layers_have_their_names};
use std::alloc::{AllocError, Allocator, Global};
use std::marker::Model;

/// The shapes of the nets of a text under the nets' names, which statements are read whichever net is told, and where routing is blocked.
#[derive(Drop)]
pub struct FollowedNets<A: Allocator = Global> {
    shapes: NamedShapes<A>,
    common: Vec<StmtId, A>,
    /// Where routing is blocked.
    bars: Vec<Barrier, A>,
    /// The nets that list a pin of all components, unless they aren't kept.
    stars: Option<Vec<KeptNet<A>, A>>,
    /// Heads of these, which are read at each edit of a component. A net without one isn't followed then.
    heads: Vec<Head<A>, A>,
}

impl<A: Allocator> Model for FollowedNets<A> {
    ghost use Rattle.std.specs.Prelude.{map};
    ghost use Rattle.std.specs.Option.{option_map};
    ghost use Rattle.net_touches.specs.Barriers.{barrier_view};
    ghost use Rattle.followed_nets.specs.FollowedNets.{Nets};
    ghost use Rattle.followed_nets.specs.ToldViews.{head_view};

    ghost Value = { Nets };

    ghost view = { λ n. record { shapes = n.shapes; common = n.common.items; bars = map barrier_view n.bars.items; stars = option_map (λ v. v.items) n.stars; heads = map head_view n.heads.items } };
}

impl<A: Allocator + Copy> TouchedNets<A> {
    /// What the edit is of where it is of no component.
    fn pin_or_neither(&self) -> EditSubject<'_>
        ensures { subject_view result ≡ subject_by None self.entry.now.pin }
    {
        match &self.pin {
            Some(name) => EditSubject::Pin(name.bytes()),
            None => EditSubject::Neither,
        }
    }

    /// Whether an edit that was made changed no other nets.
    fn are_all(&self, alloc: A, text: &DesignText<A>, made: &Made<A>) -> Result<bool, AllocError>
        requires { (old : List (Number × Record)) × AreExchanges text.now.pieces.table.slots old made.now.exchanges (records_in text.now) }
        ensures { (old : List (Number × Record)) (common : List Number) → AreExchanges text.now.pieces.table.slots old made.now.exchanges (records_in text.now)
            → NoOtherLists (said old) (self.now.names ++ star_names self.now.stars) (subject_by self.now.component self.now.pin)
            → IfOk result (λ b. b ≡ true → LeavesOthers (said old) (said (records_in text.now)) self.now × (self.now.pin ≡ None → AreCommon old common → AreCommon (records_in text.now) common)) }
    {
        match &self.component {
            Some(own) => {
                let none = Vec::new(alloc);
                exchanges_are_within(
                    alloc,
                    text,
                    made,
                    &none,
                    EditSubject::Component(own.name.bytes()),
                )
            }
            None => exchanges_are_within(alloc, text, made, &self.names, self.pin_or_neither()),
        }
    }
}

/// Whether a net of this name is among those that are kept with their parts.
fn is_kept<A: Allocator + Copy>(stars: &[KeptNet<A>], name: &[u8]) -> bool
    ensures { result ≡ is_one_of (names_of stars.now) name.now }
{
    for star in stars {
        if star.name() == name {
            return true;
        }
    }
    false
}

/// Whether none of the nets that are kept with their parts has one of these names.
fn are_others<A: Allocator + Copy>(stars: &[KeptNet<A>], names: &[OwnName<A>]) -> bool
    ensures { IsTrue result → AllByRecursion (λ s. is_one_of names.now s.name ≡ false) stars.now }
{
    for star in stars {
        if is_one_of(names, star.name()) {
            return false;
        }
    }
    true
}

/// Those of these names that aren't of nets kept with their parts.
fn names_of_others<A: Allocator + Copy>(
    alloc: A,
    names: &[OwnName<A>],
    stars: &[KeptNet<A>],
) -> Result<Vec<OwnName<A>, A>, AllocError>
    ensures apart { AreApart names.now → AreApart (names_of stars.now) → IfOk result (λ v. AreApart (v.items ++ names_of stars.now)) }
    ensures all { IfOk result (λ v. (net : List ℕ) → is_one_of names.now net ≡ true → is_one_of (v.items ++ names_of stars.now) net ≡ true) }
    ensures only { IfOk result (λ v. (net : List ℕ) → is_one_of v.items net ≡ true → is_one_of names.now net ≡ true) }
{
    let mut others = Vec::new(alloc);
    for name in names {
        if !is_kept(stars, name.bytes()) {
            add_name(alloc, &mut others, name.bytes())?;
        }
    }
    Ok(others)
}

impl<A: Allocator + Copy> FollowedNets<A> {
    /// Notes the nets of a text.
    pub fn of(
        alloc: A,
        library: &Library<'_, A>,
        text: &DesignText<A>,
    ) -> Result<FollowedNets<A>, AllocError>
        ensures { IfOk result (HasNets library.now (records_in text.now)) }
    {
        text.statements_are_kept();
        let statements = text.numbered_statements(alloc)?;
        let common = common_numbers(alloc, &statements)?;
        let names = star_names(alloc, &statements)?;
        let drawn = drawn_nets(alloc, library, text, names)?;
        let heads = heads_if(alloc, text, &drawn.stars)?;
        Ok(FollowedNets {
            shapes: drawn.shapes,
            common,
            bars: drawn.bars,
            stars: drawn.stars,
            heads,
        })
    }

    /// These nets of a text, which an edit of this component, or else of this pin of the design, is about to change.
    fn touched(
        &self,
        alloc: A,
        library: &Library<'_, A>,
        text: &DesignText<A>,
        names: Vec<OwnName<A>, A>,
        component: Option<TouchedComponent<A>>,
        pin: Option<OwnName<A>>,
    ) -> Result<Option<TouchedNets<A>>, AllocError>
        requires common { AreCommon (records_in text.now) self.now.common }
        requires bars { SameThings self.now.bars (barriers library.now (design_of text.now) (scale (design_of text.now))) }
        requires apart { AreApart (names.items ++ star_names (stars_of component)) }
        requires lists { NoOtherLists (design_of text.now) (names.items ++ star_names (stars_of component)) (subject_by (option_map (λ c. c.name) component) pin) }
        requires pins { ArePinsOf library.now (design_of text.now) (option_map (λ c. c.name) component) (stars_of component) }
        ensures touched { IfOk result (λ found. IfSome found (AreTouched library.now (design_of text.now))) }
        ensures names { IfOk result (λ found. IfSome found (λ t. t.names ≡ names.items)) }
        ensures component { IfOk result (λ found. IfSome found (λ t. (t.component ≡ option_map (λ c. c.name) component) × (t.stars ≡ stars_of component))) }
    {
        let common = &self.common;
        let bars = &self.bars;
        let Some(before) = told_nets(alloc, library, text, common, bars, &names)? else {
            return Ok(None);
        };
        Ok(Some(TouchedNets {
            names,
            before,
            component,
            pin,
        }))
    }

    /// The net that an edit of it is about to change, as it is in a text, unless it is told by more than is soon read.
    pub fn touched_by_net(
        &self,
        alloc: A,
        library: &Library<'_, A>,
        text: &DesignText<A>,
        net: &[u8],
    ) -> Result<Option<TouchedNets<A>>, AllocError>
        requires { HasNets library.now (records_in text.now) self.now }
        ensures touched { IfOk result (λ found. IfSome found (AreTouched library.now (design_of text.now))) }
        ensures names { IfOk result (λ found. IfSome found (λ t. (t.names ≡ net.now ∷ []) × (t.stars ≡ []) × (t.component ≡ None))) }
    {
        text.statements_are_kept();
        let mut names = Vec::new(alloc);
        names.push(OwnName::copy_of(alloc, net)?)?;
        self.touched(alloc, library, text, names, None, None)
    }

    /// The nets that an edit of a component is about to change, as they are in a text: those that list a pin of it, and what it is to
    /// those that list a pin of all components.
    pub fn touched_by_component(
        &self,
        alloc: A,
        library: &Library<'_, A>,
        text: &DesignText<A>,
        component: &[u8],
    ) -> Result<Option<TouchedNets<A>>, AllocError>
        requires { HasNets library.now (records_in text.now) self.now }
        ensures touched { IfOk result (λ found. IfSome found (AreTouched library.now (design_of text.now))) }
        ensures names { IfOk result (λ found. IfSome found (λ t. AllList (design_of text.now) component.now (t.names ++ star_names t.stars) × (t.component ≡ Some component.now))) }
    {
        text.statements_are_kept();
        // (pins of the design, and virtual ones, stand under these names in entries of nets)
        if is_word(component, b"PIN") || is_word(component, b"VPIN") {
            return Ok(None);
        }
        let Some(kept) = &self.stars else {
            return Ok(None);
        };
        let Some(listing) = nets_listing(alloc, text, component)? else {
            return Ok(None);
        };
        let common = &self.common;
        let heads = &self.heads;
        let Some(stars) = told_stars(alloc, library, text, common, heads, kept, component)? else {
            return Ok(None);
        };
        let names = names_of_others(alloc, &listing, kept)?;
        let name = OwnName::copy_of(alloc, component)?;
        self.touched(
            alloc,
            library,
            text,
            names,
            Some(TouchedComponent { name, stars }),
            None,
        )
    }

    /// The nets that an edit of a pin of the design is about to change, as they are in a text: those that list it, and the one that it
    /// names.
    pub fn touched_by_pin(
        &self,
        alloc: A,
        library: &Library<'_, A>,
        text: &DesignText<A>,
        pin: &[u8],
    ) -> Result<Option<TouchedNets<A>>, AllocError>
        requires { HasNets library.now (records_in text.now) self.now }
        ensures touched { IfOk result (λ found. IfSome found (AreTouched library.now (design_of text.now))) }
        ensures names { IfOk result (λ found. IfSome found (λ t. AllOfPin (design_of text.now) pin.now t.names × (t.stars ≡ []) × (t.component ≡ None))) }
    {
        text.statements_are_kept();
        let Some(names) = nets_of_pin(alloc, text, pin)? else {
            return Ok(None);
        };
        let pin = OwnName::copy_of(alloc, pin)?;
        self.touched(alloc, library, text, names, None, Some(pin))
    }

    /// Whether the nets that are kept with their parts are those that an edit of a component touched, and others than those that an
    /// edit of a net touched; and whether those with heads are others than these, too.
    fn fits(&self, touched: &TouchedNets<A>) -> bool
        ensures { IsTrue result → Fits self.now.stars self.now.heads touched.now }
    {
        match (&self.stars, &touched.component) {
            (Some(stars), Some(own)) => are_named(stars, &own.stars),
            (Some(stars), None) => {
                are_others(stars, &touched.names) && are_of_others(&self.heads, &touched.names)
            }
            (None, Some(_)) => false,
            (None, None) => are_of_others(&self.heads, &touched.names),
        }
    }

    /// What goes and what comes once the pins of a component are exchanged in the nets that are kept with their parts, behind what is told
    /// of other nets. The nets that are kept follow.
    fn exchange_own(
        &mut self,
        alloc: A,
        library: &Library<'_, A>,
        text: &DesignText<A>,
        own: TouchedComponent<A>,
        told: ToldExchange<A>,
    ) -> Result<Option<ToldExchange<A>>, AllocError>
        requires common { AreCommon (records_in text.now) self.old.common }
        requires heads { AllByRecursion (IsHead (said (records_in text.now))) self.old.heads }
        ensures shapes { self.new.shapes ≡ self.old.shapes }
        ensures common { self.new.common ≡ self.old.common }
        ensures bars { self.new.bars ≡ self.old.bars }
        ensures heads { self.new.heads ≡ self.old.heads }
        ensures own { (old : List Record) (stars : List Net) → self.old.stars ≡ Some stars → AwaitsOwn library.now old (said (records_in text.now)) own.name stars (map star_view own.stars.items)
            → IfOk result (λ found. IfSome found (λ e. HaveComponent library.now old (said (records_in text.now)) own.name (names_of stars) (map told_view told.gone.items) (map told_view told.come.items) self.new.stars (map told_view e.gone.items) (map told_view e.come.items))) }
        ensures few { (stars : List Net) → self.old.stars ≡ Some stars → IfOk result (λ found. IfSome found (λ e. FewForStars stars self.new.stars told.tests e.tests)) }
    {
        text.statements_are_kept();
        let Some(stars) = self.stars.take() else {
            return Ok(None);
        };
        let name = own.name.bytes();
        let common = &self.common;
        let heads = &self.heads;
        let Some(after) = told_stars(alloc, library, text, common, heads, &stars, name)? else {
            return Ok(None);
        };
        let Some(exchanged) = exchange_stars(alloc, stars, own.stars, after)? else {
            return Ok(None);
        };
        let ExchangedStars {
            stars,
            gone,
            come,
            tests,
        } = exchanged;
        self.stars = Some(stars);
        let all = with_more(told, gone, come, tests)?;
        Ok(Some(all))
    }

    /// The same where the edit was of a component; where it was of none, what is told of other nets.
    fn exchange_stars(
        &mut self,
        alloc: A,
        library: &Library<'_, A>,
        text: &DesignText<A>,
        component: Option<TouchedComponent<A>>,
        told: ToldExchange<A>,
    ) -> Result<Option<ToldExchange<A>>, AllocError>
        requires common { AreCommon (records_in text.now) self.old.common }
        requires heads { AllByRecursion (IsHead (said (records_in text.now))) self.old.heads }
        ensures shapes { self.new.shapes ≡ self.old.shapes }
        ensures common { self.new.common ≡ self.old.common }
        ensures bars { self.new.bars ≡ self.old.bars }
        ensures heads { self.new.heads ≡ self.old.heads }
        ensures none { IfNone component (self.new.stars ≡ self.old.stars × IfOk result (λ found. IfSome found (λ e. e ≡ told))) }
        ensures own { IfSome component (λ own. (old : List Record) (stars : List Net) → self.old.stars ≡ Some stars → AwaitsOwn library.now old (said (records_in text.now)) own.name stars (map star_view own.stars.items)
            → IfOk result (λ found. IfSome found (λ e. HaveComponent library.now old (said (records_in text.now)) own.name (names_of stars) (map told_view told.gone.items) (map told_view told.come.items) self.new.stars (map told_view e.gone.items) (map told_view e.come.items)))) }
        ensures few { IfSome component (λ _. (stars : List Net) → self.old.stars ≡ Some stars → IfOk result (λ found. IfSome found (λ e. FewForStars stars self.new.stars told.tests e.tests))) }
    {
        match component {
            Some(own) => self.exchange_own(alloc, library, text, own, told),
            None => Ok(Some(told)),
        }
    }

    /// The lines on nets once all that goes is taken out and then all that comes is put in, so that nothing of what went is compared with
    /// what came. The shapes follow, too.
    fn exchange(
        &mut self,
        alloc: A,
        library: &Library<'_, A>,
        told: ToldExchange<A>,
        start: FollowedOnNets<A>,
    ) -> Result<Option<FollowedOnNets<A>>, AllocError>
        requires { (bars : List TheBarrier) × (out : List Piece) × (put : List Piece) × (rest : List Piece) × ArePieces (layer_name library.now.layers) bars out (map told_view told.gone.items) × ArePieces (layer_name library.now.layers) bars put (map told_view told.come.items) × AreOnPieces (layer_name library.now.layers) bars (out ++ rest) self.old.shapes start.lines.lines }
        ensures common { self.new.common ≡ self.old.common }
        ensures bars { self.new.bars ≡ self.old.bars }
        ensures heads { self.new.heads ≡ self.old.heads }
        ensures stars { self.new.stars ≡ self.old.stars }
        ensures lines { (bars : List TheBarrier) (out put rest : List Piece) → ArePieces (layer_name library.now.layers) bars out (map told_view told.gone.items) → ArePieces (layer_name library.now.layers) bars put (map told_view told.come.items) → AreOnPieces (layer_name library.now.layers) bars (out ++ rest) self.old.shapes start.lines.lines
            → IfOk result (λ found. IfSome found (λ f. AreOnPieces (layer_name library.now.layers) bars (put ++ rest) self.new.shapes f.lines.lines)) }
        ensures tests { IfOk result (λ found. IfSome found (λ f. f.tests ≤ start.tests + (near_told (map told_view told.gone.items) self.old.shapes + near_told (map told_view told.come.items) self.new.shapes))) }
    {
        layers_have_their_names();
        let layers = layer_names(alloc, library)?;
        let found = exchange_nets(alloc, &layers, &mut self.shapes, told, start)?;
        Ok(found)
    }

    /// The numbers of the statements that are read whichever net is told, after an edit: they stay, unless it is one of a pin of the design.
    fn common_after(
        &self,
        alloc: A,
        text: &DesignText<A>,
        made: &Made<A>,
        touched: &TouchedNets<A>,
    ) -> Result<Option<Vec<StmtId, A>>, AllocError>
        requires { (old : List (Number × Record)) × AreExchanges text.now.pieces.table.slots old made.now.exchanges (records_in text.now) }
        ensures { (old : List (Number × Record)) → AreExchanges text.now.pieces.table.slots old made.now.exchanges (records_in text.now) → AreCommon old self.now.common
            → (touched.now.pin ≡ None → AreCommon (records_in text.now) self.now.common) → IfOk result (λ found. IfSome found (λ v. AreCommon (records_in text.now) v.items)) }
    {
        match &touched.pin {
            Some(_) => numbers_after(alloc, text, made, &self.common),
            None => Ok(Some(Vec::from_slice(alloc, &self.common)?)),
        }
    }

    /// The lines on the nets of a text after an edit, with the rectangles where routing was blocked before it, from the lines then.
    fn follow_nets(
        &mut self,
        alloc: A,
        library: &Library<'_, A>,
        text: &DesignText<A>,
        made: &Made<A>,
        touched: TouchedNets<A>,
        kept: KeptLines<A>,
    ) -> Result<Option<FollowedOnNets<A>>, AllocError>
        requires { (old : List (Number × Record)) × AreExchanges text.now.pieces.table.slots old made.now.exchanges (records_in text.now) × AreTouched library.now (said old) touched × AreFollowed library.now old self.old kept }
        ensures lines { (old : List (Number × Record)) → AreExchanges text.now.pieces.table.slots old made.now.exchanges (records_in text.now) → AreTouched library.now (said old) touched → AreFollowed library.now old self.old kept
            → IfOk result (λ found. IfSome found (λ f. AreBarred library.now (records_in text.now) (barriers library.now (said old) (scale (said old))) self.new f.lines)) }
        ensures tests { (old : List (Number × Record)) → AreExchanges text.now.pieces.table.slots old made.now.exchanges (records_in text.now) → AreTouched library.now (said old) touched → AreFollowed library.now old self.old kept
            → let names = touched.names ++ star_names touched.stars in
            IfOk result (λ found. IfSome found (λ f. f.tests ≤ 2 * (near_pairs library.now (said old) names + near_pairs library.now (said (records_in text.now)) names))) }
    {
        told_nets_are_exchanged();
        one_component_exchanged();
        entries_tell();
        nets_are_told();
        pin_lines_follow();
        short_is_symmetric();
        same_lines_sort_alike();
        text.statements_are_kept();
        if !touched.are_all(alloc, text, made)? {
            return Ok(None);
        }
        if !self.fits(&touched) {
            return Ok(None);
        }
        let Some(common) = self.common_after(alloc, text, made, &touched)? else {
            return Ok(None);
        };
        self.common = common;
        let TouchedNets {
            names,
            before,
            component,
            pin: _,
        } = touched;
        let common = &self.common;
        let bars = &self.bars;
        let Some(after) = told_nets(alloc, library, text, common, bars, &names)? else {
            return Ok(None);
        };
        let tests = tests_told(&before).saturating_add(tests_told(&after));
        let told = ToldExchange {
            gone: before,
            come: after,
            tests,
        };
        let Some(all) = self.exchange_stars(alloc, library, text, component, told)? else {
            return Ok(None);
        };
        let start = FollowedOnNets {
            lines: kept,
            tests: all.tests,
        };
        let Some(followed) = self.exchange(alloc, library, all, start)? else {
            return Ok(None);
        };
        Ok(Some(followed))
    }

    /// The lines of nets with rectangles that went or came, told net by net.
    fn barred_lines(
        &self,
        alloc: A,
        library: &Library<'_, A>,
        text: &DesignText<A>,
        names: &[OwnName<A>],
        changed: &ChangedBars<A>,
    ) -> Result<Option<BarredLines<A>>, AllocError>
        requires common { AreCommon (records_in text.now) self.now.common }
        requires stars { IfSome self.now.stars (AllByRecursion (IsStar library.now (said (records_in text.now)))) }
        ensures tells { IfOk result (λ found. IfSome found (λ _. AllTell (said (records_in text.now)) names.now)) }
        ensures out { IfOk result (λ found. IfSome found (λ l. SameLines l.out (flat_map (barred_lines (layer_name library.now.layers) library.now (said (records_in text.now)) (map barrier_view changed.now.gone.items)) names.now))) }
        ensures put { IfOk result (λ found. IfSome found (λ l. SameLines l.put (flat_map (barred_lines (layer_name library.now.layers) library.now (said (records_in text.now)) (map barrier_view changed.now.come.items)) names.now))) }
    {
        layers_have_their_names();
        text.statements_are_kept();
        let layers = layer_names(alloc, library)?;
        let common = &self.common;
        match &self.stars {
            Some(stars) => {
                lines_near(alloc, library, text, common, stars, &layers, names, changed)
            }
            None => {
                let none = Vec::new(alloc);
                lines_near(alloc, library, text, common, &none, &layers, names, changed)
            }
        }
    }

    /// The lines on the nets of a text once these rectangles went and came.
    fn exchange_blocked(
        &mut self,
        alloc: A,
        library: &Library<'_, A>,
        text: &DesignText<A>,
        changed: ChangedBars<A>,
        followed: FollowedOnNets<A>,
    ) -> Result<Option<FollowedOnNets<A>>, AllocError>
        requires { (old : List TheBarrier) × (new : List TheBarrier) × BarsChange old new (map barrier_view changed.gone.items) (map barrier_view changed.come.items) × AreBarred library.now (records_in text.now) old self.old followed.lines }
        ensures lines { (old new : List TheBarrier) → BarsChange old new (map barrier_view changed.gone.items) (map barrier_view changed.come.items) → AreBarred library.now (records_in text.now) old self.old followed.lines
            → IfOk result (λ found. IfSome found (λ f. AreBarred library.now (records_in text.now) new self.new f.lines)) }
        ensures tests { IfOk result (λ found. IfSome found (λ f. f.tests ≤ followed.tests + near_barred (map barrier_view changed.gone.items ++ map barrier_view changed.come.items) self.old.shapes)) }
    {
        told_nets_are_exchanged();
        barred_lines_follow();
        same_lines_sort_alike();
        let Some(near) = nets_near(alloc, &self.shapes, &changed)? else {
            return Ok(None);
        };
        let Some(lines) = self.barred_lines(alloc, library, text, &near.names, &changed)? else {
            return Ok(None);
        };
        let FollowedOnNets { lines: kept, tests } = followed;
        let Some(lines) = exchange_lines(alloc, kept, lines)? else {
            return Ok(None);
        };
        if !exchange_bars(&mut self.bars, changed)? {
            return Ok(None);
        }
        let tests = tests.saturating_add(near.tests);
        Ok(Some(FollowedOnNets { lines, tests }))
    }

    /// The lines on the nets of a text once the rectangles of the statements that an edit exchanged went and came.
    fn follow_blocked(
        &mut self,
        alloc: A,
        library: &Library<'_, A>,
        text: &DesignText<A>,
        made: &Made<A>,
        followed: FollowedOnNets<A>,
    ) -> Result<Option<FollowedOnNets<A>>, AllocError>
        requires { (old : List (Number × Record)) × AreExchanges text.now.pieces.table.slots old made.now.exchanges (records_in text.now) × AreBarred library.now (records_in text.now) (barriers library.now (said old) (scale (said old))) self.old followed.lines }
        ensures lines { (old : List (Number × Record)) → AreExchanges text.now.pieces.table.slots old made.now.exchanges (records_in text.now) → AreBarred library.now (records_in text.now) (barriers library.now (said old) (scale (said old))) self.old followed.lines
            → IfOk result (λ found. IfSome found (λ f. AreFollowed library.now (records_in text.now) self.new f.lines)) }
        ensures tests { (old : List (Number × Record)) → AreExchanges text.now.pieces.table.slots old made.now.exchanges (records_in text.now)
            → IfOk result (λ found. IfSome found (λ f. FewBarred library.now (said old) (said (records_in text.now)) self.old.shapes followed.tests f.tests)) }
    {
        bars_are_exchanged();
        same_lines_sort_alike();
        let Some(changed) = changed_bars(alloc, library, text, made)? else {
            return Ok(None);
        };
        let left = without_both(alloc, changed)?;
        if left.are_none() {
            return Ok(Some(followed));
        }
        let Some(found) = self.exchange_blocked(alloc, library, text, left, followed)? else {
            return Ok(None);
        };
        Ok(Some(found))
    }

    /// The lines on the nets of a text after an edit, from those before it, where it changed no other nets than those that it touched, and how
    /// many pairs of shapes were compared; `None` where the lines are to be made anew. What is noted then follows, too, and else isn't to be
    /// used any more.
    pub fn follow(
        &mut self,
        alloc: A,
        library: &Library<'_, A>,
        text: &DesignText<A>,
        made: &Made<A>,
        touched: TouchedNets<A>,
        kept: KeptLines<A>,
    ) -> Result<Option<FollowedOnNets<A>>, AllocError>
        requires { (old : List (Number × Record)) × AreExchanges text.now.pieces.table.slots old made.now.exchanges (records_in text.now) × AreTouched library.now (said old) touched × AreFollowed library.now old self.old kept }
        ensures lines { (old : List (Number × Record)) → AreExchanges text.now.pieces.table.slots old made.now.exchanges (records_in text.now) → AreTouched library.now (said old) touched → AreFollowed library.now old self.old kept
            → IfOk result (λ found. IfSome found (λ f. AreFollowed library.now (records_in text.now) self.new f.lines)) }
        ensures tests { (old : List (Number × Record)) → AreExchanges text.now.pieces.table.slots old made.now.exchanges (records_in text.now) → AreTouched library.now (said old) touched → AreFollowed library.now old self.old kept
            → let names = touched.names ++ star_names touched.stars in let new = said (records_in text.now) in
            IfOk result (λ found. IfSome found (λ f. FewTests library.now (said old) new names f.tests)) }
    {
        bars_are_exchanged();
        let Some(followed) = self.follow_nets(alloc, library, text, made, touched, kept)? else {
            return Ok(None);
        };
        let Some(found) = self.follow_blocked(alloc, library, text, made, followed)? else {
            return Ok(None);
        };
        Ok(Some(found))
    }
}
