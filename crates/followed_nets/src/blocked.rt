//! Rectangles where routing is blocked that an edit takes away or brings, and the lines of nets there.

ghost use Rattle.std.specs.Prelude.{◌≡◌, ◌<◌, ◌≤◌, ◌++◌, [], ℕ, IfOk, IfSome, IsTrue, List, OnOk, flat_map, map};
ghost use Rattle.std.specs.List.{AllByRecursion};
ghost use Rattle.design_model.specs.declared.identifier.StmtId.{StmtId as Number};
ghost use Rattle.design_model.specs.Families.{cross_lines};
ghost use Rattle.def_grammar.specs.Records.{Record};
ghost use Rattle.def_reader.specs.StatementViews.{record_view};
ghost use Rattle.lef_grammar.specs.Library.{Library as TheLibrary};
ghost use Rattle.connection_rules.specs.NetLines.{routeblock_of, shapes_of_net};
ghost use Rattle.connection_rules.specs.NetParts.{all_nets};
ghost use Rattle.design_rules.specs.Boxes.{scale};
ghost use Rattle.line_laws.specs.Lines.{SameLines};
ghost use Rattle.net_laws.specs.NetChanges.{is_one_of};
ghost use Rattle.net_laws.specs.OneNet.{TellNet};
ghost use Rattle.net_lists.specs.PartCuts.{shape_view};
ghost use Rattle.net_touches.specs.Barriers.{barrier_view, name_at};
ghost use Rattle.named_shapes.specs.Touching.{AreTouching};
ghost use Rattle.text_pieces.specs.KeptRecords.{HavePieces};
ghost use Rattle.design_text.specs.DesignTexts.{design_of};
ghost use Rattle.design_text.specs.Exchanges.{AreExchanges, records_in};
ghost use Rattle.followed_nets.specs.Blocked.{Adds, AllTell, bars_come, bars_gone, bars_under, barred_lines};
ghost use Rattle.followed_nets.specs.Listed.{AreApart};
ghost use Rattle.followed_nets.specs.Noted.{AreCommon};
ghost use Rattle.followed_nets.specs.Stars.{IsStar};
ghost use Rattle.followed_nets.specs.Tests.{bar_shape, near_barred};

use crate::listed::add_name;
use crate::told_statements::told_statements;
use cell_library::library::Library;
use def_reader::statement::Statement;
use design_model::identifier::StmtId;
use design_names::names::names_of;
use design_nets::nets_of;
use design_text::made::Made;
use design_text::text::DesignText;
use design_wires::wires::DesignWires;
use kept_nets::KeptNet;
use line_laws::scales::scales_are_good;
use name_keys::OwnName;
use named_shapes::{NamedShapes, TouchingNets};
use net_checks::barriers_of;
use net_laws::{entries_tell, one_net_is_told};
use net_lists::NetShape;
use net_queries::put_barred_nets;
use net_touches::Barrier;
use report_lines::Lines;
use std::alloc::{AllocError, Allocator};

/// How many nets may have shapes where rectangles go or come so that they are told one by one.
const MOST_NETS: usize = 512;

/// How many rectangles may go, or come, so that the lines on nets follow: each is looked for among all.
const MOST_BARS: usize = 1024;

/// Rectangles where routing is blocked: those that an edit took away, and those that it brought.
#[derive(Drop)]
pub(crate) struct ChangedBars<A: Allocator> {
    pub(crate) gone: Vec<Barrier, A>,
    pub(crate) come: Vec<Barrier, A>,
}

impl<A: Allocator + Copy> ChangedBars<A> {
    /// Whether none went and none came.
    pub(crate) fn are_none(&self) -> bool
        ensures { IsTrue result → (self.now.gone.items ≡ []) × (self.now.come.items ≡ []) }
    {
        self.gone.is_empty() && self.come.is_empty()
    }
}

/// The lines of nets with rectangles that went, and those with rectangles that came.
#[derive(Drop)]
pub(crate) struct BarredLines<A: Allocator> {
    pub(crate) out: Lines<A>,
    pub(crate) put: Lines<A>,
}

/// Puts the rectangles of the statements that are kept under these numbers behind others.
fn push_bars<A: Allocator + Copy>(
    alloc: A,
    library: &Library<'_, A>,
    text: &DesignText<A>,
    ids: &[StmtId],
    found: &mut Vec<Barrier, A>,
) -> Result<(), AllocError>
    requires { HavePieces text.now.pieces.table.slots ids.now }
    ensures { OnOk result (map barrier_view found.new.items ≡ map barrier_view found.old.items ++ bars_under library.now text.now.pieces.table.slots ids.now) }
{
    let statements = text.kept(alloc, ids)?;
    let mut bars = barriers_of(alloc, library, &statements)?;
    found.append(&mut bars)?;
    Ok(())
}

/// The rectangles of the statements that an edit exchanged, one exchange after the other, unless they are many. One that stands in what went
/// and in what came is both.
pub(crate) fn changed_bars<A: Allocator + Copy>(
    alloc: A,
    library: &Library<'_, A>,
    text: &DesignText<A>,
    made: &Made<A>,
) -> Result<Option<ChangedBars<A>>, AllocError>
    requires { (old : List (Number × Record)) × AreExchanges text.now.pieces.table.slots old made.now.exchanges (records_in text.now) }
    ensures gone { IfOk result (λ found. IfSome found (λ c. map barrier_view c.gone.items ≡ bars_gone library.now text.now.pieces.table.slots made.now.exchanges)) }
    ensures come { IfOk result (λ found. IfSome found (λ c. map barrier_view c.come.items ≡ bars_come library.now text.now.pieces.table.slots made.now.exchanges)) }
{
    let mut gone = Vec::new(alloc);
    let mut come = Vec::new(alloc);
    for place in 0..made.len() {
        let Some(exchange) = made.exchange(place) else {
            return Ok(None);
        };
        push_bars(alloc, library, text, exchange.went, &mut gone)?;
        push_bars(alloc, library, text, exchange.came, &mut come)?;
    }
    if gone.len().max(come.len()) > MOST_BARS {
        return Ok(None);
    }
    Ok(Some(ChangedBars { gone, come }))
}

/// Puts rectangles as shapes of their layers behind others.
fn push_shapes<A: Allocator>(
    bars: &[Barrier],
    shapes: &mut Vec<NetShape, A>,
) -> Result<(), AllocError>
    ensures { OnOk result (map shape_view shapes.new.items ≡ map shape_view shapes.old.items ++ map bar_shape (map barrier_view bars.now)) }
{
    for bar in bars {
        shapes.push(NetShape {
            layer: bar.layer,
            rect: bar.rect,
        })?;
    }
    Ok(())
}

/// These names, each once.
fn names_once<A: Allocator + Copy>(
    alloc: A,
    names: &[OwnName<A>],
) -> Result<Vec<OwnName<A>, A>, AllocError>
    ensures all { IfOk result (λ v. (net : List ℕ) → is_one_of v.items net ≡ is_one_of names.now net) }
    ensures apart { IfOk result (λ v. AreApart v.items) }
{
    let mut once = Vec::new(alloc);
    for name in names {
        add_name(alloc, &mut once, name.bytes())?;
    }
    Ok(once)
}

/// The nets with shapes where rectangles went or came, each once, unless they are many, and how many pairs of shapes were compared to find
/// them.
pub(crate) fn nets_near<A: Allocator + Copy>(
    alloc: A,
    shapes: &NamedShapes<A>,
    changed: &ChangedBars<A>,
) -> Result<Option<TouchingNets<A>>, AllocError>
    ensures all { IfOk result (λ found. IfSome found (λ t. AreTouching shapes.now (map bar_shape (map barrier_view changed.now.gone.items) ++ map bar_shape (map barrier_view changed.now.come.items)) t.names.items)) }
    ensures apart { IfOk result (λ found. IfSome found (λ t. AreApart t.names.items)) }
    ensures tests { IfOk result (λ found. IfSome found (λ t. t.tests ≤ near_barred (map barrier_view changed.now.gone.items ++ map barrier_view changed.now.come.items) shapes.now)) }
{
    let mut bars = Vec::new(alloc);
    push_shapes(&changed.gone, &mut bars)?;
    push_shapes(&changed.come, &mut bars)?;
    let Some(found) = shapes.nets_touching(alloc, &bars, MOST_NETS)? else {
        return Ok(None);
    };
    let TouchingNets { names, tests } = found;
    let names = names_once(alloc, &names)?;
    Ok(Some(TouchingNets { names, tests }))
}

/// The net of a name among those that are kept with their parts.
fn star_named<'s, A: Allocator + Copy>(
    stars: &'s [KeptNet<A>],
    name: &[u8],
) -> Option<&'s KeptNet<A>>
    ensures named { IfSome result (λ s. s.now.name ≡ name.now) }
    ensures star { (library : TheLibrary) (design : List Record) → AllByRecursion (IsStar library design) stars.entry.now → IfSome result (λ s. IsStar library design s.now) }
{
    for star in stars {
        if star.name() == name {
            return Some(star);
        }
    }
    None
}

/// Puts the lines of a net that is kept with its parts behind others.
fn put_star<A: Allocator + Copy>(
    layers: &[&[u8]],
    star: &KeptNet<A>,
    changed: &ChangedBars<A>,
    lines: &mut BarredLines<A>,
) -> Result<(), AllocError>
    ensures out { OnOk result (lines.new.out ≡ lines.old.out ++ cross_lines (routeblock_of (name_at (map (λ w. w.now) layers.now))) (shapes_of_net star.now) (map barrier_view changed.now.gone.items)) }
    ensures put { OnOk result (lines.new.put ≡ lines.old.put ++ cross_lines (routeblock_of (name_at (map (λ w. w.now) layers.now))) (shapes_of_net star.now) (map barrier_view changed.now.come.items)) }
{
    star.put_barred(layers, &changed.gone, &mut lines.out)?;
    star.put_barred(layers, &changed.come, &mut lines.put)?;
    Ok(())
}

/// Puts the lines of the nets of some statements behind others.
fn put_told<A: Allocator + Copy>(
    alloc: A,
    library: &Library<'_, A>,
    statements: &[Statement<'_>],
    layers: &[&[u8]],
    changed: &ChangedBars<A>,
    lines: &mut BarredLines<A>,
) -> Result<(), AllocError>
    requires some { 0 < scale (map record_view statements.now) }
    requires few { scale (map record_view statements.now) ≤ 100000 }
    ensures out { let some = map record_view statements.now in
        OnOk result (lines.new.out ≡ lines.old.out ++ cross_lines (routeblock_of (name_at (map (λ w. w.now) layers.now))) (flat_map shapes_of_net (all_nets library.now some (scale some))) (map barrier_view changed.now.gone.items)) }
    ensures put { let some = map record_view statements.now in
        OnOk result (lines.new.put ≡ lines.old.put ++ cross_lines (routeblock_of (name_at (map (λ w. w.now) layers.now))) (flat_map shapes_of_net (all_nets library.now some (scale some))) (map barrier_view changed.now.come.items)) }
{
    let names = names_of(alloc, library.hash_builder(), statements)?;
    let wires = DesignWires::new(alloc, library, &names)?;
    let nets = nets_of(alloc, library, &names, &wires)?;
    put_barred_nets(layers, &nets, &changed.gone, &mut lines.out)?;
    put_barred_nets(layers, &nets, &changed.come, &mut lines.put)?;
    Ok(())
}

/// Puts the lines of a net of a text, by its statements alone, behind others, and says whether it could be told so.
fn put_by_statements<A: Allocator + Copy>(
    alloc: A,
    library: &Library<'_, A>,
    text: &DesignText<A>,
    common: &[StmtId],
    layers: &[&[u8]],
    net: &[u8],
    changed: &ChangedBars<A>,
    lines: &mut BarredLines<A>,
) -> Result<bool, AllocError>
    requires { AreCommon (records_in text.now) common.now }
    ensures tells { IfOk result (λ there. IsTrue there → (some : List Record) × TellNet some (design_of text.now) net.now) }
    ensures out { IfOk result (λ there. IsTrue there → Adds lines.old.out (barred_lines (name_at (map (λ w. w.now) layers.now)) library.now (design_of text.now) (map barrier_view changed.now.gone.items) net.now) lines.new.out) }
    ensures put { IfOk result (λ there. IsTrue there → Adds lines.old.put (barred_lines (name_at (map (λ w. w.now) layers.now)) library.now (design_of text.now) (map barrier_view changed.now.come.items) net.now) lines.new.put) }
{
    one_net_is_told();
    scales_are_good();
    text.design_is_read();
    let Some(statements) = told_statements(alloc, text, common, net)? else {
        return Ok(false);
    };
    put_told(alloc, library, &statements, layers, changed, lines)?;
    Ok(true)
}

/// Puts the lines of a net of a text behind others, by its parts where it is kept with them, and says whether it could be told.
fn put_net<A: Allocator + Copy>(
    alloc: A,
    library: &Library<'_, A>,
    text: &DesignText<A>,
    common: &[StmtId],
    stars: &[KeptNet<A>],
    layers: &[&[u8]],
    net: &[u8],
    changed: &ChangedBars<A>,
    lines: &mut BarredLines<A>,
) -> Result<bool, AllocError>
    requires common { AreCommon (records_in text.now) common.now }
    requires stars { AllByRecursion (IsStar library.now (design_of text.now)) stars.now }
    ensures tells { IfOk result (λ there. IsTrue there → (some : List Record) × TellNet some (design_of text.now) net.now) }
    ensures out { IfOk result (λ there. IsTrue there → Adds lines.old.out (barred_lines (name_at (map (λ w. w.now) layers.now)) library.now (design_of text.now) (map barrier_view changed.now.gone.items) net.now) lines.new.out) }
    ensures put { IfOk result (λ there. IsTrue there → Adds lines.old.put (barred_lines (name_at (map (λ w. w.now) layers.now)) library.now (design_of text.now) (map barrier_view changed.now.come.items) net.now) lines.new.put) }
{
    entries_tell();
    match star_named(stars, net) {
        Some(star) => {
            put_star(layers, star, changed, lines)?;
            Ok(true)
        }
        None => put_by_statements(alloc, library, text, common, layers, net, changed, lines),
    }
}

/// The lines of these nets of a text, unless one of them can't be told.
pub(crate) fn lines_near<A: Allocator + Copy>(
    alloc: A,
    library: &Library<'_, A>,
    text: &DesignText<A>,
    common: &[StmtId],
    stars: &[KeptNet<A>],
    layers: &[&[u8]],
    names: &[OwnName<A>],
    changed: &ChangedBars<A>,
) -> Result<Option<BarredLines<A>>, AllocError>
    requires common { AreCommon (records_in text.now) common.now }
    requires stars { AllByRecursion (IsStar library.now (design_of text.now)) stars.now }
    ensures tells { IfOk result (λ found. IfSome found (λ _. AllTell (design_of text.now) names.now)) }
    ensures out { IfOk result (λ found. IfSome found (λ l. SameLines l.out (flat_map (barred_lines (name_at (map (λ w. w.now) layers.now)) library.now (design_of text.now) (map barrier_view changed.now.gone.items)) names.now))) }
    ensures put { IfOk result (λ found. IfSome found (λ l. SameLines l.put (flat_map (barred_lines (name_at (map (λ w. w.now) layers.now)) library.now (design_of text.now) (map barrier_view changed.now.come.items)) names.now))) }
{
    let mut lines = BarredLines {
        out: Lines::new(alloc),
        put: Lines::new(alloc),
    };
    for name in names {
        if !put_net(
            alloc,
            library,
            text,
            common,
            stars,
            layers,
            name.bytes(),
            changed,
            &mut lines,
        )? {
            return Ok(None);
        }
    }
    Ok(Some(lines))
}
