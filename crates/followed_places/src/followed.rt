//! The components of a text that are noted, and the lines on them that follow.

ghost use Rattle.std.specs.Prelude.{◌≡◌, ◌<◌, ◌≤◌, ◌+◌, ◌-◌, ◌^◌, ◌++◌, [], IfOk, IfSome, IsTrue, List, OnOk, false, filter, map, min};
ghost use Rattle.std.specs.List.{list_any};
ghost use Rattle.design_model.specs.declared.identifier.StmtId.{StmtId as Number};
ghost use Rattle.design_model.specs.Order.{sorted_by_bytes};
ghost use Rattle.def_grammar.specs.Records.{Record};
ghost use Rattle.design_rules.specs.Boxes.{scale};
ghost use Rattle.design_rules.specs.Surroundings.{Surroundings as Stands, surroundings};
ghost use Rattle.design_tables.specs.TableViews.{numbered_view};
ghost use Rattle.following_laws.specs.DesignLaws.{lines_of_components};
ghost use Rattle.line_laws.specs.Lines.{SameLines, SameThings};
ghost use Rattle.place_checks.specs.IndexViews.{surroundings_view};
ghost use Rattle.place_checks.specs.SameSurroundings.{HaveSameLines};
ghost use Rattle.staying_laws.specs.PlaceStatements.{is_surrounding};
ghost use Rattle.statement_boxes.specs.Boxes.{box_view};
ghost use Rattle.text_pieces.specs.KeptRecords.{HavePieces, records_under};
ghost use Rattle.design_text.specs.Exchanges.{IsExchange, exchange_view, records_in};
ghost use Rattle.followed_places.specs.Lines.{AreBoxesOf, Awaits, boxed_under};
ghost use Rattle.followed_places.specs.Placed.{component_of, placed_view};
ghost use Rattle.followed_places.specs.Places.{AreFollowed, HasPlaces, components_under, keep_outs_under, place_under, said};
ghost use Rattle.followed_places.specs.Tests.{met_among, met_pairs, met_sum, near_pairs, near_sum};

use crate::around::{Around, KeptAround, is_any_surrounding, numbers_around};
use crate::blocked_lines::blocked_near;
use crate::components::{Placed, boxes_of, components_of, insert_all, remove_all};
use crate::keep_outs::{exchange_keep_outs, keep_outs_among};
use crate::own_lines::{lines_of, nothing};
use cell_library::library::Library;
use design_model::identifier::StmtId;
use design_tables::Numbered;
use design_text::made::Exchange;
use design_text::text::DesignText;
use following_laws::same_lines_follow;
use kept_lines::KeptLines;
use line_laws::each::crosses_are_unordered;
use line_laws::scales::scales_are_good;
use report_lines::Checked;
use statement_boxes::{StatementBox, StatementBoxes};
use staying_laws::{components_are_exchanged, surroundings_are_told};
use std::alloc::{AllocError, Allocator, Global};
use std::marker::Model;

/// How many lines an exchange may move in all: beyond that, making them anew is sooner done.
const MOST_MOVED: usize = 268435456;

/// The components of a text that take part, the rectangles that keep them out, both over tiles, and what stands round them. None of this is
/// lent from the text.
#[derive(Drop)]
pub struct FollowedPlaces<A: Allocator = Global> {
    boxes: StatementBoxes<A>,
    keep_outs: StatementBoxes<A>,
    around: KeptAround<A>,
}

impl<A: Allocator> Model for FollowedPlaces<A> {
    ghost use Rattle.followed_places.specs.Places.{Places};

    ghost Value = { Places };

    ghost view = { λ p. record { boxes = p.boxes; surroundings = p.around.surroundings; keep_outs = p.keep_outs; scale = p.around.scale } };
}

/// The lines on components after an exchange of statements.
#[derive(Drop)]
pub struct FollowedOnPlaces<A: Allocator = Global> {
    pub lines: KeptLines<A>,
    /// How many boxes, and rectangles that keep components out, were compared for them.
    pub tests: u64,
}

/// What goes out of a text or comes in by an exchange: the components that take part, and the rectangles that keep components out.
#[derive(Drop)]
struct LoosePlaces<'t, A: Allocator> {
    components: Vec<Placed<'t>, A>,
    keep_outs: Vec<StatementBox, A>,
}

/// What goes out of a text and comes in by an exchange, and what stands round components before and after it.
#[derive(Drop)]
struct Change<'t, A: Allocator> {
    around: Around<'t, A>,
    went: LoosePlaces<'t, A>,
    came: LoosePlaces<'t, A>,
}

/// The rectangles that go out of those which keep components of a text out, and those that come in, by an exchange of no component.
#[derive(Clone, Copy)]
struct ChangedKeepOuts<'c> {
    /// The database units per micron.
    scale: u32,
    went: &'c [StatementBox],
    came: &'c [StatementBox],
}

/// A law: the database units per micron of a text are as many as a text may have.
pub(crate) fn units_are_good<A: Allocator + Copy>(text: &DesignText<A>)
    ensures some { 0 < scale (said (records_in text.now)) }
    ensures few { scale (said (records_in text.now)) ≤ 100000 }
{
    scales_are_good();
    text.statements_are_kept();
    text.design_is_read();
}

/// What stands round the components of a text that has these statements.
fn around_in<'t, A: Allocator + Copy>(
    alloc: A,
    library: &'t Library<'_, A>,
    text: &'t DesignText<A>,
    statements: &[Numbered<'t>],
) -> Result<KeptAround<A>, AllocError>
    requires { map numbered_view statements.now ≡ records_in text.now }
    ensures surroundings { IfOk result (λ a. HaveSameLines a.surroundings (surroundings library.entry.now (said (records_in text.entry.now)))) }
    ensures scale { IfOk result (λ a. a.scale ≡ scale (said (records_in text.entry.now))) }
{
    units_are_good(text);
    surroundings_are_told();
    text.statements_are_kept();
    let numbers = numbers_around(alloc, statements)?;
    let around = text.kept(alloc, &numbers)?;
    KeptAround::of(alloc, library, &around)
}

/// The components that take part among the statements under some numbers, and the rectangles where these keep components out, unless one of
/// them is of what stands round components.
fn loose_places<'t, A: Allocator + Copy>(
    alloc: A,
    library: &'t Library<'_, A>,
    scale: u32,
    text: &'t DesignText<A>,
    ids: &[StmtId],
) -> Result<Option<LoosePlaces<'t, A>>, AllocError>
    requires some { 0 < scale }
    requires few { scale ≤ 100000 }
    requires pieces { HavePieces text.now.pieces.table.slots ids.now }
    ensures components { let records = records_under text.entry.now.pieces.table.slots ids.now in IfOk result (λ found. IfSome found (λ p. map placed_view p.components.items ≡ components_under library.entry.now scale records)) }
    ensures keep_outs { let records = records_under text.entry.now.pieces.table.slots ids.now in IfOk result (λ found. IfSome found (λ p. map box_view p.keep_outs.items ≡ keep_outs_under records)) }
    ensures loose { let records = records_under text.entry.now.pieces.table.slots ids.now in IfOk result (λ found. IfSome found (λ _. list_any (λ x. is_surrounding x.1) records ≡ false)) }
{
    let statements = text.kept_numbered(alloc, ids)?;
    if is_any_surrounding(&statements) {
        return Ok(None);
    }
    let components = components_of(alloc, library, scale, &statements)?;
    let keep_outs = keep_outs_among(alloc, &statements)?;
    Ok(Some(LoosePlaces {
        components,
        keep_outs,
    }))
}

/// Whether no component goes, and none comes.
fn are_none(went: &[Placed<'_>], came: &[Placed<'_>]) -> bool
    ensures { IsTrue result → (went.now ≡ []) × (came.now ≡ []) }
{
    went.is_empty() && came.is_empty()
}

/// The lines on components and rectangles that go or come, with components whose boxes are kept and the rectangles that keep components out;
/// and how many of the boxes and rectangles that are kept were compared with theirs.
fn lines_on<'t, A: Allocator + Copy>(
    alloc: A,
    library: &'t Library<'_, A>,
    text: &'t DesignText<A>,
    around: &Around<'t, A>,
    boxes: &StatementBoxes<A>,
    keep_outs: &StatementBoxes<A>,
    loose: &LoosePlaces<'t, A>,
) -> Result<Checked<A>, AllocError>
    requires some { 0 < around.now.scale }
    requires few { around.now.scale ≤ 100000 }
    requires kept { (ids : List Number) × AreBoxesOf library.now around.now.scale text.now.pieces.table.slots ids boxes.now }
    ensures lines { (ids : List Number) → AreBoxesOf library.now around.now.scale text.now.pieces.table.slots ids boxes.now
        → IfOk result (λ c. SameLines c.lines (lines_of_components (surroundings_view around.now.surroundings) (map component_of loose.now.components.items) (boxed_under library.now around.now.scale text.now.pieces.table.slots ids) (map (λ b. b.1) keep_outs.now) (map (λ b. b.1) (map box_view loose.now.keep_outs.items)))) }
    ensures tests { IfOk result (λ c. c.tests ≤ near_sum (boxes.now ++ keep_outs.now) (map place_under (map placed_view loose.now.components.items)) + near_sum boxes.now (map box_view loose.now.keep_outs.items)) }
    ensures least { IfOk result (λ c. min (met_sum (boxes.now ++ keep_outs.now) (map place_under (map placed_view loose.now.components.items)) + met_sum boxes.now (map box_view loose.now.keep_outs.items)) (2 ^ 64 - 1) ≤ c.tests) }
{
    let components = &loose.components;
    let own = lines_of(alloc, library, text, around, boxes, keep_outs, components)?;
    let blocks = &loose.keep_outs;
    blocked_near(alloc, library, around.scale, text, boxes, blocks, own)
}

/// The lines after components of a text went out of those whose boxes are kept and others came in, and so did rectangles that keep components
/// out, unless they are soon made anew.
fn exchanged<'t, A: Allocator + Copy>(
    alloc: A,
    library: &'t Library<'_, A>,
    text: &'t DesignText<A>,
    change: &Change<'t, A>,
    boxes: &mut StatementBoxes<A>,
    keep_outs: &mut StatementBoxes<A>,
    kept: KeptLines<A>,
) -> Result<Option<FollowedOnPlaces<A>>, AllocError>
    requires some { 0 < change.now.around.scale }
    requires few { change.now.around.scale ≤ 100000 }
    requires awaits { (stay : List Number) × (after : List _) × Awaits library.now change.now.around.scale text.now.pieces.table.slots stay (surroundings_view change.now.around.surroundings) (map placed_view change.now.went.components.items) (map placed_view change.now.came.components.items) (map box_view change.now.went.keep_outs.items) (map box_view change.now.came.keep_outs.items) boxes.old keep_outs.old kept.lines after }
    ensures lines { (stay : List Number) (after : List _) → Awaits library.now change.now.around.scale text.now.pieces.table.slots stay (surroundings_view change.now.around.surroundings) (map placed_view change.now.went.components.items) (map placed_view change.now.came.components.items) (map box_view change.now.went.keep_outs.items) (map box_view change.now.came.keep_outs.items) boxes.old keep_outs.old kept.lines after
        → IfOk result (λ found. IfSome found (λ f. f.lines.lines ≡ sorted_by_bytes after)) }
    ensures boxes { (stay : List Number) (after : List _) → Awaits library.now change.now.around.scale text.now.pieces.table.slots stay (surroundings_view change.now.around.surroundings) (map placed_view change.now.went.components.items) (map placed_view change.now.came.components.items) (map box_view change.now.went.keep_outs.items) (map box_view change.now.came.keep_outs.items) boxes.old keep_outs.old kept.lines after
        → IfOk result (λ found. IfSome found (λ _. SameThings boxes.new (map place_under (map placed_view change.now.came.components.items) ++ map place_under (components_under library.now change.now.around.scale (records_under text.now.pieces.table.slots stay))))) }
    ensures keep_outs { IfOk result (λ found. IfSome found (λ _. SameThings (keep_outs.old ++ map box_view change.now.came.keep_outs.items) (map box_view change.now.went.keep_outs.items ++ keep_outs.new))) }
    ensures tests { (stay : List Number) (after : List _) → Awaits library.now change.now.around.scale text.now.pieces.table.slots stay (surroundings_view change.now.around.surroundings) (map placed_view change.now.went.components.items) (map placed_view change.now.came.components.items) (map box_view change.now.went.keep_outs.items) (map box_view change.now.came.keep_outs.items) boxes.old keep_outs.old kept.lines after
        → IfOk result (λ found. IfSome found (λ f. f.tests ≤ (near_sum (map place_under (components_under library.now change.now.around.scale (records_under text.now.pieces.table.slots stay)) ++ keep_outs.old) (map place_under (map placed_view change.now.went.components.items)) + near_sum (map place_under (components_under library.now change.now.around.scale (records_under text.now.pieces.table.slots stay))) (map box_view change.now.went.keep_outs.items)) + (near_sum (map place_under (components_under library.now change.now.around.scale (records_under text.now.pieces.table.slots stay)) ++ keep_outs.new) (map place_under (map placed_view change.now.came.components.items)) + near_sum (map place_under (components_under library.now change.now.around.scale (records_under text.now.pieces.table.slots stay))) (map box_view change.now.came.keep_outs.items)))) }
    ensures least { (stay : List Number) (after : List _) → Awaits library.now change.now.around.scale text.now.pieces.table.slots stay (surroundings_view change.now.around.surroundings) (map placed_view change.now.went.components.items) (map placed_view change.now.came.components.items) (map box_view change.now.went.keep_outs.items) (map box_view change.now.came.keep_outs.items) boxes.old keep_outs.old kept.lines after
        → IfOk result (λ found. IfSome found (λ f. min ((met_sum (map place_under (components_under library.now change.now.around.scale (records_under text.now.pieces.table.slots stay)) ++ keep_outs.old) (map place_under (map placed_view change.now.went.components.items)) + met_sum (map place_under (components_under library.now change.now.around.scale (records_under text.now.pieces.table.slots stay))) (map box_view change.now.went.keep_outs.items)) + (met_sum (map place_under (components_under library.now change.now.around.scale (records_under text.now.pieces.table.slots stay)) ++ keep_outs.new) (map place_under (map placed_view change.now.came.components.items)) + met_sum (map place_under (components_under library.now change.now.around.scale (records_under text.now.pieces.table.slots stay))) (map box_view change.now.came.keep_outs.items))) (2 ^ 64 - 1) ≤ f.tests)) }
{
    same_lines_follow();
    let (went, came) = (&change.went, &change.came);
    if !remove_all(boxes, &went.components) {
        return Ok(None);
    }
    let around = &change.around;
    let out = lines_on(alloc, library, text, around, boxes, keep_outs, went)?;
    if !exchange_keep_outs(keep_outs, &went.keep_outs, &came.keep_outs)? {
        return Ok(None);
    }
    let put = lines_on(alloc, library, text, around, boxes, keep_outs, came)?;
    insert_all(boxes, &came.components)?;
    let tests = out.tests.saturating_add(put.tests);
    let Some(lines) = kept.followed(out.lines, put.lines, MOST_MOVED)? else {
        return Ok(None);
    };
    Ok(Some(FollowedOnPlaces { lines, tests }))
}

/// The lines after rectangles went out of those that keep the components of a text out, and others came in, unless they are sooner made
/// anew. The components alone are read whose boxes meet one of these rectangles.
fn exchanged_keep_outs<'t, A: Allocator + Copy>(
    alloc: A,
    library: &'t Library<'_, A>,
    text: &'t DesignText<A>,
    change: &ChangedKeepOuts<'_>,
    boxes: &StatementBoxes<A>,
    keep_outs: &mut StatementBoxes<A>,
    kept: KeptLines<A>,
) -> Result<Option<FollowedOnPlaces<A>>, AllocError>
    requires some { 0 < change.now.scale }
    requires few { change.now.scale ≤ 100000 }
    requires awaits { (stay : List Number) × (after : List _) × (s : Stands) × Awaits library.now change.now.scale text.now.pieces.table.slots stay s [] [] (map box_view change.now.went.now) (map box_view change.now.came.now) boxes.now keep_outs.old kept.lines after }
    ensures lines { (stay : List Number) (after : List _) (s : Stands) → Awaits library.now change.now.scale text.now.pieces.table.slots stay s [] [] (map box_view change.now.went.now) (map box_view change.now.came.now) boxes.now keep_outs.old kept.lines after
        → IfOk result (λ found. IfSome found (λ f. f.lines.lines ≡ sorted_by_bytes after)) }
    ensures keep_outs { IfOk result (λ found. IfSome found (λ _. SameThings (keep_outs.old ++ map box_view change.now.came.now) (map box_view change.now.went.now ++ keep_outs.new))) }
    ensures tests { IfOk result (λ found. IfSome found (λ f. f.tests ≤ near_sum boxes.now (map box_view change.now.went.now) + near_sum boxes.now (map box_view change.now.came.now))) }
    ensures least { IfOk result (λ found. IfSome found (λ f. min (met_sum boxes.now (map box_view change.now.went.now) + met_sum boxes.now (map box_view change.now.came.now)) (2 ^ 64 - 1) ≤ f.tests)) }
{
    same_lines_follow();
    let scale = change.scale;
    let gone = blocked_near(
        alloc,
        library,
        scale,
        text,
        boxes,
        change.went,
        nothing(alloc),
    )?;
    let come = blocked_near(
        alloc,
        library,
        scale,
        text,
        boxes,
        change.came,
        nothing(alloc),
    )?;
    let tests = gone.tests.saturating_add(come.tests);
    if !exchange_keep_outs(keep_outs, change.went, change.came)? {
        return Ok(None);
    }
    let Some(lines) = kept.followed(gone.lines, come.lines, MOST_MOVED)? else {
        return Ok(None);
    };
    Ok(Some(FollowedOnPlaces { lines, tests }))
}

impl<A: Allocator + Copy> FollowedPlaces<A> {
    /// Notes the components of a text. Each statement is read once, from its piece.
    pub fn of<'t>(
        alloc: A,
        library: &'t Library<'_, A>,
        text: &'t DesignText<A>,
    ) -> Result<FollowedPlaces<A>, AllocError>
        ensures { IfOk result (HasPlaces library.entry.now (records_in text.entry.now)) }
    {
        units_are_good(text);
        let statements = text.numbered_statements(alloc)?;
        let around = around_in(alloc, library, text, &statements)?;
        let boxes = boxes_of(alloc, library, around.scale, &statements)?;
        let keep_outs = keep_outs_among(alloc, &statements)?;
        let keep_outs = StatementBoxes::of(alloc, &keep_outs)?;
        Ok(FollowedPlaces {
            boxes,
            keep_outs,
            around,
        })
    }

    /// After statements were exchanged that are all kept in a text, the lines on the components among those that stand then, from those
    /// before it; `None` where they are to be made anew. What was noted then follows too, and else isn't to be used any more. Nothing is
    /// asked of the text but these statements, and those of the components whose boxes meet theirs, or the rectangles where they keep
    /// components out: of exchanges that were made one after the other, each is followed by itself.
    pub fn follow<'t>(
        &mut self,
        alloc: A,
        library: &'t Library<'_, A>,
        text: &'t DesignText<A>,
        exchange: Exchange<'_>,
        kept: KeptLines<A>,
    ) -> Result<Option<FollowedOnPlaces<A>>, AllocError>
        requires { (old : List (Number × Record)) × (new : List (Number × Record)) × IsExchange text.now.pieces.table.slots old new (exchange_view exchange) × AreFollowed library.now old self.old kept }
        ensures followed { (old new : List (Number × Record)) → IsExchange text.entry.now.pieces.table.slots old new (exchange_view exchange.entry) → AreFollowed library.entry.now old self.old kept
            → IfOk result (λ found. IfSome found (λ f. AreFollowed library.entry.now new self.new f.lines)) }
        ensures tests { (old new : List (Number × Record)) → IsExchange text.entry.now.pieces.table.slots old new (exchange_view exchange.entry) → AreFollowed library.entry.now old self.old kept
            → IfOk result (λ found. IfSome found (λ f. f.tests ≤ near_pairs library.entry.now old (records_under text.entry.now.pieces.table.slots (exchange_view exchange.entry).went) + near_pairs library.entry.now new (records_under text.entry.now.pieces.table.slots (exchange_view exchange.entry).came))) }
        ensures least { (old new : List (Number × Record)) → IsExchange text.entry.now.pieces.table.slots old new (exchange_view exchange.entry) → AreFollowed library.entry.now old self.old kept
            → IfOk result (λ found. IfSome found (λ f. min (met_pairs library.entry.now old (records_under text.entry.now.pieces.table.slots (exchange_view exchange.entry).went) + met_pairs library.entry.now new (records_under text.entry.now.pieces.table.slots (exchange_view exchange.entry).came)) (2 ^ 64 - 1) ≤ f.tests + (met_among library.entry.now old (records_under text.entry.now.pieces.table.slots (exchange_view exchange.entry).went) + met_among library.entry.now new (records_under text.entry.now.pieces.table.slots (exchange_view exchange.entry).came)))) }
    {
        components_are_exchanged();
        same_lines_follow();
        crosses_are_unordered();
        let scale = self.around.scale;
        let Some(went) = loose_places(alloc, library, scale, text, exchange.went)? else {
            return Ok(None);
        };
        let Some(came) = loose_places(alloc, library, scale, text, exchange.came)? else {
            return Ok(None);
        };
        // An edit of a net exchanges none, and no rectangle either.
        if are_none(&went.components, &came.components) {
            let change = ChangedKeepOuts {
                scale,
                went: &went.keep_outs,
                came: &came.keep_outs,
            };
            return exchanged_keep_outs(
                alloc,
                library,
                text,
                &change,
                &self.boxes,
                &mut self.keep_outs,
                kept,
            );
        }
        let around = self.around.lent(alloc)?;
        let change = Change { around, went, came };
        exchanged(
            alloc,
            library,
            text,
            &change,
            &mut self.boxes,
            &mut self.keep_outs,
            kept,
        )
    }
}
