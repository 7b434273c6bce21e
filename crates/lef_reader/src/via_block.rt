//! The block VIA (LEF/DEF 5.8 Language Reference, "Via").

ghost use Rattle.std.specs.Prelude.{◌≡◌, IfSome};
ghost use Rattle.form_meanings.specs.Words.{Gives};
ghost use Rattle.statement_model.specs.Form.{◌◂◌, ◌⨟◌, read};
ghost use Rattle.std.specs.Prelude.{codes};
ghost use Rattle.lef_grammar.specs.Extents.{name};
ghost use Rattle.lef_grammar.specs.ViaBlock.{continues_via, ends_via, four_distances, is_via_cuts, is_via_metals, is_via_shape, is_via_word, stage_after, via_corners, via_cuts, via_ending, via_metals, via_shape, via_statement};
ghost use Rattle.lefdef_tokens.specs.Views.{pieces_of, rest_of};
ghost use Rattle.statement_reader.specs.Endings.{ending_view};
ghost use Rattle.lef_reader.specs.Parts.{CornersAt, corners_view, with_rest};
ghost use Rattle.lef_reader.specs.ViaViews.{CutsAt, FourAt, MetalsAt, ShapeAt, ThreeAt, ViaAt, cuts_view, four_view, metals_view, shape_view, stage_view, three_view, via_view};

use crate::parts::{
    WordKind, block_ending, kept_at, only_at, to_end_at, told, told_pair, two_at, word_at,
    word_to_end_at,
};
use crate::point::{Corners, corners_at};
use lefdef_tokens::{Cursor, Token, TokenRun, is_word};
use statement_reader::boundary::Ending;

/// What of a block was read: its header alone, statements without a `LAYER`, or with one.
#[derive(Clone, Copy, Drop)]
pub enum ViaStage {
    InHeader,
    WithoutLayer,
    WithLayer,
}

/// A layer of a listed via, a rectangle on it, or a polygon.
#[derive(Clone, Copy, Drop)]
pub enum ViaShape<'l> {
    /// By its name, and what stands behind it.
    Layer(Token<'l>, TokenRun<'l>),
    Rect(Corners<'l>),
    Polygon(TokenRun<'l>),
}

/// The cuts of a generated via, in microns as written.
#[derive(Clone, Copy, Drop)]
pub enum ViaCuts<'l> {
    /// The `VIARULE` that generates it.
    Rule(Token<'l>),
    Size(Token<'l>, Token<'l>),
    Spacing(Token<'l>, Token<'l>),
    /// Numbers of rows and columns.
    RowCol(Token<'l>, Token<'l>),
}

/// Names of a bottom metal, a cut and a top metal.
#[derive(Clone, Copy)]
pub struct ViaLayers<'l> {
    pub bottom: Token<'l>,
    pub cut: Token<'l>,
    pub top: Token<'l>,
}

/// Distances of a bottom metal and a top metal in x and y, in microns as written.
#[derive(Clone, Copy)]
pub struct MetalDistances<'l> {
    pub bottom_x: Token<'l>,
    pub bottom_y: Token<'l>,
    pub top_x: Token<'l>,
    pub top_y: Token<'l>,
}

/// The metals of a generated via.
#[derive(Clone, Copy, Drop)]
pub enum ViaMetals<'l> {
    Layers(ViaLayers<'l>),
    Enclosure(MetalDistances<'l>),
    Origin(Token<'l>, Token<'l>),
    Offset(MetalDistances<'l>),
}

/// A statement in a block VIA, or a word of its header.
#[derive(Clone, Copy, Drop)]
pub enum ViaStatement<'l> {
    End,
    /// `DEFAULT`, `GENERATED` or `TOPOFSTACKONLY`.
    HeaderWord(Token<'l>),
    Shape(ViaShape<'l>),
    Cuts(ViaCuts<'l>),
    Metals(ViaMetals<'l>),
    /// A statement without meaning, by its first token and the others.
    Kept(Token<'l>, TokenRun<'l>),
}

impl<'l> ViaStatement<'l> {
    /// Whether it ends the block.
    pub(crate) fn is_end(&self) -> bool
        ensures { result ≡ ends_via (via_view self.now) }
    {
        matches!(self, ViaStatement::End)
    }
}

impl ViaStage {
    /// What of the block was read after a statement.
    pub(crate) fn after(self, statement: &ViaStatement<'_>) -> ViaStage
        ensures { stage_view result ≡ stage_after (stage_view self) (via_view statement.now) }
    {
        match statement {
            ViaStatement::HeaderWord(_) => self,
            ViaStatement::Shape(ViaShape::Layer(_, _)) => ViaStage::WithLayer,
            _ => match self {
                ViaStage::WithLayer => ViaStage::WithLayer,
                _ => ViaStage::WithoutLayer,
            },
        }
    }
}

/// Whether a word can stand in the header.
pub(crate) fn is_via_word(word: &[u8]) -> bool
    ensures { result ≡ is_via_word word.now }
{
    is_word(word, b"DEFAULT") || is_word(word, b"GENERATED") || is_word(word, b"TOPOFSTACKONLY")
}

/// Whether a word is one of the header, where the header goes on.
fn continues_via(stage: ViaStage, word: &[u8]) -> bool
    ensures { result ≡ continues_via (stage_view stage) word.now }
{
    match stage {
        ViaStage::InHeader => is_via_word(word),
        _ => false,
    }
}

/// How a statement ends, by its first token. A word of the header stands alone.
pub(crate) fn via_ending(stage: ViaStage, first: &[u8]) -> Ending
    ensures { ending_view result ≡ via_ending (stage_view stage) first.now }
{
    if continues_via(stage, first) {
        Ending::Alone
    } else {
        block_ending(first)
    }
}

/// Whether a word begins a statement of the shapes of a listed via.
fn is_via_shape(word: &[u8]) -> bool
    ensures { result ≡ is_via_shape word.now }
{
    is_word(word, b"LAYER") || is_word(word, b"RECT") || is_word(word, b"POLYGON")
}

/// Whether a word begins a statement of the cuts of a generated via.
fn is_via_cuts(word: &[u8]) -> bool
    ensures { result ≡ is_via_cuts word.now }
{
    is_word(word, b"VIARULE")
        || is_word(word, b"CUTSIZE")
        || is_word(word, b"CUTSPACING")
        || is_word(word, b"ROWCOL")
}

/// Whether a word begins a statement of the metals of a generated via.
fn is_via_metals(word: &[u8]) -> bool
    ensures { result ≡ is_via_metals word.now }
{
    is_word(word, b"LAYERS")
        || is_word(word, b"ENCLOSURE")
        || is_word(word, b"ORIGIN")
        || is_word(word, b"OFFSET")
}

/// `[MASK word] p p ;`, after `RECT`, where a `LAYER` came before
#[tactic(auto, unfolding(lef_grammar::specs::ViaBlock::via_corners))]
fn via_corners_at<'l>(stage: ViaStage, cursor: Cursor<'l>) -> Option<(Corners<'l>, Cursor<'l>)>
    ensures gives { Gives (with_rest corners_view) result (read (via_corners (stage_view stage)) (rest_of cursor.entry)) }
    ensures lent { IfSome result (λ x. CornersAt (pieces_of cursor.entry.tokens) x.0) }
{
    match stage {
        ViaStage::WithLayer => corners_at(cursor),
        _ => None,
    }
}

/// `LAYER`, `RECT` or `POLYGON`
#[tactic(auto, unfolding(lef_grammar::specs::ViaBlock::via_shape))]
fn shape_at<'l>(stage: ViaStage, cursor: Cursor<'l>) -> Option<(ViaShape<'l>, Cursor<'l>)>
    ensures gives { Gives (with_rest shape_view) result (read (via_shape (stage_view stage)) (rest_of cursor.entry)) }
    ensures lent { IfSome result (λ x. ShapeAt (pieces_of cursor.entry.tokens) x.0) }
{
    let (word, later) = cursor.next()?;
    if is_word(word.bytes, b"LAYER") {
        told_pair(word_to_end_at(WordKind::Name, later), ViaShape::Layer)
    } else if is_word(word.bytes, b"RECT") {
        told(via_corners_at(stage, later), ViaShape::Rect)
    } else if is_word(word.bytes, b"POLYGON") {
        told(to_end_at(later), ViaShape::Polygon)
    } else {
        None
    }
}

/// `VIARULE`, `CUTSIZE`, `CUTSPACING` or `ROWCOL`
#[tactic(auto, unfolding(lef_grammar::specs::ViaBlock::via_cuts))]
fn cuts_at<'l>(cursor: Cursor<'l>) -> Option<(ViaCuts<'l>, Cursor<'l>)>
    ensures gives { Gives (with_rest cuts_view) result (read via_cuts (rest_of cursor.entry)) }
    ensures lent { IfSome result (λ x. CutsAt (pieces_of cursor.entry.tokens) x.0) }
{
    let (word, later) = cursor.next()?;
    if is_word(word.bytes, b"VIARULE") {
        told(only_at(WordKind::Name, later), ViaCuts::Rule)
    } else if is_word(word.bytes, b"CUTSIZE") {
        told_pair(two_at(WordKind::Extent, later), ViaCuts::Size)
    } else if is_word(word.bytes, b"CUTSPACING") {
        told_pair(two_at(WordKind::Extent, later), ViaCuts::Spacing)
    } else if is_word(word.bytes, b"ROWCOL") {
        told_pair(two_at(WordKind::ArrayCount, later), ViaCuts::RowCol)
    } else {
        None
    }
}

/// `name name name ;`
fn layers_at<'l>(cursor: Cursor<'l>) -> Option<(ViaLayers<'l>, Cursor<'l>)>
    ensures gives { Gives (with_rest three_view) result (read (name ⨟ name ⨟ name ◂ codes ";") (rest_of cursor.entry)) }
    ensures lent { IfSome result (λ x. ThreeAt (pieces_of cursor.entry.tokens) x.0) }
{
    let (bottom, cursor) = cursor.name()?;
    let ((cut, top), cursor) = two_at(WordKind::Name, cursor)?;
    Some((ViaLayers { bottom, cut, top }, cursor))
}

/// `dec dec dec dec ;`
#[tactic(auto, unfolding(lef_grammar::specs::ViaBlock::four_distances))]
fn four_at<'l>(cursor: Cursor<'l>) -> Option<(MetalDistances<'l>, Cursor<'l>)>
    ensures gives { Gives (with_rest four_view) result (read four_distances (rest_of cursor.entry)) }
    ensures lent { IfSome result (λ x. FourAt (pieces_of cursor.entry.tokens) x.0) }
{
    let (bottom_x, cursor) = word_at(WordKind::Distance, cursor)?;
    let (bottom_y, cursor) = word_at(WordKind::Distance, cursor)?;
    let ((top_x, top_y), cursor) = two_at(WordKind::Distance, cursor)?;
    let distances = MetalDistances {
        bottom_x,
        bottom_y,
        top_x,
        top_y,
    };
    Some((distances, cursor))
}

/// `LAYERS`, `ENCLOSURE`, `ORIGIN` or `OFFSET`
#[tactic(auto, unfolding(lef_grammar::specs::ViaBlock::via_metals))]
fn metals_at<'l>(cursor: Cursor<'l>) -> Option<(ViaMetals<'l>, Cursor<'l>)>
    ensures gives { Gives (with_rest metals_view) result (read via_metals (rest_of cursor.entry)) }
    ensures lent { IfSome result (λ x. MetalsAt (pieces_of cursor.entry.tokens) x.0) }
{
    let (word, later) = cursor.next()?;
    if is_word(word.bytes, b"LAYERS") {
        told(layers_at(later), ViaMetals::Layers)
    } else if is_word(word.bytes, b"ENCLOSURE") {
        told(four_at(later), ViaMetals::Enclosure)
    } else if is_word(word.bytes, b"ORIGIN") {
        told_pair(two_at(WordKind::Distance, later), ViaMetals::Origin)
    } else if is_word(word.bytes, b"OFFSET") {
        told(four_at(later), ViaMetals::Offset)
    } else {
        None
    }
}

/// A statement in the block of this name.
#[tactic(auto, unfolding(lef_grammar::specs::ViaBlock::via_statement, lef_grammar::specs::Extents::kept_statement))]
pub(crate) fn via_at<'l>(
    name: &[u8],
    stage: ViaStage,
    cursor: Cursor<'l>,
) -> Option<(ViaStatement<'l>, Cursor<'l>)>
    ensures gives { Gives (with_rest via_view) result (read (via_statement name.now (stage_view stage)) (rest_of cursor.entry)) }
    ensures lent { IfSome result (λ x. ViaAt (pieces_of cursor.entry.tokens) x.0) }
{
    let (word, later) = cursor.next()?;
    if is_word(word.bytes, b"END") {
        Some((ViaStatement::End, later.key(name)?))
    } else if continues_via(stage, word.bytes) {
        Some((ViaStatement::HeaderWord(word), later))
    } else if is_via_shape(word.bytes) {
        told(shape_at(stage, cursor), ViaStatement::Shape)
    } else if is_via_cuts(word.bytes) {
        told(cuts_at(cursor), ViaStatement::Cuts)
    } else if is_via_metals(word.bytes) {
        told(metals_at(cursor), ViaStatement::Metals)
    } else {
        told_pair(kept_at(cursor), ViaStatement::Kept)
    }
}
