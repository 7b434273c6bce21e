//! The block PORT of a pin (LEF/DEF 5.8 Language Reference, "Macro Pin Statement").

ghost use Rattle.std.specs.Prelude.{◌≡◌, codes, IfSome};
ghost use Rattle.form_meanings.specs.Words.{Gives};
ghost use Rattle.statement_model.specs.Form.{◌▸◌, ◌⨟◌, read, word};
ghost use Rattle.lef_grammar.specs.Extents.{is_kept_word, to_end};
ghost use Rattle.lef_grammar.specs.PortBlock.{ends_port, is_port_shape, is_unchecked, layer_after, port_rect_where, port_statement};
ghost use Rattle.lefdef_tokens.specs.Views.{pieces_of, rest_of};
ghost use Rattle.lef_reader.specs.Parts.{with_rest, words_view};
ghost use Rattle.lef_reader.specs.PortViews.{MaskedArrayAt, PortAt, RectAt, port_view, rect_view};

use crate::parts::{WordKind, kept_at, to_end_at, told, told_pair, word_to_end_at};
use crate::point::{Corners, corners_at, mask_at};
use lefdef_tokens::{Cursor, Token, TokenRun, is_word};

/// A `RECT`: a rectangle, or an array of them, which is only counted.
#[derive(Clone, Copy, Drop)]
pub enum PortRect<'l> {
    /// What stands behind `ITERATE`.
    Array(TokenRun<'l>),
    /// The word of its `MASK`, and what stands behind `ITERATE`.
    MaskedArray(Token<'l>, TokenRun<'l>),
    Corners(Corners<'l>),
}

/// A statement in a block PORT.
#[derive(Clone, Copy, Drop)]
pub enum PortStatement<'l> {
    End,
    /// A layer, by its name, and what stands behind it.
    Layer(Token<'l>, TokenRun<'l>),
    Rect(PortRect<'l>),
    /// `POLYGON`, `PATH` or `VIA`, which is only counted: its word and the others.
    Shape(Token<'l>, TokenRun<'l>),
    /// A statement without meaning, by its first token and the others.
    Kept(Token<'l>, TokenRun<'l>),
}

impl<'l> PortStatement<'l> {
    /// Whether it ends the block.
    pub(crate) fn is_end(&self) -> bool
        ensures { result ≡ ends_port (port_view self.now) }
    {
        matches!(self, PortStatement::End)
    }

    /// Whether a `LAYER` came before what stands after it.
    pub(crate) fn layer_after(&self, has_layer: bool) -> bool
        ensures { result ≡ layer_after has_layer (port_view self.now) }
    {
        match self {
            PortStatement::Layer(_, _) => true,
            _ => has_layer,
        }
    }

    /// Whether it is a part whose shape isn't checked.
    pub fn is_unchecked(&self) -> bool
        ensures { result ≡ is_unchecked (port_view self.now) }
    {
        match self {
            PortStatement::Shape(_, _) => true,
            PortStatement::Rect(PortRect::Array(_) | PortRect::MaskedArray(_, _)) => true,
            _ => false,
        }
    }
}

/// Whether a word begins a part that is only counted.
fn is_port_shape(word: &[u8]) -> bool
    ensures { result ≡ is_port_shape word.now }
{
    is_word(word, b"POLYGON") || is_word(word, b"PATH") || is_word(word, b"VIA")
}

/// `MASK word ITERATE any* ;`
fn masked_array_at<'l>(cursor: Cursor<'l>) -> Option<((Token<'l>, TokenRun<'l>), Cursor<'l>)>
    ensures gives { Gives (with_rest words_view) result (read (codes "MASK" ▸ word is_kept_word ⨟ codes "ITERATE" ▸ to_end) (rest_of cursor.entry)) }
    ensures lent { IfSome result (λ x. MaskedArrayAt (pieces_of cursor.entry.tokens) x.0) }
{
    let (mask, cursor) = mask_at(cursor)?;
    let (others, cursor) = to_end_at(cursor.key(b"ITERATE")?)?;
    Some(((mask, others), cursor))
}

/// An array or a rectangle, after `RECT`, where a `LAYER` came before
#[tactic(auto, unfolding(lef_grammar::specs::PortBlock::port_rect_where, lef_grammar::specs::PortBlock::port_rect_statement))]
fn rect_at<'l>(has_layer: bool, cursor: Cursor<'l>) -> Option<(PortRect<'l>, Cursor<'l>)>
    ensures gives { Gives (with_rest rect_view) result (read (port_rect_where has_layer) (rest_of cursor.entry)) }
    ensures lent { IfSome result (λ x. RectAt (pieces_of cursor.entry.tokens) x.0) }
{
    if !has_layer {
        return None;
    }
    if cursor.next_is(b"ITERATE") {
        return told(to_end_at(cursor.key(b"ITERATE")?), PortRect::Array);
    }
    if let Some(((mask, others), later)) = masked_array_at(cursor) {
        return Some((PortRect::MaskedArray(mask, others), later));
    }
    told(corners_at(cursor), PortRect::Corners)
}

/// A statement in the block.
#[tactic(auto, unfolding(lef_grammar::specs::PortBlock::port_statement, lef_grammar::specs::Extents::kept_statement))]
pub(crate) fn port_at<'l>(
    has_layer: bool,
    cursor: Cursor<'l>,
) -> Option<(PortStatement<'l>, Cursor<'l>)>
    ensures gives { Gives (with_rest port_view) result (read (port_statement has_layer) (rest_of cursor.entry)) }
    ensures lent { IfSome result (λ x. PortAt (pieces_of cursor.entry.tokens) x.0) }
{
    let (word, later) = cursor.next()?;
    if is_word(word.bytes, b"END") {
        Some((PortStatement::End, later))
    } else if is_word(word.bytes, b"LAYER") {
        told_pair(word_to_end_at(WordKind::Name, later), PortStatement::Layer)
    } else if is_word(word.bytes, b"RECT") {
        told(rect_at(has_layer, later), PortStatement::Rect)
    } else if is_port_shape(word.bytes) {
        let (others, cursor) = to_end_at(later)?;
        Some((PortStatement::Shape(word, others), cursor))
    } else {
        told_pair(kept_at(cursor), PortStatement::Kept)
    }
}
