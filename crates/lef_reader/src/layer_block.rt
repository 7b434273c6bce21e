//! The block LAYER (LEF/DEF 5.8 Language Reference, "Layer").

ghost use Rattle.std.specs.Prelude.{◌≡◌, IfSome};
ghost use Rattle.form_meanings.specs.Words.{Gives};
ghost use Rattle.statement_model.specs.Form.{read};
ghost use Rattle.lef_grammar.specs.LayerBlock.{ends_layer, layer_statement};
ghost use Rattle.lefdef_tokens.specs.Views.{pieces_of, rest_of};
ghost use Rattle.lef_reader.specs.Parts.{with_rest};
ghost use Rattle.lef_reader.specs.LayerViews.{LayerAt, layer_view};

use crate::parts::{WordKind, kept_at, only_at, told, told_pair, word_to_end_at};
use lefdef_tokens::{Cursor, Token, TokenRun, is_word};

/// A statement in a block LAYER.
#[derive(Clone, Copy, Drop)]
pub enum LayerStatement<'l> {
    End,
    /// By the word of a `TYPE`.
    Kind(Token<'l>),
    /// The width in microns as written, and what stands behind it.
    Width(Token<'l>, TokenRun<'l>),
    /// The distance in microns as written, and what stands behind it.
    Spacing(Token<'l>, TokenRun<'l>),
    /// A statement without meaning, by its first token and the others.
    Kept(Token<'l>, TokenRun<'l>),
}

impl<'l> LayerStatement<'l> {
    /// Whether it ends the block.
    pub(crate) fn is_end(&self) -> bool
        ensures { result ≡ ends_layer (layer_view self.now) }
    {
        matches!(self, LayerStatement::End)
    }
}

/// A statement in the block of this name.
#[tactic(auto, unfolding(lef_grammar::specs::LayerBlock::layer_statement, lef_grammar::specs::LayerBlock::type_statement, lef_grammar::specs::LayerBlock::width_statement, lef_grammar::specs::LayerBlock::spacing_statement, lef_grammar::specs::Extents::kept_statement))]
pub(crate) fn layer_at<'l>(
    name: &[u8],
    cursor: Cursor<'l>,
) -> Option<(LayerStatement<'l>, Cursor<'l>)>
    ensures gives { Gives (with_rest layer_view) result (read (layer_statement name.now) (rest_of cursor.entry)) }
    ensures lent { IfSome result (λ x. LayerAt (pieces_of cursor.entry.tokens) x.0) }
{
    let (word, later) = cursor.next()?;
    if is_word(word.bytes, b"END") {
        Some((LayerStatement::End, later.key(name)?))
    } else if is_word(word.bytes, b"TYPE") {
        told(only_at(WordKind::Kept, later), LayerStatement::Kind)
    } else if is_word(word.bytes, b"WIDTH") {
        told_pair(
            word_to_end_at(WordKind::Extent, later),
            LayerStatement::Width,
        )
    } else if is_word(word.bytes, b"SPACING") {
        told_pair(
            word_to_end_at(WordKind::Distance, later),
            LayerStatement::Spacing,
        )
    } else {
        told_pair(kept_at(cursor), LayerStatement::Kept)
    }
}
