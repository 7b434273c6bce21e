//! Layers.

ghost use Rattle.std.specs.Prelude.{◌≡◌, Some, refl};
ghost use Rattle.lef_grammar.specs.Definitions.{Layer as TheLayer, kind_of, layer_record, layer_with, opened_layer};
ghost use Rattle.lef_grammar.specs.LayerBlock.{LayerRecord};
ghost use Rattle.cell_library.specs.LayerViews.{kind_view, layer_name, layer_view};

use crate::definition::Definition;
use crate::noted::{Noted, note_all};
use crate::numbers::read_distance;
use lef_reader::layer_block::LayerStatement;
use lef_reader::outermost::{NamedHeader, OutermostStatement};
use lef_reader::statement::LefStatement;
use lefdef_tokens::is_word;
use std::alloc::{AllocError, Allocator};
use std::hash::RandomState;
use unit_numbers::Microns;

/// What a layer is for, by its `TYPE`.
#[derive(Clone, Copy)]
pub enum LayerKind {
    Routing,
    Cut,
    Other,
}

/// A layer: its first `TYPE` and `WIDTH`, and its first `SPACING` that has its number alone.
#[derive(Clone, Copy, Drop)]
pub struct Layer {
    pub kind: LayerKind,
    pub width: Option<Microns>,
    pub spacing: Option<Microns>,
}

/// The kind that the word of a `TYPE` gives.
fn kind_of(word: &[u8]) -> LayerKind
    ensures { kind_view result ≡ kind_of (Some word.now) }
{
    if is_word(word, b"ROUTING") {
        LayerKind::Routing
    } else if is_word(word, b"CUT") {
        LayerKind::Cut
    } else {
        LayerKind::Other
    }
}

impl<'l> Noted<'l> for Layer {
    ghost Part = { LayerRecord };

    ghost Said = { TheLayer };

    ghost part = { layer_record };

    ghost view = { layer_view };

    ghost says = { layer_with };

    fn nothing() -> Layer {
        Layer {
            kind: LayerKind::Other,
            width: None,
            spacing: None,
        }
    }

    fn note(&mut self, statement: &LefStatement<'l>) {
        match statement {
            LefStatement::InLayer(LayerStatement::Kind(word)) => self.kind = kind_of(word.bytes),
            LefStatement::InLayer(LayerStatement::Width(width, _)) => {
                self.width = Some(read_distance(width.bytes))
            }
            LefStatement::InLayer(LayerStatement::Spacing(gap, others)) => {
                if others.is_empty() {
                    self.spacing = Some(read_distance(gap.bytes))
                }
            }
            _ => {}
        }
    }
}

impl<'l, A: Allocator + Copy> Definition<'l, A> for Layer {
    ghost Seen = { TheLayer };

    ghost Part = { LayerRecord };

    ghost view = { layer_view };

    ghost name_in = { layer_name };

    ghost header = { opened_layer };

    ghost part = { layer_record };

    ghost define = { layer_with };

    fn opened(statement: &LefStatement<'l>) -> Option<&'l [u8]> {
        match statement {
            LefStatement::Outside(OutermostStatement::Named(NamedHeader::Layer(name))) => Some(
                name.bytes,
            ),
            _ => None,
        }
    }

    fn holds(statement: &LefStatement<'l>) -> bool {
        matches!(statement, LefStatement::InLayer(_))
    }

    fn read(_: A, _: RandomState, inner: &[LefStatement<'l>]) -> Result<Layer, AllocError> {
        Ok(note_all(inner))
    }

    ghost named_so = { λ e. refl };
}
