//! The blocks of a LEF text.

ghost use Rattle.std.specs.Prelude.{◌≡◌, if◌then◌else◌};
ghost use Rattle.lef_grammar.specs.LefRecords.{kept_parent, lef_ending, parent};
ghost use Rattle.statement_reader.specs.Endings.{ending_view};
ghost use Rattle.lef_reader.specs.BlockViews.{block_view};
ghost use Rattle.lef_reader.specs.KeptViews.{kept_block_view};

use crate::kept_blocks::KeptBlock;
use crate::macro_block::macro_ending;
use crate::outermost::outermost_ending;
use crate::parts::{bare_block_ending, block_ending};
use crate::pin_block::pin_ending;
use crate::rule_block::rule_ending;
use crate::via_block::{ViaStage, via_ending};
use statement_reader::boundary::Ending;

/// The block that a statement stands in, with its name and those of the blocks that it stands in itself.
#[derive(Clone, Copy, Drop)]
pub enum Block<'l> {
    Outermost,
    Layer(&'l [u8]),
    Site(&'l [u8]),
    /// With the name of the rule that it stands in.
    Via {
        rule: Option<&'l [u8]>,
        name: &'l [u8],
        stage: ViaStage,
    },
    /// NONDEFAULTRULE.
    Rule(&'l [u8]),
    RuleLayer {
        rule: &'l [u8],
        name: &'l [u8],
    },
    Macro(&'l [u8]),
    Pin {
        cell: &'l [u8],
        name: &'l [u8],
    },
    /// Of a pin, and whether a `LAYER` came before.
    Port {
        cell: &'l [u8],
        pin: &'l [u8],
        has_layer: bool,
    },
    Kept(KeptBlock<'l>),
}

/// The block that a block of kept statements stands in.
fn kept_parent<'l>(block: KeptBlock<'l>) -> Block<'l>
    ensures { block_view result ≡ kept_parent (kept_block_view block.entry) }
{
    match block {
        KeptBlock::RuleSpacing(rule) => Block::Rule(rule),
        KeptBlock::Obstruction(cell) | KeptBlock::Density(cell) => Block::Macro(cell),
        _ => Block::Outermost,
    }
}

impl<'l> Block<'l> {
    /// How a statement in it ends, by its first token.
    pub(crate) fn ending(self, first: &[u8]) -> Ending
        ensures { ending_view result ≡ lef_ending (block_view self.entry) first.now }
    {
        match self {
            Block::Outermost => outermost_ending(first),
            Block::Via { stage, .. } => via_ending(stage, first),
            Block::Rule(_) => rule_ending(first),
            Block::Macro(_) => macro_ending(first),
            Block::Pin { .. } => pin_ending(first),
            Block::Port { .. } => bare_block_ending(first),
            Block::Kept(block) => block.ending(first),
            Block::Layer(_) | Block::Site(_) | Block::RuleLayer { .. } => block_ending(first),
        }
    }

    /// The block that it stands in.
    pub(crate) fn parent(self) -> Block<'l>
        ensures { block_view result ≡ parent (block_view self.entry) }
    {
        match self {
            Block::Via {
                rule: Some(rule),
                ..
            } => Block::Rule(rule),
            Block::RuleLayer { rule, .. } => Block::Rule(rule),
            Block::Pin { cell, .. } => Block::Macro(cell),
            Block::Port { cell, pin, .. } => Block::Pin { cell, name: pin },
            Block::Kept(block) => kept_parent(block),
            _ => Block::Outermost,
        }
    }

    /// The block after a statement that opens none, where it ends this one or doesn't.
    pub(crate) fn after_end(self, ends: bool) -> Block<'l>
        ensures { block_view result ≡ (if ends then parent (block_view self.entry) else block_view self.entry) }
    {
        if ends { self.parent() } else { self }
    }
}
