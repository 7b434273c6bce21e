//! The statements of a LEF text, by their block.

ghost use Rattle.std.specs.Prelude.{◌≡◌, IfSome};
ghost use Rattle.form_meanings.specs.Words.{Gives};
ghost use Rattle.statement_model.specs.Form.{read, whole};
ghost use Rattle.lef_grammar.specs.LefRecords.{block_after, in_kept, in_macro, in_pin, in_port, in_rule, in_via, lef, lef_statement, opened_in_macro, opened_in_pin, opened_in_rule, opened_outside, outside};
ghost use Rattle.lefdef_tokens.specs.Views.{pieces_of, rest_of, words_of};
ghost use Rattle.statement_reader.specs.Endings.{ending_view};
ghost use Rattle.lef_reader.specs.Parts.{with_rest};
ghost use Rattle.lef_reader.specs.BlockViews.{block_view};
ghost use Rattle.lef_reader.specs.KeptViews.{kept_view};
ghost use Rattle.lef_reader.specs.MacroViews.{macro_view};
ghost use Rattle.lef_reader.specs.OutermostViews.{outermost_view};
ghost use Rattle.lef_reader.specs.PinViews.{pin_view};
ghost use Rattle.lef_reader.specs.PortViews.{port_view};
ghost use Rattle.lef_reader.specs.RuleViews.{rule_view};
ghost use Rattle.lef_reader.specs.StatementViews.{StatementAt, lef_view};
ghost use Rattle.lef_reader.specs.Stepping.{ended};
ghost use Rattle.lef_reader.specs.ViaViews.{via_view};

use crate::block::Block;
use crate::kept_blocks::{KeptBlock, KeptStatement, RuleHeader, kept_block_at};
use crate::layer_block::{LayerStatement, layer_at};
use crate::macro_block::{InnerHeader, MacroStatement, macro_at};
use crate::outermost::{BareHeader, NamedHeader, OutermostStatement, outermost_at};
use crate::parts::told;
use crate::pin_block::{PinStatement, pin_at};
use crate::port_block::{PortStatement, port_at};
use crate::rule_block::{RuleLayerStatement, RuleStatement, rule_at, rule_layer_at};
use crate::site_block::{SiteStatement, site_at};
use crate::via_block::{ViaStage, ViaStatement, via_at};
use lefdef_tokens::{Cursor, TokenRun};
use statement_reader::boundary::Ending;
use statement_reader::grammar::Statement;

/// What a LEF statement says, by the block that it stands in. The header of a block stands in the block around it.
#[derive(Clone, Copy, Drop)]
pub enum LefStatement<'l> {
    Outside(OutermostStatement<'l>),
    InLayer(LayerStatement<'l>),
    InSite(SiteStatement<'l>),
    InVia(ViaStatement<'l>),
    InRule(RuleStatement<'l>),
    InRuleLayer(RuleLayerStatement<'l>),
    InMacro(MacroStatement<'l>),
    InPin(PinStatement<'l>),
    InPort(PortStatement<'l>),
    InKept(KeptStatement<'l>),
}

/// A statement in a block.
#[tactic(auto, unfolding(lef_grammar::specs::LefRecords::lef_statement))]
fn statement_at<'l>(block: Block<'l>, cursor: Cursor<'l>) -> Option<(LefStatement<'l>, Cursor<'l>)>
    ensures gives { Gives (with_rest lef_view) result (read (lef_statement (block_view block.entry)) (rest_of cursor.entry)) }
    ensures lent { IfSome result (λ x. StatementAt (pieces_of cursor.entry.tokens) x.0) }
{
    match block {
        Block::Outermost => told(outermost_at(cursor), LefStatement::Outside),
        Block::Layer(name) => told(layer_at(name, cursor), LefStatement::InLayer),
        Block::Site(name) => told(site_at(name, cursor), LefStatement::InSite),
        Block::Via { name, stage, .. } => told(via_at(name, stage, cursor), LefStatement::InVia),
        Block::Rule(name) => told(rule_at(name, cursor), LefStatement::InRule),
        Block::RuleLayer { name, .. } => told(
            rule_layer_at(name, cursor),
            LefStatement::InRuleLayer,
        ),
        Block::Macro(name) => told(macro_at(name, cursor), LefStatement::InMacro),
        Block::Pin { name, .. } => told(pin_at(name, cursor), LefStatement::InPin),
        Block::Port { has_layer, .. } => told(port_at(has_layer, cursor), LefStatement::InPort),
        Block::Kept(block) => told(kept_block_at(block, cursor), LefStatement::InKept),
    }
}

/// The block that a statement outside of all blocks opens.
fn opened_outside<'l>(statement: &OutermostStatement<'l>) -> Block<'l>
    ensures { block_view result ≡ opened_outside (outermost_view statement.now) }
{
    match statement {
        OutermostStatement::Named(header) => match header {
            NamedHeader::Layer(name) => Block::Layer(name.bytes),
            NamedHeader::Site(name) => Block::Site(name.bytes),
            NamedHeader::Macro(name) => Block::Macro(name.bytes),
            NamedHeader::Rule(name) => Block::Rule(name.bytes),
            NamedHeader::Via(name) => Block::Via {
                rule: None,
                name: name.bytes,
                stage: ViaStage::InHeader,
            },
            NamedHeader::GeneratingRule(name) => Block::Kept(KeptBlock::GeneratingRule(
                name.bytes,
                RuleHeader::GenerateOrDefault,
            )),
        },
        OutermostStatement::Bare(header) => Block::Kept(match header {
            BareHeader::Units => KeptBlock::Units,
            BareHeader::Spacing => KeptBlock::Spacing,
            BareHeader::Properties => KeptBlock::Properties,
            BareHeader::Extension => KeptBlock::Extension,
        }),
        OutermostStatement::EndLibrary | OutermostStatement::Kept(_, _) => Block::Outermost,
    }
}

/// The block after a statement in a rule that doesn't end it.
fn opened_in_rule<'l>(rule: &'l [u8], statement: &RuleStatement<'l>) -> Block<'l>
    ensures { block_view result ≡ opened_in_rule rule.now (rule_view statement.now) }
{
    match statement {
        RuleStatement::OpensLayer(name) => Block::RuleLayer {
            rule,
            name: name.bytes,
        },
        RuleStatement::OpensVia(name) => Block::Via {
            rule: Some(rule),
            name: name.bytes,
            stage: ViaStage::InHeader,
        },
        RuleStatement::OpensSpacing => Block::Kept(KeptBlock::RuleSpacing(rule)),
        RuleStatement::End | RuleStatement::Kept(_, _) => Block::Rule(rule),
    }
}

/// The block after a statement in a macro that doesn't end it.
fn opened_in_macro<'l>(cell: &'l [u8], statement: &MacroStatement<'l>) -> Block<'l>
    ensures { block_view result ≡ opened_in_macro cell.now (macro_view statement.now) }
{
    match statement {
        MacroStatement::Opens(header) => match header {
            InnerHeader::Pin(name) => Block::Pin {
                cell,
                name: name.bytes,
            },
            InnerHeader::Obstruction => Block::Kept(KeptBlock::Obstruction(cell)),
            InnerHeader::Density => Block::Kept(KeptBlock::Density(cell)),
        },
        _ => Block::Macro(cell),
    }
}

/// The block after a statement in a pin that doesn't end it.
fn opened_in_pin<'l>(cell: &'l [u8], name: &'l [u8], statement: &PinStatement<'l>) -> Block<'l>
    ensures { block_view result ≡ opened_in_pin cell.now name.now (pin_view statement.now) }
{
    match statement {
        PinStatement::OpensPort => Block::Port {
            cell,
            pin: name,
            has_layer: false,
        },
        _ => Block::Pin { cell, name },
    }
}

/// The block after a statement outside of all blocks.
fn after_outside<'l>(block: Block<'l>, statement: &OutermostStatement<'l>) -> Block<'l>
    ensures { block_view result ≡ block_after (block_view block.entry) (outside (outermost_view statement.now)) }
{
    match block {
        Block::Outermost => opened_outside(statement),
        _ => block,
    }
}

/// The block after a statement in a via.
fn after_in_via<'l>(block: Block<'l>, statement: &ViaStatement<'l>) -> Block<'l>
    ensures { block_view result ≡ block_after (block_view block.entry) (in_via (via_view statement.now)) }
{
    if statement.is_end() {
        return block.parent();
    }
    match block {
        Block::Via { rule, name, stage } => Block::Via {
            rule,
            name,
            stage: stage.after(statement),
        },
        _ => block,
    }
}

/// The block after a statement in a rule.
fn after_in_rule<'l>(block: Block<'l>, statement: &RuleStatement<'l>) -> Block<'l>
    ensures { block_view result ≡ block_after (block_view block.entry) (in_rule (rule_view statement.now)) }
{
    if statement.is_end() {
        return block.parent();
    }
    match block {
        Block::Rule(rule) => opened_in_rule(rule, statement),
        _ => block,
    }
}

/// The block after a statement in a macro.
fn after_in_macro<'l>(block: Block<'l>, statement: &MacroStatement<'l>) -> Block<'l>
    ensures { block_view result ≡ block_after (block_view block.entry) (in_macro (macro_view statement.now)) }
{
    if statement.is_end() {
        return block.parent();
    }
    match block {
        Block::Macro(cell) => opened_in_macro(cell, statement),
        _ => block,
    }
}

/// The block after a statement in a pin.
fn after_in_pin<'l>(block: Block<'l>, statement: &PinStatement<'l>) -> Block<'l>
    ensures { block_view result ≡ block_after (block_view block.entry) (in_pin (pin_view statement.now)) }
{
    if statement.is_end() {
        return block.parent();
    }
    match block {
        Block::Pin { cell, name } => opened_in_pin(cell, name, statement),
        _ => block,
    }
}

/// The block after a statement in a port.
fn after_in_port<'l>(block: Block<'l>, statement: &PortStatement<'l>) -> Block<'l>
    ensures { block_view result ≡ block_after (block_view block.entry) (in_port (port_view statement.now)) }
{
    if statement.is_end() {
        return block.parent();
    }
    match block {
        Block::Port {
            cell,
            pin,
            has_layer,
        } => Block::Port {
            cell,
            pin,
            has_layer: statement.layer_after(has_layer),
        },
        _ => block,
    }
}

/// The block after a statement in a block whose statements are kept.
fn after_in_kept<'l>(block: Block<'l>, statement: &KeptStatement<'l>) -> Block<'l>
    ensures { block_view result ≡ block_after (block_view block.entry) (in_kept (kept_view statement.now)) }
{
    if statement.is_end() {
        return block.parent();
    }
    match block {
        Block::Kept(kept) => Block::Kept(kept.after(statement)),
        _ => block,
    }
}

/// What was read, where no token is left behind it, and how many were left at the first invalid number.
#[inline(always)]
fn ended<'l, S: Copy + Drop>(found: Option<(S, Cursor<'l>)>) -> Option<(S, Option<usize>)>
    ensures { result ≡ ended found.entry }
{
    let (statement, cursor) = found?;
    if cursor.is_done() {
        Some((statement, cursor.bad))
    } else {
        None
    }
}

impl<'l> Statement<'l> for LefStatement<'l> {
    ghost use Rattle.lef_grammar.specs.LefRecords as model;

    type Place = Block<'l>;

    ghost Where = { model.Block };

    ghost Says = { model.LefRecord };

    ghost grammar = { lef };

    ghost place_view = { block_view };

    ghost view = { lef_view };

    ghost lent = { StatementAt };

    fn ending(block: Block<'l>, first: &[u8]) -> Ending
        ensures { ending_view result ≡ model.lef_ending (block_view block.entry) first.now }
    {
        block.ending(first)
    }

    fn read(block: Block<'l>, tokens: TokenRun<'l>) -> Option<(LefStatement<'l>, Option<usize>)>
        ensures gives { Gives (λ x. (lef_view x.0, x.1)) result (whole (lef_statement (block_view block.entry)) (words_of tokens.entry)) }
        ensures lent { IfSome result (λ x. StatementAt (pieces_of tokens.entry) x.0) }
    {
        ended(statement_at(block, Cursor::start(tokens)))
    }

    fn after(block: Block<'l>, statement: &LefStatement<'l>) -> Block<'l>
        ensures { block_view result ≡ model.block_after (block_view block.entry) (lef_view statement.now) }
    {
        match statement {
            LefStatement::Outside(statement) => after_outside(block, statement),
            LefStatement::InLayer(statement) => block.after_end(statement.is_end()),
            LefStatement::InSite(statement) => block.after_end(statement.is_end()),
            LefStatement::InVia(statement) => after_in_via(block, statement),
            LefStatement::InRule(statement) => after_in_rule(block, statement),
            LefStatement::InRuleLayer(statement) => block.after_end(statement.is_end()),
            LefStatement::InMacro(statement) => after_in_macro(block, statement),
            LefStatement::InPin(statement) => after_in_pin(block, statement),
            LefStatement::InPort(statement) => after_in_port(block, statement),
            LefStatement::InKept(statement) => after_in_kept(block, statement),
        }
    }

    fn may_end(block: Block<'l>) -> bool
        ensures { result ≡ model.is_outermost (block_view block.entry) }
    {
        matches!(block, Block::Outermost)
    }
}
