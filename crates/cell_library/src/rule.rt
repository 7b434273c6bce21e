//! Nondefault rules.

ghost use Rattle.std.specs.Prelude.{refl};
ghost use Rattle.lef_grammar.specs.Definitions.{Rule as TheRule, RuleLayer as TheRuleLayer, inner_record, opened_rule, opened_rule_layer, rule_layer_record, rule_layer_with, rule_with};
ghost use Rattle.lef_grammar.specs.LefRecords.{LefRecord};
ghost use Rattle.lef_grammar.specs.RuleBlock.{RuleLayerRecord};
ghost use Rattle.cell_library.specs.RuleViews.{rule_layer_name, rule_layer_view, rule_name, rule_view};

use crate::definition::{Definition, read_all};
use crate::named::Named;
use crate::noted::{Noted, note_all};
use crate::numbers::read_distance;
use lef_reader::outermost::{NamedHeader, OutermostStatement};
use lef_reader::rule_block::{RuleLayerStatement, RuleStatement};
use lef_reader::statement::LefStatement;
use std::alloc::{AllocError, Allocator, Global};
use std::hash::RandomState;
use unit_numbers::Microns;

/// A layer of a rule: its first `WIDTH`.
#[derive(Clone, Copy, Drop)]
pub struct RuleLayer {
    pub width: Option<Microns>,
}

/// A rule: the first of its layers of each name.
#[derive(Drop)]
pub struct Rule<'l, A: Allocator = Global> {
    pub layers: Named<'l, RuleLayer, A>,
}

impl<'l> Noted<'l> for RuleLayer {
    ghost Part = { RuleLayerRecord };

    ghost Said = { TheRuleLayer };

    ghost part = { rule_layer_record };

    ghost view = { rule_layer_view };

    ghost says = { rule_layer_with };

    fn nothing() -> RuleLayer {
        RuleLayer { width: None }
    }

    fn note(&mut self, statement: &LefStatement<'l>) {
        if let LefStatement::InRuleLayer(RuleLayerStatement::Width(width)) = statement {
            self.width = Some(read_distance(width.bytes));
        }
    }
}

impl<'l, A: Allocator + Copy> Definition<'l, A> for RuleLayer {
    ghost Seen = { TheRuleLayer };

    ghost Part = { RuleLayerRecord };

    ghost view = { rule_layer_view };

    ghost name_in = { rule_layer_name };

    ghost header = { opened_rule_layer };

    ghost part = { rule_layer_record };

    ghost define = { rule_layer_with };

    fn opened(statement: &LefStatement<'l>) -> Option<&'l [u8]> {
        match statement {
            LefStatement::InRule(RuleStatement::OpensLayer(name)) => Some(name.bytes),
            _ => None,
        }
    }

    fn holds(statement: &LefStatement<'l>) -> bool {
        matches!(statement, LefStatement::InRuleLayer(_))
    }

    fn read(_: A, _: RandomState, inner: &[LefStatement<'l>]) -> Result<RuleLayer, AllocError> {
        Ok(note_all(inner))
    }

    ghost named_so = { λ e. refl };
}

impl<'n: 'l, 'l, A: Allocator + Copy> Definition<'n, A> for Rule<'l, A> {
    ghost Seen = { TheRule };

    ghost Part = { LefRecord };

    ghost view = { rule_view };

    ghost name_in = { rule_name };

    ghost header = { opened_rule };

    ghost part = { inner_record };

    ghost define = { rule_with };

    fn opened(statement: &LefStatement<'n>) -> Option<&'n [u8]> {
        match statement {
            LefStatement::Outside(OutermostStatement::Named(NamedHeader::Rule(name))) => Some(
                name.bytes,
            ),
            _ => None,
        }
    }

    fn holds(statement: &LefStatement<'n>) -> bool {
        !matches!(statement, LefStatement::Outside(_))
    }

    fn read(
        alloc: A,
        hash_builder: RandomState,
        inner: &[LefStatement<'n>],
    ) -> Result<Rule<'l, A>, AllocError> {
        Ok(Rule {
            layers: read_all(alloc, hash_builder, inner)?,
        })
    }

    ghost named_so = { λ e. refl };
}
