//! The blocks whose statements are only kept: UNITS, SPACING, PROPERTYDEFINITIONS, VIARULE, BEGINEXT, SPACING of a rule, and
//! OBS and DENSITY of a macro (LEF/DEF 5.8 Language Reference, "LEF Syntax").

ghost use Rattle.std.specs.Prelude.{◌≡◌, IfSome};
ghost use Rattle.form_meanings.specs.Words.{Gives};
ghost use Rattle.statement_model.specs.Form.{read};
ghost use Rattle.lef_grammar.specs.KeptBlocks.{after_word, closed_alone, continues_rule, ends_kept, extension_token, generating_statement, header_after, kept_after, kept_block_statement, kept_ending};
ghost use Rattle.lefdef_tokens.specs.Views.{pieces_of, rest_of};
ghost use Rattle.statement_reader.specs.Endings.{ending_view};
ghost use Rattle.lef_reader.specs.Parts.{with_rest};
ghost use Rattle.lef_reader.specs.KeptViews.{KeptAt, header_view, kept_block_view, kept_view};

use crate::parts::{bare_block_ending, block_ending, kept_at, told_pair};
use lefdef_tokens::{Cursor, Token, TokenRun, is_word};
use statement_reader::boundary::Ending;

/// Which words may still come in the header of a VIARULE.
#[derive(Clone, Copy, Drop)]
pub enum RuleHeader {
    GenerateOrDefault,
    Default,
    Complete,
}

/// A block whose statements are only kept, with its name, or the name of the rule or the macro that it stands in.
#[derive(Clone, Copy, Drop)]
pub enum KeptBlock<'l> {
    Units,
    Spacing,
    Properties,
    /// From `BEGINEXT` on.
    Extension,
    /// VIARULE.
    GeneratingRule(&'l [u8], RuleHeader),
    RuleSpacing(&'l [u8]),
    /// OBS.
    Obstruction(&'l [u8]),
    Density(&'l [u8]),
}

/// A statement in such a block.
#[derive(Clone, Copy, Drop)]
pub enum KeptStatement<'l> {
    End,
    /// A word of the header of a VIARULE, or a token of an extension.
    Lone(Token<'l>),
    /// A statement, by its first token and the others.
    Kept(Token<'l>, TokenRun<'l>),
}

impl<'l> KeptStatement<'l> {
    /// Whether it ends the block.
    pub(crate) fn is_end(&self) -> bool
        ensures { result ≡ ends_kept (kept_view self.now) }
    {
        matches!(self, KeptStatement::End)
    }
}

impl RuleHeader {
    /// Whether a word is one of the header that may still come.
    pub(crate) fn continues(self, word: &[u8]) -> bool
        ensures { result ≡ continues_rule (header_view self) word.now }
    {
        match self {
            RuleHeader::GenerateOrDefault => is_word(word, b"GENERATE")
                || is_word(word, b"DEFAULT"),
            RuleHeader::Default => is_word(word, b"DEFAULT"),
            RuleHeader::Complete => false,
        }
    }

    /// What may still come after a word of the header.
    pub(crate) fn after_word(self, word: &[u8]) -> RuleHeader
        ensures { header_view result ≡ after_word (header_view self) word.now }
    {
        match self {
            RuleHeader::GenerateOrDefault if is_word(word, b"GENERATE") => RuleHeader::Default,
            _ => RuleHeader::Complete,
        }
    }

    /// What may still come after a statement.
    fn after(self, statement: &KeptStatement<'_>) -> RuleHeader
        ensures { header_view result ≡ header_after (header_view self) (kept_view statement.now) }
    {
        match statement {
            KeptStatement::Lone(word) => self.after_word(word.bytes),
            _ => RuleHeader::Complete,
        }
    }
}

impl<'l> KeptBlock<'l> {
    /// How a statement ends, by its first token. In an extension each token stands alone.
    pub(crate) fn ending(self, first: &[u8]) -> Ending
        ensures { ending_view result ≡ kept_ending (kept_block_view self.entry) first.now }
    {
        match self {
            KeptBlock::Extension => Ending::Alone,
            KeptBlock::GeneratingRule(_, header) => {
                if header.continues(first) {
                    Ending::Alone
                } else {
                    block_ending(first)
                }
            }
            KeptBlock::Obstruction(_) | KeptBlock::Density(_) => bare_block_ending(first),
            _ => block_ending(first),
        }
    }

    /// The block after a statement that doesn't end it.
    pub(crate) fn after(self, statement: &KeptStatement<'l>) -> KeptBlock<'l>
        ensures { kept_block_view result ≡ kept_after (kept_block_view self.entry) (kept_view statement.now) }
    {
        match self {
            KeptBlock::GeneratingRule(name, header) => KeptBlock::GeneratingRule(
                name,
                header.after(statement),
            ),
            _ => self,
        }
    }
}

/// `END` alone, or a statement without meaning.
#[tactic(auto, unfolding(lef_grammar::specs::KeptBlocks::closed_alone, lef_grammar::specs::Extents::kept_statement))]
fn closed_alone_at<'l>(cursor: Cursor<'l>) -> Option<(KeptStatement<'l>, Cursor<'l>)>
    ensures gives { Gives (with_rest kept_view) result (read closed_alone (rest_of cursor.entry)) }
    ensures lent { IfSome result (λ x. KeptAt (pieces_of cursor.entry.tokens) x.0) }
{
    if cursor.next_is(b"END") {
        Some((KeptStatement::End, cursor.key(b"END")?))
    } else {
        told_pair(kept_at(cursor), KeptStatement::Kept)
    }
}

/// `ENDEXT`, or any token.
#[tactic(auto, unfolding(lef_grammar::specs::KeptBlocks::extension_token))]
fn extension_at<'l>(cursor: Cursor<'l>) -> Option<(KeptStatement<'l>, Cursor<'l>)>
    ensures gives { Gives (with_rest kept_view) result (read extension_token (rest_of cursor.entry)) }
    ensures lent { IfSome result (λ x. KeptAt (pieces_of cursor.entry.tokens) x.0) }
{
    let (word, later) = cursor.next()?;
    if is_word(word.bytes, b"ENDEXT") {
        Some((KeptStatement::End, later))
    } else {
        Some((KeptStatement::Lone(word), later))
    }
}

/// A statement in the VIARULE of this name, or a word of its header; with a complete header, one in any block that `END` and
/// this name close.
#[tactic(auto, unfolding(lef_grammar::specs::KeptBlocks::generating_statement, lef_grammar::specs::Extents::kept_statement))]
fn generating_at<'l>(
    name: &[u8],
    header: RuleHeader,
    cursor: Cursor<'l>,
) -> Option<(KeptStatement<'l>, Cursor<'l>)>
    ensures gives { Gives (with_rest kept_view) result (read (generating_statement name.now (header_view header)) (rest_of cursor.entry)) }
    ensures lent { IfSome result (λ x. KeptAt (pieces_of cursor.entry.tokens) x.0) }
{
    let (word, later) = cursor.next()?;
    if is_word(word.bytes, b"END") {
        Some((KeptStatement::End, later.key(name)?))
    } else if header.continues(word.bytes) {
        Some((KeptStatement::Lone(word), later))
    } else {
        told_pair(kept_at(cursor), KeptStatement::Kept)
    }
}

/// A statement in such a block.
#[tactic(auto, using(crate::proofs::KeptLemmas::read_closed_by), unfolding(lef_grammar::specs::KeptBlocks::kept_block_statement))]
pub(crate) fn kept_block_at<'l>(
    block: KeptBlock<'l>,
    cursor: Cursor<'l>,
) -> Option<(KeptStatement<'l>, Cursor<'l>)>
    ensures gives { Gives (with_rest kept_view) result (read (kept_block_statement (kept_block_view block.entry)) (rest_of cursor.entry)) }
    ensures lent { IfSome result (λ x. KeptAt (pieces_of cursor.entry.tokens) x.0) }
{
    match block {
        KeptBlock::Units => generating_at(b"UNITS", RuleHeader::Complete, cursor),
        KeptBlock::Spacing | KeptBlock::RuleSpacing(_) => {
            generating_at(b"SPACING", RuleHeader::Complete, cursor)
        }
        KeptBlock::Properties => {
            generating_at(b"PROPERTYDEFINITIONS", RuleHeader::Complete, cursor)
        }
        KeptBlock::Extension => extension_at(cursor),
        KeptBlock::GeneratingRule(name, header) => generating_at(name, header, cursor),
        KeptBlock::Obstruction(_) | KeptBlock::Density(_) => closed_alone_at(cursor),
    }
}
