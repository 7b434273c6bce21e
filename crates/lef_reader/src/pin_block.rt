//! The block PIN of a macro (LEF/DEF 5.8 Language Reference, "Macro Pin Statement").

ghost use Rattle.std.specs.Prelude.{◌≡◌, IfSome};
ghost use Rattle.form_meanings.specs.Words.{Gives};
ghost use Rattle.statement_model.specs.Form.{read};
ghost use Rattle.lef_grammar.specs.PinBlock.{ends_pin, pin_ending, pin_statement};
ghost use Rattle.lefdef_tokens.specs.Views.{pieces_of, rest_of};
ghost use Rattle.statement_reader.specs.Endings.{ending_view};
ghost use Rattle.lef_reader.specs.Parts.{with_rest};
ghost use Rattle.lef_reader.specs.PinViews.{PinAt, pin_view};

use crate::parts::{block_ending, kept_at, told_pair};
use lefdef_tokens::{Cursor, Token, TokenRun, is_word};
use statement_reader::boundary::Ending;

/// A statement in a block PIN.
#[derive(Clone, Copy, Drop)]
pub enum PinStatement<'l> {
    End,
    /// The header of a block PORT.
    OpensPort,
    /// A statement without meaning, by its first token and the others.
    Kept(Token<'l>, TokenRun<'l>),
}

impl<'l> PinStatement<'l> {
    /// Whether it ends the block.
    pub(crate) fn is_end(&self) -> bool
        ensures { result ≡ ends_pin (pin_view self.now) }
    {
        matches!(self, PinStatement::End)
    }
}

/// How a statement ends, by its first token. A header has no `;`.
pub(crate) fn pin_ending(first: &[u8]) -> Ending
    ensures { ending_view result ≡ pin_ending first.now }
{
    if is_word(first, b"PORT") {
        Ending::Alone
    } else {
        block_ending(first)
    }
}

/// A statement in the block of this name.
#[tactic(auto, unfolding(lef_grammar::specs::PinBlock::pin_statement, lef_grammar::specs::Extents::kept_statement))]
pub(crate) fn pin_at<'l>(name: &[u8], cursor: Cursor<'l>) -> Option<(PinStatement<'l>, Cursor<'l>)>
    ensures gives { Gives (with_rest pin_view) result (read (pin_statement name.now) (rest_of cursor.entry)) }
    ensures lent { IfSome result (λ x. PinAt (pieces_of cursor.entry.tokens) x.0) }
{
    let (word, later) = cursor.next()?;
    if is_word(word.bytes, b"END") {
        Some((PinStatement::End, later.key(name)?))
    } else if is_word(word.bytes, b"PORT") {
        Some((PinStatement::OpensPort, later))
    } else {
        told_pair(kept_at(cursor), PinStatement::Kept)
    }
}
