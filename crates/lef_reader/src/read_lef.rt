//! One statement of a LEF text.

ghost use Rattle.std.specs.Prelude.{◌≡◌, ◌≤◌, length, IfOk, IfSome};
ghost use Rattle.lef_grammar.specs.LefRecords.{lef};
ghost use Rattle.statement_reader.specs.StatementViews.{CutsStatement};
ghost use Rattle.lefdef_tokens.specs.Views.{pieces_of, span_of};
ghost use Rattle.lef_reader.specs.LefReading.{ReadsLef};
ghost use Rattle.lef_reader.specs.StatementViews.{StatementAt, block_view};

use crate::block::Block;
use crate::header_words::with_first_fault;
use crate::statement::LefStatement;
use design_model::fault::Fault;
use statement_reader::grammar::Read;
use statement_reader::read_statement::read_statement;

/// A statement that was read, with its tokens, the block of the next one, and the position after its last byte.
pub type LefRead<'l> = Read<'l, LefStatement<'l>, Block<'l>>;

/// The first statement from a position between two statements on, in a block, or `None` where the text ends there.
pub fn read_lef_statement<'l>(
    block: Block<'l>,
    text: &'l [u8],
    pos: usize,
) -> Result<Option<LefRead<'l>>, Fault>
    requires { pos ≤ length text.now }
    ensures reads { ReadsLef block.entry text.now pos result }
    ensures cuts { CutsStatement lef block_view block.entry text.now pos result }
    ensures lent { IfOk result (λ found. IfSome found (λ x. StatementAt (pieces_of x.tokens) x.statement)) }
    ensures text { IfOk result (λ found. IfSome found (λ x. x.tokens.text.now ≡ text.now)) }
    ensures span { IfOk result (λ found. IfSome found (λ x. span_of (pieces_of x.tokens) ≡ record { lo = x.start; hi = x.end })) }
{
    let found = read_statement::<LefStatement<'l>>(block, text, pos);
    with_first_fault(block, text, pos, found)
}
