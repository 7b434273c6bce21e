//! One statement of a DEF text.

ghost use Rattle.std.specs.Prelude.{◌≡◌, ◌≤◌, length, IfOk, IfSome};
ghost use Rattle.def_grammar.specs.Records.{def};
ghost use Rattle.lefdef_tokens.specs.Views.{pieces_of, span_of};
ghost use Rattle.statement_reader.specs.StatementViews.{CutsStatement, ReadsStatement};
ghost use Rattle.def_reader.specs.Lent.{StatementAt};
ghost use Rattle.def_reader.specs.StatementViews.{mode_view, record_view};

use crate::statement::Statement;
use design_model::fault::Fault;
use design_model::mode::Mode;
use statement_reader::{grammar, read_statement};

/// A statement that was read: its tokens, the mode after it, and the position after its last byte.
pub type Read<'t> = grammar::Read<'t, Statement<'t>, Mode>;

/// The first statement from a position between two statements on, in a mode.
pub fn read_statement<'t>(mode: Mode, text: &'t [u8], pos: usize) -> Result<Option<Read<'t>>, Fault>
    requires { pos ≤ length text.now }
    ensures reads { ReadsStatement def mode_view record_view mode text.now pos result }
    ensures cuts { CutsStatement def mode_view mode text.now pos result }
    ensures lent { IfOk result (λ found. IfSome found (λ x. StatementAt (pieces_of x.tokens) x.statement)) }
    ensures text { IfOk result (λ found. IfSome found (λ x. x.tokens.text.now ≡ text.now)) }
    ensures span { IfOk result (λ found. IfSome found (λ x. span_of (pieces_of x.tokens) ≡ record { lo = x.start; hi = x.end })) }
{
    read_statement::read_statement::<Statement<'t>>(mode, text, pos)
}
