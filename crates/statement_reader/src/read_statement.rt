//! One statement of a text.

ghost use Rattle.std.specs.Prelude.{◌≡◌, ◌≤◌, length, IfOk, IfSome};
ghost use Rattle.statement_model.specs.Reading.{fault_at, pos_with_left};
ghost use Rattle.design_model.specs.declared.fault.FaultCode.TheVariants.{Number};
ghost use Rattle.lefdef_tokens.specs.Views.{pieces_of, span_of};
ghost use Rattle.statement_reader.specs.StatementViews.{ReadsStatement, CutsStatement};

use crate::boundary::statement_run;
use crate::grammar::{Read, Statement};
use design_model::fault::{Fault, FaultCode};
use lefdef_tokens::{TokenRun, token_at};

/// The fault of an invalid number, which is the first of the last `left` tokens.
pub fn number_fault(tokens: TokenRun<'_>, left: usize) -> Fault
    ensures { result ≡ fault_at Number (pos_with_left left (pieces_of tokens.entry)) }
{
    let pos = match tokens.token(tokens.len().saturating_sub(left)) {
        Some(token) => token.pos,
        None => 0,
    };
    Fault {
        code: FaultCode::Number,
        pos,
    }
}

/// The first statement from a position between two statements on, or `None` where the text ends there. Of its faults the
/// first is one of the tokens, then a missing form (`NoForm`), then an invalid number (`Number`).
#[tactic(auto, unfolding(statement_model::specs::Reading::read_at))]
pub fn read_statement<'t, S: Statement<'t>>(
    place: S::Place,
    text: &'t [u8],
    pos: usize,
) -> Result<Option<Read<'t, S, S::Place>>, Fault>
    requires { pos ≤ length text.now }
    ensures reads { ReadsStatement S.grammar S.place_view S.view place text.now pos result }
    ensures cuts { CutsStatement S.grammar S.place_view place text.now pos result }
    ensures lent { IfOk result (λ found. IfSome found (λ x. S.lent (pieces_of x.tokens) x.statement)) }
    ensures text { IfOk result (λ found. IfSome found (λ x. x.tokens.text.now ≡ text.now)) }
    ensures span { IfOk result (λ found. IfSome found (λ x. span_of (pieces_of x.tokens) ≡ record { lo = x.start; hi = x.end })) }
{
    let Some((first, second)) = token_at(text, pos)? else {
        return if S::may_end(place) {
            Ok(None)
        } else {
            Err(Fault {
                code: FaultCode::Unfinished,
                pos: text.len(),
            })
        };
    };
    let ending = S::ending(place, first.bytes);
    let (tokens, end) = statement_run(text, pos, &first, second, ending)?;
    match S::read(place, tokens) {
        Some((statement, None)) => Ok(Some(Read {
            statement,
            tokens,
            place: S::after(place, &statement),
            start: first.pos,
            end,
        })),
        Some((_, Some(left))) => Err(number_fault(tokens, left)),
        None => Err(Fault {
            code: FaultCode::NoForm,
            pos: first.pos,
        }),
    }
}
