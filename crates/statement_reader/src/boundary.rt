//! Where a statement ends.

ghost use Rattle.std.specs.Prelude.{◌≡◌, ◌≤◌, ◌<◌, ◌+◌, [], ◌∷◌, length, IfOk};
ghost use Rattle.statement_model.specs.Tokens.{before, left_from};
ghost use Rattle.statement_model.specs.Boundaries.{is_alone, is_last};
ghost use Rattle.statement_model.specs.Reading.{pos_of};
ghost use Rattle.lefdef_tokens.specs.Views.{IsNext, token_of, pieces_of, span_of};
ghost use Rattle.statement_reader.specs.Endings.{ending_view, Runs};
ghost use Rattle.statement_reader.specs.Passing.{PassesOver};

use design_model::fault::{Fault, FaultCode};
use lefdef_tokens::{Token, TokenRun, is_word, skip_plain, token_at};

/// What ends a statement: its first token, the one after it, or the first later token that is a certain word.
#[derive(Clone, Copy)]
pub enum Ending {
    Alone,
    WithNext,
    UpTo(&'static [u8]),
}

fn is_alone(ending: Ending) -> bool
    ensures { result ≡ is_alone (ending_view ending) }
{
    matches!(ending, Ending::Alone)
}

fn is_last(ending: Ending, word: &[u8]) -> bool
    ensures { result ≡ is_last (ending_view ending) word.now }
{
    match ending {
        Ending::Alone | Ending::WithNext => true,
        Ending::UpTo(last) => is_word(word, last),
    }
}

/// A place between two tokens, and how many tokens stand before it from `second` on. The statement ends with none of these.
fn passed_over(text: &[u8], second: usize, ending: Ending) -> (usize, usize)
    requires { second ≤ length text.now }
    ensures low { second ≤ result.0 }
    ensures high { result.0 ≤ length text.now }
    ensures few { second + result.1 ≤ result.0 }
    ensures passes { PassesOver text.now second (ending_view ending) result.0 result.1 }
{
    match ending {
        Ending::UpTo([b';']) => skip_plain(text, second),
        _ => (second, 0),
    }
}

/// The tokens of the statement that begins with a first token, and the position after its last byte; or the first fault of
/// its tokens, or `Unfinished` where the text ends before it does. The second token stands from `second` on.
pub fn statement_run<'t>(
    text: &'t [u8],
    pos: usize,
    first: &Token<'t>,
    second: usize,
    ending: Ending,
) -> Result<(TokenRun<'t>, usize), Fault>
    requires further { pos < second }
    requires within { second ≤ length text.now }
    requires begins { left_from text.now pos ≡ before (token_of first.now ∷ []) (left_from text.now second) }
    requires next { IsNext pos first.now second }
    ensures within { IfOk result (λ x. (pos < x.1) × (x.1 ≤ length text.now)) }
    ensures lent { IfOk result (λ x. x.0.text.now ≡ text.now) }
    ensures first { IfOk result (λ x. pos_of (pieces_of x.0) ≡ first.now.pos) }
    ensures span { IfOk result (λ x. span_of (pieces_of x.0) ≡ record { lo = first.now.pos; hi = x.1 }) }
    ensures runs { Runs text.now pos first.now.bytes.now (ending_view ending) result }
{
    let (mut at, mut later) = passed_over(text, second, ending);
    let mut done = is_alone(ending);
    while !done {
        match token_at(text, at)? {
            Some((token, after)) => {
                done = is_last(ending, token.bytes);
                later += 1;
                at = after;
            }
            None => return Err(Fault {
                code: FaultCode::Unfinished,
                pos: first.pos,
            }),
        }
    }
    let tokens = TokenRun {
        text,
        pos,
        count: later + 1,
    };
    Ok((tokens, at))
}
