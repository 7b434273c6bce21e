//! The faults of a whole DEF text, and where its statements stand.

ghost use Rattle.std.specs.Prelude.{◌≡◌, ◌≤◌, length, map, IfOk, List, Ok};
ghost use Rattle.design_model.specs.declared.TheConstants.{MAX_TEXT};
ghost use Rattle.def_grammar.specs.Records.{read_def, Record};
ghost use Rattle.def_reader.specs.TextViews.{ReadsText, statement_spans};

use crate::read_statement::read_statement;
use crate::seen::Seen;
use crate::statement::Statement;
use design_model::MAX_TEXT;
use design_model::fault::{Fault, FaultCode, ReadError};
use design_model::mode::Mode;
use design_model::sequence::Sequence;
use lefdef_tokens::Span;
use statement_reader::laws::records_are_read;
use std::alloc::{Allocator, Global};
use std::hash::RandomState;

/// Where the statements of a text stand, in its order.
pub type Spans<A = Global> = Sequence<Span, A>;

/// Reads a whole text: where its statements stand, or its fault, which is that of its length, of its first statement that has
/// one, or of missing `UNITS`.
pub fn read_def<A: Allocator + Copy>(
    alloc: A,
    hash_builder: RandomState,
    text: &[u8],
) -> Result<Spans<A>, ReadError>
    ensures fits { IfOk result (λ _. length text.now ≤ MAX_TEXT) }
    ensures reads { ReadsText text.now result }
    ensures spans { IfOk result (λ spans. (design : List Record) → read_def text.now ≡ Ok design → spans ≡ statement_spans text.now design) }
{
    records_are_read::<Statement<'_>>();
    if text.len() > MAX_TEXT {
        return Err(ReadError::Fault(Fault {
            code: FaultCode::TooLong,
            pos: 0,
        }));
    }
    let mut spans = Vec::new(alloc);
    let mut seen = Seen::new(alloc, hash_builder);
    let mut mode = Mode::Top;
    let mut pos = 0;
    while let Some(read) = read_statement(mode, text, pos)? {
        let span = read.span();
        if let Some(code) = seen.note(read.statement.key())? {
            return Err(ReadError::Fault(Fault { code, pos: span.lo }));
        }
        spans.push(span)?;
        mode = read.place;
        pos = read.end;
    }
    if seen.has(b"UNITS") {
        Ok(Sequence::from_vec(spans))
    } else {
        Err(ReadError::Fault(Fault {
            code: FaultCode::NoUnits,
            pos: text.len(),
        }))
    }
}
