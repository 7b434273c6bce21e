//! The statements of a LEF text, one at a time.

ghost use Rattle.std.specs.Prelude.{◌≡◌, ◌≤◌, length, IfOk, IfSome};
ghost use Rattle.lef_reader.specs.Stepping.{Steps, tokens_from};
ghost use Rattle.lef_reader.specs.Events.{after_next, events_of, found_view, next_record, next_tokens};
ghost use Rattle.lef_reader.specs.StatementViews.{StatementAt};

use crate::block::Block;
use crate::header_words::with_first_fault;
use crate::statement::LefStatement;
use design_model::MAX_TEXT;
use design_model::fault::{Fault, FaultCode};
use statement_reader::grammar::Statement;
use statement_reader::read_statement::read_statement;
use std::marker::Model;

/// The next statement from a place and a position on, which then stand behind it.
#[inline(always)]
fn step<'t, S: Statement<'t>>(
    place: &mut S::Place,
    text: &'t [u8],
    pos: &mut usize,
) -> Result<Option<S>, Fault>
    requires { pos.old ≤ length text.now }
    ensures within { pos.new ≤ length text.now }
    ensures gives { Steps S.grammar S.place_view S.view text.now place.old pos.old result place.new pos.new }
    ensures lent { IfOk result (λ found. IfSome found (λ s. S.lent (tokens_from S.grammar S.place_view text.now place.old pos.old) s)) }
{
    let Some(read) = read_statement::<S>(*place, text, *pos)? else {
        return Ok(None);
    };
    *place = read.place;
    *pos = read.end;
    Ok(Some(read.statement))
}

/// Gives the statements of a text in order, and then its end or its fault, for good.
#[derive(Drop)]
pub struct LefEvents<'l> {
    text: &'l [u8],
    block: Block<'l>,
    pos: usize,
}

impl<'l> Model for LefEvents<'l> {
    ghost use Rattle.std.specs.Prelude.{◌≤◌, length};
    ghost use Rattle.statement_model.specs.Tokens.{left_from};
    ghost use Rattle.lef_reader.specs.BlockViews.{block_view};
    ghost use Rattle.lef_reader.specs.Events.{Events};

    ghost Value = { Events };

    ghost view = { λ e. record { text = e.text.now; block = block_view e.block; left = left_from e.text.now e.pos } };

    ghost invariant = { λ e. e.pos ≤ length e.text.now };
}

impl<'l> LefEvents<'l> {
    pub fn new(text: &'l [u8]) -> LefEvents<'l>
        ensures { result ≡ events_of text.now }
    {
        LefEvents {
            text,
            block: Block::Outermost,
            pos: 0,
        }
    }

    pub fn next(&mut self) -> Result<Option<LefStatement<'l>>, Fault>
        ensures gives { found_view result ≡ next_record self.old }
        ensures left { self.new ≡ after_next self.old }
        ensures lent { IfOk result (λ found. IfSome found (λ s. StatementAt (next_tokens self.old) s)) }
    {
        if self.text.len() > MAX_TEXT {
            return Err(Fault {
                code: FaultCode::TooLong,
                pos: 0,
            });
        }
        let found = step::<LefStatement<'l>>(&mut self.block, self.text, &mut self.pos);
        with_first_fault(self.block, self.text, self.pos, found)
    }
}
