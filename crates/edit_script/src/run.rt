//! A script's run over a library and a design.

ghost use Rattle.std.specs.Prelude.{◌≡◌, ◌+◌, ◌<◌, ◌≤◌, ◌^◌, ◌⊎◌, IfErr, IfOk, IsErrOf, IsOk, OnErr, length};
ghost use Rattle.counted_devices.specs.Counting.{HasFailed};
ghost use Rattle.report_rules.specs.Output.{LineAnswers, counted, reply_line};
ghost use Rattle.edit_rules.specs.Script.{order_of, script_lines, unescaped};
ghost use Rattle.def_grammar.specs.Records.{read_def};
ghost use Rattle.edit_script.specs.Answered.{AnswersText, Grows, HasRoom, RefusesText, counts_of};
ghost use Rattle.edit_script.specs.Ends.{AnswersPart, AnswersWhole, IsScript, RunsOver, RunsWhole, StopsBy, StopsOver, StopsUnread, TookAllTurns, WritesRun, WritesRunPart, hard_after_run};

use crate::questions::answer_question;
use cell_library::lef_texts::LefTexts;
use cell_library::library::{Library, LibraryError};
use counted_devices::counted::{CountedRead, CountedWrite, Failures};
use counted_devices::input::{InputError, read_whole};
use counted_devices::output::{MAX_INTERRUPTIONS, write_whole};
use design_model::MAX_TEXT;
use design_model::fault::{Fault, ReadError};
use edit_model::edit::{Done, EditCode, EditRefusal};
use edit_session::session::Session;
use script_lines::answer::{bad_text, reply_text};
use script_lines::command::{Command, parse};
use script_lines::escape::{EscapedBytes, unescaped};
use script_lines::line::next_line;
use std::alloc::{AllocError, Allocator};
use std::hash::RandomState;
use std::io::{Read, Write};

/// How long a script may be, in bytes.
pub const MAX_SCRIPT: usize = 16777216;

/// How many calls of `read` a script may take.
pub const MAX_TURNS: u32 = 33554432;

/// How many lines of a script were answered `ok`, `refused` and `bad`.
#[derive(Clone, Copy, Debug, PartialEq, Eq)]
pub struct Tally {
    pub accepted: u64,
    pub refused: u64,
    pub bad: u64,
}

/// Why a run stops.
#[derive(Clone, Copy, Debug, PartialEq, Eq)]
pub enum RunFault {
    /// A LEF text has a fault: the text's number, from 1, and the fault.
    Lef { file: usize, fault: Fault },
    /// The DEF text has a fault.
    Def(Fault),
    /// Memory was refused outside of an edit.
    Memory,
    /// The reader failed.
    Read,
    /// A writer failed.
    Write,
    /// The script is longer than `MAX_SCRIPT`.
    TooLong,
    /// `MAX_TURNS` brought neither the script's end nor another fault.
    Endless,
}

/// Why the answers stop.
#[derive(Clone, Copy, Debug, PartialEq, Eq)]
pub(crate) enum Stop {
    Memory,
    Write,
}

/// Why a text edit is refused where there is no memory for its bytes: that comes after its range and its length.
fn refused_text(text_len: usize, a: usize, b: usize, put_len: usize) -> EditRefusal
    ensures { RefusesText text_len a b put_len result }
{
    if a > b || b > text_len {
        return EditRefusal::Refused(EditCode::Range);
    }
    let kept = text_len - (b - a);
    if kept > MAX_TEXT || put_len > MAX_TEXT - kept {
        return EditRefusal::Refused(EditCode::TooLong);
    }
    EditRefusal::Memory
}

/// Puts bytes that are written with escapes.
fn put_text<A: Allocator + Copy>(
    alloc: A,
    session: &mut Session<'_, '_, A>,
    a: usize,
    b: usize,
    new: EscapedBytes<'_>,
) -> Result<Done, EditRefusal>
    requires { IsOk (read_def session.old.text) }
    ensures answer { AnswersText session.old.library session.old.text a b (unescaped new.entry.raw.now) result session.new.text }
    ensures library { session.new.library ≡ session.old.library }
    ensures reads { IsOk (read_def session.new.text) }
{
    match unescaped(alloc, new) {
        Ok(put) => session.text_edit(a, b, put.as_slice()),
        Err(_) => Err(refused_text(session.text_len(), a, b, new.len)),
    }
}

/// The answer to an edit, which is counted.
pub(crate) fn counted_reply<A: Allocator>(
    alloc: A,
    number: u64,
    reply: Result<Done, EditRefusal>,
    tally: &mut Tally,
) -> Result<Vec<u8, A>, AllocError>
    requires { HasRoom tally.old }
    ensures text { IfOk result (λ v. v.items ≡ reply_line number reply) }
    ensures counts { IfOk result (λ _. counts_of tally.new ≡ counted reply (counts_of tally.old)) }
    ensures grows { Grows tally.old tally.new }
{
    let text = reply_text(alloc, number, reply)?;
    match reply {
        Ok(_) => tally.accepted += 1,
        Err(_) => tally.refused += 1,
    }
    Ok(text)
}

/// Answers a line, and counts it.
fn answer<A: Allocator + Copy>(
    alloc: A,
    session: &mut Session<'_, '_, A>,
    number: u64,
    line: &[u8],
    tally: &mut Tally,
) -> Result<Vec<u8, A>, AllocError>
    requires room { HasRoom tally.old }
    requires reads { IsOk (read_def session.old.text) }
    ensures gives { IfOk result (λ v. LineAnswers session.old.library number (order_of line.now) session.old.text (counts_of tally.old) v.items session.new.text (counts_of tally.new)) }
    ensures library { session.new.library ≡ session.old.library }
    ensures reads { IsOk (read_def session.new.text) }
    ensures grows { Grows tally.old tally.new }
{
    match parse(line) {
        Command::Nothing => Ok(Vec::new(alloc)),
        Command::Edit(edit) => {
            let reply = session.edit(&edit);
            counted_reply(alloc, number, reply, tally)
        }
        Command::Text { a, b, new } => {
            let reply = put_text(alloc, session, a, b, new);
            counted_reply(alloc, number, reply, tally)
        }
        Command::Refused(code) => {
            let reply = Err(EditRefusal::Refused(code));
            counted_reply(alloc, number, reply, tally)
        }
        Command::Ask(question) => answer_question(alloc, session, number, question, tally),
        Command::Bad => {
            let text = bad_text(alloc, number)?;
            tally.bad += 1;
            Ok(text)
        }
    }
}

/// Answers the lines of a script in order.
pub(crate) fn answer_lines<A: Allocator + Copy, W: CountedWrite>(
    alloc: A,
    session: &mut Session<'_, '_, A>,
    script: &[u8],
    out: &mut W,
) -> Result<Tally, Stop>
    requires few { W.failed out.old < 2 ^ 63 }
    requires short { length script.now < 2 ^ 62 }
    requires reads { IsOk (read_def session.old.text) }
    ensures ok { IfOk result (λ tally. WritesRun session.old.library session.old.text (script_lines script.now) (W.contents out.old) (W.contents out.new) session.new.text (counts_of tally)) }
    ensures err { OnErr result (WritesRunPart session.old.library session.old.text (script_lines script.now) (W.contents out.old) (W.contents out.new)) }
    ensures failed { IsErrOf result Stop.Write → HasFailed (W.failed_hard out.old) (W.failed_hard out.new) (W.failed out.old) (W.failed out.new) 33554431 }
    ensures few { W.failed out.new ≤ W.failed out.old + 33554432 }
{
    let mut patience = MAX_INTERRUPTIONS;
    let mut tally = Tally {
        accepted: 0,
        refused: 0,
        bad: 0,
    };
    let mut number = 0u64;
    let mut rest = Some(script);
    while let Some(text) = rest {
        let (line, later) = next_line(text);
        number += 1;
        let Ok(given) = answer(alloc, session, number, line, &mut tally) else {
            return Err(Stop::Memory);
        };
        if let Err(_) = write_whole(out, given.as_slice(), &mut patience) {
            return Err(Stop::Write);
        }
        rest = later;
    }
    Ok(tally)
}

/// Answers the lines of a script, and then writes the text.
fn answer_all<A: Allocator + Copy, W: CountedWrite, V: CountedWrite>(
    alloc: A,
    session: &mut Session<'_, '_, A>,
    script: &[u8],
    out: &mut W,
    def_out: &mut V,
) -> Result<Tally, Stop>
    requires out { W.failed out.old < 2 ^ 63 }
    requires def_out { V.failed def_out.old < 2 ^ 63 }
    requires short { length script.now < 2 ^ 62 }
    requires reads { IsOk (read_def session.old.text) }
    ensures ok { IfOk result (λ tally. AnswersWhole session.old.library session.old.text script.now (W.contents out.old) (W.contents out.new) (V.contents def_out.old) (V.contents def_out.new) (counts_of tally)) }
    ensures fault { IfErr result (λ e. AnswersPart session.old.library session.old.text script.now (W.contents out.old) (W.contents out.new) (V.contents def_out.old) (V.contents def_out.new) e) }
    ensures write { IsErrOf result Stop.Write → HasFailed (W.failed_hard out.old) (W.failed_hard out.new) (W.failed out.old) (W.failed out.new) 33554431 ⊎ HasFailed (V.failed_hard def_out.old) (V.failed_hard def_out.new) (V.failed def_out.old) (V.failed def_out.new) 33554431 }
    ensures few { W.failed out.new ≤ W.failed out.old + 33554432 }
    ensures def_few { V.failed def_out.new ≤ V.failed def_out.old + 33554432 }
{
    let tally = match answer_lines(alloc, session, script, out) {
        Ok(tally) => tally,
        Err(Stop::Memory) => return Err(Stop::Memory),
        Err(Stop::Write) => return Err(Stop::Write),
    };
    match session.write_to(def_out) {
        Ok(()) => Ok(tally),
        Err(_) => Err(Stop::Write),
    }
}

/// Reads a script to its end.
pub(crate) fn read_script<A: Allocator + Copy, R: CountedRead>(
    alloc: A,
    script: &mut R,
) -> Result<Vec<u8, A>, RunFault>
    requires { R.failed script.old < 2 ^ 63 }
    ensures ok { IfOk result (λ v. IsScript (R.remaining script.old) v.items) }
    ensures fault { IfErr result (λ e. StopsUnread (R.remaining script.old) e) }
    ensures read { IsErrOf result RunFault.Read → R.failed script.old < R.failed script.new }
    ensures read_hard { R.failed_hard script.new ≡ hard_after_run result (R.failed_hard script.old) }
    ensures read_few { R.failed script.new ≤ R.failed script.old + 33554432 }
    ensures endless { IsErrOf result RunFault.Endless → TookAllTurns (R.remaining script.old) (R.failed script.old) (R.failed script.new) }
{
    match read_whole(alloc, script, MAX_SCRIPT, MAX_TURNS) {
        Ok(bytes) => Ok(bytes),
        Err(InputError::Memory) => Err(RunFault::Memory),
        Err(InputError::Read) => Err(RunFault::Read),
        Err(InputError::TooLong) => Err(RunFault::TooLong),
        Err(InputError::Endless) => Err(RunFault::Endless),
    }
}

/// Reads a script, and runs it over a session.
fn run_in<A, R, W, V>(
    alloc: A,
    session: &mut Session<'_, '_, A>,
    script: &mut R,
    out: &mut W,
    def_out: &mut V,
) -> Result<Tally, RunFault>
where
    A: Allocator + Copy,
    R: CountedRead,
    W: CountedWrite,
    V: CountedWrite,
    requires reads { IsOk (read_def session.old.text) }
    requires script { R.failed script.old < 2 ^ 63 }
    requires out { W.failed out.old < 2 ^ 63 }
    requires def_out { V.failed def_out.old < 2 ^ 63 }
    ensures ok { IfOk result (λ tally. RunsOver session.old.library session.old.text (R.remaining script.old) (W.contents out.old) (W.contents out.new) (V.contents def_out.old) (V.contents def_out.new) (counts_of tally)) }
    ensures fault { IfErr result (λ e. StopsOver session.old.library session.old.text (R.remaining script.old) (W.contents out.old) (W.contents out.new) (V.contents def_out.old) (V.contents def_out.new) e) }
    ensures read { IsErrOf result RunFault.Read → R.failed script.old < R.failed script.new }
    ensures read_hard { R.failed_hard script.new ≡ hard_after_run result (R.failed_hard script.old) }
    ensures write { IsErrOf result RunFault.Write → HasFailed (W.failed_hard out.old) (W.failed_hard out.new) (W.failed out.old) (W.failed out.new) 33554431 ⊎ HasFailed (V.failed_hard def_out.old) (V.failed_hard def_out.new) (V.failed def_out.old) (V.failed def_out.new) 33554431 }
    ensures write_few { W.failed out.new ≤ W.failed out.old + 33554432 }
    ensures def_few { V.failed def_out.new ≤ V.failed def_out.old + 33554432 }
    ensures read_few { R.failed script.new ≤ R.failed script.old + 33554432 }
    ensures endless { IsErrOf result RunFault.Endless → TookAllTurns (R.remaining script.old) (R.failed script.old) (R.failed script.new) }
{
    let bytes = read_script(alloc, script)?;
    match answer_all(alloc, session, bytes.as_slice(), out, def_out) {
        Ok(tally) => Ok(tally),
        Err(Stop::Memory) => Err(RunFault::Memory),
        Err(Stop::Write) => Err(RunFault::Write),
    }
}

/// Runs a script over a DEF text and a library.
fn run_over<A, R, W, V>(
    alloc: A,
    library: &Library<'_, A>,
    def: &[u8],
    script: &mut R,
    out: &mut W,
    def_out: &mut V,
) -> Result<Tally, RunFault>
where
    A: Allocator + Copy,
    R: CountedRead,
    W: CountedWrite,
    V: CountedWrite,
    requires script { R.failed script.old < 2 ^ 63 }
    requires out { W.failed out.old < 2 ^ 63 }
    requires def_out { V.failed def_out.old < 2 ^ 63 }
    ensures ok { IfOk result (λ tally. RunsOver library.now def.now (R.remaining script.old) (W.contents out.old) (W.contents out.new) (V.contents def_out.old) (V.contents def_out.new) (counts_of tally)) }
    ensures fault { IfErr result (λ e. StopsOver library.now def.now (R.remaining script.old) (W.contents out.old) (W.contents out.new) (V.contents def_out.old) (V.contents def_out.new) e) }
    ensures read { IsErrOf result RunFault.Read → R.failed script.old < R.failed script.new }
    ensures read_hard { R.failed_hard script.new ≡ hard_after_run result (R.failed_hard script.old) }
    ensures write { IsErrOf result RunFault.Write → HasFailed (W.failed_hard out.old) (W.failed_hard out.new) (W.failed out.old) (W.failed out.new) 33554431 ⊎ HasFailed (V.failed_hard def_out.old) (V.failed_hard def_out.new) (V.failed def_out.old) (V.failed def_out.new) 33554431 }
    ensures write_few { W.failed out.new ≤ W.failed out.old + 33554432 }
    ensures def_few { V.failed def_out.new ≤ V.failed def_out.old + 33554432 }
    ensures read_few { R.failed script.new ≤ R.failed script.old + 33554432 }
    ensures endless { IsErrOf result RunFault.Endless → TookAllTurns (R.remaining script.old) (R.failed script.old) (R.failed script.new) }
{
    let mut session = match Session::open(alloc, library, def) {
        Ok(session) => session,
        Err(ReadError::Fault(fault)) => return Err(RunFault::Def(fault)),
        Err(ReadError::Memory) => return Err(RunFault::Memory),
    };
    run_in(alloc, &mut session, script, out, def_out)
}

/// Runs a script over a DEF text and the library of LEF texts: these, the DEF and the script are read in this order, to
/// the end, before the first line is run. The answers go to `out`, and the text in the end to `def_out`.
pub fn run<A, B, R, W, V>(
    alloc: A,
    hash_builder: RandomState,
    lefs: &LefTexts<B>,
    def: &[u8],
    script: &mut R,
    out: &mut W,
    def_out: &mut V,
) -> Result<Tally, RunFault>
where
    A: Allocator + Copy,
    B: Allocator + Copy,
    R: CountedRead,
    W: CountedWrite,
    V: CountedWrite,
    requires script { R.failed script.old < 2 ^ 63 }
    requires out { W.failed out.old < 2 ^ 63 }
    requires def_out { V.failed def_out.old < 2 ^ 63 }

    // Both writers got an output of the script, which the tally counts, and nothing else.
    ensures ok { IfOk result (λ tally. RunsWhole lefs.now def.now (R.remaining script.old) (W.contents out.old) (W.contents out.new) (V.contents def_out.old) (V.contents def_out.new) (counts_of tally)) }

    // The texts are to blame, with nothing written, or the first part of an output was written.
    ensures fault { IfErr result (λ e. StopsBy lefs.now def.now (R.remaining script.old) (W.contents out.old) (W.contents out.new) (V.contents def_out.old) (V.contents def_out.new) e) }

    // A device is blamed only where it has failed: for good, or a writer by 33554432 interruptions.
    ensures read { IsErrOf result RunFault.Read → R.failed script.old < R.failed script.new }
    ensures read_hard { R.failed_hard script.new ≡ hard_after_run result (R.failed_hard script.old) }
    ensures write { IsErrOf result RunFault.Write → HasFailed (W.failed_hard out.old) (W.failed_hard out.new) (W.failed out.old) (W.failed out.new) 33554431 ⊎ HasFailed (V.failed_hard def_out.old) (V.failed_hard def_out.new) (V.failed def_out.old) (V.failed def_out.new) 33554431 }
    ensures write_few { W.failed out.new ≤ W.failed out.old + 33554432 }
    ensures def_few { V.failed def_out.new ≤ V.failed def_out.old + 33554432 }

    // The script is read in 33554432 turns, each of which brings a byte or fails; they end without its end only where all were
    // taken.
    ensures read_few { R.failed script.new ≤ R.failed script.old + 33554432 }
    ensures endless { IsErrOf result RunFault.Endless → TookAllTurns (R.remaining script.old) (R.failed script.old) (R.failed script.new) }
{
    let library = match Library::read(alloc, hash_builder, lefs) {
        Ok(library) => library,
        Err(LibraryError::Fault { file, fault }) => return Err(RunFault::Lef { file, fault }),
        Err(LibraryError::Memory) => return Err(RunFault::Memory),
    };
    run_over(alloc, &library, def, script, out, def_out)
}
