//! A script's run over a text that is handed over, and given back in the end.

ghost use Rattle.std.specs.Prelude.{◌≡◌, ◌+◌, ◌<◌, ◌≤◌, ◌^◌, [], IfErr, IfOk, IsErrOf, IsOk, Some};
ghost use Rattle.def_grammar.specs.Records.{read_def};
ghost use Rattle.counted_devices.specs.Counting.{HasFailed};
ghost use Rattle.design_text.specs.DesignTexts.{text_of};
ghost use Rattle.edit_script.specs.Answered.{counts_of};
ghost use Rattle.edit_script.specs.Ends.{RunsOver, RunsWhole, StopsBy, StopsOver, TookAllTurns, hard_after_run};

use crate::run::{RunFault, Stop, Tally, answer_lines, read_script};
use cell_library::lef_texts::LefTexts;
use cell_library::library::{Library, LibraryError};
use counted_devices::counted::{CountedRead, CountedWrite, Failures};
use design_model::fault::ReadError;
use design_text::text::DesignText;
use edit_session::session::Session;
use std::alloc::{Allocator, Global};
use std::hash::RandomState;
use std::io::{Read, Write};

/// What is left after a run to its end.
#[derive(Drop)]
pub struct Finished<A: Allocator + Copy = Global> {
    /// How the lines of the script were answered.
    pub tally: Tally,
    /// The DEF text in the end, in pieces.
    pub text: DesignText<A>,
}

/// Reads a script, and answers its lines over a session.
fn finish_in<A, R, W>(
    alloc: A,
    session: &mut Session<'_, '_, A>,
    script: &mut R,
    out: &mut W,
) -> Result<Tally, RunFault>
where
    A: Allocator + Copy,
    R: CountedRead,
    W: CountedWrite,
    requires reads { IsOk (read_def session.old.text) }
    requires script { R.failed script.old < 2 ^ 63 }
    requires out { W.failed out.old < 2 ^ 63 }
    ensures ok { IfOk result (λ tally. RunsOver session.old.library session.old.text (R.remaining script.old) (W.contents out.old) (W.contents out.new) (Some []) (Some session.new.text) (counts_of tally)) }
    ensures fault { IfErr result (λ e. StopsOver session.old.library session.old.text (R.remaining script.old) (W.contents out.old) (W.contents out.new) (Some []) (Some []) e) }
    ensures read { IsErrOf result RunFault.Read → R.failed script.old < R.failed script.new }
    ensures read_hard { R.failed_hard script.new ≡ hard_after_run result (R.failed_hard script.old) }
    ensures write { IsErrOf result RunFault.Write → HasFailed (W.failed_hard out.old) (W.failed_hard out.new) (W.failed out.old) (W.failed out.new) 33554431 }
    ensures write_few { W.failed out.new ≤ W.failed out.old + 33554432 }
    ensures read_few { R.failed script.new ≤ R.failed script.old + 33554432 }
    ensures endless { IsErrOf result RunFault.Endless → TookAllTurns (R.remaining script.old) (R.failed script.old) (R.failed script.new) }
{
    let bytes = read_script(alloc, script)?;
    match answer_lines(alloc, session, bytes.as_slice(), out) {
        Ok(tally) => Ok(tally),
        Err(Stop::Memory) => Err(RunFault::Memory),
        Err(Stop::Write) => Err(RunFault::Write),
    }
}

/// Runs a script over a DEF text and a library.
fn finish_over<A, R, W>(
    alloc: A,
    library: &Library<'_, A>,
    def: Vec<u8, A>,
    script: &mut R,
    out: &mut W,
) -> Result<Finished<A>, RunFault>
where
    A: Allocator + Copy,
    R: CountedRead,
    W: CountedWrite,
    requires script { R.failed script.old < 2 ^ 63 }
    requires out { W.failed out.old < 2 ^ 63 }
    ensures ok { IfOk result (λ f. RunsOver library.now def.items (R.remaining script.old) (W.contents out.old) (W.contents out.new) (Some []) (Some (text_of f.text)) (counts_of f.tally)) }
    ensures fault { IfErr result (λ e. StopsOver library.now def.items (R.remaining script.old) (W.contents out.old) (W.contents out.new) (Some []) (Some []) e) }
    ensures read { IsErrOf result RunFault.Read → R.failed script.old < R.failed script.new }
    ensures read_hard { R.failed_hard script.new ≡ hard_after_run result (R.failed_hard script.old) }
    ensures write { IsErrOf result RunFault.Write → HasFailed (W.failed_hard out.old) (W.failed_hard out.new) (W.failed out.old) (W.failed out.new) 33554431 }
    ensures write_few { W.failed out.new ≤ W.failed out.old + 33554432 }
    ensures read_few { R.failed script.new ≤ R.failed script.old + 33554432 }
    ensures endless { IsErrOf result RunFault.Endless → TookAllTurns (R.remaining script.old) (R.failed script.old) (R.failed script.new) }
{
    let mut session = match Session::open_owned(library, def) {
        Ok(session) => session,
        Err(ReadError::Fault(fault)) => return Err(RunFault::Def(fault)),
        Err(ReadError::Memory) => return Err(RunFault::Memory),
    };
    let tally = finish_in(alloc, &mut session, script, out)?;
    let text = session.into_pieces();
    Ok(Finished { tally, text })
}

/// Runs a script over a DEF text, which it takes, and the library of LEF texts, as `run` does, and gives the text in the end
/// where that writes it.
pub fn run_owned<A, B, R, W>(
    alloc: A,
    hash_builder: RandomState,
    lefs: &LefTexts<B>,
    def: Vec<u8, A>,
    script: &mut R,
    out: &mut W,
) -> Result<Finished<A>, RunFault>
where
    A: Allocator + Copy,
    B: Allocator + Copy,
    R: CountedRead,
    W: CountedWrite,
    requires script { R.failed script.old < 2 ^ 63 }
    requires out { W.failed out.old < 2 ^ 63 }

    // The writer got the answers of the script, which the tally counts, and the text is that in the end.
    ensures ok { IfOk result (λ f. RunsWhole lefs.now def.items (R.remaining script.old) (W.contents out.old) (W.contents out.new) (Some []) (Some (text_of f.text)) (counts_of f.tally)) }

    // The texts are to blame, with nothing written, or the first part of an output was written.
    ensures fault { IfErr result (λ e. StopsBy lefs.now def.items (R.remaining script.old) (W.contents out.old) (W.contents out.new) (Some []) (Some []) e) }

    // A device is blamed only where it has failed: for good, or the writer by 33554432 interruptions.
    ensures read { IsErrOf result RunFault.Read → R.failed script.old < R.failed script.new }
    ensures read_hard { R.failed_hard script.new ≡ hard_after_run result (R.failed_hard script.old) }
    ensures write { IsErrOf result RunFault.Write → HasFailed (W.failed_hard out.old) (W.failed_hard out.new) (W.failed out.old) (W.failed out.new) 33554431 }
    ensures write_few { W.failed out.new ≤ W.failed out.old + 33554432 }
    ensures read_few { R.failed script.new ≤ R.failed script.old + 33554432 }
    ensures endless { IsErrOf result RunFault.Endless → TookAllTurns (R.remaining script.old) (R.failed script.old) (R.failed script.new) }
{
    let library = match Library::read(alloc, hash_builder, lefs) {
        Ok(library) => library,
        Err(LibraryError::Fault { file, fault }) => return Err(RunFault::Lef { file, fault }),
        Err(LibraryError::Memory) => return Err(RunFault::Memory),
    };
    finish_over(alloc, &library, def, script, out)
}
