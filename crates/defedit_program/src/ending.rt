//! A run of a script, as the program ends it.

ghost use Rattle.std.specs.Prelude.{◌≡◌, ◌+◌, ◌<◌, ◌≤◌, ◌^◌, IfErr, IfOk, IsErrOf};
ghost use Rattle.counted_devices.specs.Counting.{HasFailed};
ghost use Rattle.edit_script.specs.Ends.{TookAllTurns, hard_after_run};
ghost use Rattle.defedit_program.specs.Endings.{EndsBy, EndsWhole};

use crate::outcome::Outcome;
use cell_library::lef_texts::LefTexts;
use counted_devices::counted::{CountedRead, CountedWrite, Failures};
use design_text::text::DesignText;
use edit_script::finished::run_owned;
use edit_script::run::RunFault;
use std::alloc::Global;
use std::hash::RandomState;
use std::io::{Read, Write};

/// What is left after a run to its end.
#[derive(Drop)]
pub struct Ended {
    /// How the program ends.
    pub outcome: Outcome,
    /// What the output file gets: the DEF text in the end, in pieces.
    pub text: DesignText,
}

/// Runs a script over a DEF text, which it takes, and the library of LEF texts. The answers go to `out`.
pub fn run_to_end<R: CountedRead, W: CountedWrite>(
    alloc: Global,
    hash_builder: RandomState,
    lefs: &LefTexts,
    def: Vec<u8>,
    script: &mut R,
    out: &mut W,
) -> Result<Ended, RunFault>
    requires script { R.failed script.old < 2 ^ 63 }
    requires out { W.failed out.old < 2 ^ 63 }
    ensures ok { IfOk result (λ e. EndsWhole lefs.now def.items (R.remaining script.old) (W.contents out.old) (W.contents out.new) e) }
    ensures fault { IfErr result (λ e. EndsBy lefs.now def.items (R.remaining script.old) (W.contents out.old) (W.contents out.new) e) }

    // A device is blamed where `run_owned` blames it.
    ensures read { IsErrOf result RunFault.Read → R.failed script.old < R.failed script.new }
    ensures read_hard { R.failed_hard script.new ≡ hard_after_run result (R.failed_hard script.old) }
    ensures write { IsErrOf result RunFault.Write → HasFailed (W.failed_hard out.old) (W.failed_hard out.new) (W.failed out.old) (W.failed out.new) 33554431 }
    ensures write_few { W.failed out.new ≤ W.failed out.old + 33554432 }
    ensures read_few { R.failed script.new ≤ R.failed script.old + 33554432 }
    ensures endless { IsErrOf result RunFault.Endless → TookAllTurns (R.remaining script.old) (R.failed script.old) (R.failed script.new) }
{
    let finished = run_owned(alloc, hash_builder, lefs, def, script, out)?;
    Ok(Ended {
        outcome: Outcome::of_tally(finished.tally),
        text: finished.text,
    })
}
