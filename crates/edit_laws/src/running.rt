//! Laws of runs of edits.

ghost use Rattle.edit_laws.specs.RunningLaws.{OutputsAreRuns, RunsKeepReading};

use crate::editing::edits_are_applied;

/// An output of lines tells of a run of the edits that they ask for.
pub fn outputs_are_runs()
    ensures { OutputsAreRuns }
{}

/// After any run of edits of a text that reads, accepted or refused, the text reads.
pub fn runs_keep_reading()
    ensures { RunsKeepReading }
{
    edits_are_applied();
}
