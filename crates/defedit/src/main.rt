//! `defedit`: runs a script of edits and queries over a DEF text and its LEF texts.
#![tactic(auto)]

use defedit_program::program::end_of;
use std::process::ExitCode;

fn main(rt: HostRuntime) -> ExitCode {
    ExitCode::from(end_of(&rt).status())
}
