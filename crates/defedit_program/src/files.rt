//! Files, read whole.

ghost use Rattle.std.specs.Prelude.{◌<◌, ◌^◌, IfOk};
ghost use Rattle.defedit_program.specs.Files.{IsText};

use counted_devices::counted::{Counted, CountedRead, Failures};
use counted_devices::input::{InputError, read_up_to};
use design_model::MAX_TEXT;
use edit_script::run::MAX_TURNS;
use std::alloc::Global;
use std::fs;
use std::io::Read;
use std::rt::Files;

/// What a file holds: whole or, where it is longer than a text may be, up to where that shows.
fn text_of<R: CountedRead>(alloc: Global, file: &mut R) -> Result<Vec<u8>, InputError>
    requires { R.failed file.old < 2 ^ 63 }
    ensures { IfOk result (λ v. IsText (R.remaining file.old) (R.remaining file.new) v.items) }
{
    read_up_to(alloc, file, MAX_TEXT + 1, MAX_TURNS)
}

/// Reads the text of a file.
pub fn read_text<R: Files>(alloc: Global, rt: &R, path: &str) -> Result<Vec<u8>, InputError> {
    let Ok(file) = fs::open(rt, path) else {
        return Err(InputError::Read);
    };
    text_of(alloc, &mut Counted::new(file))
}
