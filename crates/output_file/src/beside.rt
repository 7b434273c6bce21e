//! New files beside another.

ghost use Rattle.std.specs.Prelude.{◌≤◌, IfOk, length, string_bytes};
ghost use Rattle.output_file.specs.Beside.{IsBeside, new_name};

use std::alloc::{AllocError, Global};
use std::fs::OpenOptions;
use std::io::ErrorKind;
use std::os::unix::fs::OpenOptionsExt;
use std::random::RandomSource;
use std::rt::Files;

/// How many names are tried for a new file.
const TRIES: u32 = 100;

/// The path of a file in the folder of another. Its name is short, however long that of the other is.
fn name_beside(alloc: Global, path: &str, number: u64) -> Result<String, AllocError>
    ensures short { length (new_name number) ≤ 32 }
    ensures beside { IfOk result (λ n. IsBeside path.now (new_name number) (string_bytes n)) }
{
    match path.rsplit_once('/') {
        Some((folder, _)) => format!(in alloc; "{folder}/defedit-{number}.new"),
        None => format!(in alloc; "defedit-{number}.new"),
    }
}

/// A number that no other run is likely to have had.
fn some_number<R: RandomSource>(rt: &R) -> Option<u64> {
    let mut bytes = [0u8; 8];
    match rt.fill_bytes(&mut bytes) {
        Ok(()) => Some(u64::from_le_bytes(bytes)),
        Err(_) => None,
    }
}

/// Makes a new file of this mode beside one with this path, with its path. A name that is taken is passed over; there is none where all
/// are, or where none can be made.
pub(crate) fn new_file<R: Files + RandomSource>(
    alloc: Global,
    rt: &R,
    path: &str,
    mode: u32,
) -> Option<(R::File, String)> {
    let mut how = OpenOptions::new();
    how.write(true);
    how.create_new(true);
    how.mode(mode);
    for _ in 0..TRIES {
        let Ok(name) = name_beside(alloc, path, some_number(rt)?) else {
            return None;
        };
        match how.open(rt, name.as_str()) {
            Ok(file) => return Some((file, name)),
            Err(error) if error.kind() == ErrorKind::AlreadyExists => {}
            Err(_) => return None,
        }
    }
    None
}
