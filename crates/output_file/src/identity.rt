//! Which file a path leads to.

use std::fs;
use std::os::unix::fs::MetadataExt;
use std::rt::Files;

/// What tells a plain file from all others, under any of its names.
#[derive(Clone, Copy, Debug, PartialEq, Eq)]
pub struct FileId {
    device: u64,
    number: u64,
}

/// The plain file that a path leads to, if it leads to one.
pub fn plain_file<R: Files>(rt: &R, path: &str) -> Option<FileId> {
    match fs::metadata(rt, path) {
        Ok(found) if found.is_file() => Some(FileId {
            device: found.dev(),
            number: found.ino(),
        }),
        _ => None,
    }
}
