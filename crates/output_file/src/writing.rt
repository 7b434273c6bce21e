//! Writing a whole text into a file.

ghost use Rattle.std.specs.Prelude.{◌≡◌, ℕ, List, [], Err, IfOk};
ghost use Rattle.std.specs.Io.KnownBytes.{Appends};

use crate::beside::new_file;
use std::alloc::Global;
use std::fs;
use std::fs::{Metadata, OpenFile, OpenOptions};
use std::io::{BufWriter, ErrorKind, Write};
use std::random::RandomSource;
use std::rt::Files;

/// Why a file isn't written.
#[derive(Clone, Copy, Debug, PartialEq, Eq)]
pub enum OutputFault {
    /// It can't be made or opened, or no new file can be made beside it.
    Make,
    /// Its bytes can't be written or kept, or the new file can't take its name.
    Write,
    /// Memory was refused.
    Memory,
}

/// How many bytes are put together before they are written.
const BUFFER: usize = 65536;

/// The mode of a new file until it gets that of the old one: what the old one kept from others is kept from them meanwhile too.
const OWNERS_ALONE: u32 = 0o600;

/// The mode of a new file where there was none, of which the system takes away what its user doesn't give.
const EVERYONES: u32 = 0o666;

/// What a file gets.
pub trait FileText {
    ghost bytes: { Self → List ℕ };

    /// Writes all of it.
    fn write_into<W: Write + Drop>(&self, file: W) -> Result<W, OutputFault>
        ensures { IfOk result (λ w. Appends (W.contents file) (W.contents w) (bytes self.now)) };
}

/// Writes a text into a file that is open.
fn fill<W: Write + Drop, T: FileText>(alloc: Global, file: W, text: &T) -> Result<W, OutputFault>
    ensures { IfOk result (λ w. Appends (W.contents file) (W.contents w) (T.bytes text.now)) }
{
    let Ok(buffered) = BufWriter::with_capacity(alloc, BUFFER, file) else {
        return Err(OutputFault::Memory);
    };
    let buffered = text.write_into(buffered)?;
    match buffered.into_inner() {
        Ok(file) => Ok(file),
        Err(_) => Err(OutputFault::Write),
    }
}

/// Writes a text into what has this path, from its begin on.
fn write_in_place<R: Files, T: FileText>(
    alloc: Global,
    rt: &R,
    path: &str,
    text: &T,
) -> Result<(), OutputFault> {
    let Ok(file) = fs::create(rt, path) else {
        return Err(OutputFault::Make);
    };
    fill(alloc, file, text)?;
    Ok(())
}

/// Gives a new file the mode of the old one, and has the system keep its bytes.
fn settle<F: OpenFile>(file: &F, old: Option<Metadata>) -> Result<(), OutputFault> {
    if let Some(old) = old {
        if let Err(_) = file.set_permissions(old.permissions()) {
            return Err(OutputFault::Write);
        }
    }
    match file.sync_all() {
        Ok(()) => Ok(()),
        Err(_) => Err(OutputFault::Write),
    }
}

/// Writes a text into a new file, which then takes the name of the old one.
fn fill_and_rename<R: Files, T: FileText>(
    alloc: Global,
    rt: &R,
    file: R::File,
    name: &str,
    path: &str,
    old: Option<Metadata>,
    text: &T,
) -> Result<(), OutputFault> {
    let file = fill(alloc, file, text)?;
    settle(&file, old)?;
    match fs::rename(rt, name, path) {
        Ok(()) => Ok(()),
        Err(_) => Err(OutputFault::Write),
    }
}

/// Writes a text into a new file beside this path, which then takes that name. A new file that doesn't come to that is taken away.
fn write_beside<R: Files + RandomSource, T: FileText>(
    alloc: Global,
    rt: &R,
    path: &str,
    old: Option<Metadata>,
    text: &T,
) -> Result<(), OutputFault> {
    let mode = if old.is_some() {
        OWNERS_ALONE
    } else {
        EVERYONES
    };
    let Some((file, name)) = new_file(alloc, rt, path, mode) else {
        return Err(OutputFault::Make);
    };
    let written = fill_and_rename(alloc, rt, file, name.as_str(), path, old, text);
    if let Err(_) = written {
        let _ = fs::remove_file(rt, name.as_str());
    }
    written
}

/// Whether a file that is there may be written.
fn may_write<R: Files>(rt: &R, path: &str) -> bool {
    let mut how = OpenOptions::new();
    how.write(true);
    how.open(rt, path).is_ok()
}

/// Replaces a plain file, where a link's path leads to it.
fn replace<R: Files + RandomSource, T: FileText>(
    alloc: Global,
    rt: &R,
    path: &str,
    old: Metadata,
    text: &T,
) -> Result<(), OutputFault> {
    if !may_write(rt, path) {
        return Err(OutputFault::Make);
    }
    let Ok(whole) = rt.canonicalize(alloc, path) else {
        return Err(OutputFault::Make);
    };
    write_beside(alloc, rt, whole.as_str(), Some(old), text)
}

/// Whether something stands at a path, be it a link that leads nowhere.
fn is_link<R: Files>(rt: &R, path: &str) -> bool {
    match fs::symlink_metadata(rt, path) {
        Ok(_) => true,
        Err(_) => false,
    }
}

/// Writes a text into the file of a path. A plain file that is there keeps its old bytes where any step fails.
pub fn write_file<R: Files + RandomSource, T: FileText>(
    alloc: Global,
    rt: &R,
    path: &str,
    text: &T,
) -> Result<(), OutputFault>
    ensures { path.now ≡ [] → result ≡ Err OutputFault.Make }
{
    if path.is_empty() {
        return Err(OutputFault::Make);
    }
    match fs::metadata(rt, path) {
        Ok(old) if old.is_file() => replace(alloc, rt, path, old, text),
        Ok(_) => write_in_place(alloc, rt, path, text),
        Err(error) if error.kind() != ErrorKind::NotFound => Err(OutputFault::Make),
        Err(_) if is_link(rt, path) => write_in_place(alloc, rt, path, text),
        Err(_) => write_beside(alloc, rt, path, None, text),
    }
}
