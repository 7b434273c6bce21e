//! The program: its command line, its files and what it says on standard error.

ghost use Rattle.std.specs.Prelude.{◌≡◌, [], Err};
ghost use Rattle.clap.specs.Values.{kind_of};
ghost use Rattle.defedit_program.specs.Statuses.{ends, refused_ends, unreadable};

use crate::command_line::{Request, read_request};
use crate::ending::run_to_end;
use crate::files::read_text;
use crate::in_pieces::InPieces;
use crate::outcome::{Outcome, Stop};
use cell_library::lef_texts::LefTexts;
use clap::Error;
use clap::error::ErrorKind;
use counted_devices::counted::Counted;
use counted_devices::input::InputError;
use design_text::text::DesignText;
use output_file::{OutputFault, plain_file, write_file};
use std::alloc::Global;
use std::hash::RandomState;
use std::random::RandomSource;
use std::rt::{Env, Files};
use std::{env, fs, io};

/// A file that can't be opened, or can't be read.
fn unreadable(path: &str, error: InputError) -> Stop<'_>
    ensures { result ≡ unreadable path.entry error }
{
    match error {
        InputError::Memory => Stop::Memory,
        InputError::Read | InputError::TooLong | InputError::Endless => Stop::CannotRead(path),
    }
}

/// Reads the LEF files in their order.
fn read_lefs<'a, R: Files>(alloc: Global, rt: &R, paths: &[&'a str]) -> Result<LefTexts, Stop<'a>> {
    let mut lefs = LefTexts::new(alloc);
    for path in paths {
        let text = match read_text(alloc, rt, path) {
            Ok(text) => text,
            Err(error) => return Err(unreadable(path, error)),
        };
        if let Err(_) = lefs.push(text.as_slice()) {
            return Err(Stop::Memory);
        }
    }
    Ok(lefs)
}

/// The files that answers and errors go to.
const STANDARD_FILES: [&str; 2] = ["/proc/self/fd/1", "/proc/self/fd/2"];

/// Whether a path leads to a plain file that this run reads besides the DEF, or that its answers or errors go to.
fn is_in_use<R: Files>(rt: &R, path: &str, request: &Request<'_>) -> bool {
    let Some(file) = plain_file(rt, path) else {
        return false;
    };
    for lef in &request.lefs {
        if plain_file(rt, lef) == Some(file) {
            return true;
        }
    }
    for standard in STANDARD_FILES {
        if plain_file(rt, standard) == Some(file) {
            return true;
        }
    }
    plain_file(rt, request.script) == Some(file)
}

/// Runs the script, and writes the file of the text in the end.
fn run_request<'a, R: Files + Print + RandomSource>(
    alloc: Global,
    rt: &R,
    request: &Request<'a>,
) -> Result<Outcome, Stop<'a>> {
    if is_in_use(rt, request.out, request) {
        return Err(Stop::CannotWrite(request.out));
    }
    let Ok(hash_builder) = RandomState::new(rt) else {
        return Err(Stop::NoRandom);
    };
    let lefs = read_lefs(alloc, rt, request.lefs.as_slice())?;
    let def = match read_text(alloc, rt, request.def) {
        Ok(def) => def,
        Err(error) => return Err(unreadable(request.def, error)),
    };
    let Ok(script) = fs::open(rt, request.script) else {
        return Err(Stop::CannotRead(request.script));
    };
    let mut script = Counted::new(script);
    let mut out = Counted::new(io::writer(rt));
    let ended = match run_to_end(alloc, hash_builder, &lefs, def, &mut script, &mut out) {
        Ok(ended) => ended,
        Err(fault) => return Err(Stop::Run(fault)),
    };
    write_text(alloc, rt, request.out, ended.text)?;
    Ok(ended.outcome)
}

/// Writes the output file. Where that fails, a file that was there stays as it was.
fn write_text<'a, R: Files + RandomSource>(
    alloc: Global,
    rt: &R,
    path: &'a str,
    text: DesignText,
) -> Result<(), Stop<'a>>
    ensures { path.now ≡ [] → result ≡ Err (Stop.CannotWrite path.entry) }
{
    match write_file(alloc, rt, path, &InPieces { text }) {
        Ok(()) => Ok(()),
        Err(OutputFault::Make) => Err(Stop::CannotWrite(path)),
        Err(OutputFault::Write) => Err(Stop::WriteFailed),
        Err(OutputFault::Memory) => Err(Stop::Memory),
    }
}

/// Says on standard error why the program ends.
fn say<R: Eprint>(rt: &R, stop: Stop<'_>) -> Outcome
    ensures { result ≡ ends stop.entry }
{
    let _ = eprintln!(rt; "{stop}");
    stop.outcome()
}

/// Says on standard error why a command line is no request, or shows its help.
fn refuse<R: Eprint>(rt: &R, error: &Error) -> Outcome
    ensures { result ≡ refused_ends (kind_of error.now) }
{
    if error.kind() == ErrorKind::OutOfMemory {
        return say(rt, Stop::Memory);
    }
    let _ = rt.eprint(error);
    Outcome::Usage
}

/// Why the program ends where its arguments aren't read.
fn unread_arguments(error: &io::Error) -> Stop<'static> {
    if error.kind() == io::ErrorKind::OutOfMemory {
        Stop::Memory
    } else {
        Stop::NoText
    }
}

/// Runs the program, and says how it ends.
pub fn end_of<R: Files + Env + AllocGlobal + RandomSource + Print + Eprint>(rt: &R) -> Outcome {
    let alloc = rt.alloc();
    let args = match env::args(rt) {
        Ok(args) => args,
        Err(error) => return say(rt, unread_arguments(&error)),
    };
    let mut owned = Vec::new(alloc);
    for arg in args {
        if let Err(_) = owned.push(arg) {
            return say(rt, Stop::Memory);
        }
    }
    let mut words = Vec::new(alloc);
    for arg in &owned {
        if let Err(_) = words.push(arg.as_str()) {
            return say(rt, Stop::Memory);
        }
    }
    match read_request(alloc, &words) {
        Ok(request) => match run_request(alloc, rt, &request) {
            Ok(outcome) => outcome,
            Err(stop) => say(rt, stop),
        },
        Err(error) => refuse(rt, &error),
    }
}
