//! How the program ends, and what it says then.

ghost use Rattle.std.specs.Prelude.{◌≡◌};
ghost use Rattle.edit_script.specs.Answered.{counts_of};
ghost use Rattle.defedit_program.specs.Statuses.{ends, status_of, whole_ends};

use design_model::fault::Fault;
use edit_script::run::{RunFault, Tally};
use std::fmt;

/// How the program ends.
#[derive(Clone, Copy, Debug, PartialEq, Eq)]
pub enum Outcome {
    /// Every line of the script was done.
    Done,
    /// A line was refused, or is none.
    Refused,
    /// The command line is none, or asks for help.
    Usage,
    /// A LEF or DEF text has a fault.
    Fault,
    /// A file or a device failed, or a script that is too long or doesn't end.
    Device,
    /// Memory was refused.
    Memory,
}

impl Outcome {
    /// How a run to its end ends the program.
    pub fn of_tally(tally: Tally) -> Outcome
        ensures { result ≡ whole_ends (counts_of tally) }
    {
        if tally.refused == 0 && tally.bad == 0 {
            Outcome::Done
        } else {
            Outcome::Refused
        }
    }

    /// The exit status.
    pub fn status(self) -> u8
        ensures { result ≡ status_of self }
    {
        match self {
            Outcome::Done => 0,
            Outcome::Refused => 1,
            Outcome::Usage => 2,
            Outcome::Fault => 3,
            Outcome::Device => 4,
            Outcome::Memory => 5,
        }
    }
}

/// Why the program ends before a run is over; it is said on standard error.
#[derive(Clone, Copy, Debug, PartialEq, Eq)]
pub enum Stop<'a> {
    /// An argument of the command line is no text.
    NoText,
    /// There are no random numbers for the key that names are hashed with.
    NoRandom,
    /// A file that can't be opened, or can't be read.
    CannotRead(&'a str),
    /// A file that can't be made.
    CannotWrite(&'a str),
    /// The output file couldn't be written.
    WriteFailed,
    /// Memory was refused outside of a run.
    Memory,
    /// The run stopped.
    Run(RunFault),
}

impl<'a> Stop<'a> {
    /// How the program ends then.
    pub fn outcome(&self) -> Outcome
        ensures { result ≡ ends self.now }
    {
        match self {
            Stop::NoText => Outcome::Usage,
            Stop::NoRandom | Stop::CannotRead(_) | Stop::CannotWrite(_) | Stop::WriteFailed => {
                Outcome::Device
            }
            Stop::Memory => Outcome::Memory,
            Stop::Run(fault) => match fault {
                RunFault::Lef { .. } | RunFault::Def(_) => Outcome::Fault,
                RunFault::Memory => Outcome::Memory,
                RunFault::Read | RunFault::Write | RunFault::TooLong | RunFault::Endless => {
                    Outcome::Device
                }
            },
        }
    }
}

/// A fault of a text by its number and its place.
fn write_fault<W: fmt::Write>(f: &mut fmt::Formatter<W>, fault: &Fault) -> fmt::Result {
    let code = fault.code.number();
    let pos = fault.pos;
    write!(f, "F{code} at {pos}")
}

impl<'a> fmt::Display for Stop<'a> {
    fn fmt<W: fmt::Write>(&self, f: &mut fmt::Formatter<W>) -> fmt::Result {
        match self {
            Stop::NoText => f.write_str("an argument is no text"),
            Stop::NoRandom => f.write_str("no random numbers"),
            Stop::CannotRead(path) => write!(f, "cannot read {path}"),
            Stop::CannotWrite(path) => write!(f, "cannot write {path}"),
            Stop::WriteFailed => f.write_str("write failed"),
            Stop::Memory => f.write_str("out of memory"),
            Stop::Run(fault) => match fault {
                RunFault::Lef { file, fault } => {
                    write!(f, "LEF {file}: ")?;
                    write_fault(f, fault)
                }
                RunFault::Def(fault) => {
                    f.write_str("DEF: ")?;
                    write_fault(f, fault)
                }
                RunFault::Memory => f.write_str("out of memory"),
                RunFault::Read => f.write_str("read failed"),
                RunFault::Write => f.write_str("write failed"),
                RunFault::TooLong => f.write_str("script too long"),
                RunFault::Endless => f.write_str("script does not end"),
            },
        }
    }
}
