//! Why a text does not read, and where.

ghost use Rattle.std.specs.Prelude.{◌≡◌};
ghost use Rattle.design_model.specs.declared.fault.ReadError.TheVariants.{Fault as OfFault, Memory};
ghost use Rattle.design_model.specs.Codes.{fault_number};

use std::alloc::{AllocError, AllocFailed};

/// The kinds of fault of a text, in the order of their numbers.
#[derive(Clone, Copy, Debug, PartialEq, Eq)]
pub enum FaultCode {
    /// A control byte that no text may hold.
    RefusedByte,
    /// A string without its closing quote.
    OpenString,
    /// A text of more than `MAX_TEXT` bytes.
    TooLong,
    /// A statement that has none of the forms of its place.
    NoForm,
    /// The text ends in a statement, in a block, or before `END DESIGN`.
    Unfinished,
    /// A word that is no number, or none in its range, where a number stands.
    Number,
    /// A name that its section has already.
    NameTaken,
    /// A second section of its kind, or a second statement of which a text has one.
    Repeated,
    /// No `UNITS` statement.
    NoUnits,
}

impl FaultCode {
    /// The number that is printed behind `F`.
    pub fn number(self) -> u8
        ensures { result ≡ fault_number self }
    {
        match self {
            FaultCode::RefusedByte => 1,
            FaultCode::OpenString => 2,
            FaultCode::TooLong => 3,
            FaultCode::NoForm => 4,
            FaultCode::Unfinished => 5,
            FaultCode::Number => 6,
            FaultCode::NameTaken => 7,
            FaultCode::Repeated => 8,
            FaultCode::NoUnits => 9,
        }
    }
}

/// A fault and its offset in the text, in bytes from 0.
#[derive(Clone, Copy, Debug, PartialEq, Eq)]
pub struct Fault {
    pub code: FaultCode,
    pub pos: usize,
}

/// Why a text is not read.
#[derive(Clone, Copy, Debug, PartialEq, Eq)]
pub enum ReadError {
    Fault(Fault),
    /// Memory was refused.
    Memory,
}

impl From<Fault> for ReadError {
    ghost from_gives = { λ fault e. e ≡ OfFault fault };

    fn from(fault: Fault) -> ReadError {
        ReadError::Fault(fault)
    }
}

impl From<AllocError> for ReadError {
    ghost from_gives = { λ _ e. e ≡ Memory };

    fn from(_error: AllocError) -> ReadError {
        ReadError::Memory
    }
}

impl<T: Drop> From<AllocFailed<T>> for ReadError {
    ghost from_gives = { λ _ e. e ≡ Memory };

    fn from(_error: AllocFailed<T>) -> ReadError {
        ReadError::Memory
    }
}
