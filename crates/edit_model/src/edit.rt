//! Edits of a design, and what is answered to them.

ghost use Rattle.std.specs.Prelude.{◌≡◌};
ghost use Rattle.edit_model.specs.Codes.{edit_number, refusal_number};
ghost use Rattle.edit_model.specs.declared.edit.EditRefusal.TheVariants.{Memory};

use design_model::fault::Fault;
use design_model::geometry::Orient;
use design_model::sequence::{Bytes, Sequence};
use std::alloc::{AllocError, AllocFailed, Allocator, Global};

/// An edit of a design, with the names that it borrows. Coordinates are database units.
#[derive(Clone, Copy)]
pub enum Edit<'a> {
    /// Places a component with the lower left corner of its turned boundary at a point.
    Place {
        component: &'a [u8],
        x: i64,
        y: i64,
        orient: Orient,
    },
    /// Leaves a component unplaced.
    Unplace {
        component: &'a [u8],
    },
    /// Gives a component another macro.
    Remaster {
        component: &'a [u8],
        cell: &'a [u8],
    },
    /// Connects a component's pin, or for the owner `PIN` a pin of the design, to a net.
    Connect {
        net: &'a [u8],
        owner: &'a [u8],
        pin: &'a [u8],
    },
    /// Takes a terminal that a net lists by name from it.
    Disconnect {
        net: &'a [u8],
        owner: &'a [u8],
        pin: &'a [u8],
    },
    /// Puts wiring clauses, as DEF text, in the place of a net's.
    Route {
        net: &'a [u8],
        wiring: &'a [u8],
    },
    /// Takes a net's wiring clauses out.
    Unroute {
        net: &'a [u8],
    },
    /// Puts a component of a macro last in its section.
    Add {
        component: &'a [u8],
        cell: &'a [u8],
    },
    /// Takes a component out.
    Remove {
        component: &'a [u8],
    },
    /// Blocks routing on a layer, or where none is named placement, in a rectangle between two corners.
    Block {
        layer: Option<&'a [u8]>,
        x1: i64,
        y1: i64,
        x2: i64,
        y2: i64,
    },
}

/// The kinds of refusal of an edit, in the order of their numbers.
#[derive(Clone, Copy, Debug, PartialEq, Eq)]
pub enum EditCode {
    /// A name that is not defined.
    UnknownName,
    /// A component or wiring that is held where it is.
    Fixed,
    /// A name that no component may have.
    BadName,
    /// A name that another component has.
    NameTaken,
    /// A number outside its range.
    Number,
    /// A section that the text hasn't.
    NoSection,
    /// A connection that is there, or that isn't.
    Connection,
    /// A text that isn't wiring clauses alone.
    WiringText,
    /// A range that isn't one of the text.
    Range,
    /// A new text of more than `MAX_TEXT` bytes.
    TooLong,
    /// Wiring clauses with others between them, or with some whose meaning isn't read.
    WiringApart,
}

impl EditCode {
    /// The number that is printed behind `E`.
    pub fn number(self) -> u8
        ensures { result ≡ edit_number self }
    {
        match self {
            EditCode::UnknownName => 1,
            EditCode::Fixed => 2,
            EditCode::BadName => 3,
            EditCode::NameTaken => 4,
            EditCode::Number => 5,
            EditCode::NoSection => 6,
            EditCode::Connection => 7,
            EditCode::WiringText => 8,
            EditCode::Range => 9,
            EditCode::TooLong => 11,
            EditCode::WiringApart => 13,
        }
    }
}

/// Why an edit is refused.
#[derive(Clone, Copy, Debug, PartialEq, Eq)]
pub enum EditRefusal {
    Refused(EditCode),
    /// The new text would not read.
    Unreadable(Fault),
    /// Memory was refused.
    Memory,
}

impl EditRefusal {
    /// The number that is printed behind `E`.
    pub fn number(self) -> u8
        ensures { result ≡ refusal_number self }
    {
        match self {
            EditRefusal::Refused(code) => code.number(),
            EditRefusal::Unreadable(_) => 10,
            EditRefusal::Memory => 14,
        }
    }
}

impl From<AllocError> for EditRefusal {
    ghost from_gives = { λ _ e. e ≡ Memory };

    fn from(_error: AllocError) -> EditRefusal {
        EditRefusal::Memory
    }
}

impl<T: Drop> From<AllocFailed<T>> for EditRefusal {
    ghost from_gives = { λ _ e. e ≡ Memory };

    fn from(_error: AllocFailed<T>) -> EditRefusal {
        EditRefusal::Memory
    }
}

/// What an accepted edit took: statements read to their end for the new text, and pairs of rectangles compared by searches over tiles.
#[derive(Clone, Copy, Debug, PartialEq, Eq)]
pub struct Done {
    pub reads: u64,
    pub tests: u64,
}

/// Bytes that take the place of those from `lo` up to `hi`.
#[derive(Drop)]
pub struct Splice<A: Allocator = Global> {
    pub lo: usize,
    pub hi: usize,
    pub put: Bytes<A>,
}

/// The splices of one edit, in the order of their places.
pub type Splices<A = Global> = Sequence<Splice<A>, A>;
