//! Points, rectangles and orientations, in database units.

ghost use Rattle.std.specs.Prelude.{◌≡◌, ◌≤ℤ◌};
ghost use Rattle.form_meanings.specs.Meaning.{find};
ghost use Rattle.design_model.specs.EnumWords.{orient_word, orients, status_word, statuses};

use crate::word::is_word;

/// A point, in database units.
#[derive(Clone, Copy, Debug, PartialEq, Eq)]
pub struct Point {
    pub x: i64,
    pub y: i64,
}

/// A rectangle, in database units: its lower left and its upper right corner. It may be a line or a point.
#[derive(Clone, Copy, Debug, PartialEq, Eq)]
pub struct Rect {
    pub x1: i64,
    pub y1: i64,
    pub x2: i64,
    pub y2: i64,
    ghost wide: { x1 ≤ℤ x2 },
    ghost high: { y1 ≤ℤ y2 },
}

/// An orientation: a turn counterclockwise, and for the `F` ones a flip about the y axis after it
/// (LEF/DEF 5.8 Language Reference, "Specifying Orientation").
#[derive(Clone, Copy, Debug, PartialEq, Eq)]
pub enum Orient {
    N,
    W,
    S,
    E,
    FN,
    FS,
    FW,
    FE,
}

impl Orient {
    /// The word that it is written with.
    #[tactic(auto, unfolding(crate::specs::EnumWords::orient_word))]
    pub fn word(self) -> &'static [u8]
        ensures { result.now ≡ orient_word self }
    {
        match self {
            Orient::N => b"N",
            Orient::S => b"S",
            Orient::E => b"E",
            Orient::W => b"W",
            Orient::FN => b"FN",
            Orient::FS => b"FS",
            Orient::FE => b"FE",
            Orient::FW => b"FW",
        }
    }

    /// The orientation of a word.
    #[tactic(auto, unfolding(crate::specs::EnumWords::orient_word))]
    pub fn of_word(word: &[u8]) -> Option<Orient>
        ensures { result ≡ find orient_word orients word.now }
    {
        if is_word(word, b"N") {
            Some(Orient::N)
        } else if is_word(word, b"S") {
            Some(Orient::S)
        } else if is_word(word, b"E") {
            Some(Orient::E)
        } else if is_word(word, b"W") {
            Some(Orient::W)
        } else if is_word(word, b"FN") {
            Some(Orient::FN)
        } else if is_word(word, b"FS") {
            Some(Orient::FS)
        } else if is_word(word, b"FE") {
            Some(Orient::FE)
        } else if is_word(word, b"FW") {
            Some(Orient::FW)
        } else {
            None
        }
    }
}

/// How a component's place is held (LEF/DEF 5.8 Language Reference, "Components").
#[derive(Clone, Copy, Debug, PartialEq, Eq)]
pub enum Status {
    /// An edit may move it.
    Placed,
    /// No edit moves it.
    Fixed,
    /// No edit moves it, and it takes part in no place check.
    Cover,
}

impl Status {
    /// The word that it is written with.
    #[tactic(auto, unfolding(crate::specs::EnumWords::status_word))]
    pub fn word(self) -> &'static [u8]
        ensures { result.now ≡ status_word self }
    {
        match self {
            Status::Placed => b"PLACED",
            Status::Fixed => b"FIXED",
            Status::Cover => b"COVER",
        }
    }

    /// The status of a word.
    #[tactic(auto, unfolding(crate::specs::EnumWords::status_word))]
    pub fn of_word(word: &[u8]) -> Option<Status>
        ensures { result ≡ find status_word statuses word.now }
    {
        if is_word(word, b"PLACED") {
            Some(Status::Placed)
        } else if is_word(word, b"FIXED") {
            Some(Status::Fixed)
        } else if is_word(word, b"COVER") {
            Some(Status::Cover)
        } else {
            None
        }
    }
}
