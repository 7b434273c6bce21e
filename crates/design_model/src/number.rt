//! Why a word is no number.

/// Why a word is no number.
#[derive(Clone, Copy, Debug, PartialEq, Eq)]
pub enum NumFault {
    /// It is not written as one.
    Form,
    /// It is outside the range of its kind.
    Range,
}
