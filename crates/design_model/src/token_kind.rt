//! Kinds of tokens.

/// What a token of a LEF or DEF text is.
#[derive(Clone, Copy, Debug, PartialEq, Eq)]
pub enum TokenKind {
    /// A run of bytes up to white space.
    Word,
    /// A string, with its two quotes.
    Quoted,
}
