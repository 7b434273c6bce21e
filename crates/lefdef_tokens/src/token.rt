//! A token of a text.

use design_model::token_kind::TokenKind;

/// A token, which borrows its bytes from the text.
#[derive(Clone, Copy, Debug)]
pub struct Token<'t> {
    pub kind: TokenKind,
    /// Of a string these are its two quotes and what is between them, with each backslash.
    pub bytes: &'t [u8],
    /// Where the bytes begin in the text.
    pub pos: usize,
}
