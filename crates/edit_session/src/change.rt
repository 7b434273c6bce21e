//! What an edit is about to change.

use edit_model::edit::Edit;

/// An edit of the design, or one of the text from a position on.
#[derive(Clone, Copy)]
pub(crate) enum Change<'c, 'e> {
    Design(&'c Edit<'e>),
    Text(usize),
}
