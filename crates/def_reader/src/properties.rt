//! Statements between PROPERTYDEFINITIONS and its END (LEF/DEF 5.8 Language Reference, "Property Definitions").

ghost use Rattle.std.specs.Prelude.{◌≡◌, codes, IfSome};
ghost use Rattle.form_meanings.specs.Words.{Gives, is_semicolon};
ghost use Rattle.statement_model.specs.Form.{◌▸◌, ◌◂◌, empty, read, upto};
ghost use Rattle.def_grammar.specs.Properties.{property_statement};
ghost use Rattle.lefdef_tokens.specs.Views.{IsLater, pieces_of, rest_of};
ghost use Rattle.def_parts.specs.PointViews.{with_rest};
ghost use Rattle.def_reader.specs.PropertyViews.{PropertyAt, property_view};

use lefdef_tokens::{Cursor, TokenRun, is_word};

/// A statement among property definitions.
#[derive(Clone, Copy, Drop)]
pub enum Property<'t> {
    /// `END PROPERTYDEFINITIONS`
    End,
    /// One without meaning, by its tokens before the `;`.
    Kept(TokenRun<'t>),
}

/// `END PROPERTYDEFINITIONS`
fn end_at<'t>(cursor: Cursor<'t>) -> Option<Cursor<'t>>
    ensures gives { Gives (λ left. (tt, rest_of left)) result (read (codes "END" ▸ codes "PROPERTYDEFINITIONS" ▸ empty) (rest_of cursor.entry)) }
    ensures later { IfSome result (λ left. IsLater cursor.entry left) }
{
    // Most statements are no END, and a look reads no token.
    let first = cursor.peek()?;
    if !is_word(first.bytes, b"END") {
        return None;
    }
    cursor.key(b"END")?.key(b"PROPERTYDEFINITIONS")
}

/// A statement among property definitions.
#[tactic(auto, unfolding(def_grammar::specs::Properties::property_statement))]
pub(crate) fn property_at<'t>(cursor: Cursor<'t>) -> Option<(Property<'t>, Cursor<'t>)>
    ensures gives { Gives (with_rest property_view) result (read property_statement (rest_of cursor.entry)) }
    ensures later { IfSome result (λ x. IsLater cursor.entry x.1) }
    ensures lent { IfSome result (λ x. PropertyAt (pieces_of cursor.entry.tokens) x.0) }
{
    if let Some(left) = end_at(cursor) {
        return Some((Property::End, left));
    }
    let (tokens, cursor) = cursor.up_to_semicolon();
    let cursor = cursor.key(b";")?;
    Some((Property::Kept(tokens), cursor))
}
