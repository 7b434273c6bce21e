//! Statements of a text in pieces.

ghost use Rattle.std.specs.Prelude.{◌≡◌, IfSome};
ghost use Rattle.std.specs.Option.{option_map};
ghost use Rattle.statement_model.specs.Form.{spell};
ghost use Rattle.statement_model.specs.Tokens.{tokens};
ghost use Rattle.def_grammar.specs.Components.{Component, component_form};
ghost use Rattle.def_grammar.specs.Records.{Record, component, def, entry};
ghost use Rattle.lefdef_tokens.specs.Views.{pieces_of, words_of};
ghost use Rattle.piece_laws.specs.Pieces.{IsPiece};
ghost use Rattle.def_reader.specs.Lent.{StatementAt};
ghost use Rattle.def_reader.specs.StatementViews.{record_view};
ghost use Rattle.def_splice.specs.Lying.{LiesIn, lying_statement};
ghost use Rattle.text_pieces.specs.Content.{text_of};
ghost use Rattle.text_pieces.specs.KeptRecords.{HasPiece, record_of};
ghost use Rattle.text_pieces.specs.Lent.{numbered_statements};
ghost use Rattle.text_pieces.specs.Statements.{look_up};
ghost use Rattle.text_pieces.specs.Tables.{kept_at};

use def_reader::read_statement::{Read, read_statement};
use def_reader::statement::Statement;
use def_splice::lying::Lying;
use design_model::identifier::StmtId;
use design_model::mode::Mode;
use piece_laws::pieces::pieces_are_found;
use std::alloc::Allocator;
use text_pieces::text::TextPieces;

/// The statement that a piece is.
pub(crate) fn read_piece<'t>(bytes: &'t [u8], mode: Mode) -> Read<'t>
    requires { (rec : Record) × (after : Mode) × IsPiece def mode bytes.now rec after }
    ensures says { (rec : Record) → (after : Mode) → IsPiece def mode bytes.now rec after → record_view result.statement ≡ rec }
    ensures tokens { pieces_of result.tokens ≡ (tokens bytes.now).pieces }
    ensures spelled { (c : Component) → record_view result.statement ≡ entry (component c) → words_of result.tokens ≡ spell component_form c }
    ensures lent { StatementAt (pieces_of result.tokens) result.statement }
    ensures text { result.tokens.text.now ≡ bytes.now }
{
    pieces_are_found();
    let Ok(found) = read_statement(mode, bytes, 0) else {
        unreachable!()
    };
    let Some(read) = found else { unreachable!() };
    read
}

/// The statement that is kept under a number, read from its piece alone.
pub(crate) fn kept_statement<'t, A: Allocator + Copy>(
    pieces: &'t TextPieces<A>,
    id: StmtId,
) -> Statement<'t>
    requires { HasPiece pieces.now.table.slots id }
    ensures { record_view result ≡ record_of (kept_at pieces.now.table.slots id) }
{
    let Some((bytes, mode)) = pieces.kept_piece(id) else {
        unreachable!()
    };
    read_piece(bytes, mode).statement
}

/// The statement of a number, read from its piece alone, with its tokens where they lie in the text.
pub(crate) fn statement_of<A: Allocator + Copy>(
    pieces: &TextPieces<A>,
    id: StmtId,
) -> Option<(Statement<'_>, Lying<'_>)>
    ensures gives { option_map lying_statement result ≡ look_up id (numbered_statements pieces.now) }
    ensures lent { IfSome result (λ x. StatementAt (pieces_of x.1.tokens) x.0) }
    ensures spelled { IfSome result (λ x. (c : Component) → record_view x.0 ≡ entry (component c) → words_of x.1.tokens ≡ spell component_form c) }
    ensures lies { IfSome result (λ x. LiesIn (text_of pieces.now) x.1) }
{
    let Some(piece) = pieces.piece(id) else {
        return None;
    };
    let read = read_piece(piece.bytes, piece.mode);
    let tokens = Lying {
        tokens: read.tokens,
        at: piece.at,
    };
    Some((read.statement, tokens))
}
