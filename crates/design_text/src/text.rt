//! The text of a design.

ghost use Rattle.std.specs.Prelude.{◌≡◌, ◌≤◌, IfSome, IsOk, List, Ok, length};
ghost use Rattle.design_model.specs.declared.TheConstants.{MAX_TEXT};
ghost use Rattle.std.specs.Option.{option_map};
ghost use Rattle.statement_model.specs.Form.{spell};
ghost use Rattle.def_grammar.specs.Components.{Component, component_form};
ghost use Rattle.def_grammar.specs.Records.{Record, component, entry, read_def};
ghost use Rattle.lefdef_tokens.specs.Views.{pieces_of, words_of};
ghost use Rattle.def_reader.specs.Lent.{StatementAt};
ghost use Rattle.def_reader.specs.StatementViews.{record_view};
ghost use Rattle.def_splice.specs.Lying.{LiesIn, lying_statement};
ghost use Rattle.design_text.specs.DesignTexts.{IsNumbered, design_of, statement_under, text_of};

use crate::statements::statement_of;
use def_reader::statement::Statement;
use def_splice::lying::Lying;
use design_model::identifier::StmtId;
use design_tables::Tables;
use piece_laws::keys::{fresh_is_once, keys_are_apart};
use statement_reader::laws::records_are_read;
use std::alloc::{Allocator, Global};
use std::marker::Model;
use text_pieces::prepared::PreparedText;
use text_pieces::text::TextPieces;

/// The pieces of a text that reads, and the tables of its statements under their numbers.
pub struct DesignText<A: Allocator + Copy = Global> {
    pub(crate) pieces: TextPieces<A>,
    pub(crate) tables: Tables<A>,
    // A change of the pieces that was prepared, and whose tables weren't.
    pub(crate) unused: Option<PreparedText<A>>,
}

// (written out, so that who owns the text of a design is proved over one call)
impl<A: Allocator + Copy> Drop for DesignText<A> {
    fn drop(self) {
        let DesignText {
            pieces: _,
            tables: _,
            unused: _,
        } = self;
    }
}

impl<A: Allocator + Copy> Model for DesignText<A> {
    ghost use Rattle.design_text.specs.DesignTexts.{Content, IsDesignText};

    ghost Value = { Content };

    ghost view = { λ t. record { pieces = t.pieces; names = t.tables } };

    ghost invariant = { λ t. IsDesignText (record { pieces = t.pieces; names = t.tables }) };
}

impl<A: Allocator + Copy> DesignText<A> {
    /// A law: what is known of the statements and the tables.
    pub(crate) fn statements_are_known(&self)
        ensures { (design : List Record) → read_def (text_of self.now) ≡ Ok design → IsNumbered self.now design }
    {
        records_are_read::<Statement<'_>>();
        keys_are_apart();
        fresh_is_once();
        self.pieces.statements_are_numbered();
    }

    /// A law: the text reads, and so isn't too long.
    pub fn text_reads(&self)
        ensures reads { IsOk (read_def (text_of self.now)) }
        ensures fits { length (text_of self.now) ≤ MAX_TEXT }
    {
        let _ = &self.pieces;
        let _ = &self.tables;
    }

    /// A law: what its statements say is the design that the text reads as.
    pub fn design_is_read(&self)
        ensures reads { read_def (text_of self.now) ≡ Ok (design_of self.now) }
        ensures alone { (design : List Record) → read_def (text_of self.now) ≡ Ok design → design ≡ design_of self.now }
    {
        let _ = &self.pieces;
        let _ = &self.tables;
        self.statements_are_known();
    }

    /// The pieces of the text. The tables are given back.
    pub(crate) fn into_pieces(self) -> TextPieces<A>
        ensures { result ≡ self.pieces }
    {
        let DesignText {
            pieces,
            tables: _,
            unused: _,
        } = self;
        pieces
    }

    /// The statement of a number. It alone is read.
    pub(crate) fn found(&self, id: StmtId) -> Option<(Statement<'_>, Lying<'_>)>
        ensures gives { option_map lying_statement result ≡ statement_under self.now id }
        ensures lent { IfSome result (λ x. StatementAt (pieces_of x.1.tokens) x.0) }
        ensures spelled { IfSome result (λ x. (c : Component) → record_view x.0 ≡ entry (component c) → words_of x.1.tokens ≡ spell component_form c) }
        ensures lies { IfSome result (λ x. LiesIn (text_of self.now) x.1) }
    {
        statement_of(&self.pieces, id)
    }
}
