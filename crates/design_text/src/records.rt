//! The statements of the text of a design.

ghost use Rattle.std.specs.Prelude.{◌≡◌, IfOk, Ok, length, map};
ghost use Rattle.std.specs.Option.{option_map};
ghost use Rattle.def_grammar.specs.Records.{read_def};
ghost use Rattle.def_reader.specs.StatementViews.{record_view};
ghost use Rattle.text_pieces.specs.Chunks.{ids_at};
ghost use Rattle.text_pieces.specs.KeptRecords.{AreKept, HavePieces, record_of, records_under};
ghost use Rattle.text_pieces.specs.Tables.{kept_at};
ghost use Rattle.design_tables.specs.TableViews.{numbered_view};
ghost use Rattle.design_text.specs.DesignTexts.{design_of, record_at, text_of};
ghost use Rattle.design_text.specs.Exchanges.{records_in};

use crate::statements::kept_statement;
use crate::step::numbered;
use crate::text::DesignText;
use def_reader::statement::Statement;
use design_model::identifier::StmtId;
use design_tables::Numbered;
use std::alloc::{AllocError, Allocator};
use text_pieces::text::TextPieces;

/// The statements that are kept under some numbers, each read from its piece alone.
fn statements_under<'t, A: Allocator + Copy>(
    alloc: A,
    pieces: &'t TextPieces<A>,
    ids: &[StmtId],
) -> Result<Vec<Statement<'t>, A>, AllocError>
    requires { HavePieces pieces.now.table.slots ids.now }
    ensures { IfOk result (λ v. map record_view v.items ≡ map (λ id. record_of (kept_at pieces.now.table.slots id)) ids.now) }
{
    let Ok(mut statements) = Vec::with_capacity(alloc, ids.len()) else {
        return Err(AllocError);
    };
    for id in ids {
        let Ok(()) = statements.push(kept_statement(pieces, *id)) else {
            return Err(AllocError);
        };
    }
    Ok(statements)
}

impl<A: Allocator + Copy> DesignText<A> {
    /// All statements, in the order of the text, without their tokens. Each is read from its piece alone, and the text isn't put
    /// together.
    pub fn statements(&self, alloc: A) -> Result<Vec<Statement<'_>, A>, AllocError>
        ensures { IfOk result (λ v. read_def (text_of self.now) ≡ Ok (map record_view v.items)) }
    {
        self.statements_are_known();
        self.pieces.statements_are_kept();
        let ids = self.pieces.numbers(alloc)?;
        statements_under(alloc, &self.pieces, &ids)
    }

    /// The statement that has a position between its first token's start and its last one's end. It alone is read.
    pub fn statement_at(&self, position: usize) -> Option<Statement<'_>>
        ensures { option_map record_view result ≡ record_at self.entry.now position }
    {
        let Some(id) = self.pieces.find_at(position) else {
            return None;
        };
        let Some((statement, _)) = self.found(id) else {
            return None;
        };
        Some(statement)
    }

    /// All statements with their numbers, in the order of the text.
    pub fn numbered_statements(&self, alloc: A) -> Result<Vec<Numbered<'_>, A>, AllocError>
        ensures { IfOk result (λ v. map numbered_view v.items ≡ records_in self.entry.now) }
    {
        let _ = &self.tables;
        self.pieces.statements_are_kept();
        let ids = self.pieces.numbers(alloc)?;
        numbered(alloc, &self.pieces, &ids)
    }

    /// In how many chunks the numbers of the statements stand.
    pub fn chunks(&self) -> usize
        ensures { result ≡ length self.now.pieces.table.chunks }
    {
        let _ = &self.tables;
        self.pieces.chunks()
    }

    /// The numbers in a chunk, in the order of the text; none where there is no such chunk. By chunks all statements can be gone over without
    /// all of them being held.
    pub fn chunk(&self, place: usize) -> &[StmtId]
        ensures numbers { result.now ≡ ids_at self.now.pieces.table.chunks place }
        ensures pieces { HavePieces self.now.pieces.table.slots result.now }
    {
        let _ = &self.tables;
        self.pieces.chunk(place)
    }

    /// A law: the statements of the text are kept under their numbers, and say what the text reads as.
    pub fn statements_are_kept(&self)
        ensures kept { AreKept self.now.pieces }
        ensures said { map (λ x. x.1) (records_in self.now) ≡ design_of self.now }
    {
        self.text_reads();
        self.statements_are_known();
        self.pieces.statements_are_numbered();
        self.pieces.statements_are_kept();
    }

    /// The statements that are kept under some numbers, each read from its piece alone: those of the text, and those that went out by
    /// an edit that wasn't let go of.
    pub fn kept(&self, alloc: A, ids: &[StmtId]) -> Result<Vec<Statement<'_>, A>, AllocError>
        requires { HavePieces self.now.pieces.table.slots ids.now }
        ensures { IfOk result (λ v. map record_view v.items ≡ map (λ id. record_of (kept_at self.entry.now.pieces.table.slots id)) ids.now) }
    {
        let _ = &self.tables;
        statements_under(alloc, &self.pieces, ids)
    }

    /// The same with their numbers.
    pub fn kept_numbered(
        &self,
        alloc: A,
        ids: &[StmtId],
    ) -> Result<Vec<Numbered<'_>, A>, AllocError>
        requires { HavePieces self.now.pieces.table.slots ids.now }
        ensures { IfOk result (λ v. map numbered_view v.items ≡ records_under self.entry.now.pieces.table.slots ids.now) }
    {
        let _ = &self.tables;
        numbered(alloc, &self.pieces, ids)
    }
}
