//! Changes of the text of a design: its pieces and its tables are changed together, or neither is.

ghost use Rattle.std.specs.Prelude.{◌≡◌, ◌≤◌, ◌⊎◌, ℕ, List, IfErr, IfOk, OnOk, map};
ghost use Rattle.design_model.specs.declared.identifier.StmtId.{StmtId as Number};
ghost use Rattle.def_grammar.specs.Records.{Record};
ghost use Rattle.text_pieces.specs.Changes.{IsBetween};
ghost use Rattle.text_pieces.specs.Content as content;
ghost use Rattle.text_pieces.specs.Covering.{cover_of, cut_of};
ghost use Rattle.text_pieces.specs.KeptRecords.{HavePieces, records_under};
ghost use Rattle.text_pieces.specs.Lent.{numbered_records};
ghost use Rattle.text_pieces.specs.Storing.{StaysKept};
ghost use Rattle.text_pieces.specs.declared.prepared.PrepareError.TheVariants.{Fault as IsFault, Memory as IsMemory};
ghost use Rattle.design_tables.specs.Listings.{AreTablesOf, Listing};
ghost use Rattle.design_tables.specs.Prepared as prepared;
ghost use Rattle.design_tables.specs.Prepared.{AreKeyed};
ghost use Rattle.design_tables.specs.TableViews.{numbered_view};
ghost use Rattle.design_text.specs.DesignTexts.{text_of};
ghost use Rattle.design_text.specs.Exchanges.{IsExchange, LeadsToRecords, exchanged_by, records_in};
ghost use Rattle.design_text.specs.FewReads.{new_in};
ghost use Rattle.design_text.specs.Steps.{Both, LeadsTo, PreparesCuts};

use crate::statements::kept_statement;
use crate::text::DesignText;
use def_reader::statement::Statement;
use design_model::identifier::StmtId;
use design_tables::laws::order_makes_no_difference;
use design_tables::{Numbered, PreparedTables, Tables};
use piece_laws::keys::{fresh_is_once, keys_are_apart, keys_decide};
use statement_reader::laws::records_are_read;
use std::alloc::{AllocError, Allocator, Global};
use std::marker::Model;
use text_pieces::lasting::{changes_last, contents_stand_still};
use text_pieces::prepared::{PrepareError, PreparedText, TextCut};
use text_pieces::text::TextPieces;

/// A change of the text of a design that is prepared; or, once it is made, the change that takes it back.
pub(crate) struct Step<A: Allocator + Copy = Global> {
    text: PreparedText<A>,
    tables: PreparedTables<A>,
}

// (written out, so that who owns a step is proved over one call)
impl<A: Allocator + Copy> Drop for Step<A> {
    fn drop(self) {
        let Step { text: _, tables: _ } = self;
    }
}

impl<A: Allocator + Copy> Model for Step<A> {
    ghost use Rattle.design_text.specs.FewReads.{new_in};
    ghost use Rattle.design_text.specs.Steps.{Both};

    ghost Value = { Both };

    ghost view = { λ s. record { text = s.text; names = s.tables } };
}

impl<A: Allocator + Copy> Step<A> {
    /// How many statements were read for it.
    pub(crate) fn reads(&self) -> u64
        ensures { result ≡ self.now.text.reads }
    {
        self.text.reads()
    }

    /// Of a change that was made, the numbers of the statements that went out, in their order.
    pub(crate) fn went(&self) -> &[StmtId]
        ensures { result.now ≡ self.now.text.put }
    {
        self.text.put()
    }

    /// And of those that came in for them.
    pub(crate) fn came(&self) -> &[StmtId]
        ensures { result.now ≡ self.now.text.out }
    {
        self.text.out()
    }

    /// The changes of the pieces and of the tables that it is.
    fn into_parts(self) -> (PreparedText<A>, PreparedTables<A>) {
        let Step { text, tables } = self;
        (text, tables)
    }
}

/// The statements that are kept under some numbers, each read from its piece alone.
pub(crate) fn numbered<'t, A: Allocator + Copy>(
    alloc: A,
    pieces: &'t TextPieces<A>,
    ids: &[StmtId],
) -> Result<Vec<Numbered<'t>, A>, AllocError>
    requires { HavePieces pieces.now.table.slots ids.now }
    ensures { IfOk result (λ v. map numbered_view v.items ≡ records_under pieces.now.table.slots ids.now) }
{
    let Ok(mut statements) = Vec::with_capacity(alloc, ids.len()) else {
        return Err(AllocError);
    };
    for id in ids {
        let statement = kept_statement(pieces, *id);
        let Ok(()) = statements.push(Numbered { id: *id, statement }) else {
            return Err(AllocError);
        };
    }
    Ok(statements)
}

/// Prepares the tables for a change of the pieces that is prepared. It is a fault where what a text has once would stand twice, or
/// UNITS not at all.
fn prepare_tables<A: Allocator + Copy>(
    alloc: A,
    pieces: &TextPieces<A>,
    tables: &mut Tables<A>,
    change: &PreparedText<A>,
) -> Result<PreparedTables<A>, PrepareError>
    requires between { (base : content.Content) × (other : content.Content) × IsBetween pieces.now change.now base other }
    requires tables { AreTablesOf (numbered_records pieces.now) tables.old }
    requires keyed { AreKeyed (numbered_records pieces.now) }
    ensures same { AreTablesOf (numbered_records pieces.now) tables.new }
    ensures lasts { (names : List (List ℕ × Listing)) (base other : List (_ × _)) → prepared.IsBetween tables.old names base other → prepared.IsBetween tables.new names base other }
    ensures between { (base other : content.Content) → IsBetween pieces.now change.now base other → IfOk result (λ t. prepared.IsBetween tables.new t (numbered_records pieces.now) (numbered_records other)) }
    ensures keyed { (base other : content.Content) → IsBetween pieces.now change.now base other → OnOk result (AreKeyed (numbered_records other)) }
    ensures fails { (base other : content.Content) → IsBetween pieces.now change.now base other → IfErr result (λ e. ((e ≡ IsFault) × (AreKeyed (numbered_records other) → ⊥)) ⊎ (e ≡ IsMemory)) }
{
    order_makes_no_difference();
    pieces.statements_are_parted(change);
    let Ok(out) = numbered(alloc, pieces, change.out()) else {
        return Err(PrepareError::Memory);
    };
    let Ok(put) = numbered(alloc, pieces, change.put()) else {
        return Err(PrepareError::Memory);
    };
    match tables.prepare(&out, &put) {
        Ok(prepared) => Ok(prepared),
        Err(design_tables::PrepareError::Duplicate) => Err(PrepareError::Fault),
        Err(design_tables::PrepareError::Memory) => Err(PrepareError::Memory),
    }
}

impl<A: Allocator + Copy> DesignText<A> {
    /// Prepares the change by which cuts of the text are made. What stands stays, whatever the answer is, and so does what else is kept
    /// and where another change leads. It is a fault where the text with the cuts made doesn't read: which one, reading it says.
    pub(crate) fn prepare(
        &mut self,
        alloc: A,
        cuts: &[TextCut<'_>],
    ) -> Result<Step<A>, PrepareError>
        ensures prepares { PreparesCuts (text_of self.old) (map cut_of cuts.now) result self.new }
        ensures still { text_of self.new ≡ text_of self.old }
        ensures records { records_in self.new ≡ records_in self.old }
        ensures kept { StaysKept self.old.pieces.table.slots self.new.pieces.table.slots }
        ensures few { IfOk result (λ s. s.text.reads ≤ new_in (text_of self.old) (cover_of (text_of self.old) (map cut_of cuts.now))) }
        ensures lasts { (change : Both) (text : List ℕ) → LeadsTo self.old change text → LeadsTo self.new change text }
        ensures lasts_too { (change : Both) (records : List (Number × Record)) → LeadsToRecords self.old change records → LeadsToRecords self.new change records }
    {
        records_are_read::<Statement<'_>>();
        keys_are_apart();
        keys_decide();
        fresh_is_once();
        contents_stand_still();
        changes_last();
        self.text_reads();
        self.statements_are_known();
        self.pieces.statements_are_numbered();
        let text = self.pieces.prepare_all(alloc, cuts)?;
        self.pieces.statements_are_parted(&text);
        match prepare_tables(alloc, &self.pieces, &mut self.tables, &text) {
            Ok(tables) => Ok(Step { text, tables }),
            Err(error) => {
                self.unused = Some(text);
                Err(error)
            }
        }
    }

    /// Makes a change that is prepared, which takes no memory. The same change then leads back, and what is kept stays.
    pub(crate) fn commit(&mut self, step: &mut Step<A>)
        requires { (new : List ℕ) × LeadsTo self.old step.old new }
        ensures made { (new : List ℕ) → LeadsTo self.old step.old new → text_of self.new ≡ new }
        ensures back { LeadsTo self.new step.new (text_of self.old) }
        ensures made_too { (records : List (Number × Record)) → LeadsToRecords self.old step.old records → records_in self.new ≡ records }
        ensures back_too { LeadsToRecords self.new step.new (records_in self.old) }
        ensures kept { StaysKept self.old.pieces.table.slots self.new.pieces.table.slots }
        ensures exchanged { IsExchange self.new.pieces.table.slots (records_in self.old) (records_in self.new) (exchanged_by step.new) }
    {
        records_are_read::<Statement<'_>>();
        contents_stand_still();
        changes_last();
        self.text_reads();
        self.pieces.commit(&mut step.text);
        self.tables.commit(&mut step.tables);
        self.pieces.statements_are_kept();
        self.pieces.statements_are_parted(&step.text);
    }

    /// Lets go of a change, with what is kept for it alone. Where other changes lead isn't known from then on.
    pub(crate) fn let_go_of(&mut self, step: Step<A>)
        ensures text { text_of self.new ≡ text_of self.old }
        ensures records { records_in self.new ≡ records_in self.old }
    {
        records_are_read::<Statement<'_>>();
        self.text_reads();
        let (text, tables) = step.into_parts();
        self.pieces.let_go(text);
        self.tables.let_go(tables);
    }

    /// Lets go of what is kept for a change that wasn't prepared to its end.
    pub(crate) fn let_go_unused(&mut self)
        ensures text { text_of self.new ≡ text_of self.old }
        ensures records { records_in self.new ≡ records_in self.old }
    {
        records_are_read::<Statement<'_>>();
        self.text_reads();
        if let Some(text) = self.unused.take() {
            self.pieces.let_go(text);
        }
    }
}
