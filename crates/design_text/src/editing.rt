//! Edits of the text of a design.

ghost use Rattle.std.specs.Prelude.{◌≡◌, ◌+◌, ◌≤◌, ◌∷◌, [], Err, IfOk, IfSome, None, OnErr, false, length, map};
ghost use Rattle.design_model.specs.declared.fault.Fault as fault;
ghost use Rattle.def_grammar.specs.Records.{read_def};
ghost use Rattle.edit_rules.specs.Edits.{change_of, is_long};
ghost use Rattle.edit_rules.specs.Runs.{new_text};
ghost use Rattle.splicing_laws.specs.KeepingLaws.{AreInOrder};
ghost use Rattle.statement_model.specs.Cuts.{with_cuts};
ghost use Rattle.text_pieces.specs.Covering.{cover_of, cut_of};
ghost use Rattle.text_pieces.specs.declared.prepared.PrepareError.TheVariants.{Memory as IsMemory};
ghost use Rattle.def_splice.specs.SpliceViews.{cut_view};
ghost use Rattle.design_text.specs.DesignTexts.{text_of};
ghost use Rattle.design_text.specs.Exchanges.{AreExchanges, records_in};
ghost use Rattle.design_text.specs.FewReads.{ReadsFew, most_reads, new_in};
ghost use Rattle.design_text.specs.Editing.{EditsText, IsRefused, KeepsTheRest, MakesCuts, MakesTwo, ReadsEdited, ReplacesIn};

use crate::made::{Made, Steps};
use crate::replacing::replaced_refusal;
use crate::text::DesignText;
use cell_library::library::Library;
use def_splice::splices::looked_up_splices;
use edit_laws::editing::{edits_are_applied, edits_keep_the_rest};
use edit_model::edit::{Edit, EditCode, EditRefusal, Splice};
use std::alloc::{AllocError, Allocator};
use text_pieces::prepared::{PrepareError, TextCut};

/// The cuts that splices are.
fn text_cuts<'s, A: Allocator + Copy>(
    alloc: A,
    splices: &'s [Splice<A>],
) -> Result<Vec<TextCut<'s>, A>, AllocError>
    ensures { IfOk result (λ v. map cut_of v.items ≡ map cut_view splices.now) }
{
    let Ok(mut cuts) = Vec::with_capacity(alloc, splices.len()) else {
        return Err(AllocError);
    };
    for splice in splices {
        let cut = TextCut {
            lo: splice.lo,
            hi: splice.hi,
            put: splice.put.as_slice(),
        };
        let Ok(()) = cuts.push(cut) else {
            return Err(AllocError);
        };
    }
    Ok(cuts)
}

/// What is answered of cuts that aren't prepared: nothing, or want of memory.
fn not_made<A: Allocator + Copy>(error: PrepareError) -> Result<Option<Made<A>>, AllocError>
    ensures { IfOk result (λ made. (made ≡ None) × (error ≡ IsMemory → ⊥)) }
{
    match error {
        PrepareError::Memory => Err(AllocError),
        PrepareError::Range | PrepareError::TooLong | PrepareError::Fault => Ok(None),
    }
}

impl<A: Allocator + Copy> DesignText<A> {
    /// Makes cuts as one change, and says how many statements were read for it and which went and came; or leaves the text as it was.
    /// It is a fault where the text with the cuts made doesn't read.
    fn make(&mut self, alloc: A, cuts: &[TextCut<'_>]) -> Result<Made<A>, PrepareError>
        ensures makes { MakesCuts (text_of self.old) (map cut_of cuts.now) result (text_of self.new) }
        ensures few { IfOk result (λ made. made.reads ≤ new_in (text_of self.old) (cover_of (text_of self.old) (map cut_of cuts.now))) }
        ensures exchanged { IfOk result (λ made. AreExchanges self.new.pieces.table.slots (records_in self.old) made.exchanges (records_in self.new)) }
        ensures same { OnErr result (records_in self.new ≡ records_in self.old) }
    {
        match self.prepare(alloc, cuts) {
            Ok(mut step) => {
                let reads = step.reads();
                self.commit(&mut step);
                let steps = Steps::One(step);
                Ok(Made { reads, steps })
            }
            Err(error) => {
                self.let_go_unused();
                Err(error)
            }
        }
    }

    /// Makes two cuts one after the other, the later one first, so that no statement between them is read, and says how many were and
    /// which went and came; or leaves the text as it was: there is nothing where it doesn't read with the later one alone, or with both.
    fn make_two(
        &mut self,
        alloc: A,
        first: TextCut<'_>,
        last: TextCut<'_>,
    ) -> Result<Option<Made<A>>, AllocError>
        requires { AreInOrder 0 (cut_of first ∷ cut_of last ∷ []) (length (text_of self.old)) }
        ensures makes { MakesTwo (text_of self.old) (cut_of first.entry) (cut_of last.entry) result (text_of self.new) }
        ensures few { IfOk result (λ made. IfSome made (λ m. m.reads ≤ new_in (text_of self.old) (cut_of last.entry) + new_in (with_cuts (cut_of last.entry ∷ []) (text_of self.old)) (cut_of first.entry))) }
        ensures exchanged { IfOk result (λ made. IfSome made (λ m. AreExchanges self.new.pieces.table.slots (records_in self.old) m.exchanges (records_in self.new))) }
        ensures same { IfOk result (λ made. made ≡ None → records_in self.new ≡ records_in self.old) }
        ensures refused { OnErr result (records_in self.new ≡ records_in self.old) }
    {
        let mut later = match self.prepare(alloc, &[last]) {
            Ok(step) => step,
            Err(error) => {
                self.let_go_unused();
                return not_made(error);
            }
        };
        let last_reads = later.reads();
        self.commit(&mut later);
        match self.prepare(alloc, &[first]) {
            Ok(mut step) => {
                let first_reads = step.reads();
                self.commit(&mut step);
                let reads = last_reads.saturating_add(first_reads);
                let steps = Steps::Two(later, step);
                Ok(Some(Made { reads, steps }))
            }
            Err(error) => {
                self.commit(&mut later);
                self.let_go_of(later);
                self.let_go_unused();
                not_made(error)
            }
        }
    }

    /// Makes cuts that stand in order; two of them apart, if the text reads between.
    fn make_apart(&mut self, alloc: A, cuts: &[TextCut<'_>]) -> Result<Made<A>, PrepareError>
        requires { AreInOrder 0 (map cut_of cuts.now) (length (text_of self.old)) }
        ensures makes { MakesCuts (text_of self.old) (map cut_of cuts.now) result (text_of self.new) }
        ensures few { IfOk result (λ made. made.reads ≤ most_reads (text_of self.old) (map cut_of cuts.now)) }
        ensures exchanged { IfOk result (λ made. AreExchanges self.new.pieces.table.slots (records_in self.old) made.exchanges (records_in self.new)) }
        ensures same { OnErr result (records_in self.new ≡ records_in self.old) }
    {
        match cuts {
            [] => Ok(Made {
                reads: 0,
                steps: Steps::Zero,
            }),
            [first, last] => match self.make_two(alloc, *first, *last) {
                Ok(Some(made)) => Ok(made),
                Ok(None) => {
                    let made = self.make(alloc, cuts);
                    self.text_reads();
                    made
                }
                Err(_) => Err(PrepareError::Memory),
            },
            _ => self.make(alloc, cuts),
        }
    }

    /// Makes the cuts that splices are, which stand in order.
    fn make_splices(&mut self, alloc: A, splices: &[Splice<A>]) -> Result<Made<A>, PrepareError>
        requires { AreInOrder 0 (map cut_view splices.now) (length (text_of self.old)) }
        ensures makes { MakesCuts (text_of self.old) (map cut_view splices.now) result (text_of self.new) }
        ensures few { IfOk result (λ made. made.reads ≤ most_reads (text_of self.old) (map cut_view splices.now)) }
        ensures exchanged { IfOk result (λ made. AreExchanges self.new.pieces.table.slots (records_in self.old) made.exchanges (records_in self.new)) }
        ensures same { OnErr result (records_in self.new ≡ records_in self.old) }
    {
        let Ok(cuts) = text_cuts(alloc, splices) else {
            return Err(PrepareError::Memory);
        };
        self.make_apart(alloc, &cuts)
    }

    /// Makes an edit, and says how many statements were read for the new text and which went and came; or refuses it and leaves the
    /// text as it was.
    pub fn edit(
        &mut self,
        alloc: A,
        library: &Library<'_, A>,
        edit: &Edit<'_>,
    ) -> Result<Made<A>, EditRefusal>
        ensures edits { EditsText library.now (text_of self.old) (change_of edit.now) result (text_of self.new) }
        ensures applied { IfOk result (λ _. ReadsEdited (text_of self.old) (change_of edit.now) (text_of self.new)) }
        ensures keeps { IfOk result (λ _. KeepsTheRest library.now (text_of self.old) (change_of edit.now) (text_of self.new)) }
        ensures few { IfOk result (λ made. ReadsFew library.now (text_of self.old) (change_of edit.now) made.reads) }
        ensures exchanged { IfOk result (λ made. AreExchanges self.new.pieces.table.slots (records_in self.old) made.exchanges (records_in self.new)) }
        ensures same { OnErr result (records_in self.new ≡ records_in self.old) }
    {
        edits_are_applied();
        edits_keep_the_rest();
        self.text_reads();
        let splices = looked_up_splices(alloc, library, self, edit)?;
        match self.make_splices(alloc, splices.as_slice()) {
            Ok(made) => Ok(made),
            // The cuts of an edit stand in order, and the text with them made reads: what is left is want of memory.
            Err(_) => Err(EditRefusal::Memory),
        }
    }

    /// Why a text doesn't read in which bytes take the place of those from `lo` up to `hi`, or want of memory.
    fn refusal(&self, alloc: A, lo: usize, hi: usize, put: &[u8]) -> EditRefusal
        requires order { lo ≤ hi }
        requires within { hi ≤ length (text_of self.now) }
        requires short { is_long (new_text (text_of self.now) lo hi put.now) ≡ false }
        requires fault { (f : fault.Fault) × (read_def (new_text (text_of self.now) lo hi put.now) ≡ Err f) }
        ensures { IsRefused (text_of self.now) lo hi put.now result }
    {
        self.text_reads();
        let Ok(text) = self.text(alloc) else {
            return EditRefusal::Memory;
        };
        replaced_refusal(alloc, self.tables.hash_builder(), &text, lo, hi, put)
    }

    /// Puts bytes in the place of those from `lo` up to `hi`, and says how many statements were read for the new text and which went and
    /// came; or refuses it and leaves the text as it was.
    pub fn replace(
        &mut self,
        alloc: A,
        lo: usize,
        hi: usize,
        put: &[u8],
    ) -> Result<Made<A>, EditRefusal>
        ensures replaces { ReplacesIn (text_of self.old) lo hi put.now result (text_of self.new) }
        ensures exchanged { IfOk result (λ made. AreExchanges self.new.pieces.table.slots (records_in self.old) made.exchanges (records_in self.new)) }
        ensures same { OnErr result (records_in self.new ≡ records_in self.old) }
        ensures few { IfOk result (λ made. made.reads ≤ new_in (text_of self.old) (record { lo = lo; hi = hi; put = put.now })) }
    {
        if lo > hi || hi > self.pieces.len() {
            return Err(EditRefusal::Refused(EditCode::Range));
        }
        if !self.pieces.fits(lo, hi, put.len()) {
            return Err(EditRefusal::Refused(EditCode::TooLong));
        }
        match self.make(alloc, &[TextCut { lo, hi, put }]) {
            Ok(made) => {
                self.text_reads();
                Ok(made)
            }
            Err(PrepareError::Memory) => Err(EditRefusal::Memory),
            Err(PrepareError::Fault) => Err(self.refusal(alloc, lo, hi, put)),
            Err(_) => unreachable!(),
        }
    }
}
