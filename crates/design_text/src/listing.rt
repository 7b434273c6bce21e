//! The entries of nets that list a component, or a pin of the design, by the tables.

ghost use Rattle.std.specs.Prelude.{◌≡◌, ◌++◌, IfOk, IfSome, OnOk, flat_map, map};
ghost use Rattle.std.specs.List.{list_any};
ghost use Rattle.std.specs.Option.{option_to_list};
ghost use Rattle.design_model.specs.declared.identifier.StmtId.{StmtId as Number};
ghost use Rattle.def_reader.specs.StatementViews.{record_view};
ghost use Rattle.text_pieces.specs.Chunks.{AreOnce};
ghost use Rattle.design_tables.specs.Lookups.{is_number};
ghost use Rattle.design_text.specs.DesignTexts.{design_of};
ghost use Rattle.design_text.specs.FoundOnce.{AreFoundOnce};
ghost use Rattle.design_text.specs.Listings.{HasListing, HasPinListing, ListsOnce, said_under};

use crate::text::DesignText;
use def_reader::statement::Statement;
use design_model::identifier::StmtId;
use design_tables::Numbers;
use std::alloc::{AllocError, Allocator};

/// Whether a number is one of these.
fn is_one_of(ids: &[StmtId], id: StmtId) -> bool
    ensures { result ≡ list_any (is_number id) ids.now }
{
    for other in ids {
        if other.0 == id.0 {
            return true;
        }
    }
    false
}

/// Numbers, each once, unless there are more than `most`.
fn each_once<A: Allocator + Copy>(
    alloc: A,
    numbers: Numbers<'_>,
    most: usize,
) -> Result<Option<Vec<StmtId, A>>, AllocError>
    ensures once { IfOk result (λ found. IfSome found (λ v. AreOnce v.items)) }
    ensures same { IfOk result (λ found. IfSome found (λ v. (id : Number) → list_any (is_number id) v.items ≡ list_any (is_number id) numbers.entry)) }
{
    let mut left = numbers;
    let mut ids = Vec::new(alloc);
    while let Some(id) = left.next() {
        if !is_one_of(&ids, id) {
            if ids.len() == most {
                return Ok(None);
            }
            let Ok(()) = ids.push(id) else {
                return Err(AllocError);
            };
        }
    }
    Ok(Some(ids))
}

impl<A: Allocator + Copy> DesignText<A> {
    /// Puts the statement of a number behind others.
    fn push_found<'t>(
        &'t self,
        id: StmtId,
        statements: &mut Vec<Statement<'t>, A>,
    ) -> Result<(), AllocError>
        ensures { OnOk result (map record_view statements.new.items ≡ map record_view statements.old.items ++ option_to_list (said_under self.entry.now id)) }
    {
        if let Some((statement, _)) = self.found(id) {
            let Ok(()) = statements.push(statement) else {
                return Err(AllocError);
            };
        }
        Ok(())
    }

    /// The statements of some numbers.
    fn all_found(&self, alloc: A, ids: &[StmtId]) -> Result<Vec<Statement<'_>, A>, AllocError>
        ensures { IfOk result (λ v. map record_view v.items ≡ flat_map (λ id. option_to_list (said_under self.entry.now id)) ids.now) }
    {
        let mut statements = Vec::new(alloc);
        for id in ids {
            let Ok(()) = self.push_found(*id, &mut statements) else {
                return Err(AllocError);
            };
        }
        Ok(statements)
    }

    /// The statements of numbers, each once, unless there are more than `most`.
    fn each_found(
        &self,
        alloc: A,
        numbers: Numbers<'_>,
        most: usize,
    ) -> Result<Option<Vec<Statement<'_>, A>>, AllocError>
        ensures { IfOk result (λ found. IfSome found (λ v. AreFoundOnce self.entry.now numbers.entry (map record_view v.items))) }
    {
        let Ok(found) = each_once(alloc, numbers, most) else {
            return Err(AllocError);
        };
        let Some(ids) = found else {
            return Ok(None);
        };
        let Ok(entries) = self.all_found(alloc, &ids) else {
            return Err(AllocError);
        };
        Ok(Some(entries))
    }

    /// The entries of NETS and SPECIALNETS that list a pin of a component by its name, each once, unless there are more than `most`.
    /// They alone are read.
    pub fn entries_listing(
        &self,
        alloc: A,
        component: &[u8],
        most: usize,
    ) -> Result<Option<Vec<Statement<'_>, A>>, AllocError>
        ensures listing { IfOk result (λ found. IfSome found (λ v. HasListing component.now (design_of self.entry.now) (map record_view v.items))) }
        ensures once { IfOk result (λ found. IfSome found (λ v. ListsOnce component.now (design_of self.entry.now) (map record_view v.items))) }
    {
        self.statements_are_known();
        self.design_is_read();
        self.each_found(alloc, self.tables.nets_of(component), most)
    }

    /// The entries of NETS and SPECIALNETS that list the pin of the design of this name, each once, unless there are more than `most`.
    /// They alone are read.
    pub fn entries_listing_pin(
        &self,
        alloc: A,
        pin: &[u8],
        most: usize,
    ) -> Result<Option<Vec<Statement<'_>, A>>, AllocError>
        ensures { IfOk result (λ found. IfSome found (λ v. HasPinListing pin.now (design_of self.entry.now) (map record_view v.items))) }
    {
        self.statements_are_known();
        self.design_is_read();
        self.each_found(alloc, self.tables.nets_of_design_pin(pin), most)
    }
}
