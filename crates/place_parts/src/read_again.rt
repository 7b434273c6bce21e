//! Statements with many parts, by where they stand. A list of statements keeps these in the place of the parts, which are read
//! again when they are asked for: so each of its elements is small.

ghost use Rattle.std.specs.Prelude.{◌≡◌, true, is_some};
ghost use Rattle.statement_model.specs.Form.{read, spell};
ghost use Rattle.def_grammar.specs.Blockages.{blockage_form};
ghost use Rattle.def_grammar.specs.Regions.{region_form};
ghost use Rattle.def_grammar.specs.Rows.{row_statement};
ghost use Rattle.lefdef_tokens.specs.Views.{rest_of};

use crate::blockages::{BlockageEntry, blockage_entry_at};
use crate::regions::{RegionParts, region_at};
use crate::rows::{RowParts, row_at};
use lefdef_tokens::Cursor;

/// An entry of REGIONS, by where it stands.
#[derive(Clone, Copy)]
pub struct RegionAt<'t> {
    cursor: Cursor<'t>,
    ghost there: { is_some (read region_form (rest_of cursor)) ≡ true },
}

/// An entry of BLOCKAGES, by where it stands.
#[derive(Clone, Copy)]
pub struct BlockageAt<'t> {
    cursor: Cursor<'t>,
    ghost there: { is_some (read blockage_form (rest_of cursor)) ≡ true },
}

/// A row, by where it stands, after `ROW`.
#[derive(Clone, Copy)]
pub struct RowAt<'t> {
    cursor: Cursor<'t>,
    ghost there: { is_some (read row_statement (rest_of cursor)) ≡ true },
}

impl<'t> RegionAt<'t> {
    ghost use Rattle.std.specs.Prelude.{IfSome};
    ghost use Rattle.form_meanings.specs.Words.{Gives};
    ghost use Rattle.lefdef_tokens.specs.Places.{behind};
    ghost use Rattle.lefdef_tokens.specs.Views.{IsLater, pieces_of};
    ghost use Rattle.def_parts.specs.PointViews.{with_rest};
    ghost use Rattle.place_parts.specs.AgainViews.{region_at_view, RegionBegins};
    ghost use Rattle.place_parts.specs.RegionViews.{region_view, RegionPartsAt};

    /// The region that comes next.
    #[inline(never)]
    pub fn read(cursor: Cursor<'t>) -> Option<(RegionAt<'t>, Cursor<'t>)>
        ensures gives { Gives (with_rest region_at_view) result (read region_form (rest_of cursor.entry)) }
        ensures later { IfSome result (λ x. IsLater cursor.entry x.1) }
        ensures left { IfSome result (λ x. pieces_of x.1.tokens ≡ behind (spell region_form (region_at_view x.0)) (pieces_of cursor.entry.tokens)) }
        ensures lent { IfSome result (λ x. RegionBegins (pieces_of cursor.entry.tokens) x.0) }
    {
        let (_, later) = or_none!(region_at(cursor));
        Some((RegionAt { cursor }, later))
    }

    /// Its parts.
    pub fn parts(&self) -> RegionParts<'t>
        ensures gives { region_view result ≡ region_at_view self.now }
        ensures lent { RegionPartsAt (pieces_of self.now.cursor.tokens) result }
    {
        let Some((parts, _)) = region_at(self.cursor) else {
            unreachable!()
        };
        parts
    }
}

impl<'t> BlockageAt<'t> {
    ghost use Rattle.std.specs.Prelude.{IfSome};
    ghost use Rattle.form_meanings.specs.Words.{Gives};
    ghost use Rattle.lefdef_tokens.specs.Places.{behind};
    ghost use Rattle.lefdef_tokens.specs.Views.{IsLater, pieces_of};
    ghost use Rattle.def_parts.specs.PointViews.{with_rest};
    ghost use Rattle.place_parts.specs.AgainViews.{blockage_at_view, BlockageBegins};
    ghost use Rattle.place_parts.specs.BlockageViews.{blockage_entry_view, BlockageEntryAt};

    /// The entry that comes next.
    #[inline(never)]
    pub fn read(cursor: Cursor<'t>) -> Option<(BlockageAt<'t>, Cursor<'t>)>
        ensures gives { Gives (with_rest blockage_at_view) result (read blockage_form (rest_of cursor.entry)) }
        ensures later { IfSome result (λ x. IsLater cursor.entry x.1) }
        ensures left { IfSome result (λ x. pieces_of x.1.tokens ≡ behind (spell blockage_form (blockage_at_view x.0)) (pieces_of cursor.entry.tokens)) }
        ensures lent { IfSome result (λ x. BlockageBegins (pieces_of cursor.entry.tokens) x.0) }
    {
        let (_, later) = or_none!(blockage_entry_at(cursor));
        Some((BlockageAt { cursor }, later))
    }

    /// Its parts.
    pub fn parts(&self) -> BlockageEntry<'t>
        ensures gives { blockage_entry_view result ≡ blockage_at_view self.now }
        ensures lent { BlockageEntryAt (pieces_of self.now.cursor.tokens) result }
    {
        let Some((entry, _)) = blockage_entry_at(self.cursor) else {
            unreachable!()
        };
        entry
    }
}

impl<'t> RowAt<'t> {
    ghost use Rattle.std.specs.Prelude.{IfSome};
    ghost use Rattle.form_meanings.specs.Words.{Gives};
    ghost use Rattle.lefdef_tokens.specs.Places.{behind};
    ghost use Rattle.lefdef_tokens.specs.Views.{IsLater, pieces_of};
    ghost use Rattle.def_parts.specs.PointViews.{with_rest};
    ghost use Rattle.place_parts.specs.AgainViews.{row_at_view, RowBegins};
    ghost use Rattle.place_parts.specs.RowViews.{row_view, RowPartsAt};

    /// The row that comes next.
    #[inline(never)]
    pub fn read(cursor: Cursor<'t>) -> Option<(RowAt<'t>, Cursor<'t>)>
        ensures gives { Gives (with_rest row_at_view) result (read row_statement (rest_of cursor.entry)) }
        ensures later { IfSome result (λ x. IsLater cursor.entry x.1) }
        ensures left { IfSome result (λ x. pieces_of x.1.tokens ≡ behind (spell row_statement (row_at_view x.0)) (pieces_of cursor.entry.tokens)) }
        ensures lent { IfSome result (λ x. RowBegins (pieces_of cursor.entry.tokens) x.0) }
    {
        let (_, later) = or_none!(row_at(cursor));
        Some((RowAt { cursor }, later))
    }

    /// Its parts.
    pub fn parts(&self) -> RowParts<'t>
        ensures gives { row_view result ≡ row_at_view self.now }
        ensures lent { RowPartsAt (pieces_of self.now.cursor.tokens) result }
    {
        let Some((parts, _)) = row_at(self.cursor) else {
            unreachable!()
        };
        parts
    }
}
