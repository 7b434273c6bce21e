//! Pieces that are let go.

ghost use Rattle.std.specs.Prelude.{◌≡◌};
ghost use Rattle.text_pieces.specs.Content.{text_of};
ghost use Rattle.text_pieces.specs.LettingGo.{AreLetGo, IsLetGo, KeepsStanding, StayFree};
ghost use Rattle.text_pieces.specs.Tables.{IsTable, ids_of, table_of};

use crate::prepared::PreparedText;
use crate::table::PieceTable;
use crate::text::TextPieces;
use design_model::identifier::StmtId;
use std::alloc::Allocator;

impl<A: Allocator> PieceTable<A> {
    /// Lets go of what is kept under a number, unless it stands.
    fn let_go_of(&mut self, id: StmtId)
        requires { IsTable (table_of self.old) }
        ensures keeps { KeepsStanding (table_of self.old) (table_of self.new) }
        ensures gone { IsLetGo (table_of self.new) id }
        ensures free { StayFree (table_of self.old).slots (table_of self.new).slots }
    {
        if self.piece(id).is_some() {
            return;
        }
        let _gone = self.pieces.try_remove(id.0);
    }

    /// Lets go of what is kept under these numbers, but for those that stand.
    pub(crate) fn let_go_all(&mut self, ids: &[StmtId])
        requires { IsTable (table_of self.old) }
        ensures keeps { KeepsStanding (table_of self.old) (table_of self.new) }
        ensures gone { AreLetGo (table_of self.new) ids.now }
    {
        for id in ids {
            self.let_go_of(*id);
        }
    }
}

impl<A: Allocator + Copy> TextPieces<A> {
    /// Lets go of a change that isn't needed any more, whether it was made or not, with what is kept for it alone: the pieces that
    /// came in by a change that isn't made, or went out by one that is. What stands stays as it is. Where other changes lead that
    /// are kept isn't known from then on, and the numbers may be given again. It takes no memory.
    pub fn let_go(&mut self, change: PreparedText<A>)
        ensures numbers { ids_of self.new.table ≡ ids_of self.old.table }
        ensures text { text_of self.new ≡ text_of self.old }
        ensures keeps { KeepsStanding self.old.table self.new.table }
        ensures gone { AreLetGo self.new.table change.put }
    {
        self.table.let_go_all(change.put());
    }
}
