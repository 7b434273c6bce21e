//! What the statements of a block say of each kind: the first that says it counts.

ghost use Rattle.std.specs.Prelude.{◌≡◌, List, Option, [], ℕ};
ghost use Rattle.std.specs.List.{cons_option, filter_map};
ghost use Rattle.lef_grammar.specs.LefRecords.{LefRecord};
ghost use Rattle.lef_reader.specs.StatementViews.{lef_view};
ghost use Rattle.cell_library.specs.Records.{records_view};

use lef_reader::statement::LefStatement;

/// What is noted of the statements of a block with a name. They are noted from the last to the first, so that each takes the
/// place of later ones.
pub(crate) trait Noted<'l>: Sized + Drop {
    ghost Part: { Type 0 };

    ghost Said: { Type 0 };

    ghost part: { LefRecord → Option Part };

    ghost view: { List ℕ × Self → Said };

    ghost says: { List ℕ × List Part → Said };

    /// What no statement says.
    fn nothing() -> Self
        ensures { (name : List ℕ) → view (name, result) ≡ says (name, []) };

    /// Notes the statement before those that were noted.
    fn note(&mut self, statement: &LefStatement<'l>)
        ensures { (name : List ℕ) (later : List Part) → view (name, self.old) ≡ says (name, later) → view (name, self.new) ≡ says (name, cons_option (part (lef_view statement.now)) later) };
}

/// What these statements say.
pub(crate) fn note_all<'l, N: Noted<'l>>(inner: &[LefStatement<'l>]) -> N
    ensures { (name : List ℕ) → N.view (name, result) ≡ N.says (name, filter_map N.part (records_view inner.now)) }
{
    let mut noted = N::nothing();
    for place in (0..inner.len()).rev() {
        noted.note(&inner[place]);
    }
    noted
}
