//! What is told of the statements of a text as they are read.

ghost use Rattle.std.specs.Prelude.{◌∷◌, ◌++◌, [], List, OnOk};
ghost use Rattle.def_grammar.specs.Records.{Record};
ghost use Rattle.def_reader.specs.StatementViews.{record_view};
ghost use Rattle.design_model.specs.declared.identifier.StmtId.{StmtId as TheStmtId};

use def_reader::statement::Statement;
use design_model::identifier::StmtId;
use std::alloc::AllocError;

/// Something that is told each statement of a text with its number, in their order.
pub trait Told {
    ghost says: { Self → List (TheStmtId × Record) → Type 0 };

    /// One more statement. Where memory is refused, what is told from then on says nothing.
    fn tell(&mut self, id: StmtId, statement: &Statement<'_>) -> Result<(), AllocError>
        ensures { (xs : List (TheStmtId × Record)) → says self.old xs → OnOk result (says self.new (xs ++ (id, record_view statement.now) ∷ [])) };
}

/// What nothing is to be known of.
#[derive(Drop)]
pub(crate) struct Untold;

impl Told for Untold {
    ghost says = { λ _ _. Unit {0} };

    fn tell(&mut self, _id: StmtId, _statement: &Statement<'_>) -> Result<(), AllocError> {
        Ok(())
    }
}
