//! Laws of the forms of whole statements.

ghost use Rattle.def_grammar.specs.Records.{def};
ghost use Rattle.statement_laws.specs.FormLaws.{FormsAreSpelled};

/// What reads as a statement of a DEF text is what the statement is spelled with, and what it is spelled with reads so.
pub fn def_forms_are_spelled()
    ensures { FormsAreSpelled def }
{}
