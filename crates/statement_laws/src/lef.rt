//! Laws of the statements of a LEF text: those that take a grammar, at that of LEF.

ghost use Rattle.lef_grammar.specs.LefRecords.{lef};
ghost use Rattle.statement_laws.specs.FormLaws.{FormsAreSpelled};
ghost use Rattle.statement_laws.specs.ReadingLaws.{ReadingGoesOn, ReadingJoins};

/// What reads as a statement of a LEF text is what the statement is spelled with, and what it is spelled with reads so.
pub fn lef_forms_are_spelled()
    ensures { FormsAreSpelled lef }
{}

/// The records of a LEF text's tokens and then more are those of the first tokens' statements, and then those of the
/// rest.
pub fn lef_reading_goes_on()
    ensures { ReadingGoesOn lef }
{}

/// Where tokens of a LEF text are whole statements that read, the records of them and then more are theirs, and then
/// those of the rest.
pub fn lef_reading_joins()
    ensures { ReadingJoins lef }
{}
