//! Laws of the statements of tokens and of reading them.

ghost use Rattle.def_grammar.specs.Records.{def};
ghost use Rattle.statement_laws.specs.ReadingLaws.{ReadingBySteps, ReadingGoesOn, ReadingJoins, RecordsJoin, StatementsBySteps};
ghost use Rattle.statement_laws.specs.StatementLaws.{FirstOfAll, StatementsJoin};

/// The statements of tokens and then more are those of the first, and then those of the rest with what was left over.
pub fn statements_join()
    ensures { StatementsJoin }
{}

/// The first statement is the first of all.
pub fn first_of_all()
    ensures { FirstOfAll }
{}

/// The whole statements of a DEF text are read one by one.
pub fn statements_by_steps()
    ensures { StatementsBySteps def }
{}

/// The records of a DEF text's tokens are those of its statements one by one, and then its end.
pub fn reading_by_steps()
    ensures { ReadingBySteps def }
{}

/// The records of a DEF text's tokens and then more are those of the first tokens' statements, and then those of the
/// rest.
pub fn reading_goes_on()
    ensures { ReadingGoesOn def }
{}

/// Where tokens are whole statements that read, the records of them and then more are theirs, and then those of the
/// rest.
pub fn reading_joins()
    ensures { ReadingJoins def }
{}

/// The records of lists of statements, one after the other, are those of the first, and then those of the rest.
pub fn records_join()
    ensures { RecordsJoin def }
{}
