//! Laws of whole texts: one after the other, where their statements end, and what is between their tokens.

ghost use Rattle.def_grammar.specs.Records.{def};
ghost use Rattle.statement_laws.specs.BlankLaws.{BlanksAreBetween};
ghost use Rattle.statement_laws.specs.BoundaryLaws.{StatementsEndApart};
ghost use Rattle.statement_laws.specs.JoiningLaws.{StatementsOfTextsJoin, TextsJoin};

/// The records of a DEF text of whole statements and then another are those of the first, and then those of the second.
pub fn texts_join()
    ensures { TextsJoin def }
{}

/// The statements of a text and then another are those of the first, and then those of the second.
pub fn statements_of_texts_join()
    ensures { StatementsOfTextsJoin }
{}

/// In a DEF text that reads, each statement ends before white space or where the text does.
pub fn statements_end_apart()
    ensures { StatementsEndApart }
{}

/// In a text without a fault of tokens, each byte outside of the tokens is white space or in a comment.
pub fn blanks_are_between()
    ensures { BlanksAreBetween }
{}
