//! Laws of reading pieces, and of making pieces of what is read.

ghost use Rattle.def_grammar.specs.Records.{def};
ghost use Rattle.piece_laws.specs.PieceLaws.{FaultsStand, PiecesAreFound, PiecesAreRead, StatementsArePieces, StatementsEndBeforeBlanks, TailsAreFound, TailsMayEnd};
ghost use Rattle.piece_laws.specs.PlaceLaws.{PiecesAreLocated, TextsAreRead};

/// A DEF text of pieces, and then more that begins apart, is read as what the pieces say, and then as the rest.
pub fn pieces_are_read()
    ensures { PiecesAreRead def }
{}

/// The statements of a DEF text of pieces, and then more, are those of the pieces, each at its place, and then the others.
pub fn pieces_are_located()
    ensures { PiecesAreLocated def }
{}

/// A statement of a DEF text that is read from a position on is a piece by itself.
pub fn statements_are_pieces()
    ensures { StatementsArePieces def }
{}

/// A piece of a DEF text is read wherever it stands, and so by itself.
pub fn pieces_are_found()
    ensures { PiecesAreFound def }
{}

/// A fault of the next statement of some bytes, unless it is that they end too early, stays where more follows.
pub fn faults_stand()
    ensures { FaultsStand def }
{}

/// After a statement of a DEF text that is read from a position on is white space or the end of the text.
pub fn statements_end_before_blanks()
    ensures { StatementsEndBeforeBlanks def }
{}

/// Bytes of a DEF text in which no statement is left, and with which it may end, are a tail.
pub fn tails_are_found()
    ensures { TailsAreFound def }
{}

/// A DEF text may end with a tail.
pub fn tails_may_end()
    ensures { TailsMayEnd def }
{}

/// A DEF text of pieces and a tail is read as what the pieces say, and its statements are those of the pieces.
pub fn texts_are_read()
    ensures { TextsAreRead def }
{}
