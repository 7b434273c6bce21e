//! Laws of pieces that are chained.

ghost use Rattle.def_grammar.specs.Records.{def};
ghost use Rattle.piece_laws.specs.ChainLaws.{ApartJoins, ChainsJoin, ChainsLead, ChainsPart, ModesJoin};

/// Pieces of a DEF text that lead to where others begin are chained with them.
pub fn chains_join()
    ensures { ChainsJoin def }
{}

/// Pieces of a DEF text that are chained are so in two parts.
pub fn chains_part()
    ensures { ChainsPart def }
{}

/// Where pieces of a DEF text lead is said by what they say.
pub fn chains_lead()
    ensures { ChainsLead def }
{}

/// The modes of records and then others are those of the first, and then those of the others.
pub fn modes_join()
    ensures { ModesJoin def }
{}

/// Pieces and then others stand apart exactly where both do.
pub fn apart_joins()
    ensures { ApartJoins }
{}
