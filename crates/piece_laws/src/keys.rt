//! Laws of what a text says once, apart from what its statements are.

ghost use Rattle.def_grammar.specs.Records.{def};
ghost use Rattle.piece_laws.specs.KeyLaws.{FreshIsOnce, KeysAreApart, KeysDecide};

/// A DEF text that reads does so without its keys, none of them comes again, and none is lacking.
pub fn keys_are_apart()
    ensures { KeysAreApart def }
{}

/// A DEF text that reads without its keys, of which none comes again and none is lacking, reads.
pub fn keys_decide()
    ensures { KeysDecide def }
{}

/// Of keys one after the other none comes again exactly where each stands at most once, in whatever order.
pub fn fresh_is_once()
    ensures { FreshIsOnce }
{}
