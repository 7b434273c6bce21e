//! Laws of the tokens of a text with other bytes put in.

ghost use Rattle.splicing_laws.specs.SplicingLaws.{TokensArePut, TokensBegin, TokensEnd};

/// Up to the place of a token a text has the tokens before it, whatever stands there.
pub fn tokens_begin()
    ensures { TokensBegin }
{}

/// Up to the end of a token it has that one too, where what stands there is apart from it.
pub fn tokens_end()
    ensures { TokensEnd }
{}

/// Bytes that are whole tokens, and then a text that can't be glued to them, have the words of both.
pub fn tokens_are_put()
    ensures { TokensArePut }
{}
