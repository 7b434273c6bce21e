//! The words of the header of a VIA or a VIARULE behind its second token, and the fault behind them.

ghost use Rattle.std.specs.Prelude.{◌≡◌, ◌≤◌, length};
ghost use Rattle.std.specs.Option.{option_map};
ghost use Rattle.statement_model.specs.Tokens.{left_from};
ghost use Rattle.lef_grammar.specs.HeaderWords.{after_header_word, fault_behind, header_goes_on};
ghost use Rattle.lef_grammar.specs.LefRecords.{first_fault, header_words};
ghost use Rattle.lef_reader.specs.BlockViews.{block_view};
ghost use Rattle.lef_reader.specs.HeaderViews.{header_words_view, or_first_fault};

use crate::block::Block;
use crate::kept_blocks::RuleHeader;
use crate::via_block::is_via_word;
use design_model::fault::Fault;
use lefdef_tokens::{is_word, token_at};

/// Which words may still come in a header.
#[derive(Clone, Copy, Drop)]
pub(crate) enum HeaderWords {
    Via,
    GeneratingRule(RuleHeader),
}

impl HeaderWords {
    /// Those behind the second token of a statement in a block, by its first token, where it is such a header.
    fn of(block: Block<'_>, first: &[u8]) -> Option<HeaderWords>
        ensures { option_map header_words_view result ≡ header_words (block_view block.entry) first.now }
    {
        match block {
            Block::Outermost | Block::Rule(_) if is_word(first, b"VIA") => Some(HeaderWords::Via),
            Block::Outermost if is_word(first, b"VIARULE") => Some(HeaderWords::GeneratingRule(
                RuleHeader::GenerateOrDefault,
            )),
            _ => None,
        }
    }

    /// Whether a word is one of these.
    fn goes_on(self, word: &[u8]) -> bool
        ensures { result ≡ header_goes_on (header_words_view self) word.now }
    {
        match self {
            HeaderWords::Via => is_via_word(word),
            HeaderWords::GeneratingRule(header) => header.continues(word),
        }
    }

    /// Which may come behind one of these.
    fn after(self, word: &[u8]) -> HeaderWords
        ensures { header_words_view result ≡ after_header_word (header_words_view self) word.now }
    {
        match self {
            HeaderWords::Via => HeaderWords::Via,
            HeaderWords::GeneratingRule(header) => HeaderWords::GeneratingRule(header.after_word(
                word,
            )),
        }
    }

    /// The fault of the tokens from a position on, where these words alone stand before it.
    #[tactic(auto, unfolding(lef_grammar::specs::HeaderWords::fault_behind))]
    fn fault_behind(self, text: &[u8], pos: usize) -> Option<Fault>
        requires { pos ≤ length text.now }
        ensures { result ≡ fault_behind (header_words_view self) (left_from text.now pos).pieces (left_from text.now pos).end }
    {
        let mut words = self;
        let mut at = pos;
        loop {
            match token_at(text, at) {
                Err(fault) => return Some(fault),
                Ok(Some((token, after))) if words.goes_on(token.bytes) => {
                    words = words.after(token.bytes);
                    at = after;
                }
                Ok(_) => return None,
            }
        }
    }
}

/// The fault of a statement that begins from a position on and has this one: where it is a header that goes on up to a fault
/// of the tokens, that comes first.
fn first_fault(block: Block<'_>, text: &[u8], pos: usize, fault: Fault) -> Fault
    requires { pos ≤ length text.now }
    ensures { result ≡ first_fault (block_view block.entry) (left_from text.now pos).pieces (left_from text.now pos).end fault }
{
    let Ok(Some((first, second))) = token_at(text, pos) else {
        return fault;
    };
    let Some(words) = HeaderWords::of(block, first.bytes) else {
        return fault;
    };
    let Ok(Some((_, third))) = token_at(text, second) else {
        return fault;
    };
    words.fault_behind(text, third).unwrap_or(fault)
}

/// What was found of the statement from a position on, with its first fault.
pub(crate) fn with_first_fault<T>(
    block: Block<'_>,
    text: &[u8],
    pos: usize,
    found: Result<T, Fault>,
) -> Result<T, Fault>
    requires { pos ≤ length text.now }
    ensures { result ≡ or_first_fault (block_view block.entry) (left_from text.now pos) found }
{
    match found {
        Ok(found) => Ok(found),
        Err(fault) => Err(first_fault(block, text, pos, fault)),
    }
}
