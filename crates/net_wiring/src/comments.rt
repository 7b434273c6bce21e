//! Whether a comment begins in some bytes.

ghost use Rattle.std.specs.Prelude.{◌≡◌, MatchOption};
ghost use Rattle.edit_rules.specs.NetEdits.{opens_comment};
ghost use Rattle.statement_model.specs.Tokens.{next_open};
ghost use Rattle.statement_model.specs.Tokens.Open.{between, comment};
ghost use Rattle.net_wiring.specs.WiringViews.{bare, open_view};

use lefdef_tokens::is_white;

/// What is open at a byte that stands in no comment.
#[derive(Clone, Copy)]
pub enum Within {
    Between,
    Word,
    /// A string, with its last byte.
    Quotes { last: u8 },
}

/// What a byte between two tokens opens, or `None` where that is a comment.
fn opened_by(byte: u8) -> Option<Within>
    ensures { MatchOption result (bare (next_open 0 between byte) ≡ comment) (λ x. open_view x ≡ bare (next_open 0 between byte)) }
{
    if is_white(byte) {
        Some(Within::Between)
    } else if byte == b'#' {
        None
    } else if byte == b'"' {
        Some(Within::Quotes { last: byte })
    } else {
        Some(Within::Word)
    }
}

/// What is open behind a byte, or `None` where that is a comment.
fn opened_behind(state: Within, byte: u8) -> Option<Within>
    ensures { MatchOption result (bare (next_open 0 (open_view state) byte) ≡ comment) (λ x. open_view x ≡ bare (next_open 0 (open_view state) byte)) }
{
    match state {
        Within::Between => opened_by(byte),
        Within::Word => {
            if is_white(byte) {
                Some(Within::Between)
            } else {
                Some(Within::Word)
            }
        }
        Within::Quotes { last } => {
            if byte == b'"' && last != b'\\' {
                Some(Within::Between)
            } else {
                Some(Within::Quotes { last: byte })
            }
        }
    }
}

/// Whether a comment begins in some bytes.
pub fn opens_comment(bytes: &[u8]) -> bool
    ensures { result ≡ opens_comment between bytes.now }
{
    let mut state = Within::Between;
    for byte in bytes {
        let Some(later) = opened_behind(state, *byte) else {
            return true;
        };
        state = later;
    }
    false
}
