//! The terminals of nets (LEF/DEF 5.8 Language Reference, "Nets").

ghost use Rattle.std.specs.Prelude.{◌≡◌, true, IfSome};
ghost use Rattle.form_meanings.specs.Words.{Gives, next_passes};
ghost use Rattle.statement_model.specs.Form.{read, spell};
ghost use Rattle.def_grammar.specs.Points.{is_open};
ghost use Rattle.def_grammar.specs.Terminals.{is_of_all, is_of_design, is_virtual, synthesized, terminal};
ghost use Rattle.lefdef_tokens.specs.Unseens.{Finds};
ghost use Rattle.lefdef_tokens.specs.Places.{behind};
ghost use Rattle.lefdef_tokens.specs.Views.{IsLater, pieces_of, rest_of};
ghost use Rattle.def_parts.specs.PointViews.{same, with_rest};
ghost use Rattle.statement_reader.specs.PartViews.{left_after, tokens_after};
ghost use Rattle.wire_parts.specs.TerminalViews.{TerminalAt, terminal_view};

use def_parts::points::{is_open, next_is_open};
use lefdef_tokens::{Cursor, Token, is_word};
use statement_reader::parts::{Part, UsualPart};

/// A terminal of a net: whose pin it is, the pin, and whether it is of a synthesized scan chain.
#[derive(Clone, Copy, Drop)]
pub struct Terminal<'t> {
    /// A component, `PIN` for a pin of the design, `VPIN`, or `*` for each component that has the pin.
    pub owner: Token<'t>,
    pub pin: Token<'t>,
    pub is_synthesized: bool,
}

impl<'t> Terminal<'t> {
    /// Whether it is the pin of each component that has one.
    pub fn is_of_all(&self) -> bool
        ensures { result ≡ is_of_all (terminal_view self.now) }
    {
        is_word(self.owner.bytes, b"*")
    }

    /// Whether it is a pin of the design.
    pub fn is_of_design(&self) -> bool
        ensures { result ≡ is_of_design (terminal_view self.now) }
    {
        is_word(self.owner.bytes, b"PIN")
    }

    /// Whether it is a virtual pin, which means nothing.
    pub fn is_virtual(&self) -> bool
        ensures { result ≡ is_virtual (terminal_view self.now) }
    {
        is_word(self.owner.bytes, b"VPIN")
    }
}

/// `[+ SYNTHESIZED]`
#[tactic(auto, unfolding(def_grammar::specs::Terminals::synthesized))]
#[inline(always)]
fn synthesized_at<'t>(cursor: Cursor<'t>) -> Option<(bool, Cursor<'t>)>
    ensures gives { Gives (with_rest same) result (read synthesized (rest_of cursor.entry)) }
    ensures later { IfSome result (λ x. IsLater cursor.entry x.1) }
    ensures left { IfSome result (λ x. pieces_of x.1.tokens ≡ behind (spell synthesized (same x.0)) (pieces_of cursor.entry.tokens)) }
{
    if cursor.next_is_plus() {
        let cursor = cursor.key(b"+")?.key(b"SYNTHESIZED")?;
        Some((true, cursor))
    } else {
        Some((false, cursor))
    }
}

/// `( owner pin [+ SYNTHESIZED] )`
#[tactic(auto, unfolding(def_grammar::specs::Terminals::terminal), using(lefdef_tokens::proofs::PlaceLemmas::behind_append))]
#[inline(always)]
pub fn terminal_at<'t>(cursor: Cursor<'t>) -> Option<(Terminal<'t>, Cursor<'t>)>
    ensures gives { Gives (with_rest terminal_view) result (read terminal (rest_of cursor.entry)) }
    ensures later { IfSome result (λ x. IsLater cursor.entry x.1) }
    ensures left { IfSome result (λ x. pieces_of x.1.tokens ≡ behind (spell terminal (terminal_view x.0)) (pieces_of cursor.entry.tokens)) }
    ensures lent { IfSome result (λ x. TerminalAt (pieces_of cursor.entry.tokens) x.0) }
{
    let (owner, cursor) = cursor.key(b"(")?.place()?;
    let (pin, cursor) = cursor.name()?;
    let (is_synthesized, cursor) = synthesized_at(cursor)?;
    let cursor = cursor.key(b")")?;
    let terminal = Terminal {
        owner,
        pin,
        is_synthesized,
    };
    Some((terminal, cursor))
}

impl<'t> Part<'t> for Terminal<'t> {
    ghost use Rattle.def_grammar.specs.Terminals.{Terminal as TheTerminal};

    ghost Value = { TheTerminal };

    ghost view = { terminal_view };

    ghost lent = { TerminalAt };

    ghost test = { is_open };

    ghost reads = { read terminal };

    ghost spells = { spell terminal };

    ghost spelled = { λ r p e. (terminal.exact.shows r p e).words };

    #[inline(always)]
    fn begins(word: &[u8]) -> bool
        ensures { result ≡ is_open word.now }
    {
        is_open(word)
    }

    #[inline(always)]
    fn read(cursor: Cursor<'t>) -> Option<(Terminal<'t>, Cursor<'t>)>
        ensures gives { Gives (with_rest terminal_view) result (read terminal (rest_of cursor.entry)) }
        ensures later { IfSome result (λ x. IsLater cursor.entry x.1) }
        ensures left { IfSome result (λ x. pieces_of x.1.tokens ≡ behind (spell terminal (terminal_view x.0)) (pieces_of cursor.entry.tokens)) }
        ensures lent { IfSome result (λ x. TerminalAt (pieces_of cursor.entry.tokens) x.0) }
    {
        terminal_at(cursor)
    }
}

impl<'t> UsualPart<'t> for Terminal<'t> {
    #[inline(always)]
    fn skip(cursor: Cursor<'t>) -> Option<Cursor<'t>>
        ensures begins { IfSome result (λ x. next_passes is_open (rest_of cursor.entry) ≡ true) }
        ensures gives { Finds rest_of result (left_after (read terminal (rest_of cursor.entry))) }
        ensures later { IfSome result (λ x. IsLater cursor.entry x) }
        ensures left { Finds (λ x. pieces_of x.tokens) result (tokens_after (spell terminal) (pieces_of cursor.entry.tokens) (read terminal (rest_of cursor.entry))) }
    {
        if !next_is_open(cursor) {
            return None;
        }
        let (_, later) = terminal_at(cursor)?;
        Some(later)
    }
}
