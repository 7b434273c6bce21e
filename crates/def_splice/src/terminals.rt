//! The terminals that an entry of NETS or SPECIALNETS lists, and how many of its tokens stand before their end, before one of them,
//! and are its own.

ghost use Rattle.std.specs.Prelude.{◌≡◌, ◌≤◌, ◌+◌, [], List, length, true, false, IfSome, MatchOption};
ghost use Rattle.std.specs.List.{list_any};
ghost use Rattle.form_meanings.specs.Meaning.{spell_all};
ghost use Rattle.statement_model.specs.Form.{spell};
ghost use Rattle.statement_model.specs.Tokens as definitions;
ghost use Rattle.def_grammar.specs.Terminals.{terminal};
ghost use Rattle.lefdef_tokens.specs.Places.{behind, past};
ghost use Rattle.lefdef_tokens.specs.Views.{pieces_of, words_of};
ghost use Rattle.statement_reader.specs.PartViews.{PartsAt};
ghost use Rattle.def_reader.specs.EntryViews.{EntryAt, entry_view};
ghost use Rattle.edit_rules.specs.NetEdits.{before_terminal, front_of, is_terminal, lists, terminals_of};
ghost use Rattle.wire_parts.specs.TerminalViews.{terminal_view, terminals_of as terminals_left};
ghost use Rattle.def_splice.specs.NetViews.{tokens_taken, IsAround};

use def_reader::entry::Entry;
use lefdef_tokens::{TokenRun, is_word};
use statement_reader::parts::Parts;
use wire_parts::nets::NetEntry;
use wire_parts::terminals::Terminal;

/// Whether a terminal is this pin of this owner, listed by name.
fn is_terminal(terminal: &Terminal<'_>, owner: &[u8], pin: &[u8]) -> bool
    ensures { result ≡ is_terminal owner.now pin.now (terminal_view terminal.now) }
{
    !(terminal.is_of_all() | terminal.is_virtual())
        & is_word(terminal.owner.bytes, owner)
        & is_word(terminal.pin.bytes, pin)
}

/// How many tokens are left before the first of some terminals that is this one, and behind it.
fn tokens_around<'t>(
    terminals: Parts<'t, Terminal<'t>>,
    owner: &[u8],
    pin: &[u8],
) -> Option<(usize, usize)>
    ensures { MatchOption result (list_any (is_terminal owner.now pin.now) (terminals_left terminals.entry) ≡ false) (λ x. IsAround owner.now pin.now (terminals_left terminals.entry) (length (words_of terminals.entry.cursor.tokens)) x.0 x.1) }
{
    let mut left = terminals;
    let mut before = left.cursor.len();
    while let Some(terminal) = left.next() {
        let behind = left.cursor.len();
        if is_terminal(&terminal, owner, pin) {
            return Some((before, behind));
        }
        before = behind;
    }
    None
}

/// The terminals of an entry, and how many tokens are left behind them. Entries of other sections, and those of MUSTJOIN, have
/// none.
fn terminals_in<'t>(entry: &Entry<'t>) -> Option<(Parts<'t, Terminal<'t>>, usize)>
    ensures gives { MatchOption result (terminals_of (entry_view entry.now) ≡ []) (λ x. terminals_of (entry_view entry.now) ≡ terminals_left x.0) }
    ensures lent { (ps : List definitions.Token) → EntryAt ps entry.now → IfSome result (λ x. PartsAt (past 2 ps) x.0 × (x.1 ≡ length (behind (spell_all (spell terminal) (terminals_left x.0)) (past 2 ps)))) }
{
    match entry {
        Entry::Net(NetEntry::Net(net)) => Some((net.terminals.again(), net.clauses.cursor.len())),
        Entry::SpecialNet(net) => Some((net.terminals.again(), net.clauses.cursor.len())),
        _ => None,
    }
}

/// Whether an entry lists this pin of this owner by name.
pub fn lists(entry: &Entry<'_>, owner: &[u8], pin: &[u8]) -> bool
    ensures { result ≡ lists owner.now pin.now (entry_view entry.now) }
{
    match terminals_in(entry) {
        Some((terminals, _)) => tokens_around(terminals, owner, pin).is_some(),
        None => false,
    }
}

/// How many tokens of an entry stand before the end of its terminals.
pub fn tokens_to_end<'t>(entry: &Entry<'t>, tokens: TokenRun<'t>) -> usize
    requires lent { EntryAt (pieces_of tokens) entry.now }
    requires within { front_of (terminals_of (entry_view entry.now)) ≤ length (words_of tokens) }
    ensures { result ≡ front_of (terminals_of (entry_view entry.now)) }
{
    match terminals_in(entry) {
        Some((_, left)) => tokens.len() - left,
        None => 2,
    }
}

/// How many tokens of an entry stand before the first of its terminals that is this one, and are its own.
pub fn terminal_tokens<'t>(
    entry: &Entry<'t>,
    tokens: TokenRun<'t>,
    owner: &[u8],
    pin: &[u8],
) -> Option<(usize, usize)>
    requires { EntryAt (pieces_of tokens) entry.now }
    ensures listed { MatchOption result (lists owner.now pin.now (entry_view entry.now) ≡ false) (λ x. lists owner.now pin.now (entry_view entry.now) ≡ true) }
    ensures before { IfSome result (λ x. x.0 ≡ front_of (before_terminal owner.now pin.now (terminals_of (entry_view entry.now)))) }
    ensures taken { IfSome result (λ x. x.1 ≡ tokens_taken owner.now pin.now (terminals_of (entry_view entry.now))) }
    ensures within { IfSome result (λ x. x.0 + x.1 ≤ length (words_of tokens.entry)) }
{
    let Some((terminals, _)) = terminals_in(entry) else {
        return None;
    };
    let Some((before, behind)) = tokens_around(terminals, owner, pin) else {
        return None;
    };
    Some((tokens.len() - before, before - behind))
}
