//! The splices of an edit of a net's terminals.

ghost use Rattle.std.specs.Prelude.{◌≡◌, ◌≤◌, length, List, Ok, IfOk, IfSome, IsOk};
ghost use Rattle.design_model.specs.declared.TheConstants.{MAX_TEXT};
ghost use Rattle.def_grammar.specs.Records.{read_def, Record};
ghost use Rattle.lef_grammar.specs.Library.{Library as TheLibrary};
ghost use Rattle.lefdef_tokens.specs.Views.{pieces_of, words_of};
ghost use Rattle.def_reader.specs.EntryViews.{EntryAt, entry_view};
ghost use Rattle.edit_rules.specs.Edits.{of_net};
ghost use Rattle.edit_rules.specs.NetEdits.{connect_to, disconnect_from, front_of, plan_of_entry, terminal_text, terminals_of};
ghost use Rattle.edit_rules.specs.Plans.{lowest};
ghost use Rattle.def_splice.specs.Lying.{AreFirm};
ghost use Rattle.def_splice.specs.NetViews.{connect_refusals};
ghost use Rattle.def_splice.specs.SpliceViews.{change_cut, cut_view, AreInOrder, IsWithin, MakesOne, MakesSplices};

use crate::lookups::{LookUps, is_pin, listing_entry, net_entry, with_tokens};
use crate::lying::in_text;
use crate::terminals::{terminal_tokens, tokens_to_end};
use crate::token_splices::{change_splice, made_one};
use cell_library::library::Library;
use def_reader::entry::Entry;
use design_model::MAX_TEXT;
use edit_laws::editing::edits_stand_in_order;
use edit_model::edit::{EditCode, EditRefusal, Splice, Splices};
use lefdef_tokens::TokenRun;
use std::alloc::{AllocError, Allocator};

/// The splice that puts a terminal behind those of an entry.
fn entry_connected<'t, A: Allocator + Copy>(
    alloc: A,
    entry: &Entry<'t>,
    tokens: TokenRun<'t>,
    owner: &[u8],
    pin: &[u8],
) -> Result<Splice<A>, AllocError>
    requires lent { EntryAt (pieces_of tokens) entry.now }
    requires tokens { front_of (terminals_of (entry_view entry.now)) ≤ length (words_of tokens) }
    ensures cut { IfOk result (λ s. cut_view s ≡ change_cut tokens.entry.text.now (pieces_of tokens.entry) (front_of (terminals_of (entry_view entry.now))) 0 (terminal_text owner.now pin.now)) }
    ensures within { IfOk result (IsWithin (length tokens.entry.text.now)) }
{
    let before = tokens_to_end(entry, tokens);
    change_splice(alloc, tokens, before, 0, &[b" ( ", owner, b" ", pin, b" )"])
}

/// Why a terminal isn't connected to a net.
fn connect_refusal<A: Allocator + Copy, L: LookUps>(
    library: &Library<'_, A>,
    lookups: &L,
    owner: &[u8],
    pin: &[u8],
) -> Option<EditCode>
    requires { IsOk (read_def (L.text lookups.now)) }
    ensures { (design : List Record) → read_def (L.text lookups.now) ≡ Ok design → result ≡ lowest (connect_refusals library.now design owner.now pin.now) }
{
    if !is_pin(library, lookups, owner, pin) {
        return Some(EditCode::UnknownName);
    }
    if lookups.is_connected(owner, pin) {
        return Some(EditCode::Connection);
    }
    None
}

/// The splice that connects a pin to a net of a text that reads, or why that is refused.
pub fn connect_splices<A: Allocator + Copy, L: LookUps>(
    alloc: A,
    library: &Library<'_, A>,
    lookups: &L,
    net: &[u8],
    owner: &[u8],
    pin: &[u8],
) -> Result<Splices<A>, EditRefusal>
    requires fits { length (L.text lookups.now) ≤ MAX_TEXT }
    requires reads { IsOk (read_def (L.text lookups.now)) }
    ensures makes { MakesSplices library.now (L.text lookups.now) (of_net net.now (connect_to owner.now pin.now)) result }
    ensures order { IfOk result (λ ss. AreInOrder 0 ss (length (L.text lookups.now))) }
{
    edits_stand_in_order();
    let Some((entry, tokens)) = with_tokens(net_entry(lookups, net)) else {
        return Err(EditRefusal::Refused(EditCode::UnknownName));
    };
    if let Some(code) = connect_refusal(library, lookups, owner, pin) {
        return Err(EditRefusal::Refused(code));
    }
    let splice = made_one(entry_connected(alloc, &entry, tokens.tokens, owner, pin));
    in_text(alloc, lookups.len(), tokens, splice)
}

/// The splice that takes a terminal out of an entry, or why that is refused.
fn entry_disconnected<'t, A: Allocator>(
    alloc: A,
    entry: &Entry<'t>,
    tokens: TokenRun<'t>,
    owner: &[u8],
    pin: &[u8],
) -> Result<Option<Splice<A>>, EditRefusal>
    requires { EntryAt (pieces_of tokens) entry.now }
    ensures gives { (library : TheLibrary) → (design : List Record) → MakesOne tokens.entry.text.now (plan_of_entry library design (disconnect_from owner.now pin.now) (pieces_of tokens.entry) (entry_view entry.now)) result }
    ensures firm { (library : TheLibrary) → (design : List Record) → IfOk result (λ _. AreFirm (plan_of_entry library design (disconnect_from owner.now pin.now) (pieces_of tokens.entry) (entry_view entry.now)).changes) }
    ensures within { IfOk result (λ splice. IfSome splice (IsWithin (length tokens.entry.text.now))) }
{
    let Some((before, taken)) = terminal_tokens(entry, tokens, owner, pin) else {
        return Err(EditRefusal::Refused(EditCode::Connection));
    };
    made_one(change_splice(alloc, tokens, before, taken, &[]))
}

/// The splice that takes a terminal from a net of a text that reads, or why that is refused.
pub fn disconnect_splices<A: Allocator + Copy, L: LookUps>(
    alloc: A,
    library: &Library<'_, A>,
    lookups: &L,
    net: &[u8],
    owner: &[u8],
    pin: &[u8],
) -> Result<Splices<A>, EditRefusal>
    requires fits { length (L.text lookups.now) ≤ MAX_TEXT }
    requires reads { IsOk (read_def (L.text lookups.now)) }
    ensures makes { MakesSplices library.now (L.text lookups.now) (of_net net.now (disconnect_from owner.now pin.now)) result }
    ensures order { IfOk result (λ ss. AreInOrder 0 ss (length (L.text lookups.now))) }
{
    let Some((entry, tokens)) = with_tokens(listing_entry(lookups, net, owner, pin)) else {
        return Err(EditRefusal::Refused(EditCode::UnknownName));
    };
    edits_stand_in_order();
    let splice = entry_disconnected(alloc, &entry, tokens.tokens, owner, pin);
    in_text(alloc, lookups.len(), tokens, splice)
}
