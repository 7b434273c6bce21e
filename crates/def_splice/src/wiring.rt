//! The splices of edits of the wiring of a net.

ghost use Rattle.std.specs.Prelude.{◌≡◌, ◌≤◌, ◌<◌, ◌+◌, ◌-◌, ◌++◌, ℕ, length, List, Ok, IfOk, IfSome, IsOk};
ghost use Rattle.design_model.specs.declared.TheConstants.{MAX_TEXT};
ghost use Rattle.def_grammar.specs.Located.{entry_at, located};
ghost use Rattle.def_grammar.specs.Records.{read_def, Record};
ghost use Rattle.edit_rules.specs.Edits.{of_net};
ghost use Rattle.edit_rules.specs.NetEdits.{route_by, section_of_net, unroute_all};
ghost use Rattle.edit_rules.specs.Plans.{lowest};
ghost use Rattle.lefdef_tokens.specs.Views.{pieces_of, words_of};
ghost use Rattle.def_splice.specs.Lying.{AreFirm, LiesIn, lying_tokens};
ghost use Rattle.def_splice.specs.SpliceViews.{AreInOrder, FollowsAll, IsWithin, MakesOne, MakesSplices};
ghost use Rattle.def_splice.specs.WiringPlanViews.{put_text, route_refusals, route_so, unroute_so, FoundWired};
ghost use Rattle.net_wiring.specs.WiringViews.{is_said, reads_wiring};

use crate::lookups::{LookUps, net_entry, with_tokens};
use crate::lying::{Lying, in_text};
use crate::token_splices::{change_splice, made_one};
use cell_library::library::Library;
use design_model::MAX_TEXT;
use edit_laws::editing::edits_stand_in_order;
use edit_model::edit::{EditCode, EditRefusal, Splice, Splices};
use lefdef_tokens::TokenRun;
use net_wiring::wiring_clauses::{
    EntryClauses, NetSection, RoleTest, WiringClauses, any, is_barred, wiring_place,
};
use net_wiring::wiring_text::is_wiring;
use std::alloc::Allocator;

/// The clauses of the entry of a net, where it may have wiring, and the entry's tokens.
fn wired_entry<'a, L: LookUps>(lookups: &'a L, net: &[u8]) -> Option<(EntryClauses<'a>, Lying<'a>)>
    requires { IsOk (read_def (L.text lookups.now)) }
    ensures gives { (design : List Record) → read_def (L.text lookups.now) ≡ Ok design → FoundWired (entry_at (section_of_net unroute_all net.now design) net.now (located (L.text lookups.now) design)) result }
    ensures lies { IfSome result (λ x. LiesIn (L.text lookups.now) x.1) }
{
    let Some((entry, tokens)) = with_tokens(net_entry(lookups, net)) else {
        return None;
    };
    let Some(clauses) = EntryClauses::of(&entry) else {
        return None;
    };
    Some((clauses, tokens))
}

/// Why the wiring of these clauses isn't changed, to a text that says wiring or doesn't.
fn wiring_refusal<C: WiringClauses>(clauses: C, said: bool) -> Option<EditCode>
    ensures { result ≡ lowest (route_refusals (C.left clauses) said) }
{
    if any(clauses, RoleTest::Held) {
        return Some(EditCode::Fixed);
    }
    if !said {
        return Some(EditCode::WiringText);
    }
    if is_barred(clauses) {
        return Some(EditCode::WiringApart);
    }
    None
}

/// Wiring as it is put, behind a space where it takes no token's place.
fn spaced<'w, C: WiringClauses>(clauses: C, wiring: &'w [u8]) -> (&'w [u8], &'w [u8])
    ensures { result.0.now ++ result.1.now ≡ put_text (C.left clauses) wiring.entry.now }
{
    if any(clauses, RoleTest::Wiring) {
        (b"", wiring)
    } else {
        (b" ", wiring)
    }
}

/// The splice that puts a text in the place of the wiring of an entry, or behind its clauses.
fn entry_routed<'t, A: Allocator + Copy, C: WiringClauses>(
    alloc: A,
    section: NetSection,
    entry: TokenRun<'t>,
    clauses: C,
    wiring: &[u8],
) -> Result<Option<Splice<A>>, EditRefusal>
    requires some { 0 < length (words_of entry) }
    requires tokens { C.tokens clauses ≤ length (words_of entry) }
    ensures gives { MakesOne entry.entry.text.now (route_so (pieces_of entry.entry) (length (words_of entry.entry) - C.tokens clauses) wiring.now (C.left clauses) (is_said (reads_wiring section) wiring.now)) result }
    ensures firm { IfOk result (λ _. AreFirm (route_so (pieces_of entry.entry) (length (words_of entry.entry) - C.tokens clauses) wiring.now (C.left clauses) (is_said (reads_wiring section) wiring.now)).changes) }
    ensures within { IfOk result (λ splice. IfSome splice (IsWithin (length entry.entry.text.now))) }
{
    if let Some(code) = wiring_refusal(clauses, is_wiring(section, wiring)) {
        return Err(EditRefusal::Refused(code));
    }
    let place = wiring_place(entry, clauses);
    let (space, wiring) = spaced(clauses, wiring);
    made_one(change_splice(alloc, entry, place.before, place.taken, &[space, wiring]))
}

/// The splices that do so in the text of `len` bytes in which the entry was found.
fn routed_in_text<A: Allocator + Copy, C: WiringClauses>(
    alloc: A,
    len: usize,
    section: NetSection,
    entry: Lying<'_>,
    clauses: C,
    wiring: &[u8],
) -> Result<Splices<A>, EditRefusal>
    requires fits { len ≤ MAX_TEXT }
    requires lies { entry.at + length entry.tokens.text.now ≤ len }
    requires some { 0 < length (words_of entry.tokens) }
    requires tokens { C.tokens clauses ≤ length (words_of entry.tokens) }
    ensures gives { (text : List ℕ) → length text ≡ len → LiesIn text entry.entry → FollowsAll text (route_so (lying_tokens entry.entry) (length (words_of entry.entry.tokens) - C.tokens clauses) wiring.now (C.left clauses) (is_said (reads_wiring section) wiring.now)) result }
    ensures order { IfOk result (λ ss. AreInOrder 0 ss len) }
{
    let splice = entry_routed(alloc, section, entry.tokens, clauses, wiring);
    in_text(alloc, len, entry, splice)
}

/// The splice that puts a text in the place of the wiring of a net, in a text that reads, or why that is refused.
pub fn route_splices<A: Allocator + Copy, L: LookUps>(
    alloc: A,
    library: &Library<'_, A>,
    lookups: &L,
    net: &[u8],
    wiring: &[u8],
) -> Result<Splices<A>, EditRefusal>
    requires fits { length (L.text lookups.now) ≤ MAX_TEXT }
    requires reads { IsOk (read_def (L.text lookups.now)) }
    ensures makes { MakesSplices library.now (L.text lookups.now) (of_net net.now (route_by wiring.now)) result }
    ensures order { IfOk result (λ ss. AreInOrder 0 ss (length (L.text lookups.now))) }
{
    edits_stand_in_order();
    let Some((clauses, tokens)) = wired_entry(lookups, net) else {
        return Err(EditRefusal::Refused(EditCode::UnknownName));
    };
    let len = lookups.len();
    match clauses {
        EntryClauses::Net(parts) => routed_in_text(
            alloc,
            len,
            NetSection::Nets,
            tokens,
            parts,
            wiring,
        ),
        EntryClauses::SpecialNet(parts) => routed_in_text(
            alloc,
            len,
            NetSection::SpecialNets,
            tokens,
            parts,
            wiring,
        ),
    }
}

/// The splice that takes the wiring out of an entry. There is none where it has no wiring.
fn entry_unrouted<'t, A: Allocator, C: WiringClauses>(
    alloc: A,
    entry: TokenRun<'t>,
    clauses: C,
) -> Result<Option<Splice<A>>, EditRefusal>
    requires some { 0 < length (words_of entry) }
    requires tokens { C.tokens clauses ≤ length (words_of entry) }
    ensures gives { MakesOne entry.entry.text.now (unroute_so (pieces_of entry.entry) (length (words_of entry.entry) - C.tokens clauses) (C.left clauses)) result }
    ensures firm { IfOk result (λ _. AreFirm (unroute_so (pieces_of entry.entry) (length (words_of entry.entry) - C.tokens clauses) (C.left clauses)).changes) }
    ensures within { IfOk result (λ splice. IfSome splice (IsWithin (length entry.entry.text.now))) }
{
    if let Some(code) = wiring_refusal(clauses, true) {
        return Err(EditRefusal::Refused(code));
    }
    if !any(clauses, RoleTest::Wiring) {
        return Ok(None);
    }
    let place = wiring_place(entry, clauses);
    made_one(change_splice(alloc, entry, place.before, place.taken, &[]))
}

/// The splices that do so in the text of `len` bytes in which the entry was found.
fn unrouted_in_text<A: Allocator + Copy, C: WiringClauses>(
    alloc: A,
    len: usize,
    entry: Lying<'_>,
    clauses: C,
) -> Result<Splices<A>, EditRefusal>
    requires fits { len ≤ MAX_TEXT }
    requires lies { entry.at + length entry.tokens.text.now ≤ len }
    requires some { 0 < length (words_of entry.tokens) }
    requires tokens { C.tokens clauses ≤ length (words_of entry.tokens) }
    ensures gives { (text : List ℕ) → length text ≡ len → LiesIn text entry.entry → FollowsAll text (unroute_so (lying_tokens entry.entry) (length (words_of entry.entry.tokens) - C.tokens clauses) (C.left clauses)) result }
    ensures order { IfOk result (λ ss. AreInOrder 0 ss len) }
{
    let splice = entry_unrouted(alloc, entry.tokens, clauses);
    in_text(alloc, len, entry, splice)
}

/// The splice that takes the wiring of a net out of a text that reads, or why that is refused.
pub fn unroute_splices<A: Allocator + Copy, L: LookUps>(
    alloc: A,
    library: &Library<'_, A>,
    lookups: &L,
    net: &[u8],
) -> Result<Splices<A>, EditRefusal>
    requires fits { length (L.text lookups.now) ≤ MAX_TEXT }
    requires reads { IsOk (read_def (L.text lookups.now)) }
    ensures makes { MakesSplices library.now (L.text lookups.now) (of_net net.now unroute_all) result }
    ensures order { IfOk result (λ ss. AreInOrder 0 ss (length (L.text lookups.now))) }
{
    edits_stand_in_order();
    let Some((clauses, tokens)) = wired_entry(lookups, net) else {
        return Err(EditRefusal::Refused(EditCode::UnknownName));
    };
    let len = lookups.len();
    match clauses {
        EntryClauses::Net(parts) => unrouted_in_text(alloc, len, tokens, parts),
        EntryClauses::SpecialNet(parts) => unrouted_in_text(alloc, len, tokens, parts),
    }
}
