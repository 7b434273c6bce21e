//! Splices over the tokens of a statement.

ghost use Rattle.std.specs.Prelude.{◌≡◌, ◌≤◌, ◌+◌, ◌∷◌, [], ℕ, List, length, drop, map, take, IfOk, IfSome, None};
ghost use Rattle.statement_model.specs.Cuts.{end_of_all, Cut};
ghost use Rattle.statement_model.specs.Reading.{pos_of};
ghost use Rattle.edit_rules.specs.Plans.{cuts_for, gap_after, lowest, put_apart, Plan};
ghost use Rattle.lefdef_tokens.specs.Views.{pieces_of, words_of};
ghost use Rattle.def_splice.specs.SpliceViews.{change_cut, cut_view, joined, IsWithin, MakesOne};

use crate::put::put_apart;
use edit_model::edit::{EditRefusal, Splice};
use lefdef_tokens::TokenRun;
use std::alloc::{AllocError, Allocator};

/// Some tokens of a statement, behind others.
fn tokens_behind<'t>(statement: TokenRun<'t>, before: usize, count: usize) -> TokenRun<'t>
    requires { before + count ≤ length (words_of statement) }
    ensures gives { pieces_of result ≡ take count (drop before (pieces_of statement.entry)) }
    ensures text { result.text.now ≡ statement.entry.text.now }
{
    statement.skip(before).front(count)
}

/// The splice that puts bytes in the place of some tokens, from the first to the last.
pub fn over_tokens<'t, A: Allocator>(
    alloc: A,
    tokens: TokenRun<'t>,
    parts: &[&[u8]],
) -> Result<Splice<A>, AllocError>
    ensures cut { IfOk result (λ s. cut_view s ≡ put_apart tokens.entry.text.now (pos_of (pieces_of tokens.entry)) (end_of_all (pieces_of tokens.entry)) (joined [] (map (λ p. p.now) parts.now))) }
    ensures within { IfOk result (IsWithin (length tokens.entry.text.now)) }
{
    let span = tokens.span();
    put_apart(alloc, tokens.text, span.lo, span.hi, parts)
}

/// Where bytes go behind some tokens of a statement, or before its first.
fn place_behind<'t>(statement: TokenRun<'t>, before: usize) -> usize
    requires { before ≤ length (words_of statement) }
    ensures gives { result ≡ gap_after before (pieces_of statement.entry) }
    ensures within { result ≤ length statement.entry.text.now }
{
    if before == 0 {
        statement.span().lo
    } else {
        statement.front(before).span().hi
    }
}

/// The splice of a change of a statement: behind `before` of its tokens `taken` of them are taken, and bytes are put there.
pub fn change_splice<'t, A: Allocator>(
    alloc: A,
    statement: TokenRun<'t>,
    before: usize,
    taken: usize,
    parts: &[&[u8]],
) -> Result<Splice<A>, AllocError>
    requires { before + taken ≤ length (words_of statement) }
    ensures cut { IfOk result (λ s. cut_view s ≡ change_cut statement.entry.text.now (pieces_of statement.entry) before taken (joined [] (map (λ p. p.now) parts.now))) }
    ensures within { IfOk result (IsWithin (length statement.entry.text.now)) }
{
    if taken == 0 {
        let place = place_behind(statement, before);
        put_apart(alloc, statement.text, place, place, parts)
    } else {
        over_tokens(alloc, tokens_behind(statement, before, taken), parts)
    }
}

/// What is made of an entry that nothing refuses to change: this splice.
pub fn made_one<A: Allocator>(
    made: Result<Splice<A>, AllocError>,
) -> Result<Option<Splice<A>>, EditRefusal>
    ensures gives { (text : List ℕ) → (plan : Plan) → (cut : Cut) → lowest plan.refusals ≡ None → cuts_for text plan.changes ≡ cut ∷ [] → IfOk made (λ s. cut_view s ≡ cut) → MakesOne text plan result }
    ensures within { (n : ℕ) → IfOk made (IsWithin n) → IfOk result (λ splice. IfSome splice (IsWithin n)) }
{
    match made {
        Ok(splice) => Ok(Some(splice)),
        Err(_) => Err(EditRefusal::Memory),
    }
}
