//! Tokens over bytes that lie in a text, and splices that are made there.

ghost use Rattle.std.specs.Prelude.{◌≡◌, ◌≤◌, ◌<◌, ◌+◌, ℕ, List, length, IfOk, IfSome};
ghost use Rattle.design_model.specs.declared.TheConstants.{MAX_TEXT};
ghost use Rattle.edit_rules.specs.Plans.{Plan};
ghost use Rattle.lefdef_tokens.specs.Views.{words_of};
ghost use Rattle.def_splice.specs.Lying.{AreFirm, LiesIn, lying_tokens, moved_cut, moved_plan};
ghost use Rattle.def_splice.specs.SpliceViews.{change_cut, cut_view, AreInOrder, FollowsAll, IsWithin, MakesOne};

use crate::fitting::one_splice;
use crate::token_splices::change_splice;
use design_model::MAX_TEXT;
use design_model::sequence::Sequence;
use edit_model::edit::{EditRefusal, Splice, Splices};
use lefdef_tokens::TokenRun;
use std::alloc::{AllocError, Allocator};

/// Tokens over bytes of a text, and the place in the text where these bytes begin.
#[derive(Clone, Copy)]
pub struct Lying<'t> {
    pub tokens: TokenRun<'t>,
    pub at: usize,
}

/// A splice of bytes that lie in a text as one of that text.
fn moved<A: Allocator>(splice: Splice<A>, at: usize) -> Splice<A>
    requires order { splice.lo ≤ splice.hi }
    requires fits { at + splice.hi ≤ MAX_TEXT }
    ensures cut { cut_view result ≡ moved_cut at (cut_view splice) }
    ensures order { result.lo ≤ result.hi }
    ensures hi { result.hi ≡ at + splice.hi }
{
    Splice {
        lo: at + splice.lo,
        hi: at + splice.hi,
        put: splice.put,
    }
}

impl<'t> Lying<'t> {
    /// The splice of a change of the statement that these tokens are: behind `before` of them `taken` are taken, and bytes are put
    /// there.
    pub fn change_splice<A: Allocator>(
        self,
        alloc: A,
        before: usize,
        taken: usize,
        put: &[u8],
    ) -> Result<Splice<A>, AllocError>
        requires some { 0 < length (words_of self.tokens) }
        requires tokens { before + taken ≤ length (words_of self.tokens) }
        requires fits { self.at + length self.tokens.text.now ≤ MAX_TEXT }
        ensures cut { (text : List ℕ) → LiesIn text self.entry → IfOk result (λ s. cut_view s ≡ change_cut text (lying_tokens self.entry) before taken put.now) }
        ensures order { IfOk result (λ s. s.lo ≤ s.hi) }
        ensures within { IfOk result (λ s. s.hi ≤ self.entry.at + length self.entry.tokens.text.now) }
    {
        let splice = change_splice(alloc, self.tokens, before, taken, &[put])?;
        Ok(moved(splice, self.at))
    }
}

/// The splices of a text of `len` bytes by the one, if any, of a statement that was found in it, unless the text is too long with
/// it made.
pub fn in_text<A: Allocator + Copy>(
    alloc: A,
    len: usize,
    statement: Lying<'_>,
    splice: Result<Option<Splice<A>>, EditRefusal>,
) -> Result<Splices<A>, EditRefusal>
    requires within { IfOk splice (λ found. IfSome found (IsWithin (length statement.tokens.text.now))) }
    requires lies { statement.at + length statement.tokens.text.now ≤ len }
    requires fits { len ≤ MAX_TEXT }
    ensures follows { (text : List ℕ) → (plan : Plan) → length text ≡ len → LiesIn text statement.entry → IfOk splice (λ _. AreFirm plan.changes) → MakesOne statement.entry.tokens.text.now plan splice → FollowsAll text (moved_plan statement.entry.at plan) result }
    ensures order { IfOk result (λ ss. AreInOrder 0 ss len) }
{
    match splice {
        Ok(Some(splice)) => one_splice(alloc, len, moved(splice, statement.at)),
        Ok(None) => Ok(Sequence::new(alloc)),
        Err(refusal) => Err(refusal),
    }
}
