//! The splices of an edit, unless its text is too long with them made.

ghost use Rattle.std.specs.Prelude.{◌≡◌, ◌≤◌, ◌∷◌, [], ℕ, List, length, map, IfOk};
ghost use Rattle.design_model.specs.declared.TheConstants.{MAX_TEXT};
ghost use Rattle.edit_rules.specs.Plans.{is_long};
ghost use Rattle.def_splice.specs.SpliceViews.{cut_view, made, AreCuts, AreInOrder};

use design_model::MAX_TEXT;
use design_model::sequence::Sequence;
use edit_model::edit::{EditCode, EditRefusal, Splice, Splices};
use std::alloc::Allocator;

/// Whether a text is too long with splices made.
fn is_long<A: Allocator>(len: usize, splices: &[Splice<A>]) -> bool
    requires { AreInOrder 0 splices.now len }
    ensures { (text : List ℕ) → length text ≡ len → result ≡ is_long (made splices.now text) }
{
    let mut room = MAX_TEXT;
    let mut at = 0;
    for splice in splices {
        let kept = splice.lo - at;
        if room < kept {
            return true;
        }
        let left = room - kept;
        let put = splice.put.len();
        if left < put {
            return true;
        }
        room = left - put;
        at = splice.hi;
    }
    room < len - at
}

/// These splices, unless the text is too long with them made.
fn unless_long<A: Allocator>(
    len: usize,
    splices: Vec<Splice<A>, A>,
) -> Result<Splices<A>, EditRefusal>
    requires order { AreInOrder 0 splices.items len }
    ensures cuts { (text : List ℕ) → length text ≡ len → AreCuts text (map cut_view splices.items) result }
    ensures order { IfOk result (λ ss. AreInOrder 0 ss len) }
{
    if is_long(len, &splices) {
        return Err(EditRefusal::Refused(EditCode::TooLong));
    }
    Ok(Sequence::from_vec(splices))
}

/// One splice.
pub fn one_splice<A: Allocator + Copy>(
    alloc: A,
    len: usize,
    splice: Splice<A>,
) -> Result<Splices<A>, EditRefusal>
    requires order { splice.lo ≤ splice.hi }
    requires within { splice.hi ≤ len }
    ensures cuts { (text : List ℕ) → length text ≡ len → AreCuts text (cut_view splice ∷ []) result }
    ensures order { IfOk result (λ ss. AreInOrder 0 ss len) }
{
    let mut splices = Vec::with_capacity(alloc, 1)?;
    splices.push(splice)?;
    unless_long(len, splices)
}

/// Two splices, one behind the other.
pub fn two_splices<A: Allocator + Copy>(
    alloc: A,
    len: usize,
    first: Splice<A>,
    second: Splice<A>,
) -> Result<Splices<A>, EditRefusal>
    requires first { first.lo ≤ first.hi }
    requires apart { first.hi ≤ second.lo }
    requires second { second.lo ≤ second.hi }
    requires within { second.hi ≤ len }
    ensures cuts { (text : List ℕ) → length text ≡ len → AreCuts text (cut_view first ∷ cut_view second ∷ []) result }
    ensures order { IfOk result (λ ss. AreInOrder 0 ss len) }
{
    let mut splices = Vec::with_capacity(alloc, 2)?;
    splices.push(first)?;
    splices.push(second)?;
    unless_long(len, splices)
}
