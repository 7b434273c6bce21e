//! Why a component isn't placed or unplaced, and the splice that places it.

ghost use Rattle.std.specs.Prelude.{◌≡◌, ◌≤◌, ◌<◌, length, IfOk, IfSome, Some};
ghost use Rattle.std.specs.Option.{option_map};
ghost use Rattle.design_model.specs.declared.TheConstants.{MAX_TEXT};
ghost use Rattle.statement_model.specs.Form.{spell};
ghost use Rattle.def_grammar.specs.Components.{component_form};
ghost use Rattle.def_grammar.specs.Placing.{is_held};
ghost use Rattle.edit_rules.specs.ComponentEdits.{is_out, place_plan};
ghost use Rattle.lefdef_tokens.specs.Views.{pieces_of, words_of};
ghost use Rattle.place_parts.specs.ClauseViews.{clause_view};
ghost use Rattle.place_parts.specs.ComponentViews.{component_view};
ghost use Rattle.def_splice.specs.SpliceViews.{clause_cut, cut_view, IsWithin, MakesOne, Moves};

use crate::put::{placed_text, put_apart};
use crate::token_splices::{made_one, over_tokens};
use design_model::geometry::{Orient, Status};
use edit_model::edit::{EditCode, EditRefusal, Splice};
use lefdef_tokens::TokenRun;
use place_parts::component_parts::ComponentParts;
use place_parts::components::Clause;
use std::alloc::{AllocError, Allocator};

/// Whether the clause that places a component holds it where it is.
pub fn is_held(clause: &Clause<'_>) -> bool
    ensures { result ≡ is_held (Some (clause_view clause.now)) }
{
    match clause {
        Clause::Placed(placement) => placement.status != Status::Placed,
        _ => false,
    }
}

/// The tokens of the clause that places a component, unless that holds it where it is.
fn movable<'t>(
    placing: Option<(Clause<'t>, TokenRun<'t>)>,
) -> Result<Option<TokenRun<'t>>, EditRefusal>
    ensures { Moves clause_view placing.entry result }
{
    match placing {
        Some((clause, tokens)) => {
            if is_held(&clause) {
                return Err(EditRefusal::Refused(EditCode::Fixed));
            }
            Ok(Some(tokens))
        }
        None => Ok(None),
    }
}

/// The splice that puts a clause in the place of these tokens, from the first to the last, or at the end of an entry.
fn clause_splice<'t, A: Allocator>(
    alloc: A,
    entry: TokenRun<'t>,
    clause: Option<TokenRun<'t>>,
    put: &[u8],
) -> Result<Splice<A>, AllocError>
    requires some { 0 < length (words_of entry) }
    requires same { IfSome clause (λ run. run.text.now ≡ entry.text.now) }
    ensures gives { IfOk result (λ s. cut_view s ≡ clause_cut entry.entry.text.now (pieces_of entry.entry) (option_map pieces_of clause.entry) put.now) }
    ensures within { IfOk result (IsWithin (length entry.entry.text.now)) }
{
    match clause {
        Some(tokens) => over_tokens(alloc, tokens, &[put]),
        None => {
            let end = entry.front(entry.len() - 1).span().hi;
            put_apart(alloc, entry.text, end, end, &[b" + ", put])
        }
    }
}

/// Whether a number is one that no DEF text may hold.
pub fn is_out(number: i64) -> bool
    ensures { result ≡ is_out number }
{
    (number < -2147483647) | (2147483647 < number)
}

/// The splice that places the component of an entry: a clause `PLACED ( x y ) orient` in the place of the one that places
/// it, or at the end of the entry.
pub fn entry_placed<'t, A: Allocator + Copy>(
    alloc: A,
    component: ComponentParts<'t>,
    entry: TokenRun<'t>,
    x: i64,
    y: i64,
    orient: Orient,
) -> Result<Option<Splice<A>>, EditRefusal>
    requires spelled { words_of entry ≡ spell component_form (component_view component) }
    ensures gives { MakesOne entry.entry.text.now (place_plan x y orient (pieces_of entry.entry) (component_view component.entry)) result }
    ensures within { IfOk result (λ splice. IfSome splice (IsWithin (length entry.entry.text.now))) }
{
    let clause = movable(component.placing_tokens(entry))?;
    if is_out(x) | is_out(y) {
        return Err(EditRefusal::Refused(EditCode::Number));
    }
    let put = placed_text(alloc, x, y, orient)?;
    made_one(clause_splice(alloc, entry, clause, &put))
}
