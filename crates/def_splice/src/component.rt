//! The splices of an edit of a component.

ghost use Rattle.std.specs.Prelude.{◌≡◌, ◌≤◌, length, IfOk, IfSome, IsOk};
ghost use Rattle.design_model.specs.declared.TheConstants.{MAX_TEXT};
ghost use Rattle.statement_model.specs.Form.{spell};
ghost use Rattle.def_grammar.specs.Components.{component_form};
ghost use Rattle.def_grammar.specs.Records.{read_def};
ghost use Rattle.edit_rules.specs.ComponentEdits.{remaster_as, remaster_plan, unplace_it, unplace_plan};
ghost use Rattle.edit_rules.specs.Edits.{of_component, place};
ghost use Rattle.lefdef_tokens.specs.Views.{pieces_of, words_of};
ghost use Rattle.place_parts.specs.ClauseViews.{clause_view};
ghost use Rattle.place_parts.specs.ComponentViews.{component_view};
ghost use Rattle.def_splice.specs.SpliceViews.{is_placed, AreInOrder, IsWithin, MakesOne, MakesSplices};

use crate::lookups::{LookUps, has_macro};
use crate::lying::in_text;
use crate::place::{entry_placed, is_held};
use crate::token_splices::{change_splice, made_one, over_tokens};
use cell_library::library::Library;
use design_model::MAX_TEXT;
use design_model::geometry::Orient;
use edit_laws::editing::edits_stand_in_order;
use edit_model::edit::{EditCode, EditRefusal, Splice, Splices};
use lefdef_tokens::TokenRun;
use place_parts::component_parts::ComponentParts;
use place_parts::components::Clause;
use std::alloc::Allocator;

/// The splice that places a component of a text that reads, or why that is refused.
pub fn place_splices<A: Allocator + Copy, L: LookUps>(
    alloc: A,
    library: &Library<'_, A>,
    lookups: &L,
    component: &[u8],
    x: i64,
    y: i64,
    orient: Orient,
) -> Result<Splices<A>, EditRefusal>
    requires fits { length (L.text lookups.now) ≤ MAX_TEXT }
    requires reads { IsOk (read_def (L.text lookups.now)) }
    ensures makes { MakesSplices library.now (L.text lookups.now) (place component.now x y orient) result }
    ensures order { IfOk result (λ ss. AreInOrder 0 ss (length (L.text lookups.now))) }
{
    let Some((parts, entry)) = lookups.component(component) else {
        return Err(EditRefusal::Refused(EditCode::UnknownName));
    };
    edits_stand_in_order();
    let splice = entry_placed(alloc, parts, entry.tokens, x, y, orient);
    in_text(alloc, lookups.len(), entry, splice)
}

/// Whether a clause places a component.
fn is_placed(clause: &Clause<'_>) -> bool
    ensures { result ≡ is_placed (clause_view clause.now) }
{
    matches!(clause, Clause::Placed(_))
}

/// The splice that unplaces the component of an entry: `UNPLACED` in the place of a clause `PLACED`. There is none where it
/// isn't placed.
fn entry_unplaced<'t, A: Allocator>(
    alloc: A,
    component: ComponentParts<'t>,
    entry: TokenRun<'t>,
) -> Result<Option<Splice<A>>, EditRefusal>
    requires spelled { words_of entry ≡ spell component_form (component_view component) }
    ensures gives { MakesOne entry.entry.text.now (unplace_plan (pieces_of entry.entry) (component_view component.entry)) result }
    ensures within { IfOk result (λ splice. IfSome splice (IsWithin (length entry.entry.text.now))) }
{
    let Some((clause, tokens)) = component.placing_tokens(entry) else {
        return Ok(None);
    };
    if is_held(&clause) {
        return Err(EditRefusal::Refused(EditCode::Fixed));
    }
    if !is_placed(&clause) {
        return Ok(None);
    }
    made_one(over_tokens(alloc, tokens, &[b"UNPLACED"]))
}

/// The splice that unplaces a component of a text that reads, or why that is refused.
pub fn unplace_splices<A: Allocator + Copy, L: LookUps>(
    alloc: A,
    library: &Library<'_, A>,
    lookups: &L,
    component: &[u8],
) -> Result<Splices<A>, EditRefusal>
    requires fits { length (L.text lookups.now) ≤ MAX_TEXT }
    requires reads { IsOk (read_def (L.text lookups.now)) }
    ensures makes { MakesSplices library.now (L.text lookups.now) (of_component component.now unplace_it) result }
    ensures order { IfOk result (λ ss. AreInOrder 0 ss (length (L.text lookups.now))) }
{
    let Some((parts, entry)) = lookups.component(component) else {
        return Err(EditRefusal::Refused(EditCode::UnknownName));
    };
    edits_stand_in_order();
    let splice = entry_unplaced(alloc, parts, entry.tokens);
    in_text(alloc, lookups.len(), entry, splice)
}

/// The splice that gives the component of an entry another macro.
fn entry_remastered<'t, A: Allocator + Copy>(
    alloc: A,
    library: &Library<'_, A>,
    component: ComponentParts<'t>,
    entry: TokenRun<'t>,
    cell: &[u8],
) -> Result<Option<Splice<A>>, EditRefusal>
    requires spelled { words_of entry ≡ spell component_form (component_view component) }
    ensures gives { MakesOne entry.entry.text.now (remaster_plan library.now cell.now (pieces_of entry.entry) (component_view component.entry)) result }
    ensures within { IfOk result (λ splice. IfSome splice (IsWithin (length entry.entry.text.now))) }
{
    if !has_macro(library, cell) {
        return Err(EditRefusal::Refused(EditCode::UnknownName));
    }
    made_one(change_splice(alloc, entry, 2, 1, &[cell]))
}

/// The splice that gives a component of a text that reads another macro, or why that is refused.
pub fn remaster_splices<A: Allocator + Copy, L: LookUps>(
    alloc: A,
    library: &Library<'_, A>,
    lookups: &L,
    component: &[u8],
    cell: &[u8],
) -> Result<Splices<A>, EditRefusal>
    requires fits { length (L.text lookups.now) ≤ MAX_TEXT }
    requires reads { IsOk (read_def (L.text lookups.now)) }
    ensures makes { MakesSplices library.now (L.text lookups.now) (of_component component.now (remaster_as cell.now)) result }
    ensures order { IfOk result (λ ss. AreInOrder 0 ss (length (L.text lookups.now))) }
{
    let Some((parts, entry)) = lookups.component(component) else {
        return Err(EditRefusal::Refused(EditCode::UnknownName));
    };
    edits_stand_in_order();
    let splice = entry_remastered(alloc, library, parts, entry.tokens, cell);
    in_text(alloc, lookups.len(), entry, splice)
}
