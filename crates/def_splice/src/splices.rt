//! The splices of an edit.

ghost use Rattle.std.specs.Prelude.{◌≡◌, ◌≤◌, length, IfOk, IsOk};
ghost use Rattle.design_model.specs.declared.TheConstants.{MAX_TEXT};
ghost use Rattle.def_grammar.specs.Records.{read_def};
ghost use Rattle.edit_rules.specs.Edits.{change_of};
ghost use Rattle.def_splice.specs.SpliceViews.{AreInOrder, MakesSplices};

use crate::component::{place_splices, remaster_splices, unplace_splices};
use crate::lookups::LookUps;
use crate::net::{connect_splices, disconnect_splices};
use crate::section::{add_splices, block_splices, remove_splices};
use crate::wiring::{route_splices, unroute_splices};
use cell_library::library::Library;
use design_model::MAX_TEXT;
use edit_model::edit::{Edit, EditRefusal, Splices};
use std::alloc::Allocator;

/// The splices of an edit of a text that reads, in the order of their places, or why the edit is refused: the lowest
/// refusal that applies. Its statements are looked up. Each group of edits has a function for its own.
pub fn looked_up_splices<A: Allocator + Copy, L: LookUps>(
    alloc: A,
    library: &Library<'_, A>,
    lookups: &L,
    edit: &Edit<'_>,
) -> Result<Splices<A>, EditRefusal>
    requires fits { length (L.text lookups.now) ≤ MAX_TEXT }
    requires reads { IsOk (read_def (L.text lookups.now)) }
    ensures makes { MakesSplices library.now (L.text lookups.now) (change_of edit.now) result }
    ensures order { IfOk result (λ ss. AreInOrder 0 ss (length (L.text lookups.now))) }
{
    match edit {
        Edit::Place {
            component,
            x,
            y,
            orient,
        } => place_splices(alloc, library, lookups, component, *x, *y, *orient),
        Edit::Unplace { component } => unplace_splices(alloc, library, lookups, component),
        Edit::Remaster { component, cell } => remaster_splices(
            alloc, library, lookups, component, cell,
        ),
        Edit::Connect { net, owner, pin } => connect_splices(
            alloc, library, lookups, net, owner, pin,
        ),
        Edit::Disconnect { net, owner, pin } => disconnect_splices(
            alloc, library, lookups, net, owner, pin,
        ),
        Edit::Route { net, wiring } => route_splices(alloc, library, lookups, net, wiring),
        Edit::Unroute { net } => unroute_splices(alloc, library, lookups, net),
        Edit::Add { component, cell } => add_splices(alloc, library, lookups, component, cell),
        Edit::Remove { component } => remove_splices(alloc, library, lookups, component),
        Edit::Block {
            layer,
            x1,
            y1,
            x2,
            y2,
        } => block_splices(alloc, library, lookups, *layer, *x1, *y1, *x2, *y2),
    }
}
