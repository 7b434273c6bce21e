//! Nets that are exchanged in the reports, each as a whole.

ghost use Rattle.std.specs.Prelude.{◌≡◌, ◌∷◌, [], true, IfOk, List, map};
ghost use Rattle.std.specs.List.{AllByRecursion};
ghost use Rattle.def_grammar.specs.Records.{Record};
ghost use Rattle.design_text.specs.DesignTexts.{design_of};
ghost use Rattle.design_text.specs.Exchanges.{records_in};
ghost use Rattle.followed_nets.specs.Noted.{AreCommon};
ghost use Rattle.followed_measures.specs.ExchangedNets.{NetsExchanged};
ghost use Rattle.followed_measures.specs.Told.{IsNetIn, told_names};
ghost use Rattle.followed_measures.specs.ToldViews.{net_view};

use crate::exchanging::exchange_one;
use crate::told::{ToldNet, told_net};
use cell_library::library::Library;
use design_model::identifier::StmtId;
use design_text::text::DesignText;
use reports::Reports;
use std::alloc::{AllocError, Allocator};

/// Puts what is measured of a net of a text in the place of what was measured of it before an edit, if it is told by few statements.
fn exchange_net<A: Allocator + Copy>(
    reports: &mut Reports<A>,
    alloc: A,
    library: &Library<'_, A>,
    text: &DesignText<A>,
    common: &[StmtId],
    before: &ToldNet<A>,
) -> Result<bool, AllocError>
    requires { AreCommon (records_in text.now) common.now }
    ensures { (old : List Record) → IsNetIn library.now old (net_view before.now) → IfOk result (λ b. b ≡ true → NetsExchanged library.now old (design_of text.now) ((net_view before.now).name ∷ []) reports.old reports.new) }
{
    let Some(after) = told_net(alloc, library, text, common, before.name.bytes())? else {
        return Ok(false);
    };
    exchange_one(
        reports,
        before.name.bytes(),
        before.length,
        after.length,
        &before.shapes,
        &after.shapes,
        after.bounds,
    )
}

/// The same of several nets.
pub(crate) fn exchange_nets<A: Allocator + Copy>(
    reports: &mut Reports<A>,
    alloc: A,
    library: &Library<'_, A>,
    text: &DesignText<A>,
    common: &[StmtId],
    told: Vec<ToldNet<A>, A>,
) -> Result<bool, AllocError>
    requires { AreCommon (records_in text.now) common.now }
    ensures { (old : List Record) → AllByRecursion (IsNetIn library.now old) (map net_view told.items) → IfOk result (λ b. b ≡ true → NetsExchanged library.now old (design_of text.now) (told_names (map net_view told.items)) reports.old reports.new) }
{
    let mut left = told;
    while let Some(net) = left.pop() {
        if !exchange_net(reports, alloc, library, text, common, &net)? {
            return Ok(false);
        }
    }
    Ok(true)
}
