//! The pins of a net by one component, which few statements of a text tell.

ghost use Rattle.std.specs.Prelude.{◌≡◌, ◌<◌, ◌≤◌, ◌++◌, ◌∷◌, [], IfOk, IfSome, List, ℕ, OnOk, filter, map};
ghost use Rattle.def_grammar.specs.Located.{is_entry};
ghost use Rattle.def_grammar.specs.Records.{Record, entry_of};
ghost use Rattle.design_model.specs.declared.mode.Section.TheVariants.{Components};
ghost use Rattle.design_rules.specs.Boxes.{scale};
ghost use Rattle.connection_rules.specs.NetParts.{Net};
ghost use Rattle.def_reader.specs.StatementViews.{record_view};
ghost use Rattle.kept_nets.specs.Parts.{part_view};
ghost use Rattle.net_laws.specs.StarNets.{TellOne, pins_by_one, pins_in};
ghost use Rattle.design_text.specs.DesignTexts.{design_of};
ghost use Rattle.design_text.specs.Exchanges.{records_in};
ghost use Rattle.followed_nets.specs.Heads.{IsHead};
ghost use Rattle.followed_nets.specs.Noted.{AreCommon};
ghost use Rattle.followed_nets.specs.ToldViews.{head_view};

use crate::entries::entry_in;
use crate::heads::Head;
use cell_library::library::Library;
use def_reader::statement::Statement;
use design_model::identifier::StmtId;
use design_model::mode::Section;
use design_names::names::names_of;
use design_nets::pins_of_nets;
use design_text::text::DesignText;
use design_wires::wires::DesignWires;
use kept_nets::{KeptPart, pins_of};
use line_laws::scales::scales_are_good;
use net_laws::{all_pins_tell, one_component_is_told};
use net_lists::NetList;
use std::alloc::{AllocError, Allocator};

/// Puts the component of a name behind statements, if there is one.
fn push_own<'t, A: Allocator + Copy>(
    text: &'t DesignText<A>,
    component: &[u8],
    statements: &mut Vec<Statement<'t>, A>,
) -> Result<(), AllocError>
    ensures { OnOk result (map record_view statements.new.items ≡ map record_view statements.old.items ++ filter (λ r. is_entry Components component.now (entry_of r)) (design_of text.entry.now)) }
{
    if let Some(own) = entry_in(text, Section::Components, component) {
        statements.push(own)?;
    }
    Ok(())
}

/// The statements that tell what a component is to the net of a head: those that are read whichever net is told, which have these numbers, the
/// component, and the entry that the head is read as.
fn statements_of_one<'t, A: Allocator + Copy>(
    alloc: A,
    text: &'t DesignText<A>,
    common: &[StmtId],
    head: &'t Head<A>,
    component: &[u8],
) -> Result<Option<Vec<Statement<'t>, A>>, AllocError>
    requires common { AreCommon (records_in text.now) common.now }
    requires head { IsHead (design_of text.now) (head_view head.now) }
    ensures { IfOk result (λ found. IfSome found (λ v. TellOne (map record_view v.items) (design_of text.entry.now) (head_view head.entry.now).name component.now)) }
{
    all_pins_tell();
    text.statements_are_kept();
    let Some(entry) = head.read() else {
        return Ok(None);
    };
    let mut statements = text.kept(alloc, common)?;
    push_own(text, component, &mut statements)?;
    statements.push(entry)?;
    Ok(Some(statements))
}

/// The pins of the first of these nets.
fn first_pins<A: Allocator + Copy>(
    alloc: A,
    nets: &NetList<'_, A>,
) -> Result<Vec<KeptPart<A>, A>, AllocError>
    ensures { (net : Net) → nets.now ≡ net ∷ [] → IfOk result (λ v. map part_view v.items ≡ pins_in net.parts) }
{
    let mut left = nets.nets();
    match left.next() {
        Some(net) => pins_of(alloc, &net),
        None => Ok(Vec::new(alloc)),
    }
}

/// The pins of a net by a component, which these statements tell.
fn pins_by<A: Allocator + Copy>(
    alloc: A,
    library: &Library<'_, A>,
    statements: &[Statement<'_>],
) -> Result<Vec<KeptPart<A>, A>, AllocError>
    requires some { 0 < scale (map record_view statements.now) }
    requires few { scale (map record_view statements.now) ≤ 100000 }
    ensures { (design : List Record) (net component : List ℕ) → TellOne (map record_view statements.now) design net component
        → IfOk result (λ v. map part_view v.items ≡ pins_by_one library.now design (scale design) net component) }
{
    one_component_is_told();
    let names = names_of(alloc, library.hash_builder(), statements)?;
    let wires = DesignWires::new(alloc, library, &names)?;
    let nets = pins_of_nets(alloc, library, &names, &wires)?;
    first_pins(alloc, &nets)
}

/// The pins of the net of a head in a text by a component, unless the head isn't read.
pub(crate) fn star_pins<A: Allocator + Copy>(
    alloc: A,
    library: &Library<'_, A>,
    text: &DesignText<A>,
    common: &[StmtId],
    head: &Head<A>,
    component: &[u8],
) -> Result<Option<Vec<KeptPart<A>, A>>, AllocError>
    requires common { AreCommon (records_in text.now) common.now }
    requires head { IsHead (design_of text.now) (head_view head.now) }
    ensures { IfOk result (λ found. IfSome found (λ v. map part_view v.items ≡ pins_by_one library.now (design_of text.now) (scale (design_of text.now)) (head_view head.now).name component.now)) }
{
    one_component_is_told();
    scales_are_good();
    text.design_is_read();
    let Some(statements) = statements_of_one(alloc, text, common, head, component)? else {
        return Ok(None);
    };
    let pins = pins_by(alloc, library, &statements)?;
    Ok(Some(pins))
}
