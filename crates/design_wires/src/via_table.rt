//! Finding all vias of a design and of its library once.

ghost use Rattle.std.specs.Prelude.{◌≡◌, [], ◌∷◌, ◌++◌, ℕ, List, OnOk, IfOk};
ghost use Rattle.std.specs.Option.{option_map};
ghost use Rattle.def_grammar.specs.DefVias.{DefVia};
ghost use Rattle.cell_library.specs.ViaViews.{vias_view};
ghost use Rattle.lefdef_tokens.specs.Views.{word_view};
ghost use Rattle.def_reader.specs.EntryViews.{entry_view};
ghost use Rattle.def_reader.specs.StatementViews.{records_view};
ghost use Rattle.entry_rules.specs.ViaLayers.{via_of_entry};
ghost use Rattle.design_wires.specs.Defined.{defined};
ghost use Rattle.design_wires.specs.KnownVias.{HasOthers, HasVias, names_in_def, names_in_lef};

use crate::definitions::Definitions;
use crate::known_via::{KnownVia, known_via};
use cell_library::named::Named;
use cell_library::via_definition::Via;
use def_reader::entry::Entry;
use def_reader::statement::Statement;
use std::alloc::{AllocError, Allocator};

/// Vias by their names.
pub(crate) type Table<'a, A> = Named<'a, KnownVia<'a, A>, A>;

/// The name of the via that an entry is.
fn via_name<'t>(entry: &Entry<'t>) -> Option<&'t [u8]>
    ensures { option_map word_view result ≡ option_map (λ (v : DefVia). v.name) (via_of_entry (entry_view entry.now)) }
{
    match entry {
        Entry::Via(via) => Some(via.name.bytes),
        _ => None,
    }
}

/// Adds the via of a name.
fn add<'a, 'l: 'a, 'r: 'a, 't: 'a, A: Allocator + Copy>(
    alloc: A,
    of: Definitions<'a, 'l, 'r, 't, A>,
    vias: &mut Table<'a, A>,
    name: &'a [u8],
) -> Result<(), AllocError>
    ensures { (left : List (List ℕ)) → HasOthers (defined of.entry) vias.old (name.entry.now ∷ left) → OnOk result (HasOthers (defined of.entry) vias.new left) }
{
    if vias.get(name).is_some() {
        return Ok(());
    }
    if let Some(via) = known_via(alloc, of, name)? {
        vias.add(name, via)?;
    }
    Ok(())
}

/// Adds the vias of the design.
fn add_those_of_def<'a, 'l: 'a, 'r: 'a, 't: 'a, A: Allocator + Copy>(
    alloc: A,
    of: Definitions<'a, 'l, 'r, 't, A>,
    vias: &mut Table<'a, A>,
    records: &'r [Statement<'t>],
) -> Result<(), AllocError>
    ensures { (left : List (List ℕ)) → HasOthers (defined of.entry) vias.old (names_in_def (records_view records.entry.now) ++ left) → OnOk result (HasOthers (defined of.entry) vias.new left) }
{
    for statement in records {
        if let Statement::Entry(entry) = statement {
            if let Some(name) = via_name(entry) {
                add(alloc, of, vias, name)?;
            }
        }
    }
    Ok(())
}

/// Adds the vias of the library.
fn add_those_of_lef<'a, 'l: 'a, 'r: 'a, 't: 'a, A: Allocator + Copy>(
    alloc: A,
    of: Definitions<'a, 'l, 'r, 't, A>,
    vias: &mut Table<'a, A>,
    all: &'a Named<'l, Via<'l, A>, A>,
) -> Result<(), AllocError>
    ensures { HasOthers (defined of.entry) vias.old (names_in_lef (vias_view all.entry.now)) → OnOk result (HasOthers (defined of.entry) vias.new []) }
{
    let mut place = 0;
    while let Some((name, _)) = all.at(place) {
        add(alloc, of, vias, name)?;
        place += 1;
    }
    Ok(())
}

/// The vias of a design and of its library.
pub(crate) fn vias_of<'a, 'l: 'a, 'r: 'a, 't: 'a, A: Allocator + Copy>(
    alloc: A,
    of: Definitions<'a, 'l, 'r, 't, A>,
) -> Result<Table<'a, A>, AllocError>
    ensures { IfOk result (HasVias (defined of.entry)) }
{
    let mut vias = Named::new(alloc, of.names.hash_builder());
    add_those_of_def(alloc, of, &mut vias, of.names.records())?;
    add_those_of_lef(alloc, of, &mut vias, of.library.vias())?;
    Ok(vias)
}
