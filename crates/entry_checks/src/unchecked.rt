//! Parts whose shape isn't checked.

ghost use Rattle.std.specs.Prelude.{◌≡◌, ◌++◌, ◌<◌, ◌^◌, OnOk, flat_map};
ghost use Rattle.cell_library.specs.MacroViews.{macros_view};
ghost use Rattle.cell_library.specs.ViaViews.{vias_view};
ghost use Rattle.entry_rules.specs.Unchecked.{unchecked_in_library, unchecked_line};
ghost use Rattle.entry_checks.specs.UncheckedViews.{unchecked_of_macro, unchecked_of_via};

use cell_library::library::Library;
use cell_library::macro_definition::Macro;
use cell_library::named::Named;
use cell_library::via_definition::Via;
use design_model::diagnostic::DiagKind;
use report_lines::Lines;
use std::alloc::{AllocError, Allocator};

/// Puts the line on so many parts of an entry, or of a definition, of this kind, where there are some.
pub(crate) fn put_unchecked<A: Allocator + Copy>(
    section: &[u8],
    owner: &[u8],
    count: usize,
    lines: &mut Lines<A>,
) -> Result<(), AllocError>
    requires { count < 2 ^ 63 }
    ensures { OnOk result (lines.new ≡ lines.old ++ unchecked_line section.now owner.now count) }
{
    if count == 0 {
        return Ok(());
    }
    lines.put(DiagKind::Unchecked, &[section, owner], &[count as i64])
}

/// Puts the lines on macros.
fn put_macros<'l, A: Allocator + Copy>(
    macros: &Named<'l, Macro<'l, A>, A>,
    lines: &mut Lines<A>,
) -> Result<(), AllocError>
    ensures { OnOk result (lines.new ≡ lines.old ++ flat_map unchecked_of_macro (macros_view macros.now)) }
{
    let mut place = 0;
    while let Some((name, cell)) = macros.at(place) {
        put_unchecked(b"MACRO", name, cell.unchecked(), lines)?;
        place += 1;
    }
    Ok(())
}

/// Puts the lines on vias of a library.
fn put_vias<'l, A: Allocator + Copy>(
    vias: &Named<'l, Via<'l, A>, A>,
    lines: &mut Lines<A>,
) -> Result<(), AllocError>
    ensures { OnOk result (lines.new ≡ lines.old ++ flat_map unchecked_of_via (vias_view vias.now)) }
{
    let mut place = 0;
    while let Some((name, via)) = vias.at(place) {
        put_unchecked(b"VIA", name, via.unchecked, lines)?;
        place += 1;
    }
    Ok(())
}

/// Puts the lines on the macros of a library, and then on its vias.
pub fn unchecked_in_library<A: Allocator + Copy>(
    library: &Library<'_, A>,
    lines: &mut Lines<A>,
) -> Result<(), AllocError>
    ensures { OnOk result (lines.new ≡ lines.old ++ unchecked_in_library library.now) }
{
    put_macros(library.macros(), lines)?;
    put_vias(library.vias(), lines)?;
    Ok(())
}
