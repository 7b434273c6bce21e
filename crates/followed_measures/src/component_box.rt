//! The box of one component of a text.

ghost use Rattle.std.specs.Prelude.{◌≡◌, IfOk, Some, map};
ghost use Rattle.std.specs.Option.{option_map};
ghost use Rattle.design_model.specs.Views.{rectangle_of};
ghost use Rattle.measuring_laws.specs.Measuring.{own_boxes};
ghost use Rattle.reports.specs.Densities.{box_shape, box_shapes};
ghost use Rattle.design_text.specs.DesignTexts.{design_of};
ghost use Rattle.design_text.specs.Exchanges.{records_in};
ghost use Rattle.followed_nets.specs.Noted.{AreCommon};

use cell_library::library::Library;
use design_model::geometry::Rect;
use design_model::identifier::StmtId;
use design_model::mode::Section;
use design_text::text::DesignText;
use followed_nets::entries::entry_in;
use line_laws::scales::scales_are_good;
use place_checks::boxes::box_of;
use place_checks::last_macros::LastMacros;
use place_checks::scale::scale_of;
use std::alloc::{AllocError, Allocator};

/// The box of the component of a name in a text, where it takes part. Its entry alone is read, and the statements that are read whichever
/// net is told, which have these numbers and tell the scale.
pub(crate) fn box_in<'t, A: Allocator + Copy>(
    alloc: A,
    library: &'t Library<'_, A>,
    text: &'t DesignText<A>,
    common: &[StmtId],
    component: &[u8],
) -> Result<Option<Rect>, AllocError>
    requires { AreCommon (records_in text.now) common.now }
    ensures { IfOk result (λ bounds. box_shapes (option_map rectangle_of bounds) ≡ map box_shape (own_boxes library.now (design_of text.now) (Some component.now))) }
{
    scales_are_good();
    text.statements_are_kept();
    text.design_is_read();
    let statements = text.kept(alloc, common)?;
    let Some(entry) = entry_in(text, Section::Components, component) else {
        return Ok(None);
    };
    let mut macros = LastMacros::new(library, scale_of(&statements));
    let Some(placed) = box_of(&mut macros, &entry) else {
        return Ok(None);
    };
    Ok(Some(placed.rect))
}
