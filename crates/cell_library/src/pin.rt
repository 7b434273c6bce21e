//! Pins of macros.

ghost use Rattle.std.specs.Prelude.{refl};
ghost use Rattle.lef_grammar.specs.Definitions.{Pin as ThePin, opened_pin, pin_record, pin_with};
ghost use Rattle.lef_grammar.specs.LefRecords.{LefRecord};
ghost use Rattle.cell_library.specs.PinViews.{pin_name, pin_view};

use crate::definition::Definition;
use crate::shapes::{LayerShapes, count_unchecked, shapes_among};
use design_model::sequence::Sequence;
use lef_reader::macro_block::{InnerHeader, MacroStatement};
use lef_reader::statement::LefStatement;
use std::alloc::{AllocError, Allocator, Global};
use std::hash::RandomState;

/// A pin of a macro: the shapes of its ports, and how many of their parts aren't checked.
#[derive(Drop)]
pub struct Pin<'l, A: Allocator = Global> {
    pub shapes: Sequence<LayerShapes<'l, A>, A>,
    pub unchecked: usize,
}

impl<'n: 'l, 'l, A: Allocator + Copy> Definition<'n, A> for Pin<'l, A> {
    ghost Seen = { ThePin };

    ghost Part = { LefRecord };

    ghost view = { pin_view };

    ghost name_in = { pin_name };

    ghost header = { opened_pin };

    ghost part = { pin_record };

    ghost define = { pin_with };

    fn opened(statement: &LefStatement<'n>) -> Option<&'n [u8]> {
        match statement {
            LefStatement::InMacro(MacroStatement::Opens(InnerHeader::Pin(name))) => Some(
                name.bytes,
            ),
            _ => None,
        }
    }

    fn holds(statement: &LefStatement<'n>) -> bool {
        matches!(statement, LefStatement::InPin(_) | LefStatement::InPort(_))
    }

    fn read(
        alloc: A,
        _: RandomState,
        inner: &[LefStatement<'n>],
    ) -> Result<Pin<'l, A>, AllocError> {
        let unchecked = count_unchecked(inner);
        Ok(Pin {
            shapes: shapes_among(alloc, inner)?,
            unchecked,
        })
    }

    ghost named_so = { λ e. refl };
}
