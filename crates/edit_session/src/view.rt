//! Entries of the present text, lent with their parts.

ghost use Rattle.std.specs.Prelude.{IfSome};
ghost use Rattle.def_reader.specs.EntryViews.{entry_view};
ghost use Rattle.design_text.specs.DesignTexts.{text_of};
ghost use Rattle.edit_session.specs.Sessions.{HasParts, IsAlone, SaysAlone, Views};

use def_reader::entry::Entry;
use def_reader::read_statement::read_statement;
use design_model::mode::{Mode, Section};
use design_text::text::DesignText;
use edit_laws::alone::entries_stand_alone;
use std::alloc::Allocator;

/// An entry of a section. It borrows the text that it stands in, so no edit can be made while it lives.
#[derive(Clone, Copy)]
pub struct View<'v> {
    /// From its `-` to its `;`.
    pub bytes: &'v [u8],
    /// Where it begins in the text.
    pub pos: usize,
    /// Its parts. Their positions count from `pos`.
    pub parts: Entry<'v>,
}

/// The parts of an entry that is all of some bytes.
fn parts_of<'v>(section: Section, bytes: &'v [u8]) -> Entry<'v>
    requires { IsAlone section bytes.now }
    ensures says { SaysAlone section bytes.now (entry_view result) }
    ensures lent { HasParts section bytes.now result }
{
    let Ok(Some(read)) = read_statement(Mode::In(section), bytes, 0) else {
        unreachable!()
    };
    let Some(parts) = read.statement.entry() else {
        unreachable!()
    };
    parts
}

/// The entry of a section that has this name. Its parts are read from its bytes alone, so that their positions are those in them.
pub(crate) fn view_of<'v, A: Allocator + Copy>(
    text: &'v DesignText<A>,
    section: Section,
    name: &[u8],
) -> Option<View<'v>>
    ensures view { Views (text_of text.now) section name.now result }
    ensures lent { IfSome result (λ v. HasParts section v.bytes.now v.parts) }
{
    entries_stand_alone();
    text.text_reads();
    let entry = text.statement(section, name)?;
    let parts = parts_of(section, entry.bytes);
    Some(View {
        bytes: entry.bytes,
        pos: entry.pos,
        parts,
    })
}
