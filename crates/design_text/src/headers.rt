//! What the headers of sections say, and how many entries these have, by the tables.

ghost use Rattle.std.specs.Prelude.{◌≡◌, ◌<◌, ◌^◌, length};
ghost use Rattle.std.specs.Option.{option_map};
ghost use Rattle.count_laws.specs.Counts.{header_number};
ghost use Rattle.edit_rules.specs.SectionEdits.{entries_in};
ghost use Rattle.lefdef_tokens.specs.Views.{word_view};
ghost use Rattle.def_reader.specs.StatementViews.{record_view};
ghost use Rattle.design_text.specs.DesignTexts.{design_of};
ghost use Rattle.design_text.specs.Headers.{number_in};

use crate::text::DesignText;
use def_reader::statement::Statement;
use design_model::mode::Section;
use std::alloc::Allocator;

/// The number in a header, as it is written.
fn number_of<'t>(statement: &Statement<'t>) -> Option<&'t [u8]>
    ensures { option_map word_view result ≡ number_in (record_view statement.now) }
{
    match statement {
        Statement::Header(_, number) => Some(number.bytes),
        _ => None,
    }
}

impl<A: Allocator + Copy> DesignText<A> {
    /// The number that the header of a section says, as it is written, if the text has that header. It alone is read.
    pub fn header_number(&self, section: Section) -> Option<&[u8]>
        ensures { option_map word_view result ≡ header_number section (design_of self.now) }
    {
        self.statements_are_known();
        self.design_is_read();
        let Some(id) = self.tables.header(section) else {
            return None;
        };
        let Some((statement, _)) = self.found(id) else {
            return None;
        };
        number_of(&statement)
    }

    /// How many entries a section has.
    pub fn section_entries(&self, section: Section) -> usize
        ensures count { result ≡ length (entries_in section (design_of self.now)) }
        ensures few { result < 2 ^ 63 }
    {
        self.statements_are_known();
        self.design_is_read();
        self.text_reads();
        self.tables.entries_in(section)
    }
}
