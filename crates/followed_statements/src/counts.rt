//! The lines on headers, by the tables of a text.

ghost use Rattle.std.specs.Prelude.{◌≡◌, ◌++◌, ◌<◌, ◌^◌, IfOk, OnOk, flat_map};
ghost use Rattle.std.specs.Option.{option_map};
ghost use Rattle.count_laws.specs.Counts.{header_lines, section_lines};
ghost use Rattle.design_rules.specs.CountLines.{count_lines};
ghost use Rattle.lefdef_tokens.specs.Views.{word_view};
ghost use Rattle.line_laws.specs.Lines.{SameLines};
ghost use Rattle.design_text.specs.DesignTexts.{design_of};

use count_laws::counts_are_by_section;
use def_parts::number::int_of;
use design_model::mode::Section;
use design_text::text::DesignText;
use place_checks::count::put_count;
use report_lines::Lines;
use std::alloc::{AllocError, Allocator};

/// All sections, in the order of the definition.
const SECTIONS: [Section; 14] = [
    Section::Components,
    Section::Nets,
    Section::SpecialNets,
    Section::Pins,
    Section::Vias,
    Section::NonDefaultRules,
    Section::Regions,
    Section::Blockages,
    Section::Groups,
    Section::ScanChains,
    Section::PinProperties,
    Section::Slots,
    Section::Fills,
    Section::Styles,
];

/// Puts the line on a header that says a number, if there is one, of a section with so many entries.
fn put_header<A: Allocator + Copy>(
    section: Section,
    number: Option<&[u8]>,
    found: usize,
    lines: &mut Lines<A>,
) -> Result<(), AllocError>
    requires { found < 2 ^ 63 }
    ensures { OnOk result (lines.new ≡ lines.old ++ header_lines section found (option_map word_view number.entry)) }
{
    match number {
        Some(number) => put_count(section, int_of(number), found, lines),
        None => Ok(()),
    }
}

/// Puts the line on the header of a section behind others.
fn put_section<A: Allocator + Copy>(
    text: &DesignText<A>,
    section: Section,
    lines: &mut Lines<A>,
) -> Result<(), AllocError>
    ensures { OnOk result (lines.new ≡ lines.old ++ section_lines (design_of text.now) section) }
{
    let number = text.header_number(section);
    let found = text.section_entries(section);
    put_header(section, number, found, lines)
}

/// Puts the lines on the headers of some sections behind others.
fn put_sections<A: Allocator + Copy>(
    text: &DesignText<A>,
    sections: &[Section],
    lines: &mut Lines<A>,
) -> Result<(), AllocError>
    ensures { OnOk result (lines.new ≡ lines.old ++ flat_map (section_lines (design_of text.now)) sections.now) }
{
    for section in sections {
        put_section(text, *section, lines)?;
    }
    Ok(())
}

/// The lines on the headers of a text, in an order that is left open. The headers alone are read.
pub(crate) fn lines_on_headers<A: Allocator + Copy>(
    alloc: A,
    text: &DesignText<A>,
) -> Result<Lines<A>, AllocError>
    ensures { IfOk result (λ l. SameLines l (count_lines (design_of text.now))) }
{
    counts_are_by_section();
    text.design_is_read();
    let mut lines = Lines::new(alloc);
    put_sections(text, &SECTIONS, &mut lines)?;
    Ok(lines)
}
