//! Sections whose headers say another number than that of their entries.

ghost use Rattle.std.specs.Prelude.{◌≡◌, ◌++◌, ◌<◌, ◌≤◌, ◌^◌, OnOk, length};
ghost use Rattle.design_rules.specs.CountLines.{count_lines, count_of, entries};
ghost use Rattle.def_reader.specs.StatementViews.{records_view};

use def_parts::number::int_of;
use def_reader::statement::Statement;
use design_model::diagnostic::DiagKind;
use design_model::mode::Section;
use report_lines::Lines;
use std::alloc::{AllocError, Allocator};

/// How many entries stand before the section's end.
fn entries_before_end(records: &[Statement<'_>]) -> usize
    ensures count { result ≡ entries (records_view records.now) }
    ensures few { result ≤ length records.now }
{
    let mut count = 0;
    for statement in records {
        if let Statement::EndSection(_) = statement {
            return count;
        }
        if let Statement::Entry(_) = statement {
            count += 1;
        }
    }
    count
}

/// Puts the line of a section whose header says another number than that of its entries.
pub fn put_count<A: Allocator + Copy>(
    section: Section,
    said: i32,
    found: usize,
    lines: &mut Lines<A>,
) -> Result<(), AllocError>
    requires { found < 2 ^ 63 }
    ensures { OnOk result (lines.new ≡ lines.old ++ count_of section said found) }
{
    if said as i64 == found as i64 {
        return Ok(());
    }
    lines.put(
        DiagKind::Count,
        &[section.word()],
        &[said as i64, found as i64],
    )
}

/// Puts a line for each section whose header says another number than that of its entries, in the order of the text.
pub fn counts_of<A: Allocator + Copy>(
    records: &[Statement<'_>],
    lines: &mut Lines<A>,
) -> Result<(), AllocError>
    ensures { OnOk result (lines.new ≡ lines.old ++ count_lines (records_view records.now)) }
{
    for (i, statement) in records.iter().enumerate() {
        let Statement::Header(section, number) = *statement else {
            continue;
        };
        let found = entries_before_end(&records[i + 1..]);
        or_error!(put_count(section, int_of(number.bytes), found, lines));
    }
    Ok(())
}
