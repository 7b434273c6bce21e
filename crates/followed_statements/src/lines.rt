//! The lines on statements, each by itself, and on headers.

ghost use Rattle.std.specs.Prelude.{◌≡◌, ◌++◌, IfOk, OnOk, flat_map, map};
ghost use Rattle.def_reader.specs.StatementViews.{record_view, records_view};
ghost use Rattle.line_laws.specs.Lines.{SameLines};
ghost use Rattle.report_rules.specs.Diagnostics.{statement_lines};
ghost use Rattle.staying_laws.specs.Staying.{lines_on_statements};
ghost use Rattle.text_pieces.specs.KeptRecords.{HavePieces, record_of};
ghost use Rattle.text_pieces.specs.Tables.{kept_at};
ghost use Rattle.design_text.specs.DesignTexts.{design_of};

use crate::counts::lines_on_headers;
use crate::defined_text::DefinedText;
use cell_library::library::Library;
use def_reader::statement::Statement;
use design_model::identifier::StmtId;
use design_text::text::DesignText;
use entry_checks::known::Known;
use entry_checks::statement_lines::StatementChecks;
use entry_checks::unchecked::unchecked_in_library;
use report_lines::Lines;
use std::alloc::{AllocError, Allocator};
use text_pieces::lent::chunks_go_on;

/// Puts the lines on one statement by itself behind others.
pub fn put_statement<'a, 't: 'a, K: Known, A: Allocator + Copy>(
    checks: &mut StatementChecks<'a, 't, K, A>,
    statement: &Statement<'t>,
    lines: &mut Lines<A>,
) -> Result<(), AllocError>
    ensures lines { OnOk result (lines.new ≡ lines.old ++ statement_lines checks.old.library checks.old.design (record_view statement.now)) }
    ensures same { checks.new ≡ checks.old }
{
    checks.put(statement, lines)?;
    Ok(())
}

/// Puts the lines on each of some statements by itself behind others.
pub(crate) fn put_statements<'a, 't: 'a, K: Known, A: Allocator + Copy>(
    checks: &mut StatementChecks<'a, 't, K, A>,
    statements: &[Statement<'t>],
    lines: &mut Lines<A>,
) -> Result<(), AllocError>
    ensures lines { OnOk result (lines.new ≡ lines.old ++ flat_map (statement_lines checks.old.library checks.old.design) (records_view statements.now)) }
    ensures same { checks.new ≡ checks.old }
{
    for statement in statements {
        put_statement(checks, statement, lines)?;
    }
    Ok(())
}

/// The lines on the statements that are kept under some numbers.
pub(crate) fn lines_under<A: Allocator + Copy>(
    alloc: A,
    library: &Library<'_, A>,
    text: &DesignText<A>,
    ids: &[StmtId],
) -> Result<Lines<A>, AllocError>
    requires { HavePieces text.now.pieces.table.slots ids.now }
    ensures { IfOk result (λ lines. lines ≡ flat_map (statement_lines library.now (design_of text.now)) (map (λ id. record_of (kept_at text.now.pieces.table.slots id)) ids.now)) }
{
    let statements = text.kept(alloc, ids)?;
    let defined = DefinedText { library, text };
    let mut checks = StatementChecks::new(alloc, &defined);
    let mut lines = Lines::new(alloc);
    put_statements(&mut checks, &statements, &mut lines)?;
    Ok(lines)
}

/// Puts the lines on each statement of a text by itself behind others. Each is read once, and those of one chunk alone are held.
fn put_all_statements<A: Allocator + Copy>(
    alloc: A,
    library: &Library<'_, A>,
    text: &DesignText<A>,
    lines: &mut Lines<A>,
) -> Result<(), AllocError>
    ensures { OnOk result (lines.new ≡ lines.old ++ flat_map (statement_lines library.now (design_of text.now)) (design_of text.now)) }
{
    chunks_go_on();
    text.statements_are_kept();
    let defined = DefinedText { library, text };
    let mut checks = StatementChecks::new(alloc, &defined);
    for place in 0..text.chunks() {
        let statements = text.kept(alloc, text.chunk(place))?;
        put_statements(&mut checks, &statements, lines)?;
    }
    Ok(())
}

/// The lines on the headers and the statements of a text and on its library, made anew, in an order that is left open. Each statement is read
/// once, with what the text's tables have of it, and few are held at a time.
pub fn lines_on_statements<A: Allocator + Copy>(
    alloc: A,
    library: &Library<'_, A>,
    text: &DesignText<A>,
) -> Result<Lines<A>, AllocError>
    ensures { IfOk result (λ l. SameLines l (lines_on_statements library.now (design_of text.now))) }
{
    let mut lines = lines_on_headers(alloc, text)?;
    put_all_statements(alloc, library, text, &mut lines)?;
    unchecked_in_library(library, &mut lines)?;
    Ok(lines)
}
