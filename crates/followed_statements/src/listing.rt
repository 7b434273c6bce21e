//! The lines on the entries of nets that list a component, by the tables of a text.

ghost use Rattle.std.specs.Prelude.{◌≡◌, ◌++◌, IfOk, IfSome, flat_map, true};
ghost use Rattle.std.specs.Option.{option_map};
ghost use Rattle.line_laws.specs.Lines.{SameLines};
ghost use Rattle.report_rules.specs.Diagnostics.{statement_lines};
ghost use Rattle.design_text.specs.DesignTexts.{design_of};
ghost use Rattle.followed_statements.specs.Seen.{IsNoPin, listing};
ghost use Rattle.followed_statements.specs.Telling.{AreToldLines};

use crate::counts::lines_on_headers;
use crate::defined_text::DefinedText;
use crate::lines::put_statements;
use cell_library::library::Library;
use design_text::text::DesignText;
use entry_checks::statement_lines::StatementChecks;
use lefdef_tokens::is_word;
use report_lines::Lines;
use std::alloc::{AllocError, Allocator};

/// How many entries may list a component so that the lines on them are told.
const MOST_ENTRIES: usize = 1024;

/// Puts the lines on the entries that list a component behind others, unless they are many. Of the name that a pin of the design has
/// before it, it isn't said which these are.
fn put_listing<A: Allocator + Copy>(
    alloc: A,
    library: &Library<'_, A>,
    text: &DesignText<A>,
    component: &[u8],
    lines: &mut Lines<A>,
) -> Result<bool, AllocError>
    ensures lines { IfOk result (λ b. b ≡ true → SameLines lines.new (lines.old ++ flat_map (statement_lines library.now (design_of text.now)) (listing component.now (design_of text.now)))) }
    ensures no_pin { IfOk result (λ b. b ≡ true → IsNoPin component.now) }
{
    if is_word(component, b"PIN") {
        return Ok(false);
    }
    let Some(entries) = text.entries_listing(alloc, component, MOST_ENTRIES)? else {
        return Ok(false);
    };
    let defined = DefinedText { library, text };
    let mut checks = StatementChecks::new(alloc, &defined);
    put_statements(&mut checks, &entries, lines)?;
    Ok(true)
}

/// The lines on the headers of a text, and on the entries that list a component if there is one, in an order that is left open; `None`
/// where many entries list it. No other statement is read.
pub(crate) fn told_lines<A: Allocator + Copy>(
    alloc: A,
    library: &Library<'_, A>,
    text: &DesignText<A>,
    component: Option<&[u8]>,
) -> Result<Option<Lines<A>>, AllocError>
    ensures { IfOk result (λ found. IfSome found (AreToldLines library.now (design_of text.now) (option_map (λ c. c.now) component.entry))) }
{
    let mut lines = lines_on_headers(alloc, text)?;
    let Some(component) = component else {
        return Ok(Some(lines));
    };
    if put_listing(alloc, library, text, component, &mut lines)? {
        Ok(Some(lines))
    } else {
        Ok(None)
    }
}
