//! What is told of a text before an edit, so that the lines on its statements follow where the edit changes sections.

ghost use Rattle.std.specs.Prelude.{◌≡◌, IfOk, IfSome};
ghost use Rattle.std.specs.Option.{option_map};
ghost use Rattle.design_text.specs.DesignTexts.{design_of};
ghost use Rattle.followed_statements.specs.Telling.{AreStatementsTold};

use crate::listing::told_lines;
use cell_library::library::Library;
use design_text::text::DesignText;
use name_keys::OwnName;
use report_lines::Lines;
use std::alloc::{AllocError, Allocator, Global};

/// The component that an edit adds, removes, or gives another macro, if it does; and the lines on the headers of a text and on the
/// entries that list that component.
#[derive(Drop)]
pub struct ToldStatements<A: Allocator = Global> {
    pub(crate) lines: Lines<A>,
    pub(crate) component: Option<OwnName<A>>,
}

/// A copy of a name, if there is one.
fn copied<A: Allocator + Copy>(
    alloc: A,
    name: Option<&[u8]>,
) -> Result<Option<OwnName<A>>, AllocError>
    ensures { IfOk result (λ own. own ≡ option_map (λ c. c.now) name.entry) }
{
    match name {
        Some(name) => Ok(Some(OwnName::copy_of(alloc, name)?)),
        None => Ok(None),
    }
}

/// A name that is kept, if there is one.
pub(crate) fn name_in<A: Allocator>(name: &Option<OwnName<A>>) -> Option<&[u8]>
    ensures { option_map (λ c. c.now) result ≡ name.now }
{
    match name {
        Some(name) => Some(name.bytes()),
        None => None,
    }
}

/// Tells of a text what an edit of sections may change, which is of this component at most; `None` where many entries list it. The
/// headers and these entries alone are read.
pub fn tell_statements<A: Allocator + Copy>(
    alloc: A,
    library: &Library<'_, A>,
    text: &DesignText<A>,
    component: Option<&[u8]>,
) -> Result<Option<ToldStatements<A>>, AllocError>
    ensures { IfOk result (λ found. IfSome found (AreStatementsTold library.now (design_of text.now))) }
{
    let Some(lines) = told_lines(alloc, library, text, component)? else {
        return Ok(None);
    };
    Ok(Some(ToldStatements {
        lines,
        component: copied(alloc, component)?,
    }))
}
