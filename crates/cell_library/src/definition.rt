//! Definitions by name, as statements of a text make them.

ghost use Rattle.std.specs.Prelude.{◌≡◌, IfOk, List, OnOk, Option, [], map, ℕ};
ghost use Rattle.std.specs.List.{filter_map};
ghost use Rattle.std.specs.Option.{is_some, option_map};
ghost use Rattle.form_meanings.specs.Firsts.{front, headed, with_all};
ghost use Rattle.lef_grammar.specs.LefRecords.{LefRecord};
ghost use Rattle.lef_reader.specs.StatementViews.{lef_view};
ghost use Rattle.lefdef_tokens.specs.Views.{word_view};
ghost use Rattle.cell_library.specs.Records.{AreIn, records_view};

use crate::named::Named;
use lef_reader::statement::LefStatement;
use std::alloc::{AllocError, Allocator};
use std::hash::RandomState;

/// A kind of definitions: `header` says which statements open one, `part` which ones behind that belong to it, and `define`
/// what they say.
pub(crate) trait Definition<'l, A: Allocator + Copy>: Sized + Drop {
    ghost Seen: { Type 0 };

    ghost Part: { Type 0 };

    ghost view: { List ℕ × Self → Seen };

    ghost name_in: { Seen → List ℕ };

    ghost header: { LefRecord → Option (List ℕ) };

    ghost part: { LefRecord → Option Part };

    ghost define: { List ℕ × List Part → Seen };

    /// The name of the definition that a statement opens.
    fn opened(statement: &LefStatement<'l>) -> Option<&'l [u8]>
        ensures { option_map word_view result ≡ header (lef_view statement.now) };

    /// Whether a statement behind the header belongs to the definition.
    fn holds(statement: &LefStatement<'l>) -> bool
        ensures { result ≡ is_some (part (lef_view statement.now)) };

    /// The definition of the statements that belong to it.
    fn read(
        alloc: A,
        hash_builder: RandomState,
        inner: &[LefStatement<'l>],
    ) -> Result<Self, AllocError>
        requires { AreIn part (records_view inner.now) }
        ensures { IfOk result (λ d. (name : List ℕ) → view (name, d) ≡ define (name, filter_map part (records_view inner.now))) };

    ghost named_so: { (e : List ℕ × Self) → name_in (view e) ≡ e.0 };
}

/// The statements behind a header that belong to the definition.
fn inner_of<'s, 'l, A: Allocator + Copy, D: Definition<'l, A>>(
    behind: &'s [LefStatement<'l>],
) -> &'s [LefStatement<'l>]
    ensures inside { AreIn D.part (records_view result.now) }
    ensures all { filter_map D.part (records_view result.now) ≡ front D.part (records_view behind.now) }
{
    for place in 0..behind.len() {
        if !D::holds(&behind[place]) {
            return &behind[..place];
        }
    }
    behind
}

/// Adds what these statements define.
pub(crate) fn add_all<'l, A: Allocator + Copy, D: Definition<'l, A>>(
    alloc: A,
    named: &mut Named<'l, D, A>,
    statements: &[LefStatement<'l>],
) -> Result<(), AllocError>
    ensures { OnOk result (map D.view named.new ≡ with_all D.name_in (map D.view named.old) (map D.define (headed D.header D.part (records_view statements.now)))) }
{
    for place in 0..statements.len() {
        if let Some(name) = D::opened(&statements[place]) {
            let inner = inner_of::<A, D>(&statements[place + 1..]);
            let definition = D::read(alloc, named.hash_builder(), inner)?;
            named.add(name, definition)?;
        }
    }
    Ok(())
}

/// What these statements define.
pub(crate) fn read_all<'l, A: Allocator + Copy, D: Definition<'l, A>>(
    alloc: A,
    hash_builder: RandomState,
    statements: &[LefStatement<'l>],
) -> Result<Named<'l, D, A>, AllocError>
    ensures { IfOk result (λ named. map D.view named ≡ with_all D.name_in [] (map D.define (headed D.header D.part (records_view statements.now)))) }
{
    let mut named: Named<'l, D, A> = Named::new(alloc, hash_builder);
    add_all(alloc, &mut named, statements)?;
    Ok(named)
}
