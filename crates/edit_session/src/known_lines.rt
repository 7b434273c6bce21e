//! Lines of a report that are known from one question to the next.

ghost use Rattle.std.specs.Prelude.{◌≡◌, true, IfOk, IsSome, List, Some, map};
ghost use Rattle.design_model.specs.Order.{texts};
ghost use Rattle.def_grammar.specs.Records.{Record};
ghost use Rattle.lef_grammar.specs.Library.{Library as TheLibrary};
ghost use Rattle.report_lines.specs.Kinds.{HaveTheirKinds};
ghost use Rattle.report_rules.specs.Diagnostics.{diagnostics};
ghost use Rattle.edit_session.specs.Known.{AllKnown, AreKnown, HasFollowed};

use crate::noted::FollowedLines;
use design_model::diagnostic::{DiagLine, DiagLines};
use kept_lines::{KeptLines, all_merged, copies};
use line_laws::sorting::{same_lines_sort_alike, sorting_is_by_lines};
use reports::Reports;
use staying_laws::parts_are_all;
use std::alloc::{AllocError, Allocator, Global};

/// The lines on a text in three parts, each as far as it was asked for and no edit since then can have changed it; and what was
/// measured of it with those on nets, until it is asked for or the text is edited.
pub(crate) struct KnownLines<A: Allocator = Global> {
    /// Those on headers, on each statement by itself, and on the library.
    pub(crate) statements: Option<KeptLines<A>>,
    /// Those on components.
    pub(crate) places: Option<KeptLines<A>>,
    /// Those on nets.
    pub(crate) nets: Option<KeptLines<A>>,
    pub(crate) measures: Option<Reports<A>>,
}

// (written out, so that an assignment to such lines is proved over one call)
impl<A: Allocator> Drop for KnownLines<A> {
    fn drop(self) {
        let KnownLines {
            statements: _,
            places: _,
            nets: _,
            measures: _,
        } = self;
    }
}

/// The lines of a part that is known.
fn kept_of<A: Allocator>(part: &Option<KeptLines<A>>) -> &KeptLines<A>
    requires { IsSome part.now }
    ensures { part.now ≡ Some result.now }
{
    match part {
        Some(kept) => kept,
        None => unreachable!(),
    }
}

impl<A: Allocator + Copy> KnownLines<A> {
    /// Nothing is known, of any text.
    pub(crate) fn none() -> KnownLines<A>
        ensures { (library : TheLibrary) (design : List Record) → AreKnown library design result }
    {
        KnownLines {
            statements: None,
            places: None,
            nets: None,
            measures: None,
        }
    }

    /// Whether all lines are known.
    pub(crate) fn are_all(&self) -> bool
        ensures { result ≡ true → AllKnown self.now }
    {
        self.statements.is_some() && self.places.is_some() && self.nets.is_some()
    }

    /// Makes lines that followed an edit known.
    pub(crate) fn put(&mut self, lines: FollowedLines<A>)
        ensures { (library : TheLibrary) (design : List Record) → AreKnown library design self.old → HasFollowed library design lines → AreKnown library design self.new }
    {
        let FollowedLines {
            statements,
            places,
            nets,
            tests: _,
        } = lines;
        if statements.is_some() {
            self.statements = statements;
        }
        if places.is_some() {
            self.places = places;
        }
        if nets.is_some() {
            self.nets = nets;
        }
    }

    /// All lines, in the order of their bytes. Each part is in that order, so they are merged and not sorted.
    pub(crate) fn lent(&self, alloc: A) -> Result<Vec<&DiagLine<A>, A>, AllocError>
        requires { AllKnown self.now }
        ensures lines { (library : TheLibrary) (design : List Record) → AreKnown library design self.now → IfOk result (λ v. texts (map (λ l. l.now) v.items) ≡ diagnostics library design) }
        ensures kinds { IfOk result (λ v. HaveTheirKinds (map (λ l. l.now) v.items)) }
    {
        same_lines_sort_alike();
        sorting_is_by_lines();
        parts_are_all();
        let statements = kept_of(&self.statements);
        let places = kept_of(&self.places);
        let nets = kept_of(&self.nets);
        all_merged(alloc, statements, places, nets)
    }

    /// Copies of all lines, in the order of their bytes.
    pub(crate) fn joined(&self, alloc: A) -> Result<DiagLines<A>, AllocError>
        requires { AllKnown self.now }
        ensures lines { (library : TheLibrary) (design : List Record) → AreKnown library design self.now → IfOk result (λ lines. texts lines ≡ diagnostics library design) }
        ensures kinds { IfOk result (λ lines. HaveTheirKinds lines) }
    {
        let lent = self.lent(alloc)?;
        copies(alloc, &lent)
    }
}
