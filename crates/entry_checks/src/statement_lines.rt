//! The lines on statements by themselves.

ghost use Rattle.std.specs.Prelude.{◌≡◌, ◌++◌, [], OnOk};
ghost use Rattle.def_grammar.specs.Records.{entry as the_entry, top};
ghost use Rattle.def_grammar.specs.Top.{floor, row};
ghost use Rattle.place_parts.specs.RowViews.{row_view};
ghost use Rattle.def_reader.specs.EntryViews.{entry_view};
ghost use Rattle.def_reader.specs.FloorViews.{floor_view};
ghost use Rattle.def_reader.specs.StatementViews.{record_view};
ghost use Rattle.entry_rules.specs.OffLayer.{off_layer_lines_of};
ghost use Rattle.entry_rules.specs.Unchecked.{unchecked_lines_of};
ghost use Rattle.entry_rules.specs.Unknown.{unknown_lines_of};
ghost use Rattle.entry_checks.specs.Definitions.{known_in, vias_in};
ghost use Rattle.entry_checks.specs.Kept.{AreKept};
ghost use Rattle.entry_checks.specs.Views.{AreSeen};

use crate::entry_name::name_or_dash;
use crate::found_via::FoundVias;
use crate::known::Known;
use crate::off_layers::off_layers_in;
use crate::unchecked::put_unchecked;
use crate::unchecked_entries::{push_entry, unchecked_in_die};
use crate::unknown::{Seen, put_references};
use def_reader::entry::Entry;
use def_reader::floor::Floor;
use def_reader::statement::Statement;
use entry_references::entries::push_row_references;
use entry_references::reference::Reference;
use place_parts::rows::RowParts;
use report_lines::Lines;
use std::alloc::{AllocError, Allocator, Global};
use std::marker::Model;

/// What was looked up for the statements before: names that are known, and vias.
#[derive(Drop)]
struct Kept<'a, 't> {
    seen: Seen<'t>,
    vias: FoundVias<'a>,
}

/// Checks of statements against what is defined. What they look up they keep, so one value serves a walk over all statements.
#[derive(Drop)]
pub struct StatementChecks<'a, 't, K: Known, A: Allocator = Global> {
    known: &'a K,
    kept: Kept<'a, 't>,
    /// What the last statement names. Its memory is taken once.
    references: Vec<Reference<'t>, A>,
}

impl<'a, 't, K: Known, A: Allocator> Model for StatementChecks<'a, 't, K, A> {
    ghost use Rattle.entry_checks.specs.Definitions.{Definitions};

    ghost Value = { Definitions };

    ghost use Rattle.entry_checks.specs.Kept.{AreKept};

    ghost view = { λ s. K.defined s.known.now };

    ghost invariant = { λ s. AreKept (K.defined s.known.now) s.kept };
}

/// Puts the lines on an entry behind others. The list of references is empty.
fn put_entry<'a, 't: 'a, K: Known, A: Allocator + Copy>(
    known: &'a K,
    entry: &Entry<'t>,
    kept: &mut Kept<'a, 't>,
    references: &mut Vec<Reference<'t>, A>,
    lines: &mut Lines<A>,
) -> Result<(), AllocError>
    requires empty { references.old.items ≡ [] }
    requires kept { AreKept (K.defined known.now) kept.old }
    ensures lines { let d = K.defined known.now in let r = the_entry (entry_view entry.now) in
        OnOk result (lines.new ≡ lines.old ++ (unknown_lines_of (known_in d) r ++ (off_layer_lines_of (vias_in d) r ++ unchecked_lines_of r))) }
    ensures kept { AreKept (K.defined known.now) kept.new }
{
    let unchecked = push_entry(entry, references)?;
    let section = entry.section().word();
    let name = name_or_dash(entry);
    put_references(known, section, name, &mut kept.seen, references, lines)?;
    off_layers_in(known, entry, references, &mut kept.vias, lines)?;
    put_unchecked(section, name, unchecked, lines)
}

/// Puts the lines on a row behind others. The list of references is empty.
fn put_row<'t, K: Known, A: Allocator + Copy>(
    known: &K,
    parts: &RowParts<'t>,
    seen: &mut Seen<'t>,
    references: &mut Vec<Reference<'t>, A>,
    lines: &mut Lines<A>,
) -> Result<(), AllocError>
    requires empty { references.old.items ≡ [] }
    requires seen { AreSeen (known_in (K.defined known.now)) seen.old }
    ensures lines { OnOk result (lines.new ≡ lines.old ++ unknown_lines_of (known_in (K.defined known.now)) (top (row (row_view parts.now)))) }
    ensures seen { AreSeen (known_in (K.defined known.now)) seen.new }
{
    push_row_references(parts, references)?;
    put_references(known, b"ROWS", parts.name.bytes, seen, references, lines)
}

/// Puts the lines on a statement about the floor behind others, a die of more than four sides counting as one part. The list of
/// references is empty.
fn put_floor<'t, K: Known, A: Allocator + Copy>(
    known: &K,
    statement: &Floor<'t>,
    seen: &mut Seen<'t>,
    references: &mut Vec<Reference<'t>, A>,
    lines: &mut Lines<A>,
) -> Result<(), AllocError>
    requires empty { references.old.items ≡ [] }
    requires seen { AreSeen (known_in (K.defined known.now)) seen.old }
    ensures lines { let d = K.defined known.now in let r = top (floor (floor_view statement.now)) in
        OnOk result (lines.new ≡ lines.old ++ (unknown_lines_of (known_in d) r ++ (off_layer_lines_of (vias_in d) r ++ unchecked_lines_of r))) }
    ensures seen { AreSeen (known_in (K.defined known.now)) seen.new }
{
    match statement {
        Floor::Row(row) => put_row(known, &row.parts(), seen, references, lines),
        Floor::DieArea(parts) => put_unchecked(b"DIEAREA", b"-", unchecked_in_die(parts), lines),
        Floor::Tracks(_) | Floor::GcellGrid(_) => Ok(()),
    }
}

/// Puts the lines on a statement by itself behind others. The list of references is written over.
fn put_statement<'a, 't: 'a, K: Known, A: Allocator + Copy>(
    known: &'a K,
    statement: &Statement<'t>,
    kept: &mut Kept<'a, 't>,
    references: &mut Vec<Reference<'t>, A>,
    lines: &mut Lines<A>,
) -> Result<(), AllocError>
    requires { AreKept (K.defined known.now) kept.old }
    ensures lines { let d = K.defined known.now in let r = record_view statement.now in
        OnOk result (lines.new ≡ lines.old ++ (unknown_lines_of (known_in d) r ++ (off_layer_lines_of (vias_in d) r ++ unchecked_lines_of r))) }
    ensures kept { AreKept (K.defined known.now) kept.new }
{
    references.clear();
    match statement {
        Statement::Entry(entry) => put_entry(known, entry, kept, references, lines),
        Statement::Floor(floor) => put_floor(known, floor, &mut kept.seen, references, lines),
        Statement::Units(_)
        | Statement::EndDesign
        | Statement::Properties
        | Statement::Extension(_)
        | Statement::Header(_, _)
        | Statement::Kept(_, _)
        | Statement::EndSection(_)
        | Statement::Property(_) => Ok(()),
    }
}

impl<'a, 't: 'a, K: Known, A: Allocator + Copy> StatementChecks<'a, 't, K, A> {
    /// Checks against these definitions, of which nothing was looked up yet. It takes no memory.
    pub fn new(alloc: A, known: &'a K) -> StatementChecks<'a, 't, K, A>
        ensures { result ≡ K.defined known.entry.now }
    {
        StatementChecks {
            known,
            kept: Kept {
                seen: Seen::new(),
                vias: FoundVias::new(),
            },
            references: Vec::new(alloc),
        }
    }

    /// Puts the lines on a statement by itself behind others, each family in the order of the text: on the names in it that aren't
    /// defined, on the vias in paths that don't join the layer of their wire to another, and on its parts that aren't checked.
    pub fn put(&mut self, statement: &Statement<'t>, lines: &mut Lines<A>) -> Result<(), AllocError>
        ensures lines { let d = self.old in let r = record_view statement.now in
            OnOk result (lines.new ≡ lines.old ++ (unknown_lines_of (known_in d) r ++ (off_layer_lines_of (vias_in d) r ++ unchecked_lines_of r))) }
        ensures same { self.new ≡ self.old }
    {
        put_statement(
            self.known,
            statement,
            &mut self.kept,
            &mut self.references,
            lines,
        )
    }
}
