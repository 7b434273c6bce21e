//! The answers to what lines ask of a design.

ghost use Rattle.std.specs.Prelude.{◌≡◌, ◌^◌, ◌<◌, ◌+◌, IfOk, IsOk, Result, ℕ, List};
ghost use Rattle.def_grammar.specs.Records.{read_def};
ghost use Rattle.edit_model.specs.declared.edit.EditCode.{EditCode};
ghost use Rattle.edit_model.specs.declared.edit.EditRefusal.TheVariants.{Refused};
ghost use Rattle.measure_rules.specs.Density.{cell_density, place_density};
ghost use Rattle.edit_rules.specs.Script.{ask, box_of, density_of, length_of, place_density_of, report, shown, total_length};
ghost use Rattle.report_rules.specs.Output.{LineAnswers, at_numbers, cell_line, place_cell_line, refusal_line};
ghost use Rattle.script_lines.specs.Orders.{question_seen};
ghost use Rattle.edit_script.specs.Answered.{Grows, HasRoom, counts_of};
ghost use Rattle.edit_script.specs.Questions.{Asks, at_place};

use crate::run::{Tally, counted_reply};
use design_model::identifier::LayerId;
use design_model::mode::Section;
use design_model::number::NumFault;
use edit_model::edit::{EditCode, EditRefusal};
use edit_session::session::Session;
use script_lines::answer::entry_text;
use script_lines::command::Question;
use script_lines::measured::{box_text, cell_text, length_text, place_cell_text, total_text};
use std::alloc::{AllocError, Allocator};

/// The answer to a question that is refused.
fn refused<A: Allocator>(
    alloc: A,
    number: u64,
    code: EditCode,
    tally: &mut Tally,
) -> Result<Vec<u8, A>, AllocError>
    requires { HasRoom tally.old }
    ensures text { IfOk result (λ v. v.items ≡ refusal_line number (Refused code)) }
    ensures counts { IfOk result (λ _. counts_of tally.new ≡ record (counts_of tally.old) { refused = (counts_of tally.old).refused + 1 }) }
    ensures grows { Grows tally.old tally.new }
{
    let reply = Err(EditRefusal::Refused(code));
    counted_reply(alloc, number, reply, tally)
}

/// The answer to `check`.
fn check_answer<A: Allocator + Copy>(
    session: &mut Session<'_, '_, A>,
    number: u64,
    tally: &mut Tally,
) -> Result<Vec<u8, A>, AllocError>
    requires reads { IsOk (read_def session.old.text) }
    ensures gives { IfOk result (λ v. LineAnswers session.old.library number (ask report) session.old.text (counts_of tally.old) v.items session.new.text (counts_of tally.new)) }
    ensures same { session.new ≡ session.old }
    ensures tally { tally.new ≡ tally.old }
{
    session.printed_diagnostics()
}

/// The answer to `show S n`.
fn show_answer<A: Allocator + Copy>(
    alloc: A,
    session: &Session<'_, '_, A>,
    number: u64,
    section: Section,
    name: &[u8],
    tally: &mut Tally,
) -> Result<Vec<u8, A>, AllocError>
    requires room { HasRoom tally.old }
    requires reads { IsOk (read_def session.now.text) }
    ensures gives { IfOk result (λ v. LineAnswers session.now.library number (ask (shown section name.now)) session.now.text (counts_of tally.old) v.items session.now.text (counts_of tally.new)) }
    ensures grows { Grows tally.old tally.new }
{
    match session.statement(section, name) {
        Some(entry) => entry_text(alloc, entry.bytes),
        None => refused(alloc, number, EditCode::UnknownName, tally),
    }
}

/// The answer to `length`.
fn total_answer<A: Allocator + Copy>(
    alloc: A,
    session: &mut Session<'_, '_, A>,
    number: u64,
    tally: &mut Tally,
) -> Result<Vec<u8, A>, AllocError>
    requires reads { IsOk (read_def session.old.text) }
    ensures gives { IfOk result (λ v. LineAnswers session.old.library number (ask total_length) session.old.text (counts_of tally.old) v.items session.new.text (counts_of tally.new)) }
    ensures same { session.new ≡ session.old }
    ensures tally { tally.new ≡ tally.old }
{
    let total = session.total_length()?;
    total_text(alloc, total)
}

/// The answer to `length n`.
fn length_answer<A: Allocator + Copy>(
    alloc: A,
    session: &mut Session<'_, '_, A>,
    number: u64,
    net: &[u8],
    tally: &mut Tally,
) -> Result<Vec<u8, A>, AllocError>
    requires room { HasRoom tally.old }
    requires reads { IsOk (read_def session.old.text) }
    ensures gives { IfOk result (λ v. LineAnswers session.old.library number (ask (length_of net.now)) session.old.text (counts_of tally.old) v.items session.new.text (counts_of tally.new)) }
    ensures same { session.new ≡ session.old }
    ensures grows { Grows tally.old tally.new }
{
    match session.net_length(net)? {
        Some(length) => length_text(alloc, net, length),
        None => refused(alloc, number, EditCode::UnknownName, tally),
    }
}

/// The answer to `box n`.
fn box_answer<A: Allocator + Copy>(
    alloc: A,
    session: &mut Session<'_, '_, A>,
    number: u64,
    net: &[u8],
    tally: &mut Tally,
) -> Result<Vec<u8, A>, AllocError>
    requires room { HasRoom tally.old }
    requires reads { IsOk (read_def session.old.text) }
    ensures gives { IfOk result (λ v. LineAnswers session.old.library number (ask (box_of net.now)) session.old.text (counts_of tally.old) v.items session.new.text (counts_of tally.new)) }
    ensures same { session.new ≡ session.old }
    ensures grows { Grows tally.old tally.new }
{
    match session.net_box(net)? {
        Some(bounds) => box_text(alloc, net, bounds),
        None => refused(alloc, number, EditCode::UnknownName, tally),
    }
}

/// The column and the row of these numbers, or why there is no cell there.
fn place_of(
    column: Result<i32, NumFault>,
    row: Result<i32, NumFault>,
) -> Result<(u32, u32), EditCode>
    ensures { (answer : ℕ → ℕ → Result (List ℕ) EditCode) → at_numbers column row answer ≡ at_place result answer }
{
    let Ok(column) = column else {
        return Err(EditCode::Number);
    };
    let Ok(row) = row else {
        return Err(EditCode::Number);
    };
    if column < 0 || row < 0 {
        return Err(EditCode::Range);
    }
    Ok((column as u32, row as u32))
}

/// The answer to `cell i j l` for numbers and a layer that are good.
fn density_answer<A: Allocator + Copy>(
    alloc: A,
    session: &mut Session<'_, '_, A>,
    number: u64,
    place: (u32, u32),
    layer: (LayerId, &[u8]),
    tally: &mut Tally,
) -> Result<Vec<u8, A>, AllocError>
    requires room { HasRoom tally.old }
    requires reads { IsOk (read_def session.old.text) }
    ensures gives { let library = session.old.library in
        IfOk result (λ v. Asks session.old.text number (λ design. cell_line place.0 place.1 layer.entry.1.now (cell_density library design place.0 place.1 layer.entry.0.0)) v.items (counts_of tally.old) (counts_of tally.new)) }
    ensures same { session.new ≡ session.old }
    ensures grows { Grows tally.old tally.new }
{
    let (column, row) = place;
    match session.cell(column as usize, row as usize, layer.0)? {
        Some(area) => cell_text(alloc, column as u64, row as u64, layer.1, area),
        None => refused(alloc, number, EditCode::Range, tally),
    }
}

/// The answer to `cell i j l` on a layer that is known.
fn on_layer<A: Allocator + Copy>(
    alloc: A,
    session: &mut Session<'_, '_, A>,
    number: u64,
    place: Result<(u32, u32), EditCode>,
    layer: (LayerId, &[u8]),
    tally: &mut Tally,
) -> Result<Vec<u8, A>, AllocError>
    requires room { HasRoom tally.old }
    requires reads { IsOk (read_def session.old.text) }
    ensures gives { let library = session.old.library in
        IfOk result (λ v. Asks session.old.text number (λ design. at_place place (λ c r. cell_line c r layer.entry.1.now (cell_density library design c r layer.entry.0.0))) v.items (counts_of tally.old) (counts_of tally.new)) }
    ensures same { session.new ≡ session.old }
    ensures grows { Grows tally.old tally.new }
{
    match place {
        Ok(place) => density_answer(alloc, session, number, place, layer, tally),
        Err(code) => refused(alloc, number, code, tally),
    }
}

/// The answer to `cell i j l`: a layer that isn't known is told before a wrong number, and that before a cell that isn't there.
fn cell_answer<A: Allocator + Copy>(
    alloc: A,
    session: &mut Session<'_, '_, A>,
    number: u64,
    column: Result<i32, NumFault>,
    row: Result<i32, NumFault>,
    layer: &[u8],
    tally: &mut Tally,
) -> Result<Vec<u8, A>, AllocError>
    requires room { HasRoom tally.old }
    requires reads { IsOk (read_def session.old.text) }
    ensures gives { IfOk result (λ v. LineAnswers session.old.library number (ask (density_of column row layer.now)) session.old.text (counts_of tally.old) v.items session.new.text (counts_of tally.new)) }
    ensures same { session.new ≡ session.old }
    ensures grows { Grows tally.old tally.new }
{
    match session.layer(layer) {
        Some(id) => on_layer(
            alloc,
            session,
            number,
            place_of(column, row),
            (id, layer),
            tally,
        ),
        None => refused(alloc, number, EditCode::UnknownName, tally),
    }
}

/// The answer to `pcell i j` for numbers that are good.
fn place_density_answer<A: Allocator + Copy>(
    alloc: A,
    session: &mut Session<'_, '_, A>,
    number: u64,
    place: (u32, u32),
    tally: &mut Tally,
) -> Result<Vec<u8, A>, AllocError>
    requires room { HasRoom tally.old }
    requires reads { IsOk (read_def session.old.text) }
    ensures gives { let library = session.old.library in
        IfOk result (λ v. Asks session.old.text number (λ design. place_cell_line place.0 place.1 (place_density library design place.0 place.1)) v.items (counts_of tally.old) (counts_of tally.new)) }
    ensures same { session.new ≡ session.old }
    ensures grows { Grows tally.old tally.new }
{
    let (column, row) = place;
    match session.place_cell(column as usize, row as usize)? {
        Some(area) => place_cell_text(alloc, column as u64, row as u64, area),
        None => refused(alloc, number, EditCode::Range, tally),
    }
}

/// The answer to `pcell i j`.
fn place_cell_answer<A: Allocator + Copy>(
    alloc: A,
    session: &mut Session<'_, '_, A>,
    number: u64,
    column: Result<i32, NumFault>,
    row: Result<i32, NumFault>,
    tally: &mut Tally,
) -> Result<Vec<u8, A>, AllocError>
    requires room { HasRoom tally.old }
    requires reads { IsOk (read_def session.old.text) }
    ensures gives { IfOk result (λ v. LineAnswers session.old.library number (ask (place_density_of column row)) session.old.text (counts_of tally.old) v.items session.new.text (counts_of tally.new)) }
    ensures same { session.new ≡ session.old }
    ensures grows { Grows tally.old tally.new }
{
    match place_of(column, row) {
        Ok(place) => place_density_answer(alloc, session, number, place, tally),
        Err(code) => refused(alloc, number, code, tally),
    }
}

/// The answer to a question, which is counted where it is refused.
pub(crate) fn answer_question<A: Allocator + Copy>(
    alloc: A,
    session: &mut Session<'_, '_, A>,
    number: u64,
    question: Question<'_>,
    tally: &mut Tally,
) -> Result<Vec<u8, A>, AllocError>
    requires room { HasRoom tally.old }
    requires reads { IsOk (read_def session.old.text) }
    ensures gives { IfOk result (λ v. LineAnswers session.old.library number (ask (question_seen question.entry)) session.old.text (counts_of tally.old) v.items session.new.text (counts_of tally.new)) }
    ensures same { session.new ≡ session.old }
    ensures grows { Grows tally.old tally.new }
{
    match question {
        Question::Report => check_answer(session, number, tally),
        Question::Show(section, name) => show_answer(alloc, session, number, section, name, tally),
        Question::TotalLength => total_answer(alloc, session, number, tally),
        Question::Length(net) => length_answer(alloc, session, number, net, tally),
        Question::Box(net) => box_answer(alloc, session, number, net, tally),
        Question::Cell { column, row, layer } => {
            cell_answer(alloc, session, number, column, row, layer, tally)
        }
        Question::PlaceCell { column, row } => {
            place_cell_answer(alloc, session, number, column, row, tally)
        }
    }
}
