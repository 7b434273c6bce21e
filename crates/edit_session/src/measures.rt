//! What is measured of a text, which follows its edits.

ghost use Rattle.std.specs.Prelude.{IfOk, IfSome};
ghost use Rattle.design_text.specs.DesignTexts.{Content, text_of};
ghost use Rattle.design_text.specs.Exchanges.{AreExchanges, records_in};
ghost use Rattle.followed_measures.specs.FollowedMeasures.{HasMeasures};
ghost use Rattle.followed_measures.specs.Told.{IsToldIn};
ghost use Rattle.followed_measures.specs.ToldViews.{told_view};
ghost use Rattle.followed_places.specs.Places.{said};
ghost use Rattle.reports.specs.Answers.{ReportsOn};
ghost use Rattle.edit_session.specs.Known.{AreKnownOf, HasNoted};
ghost use Rattle.edit_session.specs.Sessions.{AnswersOn};

use crate::change::Change;
use crate::known_lines::KnownLines;
use crate::nets::net_of;
use crate::noted::Noted;
use crate::places::component_of;
use cell_library::library::Library;
use def_reader::entry::Entry;
use def_reader::statement::Statement;
use design_text::made::Made;
use design_text::text::DesignText;
use edit_model::edit::Edit;
use followed_measures::{FollowedMeasures, ToldMeasures};
use reports::Reports;
use std::alloc::{AllocError, Allocator};
use wire_parts::nets::NetEntry;

/// What was measured of a text, if that is kept or was made with its lines, and else what is measured of it now.
fn kept_or_made<A: Allocator + Copy>(
    alloc: A,
    library: &Library<'_, A>,
    text: &DesignText<A>,
    kept: Option<FollowedMeasures<A>>,
    made: Option<Reports<A>>,
) -> Result<FollowedMeasures<A>, AllocError>
    requires kept { IfSome kept (HasMeasures library.now (records_in text.now)) }
    requires made { IfSome made (ReportsOn library.now (said (records_in text.now))) }
    ensures { IfOk result (HasMeasures library.now (records_in text.now)) }
{
    if let Some(measures) = kept {
        return Ok(measures);
    }
    match made {
        Some(reports) => Ok(FollowedMeasures::made(reports)),
        None => FollowedMeasures::of(alloc, library, text),
    }
}

/// What is measured of a text, which is then neither noted nor known with its lines.
pub(crate) fn take_measures<A: Allocator + Copy>(
    alloc: A,
    library: &Library<'_, A>,
    text: &DesignText<A>,
    noted: &mut Noted<A>,
    known: &mut KnownLines<A>,
) -> Result<FollowedMeasures<A>, AllocError>
    requires noted { HasNoted library.now (records_in text.now) noted.old }
    requires known { AreKnownOf library.now (text_of text.now) known.old }
    ensures noted { HasNoted library.now (records_in text.now) noted.new }
    ensures known { AreKnownOf library.now (text_of text.now) known.new }
    ensures measures { IfOk result (HasMeasures library.now (records_in text.now)) }
    ensures answers { IfOk result (λ m. AnswersOn library.now (text_of text.now) m.answers) }
{
    text.statements_are_kept();
    text.design_is_read();
    let kept = noted.measures.take();
    let made = known.measures.take();
    kept_or_made(alloc, library, text, kept, made)
}

/// What is measured of the net or of the component that an edit of the design is of.
fn told_of_edit<A: Allocator + Copy>(
    alloc: A,
    library: &Library<'_, A>,
    text: &DesignText<A>,
    edit: &Edit<'_>,
    measures: &mut FollowedMeasures<A>,
) -> Result<Option<ToldMeasures<A>>, AllocError>
    requires { HasMeasures library.now (records_in text.now) measures.old }
    ensures told { IfOk result (λ found. IfSome found (λ t. IsToldIn library.now (said (records_in text.now)) (told_view t))) }
    ensures measures { HasMeasures library.now (records_in text.now) measures.new }
{
    text.statements_are_kept();
    if let Some(net) = net_of(edit) {
        return measures.told_by_net(alloc, library, text, net);
    }
    match component_of(edit) {
        Some(component) => measures.told_by_component(alloc, library, text, component),
        None => Ok(Some(ToldMeasures::nothing(alloc))),
    }
}

/// What is measured of the net or of the component of the entry in which a position of a text lies, if it lies in one.
fn told_at<A: Allocator + Copy>(
    alloc: A,
    library: &Library<'_, A>,
    text: &DesignText<A>,
    position: usize,
    measures: &mut FollowedMeasures<A>,
) -> Result<Option<ToldMeasures<A>>, AllocError>
    requires { HasMeasures library.now (records_in text.now) measures.old }
    ensures told { IfOk result (λ found. IfSome found (λ t. IsToldIn library.now (said (records_in text.now)) (told_view t))) }
    ensures measures { HasMeasures library.now (records_in text.now) measures.new }
{
    text.statements_are_kept();
    match text.statement_at(position) {
        Some(Statement::Entry(Entry::Component(parts))) => {
            measures.told_by_component(alloc, library, text, parts.name.bytes)
        }
        Some(Statement::Entry(Entry::Net(NetEntry::Net(net)))) => {
            measures.told_by_net(alloc, library, text, net.name.bytes)
        }
        Some(Statement::Entry(Entry::SpecialNet(net))) => {
            measures.told_by_net(alloc, library, text, net.name.bytes)
        }
        _ => Ok(Some(ToldMeasures::nothing(alloc))),
    }
}

/// What is measured of what an edit is about to change.
fn told_of<A: Allocator + Copy>(
    alloc: A,
    library: &Library<'_, A>,
    text: &DesignText<A>,
    change: Change<'_, '_>,
    measures: &mut FollowedMeasures<A>,
) -> Result<Option<ToldMeasures<A>>, AllocError>
    requires { HasMeasures library.now (records_in text.now) measures.old }
    ensures told { IfOk result (λ found. IfSome found (λ t. IsToldIn library.now (said (records_in text.now)) (told_view t))) }
    ensures measures { HasMeasures library.now (records_in text.now) measures.new }
{
    match change {
        Change::Design(edit) => told_of_edit(alloc, library, text, edit, measures),
        Change::Text(position) => told_at(alloc, library, text, position, measures),
    }
}

/// What is measured of what an edit is about to change, where measures are noted and can follow it.
pub(crate) fn tell_measures<A: Allocator + Copy>(
    alloc: A,
    library: &Library<'_, A>,
    text: &DesignText<A>,
    change: Change<'_, '_>,
    noted: &mut Option<FollowedMeasures<A>>,
) -> Option<ToldMeasures<A>>
    requires { IfSome noted.old (HasMeasures library.now (records_in text.now)) }
    ensures noted { IfSome noted.new (HasMeasures library.now (records_in text.now)) }
    ensures told { IfSome result (λ t. IsToldIn library.now (said (records_in text.now)) (told_view t)) }
{
    let mut measures = noted.take()?;
    let told = told_of(alloc, library, text, change, &mut measures);
    *noted = Some(measures);
    match told {
        Ok(found) => found,
        Err(_) => None,
    }
}

/// Lets measures that are noted follow an edit, where what it changes was told before it. Else they are forgotten.
pub(crate) fn follow_measures<A: Allocator + Copy>(
    alloc: A,
    library: &Library<'_, A>,
    text: &DesignText<A>,
    made: &Made<A>,
    told: Option<ToldMeasures<A>>,
    noted: &mut Option<FollowedMeasures<A>>,
)
    requires { (old : Content) × AreExchanges text.now.pieces.table.slots (records_in old) made.now.exchanges (records_in text.now) × IfSome told (λ t. IsToldIn library.now (said (records_in old)) (told_view t)) × IfSome noted.old (HasMeasures library.now (records_in old)) }
    ensures { IfSome noted.new (HasMeasures library.now (records_in text.now)) }
{
    let kept = noted.take();
    let (Some(measures), Some(told)) = (kept, told) else {
        return;
    };
    let mut measures = measures;
    if let Ok(true) = measures.follow(alloc, library, text, made, told) {
        *noted = Some(measures);
    }
}
