//! The lines on nets, which follow an edit by the nets that it touches.

ghost use Rattle.std.specs.Prelude.{◌≡◌, IfOk, IfSome, List, Option, Some};
ghost use Rattle.def_grammar.specs.Records.{Record};
ghost use Rattle.design_text.specs.DesignTexts.{Content};
ghost use Rattle.design_text.specs.Exchanges.{records_in};
ghost use Rattle.followed_nets.specs.FollowedNets.{HasNets};
ghost use Rattle.followed_nets.specs.Touched.{AreTouched};
ghost use Rattle.followed_places.specs.Places.{said};
ghost use Rattle.edit_rules.specs.Edits.{change_of};
ghost use Rattle.edit_session.specs.Known.{AreKnown, AreOnNets, Touches};
ghost use Rattle.edit_session.specs.Tests.{FewShapes, IsSubject, Subject, TouchesOnly, one_component, one_net, subject_of};

use crate::change::Change;
use crate::known_lines::KnownLines;
use crate::no_nets::has_nets;
use crate::part::FollowedPart;
use crate::places::component_of;
use cell_library::library::Library;
use def_reader::entry::Entry;
use def_reader::statement::Statement;
use design_text::made::Made;
use design_text::text::DesignText;
use edit_model::edit::Edit;
use followed_nets::{FollowedNets, FollowedOnNets, TouchedNets};
use std::alloc::{AllocError, Allocator};
use wire_parts::nets::NetEntry;

/// The net that an edit is of, if it is one of a net.
pub(crate) fn net_of<'e>(edit: &Edit<'e>) -> Option<&'e [u8]>
    ensures { IfSome result (λ n. subject_of (change_of edit.now) ≡ Some (one_net n.now)) }
{
    match edit {
        Edit::Connect { net, .. } => Some(*net),
        Edit::Disconnect { net, .. } => Some(*net),
        Edit::Route { net, .. } => Some(*net),
        Edit::Unroute { net } => Some(*net),
        Edit::Place { .. }
        | Edit::Unplace { .. }
        | Edit::Remaster { .. }
        | Edit::Add { .. }
        | Edit::Remove { .. }
        | Edit::Block { .. } => None,
    }
}

/// The nets that an edit of the design is about to change: none where it is neither of a component nor of a net.
fn touched_by_edit<A: Allocator + Copy>(
    alloc: A,
    library: &Library<'_, A>,
    text: &DesignText<A>,
    edit: &Edit<'_>,
    nets: &FollowedNets<A>,
) -> Result<Option<TouchedNets<A>>, AllocError>
    requires { HasNets library.now (records_in text.now) nets.now }
    ensures touched { IfOk result (λ found. IfSome found (AreTouched library.now (said (records_in text.now)))) }
    ensures only { IfOk result (λ found. IfSome found (TouchesOnly (said (records_in text.now)) (subject_of (change_of edit.now)))) }
{
    text.statements_are_kept();
    if let Some(net) = net_of(edit) {
        return nets.touched_by_net(alloc, library, text, net);
    }
    match component_of(edit) {
        Some(component) => nets.touched_by_component(alloc, library, text, component),
        None => Ok(Some(TouchedNets::none(alloc))),
    }
}

/// The nets that an edit of the text is about to change, if it is one within this entry.
fn touched_by_entry<A: Allocator + Copy>(
    alloc: A,
    library: &Library<'_, A>,
    text: &DesignText<A>,
    entry: &Entry<'_>,
    nets: &FollowedNets<A>,
) -> Result<Option<TouchedNets<A>>, AllocError>
    requires { HasNets library.now (records_in text.now) nets.now }
    ensures touched { IfOk result (λ found. IfSome found (AreTouched library.now (said (records_in text.now)))) }
    ensures only { (subject : Option Subject) × IfOk result (λ found. IfSome found (TouchesOnly (said (records_in text.now)) subject)) }
{
    text.statements_are_kept();
    match entry {
        Entry::Component(parts) => {
            nets.touched_by_component(alloc, library, text, parts.name.bytes)
        }
        Entry::Net(NetEntry::Net(net)) => {
            nets.touched_by_net(alloc, library, text, net.name.bytes)
        }
        Entry::SpecialNet(net) => nets.touched_by_net(alloc, library, text, net.name.bytes),
        Entry::Pin(parts) => nets.touched_by_pin(alloc, library, text, parts.name.bytes),
        _ => Ok(Some(TouchedNets::none(alloc))),
    }
}

/// The nets that an edit of the text from a position on is about to change, if it is one within a statement.
fn touched_by_text<A: Allocator + Copy>(
    alloc: A,
    library: &Library<'_, A>,
    text: &DesignText<A>,
    position: usize,
    nets: &FollowedNets<A>,
) -> Result<Option<TouchedNets<A>>, AllocError>
    requires { HasNets library.now (records_in text.now) nets.now }
    ensures touched { IfOk result (λ found. IfSome found (AreTouched library.now (said (records_in text.now)))) }
    ensures only { (subject : Option Subject) × IfOk result (λ found. IfSome found (TouchesOnly (said (records_in text.now)) subject)) }
{
    match text.statement_at(position) {
        Some(Statement::Entry(entry)) => touched_by_entry(alloc, library, text, &entry, nets),
        _ => Ok(Some(TouchedNets::none(alloc))),
    }
}

/// The nets that an edit is about to change, where it is one that can be followed.
fn touched<A: Allocator + Copy>(
    alloc: A,
    library: &Library<'_, A>,
    text: &DesignText<A>,
    change: Change<'_, '_>,
    nets: &FollowedNets<A>,
) -> Result<Option<TouchedNets<A>>, AllocError>
    requires { HasNets library.now (records_in text.now) nets.now }
    ensures touched { IfOk result (λ found. IfSome found (AreTouched library.now (said (records_in text.now)))) }
    ensures only { (subject : Option Subject) × IsSubject change.entry subject × IfOk result (λ found. IfSome found (TouchesOnly (said (records_in text.now)) subject)) }
{
    match change {
        Change::Design(edit) => touched_by_edit(alloc, library, text, edit, nets),
        Change::Text(position) => touched_by_text(alloc, library, text, position, nets),
    }
}

/// Whether an edit isn't one of what any net may be made of, as `UNITS`, vias and rules are.
fn is_followed<A: Allocator + Copy>(text: &DesignText<A>, change: Change<'_, '_>) -> bool {
    match change {
        Change::Design(_) => true,
        Change::Text(position) => match text.statement_at(position) {
            Some(Statement::Entry(entry)) => { !matches!(entry, Entry::Via(_) | Entry::Rule(_)) }
            Some(Statement::Units(_)) => false,
            _ => true,
        },
    }
}

/// Notes the nets of a text, unless they are noted. Where memory is refused they aren't.
fn note<A: Allocator + Copy>(
    alloc: A,
    library: &Library<'_, A>,
    text: &DesignText<A>,
    noted: &mut Option<FollowedNets<A>>,
)
    requires { IfSome noted.old (HasNets library.now (records_in text.now)) }
    ensures { IfSome noted.new (HasNets library.now (records_in text.now)) }
{
    if noted.is_none() {
        *noted = FollowedNets::of(alloc, library, text).ok();
    }
}

/// The nets that an edit is about to change, as they are before it, where the lines on nets are known and can follow. The nets of the
/// text are noted then, unless they are already.
pub(crate) fn note_nets<A: Allocator + Copy>(
    alloc: A,
    library: &Library<'_, A>,
    text: &DesignText<A>,
    change: Change<'_, '_>,
    known: &KnownLines<A>,
    noted: &mut Option<FollowedNets<A>>,
) -> Option<TouchedNets<A>>
    requires { IfSome noted.old (HasNets library.now (records_in text.now)) }
    ensures noted { IfSome noted.new (HasNets library.now (records_in text.now)) }
    ensures touched { IfSome result (AreTouched library.now (said (records_in text.now))) }
    ensures only { (subject : Option Subject) × IsSubject change.entry subject × IfSome result (TouchesOnly (said (records_in text.now)) subject) }
{
    if known.nets.is_none() || !has_nets(text) || !is_followed(text, change) {
        return None;
    }
    note(alloc, library, text, noted);
    let nets = noted.as_ref()?;
    match touched(alloc, library, text, change, nets) {
        Ok(found) => found,
        Err(_) => None,
    }
}

/// The lines on nets after an edit, from those that were known, which are so no longer, where nets are noted and the edit touched only
/// some that were told. What is noted is then that of the new text, and else forgotten.
fn follow_known<A: Allocator + Copy>(
    alloc: A,
    library: &Library<'_, A>,
    text: &DesignText<A>,
    made: &Made<A>,
    touched: Option<TouchedNets<A>>,
    noted: &mut Option<FollowedNets<A>>,
    known: &mut KnownLines<A>,
) -> Option<FollowedOnNets<A>>
    requires { (old : Content) × Touches library.now old text.now made.now.exchanges touched noted.old known.old }
    ensures lines { IfSome result (λ f. AreOnNets library.now (said (records_in text.now)) f.lines) }
    ensures tests { (old : Content) (subject : Option Subject) → Touches library.now old text.now made.now.exchanges touched noted.old known.old → IfSome touched (TouchesOnly (said (records_in old)) subject)
        → IfSome result (λ f. FewShapes library.now (said (records_in old)) (said (records_in text.now)) subject f.tests) }
    ensures noted { IfSome noted.new (HasNets library.now (records_in text.now)) }
    ensures known { (design : List Record) → AreKnown library.now design known.old → AreKnown library.now design known.new }
{
    let mut nets = noted.take()?;
    let kept = known.nets.take()?;
    let touched = touched?;
    match nets.follow(alloc, library, text, made, touched, kept) {
        Ok(Some(found)) => {
            *noted = Some(nets);
            Some(found)
        }
        _ => None,
    }
}

/// The lines on nets after an edit, as far as they follow, and how many shapes were compared for them.
pub(crate) fn follow_nets<A: Allocator + Copy>(
    alloc: A,
    library: &Library<'_, A>,
    text: &DesignText<A>,
    made: &Made<A>,
    touched: Option<TouchedNets<A>>,
    noted: &mut Option<FollowedNets<A>>,
    known: &mut KnownLines<A>,
) -> FollowedPart<A>
    requires { (old : Content) × Touches library.now old text.now made.now.exchanges touched noted.old known.old }
    ensures lines { IfSome result.lines (AreOnNets library.now (said (records_in text.now))) }
    ensures tests { (old : Content) (subject : Option Subject) → Touches library.now old text.now made.now.exchanges touched noted.old known.old → IfSome touched (TouchesOnly (said (records_in old)) subject)
        → FewShapes library.now (said (records_in old)) (said (records_in text.now)) subject result.tests }
    ensures noted { IfSome noted.new (HasNets library.now (records_in text.now)) }
    ensures known { (design : List Record) → AreKnown library.now design known.old → AreKnown library.now design known.new }
{
    match follow_known(alloc, library, text, made, touched, noted, known) {
        Some(found) => FollowedPart {
            lines: Some(found.lines),
            tests: found.tests,
        },
        None => FollowedPart::none(),
    }
}
