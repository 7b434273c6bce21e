//! The lines on components, which follow an edit by the components that it touches, and by the rectangles where it keeps components out.

ghost use Rattle.std.specs.Prelude.{◌≡◌, IfSome, List, Some};
ghost use Rattle.edit_rules.specs.Edits.{change_of};
ghost use Rattle.design_model.specs.declared.identifier.StmtId.{StmtId as Number};
ghost use Rattle.def_grammar.specs.Records.{Record};
ghost use Rattle.lef_grammar.specs.Library.{Library as TheLibrary};
ghost use Rattle.design_text.specs.DesignTexts.{Content};
ghost use Rattle.design_text.specs.Exchanges.{AreExchanges, records_in};
ghost use Rattle.followed_places.specs.Places.{AreFollowed, AreOnPlaces, HasPlaces, said};
ghost use Rattle.edit_session.specs.Known.{AreKnown, Moves};
ghost use Rattle.edit_session.specs.Tests.{FewBoxes, one_component, subject_of};

use crate::known_lines::KnownLines;
use crate::part::FollowedPart;
use cell_library::library::Library;
use design_text::made::Made;
use design_text::text::DesignText;
use edit_model::edit::Edit;
use followed_places::{FollowedOnPlaces, FollowedPlaces};
use followed_statements::leaves_places;
use kept_lines::KeptLines;
use line_laws::scales::scales_are_good;
use line_laws::sorting::same_lines_sort_alike;
use std::alloc::Allocator;

/// How many statements may go out or come in at once so that the lines on components follow. Each component among them is looked for by
/// itself and compared with all the others, so beyond that making all lines anew is sooner done.
const MOST_STATEMENTS: usize = 256;

/// How many exchanges of statements an edit may have so that the lines on components follow.
const MOST_EXCHANGES: usize = 8;

/// The component that an edit adds, removes or moves, or gives another macro, if it is of one.
pub(crate) fn component_of<'e>(edit: &Edit<'e>) -> Option<&'e [u8]>
    ensures { IfSome result (λ c. subject_of (change_of edit.now) ≡ Some (one_component c.now)) }
{
    match edit {
        Edit::Place { component, .. } => Some(*component),
        Edit::Unplace { component } => Some(*component),
        Edit::Remaster { component, .. } => Some(*component),
        Edit::Add { component, .. } => Some(*component),
        Edit::Remove { component } => Some(*component),
        Edit::Connect { .. }
        | Edit::Disconnect { .. }
        | Edit::Route { .. }
        | Edit::Unroute { .. }
        | Edit::Block { .. } => None,
    }
}

/// Whether an edit is of a component, or keeps components out of a rectangle.
pub(crate) fn is_of_places(edit: &Edit<'_>) -> bool {
    match edit {
        Edit::Block { layer, .. } => layer.is_none(),
        _ => component_of(edit).is_some(),
    }
}

/// Notes the components of a text where an edit is about to change lines on them, unless they are noted or the lines on them aren't known. Where
/// memory is refused they aren't noted.
pub(crate) fn note_places<'t, A: Allocator + Copy>(
    alloc: A,
    library: &'t Library<'_, A>,
    text: &'t DesignText<A>,
    is_wanted: bool,
    known: &KnownLines<A>,
    noted: &mut Option<FollowedPlaces<A>>,
)
    requires { IfSome noted.old (HasPlaces library.now (records_in text.now)) }
    ensures { IfSome noted.new (HasPlaces library.entry.now (records_in text.entry.now)) }
{
    if is_wanted && noted.is_none() && known.places.is_some() {
        *noted = FollowedPlaces::of(alloc, library, text).ok();
    }
}

/// The lines on components after an edit, from those before it: its exchanges of statements are followed one after the other, where they
/// are few, and each is of few statements and leaves what stands round components. What is noted then follows too, and else isn't to be used
/// any more.
fn followed<'t, A: Allocator + Copy>(
    alloc: A,
    library: &'t Library<'_, A>,
    text: &'t DesignText<A>,
    made: &Made<A>,
    places: &mut FollowedPlaces<A>,
    kept: KeptLines<A>,
) -> Option<FollowedOnPlaces<A>>
    requires { (old : List (Number × Record)) × AreExchanges text.now.pieces.table.slots old made.now.exchanges (records_in text.now) × AreFollowed library.now old places.old kept }
    ensures lines { IfSome result (λ f. AreFollowed library.entry.now (records_in text.entry.now) places.new f.lines) }
    ensures tests { (old : List (Number × Record)) → AreExchanges text.now.pieces.table.slots old made.now.exchanges (records_in text.now) → AreFollowed library.now old places.old kept
        → IfSome result (λ f. FewBoxes library.now (said old) (said (records_in text.now)) f.tests) }
{
    let mut kept = kept;
    let mut tests = 0_u64;
    if made.len() > MOST_EXCHANGES {
        return None;
    }
    for place in 0..made.len() {
        let exchange = made.exchange(place)?;
        if exchange.went.len().max(exchange.came.len()) > MOST_STATEMENTS {
            return None;
        }
        match places.follow(alloc, library, text, exchange, kept) {
            Ok(Some(found)) => {
                kept = found.lines;
                tests = tests.saturating_add(found.tests);
            }
            _ => return None,
        }
    }
    Some(FollowedOnPlaces { lines: kept, tests })
}

/// The lines on components, where an edit exchanged no component, no blockage of placement and nothing of what stands round components. No
/// boxes are compared.
fn kept_if_left<A: Allocator + Copy>(
    alloc: A,
    text: &DesignText<A>,
    made: &Made<A>,
    kept: KeptLines<A>,
) -> Option<FollowedOnPlaces<A>>
    requires { (old : List (Number × Record)) × AreExchanges text.now.pieces.table.slots old made.now.exchanges (records_in text.now) }
    ensures lines { (library : TheLibrary) (old : List (Number × Record)) → AreExchanges text.now.pieces.table.slots old made.now.exchanges (records_in text.now) → AreOnPlaces library (said old) kept → IfSome result (λ f. AreOnPlaces library (said (records_in text.now)) f.lines) }
    ensures tests { IfSome result (λ f. f.tests ≡ 0) }
{
    same_lines_sort_alike();
    match leaves_places(alloc, text, made) {
        Ok(true) => Some(FollowedOnPlaces {
            lines: kept,
            tests: 0,
        }),
        _ => None,
    }
}

/// The lines on components after an edit, from those that were known, which are so no longer, where the edit left them, or where
/// components are noted and the lines are soon followed. What is noted is then that of the new text, and else forgotten.
fn follow_known<'t, A: Allocator + Copy>(
    alloc: A,
    library: &'t Library<'_, A>,
    text: &'t DesignText<A>,
    made: &Made<A>,
    noted: &mut Option<FollowedPlaces<A>>,
    known: &mut KnownLines<A>,
) -> Option<FollowedOnPlaces<A>>
    requires { (old : Content) × Moves library.now old text.now made.now.exchanges noted.old known.old }
    ensures lines { IfSome result (λ f. AreOnPlaces library.entry.now (said (records_in text.entry.now)) f.lines) }
    ensures tests { (old : Content) → Moves library.now old text.now made.now.exchanges noted.old known.old → IfSome result (λ f. FewBoxes library.now (said (records_in old)) (said (records_in text.now)) f.tests) }
    ensures noted { IfSome noted.new (HasPlaces library.entry.now (records_in text.entry.now)) }
    ensures known { (design : List Record) → AreKnown library.entry.now design known.old → AreKnown library.entry.now design known.new }
{
    scales_are_good();
    let places = noted.take();
    let kept = known.places.take()?;
    let Some(mut places) = places else {
        return kept_if_left(alloc, text, made, kept);
    };
    let found = followed(alloc, library, text, made, &mut places, kept)?;
    *noted = Some(places);
    Some(found)
}

/// The lines on components after an edit, as far as they follow, and how many boxes were compared for them.
pub(crate) fn follow_places<'t, A: Allocator + Copy>(
    alloc: A,
    library: &'t Library<'_, A>,
    text: &'t DesignText<A>,
    made: &Made<A>,
    noted: &mut Option<FollowedPlaces<A>>,
    known: &mut KnownLines<A>,
) -> FollowedPart<A>
    requires { (old : Content) × Moves library.now old text.now made.now.exchanges noted.old known.old }
    ensures lines { IfSome result.lines (AreOnPlaces library.entry.now (said (records_in text.entry.now))) }
    ensures tests { (old : Content) → Moves library.now old text.now made.now.exchanges noted.old known.old → FewBoxes library.now (said (records_in old)) (said (records_in text.now)) result.tests }
    ensures noted { IfSome noted.new (HasPlaces library.entry.now (records_in text.entry.now)) }
    ensures known { (design : List Record) → AreKnown library.entry.now design known.old → AreKnown library.entry.now design known.new }
{
    match follow_known(alloc, library, text, made, noted, known) {
        Some(found) => FollowedPart {
            lines: Some(found.lines),
            tests: found.tests,
        },
        None => FollowedPart::none(),
    }
}
