//! What is noted of a text, so that lines follow its edits.

ghost use Rattle.std.specs.Prelude.{◌≡◌, IfSome, List, None, Option};
ghost use Rattle.def_grammar.specs.Records.{Record};
ghost use Rattle.design_text.specs.DesignTexts.{Content};
ghost use Rattle.design_text.specs.Exchanges.{records_in};
ghost use Rattle.followed_places.specs.Places.{said};
ghost use Rattle.edit_session.specs.Known.{AreKnown, AreTold, Followed, HasFollowed, HasNoted};
ghost use Rattle.edit_session.specs.Tests.{IsSubject, Subject, TestsFew, TouchesOnly};

use crate::change::Change;
use crate::known_lines::KnownLines;
use crate::measures::{follow_measures, tell_measures};
use crate::nets::{follow_nets, note_nets};
use crate::places::{follow_places, is_of_places, note_places};
use crate::statements::{follow_known, tell_known};
use cell_library::library::Library;
use design_text::made::Made;
use design_text::text::DesignText;
use followed_measures::{FollowedMeasures, ToldMeasures};
use followed_nets::{FollowedNets, TouchedNets};
use followed_places::FollowedPlaces;
use followed_statements::ToldStatements;
use kept_lines::KeptLines;
use std::alloc::{Allocator, Global};

/// The components and the nets of a text, each once an edit changed one while the lines on them were known, and what was measured of it,
/// once that was asked for.
pub(crate) struct Noted<A: Allocator + Copy = Global> {
    pub(crate) places: Option<FollowedPlaces<A>>,
    pub(crate) nets: Option<FollowedNets<A>>,
    pub(crate) measures: Option<FollowedMeasures<A>>,
}

// (written out, so that who owns this is proved over one call in the place of all that it keeps)
impl<A: Allocator + Copy> Drop for Noted<A> {
    fn drop(self) {
        let Noted {
            places: _,
            nets: _,
            measures: _,
        } = self;
    }
}

/// What an edit is about to change, as it is before it.
#[derive(Drop)]
pub(crate) struct Told<A: Allocator + Copy = Global> {
    /// What lines on statements need to follow an edit of sections or of a component's macro: `None` for others.
    pub(crate) statements: Option<ToldStatements<A>>,
    /// The nets that it touches: `None` where lines on nets aren't to follow it.
    pub(crate) nets: Option<TouchedNets<A>>,
    /// What is measured of what it changes: `None` where measures aren't to follow it.
    pub(crate) measures: Option<ToldMeasures<A>>,
}

/// Lines that followed an edit, as far as they did.
#[derive(Drop)]
pub(crate) struct FollowedLines<A: Allocator + Copy = Global> {
    pub(crate) statements: Option<KeptLines<A>>,
    pub(crate) places: Option<KeptLines<A>>,
    pub(crate) nets: Option<KeptLines<A>>,
    /// How many pairs of rectangles were compared for them.
    pub(crate) tests: u64,
}

impl<A: Allocator + Copy> Noted<A> {
    /// Nothing.
    pub(crate) fn none() -> Noted<A>
        ensures places { result.places ≡ None }
        ensures nets { result.nets ≡ None }
        ensures measures { result.measures ≡ None }
    {
        Noted {
            places: None,
            nets: None,
            measures: None,
        }
    }

    /// Notes what an edit is about to change, and tells it. Any text edit may be of a component.
    pub(crate) fn note(
        &mut self,
        alloc: A,
        library: &Library<'_, A>,
        text: &DesignText<A>,
        change: Change<'_, '_>,
        known: &KnownLines<A>,
    ) -> Told<A>
        requires { HasNoted library.now (records_in text.now) self.old }
        ensures noted { HasNoted library.now (records_in text.now) self.new }
        ensures told { AreTold library.now (said (records_in text.now)) result }
        ensures only { (subject : Option Subject) × IsSubject change.entry subject × IfSome result.nets (TouchesOnly (said (records_in text.now)) subject) }
    {
        let is_wanted = match change {
            Change::Design(edit) => is_of_places(edit),
            Change::Text(_) => true,
        };
        note_places(alloc, library, text, is_wanted, known, &mut self.places);
        let nets = note_nets(alloc, library, text, change, known, &mut self.nets);
        let measures = tell_measures(alloc, library, text, change, &mut self.measures);
        Told {
            statements: tell_known(alloc, library, text, change, known),
            nets,
            measures,
        }
    }

    /// Lets what is noted follow an edit that was made, and gives the lines that do; those that were known before it are so no longer.
    pub(crate) fn follow(
        &mut self,
        alloc: A,
        library: &Library<'_, A>,
        text: &DesignText<A>,
        made: &Made<A>,
        told: Told<A>,
        known: &mut KnownLines<A>,
    ) -> FollowedLines<A>
        requires { (old : Content) × Followed library.now old text.now made.now.exchanges told self.old known.old }
        ensures lines { HasFollowed library.now (said (records_in text.now)) result }
        ensures tests { (old : Content) (subject : Option Subject) → Followed library.now old text.now made.now.exchanges told self.old known.old → IfSome told.nets (TouchesOnly (said (records_in old)) subject)
            → TestsFew library.now (said (records_in old)) (said (records_in text.now)) subject result.tests }
        ensures noted { HasNoted library.now (records_in text.now) self.new }
        ensures known { (design : List Record) → AreKnown library.now design known.old → AreKnown library.now design known.new }
    {
        let statements = follow_known(alloc, library, text, made, told.statements, known);
        let places = follow_places(alloc, library, text, made, &mut self.places, known);
        let nets = follow_nets(alloc, library, text, made, told.nets, &mut self.nets, known);
        follow_measures(
            alloc,
            library,
            text,
            made,
            told.measures,
            &mut self.measures,
        );
        FollowedLines {
            statements,
            places: places.lines,
            nets: nets.lines,
            tests: nets.tests.saturating_add(places.tests),
        }
    }
}
