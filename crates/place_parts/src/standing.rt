//! Where a component stands, as its clauses say it while they are read (LEF/DEF 5.8 Language Reference, "Components").

ghost use Rattle.std.specs.Prelude.{◌≡◌, false, IfSome};
ghost use Rattle.std.specs.Option.{option_map, option_or};
ghost use Rattle.form_meanings.specs.Words.{Gives, is_plus, next_passes};
ghost use Rattle.form_meanings.specs.Meaning.{items, read_many, repeat, spell_all};
ghost use Rattle.statement_model.specs.Form.{read, spell};
ghost use Rattle.def_grammar.specs.Components.{clause, region_of_clause};
ghost use Rattle.form_meanings.specs.Firsts.{first_of};
ghost use Rattle.lefdef_tokens.specs.Places.{behind};
ghost use Rattle.lefdef_tokens.specs.Unseens.{Finds};
ghost use Rattle.lefdef_tokens.specs.Views.{IsLater, pieces_of, rest_of, word_view};
ghost use Rattle.statement_reader.specs.PartViews.{PartsAt, left_after, tokens_after};
ghost use Rattle.place_parts.specs.ClauseViews.{clause_view, clauses_of};
ghost use Rattle.place_parts.specs.StandingViews.{standing_by, standing_of};

use crate::components::Clause;
use def_parts::number::int_of;
use design_model::geometry::{Orient, Status};
use lefdef_tokens::Cursor;
use statement_reader::parts::{Part, Parts, read_parts};

/// How and where a component is placed, in database units.
#[derive(Clone, Copy)]
pub struct Spot {
    pub status: Status,
    pub orient: Orient,
    pub x: i32,
    pub y: i32,
}

/// What the clause that places a component says.
#[derive(Clone, Copy)]
pub enum Standing {
    Unplaced,
    At(Spot),
}

/// What clauses say: the first that places the component, and the first region that one of them names.
#[derive(Clone, Copy)]
pub(crate) struct Noted<'t> {
    pub(crate) standing: Option<Standing>,
    pub(crate) region: Option<&'t [u8]>,
}

/// What a clause says of where the component stands.
#[inline(always)]
fn standing_by<'t>(clause: &Clause<'t>) -> Option<Standing>
    ensures { result ≡ standing_by (clause_view clause.now) }
{
    match clause {
        Clause::Placed(placement) => Some(Standing::At(Spot {
            status: placement.status,
            orient: placement.orient,
            x: int_of(placement.at.x.bytes),
            y: int_of(placement.at.y.bytes),
        })),
        Clause::Unplaced(_) => Some(Standing::Unplaced),
        Clause::Region(_) | Clause::Other(_, _) => None,
    }
}

/// The first clause that places a component stays.
#[inline(always)]
fn note_standing<'t>(standing: &mut Option<Standing>, clause: &Clause<'t>)
    ensures { standing.new ≡ option_or standing.old (standing_by (clause_view clause.now)) }
{
    if standing.is_none() {
        *standing = standing_by(clause);
    }
}

/// The first region stays.
#[inline(always)]
fn note_region<'t>(region: &mut Option<&'t [u8]>, clause: &Clause<'t>)
    ensures { option_map word_view region.new ≡ option_or (option_map word_view region.old) (region_of_clause (clause_view clause.now)) }
{
    if region.is_none() {
        if let Clause::Region(name) = clause {
            *region = Some(name.bytes);
        }
    }
}

/// What comes after the next clauses, which are at most `most`, with what they say; or `None` where one of them has no form.
#[inline(always)]
fn pass_clauses<'t>(cursor: Cursor<'t>, most: usize) -> Option<(Noted<'t>, Cursor<'t>)>
    ensures gives { Gives (λ x. rest_of x.1) result (left_after (repeat most is_plus (read clause) (rest_of cursor.entry))) }
    ensures left { Finds (λ x. pieces_of x.1.tokens) result (tokens_after (spell_all (spell clause)) (pieces_of cursor.entry.tokens) (repeat most is_plus (read clause) (rest_of cursor.entry))) }
    ensures stands { IfSome result (λ x. x.0.standing ≡ standing_of (items most is_plus (read clause) (rest_of cursor.entry))) }
    ensures assigned { IfSome result (λ x. option_map word_view x.0.region ≡ first_of region_of_clause (items most is_plus (read clause) (rest_of cursor.entry))) }
    ensures ends { IfSome result (λ x. next_passes is_plus (rest_of x.1) ≡ false) }
    ensures later { IfSome result (λ x. IsLater cursor.entry x.1) }
{
    let mut left = cursor;
    let mut standing = None;
    let mut region = None;
    for _ in 0..most {
        if !left.next_is_plus() {
            return Some((Noted { standing, region }, left));
        }
        let (clause, later) = Clause::read(left)?;
        note_standing(&mut standing, &clause);
        note_region(&mut region, &clause);
        left = later;
    }
    let goes_on = left.next_is_plus();
    if goes_on {
        None
    } else {
        Some((Noted { standing, region }, left))
    }
}

/// The clauses that come next, what they say, and what comes after them; or `None` where one of them has no form.
#[inline(always)]
pub(crate) fn noted_clauses_at<'t>(
    cursor: Cursor<'t>,
) -> Option<((Parts<'t, Clause<'t>>, Noted<'t>), Cursor<'t>)>
    ensures gives { Gives (λ x. (clauses_of x.0.0, rest_of x.1)) result (read_many is_plus (read clause) (rest_of cursor.entry)) }
    ensures stands { IfSome result (λ x. x.0.1.standing ≡ standing_of (clauses_of x.0.0)) }
    ensures assigned { IfSome result (λ x. option_map word_view x.0.1.region ≡ first_of region_of_clause (clauses_of x.0.0)) }
    ensures later { IfSome result (λ x. IsLater cursor.entry x.1) }
    ensures left { IfSome result (λ x. pieces_of x.1.tokens ≡ behind (spell_all (spell clause) (clauses_of x.0.0)) (pieces_of cursor.entry.tokens)) }
    ensures lent { IfSome result (λ x. PartsAt (pieces_of cursor.entry.tokens) x.0.0) }
{
    let most = cursor.len();
    let (noted, later) = pass_clauses(cursor, most)?;
    // None is left there; all begin at the cursor.
    let (mut clauses, _) = read_parts::<Clause<'t>>(later)?;
    clauses.cursor = cursor;
    clauses.most = most;
    Some(((clauses, noted), later))
}
