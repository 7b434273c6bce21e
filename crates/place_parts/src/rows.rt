//! ROW (LEF/DEF 5.8 Language Reference, "Rows").

ghost use Rattle.std.specs.Prelude.{◌≡◌, IfSome, codes};
ghost use Rattle.form_meanings.specs.Words.{Gives, is_plus};
ghost use Rattle.statement_model.specs.Form.{opt_on, read, spell};
ghost use Rattle.def_grammar.specs.Points.{two_numbers};
ghost use Rattle.def_grammar.specs.Rows.{row_clause, row_statement, site_array};
ghost use Rattle.lefdef_tokens.specs.Places.{behind};
ghost use Rattle.lefdef_tokens.specs.Views.{IsLater, pieces_of, rest_of};
ghost use Rattle.def_parts.specs.PointViews.{with_rest};
ghost use Rattle.place_parts.specs.RowViews.{row_clause_view, row_view, sites_view, step_view, RowClauseAt, RowPartsAt, SitesAt, StepAt};

use crate::keywords::after_word;
use def_parts::clauses::{KeptClause, kept_clause_at};
use def_parts::number::count_at;
use def_parts::point::{Coordinates, orient_at};
use def_parts::points::two_numbers_at;
use design_model::geometry::Orient;
use lefdef_tokens::{Cursor, Token, is_plus};
use statement_reader::parts::{Part, Parts, read_parts};

/// How often a site stands in x and in y, and how far apart, in database units.
#[derive(Clone, Copy)]
pub struct SiteArray<'t> {
    pub columns: Token<'t>,
    pub rows: Token<'t>,
    pub step: Option<Coordinates<'t>>,
}

/// A clause of a row, without its `+`.
#[derive(Clone, Copy, Drop)]
pub struct RowClause<'t> {
    pub kept: KeptClause<'t>,
}

/// A row: its name and site, where its first site stands and how, and its sites.
#[derive(Clone, Copy)]
pub struct RowParts<'t> {
    pub name: Token<'t>,
    pub site: Token<'t>,
    pub origin: Coordinates<'t>,
    pub orient: Orient,
    pub sites: Option<SiteArray<'t>>,
    pub clauses: Parts<'t, RowClause<'t>>,
}

/// `[STEP x y]`
#[tactic(auto, unfolding(def_grammar::specs::Points::two_numbers))]
fn step_at<'t>(cursor: Cursor<'t>) -> Option<(Option<Coordinates<'t>>, Cursor<'t>)>
    ensures gives { Gives (with_rest step_view) result (read (opt_on (codes "STEP") two_numbers) (rest_of cursor.entry)) }
    ensures later { IfSome result (λ x. IsLater cursor.entry x.1) }
    ensures left { IfSome result (λ x. pieces_of x.1.tokens ≡ behind (spell (opt_on (codes "STEP") two_numbers) (step_view x.0)) (pieces_of cursor.entry.tokens)) }
    ensures lent { IfSome result (λ x. StepAt (pieces_of cursor.entry.tokens) x.0) }
{
    let Some(behind) = after_word(cursor, b"STEP") else {
        return Some((None, cursor));
    };
    let (step, cursor) = or_none!(two_numbers_at(behind));
    Some((Some(step), cursor))
}

/// `[DO columns BY rows [STEP x y]]`
#[tactic(auto, unfolding(def_grammar::specs::Rows::site_array))]
fn sites_at<'t>(cursor: Cursor<'t>) -> Option<(Option<SiteArray<'t>>, Cursor<'t>)>
    ensures gives { Gives (with_rest sites_view) result (read (opt_on (codes "DO") site_array) (rest_of cursor.entry)) }
    ensures later { IfSome result (λ x. IsLater cursor.entry x.1) }
    ensures left { IfSome result (λ x. pieces_of x.1.tokens ≡ behind (spell (opt_on (codes "DO") site_array) (sites_view x.0)) (pieces_of cursor.entry.tokens)) }
    ensures lent { IfSome result (λ x. SitesAt (pieces_of cursor.entry.tokens) x.0) }
{
    let Some(behind) = after_word(cursor, b"DO") else {
        return Some((None, cursor));
    };
    let (columns, cursor) = or_none!(count_at(behind));
    let (rows, cursor) = or_none!(count_at(or_none!(cursor.key(b"BY"))));
    let (step, cursor) = or_none!(step_at(cursor));
    let sites = SiteArray {
        columns,
        rows,
        step,
    };
    Some((Some(sites), cursor))
}

impl<'t> Part<'t> for RowClause<'t> {
    ghost use Rattle.def_grammar.specs.Clauses.{KeptClause as TheClause};

    ghost Value = { TheClause };

    ghost view = { row_clause_view };

    ghost lent = { RowClauseAt };

    ghost test = { is_plus };

    ghost reads = { read row_clause };

    ghost spells = { spell row_clause };

    ghost spelled = { λ r p e. (row_clause.exact.shows r p e).words };

    fn begins(word: &[u8]) -> bool
        ensures { result ≡ is_plus word.now }
    {
        is_plus(word)
    }

    /// `+ word rest`
    #[tactic(auto, unfolding(def_grammar::specs::Rows::row_clause))]
    fn read(cursor: Cursor<'t>) -> Option<(RowClause<'t>, Cursor<'t>)>
        ensures gives { Gives (with_rest row_clause_view) result (read row_clause (rest_of cursor.entry)) }
        ensures later { IfSome result (λ x. IsLater cursor.entry x.1) }
        ensures left { IfSome result (λ x. pieces_of x.1.tokens ≡ behind (spell row_clause (row_clause_view x.0)) (pieces_of cursor.entry.tokens)) }
        ensures lent { IfSome result (λ x. RowClauseAt (pieces_of cursor.entry.tokens) x.0) }
    {
        let (kept, cursor) = or_none!(kept_clause_at(or_none!(cursor.key(b"+"))));
        Some((RowClause { kept }, cursor))
    }
}

/// `name site x y orient [DO columns BY rows [STEP x y]] (+ word rest)* ;`, after `ROW`
#[tactic(auto, unfolding(def_grammar::specs::Rows::row_statement, def_grammar::specs::Points::two_numbers, def_grammar::specs::Parts::orient), using(lefdef_tokens::proofs::PlaceLemmas::behind_append))]
pub fn row_at<'t>(cursor: Cursor<'t>) -> Option<(RowParts<'t>, Cursor<'t>)>
    ensures gives { Gives (with_rest row_view) result (read row_statement (rest_of cursor.entry)) }
    ensures later { IfSome result (λ x. IsLater cursor.entry x.1) }
    ensures left { IfSome result (λ x. pieces_of x.1.tokens ≡ behind (spell row_statement (row_view x.0)) (pieces_of cursor.entry.tokens)) }
    ensures lent { IfSome result (λ x. RowPartsAt (pieces_of cursor.entry.tokens) x.0) }
{
    let (name, cursor) = or_none!(cursor.name());
    let (site, cursor) = or_none!(cursor.name());
    let (origin, cursor) = or_none!(two_numbers_at(cursor));
    let (orient, cursor) = or_none!(orient_at(cursor));
    let (sites, cursor) = or_none!(sites_at(cursor));
    let (clauses, cursor) = or_none!(read_parts::<RowClause<'t>>(cursor));
    let cursor = or_none!(cursor.key(b";"));
    let parts = RowParts {
        name,
        site,
        origin,
        orient,
        sites,
        clauses,
    };
    Some((parts, cursor))
}
