//! Clauses of entries of COMPONENTS (LEF/DEF 5.8 Language Reference, "Components").

ghost use Rattle.std.specs.Prelude.{◌≡◌, IfSome};
ghost use Rattle.form_meanings.specs.Words.{Gives, is_plus};
ghost use Rattle.statement_model.specs.Form.{◌⨟◌, read, spell};
ghost use Rattle.def_grammar.specs.Parts.{orient, point};
ghost use Rattle.def_grammar.specs.Components.{clause, is_placing};
ghost use Rattle.lefdef_tokens.specs.Places.{behind, past};
ghost use Rattle.lefdef_tokens.specs.Views.{IsLater, pieces_of, rest_of};
ghost use Rattle.place_parts.specs.ClauseViews.{clause_view, spot_view, ClauseAt};
ghost use Rattle.def_parts.specs.PointViews.{PointAt, with_rest};

use def_parts::point::{Coordinates, orient_at, point_at};
use design_model::geometry::{Orient, Status};
use lefdef_tokens::{Cursor, Token, TokenRun, is_plain, is_plus, is_word};
use statement_reader::parts::Part;

/// How and where a component is placed.
#[derive(Clone, Copy)]
pub struct Placement<'t> {
    pub status: Status,
    pub at: Coordinates<'t>,
    pub orient: Orient,
}

/// A clause of an entry, without its `+`.
#[derive(Clone, Copy, Drop)]
pub enum Clause<'t> {
    Placed(Placement<'t>),
    Unplaced(TokenRun<'t>),
    Region(Token<'t>),
    /// A clause without meaning, by its word and its other tokens.
    Other(Token<'t>, TokenRun<'t>),
}

impl<'t> Clause<'t> {
    /// Whether it says how the component is placed.
    pub fn is_placing(&self) -> bool
        ensures { result ≡ is_placing (clause_view self.now) }
    {
        matches!(self, Clause::Placed(_) | Clause::Unplaced(_))
    }
}

/// `( x y ) orient`
pub(crate) fn spot_at<'t>(cursor: Cursor<'t>) -> Option<((Coordinates<'t>, Orient), Cursor<'t>)>
    ensures gives { Gives (with_rest spot_view) result (read (point ⨟ orient) (rest_of cursor.entry)) }
    ensures later { IfSome result (λ x. IsLater cursor.entry x.1) }
    ensures left { IfSome result (λ x. pieces_of x.1.tokens ≡ past 5 (pieces_of cursor.entry.tokens)) }
    ensures lent { IfSome result (λ x. PointAt (pieces_of cursor.entry.tokens) x.0.0) }
{
    let (at, cursor) = or_none!(point_at(cursor));
    let (orient, cursor) = or_none!(orient_at(cursor));
    Some(((at, orient), cursor))
}

impl<'t> Part<'t> for Clause<'t> {
    ghost use Rattle.def_grammar.specs.Components.{Clause as TheClause};

    ghost Value = { TheClause };

    ghost view = { clause_view };

    ghost lent = { ClauseAt };

    ghost test = { is_plus };

    ghost reads = { read clause };

    ghost spells = { spell clause };

    ghost spelled = { λ r p e. (clause.exact.shows r p e).words };

    fn begins(word: &[u8]) -> bool
        ensures { result ≡ is_plus word.now }
    {
        is_plus(word)
    }

    /// `+` and a clause by its word
    #[tactic(auto, unfolding(def_grammar::specs::Components::clause, def_grammar::specs::Components::placement, def_grammar::specs::Parts::point, def_grammar::specs::Parts::orient))]
    fn read(cursor: Cursor<'t>) -> Option<(Clause<'t>, Cursor<'t>)>
        ensures gives { Gives (with_rest clause_view) result (read clause (rest_of cursor.entry)) }
        ensures later { IfSome result (λ x. IsLater cursor.entry x.1) }
        ensures left { IfSome result (λ x. pieces_of x.1.tokens ≡ behind (spell clause (clause_view x.0)) (pieces_of cursor.entry.tokens)) }
        ensures lent { IfSome result (λ x. ClauseAt (pieces_of cursor.entry.tokens) x.0) }
    {
        let (word, cursor) = or_none!(or_none!(cursor.key(b"+")).next());
        if let Some(status) = Status::of_word(word.bytes) {
            let ((at, orient), cursor) = or_none!(spot_at(cursor));
            if !cursor.next_is_stop() {
                return None;
            }
            let placement = Placement { status, at, orient };
            Some((Clause::Placed(placement), cursor))
        } else if is_word(word.bytes, b"UNPLACED") {
            let (rest, cursor) = cursor.rest();
            Some((Clause::Unplaced(rest), cursor))
        } else if is_word(word.bytes, b"REGION") {
            let (name, cursor) = or_none!(cursor.name());
            if !cursor.next_is_stop() {
                return None;
            }
            Some((Clause::Region(name), cursor))
        } else if is_plain(word.bytes) {
            let (rest, cursor) = cursor.rest();
            Some((Clause::Other(word, rest), cursor))
        } else {
            None
        }
    }
}
