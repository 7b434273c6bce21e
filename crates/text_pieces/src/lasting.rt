//! Laws of changes that are kept while others are prepared, made and taken back.
//!
//! A text in pieces keeps what is made for each change. What stands in it is then kept in more contents than one, and
//! `StandsStill` of `specs/Preparing` says that it is the same. Prepared changes can be kept in a row, each of which `Leads`
//! (`specs/Lasting`) from where the next one leads to: preparing others leaves the row as it is but for its first content,
//! which `lasts` exchanges, and so does committing the first.

ghost use Rattle.std.specs.Prelude.{◌≡◌};
ghost use Rattle.text_pieces.specs.Changes.{IsBetween, Prepared};
ghost use Rattle.text_pieces.specs.Content.{Content};
ghost use Rattle.text_pieces.specs.Lasting.{Leads};
ghost use Rattle.text_pieces.specs.Lent.{numbered_statements};
ghost use Rattle.text_pieces.specs.Preparing.{StandsStill};
ghost use Rattle.text_pieces.specs.Statements.{modes_by_number, spans_by_number};
ghost use Rattle.text_pieces.specs.Tables.{ids_of};

/// A law: what stands still, step by step, does so from first to last, and has the same statements under the same numbers.
pub fn contents_stand_still()
    ensures same { (c : Content) → StandsStill c c }
    ensures on { (a b c : Content) → StandsStill a b → StandsStill b c → StandsStill a c }
    ensures numbers { (old new : Content) → StandsStill old new → ids_of new.table ≡ ids_of old.table }
    ensures statements { (old new : Content) → StandsStill old new → numbered_statements new ≡ numbered_statements old }
    ensures spans { (old new : Content) → StandsStill old new → spans_by_number new ≡ spans_by_number old }
    ensures modes { (old new : Content) → StandsStill old new → modes_by_number new ≡ modes_by_number old }
{}

/// A law: a change between two contents leads from one to the other, and so it does wherever all stands as in the first; it
/// leads wherever all stands as in the other, too.
pub fn changes_last()
    ensures leads { (c base other : Content) (p : Prepared) → IsBetween c p base other → Leads c p other }
    ensures lasts { (c now d : Content) (p : Prepared) → Leads c p d → StandsStill c now → Leads now p d }
    ensures also { (c d e : Content) (p : Prepared) → Leads c p d → StandsStill e d → Leads c p e }
{}
