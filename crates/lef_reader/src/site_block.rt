//! The block SITE (LEF/DEF 5.8 Language Reference, "Site").

ghost use Rattle.std.specs.Prelude.{◌≡◌, IfSome};
ghost use Rattle.form_meanings.specs.Words.{Gives};
ghost use Rattle.statement_model.specs.Form.{read};
ghost use Rattle.lef_grammar.specs.SiteBlock.{ends_site, site_statement};
ghost use Rattle.lefdef_tokens.specs.Views.{pieces_of, rest_of};
ghost use Rattle.lef_reader.specs.Parts.{with_rest};
ghost use Rattle.lef_reader.specs.SiteViews.{SiteAt, site_view};

use crate::parts::{kept_at, size_at, told_pair};
use lefdef_tokens::{Cursor, Token, TokenRun, is_word};

/// A statement in a block SITE.
#[derive(Clone, Copy, Drop)]
pub enum SiteStatement<'l> {
    End,
    /// Width and height, in microns as written.
    Size(Token<'l>, Token<'l>),
    /// A statement without meaning, by its first token and the others.
    Kept(Token<'l>, TokenRun<'l>),
}

impl<'l> SiteStatement<'l> {
    /// Whether it ends the block.
    pub(crate) fn is_end(&self) -> bool
        ensures { result ≡ ends_site (site_view self.now) }
    {
        matches!(self, SiteStatement::End)
    }
}

/// A statement in the block of this name.
#[tactic(auto, unfolding(lef_grammar::specs::SiteBlock::site_statement, lef_grammar::specs::Extents::kept_statement))]
pub(crate) fn site_at<'l>(
    name: &[u8],
    cursor: Cursor<'l>,
) -> Option<(SiteStatement<'l>, Cursor<'l>)>
    ensures gives { Gives (with_rest site_view) result (read (site_statement name.now) (rest_of cursor.entry)) }
    ensures lent { IfSome result (λ x. SiteAt (pieces_of cursor.entry.tokens) x.0) }
{
    let (word, later) = cursor.next()?;
    if is_word(word.bytes, b"END") {
        Some((SiteStatement::End, later.key(name)?))
    } else if is_word(word.bytes, b"SIZE") {
        told_pair(size_at(later), SiteStatement::Size)
    } else {
        told_pair(kept_at(cursor), SiteStatement::Kept)
    }
}
