//! Sites.

ghost use Rattle.std.specs.Prelude.{refl};
ghost use Rattle.lef_grammar.specs.Definitions.{Site as TheSite, opened_site, site_record, site_with};
ghost use Rattle.lef_grammar.specs.SiteBlock.{SiteRecord};
ghost use Rattle.cell_library.specs.SiteViews.{site_name, site_view};

use crate::definition::Definition;
use crate::noted::{Noted, note_all};
use crate::numbers::{MicronPoint, read_both};
use lef_reader::outermost::{NamedHeader, OutermostStatement};
use lef_reader::site_block::SiteStatement;
use lef_reader::statement::LefStatement;
use std::alloc::{AllocError, Allocator};
use std::hash::RandomState;

/// A site: width and height of its first `SIZE`.
#[derive(Clone, Copy, Drop)]
pub struct Site {
    pub size: Option<MicronPoint>,
}

impl<'l> Noted<'l> for Site {
    ghost Part = { SiteRecord };

    ghost Said = { TheSite };

    ghost part = { site_record };

    ghost view = { site_view };

    ghost says = { site_with };

    fn nothing() -> Site {
        Site { size: None }
    }

    fn note(&mut self, statement: &LefStatement<'l>) {
        if let LefStatement::InSite(SiteStatement::Size(width, height)) = statement {
            self.size = Some(read_both(*width, *height));
        }
    }
}

impl<'l, A: Allocator + Copy> Definition<'l, A> for Site {
    ghost Seen = { TheSite };

    ghost Part = { SiteRecord };

    ghost view = { site_view };

    ghost name_in = { site_name };

    ghost header = { opened_site };

    ghost part = { site_record };

    ghost define = { site_with };

    fn opened(statement: &LefStatement<'l>) -> Option<&'l [u8]> {
        match statement {
            LefStatement::Outside(OutermostStatement::Named(NamedHeader::Site(name))) => Some(
                name.bytes,
            ),
            _ => None,
        }
    }

    fn holds(statement: &LefStatement<'l>) -> bool {
        matches!(statement, LefStatement::InSite(_))
    }

    fn read(_: A, _: RandomState, inner: &[LefStatement<'l>]) -> Result<Site, AllocError> {
        Ok(note_all(inner))
    }

    ghost named_so = { λ e. refl };
}
