//! The lines on the nets of a text that has none.

ghost use Rattle.std.specs.Prelude.{◌≡◌, [], false, Ok, List};
ghost use Rattle.def_grammar.specs.Records.{Record, read_def};
ghost use Rattle.lef_grammar.specs.Library.{Library as TheLibrary};
ghost use Rattle.connection_rules.specs.NetLines.{net_lines};
ghost use Rattle.design_rules.specs.Boxes.{scale};
ghost use Rattle.design_text.specs.DesignTexts.{text_of};
ghost use Rattle.edit_session.specs.Known.{AreKnownOf};

use crate::known_lines::KnownLines;
use def_splice::lookups::LookUps;
use design_model::mode::Section;
use design_text::text::DesignText;
use kept_lines::KeptLines;
use net_laws::no_nets_no_lines;
use report_lines::Lines;
use std::alloc::Allocator;

/// Whether a text has an entry of NETS or of SPECIALNETS. No statement is read: the tables have how many there are.
pub(crate) fn has_nets<A: Allocator + Copy>(text: &DesignText<A>) -> bool
    ensures { (library : TheLibrary) (design : List Record) → read_def (text_of text.now) ≡ Ok design → result ≡ false → net_lines library design (scale design) ≡ [] }
{
    no_nets_no_lines();
    text.text_reads();
    if text.entries_in(Section::Nets) > 0 {
        return true;
    }
    text.entries_in(Section::SpecialNets) > 0
}

/// Makes the lines on nets known where a text has no nets: then there are none, and no statement is read for them.
pub(crate) fn know_no_nets<A: Allocator + Copy>(
    alloc: A,
    text: &DesignText<A>,
    known: &mut KnownLines<A>,
)
    ensures { (library : TheLibrary) → AreKnownOf library (text_of text.now) known.old → AreKnownOf library (text_of text.now) known.new }
{
    if known.nets.is_none() && !has_nets(text) {
        known.nets = Some(KeptLines::of(Lines::new(alloc)));
    }
}
