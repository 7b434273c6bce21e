//! The entries of a net, which are looked up in both sections.

ghost use Rattle.std.specs.Prelude.{◌≡◌, ◌++◌, IfSome, false, filter, true};
ghost use Rattle.std.specs.Option.{option_map, option_to_list};
ghost use Rattle.design_model.specs.declared.mode.Section.TheVariants.{Nets, SpecialNets};
ghost use Rattle.def_grammar.specs.Located.{entry_at, is_entry, located};
ghost use Rattle.def_grammar.specs.Records.{entry_of};
ghost use Rattle.def_reader.specs.StatementViews.{record_view};
ghost use Rattle.net_laws.specs.NetsTold.{is_of_net};
ghost use Rattle.design_text.specs.DesignTexts.{design_of, text_of};
ghost use Rattle.followed_nets.specs.Entries.{Precedes, entries_view, said_by};

use def_reader::statement::Statement;
use def_splice::lookups::LookUps;
use design_model::mode::Section;
use design_text::laws::named_once;
use design_text::text::DesignText;
use lefdef_tokens::tokens_are_slices;
use statement_reader::laws::records_are_read;
use std::alloc::Allocator;

/// The entries of a net in the order of the text, of which it may have one in NETS and one in SPECIALNETS.
#[derive(Clone, Copy)]
pub(crate) struct NetEntries<'t> {
    pub(crate) first: Statement<'t>,
    pub(crate) second: Option<Statement<'t>>,
}

/// The entry of a name in a section of nets or of components. It alone is read.
pub fn entry_in<'t, A: Allocator + Copy>(
    text: &'t DesignText<A>,
    section: Section,
    net: &[u8],
) -> Option<Statement<'t>>
    ensures { option_to_list (option_map record_view result) ≡ filter (λ r. is_entry section net.now (entry_of r)) (design_of text.entry.now) }
{
    named_once();
    text.text_reads();
    text.design_is_read();
    let Some((statement, _)) = text.entry(section, net) else {
        return None;
    };
    Some(statement)
}

/// Whether the entry of a net in SPECIALNETS stands before that in NETS, where it has both.
fn special_is_first<A: Allocator + Copy>(text: &DesignText<A>, net: &[u8]) -> bool
    ensures special { let there = located (text_of text.now) (design_of text.now) in result ≡ true → Precedes (entry_at SpecialNets net.now there) (entry_at Nets net.now there) }
    ensures nets { let there = located (text_of text.now) (design_of text.now) in result ≡ false → Precedes (entry_at Nets net.now there) (entry_at SpecialNets net.now there) }
{
    text.design_is_read();
    let in_nets = text.statement(Section::Nets, net);
    let in_special_nets = text.statement(Section::SpecialNets, net);
    match (in_nets, in_special_nets) {
        (Some(in_nets), Some(in_special_nets)) => in_special_nets.pos < in_nets.pos,
        _ => false,
    }
}

/// The entries of a net that has one of these: `None` where both are none.
fn either<'t>(first: Option<Statement<'t>>, second: Option<Statement<'t>>) -> Option<NetEntries<'t>>
    ensures { IfSome result (λ e. entries_view e ≡ said_by first.entry ++ said_by second.entry) }
{
    match (first, second) {
        (Some(first), second) => Some(NetEntries { first, second }),
        (None, Some(first)) => Some(NetEntries {
            first,
            second: None,
        }),
        (None, None) => None,
    }
}

/// The entries of a net: `None` where it has none.
pub(crate) fn entries_of<'t, A: Allocator + Copy>(
    text: &'t DesignText<A>,
    net: &[u8],
) -> Option<NetEntries<'t>>
    ensures { IfSome result (λ e. filter (is_of_net net.now) (design_of text.entry.now) ≡ entries_view e) }
{
    named_once();
    tokens_are_slices();
    records_are_read::<Statement<'t>>();
    text.design_is_read();
    let in_nets = entry_in(text, Section::Nets, net);
    let in_special_nets = entry_in(text, Section::SpecialNets, net);
    if special_is_first(text, net) {
        either(in_special_nets, in_nets)
    } else {
        either(in_nets, in_special_nets)
    }
}
