//! The pins of the nets of a design.

ghost use Rattle.std.specs.Prelude.{◌≡◌, ◌<◌, ◌≤◌, ◌++◌, ◌∷◌, [], List, IfOk, OnOk, flat_map, length, map};
ghost use Rattle.std.specs.List.{filter_map};
ghost use Rattle.std.specs.Option.{option_map};
ghost use Rattle.form_meanings.specs.Firsts.{first_of};
ghost use Rattle.def_grammar.specs.Records.{Record};
ghost use Rattle.def_grammar.specs.Pins.{net_of_clause};
ghost use Rattle.lefdef_tokens.specs.Views.{word_view};
ghost use Rattle.place_parts.specs.PinViews.{pin_clauses_of};
ghost use Rattle.def_reader.specs.StatementViews.{record_view, records_view};
ghost use Rattle.net_entries.specs.NetEntries.{entry_lent};
ghost use Rattle.design_rules.specs.Boxes.{scale as scale_of};
ghost use Rattle.connection_rules.specs.NetParts.{pin_parts, wired_of};
ghost use Rattle.connection_rules.specs.Terminals.{pins_by_name, pins_of};
ghost use Rattle.name_groups.specs.Groups.{seen as seen_group};
ghost use Rattle.net_lists.specs.Building.{with_parts};
ghost use Rattle.net_pins.specs.Counting.{with_pins};
ghost use Rattle.net_pins.specs.EntryPins.{borrowed_pin, design_pin_in, design_pin_of, lent_pin, listed, net_groups, pins_in};
ghost use Rattle.net_pins.specs.Walking.{IsReady};

use crate::lent_pin::LentPin;
use crate::listed_pins::{put_listed, put_pin};
use crate::pin_walk::PinWalk;
use crate::sources::Sources;
use cell_library::library::Library;
use def_reader::entry::Entry;
use def_reader::statement::Statement;
use design_names::names::Names;
use design_wires::scale::Scale;
use design_wires::wires::DesignWires;
use name_groups::Groups;
use net_entries::LentEntry;
use net_lists::NetList;
use place_parts::pins::{PinClause, PinParts};
use statement_reader::parts::Parts;
use std::alloc::{AllocError, Allocator, Global};
use std::hash::RandomState;
use std::marker::Model;

/// Pins of the design by the net that they name.
type PinsByNet<'r, 't, A> = Groups<'t, LentPin<'r, 't>, A>;

/// The pins of a design, found by what terminals say.
#[derive(Drop)]
pub struct Pins<'v, 'a, 'l, 'r, 't, A: Allocator = Global> {
    sources: Sources<'v, 'a, 'l, 'r, 't, A>,
    by_net: PinsByNet<'r, 't, A>,
}

impl<'v, 'a, 'l, 'r, 't, A: Allocator> Model for Pins<'v, 'a, 'l, 'r, 't, A> {
    ghost use Rattle.std.specs.Prelude.{◌≡◌, map};
    ghost use Rattle.design_wires.specs.Defined.{DefinedIn};
    ghost use Rattle.name_groups.specs.Groups.{seen as seen_group};
    ghost use Rattle.net_pins.specs.EntryPins.{lent_pin, net_groups};

    ghost Value = { DefinedIn };

    ghost view = { λ p. record { library = p.sources.library.now; design = p.sources.names.now } };

    ghost invariant = { λ p. map (seen_group lent_pin) p.by_net ≡ net_groups p.sources.names.now };
}

/// The net that the first `NET` of some clauses names.
fn net_of<'t>(clauses: &Parts<'t, PinClause<'t>>) -> Option<&'t [u8]>
    ensures { option_map word_view result ≡ first_of net_of_clause (pin_clauses_of clauses.now) }
{
    let mut left = clauses.again();
    while let Some(clause) = left.next() {
        if let PinClause::Net(name) = clause {
            return Some(name.bytes);
        }
    }
    None
}

/// The pin of the design that a statement is.
fn pin_of<'r, 't>(statement: &'r Statement<'t>) -> Option<&'r PinParts<'t>>
    ensures { option_map borrowed_pin result ≡ design_pin_in (record_view statement.entry.now) }
{
    match statement {
        Statement::Entry(Entry::Pin(parts)) => Some(parts),
        _ => None,
    }
}

/// Adds the pin that a statement is, where it names a net.
fn add<'r, 't, A: Allocator + Copy>(
    pins: &mut PinsByNet<'r, 't, A>,
    statement: &'r Statement<'t>,
) -> Result<(), AllocError>
    ensures { (before : List Record) → map (seen_group lent_pin) pins.old ≡ net_groups before → OnOk result (map (seen_group lent_pin) pins.new ≡ net_groups (before ++ record_view statement.entry.now ∷ [])) }
{
    let Some(parts) = pin_of(statement) else {
        return Ok(());
    };
    let Some(net) = net_of(&parts.clauses) else {
        return Ok(());
    };
    pins.add(net, LentPin { pin: parts })
}

/// The pins of the design by the net that they name.
fn pins_by_net<'r, 't, A: Allocator + Copy>(
    alloc: A,
    hash_builder: RandomState,
    records: &'r [Statement<'t>],
) -> Result<PinsByNet<'r, 't, A>, AllocError>
    ensures { IfOk result (λ pins. map (seen_group lent_pin) pins ≡ net_groups (records_view records.entry.now)) }
{
    let mut pins = Groups::new(alloc, hash_builder);
    for statement in records {
        add(&mut pins, statement)?;
    }
    Ok(pins)
}

/// Puts the pins that entries list.
fn put_all_listed<'a, 'l: 'a, 'r: 'a, 't: 'a, A: Allocator + Copy>(
    of: &Sources<'_, 'a, 'l, 'r, 't, A>,
    entries: &[LentEntry<'_, 't>],
    walk: &mut PinWalk<'_, '_, 't, A>,
    nets: &mut NetList<'_, A>,
) -> Result<(), AllocError>
    requires { IsReady of.now.library.now walk.old nets.old }
    ensures ok { OnOk result ((walk.new.seen, nets.new) ≡ with_pins (flat_map (pins_of (pins_in of.now)) (flat_map listed (map entry_lent entries.now))) (walk.old.seen, nets.old)) }
    ensures ready { OnOk result (IsReady of.now.library.now walk.new nets.new) }
{
    for entry in entries {
        put_listed(of, entry.entry, walk, nets)?;
    }
    Ok(())
}

/// Puts some pins of the design.
fn put_all<'a, 'l: 'a, 'r: 'a, 't: 'a, A: Allocator + Copy>(
    of: &Sources<'_, 'a, 'l, 'r, 't, A>,
    pins: &[LentPin<'_, 't>],
    walk: &mut PinWalk<'_, '_, 't, A>,
    nets: &mut NetList<'_, A>,
) -> Result<(), AllocError>
    requires { IsReady of.now.library.now walk.old nets.old }
    ensures ok { OnOk result ((walk.new.seen, nets.new) ≡ with_pins (map (design_pin_of of.now) (map lent_pin pins.now)) (walk.old.seen, nets.old)) }
    ensures ready { OnOk result (IsReady of.now.library.now walk.new nets.new) }
{
    for pin in pins {
        put_pin(of, pin.pin, walk, nets)?;
    }
    Ok(())
}

/// Puts the pins that entries list, and then some pins of the design, each once.
fn put_both<'a, 'l: 'a, 'r: 'a, 't: 'a, A: Allocator + Copy>(
    of: &Sources<'_, 'a, 'l, 'r, 't, A>,
    entries: &[LentEntry<'_, 't>],
    pins: &[LentPin<'_, 't>],
    walk: &mut PinWalk<'_, '_, 't, A>,
    nets: &mut NetList<'_, A>,
) -> Result<(), AllocError>
    requires { IsReady of.now.library.now walk.old nets.old }
    ensures ok { OnOk result (nets.new ≡ (with_pins (flat_map (pins_of (pins_in of.now)) (flat_map listed (map entry_lent entries.now)) ++ map (design_pin_of of.now) (map lent_pin pins.now)) ([], nets.old)).1) }
    ensures ready { OnOk result (IsReady of.now.library.now walk.new nets.new) }
{
    walk.seen.clear();
    put_all_listed(of, entries, walk, nets)?;
    put_all(of, pins, walk, nets)
}

impl<'v, 'a, 'l: 'a, 'r: 'a, 't: 'a, A: Allocator + Copy> Pins<'v, 'a, 'l, 'r, 't, A> {
    /// Finds which pins of a design name a net. The vias are those of the same library and the same design, whose text reads, so
    /// that its scale is in range.
    pub fn new(
        alloc: A,
        library: &'a Library<'l, A>,
        names: &'a Names<'r, 't, A>,
        wires: &'v DesignWires<'a, 'l, 'r, 't, A>,
    ) -> Result<Pins<'v, 'a, 'l, 'r, 't, A>, AllocError>
        requires some { 0 < scale_of names.now }
        requires few { scale_of names.now ≤ 100000 }
        requires same { wires.now ≡ record { library = library.now; design = names.now } }
        ensures { IfOk result (λ pins. pins ≡ record { library = library.entry.now; design = names.entry.now }) }
    {
        let records = names.records();
        let sources = Sources {
            library,
            names,
            wires,
            scale: Scale::of(records),
        };
        let by_net = pins_by_net(alloc, names.hash_builder(), records)?;
        Ok(Pins { sources, by_net })
    }

    /// What `put_pins` goes on with from one net to the next. It takes no memory.
    pub fn walk(&self, alloc: A) -> PinWalk<'a, 'l, 't, A>
        ensures { result.layers ≡ self.now.library }
    {
        let hash_builder = self.sources.names.hash_builder();
        PinWalk::new(alloc, self.sources.library, hash_builder)
    }

    /// Puts the pins of a net that count behind the parts of the last net, by the net's name and its entries: the pins that the
    /// entries list, and those of the design that name the net, each once.
    pub fn put_pins(
        &self,
        net: &[u8],
        entries: &[LentEntry<'_, 't>],
        walk: &mut PinWalk<'_, '_, 't, A>,
        nets: &mut NetList<'_, A>,
    ) -> Result<(), AllocError>
        requires net { 0 < length nets.old }
        requires known { walk.old.layers ≡ self.now.library }
        ensures ok { OnOk result (nets.new ≡ with_parts (pin_parts (pins_by_name self.now.library self.now.design (scale_of self.now.design)) net.now (filter_map (wired_of self.now.library self.now.design (scale_of self.now.design)) (map entry_lent entries.now))) nets.old) }
        ensures net { OnOk result (0 < length nets.new) }
        ensures known { OnOk result (walk.new.layers ≡ self.now.library) }
    {
        put_both(&self.sources, entries, self.by_net.get(net), walk, nets)
    }
}
