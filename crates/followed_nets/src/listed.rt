//! The nets of a text that list a component, or a pin of the design.

ghost use Rattle.std.specs.Prelude.{◌≡◌, ◌||◌, ℕ, true, List, IfOk, IfSome, OnOk, map};
ghost use Rattle.std.specs.List.{list_any};
ghost use Rattle.std.specs.Option.{option_map};
ghost use Rattle.std.specs.Str.{bytes_eq};
ghost use Rattle.entry_rules.specs.Unknown.{is_same};
ghost use Rattle.lefdef_tokens.specs.Views.{word_view};
ghost use Rattle.def_reader.specs.StatementViews.{record_view};
ghost use Rattle.net_laws.specs.NetChanges.{is_one_of};
ghost use Rattle.net_laws.specs.NetsTold.{is_of_net, net_of_record};
ghost use Rattle.design_text.specs.DesignTexts.{design_of};
ghost use Rattle.followed_nets.specs.Listed.{AllList, AllOfPin, AreApart, AreListing, AreListingPin, is_pin_naming, net_named_by};

use crate::entries::entry_in;
use crate::within::{is_one_of, net_of_pin};
use def_reader::entry::Entry;
use def_reader::statement::Statement;
use design_model::mode::Section;
use design_text::text::DesignText;
use name_keys::OwnName;
use std::alloc::{AllocError, Allocator};
use wire_parts::nets::NetEntry;

/// How many nets may list a component or a pin so that they are followed one by one. Their names are gone over where one is looked for.
const MOST_NETS: usize = 1024;

/// The name of the net that a statement is an entry of.
pub(crate) fn net_name<'t>(statement: &Statement<'t>) -> Option<&'t [u8]>
    ensures { option_map word_view result ≡ net_of_record (record_view statement.now) }
{
    match statement {
        Statement::Entry(Entry::Net(NetEntry::Net(net))) => Some(net.name.bytes),
        Statement::Entry(Entry::SpecialNet(net)) => Some(net.name.bytes),
        _ => None,
    }
}

/// Puts a name behind others, unless it is one of them.
pub(crate) fn add_name<A: Allocator + Copy>(
    alloc: A,
    nets: &mut Vec<OwnName<A>, A>,
    name: &[u8],
) -> Result<(), AllocError>
    ensures all { OnOk result ((net : List ℕ) → is_one_of nets.new.items net ≡ (is_one_of nets.old.items net || bytes_eq name.now net)) }
    ensures apart { AreApart nets.old.items → OnOk result (AreApart nets.new.items) }
{
    if !is_one_of(nets, name) {
        nets.push(OwnName::copy_of(alloc, name)?)?;
    }
    Ok(())
}

/// Puts the name of the net of a statement behind others, unless it is one of them.
pub(crate) fn add_net<A: Allocator + Copy>(
    alloc: A,
    nets: &mut Vec<OwnName<A>, A>,
    statement: &Statement<'_>,
) -> Result<(), AllocError>
    ensures all { OnOk result ((net : List ℕ) → is_one_of nets.new.items net ≡ (is_one_of nets.old.items net || is_of_net net (record_view statement.now))) }
    ensures apart { AreApart nets.old.items → OnOk result (AreApart nets.new.items) }
{
    match net_name(statement) {
        Some(name) => add_name(alloc, nets, name),
        None => Ok(()),
    }
}

/// The names of the nets of some statements, each once.
fn nets_of<A: Allocator + Copy>(
    alloc: A,
    statements: &[Statement<'_>],
) -> Result<Vec<OwnName<A>, A>, AllocError>
    ensures all { IfOk result (λ v. (net : List ℕ) → is_one_of v.items net ≡ list_any (is_of_net net) (map record_view statements.now)) }
    ensures apart { IfOk result (λ v. AreApart v.items) }
{
    let mut nets = Vec::new(alloc);
    for statement in statements {
        add_net(alloc, &mut nets, statement)?;
    }
    Ok(nets)
}

/// The names of the nets of a text that list a pin of a component by its name, each once, unless they are many.
pub(crate) fn nets_listing<A: Allocator + Copy>(
    alloc: A,
    text: &DesignText<A>,
    component: &[u8],
) -> Result<Option<Vec<OwnName<A>, A>>, AllocError>
    ensures listing { IfOk result (λ found. IfSome found (λ v. AreListing (design_of text.now) component.now v.items)) }
    ensures only { IfOk result (λ found. IfSome found (λ v. AllList (design_of text.now) component.now v.items)) }
    ensures apart { IfOk result (λ found. IfSome found (λ v. AreApart v.items)) }
{
    let Some(entries) = text.entries_listing(alloc, component, MOST_NETS)? else {
        return Ok(None);
    };
    let nets = nets_of(alloc, &entries)?;
    Ok(Some(nets))
}

/// The names of the nets of a text that list a pin of the design, each once, unless they are many.
fn nets_listing_pin<A: Allocator + Copy>(
    alloc: A,
    text: &DesignText<A>,
    pin: &[u8],
) -> Result<Option<Vec<OwnName<A>, A>>, AllocError>
    ensures listing { IfOk result (λ found. IfSome found (λ v. AreListingPin (design_of text.now) pin.now v.items)) }
    ensures only { IfOk result (λ found. IfSome found (λ v. AllOfPin (design_of text.now) pin.now v.items)) }
    ensures apart { IfOk result (λ found. IfSome found (λ v. AreApart v.items)) }
{
    let Some(entries) = text.entries_listing_pin(alloc, pin, MOST_NETS)? else {
        return Ok(None);
    };
    let nets = nets_of(alloc, &entries)?;
    Ok(Some(nets))
}

/// The net that a statement names by its NET, if it is a pin of the design that names one.
fn named_net<'t>(statement: &Statement<'t>) -> Option<&'t [u8]>
    ensures { option_map word_view result ≡ net_named_by (record_view statement.now) }
{
    match statement {
        Statement::Entry(Entry::Pin(parts)) => net_of_pin(&parts.clauses),
        _ => None,
    }
}

/// The net that the pin of the design of a name names, if there is such a pin and it names one.
fn net_by_pin<'t, A: Allocator + Copy>(text: &'t DesignText<A>, pin: &[u8]) -> Option<&'t [u8]>
    ensures { IfSome result (λ net. list_any (is_pin_naming pin.now net.now) (design_of text.entry.now) ≡ true) }
{
    let entry = entry_in(text, Section::Pins, pin)?;
    named_net(&entry)
}

/// Puts a name behind others, if there is one and it is none of them.
fn add_if<A: Allocator + Copy>(
    alloc: A,
    nets: &mut Vec<OwnName<A>, A>,
    name: Option<&[u8]>,
) -> Result<(), AllocError>
    ensures all { OnOk result ((net : List ℕ) → is_one_of nets.new.items net ≡ (is_one_of nets.old.items net || is_same net (option_map word_view name.entry))) }
    ensures apart { AreApart nets.old.items → OnOk result (AreApart nets.new.items) }
{
    match name {
        Some(name) => add_name(alloc, nets, name),
        None => Ok(()),
    }
}

/// The names of the nets of a text that a pin of the design is of, each once, unless they are many: those that list it, and the one that it
/// names.
pub(crate) fn nets_of_pin<A: Allocator + Copy>(
    alloc: A,
    text: &DesignText<A>,
    pin: &[u8],
) -> Result<Option<Vec<OwnName<A>, A>>, AllocError>
    ensures listing { IfOk result (λ found. IfSome found (λ v. AreListingPin (design_of text.now) pin.now v.items)) }
    ensures only { IfOk result (λ found. IfSome found (λ v. AllOfPin (design_of text.now) pin.now v.items)) }
    ensures apart { IfOk result (λ found. IfSome found (λ v. AreApart v.items)) }
{
    let Some(listing) = nets_listing_pin(alloc, text, pin)? else {
        return Ok(None);
    };
    let mut nets = listing;
    add_if(alloc, &mut nets, net_by_pin(text, pin))?;
    Ok(Some(nets))
}
