//! The statements that tell one net of a text.

ghost use Rattle.std.specs.Prelude.{◌≡◌, ◌++◌, IfOk, IfSome, IsTrue, OnOk, flat_map, map};
ghost use Rattle.wire_parts.specs.TerminalViews.{terminals_of};
ghost use Rattle.def_reader.specs.StatementViews.{record_view};
ghost use Rattle.net_laws.specs.NetsTold.{terminals_of as terminals_of_record};
ghost use Rattle.net_laws.specs.OneNet.{TellNet};
ghost use Rattle.design_text.specs.DesignTexts.{design_of};
ghost use Rattle.design_text.specs.Exchanges.{records_in};
ghost use Rattle.followed_nets.specs.Entries.{entries_view, said_by};
ghost use Rattle.followed_nets.specs.Noted.{AreCommon};
ghost use Rattle.followed_nets.specs.Owners.{HasEntries, HasOwners, owners_in, statement_of};

use crate::entries::{NetEntries, entries_of};
use crate::stars::is_any_of_all;
use def_reader::entry::Entry;
use def_reader::statement::Statement;
use design_model::identifier::StmtId;
use design_text::text::DesignText;
use net_laws::{all_pins_tell, entries_name_one_net};
use statement_reader::parts::Parts;
use std::alloc::{AllocError, Allocator};
use wire_parts::nets::NetEntry;
use wire_parts::terminals::Terminal;

/// Puts the component of a name behind statements, if there is one. The owners `PIN` and `VPIN` are looked up like any other, since a
/// component may have that name.
fn push_component<'t, A: Allocator + Copy>(
    text: &'t DesignText<A>,
    name: &[u8],
    statements: &mut Vec<Statement<'t>, A>,
) -> Result<(), AllocError>
    ensures { OnOk result (map record_view statements.new.items ≡ map record_view statements.old.items ++ statement_of (design_of text.entry.now) name.now) }
{
    let Some(parts) = text.component_named(name) else {
        return Ok(());
    };
    statements.push(Statement::Entry(Entry::Component(parts)))?;
    Ok(())
}

/// Puts the owners of these terminals behind statements.
fn push_owners<'t, A: Allocator + Copy>(
    text: &'t DesignText<A>,
    terminals: &Parts<'t, Terminal<'t>>,
    statements: &mut Vec<Statement<'t>, A>,
) -> Result<(), AllocError>
    ensures { OnOk result (map record_view statements.new.items ≡ map record_view statements.old.items ++ owners_in (design_of text.entry.now) (terminals_of terminals.now)) }
{
    let mut left = terminals.again();
    while let Some(terminal) = left.next() {
        push_component(text, terminal.owner.bytes, statements)?;
    }
    Ok(())
}

/// The same, unless one of them is of all components: whether they were put there.
fn push_if_named<'t, A: Allocator + Copy>(
    text: &'t DesignText<A>,
    terminals: &Parts<'t, Terminal<'t>>,
    statements: &mut Vec<Statement<'t>, A>,
) -> Result<bool, AllocError>
    ensures { IfOk result (λ put. IsTrue put → HasOwners (design_of text.entry.now) (terminals_of terminals.now) (map record_view statements.old.items) (map record_view statements.new.items)) }
{
    if is_any_of_all(terminals) {
        return Ok(false);
    }
    push_owners(text, terminals, statements)?;
    Ok(true)
}

/// The same of the terminals that the entry of a net lists.
fn push_listed<'t, A: Allocator + Copy>(
    text: &'t DesignText<A>,
    entry: &Statement<'t>,
    statements: &mut Vec<Statement<'t>, A>,
) -> Result<bool, AllocError>
    ensures { IfOk result (λ put. IsTrue put → HasOwners (design_of text.entry.now) (terminals_of_record (record_view entry.now)) (map record_view statements.old.items) (map record_view statements.new.items)) }
{
    match entry {
        Statement::Entry(Entry::Net(NetEntry::Net(parts))) => {
            push_if_named(text, &parts.terminals, statements)
        }
        Statement::Entry(Entry::SpecialNet(parts)) => {
            push_if_named(text, &parts.terminals, statements)
        }
        _ => Ok(false),
    }
}

/// The same of a second entry, if there is one.
fn push_listed_if<'t, A: Allocator + Copy>(
    text: &'t DesignText<A>,
    entry: &Option<Statement<'t>>,
    statements: &mut Vec<Statement<'t>, A>,
) -> Result<bool, AllocError>
    ensures { IfOk result (λ put. IsTrue put → HasOwners (design_of text.entry.now) (flat_map terminals_of_record (said_by entry.now)) (map record_view statements.old.items) (map record_view statements.new.items)) }
{
    match entry {
        Some(entry) => push_listed(text, entry, statements),
        None => Ok(true),
    }
}

/// Puts a statement behind others, if there is one.
fn push_if<'t, A: Allocator>(
    found: Option<Statement<'t>>,
    statements: &mut Vec<Statement<'t>, A>,
) -> Result<(), AllocError>
    ensures { OnOk result (map record_view statements.new.items ≡ map record_view statements.old.items ++ said_by found.entry) }
{
    if let Some(statement) = found {
        statements.push(statement)?;
    }
    Ok(())
}

/// Puts the owners of all terminals that the entries of a net list behind statements, and then the entries, unless one of these terminals
/// is of all components: whether they were put there.
fn push_entries<'t, A: Allocator + Copy>(
    text: &'t DesignText<A>,
    entries: NetEntries<'t>,
    statements: &mut Vec<Statement<'t>, A>,
) -> Result<bool, AllocError>
    ensures { IfOk result (λ put. IsTrue put → HasEntries (design_of text.entry.now) (entries_view entries.entry) (map record_view statements.old.items) (map record_view statements.new.items)) }
{
    let NetEntries { first, second } = entries;
    if !push_listed(text, &first, statements)? {
        return Ok(false);
    }
    if !push_listed_if(text, &second, statements)? {
        return Ok(false);
    }
    statements.push(first)?;
    push_if(second, statements)?;
    Ok(true)
}

/// The statements that tell a net of a text: those that are read whichever net is told, which have these numbers, the components that its
/// entries list, and the entries. There are none where the net has no entry, or lists a pin of all components.
pub fn told_statements<'t, A: Allocator + Copy>(
    alloc: A,
    text: &'t DesignText<A>,
    common: &[StmtId],
    net: &[u8],
) -> Result<Option<Vec<Statement<'t>, A>>, AllocError>
    requires { AreCommon (records_in text.now) common.now }
    ensures { IfOk result (λ found. IfSome found (λ v. TellNet (map record_view v.items) (design_of text.entry.now) net.now)) }
{
    all_pins_tell();
    entries_name_one_net();
    text.statements_are_kept();
    let Some(entries) = entries_of(text, net) else {
        return Ok(None);
    };
    let mut statements = text.kept(alloc, common)?;
    if !push_entries(text, entries, &mut statements)? {
        return Ok(None);
    }
    Ok(Some(statements))
}
