//! Heads of nets: what their entries say without wiring.
//!
//! The entry of a power net has its wiring, which is long. Of a net whose pins by one component are sought, only the name and the terminals
//! are needed. So these are written into bytes once, as one entry, and read each time. What is written is read back and compared before it is
//! taken for a head, so that nothing is to be known of how it is spelled.

ghost use Rattle.std.specs.Prelude.{◌≡◌, ◌++◌, false, List, IfOk, IfSome, IsTrue, OnOk, flat_map, map};
ghost use Rattle.std.specs.List.{AllByRecursion};
ghost use Rattle.def_grammar.specs.Records.{Record};
ghost use Rattle.wire_parts.specs.TerminalViews.{terminal_view, terminals_of as terminals_left};
ghost use Rattle.def_reader.specs.StatementViews.{record_view};
ghost use Rattle.net_laws.specs.NetChanges.{is_one_of};
ghost use Rattle.net_laws.specs.NetsTold.{terminals_of};
ghost use Rattle.design_text.specs.DesignTexts.{design_of};
ghost use Rattle.followed_nets.specs.Entries.{entries_view};
ghost use Rattle.followed_nets.specs.Heads.{HeadLists, IsHead, IsHeadOf, ReadsAs};
ghost use Rattle.followed_nets.specs.ToldViews.{head_view};

use crate::entries::{NetEntries, entries_of};
use crate::listed::net_name;
use crate::within::is_one_of;
use def_reader::entry::Entry;
use def_reader::read_statement::read_statement;
use def_reader::statement::Statement;
use design_model::mode::{Mode, Section};
use design_text::text::DesignText;
use kept_nets::KeptNet;
use name_keys::OwnName;
use statement_reader::parts::Parts;
use std::alloc::{AllocError, Allocator, Global};
use wire_parts::nets::NetEntry;
use wire_parts::terminals::Terminal;

/// An entry that lists what all entries of a net do, without wiring, as bytes that are read each time.
#[derive(Drop)]
pub(crate) struct Head<A: Allocator = Global> {
    pub(crate) name: OwnName<A>,
    mode: Mode,
    bytes: Vec<u8, A>,
}

/// The mode in which a head of the net of an entry is read.
fn mode_of(entry: &Statement<'_>) -> Mode {
    match entry {
        Statement::Entry(Entry::SpecialNet(_)) => Mode::In(Section::SpecialNets),
        _ => Mode::In(Section::Nets),
    }
}

/// Puts a word behind bytes, and a space behind it.
fn put_word<A: Allocator>(bytes: &mut Vec<u8, A>, word: &[u8]) -> Result<(), AllocError> {
    bytes.extend_from_slice(word)?;
    bytes.push(b' ')?;
    Ok(())
}

/// Puts `( owner pin )` behind bytes, with `+ SYNTHESIZED` inside where the terminal has it.
fn put_terminal<A: Allocator>(
    bytes: &mut Vec<u8, A>,
    terminal: &Terminal<'_>,
) -> Result<(), AllocError> {
    put_word(bytes, b"(")?;
    put_word(bytes, terminal.owner.bytes)?;
    put_word(bytes, terminal.pin.bytes)?;
    if terminal.is_synthesized {
        put_word(bytes, b"+ SYNTHESIZED )")
    } else {
        put_word(bytes, b")")
    }
}

/// Puts an entry that lists these terminals behind bytes.
fn put_entry<A: Allocator>(
    bytes: &mut Vec<u8, A>,
    name: &[u8],
    terminals: &[Terminal<'_>],
) -> Result<(), AllocError> {
    put_word(bytes, b"-")?;
    put_word(bytes, name)?;
    for terminal in terminals {
        put_terminal(bytes, terminal)?;
    }
    put_word(bytes, b";")
}

/// Puts all of these terminals behind others.
fn put_all<'t, A: Allocator + Copy>(
    terminals: &Parts<'t, Terminal<'t>>,
    all: &mut Vec<Terminal<'t>, A>,
) -> Result<(), AllocError>
    ensures { OnOk result (map terminal_view all.new.items ≡ map terminal_view all.old.items ++ terminals_left terminals.now) }
{
    let mut left = terminals.again();
    while let Some(terminal) = left.next() {
        all.push(terminal)?;
    }
    Ok(())
}

/// Puts all terminals that a statement lists behind others, which are none where it is no entry of a net.
fn put_listed<'t, A: Allocator + Copy>(
    statement: &Statement<'t>,
    all: &mut Vec<Terminal<'t>, A>,
) -> Result<(), AllocError>
    ensures { OnOk result (map terminal_view all.new.items ≡ map terminal_view all.old.items ++ terminals_of (record_view statement.now)) }
{
    match statement {
        Statement::Entry(Entry::Net(NetEntry::Net(net))) => put_all(&net.terminals, all),
        Statement::Entry(Entry::SpecialNet(net)) => put_all(&net.terminals, all),
        _ => Ok(()),
    }
}

/// All terminals that the entries of a net list.
fn all_listed<'t, A: Allocator + Copy>(
    alloc: A,
    entries: &NetEntries<'t>,
) -> Result<Vec<Terminal<'t>, A>, AllocError>
    ensures { IfOk result (λ v. map terminal_view v.items ≡ flat_map terminals_of (entries_view entries.now)) }
{
    let mut all = Vec::new(alloc);
    put_listed(&entries.first, &mut all)?;
    if let Some(second) = &entries.second {
        put_listed(second, &mut all)?;
    }
    Ok(all)
}

/// Whether two terminals are alike.
fn are_alike(one: &Terminal<'_>, other: &Terminal<'_>) -> bool
    ensures { IsTrue result → terminal_view one.now ≡ terminal_view other.now }
{
    one.owner.bytes == other.owner.bytes
        && one.pin.bytes == other.pin.bytes
        && one.is_synthesized == other.is_synthesized
}

/// Whether these are the terminals that are sought, in their order.
fn are_those<'t>(terminals: &Parts<'t, Terminal<'t>>, sought: &[Terminal<'_>]) -> bool
    ensures { IsTrue result → terminals_left terminals.now ≡ map terminal_view sought.now }
{
    let mut left = terminals.again();
    for other in sought {
        match left.next() {
            Some(terminal) if are_alike(&terminal, other) => {}
            _ => return false,
        }
    }
    left.next().is_none()
}

/// Whether a statement is an entry of a net that lists those terminals.
fn lists_those<'t>(statement: &Statement<'t>, sought: &[Terminal<'_>]) -> bool
    ensures { IsTrue result → terminals_of (record_view statement.now) ≡ map terminal_view sought.now }
{
    match statement {
        Statement::Entry(Entry::Net(NetEntry::Net(net))) => are_those(&net.terminals, sought),
        Statement::Entry(Entry::SpecialNet(net)) => are_those(&net.terminals, sought),
        _ => false,
    }
}

impl<A: Allocator> Head<A> {
    /// The statement that its bytes are, if they are one.
    pub(crate) fn read(&self) -> Option<Statement<'_>>
        ensures { IfSome result (λ s. ReadsAs (head_view self.entry.now) (record_view s)) }
    {
        match read_statement(self.mode, &self.bytes, 0) {
            Ok(Some(read)) => Some(read.statement),
            _ => None,
        }
    }

    /// Whether it is an entry of its net that lists these terminals.
    fn lists(&self, terminals: &[Terminal<'_>]) -> bool
        ensures { IsTrue result → HeadLists (head_view self.now) (map terminal_view terminals.now) }
    {
        let Some(entry) = self.read() else {
            return false;
        };
        let Some(name) = net_name(&entry) else {
            return false;
        };
        name == self.name.bytes() && lists_those(&entry, terminals)
    }
}

/// The head of a net that lists these terminals, as it is written.
fn written<A: Allocator + Copy>(
    alloc: A,
    name: &[u8],
    mode: Mode,
    terminals: &[Terminal<'_>],
) -> Result<Head<A>, AllocError>
    ensures { IfOk result (λ h. (head_view h).name ≡ name.now) }
{
    let mut bytes = Vec::new(alloc);
    put_entry(&mut bytes, name, terminals)?;
    let name = OwnName::copy_of(alloc, name)?;
    Ok(Head { name, mode, bytes })
}

/// The same, if it is read as it was written.
fn read_back<A: Allocator + Copy>(
    alloc: A,
    name: &[u8],
    mode: Mode,
    terminals: &[Terminal<'_>],
) -> Result<Option<Head<A>>, AllocError>
    ensures name { IfOk result (λ found. IfSome found (λ h. (head_view h).name ≡ name.now)) }
    ensures lists { IfOk result (λ found. IfSome found (λ h. HeadLists (head_view h) (map terminal_view terminals.now))) }
{
    let head = written(alloc, name, mode, terminals)?;
    if !head.lists(terminals) {
        return Ok(None);
    }
    Ok(Some(head))
}

/// The head of the net that has these entries.
pub(crate) fn head_of<A: Allocator + Copy>(
    alloc: A,
    entries: &NetEntries<'_>,
) -> Result<Option<Head<A>>, AllocError>
    ensures { IfOk result (λ found. IfSome found (λ h. IsHeadOf (record_view entries.now.first) (entries_view entries.now) (head_view h))) }
{
    let Some(name) = net_name(&entries.first) else {
        return Ok(None);
    };
    let terminals = all_listed(alloc, entries)?;
    let found = read_back(alloc, name, mode_of(&entries.first), &terminals)?;
    Ok(found)
}

/// The head of the net of a name in a text, if it has an entry.
fn head_in<A: Allocator + Copy>(
    alloc: A,
    text: &DesignText<A>,
    net: &[u8],
) -> Result<Option<Head<A>>, AllocError>
    ensures { IfOk result (λ found. IfSome found (λ h. IsHead (design_of text.now) (head_view h))) }
{
    let Some(entries) = entries_of(text, net) else {
        return Ok(None);
    };
    let found = head_of(alloc, &entries)?;
    Ok(found)
}

/// The heads of some nets of a text, without those that have none.
fn heads_of<A: Allocator + Copy>(
    alloc: A,
    text: &DesignText<A>,
    stars: &[KeptNet<A>],
) -> Result<Vec<Head<A>, A>, AllocError>
    ensures { IfOk result (λ v. AllByRecursion (IsHead (design_of text.now)) (map head_view v.items)) }
{
    let mut heads = Vec::new(alloc);
    for star in stars {
        if let Some(head) = head_in(alloc, text, star.name())? {
            heads.push(head)?;
        }
    }
    Ok(heads)
}

/// The same, where there are nets.
pub(crate) fn heads_if<A: Allocator + Copy>(
    alloc: A,
    text: &DesignText<A>,
    stars: &Option<Vec<KeptNet<A>, A>>,
) -> Result<Vec<Head<A>, A>, AllocError>
    ensures { IfOk result (λ v. AllByRecursion (IsHead (design_of text.now)) (map head_view v.items)) }
{
    match stars {
        Some(stars) => heads_of(alloc, text, stars),
        None => Ok(Vec::new(alloc)),
    }
}

/// The head of the net of this name among some heads.
pub(crate) fn head_named<'h, A: Allocator>(heads: &'h [Head<A>], name: &[u8]) -> Option<&'h Head<A>>
    ensures named { IfSome result (λ h. (head_view h.now).name ≡ name.now) }
    ensures head { (design : List Record) → AllByRecursion (IsHead design) (map head_view heads.entry.now) → IfSome result (λ h. IsHead design (head_view h.now)) }
{
    for head in heads {
        if head.name.bytes() == name {
            return Some(head);
        }
    }
    None
}

/// Whether none of these heads is of a net with one of these names.
pub(crate) fn are_of_others<A: Allocator + Copy>(heads: &[Head<A>], names: &[OwnName<A>]) -> bool
    ensures { IsTrue result → AllByRecursion (λ h. is_one_of names.now h.name ≡ false) (map head_view heads.now) }
{
    for head in heads {
        if is_one_of(names, head.name.bytes()) {
            return false;
        }
    }
    true
}
