//! Statements whose marks are put under their names.

ghost use Rattle.std.specs.Prelude.{◌≡◌, ◌++◌, IfOk, OnOk, Some, false, flat_map, true};
ghost use Rattle.std.specs.Option.{option_map, option_to_list};
ghost use Rattle.def_grammar.specs.Records.{entry_of};
ghost use Rattle.def_reader.specs.EntryViews.{entry_view};
ghost use Rattle.def_reader.specs.StatementViews.{record_view};
ghost use Rattle.wire_parts.specs.TerminalViews.{terminals_of as terminals_left};
ghost use Rattle.design_tables.specs.Marks.{entry_marks, key_mark, own_mark, terminal_marks};
ghost use Rattle.design_tables.specs.MarkViews.{name_mark_view};
ghost use Rattle.design_tables.specs.Prepared.{is_twice};
ghost use Rattle.design_tables.specs.PutMarks.{ArePut};

use crate::marks::{NameMark, own_mark, terminal_mark, terminals_of};
use crate::names::NameTable;
use crate::role::{Mark, Role};
use def_reader::entry::Entry;
use def_reader::statement::Statement;
use design_model::identifier::StmtId;
use statement_reader::parts::Parts;
use std::alloc::{AllocError, Allocator};
use std::rc::Rc;
use wire_parts::nets::NetEntry;
use wire_parts::terminals::Terminal;

/// Where the name of an entry stands in its text, for entries of which there are many.
fn entry_pos(entry: &Entry<'_>) -> usize {
    match entry {
        Entry::Component(parts) => parts.name.pos,
        Entry::Pin(parts) => parts.name.pos,
        Entry::Net(NetEntry::Net(net)) => net.name.pos,
        _ => 0,
    }
}

/// Where the name of a statement stands, as well.
fn name_pos(statement: &Statement<'_>) -> usize {
    match statement {
        Statement::Entry(entry) => entry_pos(entry),
        _ => 0,
    }
}

impl<A: Allocator + Copy> NameTable<A> {
    /// Puts a mark of a statement under its name, where there is one.
    fn put_one(&mut self, id: StmtId, mark: Option<NameMark<'_>>) -> Result<(), AllocError>
        ensures { OnOk result (ArePut id (option_to_list (option_map name_mark_view mark.entry)) self.old self.new) }
    {
        if let Some(mark) = mark {
            let role = mark.role;
            self.put(mark.name, Mark::new(role, id)?)?;
        }
        Ok(())
    }

    /// Puts the marks of terminals.
    fn put_terminals<'t>(
        &mut self,
        id: StmtId,
        terminals: Parts<'t, Terminal<'t>>,
    ) -> Result<(), AllocError>
        ensures { OnOk result (ArePut id (flat_map terminal_marks (terminals_left terminals.entry)) self.old self.new) }
    {
        let mut left = terminals;
        while let Some(terminal) = left.next() {
            self.put_one(id, terminal_mark(&terminal))?;
        }
        Ok(())
    }

    /// Puts the marks of an entry but for its own.
    fn put_entry(&mut self, id: StmtId, entry: &Entry<'_>) -> Result<(), AllocError>
        ensures { OnOk result (ArePut id (entry_marks (Some (entry_view entry.now))) self.old self.new) }
    {
        let role = Role::Member;
        self.put_again(entry.section().word(), Mark::new(role, id)?)?;
        match terminals_of(entry) {
            Some(terminals) => self.put_terminals(id, terminals),
            None => Ok(()),
        }
    }

    /// Puts the marks of a statement but for its own.
    fn put_others(&mut self, id: StmtId, statement: &Statement<'_>) -> Result<(), AllocError>
        ensures { OnOk result (ArePut id (entry_marks (entry_of (record_view statement.now))) self.old self.new) }
    {
        match statement {
            Statement::Entry(entry) => self.put_entry(id, entry),
            _ => Ok(()),
        }
    }

    /// Puts the own mark of a statement, and answers whether it has one, under a name that is new: then what a text has once of it
    /// doesn't stand twice.
    fn put_own(
        &mut self,
        id: StmtId,
        statement: &Statement<'_>,
        text: &Rc<Vec<u8, A>, A>,
    ) -> Result<bool, AllocError>
        ensures put { OnOk result (ArePut id (option_to_list (own_mark (record_view statement.now))) self.old self.new) }
        ensures once { IfOk result (λ is_new. is_new ≡ true → is_twice (key_mark (record_view statement.now)) self.new ≡ false) }
    {
        match own_mark(statement) {
            Some(mark) => {
                let role = mark.role;
                self.put_new(text, name_pos(statement), mark.name, Mark::new(role, id)?)
            }
            None => Ok(false),
        }
    }

    /// Puts the marks of a statement under their names, its own last, and answers whether it has one, under a name that is new. A
    /// refused growth may leave some of them put.
    pub fn add(
        &mut self,
        id: StmtId,
        statement: &Statement<'_>,
        text: &Rc<Vec<u8, A>, A>,
    ) -> Result<bool, AllocError>
        ensures put { OnOk result (ArePut id (entry_marks (entry_of (record_view statement.now)) ++ option_to_list (own_mark (record_view statement.now))) self.old self.new) }
        ensures once { IfOk result (λ is_new. is_new ≡ true → is_twice (key_mark (record_view statement.now)) self.new ≡ false) }
    {
        self.put_others(id, statement)?;
        self.put_own(id, statement, text)
    }
}
