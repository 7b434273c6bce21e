//! Marks under names.

ghost use Rattle.std.specs.Prelude.{◌≡◌, IfOk};
ghost use Rattle.design_tables.specs.Marks.{same_role};

use crate::small_id::SmallId;
use design_model::identifier::StmtId;
use design_model::mode::Section;
use lefdef_tokens::is_word;
use std::alloc::AllocError;

/// How a statement has to do with a name.
#[derive(Clone, Copy)]
pub enum Role {
    /// It begins with this word, and a text has one that does.
    Statement,
    /// It is the `END` of the section of this word.
    SectionEnd,
    /// It is an entry of the section of this word.
    Member,
    /// It is the entry of this name in a section.
    Entry(Section),
    /// It lists a pin of the component of this name.
    Component,
    /// It lists the pin of this name of the design.
    DesignPin,
    /// It lists the pins of this name of all components.
    StarPin,
}

impl Role {
    /// Whether it is the same role.
    pub(crate) fn is(self, other: Role) -> bool
        ensures { result ≡ same_role self other }
    {
        match (self, other) {
            (Role::Statement, Role::Statement) => true,
            (Role::SectionEnd, Role::SectionEnd) => true,
            (Role::Member, Role::Member) => true,
            (Role::Entry(section), Role::Entry(its)) => is_word(section.word(), its.word()),
            (Role::Component, Role::Component) => true,
            (Role::DesignPin, Role::DesignPin) => true,
            (Role::StarPin, Role::StarPin) => true,
            _ => false,
        }
    }
}

/// A statement by its number, and how it has to do with a name.
#[derive(Clone, Copy)]
pub struct Mark {
    pub role: Role,
    pub id: SmallId,
}

impl Mark {
    /// A mark. A number that has more than four bytes is refused as memory is.
    pub(crate) fn new(role: Role, id: StmtId) -> Result<Mark, AllocError>
        ensures { IfOk result (λ m. m ≡ record { role = role; id = id }) }
    {
        let id = SmallId::new(id)?;
        Ok(Mark { role, id })
    }

    /// The same mark.
    pub(crate) fn again(&self) -> Mark
        ensures { result ≡ self.now }
    {
        Mark {
            role: self.role,
            id: self.id,
        }
    }
}
