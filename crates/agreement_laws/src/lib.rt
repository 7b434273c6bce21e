//! Laws of what the lines on one statement depend on: two designs that agree on it have the same lines there.
//!
//! Each law is an empty function that ensures it; call it to use it. What a statement's lines depend on, besides itself and the
//! library, is what the names in it stand for: `references_of` and `vias_of` of `specs/Agreement`. An edit that leaves what named entries
//! show of themselves (`all_shown`) leaves the lines on all other statements. One that leaves it but for the components of a name
//! (`shown_but`) leaves them on all others that don't name such a component (`refers_to`).
#![tactic(auto)]

ghost use Rattle.agreement_laws.specs.Laws.{LinesFollowOneComponent, LinesFollowOneName, SameButOneSameLines, SameNamesSameLines, SameOutlineSameCounts, SameShownSameLines, SameStatementLines, SameViasSameLines, StatementLinesFollow};

/// The lines on names that aren't defined depend on what is known of the names alone.
pub fn same_names_same_lines()
    ensures { SameNamesSameLines }
{}

/// The lines on vias off their layer depend on the layers of the vias alone.
pub fn same_vias_same_lines()
    ensures { SameViasSameLines }
{}

/// Two designs that agree on the names in a statement have the same lines on it.
pub fn same_statement_lines()
    ensures { SameStatementLines }
{}

/// Two designs whose entries show others the same have the same lines on a statement.
pub fn same_shown_same_lines()
    ensures { SameShownSameLines }
{}

/// The lines on single statements follow a change of statements that shows others the same.
pub fn statement_lines_follow()
    ensures { StatementLinesFollow }
{}

/// Two designs that show others the same but for the components of one name have the same lines on a statement that names none of them.
pub fn same_but_one_same_lines()
    ensures { SameButOneSameLines }
{}

/// The lines on single statements follow a change of statements that shows others the same but for the components of one name.
pub fn lines_follow_one_component()
    ensures { LinesFollowOneComponent }
{}

/// By two such designs the lines on some statements differ on those alone that name such a component.
pub fn lines_follow_one_name()
    ensures { LinesFollowOneName }
{}

/// The lines on the numbers in headers depend on the outline of a design alone.
pub fn same_outline_same_counts()
    ensures { SameOutlineSameCounts }
{}
