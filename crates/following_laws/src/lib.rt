//! Laws of lines that follow a change: of the things of a list some go out and others come in, and the lines that go and come are
//! those of these things alone, with all that stays as it was.
//!
//! Each law is an empty function that ensures it; call it to use it. `Exchange` of `specs/Following` says what happens to a list of
//! things, and `LinesFollow` what then happens to a list of lines. The first laws are those of the forms that families of lines have:
//! of each thing, of all pairs, and of each thing with each of another list; `parts_follow` joins families, and `kept_lines_follow`
//! says what to do with lines that are kept. `component_lines_follow` and `net_lines_follow` have those of a design's components and
//! nets, and `diagnostics_follow` joins all families of a report.
#![tactic(auto)]

ghost use Rattle.following_laws.specs.FamilyLaws.{LinesThatStay, PartsFollow, SameLinesFollow, KeptLinesFollow};
ghost use Rattle.following_laws.specs.DesignLaws.{ComponentLinesFollow, DiagnosticsFollow, NetLinesFollow, StatementsFollow};

/// Lines of which none goes and none comes follow.
pub fn lines_that_stay()
    ensures { LinesThatStay }
{}

/// Lines that are put together follow part by part.
pub fn parts_follow()
    ensures { PartsFollow }
{}

/// Which lines follow doesn't hang on their order.
pub fn same_lines_follow()
    ensures { SameLinesFollow }
{}

/// Lines that are kept are those after a change, where the lines that go were taken out and those that come were put in.
pub fn kept_lines_follow()
    ensures { KeptLinesFollow }
{}

/// The lines on single statements follow an exchange of statements that shows others the same.
pub fn statements_follow()
    ensures { StatementsFollow }
{}

/// The lines on components follow an exchange of components and of rectangles that keep them out.
pub fn component_lines_follow()
    ensures { ComponentLinesFollow }
{}

/// The lines on nets follow an exchange of nets and of barriers.
pub fn net_lines_follow()
    ensures { NetLinesFollow }
{}

/// All lines of a report follow where those of its families do.
pub fn diagnostics_follow()
    ensures { DiagnosticsFollow }
{}
