//! The rule of a net and its first wire, by one reading of its clauses.

ghost use Rattle.std.specs.Prelude.{◌≡◌, flat_map, None};
ghost use Rattle.std.specs.Option.{option_map};
ghost use Rattle.form_meanings.specs.Firsts.{first_of};
ghost use Rattle.def_grammar.specs.NetWires.{wires_of};
ghost use Rattle.lefdef_tokens.specs.Views.{word_view};
ghost use Rattle.def_grammar.specs.Nets.{rule_of_clause};
ghost use Rattle.wire_parts.specs.NetViews.{net_clause_view, net_clauses_of};
ghost use Rattle.wire_reading.specs.NetBegun.{NotesWires, begun_wires, first_then};

use statement_reader::parts::Parts;
use wire_parts::net_wires::NetPaths;
use wire_parts::nets::NetClause;
use wire_parts::wiring::Wire;

/// The rule of a net, and its wires.
pub(crate) struct Begun<'t> {
    pub(crate) rule: Option<&'t [u8]>,
    /// That of the first wiring clause, which is read already.
    pub(crate) first: Option<Wire<'t>>,
    /// Those after it.
    pub(crate) paths: NetPaths<'t>,
}

/// The first rule stays.
fn note_rule<'t>(rule: &mut Option<&'t [u8]>, clause: &NetClause<'t>)
    ensures { option_map word_view rule.new ≡ first_then (option_map word_view rule.old) (rule_of_clause (net_clause_view clause.now)) }
{
    if rule.is_none() {
        if let NetClause::Rule(name) = clause {
            *rule = Some(name.bytes);
        }
    }
}

/// The first wiring clause stays; up to it, the wires are those of the clauses that are left.
fn note_wires<'t>(begun: &mut Begun<'t>, clause: NetClause<'t>, left: &Parts<'t, NetClause<'t>>)
    ensures rule { begun.new.rule ≡ begun.old.rule }
    ensures wires { NotesWires begun.old (net_clause_view clause.entry) left.now begun.new }
{
    if begun.first.is_some() {
        return;
    }
    begun.paths = behind(left);
    if let NetClause::Wiring(wiring) = clause {
        begun.first = Some(wiring.first);
        begun.paths.wires = Some(wiring.others);
    }
}

/// The wires of clauses of which none is read yet.
fn behind<'t>(clauses: &Parts<'t, NetClause<'t>>) -> NetPaths<'t>
    ensures wires { result.wires ≡ None }
    ensures clauses { result.clauses ≡ clauses.now }
{
    NetPaths {
        wires: None,
        clauses: clauses.again(),
    }
}

/// The first rule that clauses of a net name, and the wires of all of them.
pub(crate) fn begin<'t>(clauses: &Parts<'t, NetClause<'t>>) -> Begun<'t>
    ensures rule { option_map word_view result.rule ≡ first_of rule_of_clause (net_clauses_of clauses.now) }
    ensures wires { begun_wires result ≡ flat_map wires_of (net_clauses_of clauses.now) }
{
    let mut left = clauses.again();
    let mut begun = Begun {
        rule: None,
        first: None,
        paths: behind(clauses),
    };
    while let Some(clause) = left.next() {
        note_rule(&mut begun.rule, &clause);
        note_wires(&mut begun, clause, &left);
        if begun.rule.is_some() && begun.first.is_some() {
            return begun;
        }
    }
    begun
}
