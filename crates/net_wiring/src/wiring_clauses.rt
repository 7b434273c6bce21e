//! The clauses of an entry of a net, by what they are to its wiring.

ghost use Rattle.std.specs.Prelude.{◌≡◌, ◌≤◌, ◌+◌, ◌-◌, [], ℕ, length, false, List, IfSome, MatchOption};
ghost use Rattle.def_grammar.specs.Nets.{net_clause, net_kept};
ghost use Rattle.def_grammar.specs.SpecialNets.{special_clause, special_kept};
ghost use Rattle.def_parts.specs.ClauseViews.{kept_view};
ghost use Rattle.statement_model.specs.Tokens.{Token};
ghost use Rattle.def_reader.specs.EntryViews.{EntryAt, entry_view};
ghost use Rattle.edit_rules.specs.NetEdits.{holds, is_barring, is_held, is_one_of, is_wiring, net_holds, net_role, special_holds, special_role, terminals_of};
ghost use Rattle.lefdef_tokens.specs.Views.{rest_of, words_of};
ghost use Rattle.wire_parts.specs.NetViews.{net_clause_view, net_clauses_of};
ghost use Rattle.wire_parts.specs.SpecialNetViews.{special_clause_view, special_clauses_of};
ghost use Rattle.wire_parts.specs.WiringViews.{kind_view, special_kind_view, status_view};
ghost use Rattle.net_wiring.specs.WiringViews.{any_passes, from_first, is_barred, is_other, is_wired, passes, role_view, shown, size_before, special_words, wiring_on, AreOf, Clauses, IsNextRole, StandBehind};

use def_parts::clauses::KeptClause;
use def_reader::entry::Entry;
use lefdef_tokens::{TokenRun, is_word};
use statement_reader::parts::Parts;
use wire_parts::nets::{NetClause, NetEntry};
use wire_parts::special_nets::SpecialClause;
use wire_parts::wiring::{SpecialWiringKind, WiringKind, WiringStatus};

/// What a clause is to the wiring of its net.
#[derive(Clone, Copy)]
pub enum Role {
    /// None of it.
    Apart,
    /// Wiring, which may be held where it is.
    Wiring { held: bool },
    /// It bars from changing the wiring, as what it means isn't read.
    Barring,
}

/// What is asked of a role.
#[derive(Clone, Copy)]
pub enum RoleTest {
    Wiring,
    /// No wiring.
    Other,
    Held,
    Barring,
}

/// The clauses of an entry that are left to be looked at.
#[derive(Clone, Copy)]
pub enum EntryClauses<'t> {
    Net(Parts<'t, NetClause<'t>>),
    SpecialNet(Parts<'t, SpecialClause<'t>>),
}

/// A section of nets.
#[derive(Clone, Copy)]
pub enum NetSection {
    Nets,
    SpecialNets,
}

impl Role {
    /// Whether it is wiring.
    pub fn is_wiring(self) -> bool
        ensures { result ≡ is_wiring (role_view self) }
    {
        matches!(self, Role::Wiring { .. })
    }

    /// Whether it is wiring that is held.
    fn is_held(self) -> bool
        ensures { result ≡ is_held (role_view self) }
    {
        match self {
            Role::Wiring { held } => held,
            _ => false,
        }
    }

    /// Whether it bars from changing the wiring.
    fn is_barring(self) -> bool
        ensures { result ≡ is_barring (role_view self) }
    {
        matches!(self, Role::Barring)
    }

    /// Whether it is what is asked.
    pub fn passes(self, test: RoleTest) -> bool
        ensures { result ≡ passes (role_view self) test }
    {
        match test {
            RoleTest::Wiring => self.is_wiring(),
            RoleTest::Other => !self.is_wiring(),
            RoleTest::Held => self.is_held(),
            RoleTest::Barring => self.is_barring(),
        }
    }
}

/// Whether wiring of a status is held.
fn holds(status: WiringStatus) -> bool
    ensures { result ≡ holds (status_view status) }
{
    match status {
        WiringStatus::Routed => false,
        WiringStatus::Fixed | WiringStatus::Cover => true,
    }
}

/// Whether wiring of NETS is held.
fn net_holds(kind: &WiringKind) -> bool
    ensures { result ≡ net_holds (kind_view kind.now) }
{
    match kind {
        WiringKind::NoShield => false,
        WiringKind::Wired(status) => holds(*status),
    }
}

/// Whether wiring of SPECIALNETS is held.
fn special_holds(kind: &SpecialWiringKind<'_>) -> bool
    ensures { result ≡ special_holds (special_kind_view kind.now) }
{
    match kind {
        SpecialWiringKind::Shield(_) => false,
        SpecialWiringKind::Wired(status) => holds(*status),
    }
}

/// The role of a clause of NETS without meaning: it bars where its word begins wiring, since then it hasn't its form.
fn net_kept_role(clause: &KeptClause<'_>) -> Role
    ensures { role_view result ≡ net_role (net_kept (kept_view clause.now)) }
{
    let word = clause.keyword.bytes;
    if is_word(word, b"ROUTED")
        || is_word(word, b"FIXED")
        || is_word(word, b"COVER")
        || is_word(word, b"NOSHIELD")
    {
        Role::Barring
    } else {
        Role::Apart
    }
}

/// The role of a clause of NETS.
pub fn net_role(clause: &NetClause<'_>) -> Role
    ensures { role_view result ≡ net_role (net_clause_view clause.now) }
{
    match clause {
        NetClause::Subnet(_) => Role::Barring,
        NetClause::Wiring(wiring) => Role::Wiring {
            held: net_holds(&wiring.kind),
        },
        NetClause::Other(kept) => net_kept_role(kept),
        NetClause::Use(_) | NetClause::Rule(_) => Role::Apart,
    }
}

/// Whether a word begins a wiring clause of SPECIALNETS.
fn begins_special(word: &[u8]) -> bool
    ensures { result ≡ is_one_of special_words word.now }
{
    is_word(word, b"ROUTED")
        || is_word(word, b"FIXED")
        || is_word(word, b"COVER")
        || is_word(word, b"SHIELD")
        || is_word(word, b"RECT")
        || is_word(word, b"VIA")
        || is_word(word, b"POLYGON")
        || is_word(word, b"SHAPE")
        || is_word(word, b"MASK")
}

/// The role of a clause of SPECIALNETS without meaning.
fn special_kept_role(clause: &KeptClause<'_>) -> Role
    ensures { role_view result ≡ special_role (special_kept (kept_view clause.now)) }
{
    if begins_special(clause.keyword.bytes) {
        Role::Barring
    } else {
        Role::Apart
    }
}

/// The role of a clause of SPECIALNETS, where shapes by themselves are wiring too.
pub fn special_role(clause: &SpecialClause<'_>) -> Role
    ensures { role_view result ≡ special_role (special_clause_view clause.now) }
{
    match clause {
        SpecialClause::Subnet(_) => Role::Barring,
        SpecialClause::Use(_) => Role::Apart,
        SpecialClause::Wiring(wiring) => Role::Wiring {
            held: special_holds(&wiring.kind),
        },
        SpecialClause::Other(kept) => special_kept_role(kept),
        _ => Role::Wiring { held: false },
    }
}

/// Clauses that are left of an entry.
pub trait WiringClauses: Copy + Drop {
    ghost left: { Self → Clauses };

    ghost tokens: { Self → ℕ };

    /// The role of the next clause, which is passed; at the end `None`.
    fn next_role(&mut self) -> Option<Role>
        ensures { MatchOption result (left self.old ≡ []) (λ role. IsNextRole (left self.old) (left self.new) (tokens self.old) (tokens self.new) role) };

    /// How many tokens are left.
    fn tokens_left(&self) -> usize
        ensures { result ≡ tokens self.now };
}

impl<'t> WiringClauses for Parts<'t, NetClause<'t>> {
    ghost left = { λ p. shown net_clause net_role (net_clauses_of p) };

    ghost tokens = { λ p. length (rest_of p.cursor).words };

    fn next_role(&mut self) -> Option<Role> {
        let Some(clause) = self.next() else {
            return None;
        };
        Some(net_role(&clause))
    }

    fn tokens_left(&self) -> usize {
        self.cursor.len()
    }
}

impl<'t> WiringClauses for Parts<'t, SpecialClause<'t>> {
    ghost left = { λ p. shown special_clause special_role (special_clauses_of p) };

    ghost tokens = { λ p. length (rest_of p.cursor).words };

    fn next_role(&mut self) -> Option<Role> {
        let Some(clause) = self.next() else {
            return None;
        };
        Some(special_role(&clause))
    }

    fn tokens_left(&self) -> usize {
        self.cursor.len()
    }
}

/// The clauses from the first on that is what is asked.
fn from_first<C: WiringClauses>(clauses: C, test: RoleTest) -> C
    ensures left { C.left result ≡ from_first (λ r. passes r test) (C.left clauses) }
    ensures size { C.tokens clauses ≡ size_before (λ r. passes r test) (C.left clauses) + C.tokens result }
{
    let mut left = clauses;
    loop {
        let mut later = left;
        let Some(role) = later.next_role() else {
            return left;
        };
        if role.passes(test) {
            return left;
        }
        left = later;
    }
}

/// Whether one of some clauses is what is asked.
pub fn any<C: WiringClauses>(clauses: C, test: RoleTest) -> bool
    ensures { result ≡ any_passes (λ r. passes r test) (C.left clauses) }
{
    let mut first = from_first(clauses, test);
    first.next_role().is_some()
}

/// Whether more wiring stands behind another clause, or a clause bars from changing it.
pub fn is_barred<C: WiringClauses>(clauses: C) -> bool
    ensures { result ≡ is_barred (C.left clauses) }
{
    let behind = from_first(from_first(clauses, RoleTest::Wiring), RoleTest::Other);
    any(behind, RoleTest::Wiring) || any(clauses, RoleTest::Barring)
}

/// Where wiring stands among the tokens of its entry: behind how many, and how many it has.
#[derive(Clone, Copy)]
pub struct WiringPlace {
    pub before: usize,
    pub taken: usize,
}

/// Where the wiring of these clauses stands, which are the last of an entry.
pub fn wiring_place<'t, C: WiringClauses>(entry: TokenRun<'t>, clauses: C) -> WiringPlace
    requires { C.tokens clauses ≤ length (words_of entry) }
    ensures before { result.before ≡ length (words_of entry.entry) - C.tokens clauses + size_before is_wiring (C.left clauses) }
    ensures taken { result.taken ≡ size_before is_other (wiring_on (C.left clauses)) }
    ensures within { result.before + result.taken ≤ length (words_of entry.entry) }
{
    let wiring = from_first(clauses, RoleTest::Wiring);
    let behind = from_first(wiring, RoleTest::Other);
    WiringPlace {
        before: entry.len() - wiring.tokens_left(),
        taken: wiring.tokens_left() - behind.tokens_left(),
    }
}

impl<'t> EntryClauses<'t> {
    /// The clauses of an entry, where it may have wiring.
    pub fn of(entry: &Entry<'t>) -> Option<EntryClauses<'t>>
        ensures gives { MatchOption result (is_wired (entry_view entry.now) ≡ false) (λ x. AreOf (entry_view entry.now) x) }
        ensures lent { (ps : List Token) → EntryAt ps entry.now → IfSome result (λ x. StandBehind ps (terminals_of (entry_view entry.now)) x) }
    {
        match entry {
            Entry::Net(NetEntry::Net(net)) => Some(EntryClauses::Net(net.clauses.again())),
            Entry::SpecialNet(net) => Some(EntryClauses::SpecialNet(net.clauses.again())),
            _ => None,
        }
    }
}
