// How many clauses the listing of a model has: C of its first line.
#![tactic(auto)]

ghost use Rattle.std.specs.Prelude.{◌≡◌, ◌+◌, ◌-◌, ◌*◌, ◌≤◌, T, length, take};
ghost use Rattle.std.specs.List.{list_all};
ghost use Rattle.model.specs.Lists.{total};
ghost use Rattle.model.specs.Limits.{limits};
ghost use Rattle.model.specs.Clauses.{member_clauses};
ghost use Rattle.model.specs.Model.{constraint_in_range};
ghost use Rattle.model.specs.Totalizer.{tree_clause_count};
ghost use Rattle.model.specs.Cnf.{group_clause_count, constraint_clauses, clause_count};
ghost use Rattle.model.specs.Propagate.{Settled};
ghost use Rattle.model.proofs.Lists.{All};
ghost use Rattle.encoding_laws.proofs.Fixpoint.{SettledAmong};
ghost use Rattle.numbering.specs.Numbering.{first_variables};
ghost use Rattle.terms.specs.Terms.{MembersBelow};
ghost use Rattle.counts.specs.Counts.{kept_count, entrant_count, constraint_count, listed_clauses};

use model::{Constraint, Group, Model};
use terms::Member;

// ---- groups

// How many clauses a tree has, and one of a leaf more.
#[derive(Clone, Copy)]
struct Clauses {
    own: u32,
    more: u32,
}

// "2(a+1)(b+1) - 2": the clauses of a node over halves of sizes a and b.
fn node_count(a: u32, b: u32) -> u32
    requires { (a ≤ limits.word) × (b ≤ limits.word) }
    ensures { (result ≡ 2 * ((a + 1) * (b + 1)) - 2) × (result ≤ limits.block) }
{
    2 * ((a + 1) * (b + 1)) - 2
}

// "Tree clauses T(1) = 0, T(m) = T(left) + T(right) + 2(a+1)(b+1) - 2", of sizes m and m + 1 at once: their halves are of m / 2 and of one more.
fn clauses_by_halves(m: u32) -> Clauses
    requires { m ≤ limits.word }
    ensures { (result.own ≡ tree_clause_count m) × (result.more ≡ tree_clause_count (m + 1)) }
{
    if m < 2 {
        return Clauses {
            own: 0,
            more: 6 * m,
        };
    }
    let a = m / 2;
    let h = clauses_by_halves(a);
    let mixed = h.own + h.more + node_count(a, a + 1);
    if a + a < m {
        return Clauses {
            own: mixed,
            more: h.more + h.more + node_count(a + 1, a + 1),
        };
    }
    Clauses {
        own: h.own + h.own + node_count(a, a),
        more: mixed,
    }
}

fn tree_count(m: u32) -> u32
    requires { m ≤ limits.word }
    ensures { result ≡ tree_clause_count m }
{
    clauses_by_halves(m).own
}

// How many clauses a group's totalizer has: no more than a block has bytes.
fn group_count(g: Group) -> u32
    requires { SettledAmong limits.entrants g }
    ensures { (result ≡ group_clause_count g) × (result ≤ limits.block) }
{
    let t = numbering::totalizer_of(g);
    if !t.exists {
        return 0;
    }
    tree_count(t.size) + t.low + (t.size - t.high)
}

// Of the first s groups.
fn sum_groups(groups: &[Group; Model::GROUPS], s: usize) -> u32
    requires s_le_groups { s ≤ limits.groups }
    requires all { All (SettledAmong limits.entrants) (take s groups.now) }
    ensures { (result ≡ total group_clause_count (take s groups.now)) × (result ≤ s * limits.block) }
{
    let mut r = 0;
    for g in &groups[..s] {
        r += group_count(*g);
    }
    r
}

// ---- constraints

// 1 where clause j is kept, and 0 where it is left out.
fn kept_count(ns: &[u32; Model::MEMBERS], code: u32, count: u32, j: usize) -> u32
    ensures { (result ≡ kept_count ns.now code count j) × (result ≤ 1) }
{
    if terms::clause_true(ns, code, count, j) {
        return 0;
    }
    1
}

// Of one entrant.
fn entrant_count(ns: &[u32; Model::MEMBERS], code: u32, count: u32) -> u32
    requires { length (member_clauses code count) ≤ limits.members }
    ensures { (result ≡ entrant_count ns.now code count) × (result ≤ length (member_clauses code count)) }
{
    let mut r = 0;
    for j in 0..constraint::clause_count(code, count) {
        r += kept_count(ns, code, count, j);
    }
    r
}

// The same as entrant_count, of which k members are enough: where they are all open, no clause is left out.
fn entrant_total(ns: &[u32; Model::MEMBERS], k: usize, code: u32, count: u32) -> u32
    requires members_below { MembersBelow k code count }
    requires count_len_bound { length (member_clauses code count) ≤ limits.members }
    ensures { (result ≡ entrant_count ns.now code count) × (result ≤ length (member_clauses code count)) }
{
    if terms::all_open(ns, k) {
        return constraint::clause_count(code, count) as u32;
    }
    entrant_count(ns, code, count)
}

// Of a constraint of k members, for n entrants.
fn constraint_count(ms: &[Member; Model::MEMBERS], k: usize, code: u32, count: u32, n: u32) -> u32
    requires k_le_members { (k ≤ limits.members) × (n ≤ limits.entrants) }
    requires members_below { MembersBelow k code count }
    requires count_len_bound { length (member_clauses code count) ≤ limits.members }
    ensures { (result ≡ constraint_count (take k ms.now) code count n) × (result ≤ limits.entrants * limits.members) }
{
    let mut r = 0;
    for e in 0..n {
        r += entrant_total(&terms::member_numbers(ms, k, e), k, code, count);
    }
    r
}

// Of a code 7 constraint: none where an entrant differs already, and else the last one too. Their number is the same wherever the X are numbered from.
fn difference_length(
    groups: &[Group; Model::GROUPS],
    s: usize,
    first: &[u32; Model::GROUPS],
    c: &Constraint,
    n: u32,
) -> u32
    requires s_le_groups { (s ≤ limits.groups) × (n ≤ limits.entrants) }
    requires all { All (SettledAmong n) (take s groups.now) × (first.now ≡ first_variables (take s groups.now)) }
    requires t { T (constraint_in_range s c.now) × (c.now.code ≡ 7) }
    ensures { (result ≡ length (constraint_clauses n (take s groups.now) 0 c.now)) × (result ≤ limits.entrants * limits.members + 1) }
{
    if difference::is_apart(groups, s, c) {
        return 0;
    }
    let o = difference::differing(groups, s, c);
    let ms = terms::difference_members(groups, first, &c.groups, o, 1);
    constraint_count(&ms, 3, c.code, c.count, n) + 1
}

// Of constraint c among the first s groups.
fn constraint_length(
    groups: &[Group; Model::GROUPS],
    s: usize,
    first: &[u32; Model::GROUPS],
    c: &Constraint,
    n: u32,
) -> u32
    requires s_le_groups { (s ≤ limits.groups) × (n ≤ limits.entrants) }
    requires all { All (SettledAmong n) (take s groups.now) × (first.now ≡ first_variables (take s groups.now)) }
    requires t { T (constraint_in_range s c.now) }
    ensures { (result ≡ length (constraint_clauses n (take s groups.now) 0 c.now)) × (result ≤ limits.entrants * limits.members + 1) }
{
    if c.code == 7 {
        return difference_length(groups, s, first, c, n);
    }
    let k = range::member_count(c.code, c.count);
    let ms = terms::members(groups, first, &c.groups, k);
    constraint_count(&ms, k, c.code, c.count, n)
}

// Of the first c constraints.
fn sum_constraints(
    groups: &[Group; Model::GROUPS],
    s: usize,
    first: &[u32; Model::GROUPS],
    constraints: &[Constraint; Model::CONSTRAINTS],
    c: usize,
    n: u32,
) -> u32
    requires s_le_groups { (s ≤ limits.groups) × (n ≤ limits.entrants) × (c ≤ limits.constraints) }
    requires all { All (SettledAmong n) (take s groups.now) × (first.now ≡ first_variables (take s groups.now)) }
    requires t { T (list_all (constraint_in_range s) (take c constraints.now)) }
    ensures { (result ≡ total (λ x. length (constraint_clauses n (take s groups.now) 0 x)) (take c constraints.now)) × (result ≤ c * (limits.entrants * limits.members + 1)) }
{
    let mut r = 0;
    for x in &constraints[..c] {
        r += constraint_length(groups, s, first, x, n);
    }
    r
}

// ---- a model

// Of a settled model.
fn settled_count(m: Model) -> u32
    requires { Settled m }
    ensures { result ≡ clause_count m }
{
    let v = numbering::of_model(m);
    let s = m.s as usize;
    let a = sum_groups(&m.groups, s);
    let b = sum_constraints(&m.groups, s, &v.first, &m.constraints, m.c as usize, m.n);
    a + b
}

// Of every model: 0 where it is refused, since then there is no listing.
pub fn clause_count(m: Model) -> u32
    ensures { result ≡ listed_clauses m }
{
    if propagate::unsettled(m) != 0 {
        return 0;
    }
    let groups = m.groups;
    let constraints = m.constraints;
    model::whole(groups, constraints);
    settled_count(m)
}
