// Closing: whether the values satisfy every clause, and the groups that they say. The last step of the chain.
// A totalizer's outputs are compared with the count of its leaves, and a constraint's clauses are judged for all entrants at once.
#![tactic(auto)]

mod differences;
mod group_clauses;

ghost use Rattle.std.specs.Prelude.{◌≡◌, ◌+◌, ◌≤◌, ◌<◌, take};
ghost use Rattle.std.specs.List.{list_all};
ghost use Rattle.model.specs.Lists.{range};
ghost use Rattle.model.specs.Limits.{limits};
ghost use Rattle.model.specs.Cnf.{table_variables};
ghost use Rattle.model.specs.Assignment.{is_said};
ghost use Rattle.model.specs.Close.{assignment_of, closed};
ghost use Rattle.correctness.specs.Entries.{Drawn};
ghost use Rattle.numbering.specs.Numbering.{first_variables, first_outputs, differences_from};
ghost use Rattle.solution.specs.Holds.{clauses_hold_of, constraint_holds_at, clauses_hold, refused_closing};

use differences::difference_holds;
use group_clauses::{groups_hold, wide, words};
use model::{Closed, Constraint, Group, Model, Reading};
use numbering::Numbering;

// Whether every variable is said.
#[tactic(auto, unfolding(model::specs::Assignment::is_said))]
fn all_said(values: &[u8]) -> bool
    ensures { result ≡ list_all is_said values.now }
{
    values.iter().all(|b| 1 <= *b && *b <= 2)
}

// The clauses of a constraint, whose X start at x: of code 7, whether an entrant differs already, and who has an X, are told.
fn constraint_holds(
    values: &[u8],
    apart: bool,
    free: u64,
    l: &Constraint,
    words: &[u64; Model::GROUPS],
    n: u32,
    x: usize,
) -> bool
    requires { (n ≤ limits.entrants) × (x < 10000000000) }
    ensures { result ≡ clauses_hold_of (assignment_of values.now) apart free words.now n x l.now }
{
    if l.code == 7 {
        return difference_holds(values, apart, free, l, words, n, x);
    }
    constraint_clauses::constraint_holds(words, &l.groups, model::entrants(n), l.code, l.count)
}

// The clauses of the first c constraints, whose first X are given.
fn constraints_hold(
    values: &[u8],
    groups: &[Group; Model::GROUPS],
    constraints: &[Constraint; Model::CONSTRAINTS],
    differences: &[u32; Model::CONSTRAINTS],
    words: &[u64; Model::GROUPS],
    n: u32,
    s: usize,
    c: usize,
) -> bool
    requires n_le_entrants { (n ≤ limits.entrants) × (c ≤ limits.constraints) }
    requires differences_value { differences.now ≡ differences_from (1 + table_variables (take s groups.now)) (take s groups.now) (take c constraints.now) }
    ensures { result ≡ list_all (constraint_holds_at (assignment_of values.now) (take s groups.now) (take c constraints.now) words.now n) (range 0 c) }
{
    for j in 0..c {
        let l = constraints[j];
        let f = difference::group_at(groups, s, l.groups[0]);
        let g = difference::group_at(groups, s, l.groups[1]);
        let apart = difference::apart_of(l, f, g);
        let free = difference::differing_of(l, f, g);
        let x = wide(differences[j]);
        if !constraint_holds(values, apart, free, &l, words, n, x) {
            return false;
        }
    }
    true
}

// Every clause of the listing.
fn clauses_hold(
    values: &[u8],
    groups: &[Group; Model::GROUPS],
    constraints: &[Constraint; Model::CONSTRAINTS],
    v: &Numbering,
    words: &[u64; Model::GROUPS],
    n: u32,
    s: u32,
    c: u32,
) -> bool
    requires n_le_entrants { (n ≤ limits.entrants) × (s ≤ limits.groups) × (c ≤ limits.constraints) }
    requires first_value { (v.now.first ≡ first_variables (take s groups.now)) × (v.now.outputs ≡ first_outputs (take s groups.now)) × (v.now.differences ≡ differences_from (1 + table_variables (take s groups.now)) (take s groups.now) (take c constraints.now)) }
    ensures { result ≡ clauses_hold (assignment_of values.now) (take s groups.now) (take c constraints.now) words.now n s c }
{
    if !groups_hold(values, groups, &v.first, &v.outputs, words, s) {
        return false;
    }
    constraints_hold(
        values,
        groups,
        constraints,
        &v.differences,
        words,
        n,
        s as usize,
        c as usize,
    )
}

#[tactic(auto, unfolding(crate::specs::Holds::refused_closing))]
fn refused(refusal: u32) -> Closed
    ensures { result ≡ refused_closing refusal }
{
    Closed {
        refusal,
        groups: [0; Model::GROUPS],
    }
}

// The groups that the values say, which demand 3 calls a draw: `Drawn`; or refusal 20, 22, 26, 27 or 28, and zeros.
pub fn close(m: Model, r: Reading, values: &[u8]) -> Closed
    ensures value { result ≡ closed m r values.now }
    ensures drawn { result.refusal ≡ 0 → Drawn m result }
{
    let refusal = propagate::unsettled(m);
    if refusal != 0 {
        return refused(refusal);
    }
    let v = numbering::of_model(m);
    if values.len() != v.variables as usize {
        return refused(26);
    }
    if !r.closed {
        return refused(27);
    }
    if !all_said(values) {
        return refused(27);
    }
    let groups = m.groups;
    let constraints = m.constraints;
    model::whole(groups, constraints);
    let found = words(values, &m.groups, &v.first, m.n, m.s);
    if !clauses_hold(values, &m.groups, &m.constraints, &v, &found, m.n, m.s, m.c) {
        return refused(28);
    }
    Closed {
        refusal: 0,
        groups: found,
    }
}
