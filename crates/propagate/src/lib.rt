// Propagation, which document 01 calls settling: passes of the group rule and the constraint rule until one changes nothing.
#![tactic(auto)]

mod steps;

ghost use Rattle.std.specs.Prelude.{◌≡◌, ◌+◌, ◌*◌, ◌≤◌, T, length, take};
ghost use Rattle.model.specs.Limits.{limits};
ghost use Rattle.std.specs.List.{list_all};
ghost use Rattle.model.specs.Model.{constraint_in_range, constraint_sized, in_range};
ghost use Rattle.model.specs.Difference.{may_differ};
ghost use Rattle.model.specs.Propagate.{tenable, refused_propagation, propagated, unsettled_or};
ghost use Rattle.correctness.specs.Demand3.{Settling};
ghost use Rattle.propagate.specs.Skip.{Ran, After, reached};

use model::{Constraint, Model, Propagated};
use steps::{Seen, group_steps, index_of, line_step};
use table::Table;

// ---- a pass

// None of the lines is of code 7 with all entrants settled alike.
fn may_differ(t: &Table, lines: &[Constraint]) -> bool
    ensures { result ≡ list_all (may_differ t.now) lines.now }
{
    lines.iter().all(|l| rules::may_differ(t, l))
}

// False is refusal 21: a look at groups 1 to s, and at the lines.
fn is_tenable(t: &Table, lines: &[Constraint], s: usize) -> bool
    requires { (1 ≤ s) × ((s ≤ limits.groups) × T (list_all (constraint_in_range s) lines.now)) }
    ensures { result ≡ tenable lines.now (take s t.now) }
{
    if !table::is_consistent(t, s) {
        return false;
    }
    may_differ(t, lines)
}

// The table after a pass, whether it is as before, and whether it is tenable.
#[derive(Clone, Copy)]
struct Pass {
    table: Table,
    same: bool,
    tenable: bool,
}

// The group rule on groups 1 to s, then each constraint in order.
#[tactic(auto, using(crate::proofs::Passes::in_ranges))]
fn passed(m: &Model) -> Pass
    requires { T (in_range m.now) }
    ensures { After m.now result.table result.same result.tenable }
{
    model::whole(m.groups, m.constraints);
    let s = m.s as usize;
    let lines = &m.constraints[..m.c as usize];
    let all = model::entrants(m.n);
    let mut table = m.groups;
    rules::group_rules(&mut table, s);
    for l in lines {
        rules::constraint_rule(&mut table, all, l);
    }
    let same = table::is_same(&table, &m.groups, s);
    let tenable = is_tenable(&table, lines, s);
    Pass {
        table,
        same,
        tenable,
    }
}

// ---- passes

// The passes made, the last included, and the table.
#[derive(Clone, Copy)]
struct Run {
    passes: u32,
    table: Table,
}

// From the table after one pass on, by the rules that are marked. None where the fuel did not do, or the table is not consistent, which is looked at after 2, 4, 8, .. passes.
fn run_marked(t: &Table, lines: &[Constraint], n: u32, s: usize, fuel: u32) -> Option<Run>
    requires { (1 ≤ fuel) × ((s ≤ limits.groups) × ((length lines.now ≤ limits.constraints) × (T (list_all (constraint_in_range limits.groups) lines.now) × (T (list_all constraint_sized lines.now) × (n ≤ limits.entrants))))) }
    ensures { Ran n s lines.now fuel 1 t.now (reached result) }
{
    let index = index_of(lines);
    let mut table = *t;
    let mut seen = Seen {
        table,
        groups: [u64::MAX; marks::WORDS],
        lines: [u64::MAX; marks::WORDS],
    };
    for k in 1..fuel {
        let mut changed = group_steps(&mut table, &mut seen, &index, s);
        let mut j = marks::next(&seen.lines, 0);
        while j < lines.len() {
            let moved = line_step(&mut table, &mut seen, &index, &lines[j], n, j);
            changed = changed | moved;
            j = marks::next(&seen.lines, j + 1);
        }
        let passes = k + 1;
        if !changed {
            return Some(Run { passes, table });
        }
        if passes.is_power_of_two() {
            if !table::is_consistent(&table, s) {
                return None;
            }
        }
    }
    None
}

#[tactic(auto, unfolding(model::specs::Propagate::refused_propagation))]
fn refused(refusal: u32, m: Model) -> Propagated
    ensures { result ≡ refused_propagation refusal m }
{
    Propagated {
        refusal,
        passes: 0,
        model: m,
    }
}

// Passes until one changes nothing; refusals 20 and 21. In range, demand 3 says what the answer is: `Settling`.
#[tactic(auto, using(crate::proofs::Passes::in_ranges))]
pub fn propagate(m: Model) -> Propagated
    ensures value { result ≡ propagated m }
    ensures passes_bound { result.passes ≤ 2 * m.s * m.n + 1 }
    ensures settling { (result.refusal ≡ 20 → ⊥) → Settling m result }
{
    if !range::in_range(m) {
        return refused(20, m);
    }
    let first = passed(&m);
    if first.same {
        if !first.tenable {
            return refused(21, m);
        }
        return Propagated {
            refusal: 0,
            passes: 1,
            model: m,
        };
    }
    let s = m.s as usize;
    let lines = &m.constraints[..m.c as usize];
    let fuel = 2 * m.s * m.n + 1;
    let Some(r) = run_marked(&first.table, lines, m.n, s, fuel) else {
        return refused(21, m);
    };
    if !is_tenable(&r.table, lines, s) {
        return refused(21, m);
    }
    table::done(r.passes, m, &r.table)
}

// Refusals 20 and 22, or 0: what an entry that asks for a settled model judges first.
pub fn unsettled(m: Model) -> u32
    ensures { result ≡ unsettled_or m 0 }
{
    if !range::in_range(m) {
        return 20;
    }
    let p = passed(&m);
    if !p.tenable {
        return 22;
    }
    if !p.same {
        return 22;
    }
    0
}
