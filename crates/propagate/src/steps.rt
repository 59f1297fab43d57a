// A step of settling that skips: a rule, then its groups are held against the table last seen, and where one differs, its rules are marked.
ghost use Rattle.std.specs.Prelude.{◌≡◌, ◌+◌, ◌≤◌, ◌<◌, T, length};
ghost use Rattle.model.specs.Limits.{limits};
ghost use Rattle.std.specs.List.{list_all};
ghost use Rattle.model.specs.Lists.{between};
ghost use Rattle.model.specs.Model.{constraint_in_range, constraint_sized};
ghost use Rattle.model.specs.Propagate.{group_rule_at, constraint_rule};
ghost use Rattle.propagate.specs.Skip.{Index, Notes, NotesAll, DifferIn, Step, Any, Line, GroupSteps, AddsLine};

use model::Constraint;
use table::Table;

// ---- the index: row g - 1 marks the lines of group g

fn index_line(index: &mut [u64; marks::INDEX], ids: &[u32], j: usize)
    requires { (j < 256) × T (list_all (between 1 limits.groups) ids.now) }
    ensures { AddsLine j ids.now index.old index.new }
{
    for g in ids {
        marks::mark(index, (*g as usize - 1) * marks::PLACES + j);
    }
}

#[tactic(auto, using(crate::proofs::Indexing::members_few))]
pub(crate) fn index_of(lines: &[Constraint]) -> [u64; marks::INDEX]
    requires { (length lines.now ≤ limits.constraints) × (T (list_all (constraint_in_range limits.groups) lines.now) × T (list_all constraint_sized lines.now)) }
    ensures { Index lines.now result }
{
    let mut index = [0u64; marks::INDEX];
    for (j, l) in lines.iter().enumerate() {
        index_line(
            &mut index,
            &l.groups[..range::member_count(l.code, l.count)],
            j,
        );
    }
    index
}

// ---- the table last seen, and the rules marked since

#[derive(Clone, Copy)]
pub(crate) struct Seen {
    pub(crate) table: Table,
    pub(crate) groups: [u64; marks::WORDS],
    pub(crate) lines: [u64; marks::WORDS],
}

// The group at place i is seen; where it differs, its rule and its lines are marked.
fn note(t: &Table, seen: &mut Seen, index: &[u64; marks::INDEX], i: usize) -> bool
    requires { i < 256 }
    ensures { Notes result i index.now t.now seen.old.table seen.new.table seen.old.groups seen.old.lines seen.new.groups seen.new.lines }
{
    if t[i] == seen.table[i] {
        return false;
    }
    seen.table[i] = t[i];
    marks::mark(&mut seen.groups, i);
    marks::add_row(&mut seen.lines, index, i);
    true
}

// The same for the groups of a line.
fn note_members(t: &Table, seen: &mut Seen, index: &[u64; marks::INDEX], ids: &[u32]) -> bool
    requires { T (list_all (between 1 limits.groups) ids.now) × DifferIn ids.now seen.old.table t.now }
    ensures { NotesAll result index.now t.now seen.old.table seen.new.table seen.old.groups seen.old.lines seen.new.groups seen.new.lines }
{
    let mut changed = false;
    for g in ids {
        let moved = note(t, seen, index, *g as usize - 1);
        changed = changed | moved;
    }
    changed
}

// ---- steps

fn group_step(t: &mut Table, seen: &mut Seen, index: &[u64; marks::INDEX], i: usize) -> bool
    requires { (i < 256) × (seen.old.table ≡ t.old) }
    ensures { Step Any (group_rule_at (i + 1)) index.now result t.old seen.old.groups seen.old.lines t.new seen.new.table seen.new.groups seen.new.lines }
{
    rules::group_rule_at(t, i);
    let changed = note(t, seen, index, i);
    if !changed {
        marks::unmark(&mut seen.groups, i);
    }
    changed
}

// The marked groups of 1 to s, in order.
pub(crate) fn group_steps(
    t: &mut Table,
    seen: &mut Seen,
    index: &[u64; marks::INDEX],
    s: usize,
) -> bool
    requires { (s ≤ 256) × (seen.old.table ≡ t.old) }
    ensures seen { seen.new.table ≡ t.new }
    ensures group_steps { GroupSteps s index.now result t.old seen.old.groups seen.old.lines t.new seen.new.groups seen.new.lines }
{
    let mut changed = false;
    let mut i = marks::next(&seen.groups, 0);
    while i < s {
        let moved = group_step(t, seen, index, i);
        changed = changed | moved;
        i = marks::next(&seen.groups, i + 1);
    }
    changed
}

#[tactic(auto, using(crate::proofs::Indexing::member_few))]
pub(crate) fn line_step(
    t: &mut Table,
    seen: &mut Seen,
    index: &[u64; marks::INDEX],
    l: &Constraint,
    n: u32,
    j: usize,
) -> bool
    requires { (j < 256) × ((n ≤ limits.entrants) × (T (constraint_in_range limits.groups l.now) × ((limits.members ≤ length l.now.groups) × (seen.old.table ≡ t.old)))) }
    ensures { Step (Line n j l.now) (constraint_rule n l.now) index.now result t.old seen.old.groups seen.old.lines t.new seen.new.table seen.new.groups seen.new.lines }
{
    rules::constraint_rule(t, model::entrants(n), l);
    let count = range::member_count(l.code, l.count);
    let changed = note_members(t, seen, index, &l.groups[..count]);
    if !changed {
        marks::unmark(&mut seen.lines, j);
    }
    changed
}
