// Filling: whether a word for each group is a draw of a settled model, and the values of its one satisfying assignment. The way back from closing.
// A draw is judged on sets, and values are written in their order, the variables', the outputs', then the X of code 7.
#![tactic(auto)]

ghost use Rattle.std.specs.Prelude.{◌≡◌, ◌==◌, ◌+◌, ◌≤◌, ◌<◌, T, length, take, count_by};
ghost use Rattle.std.specs.List.{list_all, flat_map, zip};
ghost use Rattle.model.specs.Lists.{each_pair};
ghost use Rattle.model.specs.Limits.{limits};
ghost use Rattle.model.specs.Model.{constraint_sized, constraint_in_range, in_range};
ghost use Rattle.model.specs.Solution.{allowed, is_solution};
ghost use Rattle.model.specs.Fill.{unary, open_values, variable_values, output_values, difference_values, value_of, values_of, fill_refusal, filled_values};
ghost use Rattle.text.specs.Put.{Wrote};
ghost use Rattle.correctness.specs.Filling.{RoundTrips};
ghost use Rattle.filling.specs.Parts.{sets_true, entrant_value, tree_of, pair_values};

use model::{Constraint, Group, Model};

// ---- whether the words are a draw

// Whether a group may have the entrants w.
fn allowed(g: &Group, w: u64) -> bool
    ensures { result ≡ allowed g.now w }
{
    if g.fixed & w != g.fixed {
        return false;
    }
    if w & g.possible != w {
        return false;
    }
    let k = w.count_ones();
    if k < g.low {
        return false;
    }
    k <= g.high
}

// Groups 1 to s.
fn groups_allowed(groups: &[Group; Model::GROUPS], words: &[u64; Model::GROUPS], s: usize) -> bool
    ensures value { result ≡ list_all (λ p. allowed p.0 p.1) (take s (zip groups.now words.now)) }
    ensures lengths { (length groups.now ≡ limits.groups) × (length words.now ≡ limits.groups) }
{
    groups
        .iter()
        .zip(words.iter())
        .take(s)
        .all(|(g, w)| allowed(g, *w))
}

// The first c constraints.
fn constraints_true(
    constraints: &[Constraint; Model::CONSTRAINTS],
    words: &[u64; Model::GROUPS],
    c: usize,
) -> bool
    ensures { result ≡ list_all (sets_true words.now) (take c constraints.now) }
{
    constraints.iter().take(c).all(|l| constraint_clauses::sets_hold(
        words, &l.groups, l.code, l.count,
    ))
}

// Whether the words of groups 1 to s are a draw of the model.
fn is_draw(m: &Model, words: &[u64; Model::GROUPS]) -> bool
    requires { T (in_range m.now) }
    ensures { result ≡ is_solution m.now (take m.now.s words.now) }
{
    if !groups_allowed(&m.groups, words, m.s as usize) {
        return false;
    }
    constraints_true(&m.constraints, words, m.c as usize)
}

// ---- the values of a group

// 1 true, 2 false.
fn value_of(b: bool) -> u8
    ensures { result ≡ value_of b }
{
    if b {
        return 1;
    }
    2
}

// The value of entrant e, where it is open.
fn put_entrant(values: &mut [u8], at: usize, free: u64, w: u64, e: u32) -> usize
    requires e_lt_word { e < limits.word }
    requires e_in_bounds { at + length (entrant_value free w e) ≤ length values.old }
    ensures { Wrote (entrant_value free w e) at values.old values.new result }
{
    if (free >> e) % 2 == 1 {
        values[at] = value_of((w >> e) % 2 == 1);
        return at + 1;
    }
    at
}

// Of the entrants `free`, whether w has them.
fn put_open(values: &mut [u8], at: usize, free: u64, w: u64, n: u32) -> usize
    requires n_le_entrants { n ≤ limits.entrants }
    requires w_in_bounds { at + length (values_of (open_values n free w)) ≤ length values.old }
    ensures { Wrote (values_of (open_values n free w)) at values.old values.new result }
{
    let mut k = at;
    for e in 0..n {
        k = put_entrant(values, k, free, w, e);
    }
    k
}

// The variables of a group whose entrants are w.
fn put_variables(values: &mut [u8], at: usize, g: &Group, w: u64, n: u32) -> usize
    requires n_le_entrants { n ≤ limits.entrants }
    requires w_in_bounds { at + length (values_of (variable_values n g.now w)) ≤ length values.old }
    ensures { Wrote (values_of (variable_values n g.now w)) at values.old values.new result }
{
    put_open(values, at, model::without(g.possible, g.fixed), w, n)
}

// How many values are true.
fn true_count(values: &[u8]) -> usize
    ensures { result ≡ count_by (λ b. b == 1) values.now }
{
    values.iter().filter(|b| **b == 1).count()
}

// The outputs of a node of m leaves of which x are true.
fn put_outputs(values: &mut [u8], at: usize, m: usize, x: usize) -> usize
    requires { at + length (values_of (unary m x)) ≤ length values.old }
    ensures { Wrote (values_of (unary m x)) at values.old values.new result }
{
    for i in 0..m {
        values[at + i] = value_of(i < x);
    }
    at + m
}

// The outputs of a tree over leaves: left half, right half, then the node itself. A half of one leaf has none.
fn put_tree(values: &mut [u8], at: usize, leaves: &[u8]) -> usize
    requires { at + length (tree_of leaves.now) ≤ length values.old }
    ensures { Wrote (tree_of leaves.now) at values.old values.new result }
{
    let m = leaves.len();
    if m < 2 {
        return at;
    }
    if m == 2 {
        return put_outputs(values, at, 2, true_count(leaves));
    }
    let x = put_tree(values, at, &leaves[..m / 2]);
    let y = put_tree(values, x, &leaves[m / 2..]);
    put_outputs(values, y, m, true_count(leaves))
}

// The outputs of a group's totalizer, where it has one.
fn put_totalizer(values: &mut [u8], at: usize, g: &Group, w: u64, n: u32) -> usize
    requires n_le_entrants { n ≤ limits.entrants }
    requires w_in_bounds { at + length (values_of (output_values n g.now w)) ≤ length values.old }
    ensures { Wrote (values_of (output_values n g.now w)) at values.old values.new result }
{
    let t = numbering::totalizer_of(*g);
    if !t.exists {
        return at;
    }
    let mut leaves = [0u8; Model::WORD as usize];
    let m = put_variables(&mut leaves, 0, g, w, n);
    put_tree(values, at, &leaves[..m])
}

// ---- of all groups

fn put_all_variables(
    values: &mut [u8],
    groups: &[Group; Model::GROUPS],
    words: &[u64; Model::GROUPS],
    n: u32,
    s: usize,
) -> usize
    requires n_le_entrants { (n ≤ limits.entrants) × (s ≤ limits.groups) }
    requires words_in_bounds { length (values_of (each_pair (variable_values n) (take s groups.now) (take s words.now))) ≤ length values.old }
    ensures { Wrote (values_of (each_pair (variable_values n) (take s groups.now) (take s words.now))) 0 values.old values.new result }
{
    let mut k = 0;
    for i in 0..s {
        k = put_variables(values, k, &groups[i], words[i], n);
    }
    k
}

fn put_all_totalizers(
    values: &mut [u8],
    at: usize,
    groups: &[Group; Model::GROUPS],
    words: &[u64; Model::GROUPS],
    n: u32,
    s: usize,
) -> usize
    requires n_le_entrants { (n ≤ limits.entrants) × (s ≤ limits.groups) }
    requires words_in_bounds { at + length (values_of (each_pair (output_values n) (take s groups.now) (take s words.now))) ≤ length values.old }
    ensures { Wrote (values_of (each_pair (output_values n) (take s groups.now) (take s words.now))) at values.old values.new result }
{
    let mut k = at;
    for i in 0..s {
        k = put_totalizer(values, k, &groups[i], words[i], n);
    }
    k
}

// ---- of all constraints

// The X of a constraint, whose first two groups are f and g: those of the entrants in just one of the two are true.
fn put_differences(
    values: &mut [u8],
    at: usize,
    f: Group,
    g: Group,
    words: &[u64; Model::GROUPS],
    c: &Constraint,
    n: u32,
) -> usize
    requires n_le_entrants { n ≤ limits.entrants }
    requires c_in_bounds { at + length (values_of (pair_values n f g words.now c.now)) ≤ length values.old }
    ensures { Wrote (values_of (pair_values n f g words.now c.now)) at values.old values.new result }
{
    if c.code != 7 {
        return at;
    }
    let free = difference::either_open(f, g);
    let v = constraint_clauses::set_of(words, c.groups[0]);
    let w = constraint_clauses::set_of(words, c.groups[1]);
    let either = v | w;
    let both = v & w;
    put_open(values, at, free, model::without(either, both), n)
}

fn put_all_differences(
    values: &mut [u8],
    at: usize,
    groups: &[Group; Model::GROUPS],
    words: &[u64; Model::GROUPS],
    s: usize,
    constraints: &[Constraint; Model::CONSTRAINTS],
    c: usize,
    n: u32,
) -> usize
    requires n_le_entrants { (n ≤ limits.entrants) × (c ≤ limits.constraints) × (s ≤ limits.groups) }
    requires t { T (list_all (constraint_in_range s) (take c constraints.now)) × T (list_all constraint_sized constraints.now) }
    requires constraints_in_bounds { at + length (values_of (flat_map (difference_values n (take s groups.now) (take s words.now)) (take c constraints.now))) ≤ length values.old }
    ensures { Wrote (values_of (flat_map (difference_values n (take s groups.now) (take s words.now)) (take c constraints.now))) at values.old values.new result }
{
    let mut k = at;
    for j in 0..c {
        let l = constraints[j];
        let f = difference::group_at(groups, s, l.groups[0]);
        let g = difference::group_at(groups, s, l.groups[1]);
        k = put_differences(values, k, f, g, words, &l, n);
    }
    k
}

// The values of the one satisfying assignment that reads back as the words of groups 1 to s; or refusal 20, 22, 30 or 26, and then no value changes.
// With closing it goes there and back: `RoundTrips`.
pub fn fill(m: Model, words: &[u64; Model::GROUPS], values: &mut [u8]) -> u32
    ensures value { result ≡ fill_refusal m words.now values.old }
    ensures values_after { values.new ≡ filled_values m words.now values.old }
    ensures round_trips { RoundTrips m }
{
    let groups = m.groups;
    let constraints = m.constraints;
    model::whole(groups, constraints);
    let refusal = propagate::unsettled(m);
    if refusal != 0 {
        return refusal;
    }
    if !is_draw(&m, words) {
        return 30;
    }
    let v = numbering::of_model(m);
    if values.len() != v.variables as usize {
        return 26;
    }
    let s = m.s as usize;
    let k = put_all_variables(values, &m.groups, words, m.n, s);
    let j = put_all_totalizers(values, k, &m.groups, words, m.n, s);
    put_all_differences(
        values,
        j,
        &m.groups,
        words,
        s,
        &m.constraints,
        m.c as usize,
        m.n,
    );
    0
}
