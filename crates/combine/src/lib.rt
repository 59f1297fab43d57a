// Combining: the sheets of two committees over the same entrants and groups, made one by the desk's rule.
#![tactic(auto)]

ghost use Rattle.std.specs.Prelude.{◌≡◌, map, ◌++◌, ◌+◌, ◌-◌, ◌≤◌, take, replicate};
ghost use Rattle.model.specs.Limits.{limits};
ghost use Rattle.model.specs.Model.{zero_group, zero_constraint, Whole};
ghost use Rattle.model.specs.SheetText.{clean_constraint};
ghost use Rattle.model.specs.Combine.{combined_group, combined_table, combined_model, fits, combine_refusal, combined};
ghost use Rattle.combine.specs.Clash.{first_entrant, no_clash, clash_in, first_clash, clash_of};
ghost use Rattle.combine.specs.Combines.{Combines};

use model::{Combined, Constraint, Group, Model};

// ---- groups

#[tactic(auto, unfolding(model::specs::Combine::combined_group))]
fn combined_group(a: &Group, b: &Group) -> Group
    ensures { result ≡ combined_group a.now b.now }
{
    Group {
        fixed: a.fixed | b.fixed,
        possible: a.possible & b.possible,
        low: a.low.max(b.low),
        high: a.high.min(b.high),
    }
}

// The first s groups, then zeros.
fn combined_groups(
    a: &[Group; Model::GROUPS],
    b: &[Group; Model::GROUPS],
    s: usize,
) -> [Group; Model::GROUPS]
    requires { s ≤ limits.groups }
    ensures { result ≡ combined_table (take s a.now) (take s b.now) ++ replicate (limits.groups - s) zero_group }
{
    let none = Group {
        fixed: 0,
        possible: 0,
        low: 0,
        high: 0,
    };
    let mut groups = [none; Model::GROUPS];
    for i in 0..s {
        groups[i] = combined_group(&a[i], &b[i]);
    }
    groups
}

// ---- constraints

// The first k of a constraint's groups, then zeros.
fn clean_members(ids: &[u32; Model::MEMBERS], k: usize) -> [u32; Model::MEMBERS]
    ensures { result ≡ take k ids.now ++ replicate (limits.members - k) 0 }
{
    let mut members = *ids;
    members[k.min(Model::MEMBERS)..].fill(0);
    members
}

// A constraint as the reader would give it.
#[tactic(auto, unfolding(model::specs::SheetText::clean_constraint, model::specs::Clauses::groups_of))]
fn clean(c: &Constraint) -> Constraint
    ensures { result ≡ clean_constraint c.now }
{
    let groups = clean_members(&c.groups, range::member_count(c.code, c.count));
    if c.code == 6 {
        return Constraint {
            code: c.code,
            count: c.count,
            groups,
        };
    }
    Constraint {
        code: c.code,
        count: 0,
        groups,
    }
}

// The first k constraints of a and the first l of b, then zeros.
fn combined_constraints(
    a: &[Constraint; Model::CONSTRAINTS],
    k: usize,
    b: &[Constraint; Model::CONSTRAINTS],
    l: usize,
) -> [Constraint; Model::CONSTRAINTS]
    requires { k + l ≤ limits.constraints }
    ensures { result ≡ map clean_constraint (take k a.now ++ take l b.now) ++ replicate (limits.constraints - (k + l)) zero_constraint }
{
    let none = Constraint {
        code: 0,
        count: 0,
        groups: [0; Model::MEMBERS],
    };
    let mut constraints = [none; Model::CONSTRAINTS];
    for i in 0..k {
        constraints[i] = clean(&a[i]);
    }
    for j in 0..l {
        constraints[k + j] = clean(&b[j]);
    }
    constraints
}

// ---- where two sheets clash

// Whether no mark that one bars is fixed by the other, and no low exceeds a high.
#[tactic(auto, unfolding(model::specs::Combine::fits, model::specs::Words::inside))]
fn fits(a: &Group, b: &Group) -> bool
    ensures { result ≡ fits a.now b.now }
{
    if a.fixed & b.possible != a.fixed {
        return false;
    }
    if b.fixed & a.possible != b.fixed {
        return false;
    }
    a.low.max(b.low) <= a.high.min(b.high)
}

// The first entrant of a word; 0 where it has none.
fn first_entrant(w: u64) -> u32
    ensures { result ≡ first_entrant w }
{
    for e in 0..Model::WORD {
        if (w >> e) % 2 == 1 {
            return e + 1;
        }
    }
    0
}

// A group in which two sheets clash, and there the first entrant whom one bars and the other fixes; 0 where there is none.
// No Option: the definition `clash_of` gives the zeros, and combine_sheets reads the fields.
#[derive(Clone, Copy)]
pub struct Clash {
    pub group: u32,
    pub entrant: u32,
}

fn no_clash() -> Clash
    ensures { result ≡ no_clash }
{
    Clash {
        group: 0,
        entrant: 0,
    }
}

#[tactic(auto, unfolding(crate::specs::Clash::clash_in))]
fn clash_in(g: u32, a: &Group, b: &Group) -> Clash
    ensures { result ≡ clash_in g a.now b.now }
{
    let first = model::without(a.fixed, b.possible);
    let second = model::without(b.fixed, a.possible);
    Clash {
        group: g,
        entrant: first_entrant(first | second),
    }
}

// The first clash of the first s groups of xs and the first t of ys.
fn clash_among(
    xs: &[Group; Model::GROUPS],
    s: usize,
    ys: &[Group; Model::GROUPS],
    t: usize,
) -> Clash
    ensures { result ≡ first_clash 1 (take s xs.now) (take t ys.now) }
{
    for i in 0..s.min(t).min(Model::GROUPS) {
        if !fits(&xs[i], &ys[i]) {
            return clash_in(i as u32 + 1, &xs[i], &ys[i]);
        }
    }
    no_clash()
}

// The first clash of two models' groups.
pub fn first_clash(a: Model, b: Model) -> Clash
    ensures { result ≡ clash_of a b }
{
    clash_among(&a.groups, a.s as usize, &b.groups, b.s as usize)
}

// ---- two models

// Refusal 20, 31, 32 or 33, or 0.
fn refusal(a: Model, b: Model) -> u32
    requires { Whole a × Whole b }
    ensures { result ≡ combine_refusal a b }
{
    if !range::in_range(a) {
        return 20;
    }
    if !range::in_range(b) {
        return 20;
    }
    if a.n != b.n {
        return 31;
    }
    if a.s != b.s {
        return 31;
    }
    let first = first_clash(a, b);
    let group = first.group;
    let lines = a.c as usize + b.c as usize;
    if group != 0 {
        return 32;
    }
    if Model::CONSTRAINTS < lines {
        return 33;
    }
    0
}

// The combined model of two that fit.
fn combined_model(a: Model, b: Model) -> Model
    requires { (a.s ≤ limits.groups) × (a.s ≡ b.s) × (a.c + b.c ≤ limits.constraints) }
    ensures { result ≡ combined_model a b }
{
    Model {
        n: a.n,
        s: a.s,
        c: a.c + b.c,
        groups: combined_groups(&a.groups, &b.groups, a.s as usize),
        constraints: combined_constraints(
            &a.constraints,
            a.c as usize,
            &b.constraints,
            b.c as usize,
        ),
    }
}

// The combined model, or refusal 20, 31, 32 or 33 and the zero model. Its draws are those of both: `Combines`.
pub fn combine(a: Model, b: Model) -> Combined
    ensures value { result ≡ combined a b }
    ensures combines { Combines a b }
{
    let xs = a.groups;
    let ys = b.groups;
    let cs = a.constraints;
    let ds = b.constraints;
    model::whole(xs, cs);
    model::whole(ys, ds);
    let r = refusal(a, b);
    if r != 0 {
        return Combined {
            refusal: r,
            model: Model::zero(),
        };
    }
    Combined {
        refusal: 0,
        model: combined_model(a, b),
    }
}
