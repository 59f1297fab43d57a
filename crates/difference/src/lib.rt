// Code 7, groups that must not be the same: whether an entrant differs already, and who has a variable X. Read by numbering, counts, block writer,
// closing and filling.
#![tactic(auto)]

ghost use Rattle.std.specs.Prelude.{◌≡◌, cond, ◌-◌, ◌<◌, ltb, eqb, take};
ghost use Rattle.model.specs.Limits.{limits};
ghost use Rattle.model.specs.Model.{group_at};
ghost use Rattle.model.specs.Difference.{apart, is_apart};
ghost use Rattle.model.specs.Cnf.{open_of, either_open, differing};
ghost use Rattle.difference.specs.Pair.{member_of, apart_of, differing_of};

use model::{Constraint, Group, Model, without};

// ---- a group

// Where group g stands among the groups; 0 where there is no such group.
pub fn slot(g: u32) -> usize
    ensures value { result ≡ cond (ltb (g - 1) limits.groups) (g - 1) 0 }
    ensures upper_bound { result < limits.groups }
{
    let i = g.saturating_sub(1) as usize;
    if i < Model::GROUPS {
        return i;
    }
    0
}

// Group g of the first s, where f stands at its index; the all-zero group where there is none.
#[tactic(auto, unfolding(crate::specs::Pair::member_of, model::specs::Model::zero_group))]
pub fn member(f: Group, s: usize, g: u32) -> Group
    ensures { result ≡ member_of s g f }
{
    let i = g.saturating_sub(1) as usize;
    if i < s && i < Model::GROUPS {
        return f;
    }
    Group {
        fixed: 0,
        possible: 0,
        low: 0,
        high: 0,
    }
}

// Group g of the first s; the all-zero group where there is none.
pub fn group_at(groups: &[Group; Model::GROUPS], s: usize, g: u32) -> Group
    ensures { result ≡ group_at (take s groups.now) g }
{
    member(groups[slot(g)], s, g)
}

#[tactic(auto, unfolding(model::specs::Cnf::open_of))]
fn open_of(g: Group) -> u64
    ensures { result ≡ open_of g }
{
    without(g.possible, g.fixed)
}

// ---- two groups

// The entrants who differ already: fixed in one and not possible in the other.
#[tactic(auto, unfolding(model::specs::Difference::apart))]
fn apart(f: Group, g: Group) -> u64
    ensures { result ≡ apart f g }
{
    let a = without(f.fixed, g.possible);
    let b = without(g.fixed, f.possible);
    a | b
}

// The entrants open in one of the two, where nobody differs already.
#[tactic(auto, unfolding(model::specs::Cnf::either_open))]
pub fn either_open(f: Group, g: Group) -> u64
    ensures { result ≡ cond (eqb (apart f g) 0) (either_open f g) 0 }
{
    if apart(f, g) != 0 {
        return 0;
    }
    open_of(f) | open_of(g)
}

// ---- a constraint

// Whether an entrant of the first two groups differs already, so that a code 7 constraint has no variables and no clauses.
#[tactic(auto, unfolding(crate::specs::Pair::apart_of))]
pub fn apart_of(c: Constraint, f: Group, g: Group) -> bool
    ensures { result ≡ apart_of c f g }
{
    if c.code != 7 {
        return false;
    }
    apart(f, g) != 0
}

// The entrants who have a variable X.
#[tactic(auto, unfolding(crate::specs::Pair::differing_of))]
pub fn differing_of(c: Constraint, f: Group, g: Group) -> u64
    ensures { result ≡ differing_of c f g }
{
    if c.code != 7 {
        return 0;
    }
    either_open(f, g)
}

// The same of a constraint among the first s groups.
pub fn is_apart(groups: &[Group; Model::GROUPS], s: usize, c: &Constraint) -> bool
    ensures { result ≡ is_apart (take s groups.now) c.now }
{
    let f = group_at(groups, s, c.groups[0]);
    let g = group_at(groups, s, c.groups[1]);
    apart_of(*c, f, g)
}

pub fn differing(groups: &[Group; Model::GROUPS], s: usize, c: &Constraint) -> u64
    ensures { result ≡ differing (take s groups.now) c.now }
{
    let f = group_at(groups, s, c.groups[0]);
    let g = group_at(groups, s, c.groups[1]);
    differing_of(*c, f, g)
}
