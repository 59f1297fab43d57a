// The limits of a constraint, request 1 of document 02: what low and high pass on from group to group.
// Total: the limits of a group that is not there are 0, and nothing is stored of it.
#![tactic(auto)]

ghost use Rattle.std.specs.Prelude.{◌≡◌, map, ◌-◌, ◌≤◌, length};
ghost use Rattle.model.specs.Limits.{limits};
ghost use Rattle.model.specs.Lists.{total, on_place};
ghost use Rattle.model.specs.Model.{group_at};
ghost use Rattle.model.specs.LimitRules.{raised, lowered, low_at_least, high_at_most, low_first, high_first, union_limits, limit_rules};
ghost use Rattle.model.specs.Propagate.{run};
ghost use Rattle.table.specs.Table.{fixed_of, possible_of, lows, highs};
ghost use Rattle.limit_rule.specs.Moves.{Moves, lows_after, highs_after};

use model::{Constraint, Model};
use table::Table;

// ---- one limit

// The low of group g becomes at least v.
fn raise(t: &mut Table, g: u32, v: u32)
    ensures { t.new ≡ on_place (g - 1) (raised v) t.old }
{
    let i = g.saturating_sub(1) as usize;
    if Model::GROUPS <= i {
        return;
    }
    if t[i].low < v {
        t[i].low = v;
    }
}

// The high of group g becomes at most v.
fn lower(t: &mut Table, g: u32, v: u64)
    ensures { t.new ≡ on_place (g - 1) (lowered v) t.old }
{
    let i = g.saturating_sub(1) as usize;
    if Model::GROUPS <= i {
        return;
    }
    if v < t[i].high as u64 {
        t[i].high = v as u32;
    }
}

// Low of G at least low of F.
#[tactic(auto, unfolding(model::specs::LimitRules::low_at_least))]
fn low_at_least(t: &mut Table, g: u32, f: u32)
    ensures { t.new ≡ low_at_least g f t.old }
{
    let least = table::group_at(t, f).low;
    raise(t, g, least);
}

// High of F at most high of G.
#[tactic(auto, unfolding(model::specs::LimitRules::high_at_most))]
fn high_at_most(t: &mut Table, f: u32, g: u32)
    ensures { t.new ≡ high_at_most f g t.old }
{
    let most = table::group_at(t, g).high;
    lower(t, f, most as u64);
}

// ---- inclusion: F within G, told of F first, or H within F, told of H first

#[tactic(auto, unfolding(model::specs::LimitRules::low_first))]
fn low_first(t: &mut Table, f: u32, g: u32)
    ensures { t.new ≡ run (low_first f g) t.old }
{
    low_at_least(t, g, f);
    high_at_most(t, f, g);
}

#[tactic(auto, unfolding(model::specs::LimitRules::high_first))]
fn high_first(t: &mut Table, h: u32, f: u32)
    ensures { t.new ≡ run (high_first h f) t.old }
{
    high_at_most(t, h, f);
    low_at_least(t, f, h);
}

// ---- union: H of the members fs

// Low of H at least each member's low.
fn raise_union(t: &mut Table, h: u32, fs: &[u32])
    ensures { t.new ≡ run (map (low_at_least h) fs.now) t.old }
{
    for f in fs {
        low_at_least(t, h, *f);
    }
}

// Each member's high at most high of H.
fn lower_members(t: &mut Table, h: u32, fs: &[u32])
    ensures { t.new ≡ run (map (λ f. high_at_most f h) fs.now) t.old }
{
    for f in fs {
        high_at_most(t, *f, h);
    }
}

// The sum of the members' highs.
fn sum_of(t: &Table, fs: &[u32]) -> u64
    requires { length fs.now ≤ limits.members }
    ensures { result ≡ total (λ f. (group_at t.now f).high) fs.now }
{
    let mut sum: u64 = 0;
    for f in fs {
        sum += table::group_at(t, *f).high as u64;
    }
    sum
}

// The three rounds of a union.
fn union_limits(t: &mut Table, h: u32, fs: &[u32])
    requires { length fs.now ≤ limits.members }
    ensures { t.new ≡ run (union_limits h fs.now) t.old }
{
    raise_union(t, h, fs);
    lower_members(t, h, fs);
    let sum = sum_of(t, fs);
    lower(t, h, sum);
}

// ---- a constraint

// Its steps in order, whatever the groups' entrants are.
pub fn applied(t: &mut Table, c: &Constraint)
    ensures value { t.new ≡ run (limit_rules c.now) t.old }
    ensures low_after { lows t.new ≡ lows_after c.now (lows t.old) (highs t.old) }
    ensures high_after { highs t.new ≡ highs_after c.now (lows t.old) (highs t.old) }
    ensures moves { Moves (run (limit_rules c.now)) (lows t.old) (highs t.old) (lows t.new) (highs t.new) }
    ensures sets { (fixed_of t.new ≡ fixed_of t.old) × (possible_of t.new ≡ possible_of t.old) }
{
    let ids = &c.groups;
    match c.code {
        1 => {
            low_first(t, ids[0], ids[1]);
            low_first(t, ids[1], ids[0]);
        }
        2 => low_first(t, ids[0], ids[1]),
        3 => {
            high_first(t, ids[0], ids[1]);
            high_first(t, ids[0], ids[2]);
        }
        4 => union_limits(t, ids[0], &ids[1..3]),
        5 => high_first(t, ids[0], ids[1]),
        6 => {
            let count = (c.count as usize + 1).min(Model::MEMBERS);
            union_limits(t, ids[0], &ids[1..count]);
        }
        _ => {}
    }
}
