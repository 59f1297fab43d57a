// The rules of a pass, each on the table: the group rule at a place, and the constraint rule for a word of entrants. Total: a place that is not there stays.
#![tactic(auto)]

ghost use Rattle.std.specs.Prelude.{◌≡◌, map, ◌+◌};
ghost use Rattle.model.specs.Lists.{range};
ghost use Rattle.model.specs.Difference.{lone, unlike_in, may_differ};
ghost use Rattle.model.specs.Propagate.{group_rule_at, run};
ghost use Rattle.table.specs.Table.{fixed_of, possible_of};
ghost use Rattle.rules.specs.Among.{scope_among, rule_among, MayDiffer};
ghost use Rattle.rules.specs.Differing.{Differing};

use model::{Constraint, Model};
use table::Table;

// ---- the group rule

pub fn group_rule_at(t: &mut Table, i: usize)
    ensures { t.new ≡ group_rule_at (i + 1) t.old }
{
    if i < Model::GROUPS {
        t[i] = group_rule::applied(t[i]);
    }
}

// Groups 1 to s.
pub fn group_rules(t: &mut Table, s: usize)
    ensures { t.new ≡ run (map group_rule_at (range 1 s)) t.old }
{
    for i in 0..s {
        group_rule_at(t, i);
    }
}

// ---- code 7

// The entrants who are not settled alike in groups F and G.
#[tactic(auto, unfolding(model::specs::Difference::unlike_in, model::specs::Difference::unlike, model::specs::Model::member_at))]
fn unlike(t: &Table, c: &Constraint) -> u64
    ensures { result ≡ unlike_in t.now c.now }
{
    let f = clause_rule::member(t, &c.groups, 0);
    let g = clause_rule::member(t, &c.groups, 1);
    model::without(f.possible | g.possible, f.fixed & g.fixed)
}

// The one entrant of w, or nobody.
#[tactic(auto, using(group_rule::proofs::Sizes::sizes), unfolding(model::specs::Difference::lone))]
fn lone(w: u64) -> u64
    ensures { result ≡ lone w }
{
    if w.count_ones() == 1 {
        return w;
    }
    0
}

// The entrants for whom the clauses are gone through: all, or where all but one are settled alike, that one.
#[tactic(auto, unfolding(crate::specs::Among::scope_among, model::specs::Clauses::is_difference))]
fn scope(t: &Table, all: u64, c: &Constraint) -> u64
    ensures { result ≡ scope_among all t.now c.now }
{
    if c.code != 7 {
        return all;
    }
    lone(unlike(t, c))
}

// False is refusal 21: code 7, and all entrants are settled alike.
#[tactic(auto, unfolding(model::specs::Difference::may_differ, model::specs::Clauses::is_difference))]
pub fn may_differ(t: &Table, c: &Constraint) -> bool
    ensures value { result ≡ may_differ t.now c.now }
    ensures whatever_limits { MayDiffer result (fixed_of t.now) (possible_of t.now) c.now }
{
    if c.code != 7 {
        return true;
    }
    unlike(t, c) != 0
}

// ---- the constraint rule

// Its clauses, then its limits. Of code 7 it does what request 6 says, and nothing else: `Differing`.
pub fn constraint_rule(t: &mut Table, all: u64, c: &Constraint)
    ensures value { t.new ≡ rule_among all c.now t.old }
    ensures differing { Differing c.now t.old t.new }
{
    let w = scope(t, all, c);
    clause_rule::applied(t, c, w);
    limit_rule::applied(t, c);
}
