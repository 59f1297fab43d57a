// The range check of a model: refusal 20. The reader asks the same of a constraint line.
#![tactic(auto)]

ghost use Rattle.std.specs.Prelude.{◌≡◌, ◌≤◌, ◌&&◌, eqb, leb, length, take, drop};
ghost use Rattle.std.specs.List.{list_all, list_any};
ghost use Rattle.model.specs.Lists.{distinct, between};
ghost use Rattle.model.specs.Limits.{limits, groups_for};
ghost use Rattle.model.specs.Clauses.{member_count};
ghost use Rattle.model.specs.Model.{group_in_range, code_in_range, constraint_in_range, in_range};

use model::{Constraint, Group, Model};

// ---- groups

fn group_in_range(g: Group, n: u32) -> bool
    requires { n ≤ limits.entrants }
    ensures { result ≡ group_in_range n g }
{
    if g.fixed & g.possible != g.fixed {
        return false;
    }
    if model::entrants(n) < g.possible {
        return false;
    }
    if g.high < g.low {
        return false;
    }
    g.high <= n
}

// ---- constraints

// The groups of each code but 6.
const COUNTS: [usize; 8] = [0, 2, 2, 3, 3, 3, 0, 2];

// How many groups a constraint has.
pub fn member_count(code: u32, count: u32) -> usize
    ensures { result ≡ member_count code count }
{
    if code == 6 {
        return count as usize + 1;
    }
    if code < 8 {
        return COUNTS[code as usize];
    }
    0
}

// The first k numbers are 1 to s.
pub fn all_between(ids: [u32; Model::MEMBERS], k: usize, s: u32) -> bool
    ensures { result ≡ list_all (between 1 s) (take k ids) }
{
    ids.iter().take(k).all(|id| 1 <= *id && *id <= s)
}

// Whether x stands among the numbers.
fn stands(ids: &[u32], x: u32) -> bool
    ensures { result ≡ list_any (eqb x) ids.now }
{
    let mut found = false;
    for id in ids {
        found |= x == *id;
    }
    found
}

// The numbers are all different.
fn distinct(ids: &[u32]) -> bool
    ensures { result ≡ distinct ids.now }
{
    for i in 0..ids.len() {
        if stands(&ids[i + 1..], ids[i]) {
            return false;
        }
    }
    true
}

// The first k numbers are all different. A whole row, which the longest union has, is told apart, since its length is a constant.
pub fn all_distinct(ids: [u32; Model::MEMBERS], k: usize) -> bool
    ensures { result ≡ distinct (take k ids) }
{
    if k < Model::MEMBERS {
        return distinct(&ids[..k]);
    }
    distinct(&ids)
}

// A code is 1 to 7, and the count of code 6 is 2 to 16.
pub fn code_in_range(code: u32, count: u32) -> bool
    ensures { result ≡ code_in_range code count }
{
    if code < 1 {
        return false;
    }
    if 7 < code {
        return false;
    }
    if code != 6 {
        return true;
    }
    if count < 2 {
        return false;
    }
    count as usize <= Model::MEMBERS - 1
}

fn constraint_in_range(c: Constraint, s: u32) -> bool
    ensures { result ≡ constraint_in_range s c }
{
    if !code_in_range(c.code, c.count) {
        return false;
    }
    let ids = c.groups;
    let k = member_count(c.code, c.count);
    if !all_between(ids, k, s) {
        return false;
    }
    all_distinct(ids, k)
}

// ---- a model

fn sizes_in_range(n: u32, s: u32, c: u32) -> bool
    ensures { result ≡ (between 1 limits.entrants n && between 1 (groups_for n) s && leb c limits.constraints) }
{
    if n < 1 {
        return false;
    }
    if Model::ENTRANTS < n {
        return false;
    }
    if s < 1 {
        return false;
    }
    if model::groups_for(n) < s as usize {
        return false;
    }
    c as usize <= Model::CONSTRAINTS
}

fn groups_in_range(groups: &[Group; Model::GROUPS], s: usize, n: u32) -> bool
    requires { n ≤ limits.entrants }
    ensures { result ≡ list_all (group_in_range n) (take s groups.now) }
{
    groups.iter().take(s).all(|g| group_in_range(*g, n))
}

fn constraints_in_range(constraints: &[Constraint; Model::CONSTRAINTS], c: usize, s: u32) -> bool
    ensures { result ≡ list_all (constraint_in_range s) (take c constraints.now) }
{
    constraints
        .iter()
        .take(c)
        .all(|line| constraint_in_range(*line, s))
}

// False is refusal 20: the sizes, the first s groups, the first c constraints.
#[tactic(auto, unfolding(model::specs::Model::in_range, model::specs::Model::table_of, model::specs::Model::constraints_of))]
pub fn in_range(m: Model) -> bool
    ensures { result ≡ in_range m }
{
    if !sizes_in_range(m.n, m.s, m.c) {
        return false;
    }
    if !groups_in_range(&m.groups, m.s as usize, m.n) {
        return false;
    }
    constraints_in_range(&m.constraints, m.c as usize, m.s)
}
