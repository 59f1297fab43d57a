// The blocks of a listing: where each group's start, how many there are, and whether one may be asked for.
#![tactic(auto)]

ghost use Rattle.std.specs.Prelude.{◌≡◌, cond, ◌+◌, ◌*◌, ◌≤◌, take};
ghost use Rattle.model.specs.Lists.{total};
ghost use Rattle.model.specs.Limits.{limits};
ghost use Rattle.model.specs.Model.{in_range};
ghost use Rattle.model.specs.Cnf.{block_count};
ghost use Rattle.encoding_laws.specs.Division.{nodes_of};
ghost use Rattle.blocks.specs.Blocks.{first_blocks, judgement};

use model::{Group, Model};

// ---- groups

// How many blocks a group has: one for each node of its totalizer.
fn node_count(g: Group) -> u32
    ensures { (result ≡ nodes_of g) × (result ≤ limits.word) }
{
    let t = numbering::totalizer_of(g);
    if !t.exists {
        return 0;
    }
    t.size.saturating_sub(1)
}

// 0 where a group does not count.
fn nodes_where(counts: bool, g: Group) -> u32
    ensures { (result ≡ cond counts (nodes_of g) 0) × (result ≤ limits.word) }
{
    if counts {
        return node_count(g);
    }
    0
}

// The first block of each group, had it any, and the first line's.
#[derive(Clone, Copy)]
pub struct Division {
    pub first: [u32; Model::GROUPS],
    pub lines: u32,
}

// Of the first s groups.
pub fn of_groups(groups: &[Group; Model::GROUPS], s: u32) -> Division
    ensures { (result.first ≡ first_blocks (take s groups.now)) × (result.lines ≡ 1 + total nodes_of (take s groups.now)) × (result.lines ≤ 1 + limits.groups * limits.word) }
{
    let mut first = [0; Model::GROUPS];
    let mut lines = 1;
    for (i, g) in groups.iter().enumerate() {
        first[i] = lines;
        lines += nodes_where(i < s as usize, *g);
    }
    Division { first, lines }
}

// ---- a model

// The blocks after block 0: where the listing ends; 0 for a model out of range.
pub fn block_count(m: Model) -> u32
    ensures value { result ≡ cond (in_range m) (block_count m) 0 }
    ensures upper_bound { result ≤ limits.groups * limits.word + limits.constraints }
{
    if !range::in_range(m) {
        return 0;
    }
    model::whole(m.groups, m.constraints);
    let d = of_groups(&m.groups, m.s);
    d.lines - 1 + m.c
}

// Refusals 20, 22 and 23 of block b, or 0: those that do not depend on a buffer.
pub fn judged(m: Model, b: u32) -> u32
    ensures { result ≡ judgement m b }
{
    let refusal = propagate::unsettled(m);
    if refusal != 0 {
        return refusal;
    }
    model::whole(m.groups, m.constraints);
    let d = of_groups(&m.groups, m.s);
    if d.lines - 1 + m.c < b {
        return 23;
    }
    0
}
