// Whether groups satisfy a constraint: its clauses, judged for all entrants at once, or what its code says of their sets. On a word for each group.
#![tactic(auto)]

ghost use Rattle.std.specs.Prelude.{◌≡◌, ◌+◌, [], map, length, get_or, take, drop};
ghost use Rattle.std.specs.List.{list_all};
ghost use Rattle.model.specs.Clauses.{member_count, member_clauses};
ghost use Rattle.model.specs.Solution.{union, meaning, set_of};
ghost use Rattle.constraint_clauses.specs.Holds.{literal_word, clause_word, clause_holds};

use model::{Literal, Model};

// Group number i of a constraint; 0 where it has none.
fn member(ids: &[u32; Model::MEMBERS], i: u32) -> u32
    ensures { result ≡ get_or ids.now i 0 }
{
    ids.get(i as usize).copied().unwrap_or(0)
}

// The word of group g; none where there is no such group.
#[tactic(auto, unfolding(model::specs::Solution::set_of))]
pub fn set_of(words: &[u64; Model::GROUPS], g: u32) -> u64
    ensures { result ≡ set_of words.now g }
{
    words
        .get(g.saturating_sub(1) as usize)
        .copied()
        .unwrap_or(0)
}

// The entrants of all for whom a literal holds.
fn literal_word(
    words: &[u64; Model::GROUPS],
    ids: &[u32; Model::MEMBERS],
    all: u64,
    l: Literal,
) -> u64
    ensures { result ≡ literal_word words.now ids.now all l }
{
    match l {
        Literal::Pos(i) => set_of(words, member(ids, i)),
        Literal::Neg(i) => model::without(all, set_of(words, member(ids, i))),
    }
}

// Those for whom one of the literals of clause j holds.
fn clause_word(
    words: &[u64; Model::GROUPS],
    ids: &[u32; Model::MEMBERS],
    all: u64,
    code: u32,
    k: u32,
    j: usize,
) -> u64
    ensures { result ≡ clause_word words.now ids.now all 0 (get_or (member_clauses code k) j []) }
{
    let mut w = 0;
    for i in 0..constraint::literal_count(code, k, j) {
        w |= literal_word(words, ids, all, constraint::literal_at(code, k, j, i));
    }
    w
}

// Whether each clause of a constraint holds for all.
#[tactic(auto, unfolding(crate::specs::Holds::clause_holds, model::specs::Words::inside))]
pub fn constraint_holds(
    words: &[u64; Model::GROUPS],
    ids: &[u32; Model::MEMBERS],
    all: u64,
    code: u32,
    k: u32,
) -> bool
    ensures { result ≡ list_all (clause_holds words.now ids.now all) (member_clauses code k) }
{
    for j in 0..constraint::clause_count(code, k) {
        if all & clause_word(words, ids, all, code, k, j) != all {
            return false;
        }
    }
    true
}

// ---- by sets

// The union of the words of members 1 to k.
fn union_of(words: &[u64; Model::GROUPS], ids: &[u32; Model::MEMBERS], k: u32) -> u64
    ensures { result ≡ union (drop 1 (map (set_of words.now) (take (k + 1) ids.now))) }
{
    let end = Model::MEMBERS.min(k as usize + 1);
    let mut w = 0;
    for id in &ids[1..end] {
        w |= set_of(words, *id);
    }
    w
}

// Whether the sets of a constraint's groups are as its code says.
#[tactic(auto, unfolding(model::specs::Solution::meaning))]
pub fn sets_hold(
    words: &[u64; Model::GROUPS],
    ids: &[u32; Model::MEMBERS],
    code: u32,
    k: u32,
) -> bool
    ensures { result ≡ meaning code (map (set_of words.now) (take (member_count code k) ids.now)) }
{
    let a = set_of(words, ids[0]);
    let b = set_of(words, ids[1]);
    let c = set_of(words, ids[2]);
    match code {
        1 => a == b,
        2 => a & b == a,
        3 => a == b & c,
        4 => a == b | c,
        5 => a == model::without(b, c),
        6 => a == union_of(words, ids, k),
        7 => a != b,
        _ => false,
    }
}
