// The table of document 01's "Lines and their clauses", over the members of a constraint: propagation, block writer and closing read it here.
#![tactic(auto)]

ghost use Rattle.std.specs.Prelude.{◌≡◌, [], length, get_or};
ghost use Rattle.model.specs.declared.Literal.TheVariants.{Pos};
ghost use Rattle.model.specs.Clauses.{short_clauses, union_clauses, member_clauses};

use model::Literal::{self, Neg, Pos};

// How many clauses a code has; k is the count of code 6.
#[tactic(auto, unfolding(model::specs::Clauses::short_clauses, model::specs::Clauses::member_clauses), using(crate::proofs::Union::union_count))]
pub fn clause_count(code: u32, k: u32) -> usize
    ensures { result ≡ length (member_clauses code k) }
{
    match code {
        1 => 2,
        2 => 1,
        3 | 4 | 5 => 3,
        6 => k as usize + 1,
        7 => 4,
        _ => 0,
    }
}

// Clause j of codes 1 to 5 and 7; empty where there is no such clause. Member 2 of code 7 is no group but the variable X of the entrant.
#[tactic(auto, unfolding(model::specs::Clauses::short_clauses))]
fn short_clause(code: u32, j: usize) -> &'static [Literal]
    ensures { result.now ≡ get_or (short_clauses code) j [] }
{
    match (code, j) {
        (1, 0) => &[Neg(0), Pos(1)],
        (1, 1) => &[Pos(0), Neg(1)],
        (2, 0) => &[Neg(0), Pos(1)],
        (3, 0) => &[Neg(1), Neg(2), Pos(0)],
        (3, 1) => &[Pos(1), Neg(0)],
        (3, 2) => &[Pos(2), Neg(0)],
        (4, 0) => &[Pos(1), Pos(2), Neg(0)],
        (4, 1) => &[Neg(1), Pos(0)],
        (4, 2) => &[Neg(2), Pos(0)],
        (5, 0) => &[Neg(1), Pos(2), Pos(0)],
        (5, 1) => &[Pos(1), Neg(0)],
        (5, 2) => &[Neg(2), Neg(0)],
        (7, 0) => &[Neg(0), Neg(1), Neg(2)],
        (7, 1) => &[Pos(0), Pos(1), Neg(2)],
        (7, 2) => &[Neg(0), Pos(1), Pos(2)],
        (7, 3) => &[Pos(0), Neg(1), Pos(2)],
        _ => &[],
    }
}

fn union_size(k: u32, j: usize) -> usize
    ensures { result ≡ length (get_or (union_clauses k) j []) }
{
    if j == 0 {
        return k as usize + 1;
    }
    if j <= k as usize {
        return 2;
    }
    0
}

// How many literals clause j has; none where there is no such clause.
#[tactic(auto, unfolding(model::specs::Clauses::member_clauses))]
pub fn literal_count(code: u32, k: u32, j: usize) -> usize
    ensures { result ≡ length (get_or (member_clauses code k) j []) }
{
    if code == 6 {
        return union_size(k, j);
    }
    short_clause(code, j).len()
}

// The clause of all members.
fn long_literal(k: u32, i: usize) -> Literal
    ensures { result ≡ get_or (get_or (union_clauses k) 0 []) i (Pos 0) }
{
    if i < k as usize {
        return Pos(i as u32 + 1);
    }
    if i == k as usize {
        return Neg(0);
    }
    Pos(0)
}

fn union_literal(k: u32, j: usize, i: usize) -> Literal
    ensures { result ≡ get_or (get_or (union_clauses k) j []) i (Pos 0) }
{
    if j == 0 {
        return long_literal(k, i);
    }
    if (k as usize) < j {
        return Pos(0);
    }
    if i == 0 {
        return Neg(j as u32);
    }
    Pos(0)
}

// Literal i of clause j; "in member 0" where there is none.
#[tactic(auto, unfolding(model::specs::Clauses::member_clauses))]
pub fn literal_at(code: u32, k: u32, j: usize, i: usize) -> Literal
    ensures { result ≡ get_or (get_or (member_clauses code k) j []) i (Pos 0) }
{
    if code == 6 {
        return union_literal(k, j, i);
    }
    short_clause(code, j).get(i).copied().unwrap_or(Pos(0))
}
