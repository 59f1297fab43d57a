// The terms of a constraint's clauses for one entrant, and each clause's text. Read by the counts and by the block writer.
#![tactic(auto)]

ghost use Rattle.std.specs.Prelude.{◌≡◌, ◌+◌, ◌<◌, ◌≤◌, [], ◌∷◌, ◌++◌, length, slice_index_or, slice_set};
ghost use Rattle.model.specs.declared.Term.TheVariants.{Fails};
ghost use Rattle.std.specs.List.{list_all, list_any, flat_map};
ghost use Rattle.model.specs.Lists.{range};
ghost use Rattle.model.specs.Limits.{limits};
ghost use Rattle.model.specs.Totalizer.{opposite_term, holds};
ghost use Rattle.text.specs.Put.{Wrote, placed, place_after, term_text, kept_text};
ghost use Rattle.terms.specs.Terms.{first_of, no_member, place_of, member_at, difference_member, absent, member_number, number_at, is_open, number_term, literal_term, clause_of, clause_terms, goes};

use model::{Group, Literal, Model, Term};

// ---- a term

#[tactic(auto, unfolding(model::specs::Totalizer::opposite))]
pub fn opposite(t: Term) -> Term
    ensures { result ≡ opposite_term t }
{
    match t {
        Term::Holds => Term::Fails,
        Term::Fails => Term::Holds,
        Term::Open(Literal::Pos(v)) => Term::Open(Literal::Neg(v)),
        Term::Open(Literal::Neg(v)) => Term::Open(Literal::Pos(v)),
    }
}

// ---- the members of a constraint

// What a constraint asks of one of its groups: the words and the first variable.
#[derive(Clone, Copy)]
pub struct Member {
    pub fixed: u64,
    pub possible: u64,
    pub first: u32,
}

#[tactic(auto, unfolding(crate::specs::Terms::place_of, model::specs::Lists::between))]
fn place(g: u32) -> usize
    ensures { (result ≡ place_of g) × (result < limits.groups) }
{
    match g as usize {
        g @ 1..=Model::GROUPS => g - 1,
        _ => 0,
    }
}

// The first k groups of a constraint; first has each group's first variable.
pub fn members(
    groups: &[Group; Model::GROUPS],
    first: &[u32; Model::GROUPS],
    ids: &[u32; Model::MEMBERS],
    k: usize,
) -> [Member; Model::MEMBERS]
    ensures { result ≡ first_of (member_at groups.now first.now) no_member limits.members k ids.now }
{
    let none = Member {
        fixed: 0,
        possible: 0,
        first: 0,
    };
    let mut r = [none; Model::MEMBERS];
    for i in 0..k.min(Model::MEMBERS) {
        let g = place(ids[i]);
        let x = groups[g];
        r[i] = Member {
            fixed: x.fixed,
            possible: x.possible,
            first: first[g],
        };
    }
    r
}

// The two groups of a code 7 constraint, and third its X: from x on, for the entrants o.
#[tactic(auto, unfolding(crate::specs::Terms::difference_member))]
pub fn difference_members(
    groups: &[Group; Model::GROUPS],
    first: &[u32; Model::GROUPS],
    ids: &[u32; Model::MEMBERS],
    o: u64,
    x: u32,
) -> [Member; Model::MEMBERS]
    ensures { result ≡ slice_set (first_of (member_at groups.now first.now) no_member limits.members 2 ids.now) 2 (difference_member x o) }
{
    let mut r = members(groups, first, ids, 2);
    r[2] = Member {
        fixed: 0,
        possible: o,
        first: x,
    };
    r
}

// ---- an entrant in a group, as one number

// The entrant is not in the group, or it is; any other number is the variable that says so. A number, no enum: the definition `member_number` is on numbers.
const ABSENT: u32 = 0;

const PRESENT: u32 = u32::MAX;

// "in group g" for entrant e.
fn member_number(m: Member, e: u32) -> u32
    ensures { result ≡ member_number e m }
{
    if Model::WORD <= e {
        return ABSENT;
    }
    if (m.fixed >> e) % 2 == 1 {
        return PRESENT;
    }
    if (m.possible >> e) % 2 == 1 {
        let free = m.possible ^ (m.possible & m.fixed);
        let below = free % (1 << e);
        return m.first.wrapping_add(below.count_ones());
    }
    ABSENT
}

// The same for each of the first k members.
pub fn member_numbers(ms: &[Member; Model::MEMBERS], k: usize, e: u32) -> [u32; Model::MEMBERS]
    ensures { result ≡ first_of (member_number e) absent limits.members k ms.now }
{
    let mut r = [ABSENT; Model::MEMBERS];
    for i in 0..k.min(Model::MEMBERS) {
        r[i] = member_number(ms[i], e);
    }
    r
}

// The number of member i; one past the array is present.
#[tactic(auto, unfolding(crate::specs::Terms::number_at))]
fn number_at(ns: &[u32; Model::MEMBERS], i: usize) -> u32
    ensures { result ≡ number_at ns.now i }
{
    if i < Model::MEMBERS {
        return ns[i];
    }
    PRESENT
}

#[tactic(auto, unfolding(crate::specs::Terms::is_open))]
fn is_open(x: u32) -> bool
    ensures { result ≡ is_open x }
{
    x != ABSENT && x != PRESENT
}

// Whether the first k members are all open.
pub fn all_open(ns: &[u32; Model::MEMBERS], k: usize) -> bool
    ensures { result ≡ list_all (λ i. is_open (number_at ns.now i)) (range 0 k) }
{
    for i in 0..k {
        if !is_open(number_at(ns, i)) {
            return false;
        }
    }
    true
}

// The term that a number stands for.
#[tactic(auto, unfolding(crate::specs::Terms::number_term))]
fn number_term(x: u32) -> Term
    ensures { result ≡ number_term x }
{
    match x {
        ABSENT => Term::Fails,
        PRESENT => Term::Holds,
        _ => Term::Open(Literal::Pos(x)),
    }
}

// ---- the clauses of a constraint

// A literal of a member.
fn literal_term(ns: &[u32; Model::MEMBERS], l: Literal) -> Term
    ensures { result ≡ literal_term ns.now l }
{
    match l {
        Literal::Pos(i) => number_term(number_at(ns, i as usize)),
        Literal::Neg(i) => opposite(number_term(number_at(ns, i as usize))),
    }
}

// Term i of clause j, which has k of them; past them a term that is false, which changes no clause.
#[tactic(auto, unfolding(crate::specs::Terms::clause_of, crate::specs::Terms::clause_terms))]
fn clause_term(
    ns: &[u32; Model::MEMBERS],
    code: u32,
    count: u32,
    j: usize,
    k: usize,
    i: usize,
) -> Term
    requires { k ≡ length (clause_of code count j) }
    ensures { result ≡ slice_index_or (clause_terms ns.now code count j) i Fails }
{
    if i < k {
        return literal_term(ns, constraint::literal_at(code, count, j, i));
    }
    Term::Fails
}

// Whether a term of clause j is true.
pub fn clause_true(ns: &[u32; Model::MEMBERS], code: u32, count: u32, j: usize) -> bool
    ensures { result ≡ list_any holds (clause_terms ns.now code count j) }
{
    let k = constraint::literal_count(code, count, j);
    for i in 0..k {
        if text::is_true(clause_term(ns, code, count, j, k, i)) {
            return true;
        }
    }
    false
}

// Whether clause j, which has k terms, is to be written: none of them is true, and it ends within `len` bytes.
fn clause_goes(
    ns: &[u32; Model::MEMBERS],
    code: u32,
    count: u32,
    j: usize,
    k: usize,
    at: usize,
    len: usize,
) -> bool
    requires { k ≡ length (clause_of code count j) }
    ensures { result ≡ goes (clause_terms ns.now code count j) at len }
{
    if len < at {
        return false;
    }
    let mut left = len - at;
    for i in 0..k {
        let t = clause_term(ns, code, count, j, k, i);
        if text::is_true(t) {
            return false;
        }
        let n = text::term_length(t);
        if left < n {
            return false;
        }
        left -= n;
    }
    2 <= left
}

// Clause j, none of its terms true, at the start of buf.
fn write_clause(
    buf: &mut [u8],
    ns: &[u32; Model::MEMBERS],
    code: u32,
    count: u32,
    j: usize,
    k: usize,
) -> usize
    requires k_value { k ≡ length (clause_of code count j) }
    requires j_in_bounds { length (flat_map term_text (clause_terms ns.now code count j)) + 2 ≤ length buf.old }
    ensures { Wrote ((flat_map term_text (clause_terms ns.now code count j) ++ (48 ∷ [])) ++ (10 ∷ [])) 0 buf.old buf.new result }
{
    let mut n: usize = 0;
    for i in 0..k {
        n = text::put_term(buf, n, clause_term(ns, code, count, j, k, i));
    }
    buf[n] = b'0';
    buf[n + 1] = b'\n';
    n + 2
}

// Clause j, in the part of buf from at on: nothing where one of its terms is true.
pub fn put_clause(
    buf: &mut [u8],
    at: usize,
    ns: &[u32; Model::MEMBERS],
    code: u32,
    count: u32,
    j: usize,
) -> usize
    ensures value { result ≡ place_after (kept_text (clause_terms ns.now code count j)) at (length buf.old) }
    ensures buf_after { buf.new ≡ placed (kept_text (clause_terms ns.now code count j)) at buf.old }
{
    let k = constraint::literal_count(code, count, j);
    if k <= 3 {
        let x = clause_term(ns, code, count, j, k, 0);
        let y = clause_term(ns, code, count, j, k, 1);
        let z = clause_term(ns, code, count, j, k, 2);
        return text::put_three(buf, at, x, y, z);
    }
    if clause_goes(ns, code, count, j, k, at, buf.len()) {
        let n = write_clause(&mut buf[at..], ns, code, count, j, k);
        return at + n;
    }
    at
}
