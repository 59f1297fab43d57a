// The clauses of a constraint, document 01's line rule: where all other literals are settled false, this one is made true, for all entrants at once.
// Total: a member that is not there is group 0, a group that is not there has nobody.
#![tactic(auto)]

ghost use Rattle.std.specs.Prelude.{◌≡◌, [], ◌∷◌, map, get_or};
ghost use Rattle.model.specs.declared.Literal.TheVariants.{Pos, Neg};
ghost use Rattle.model.specs.Lists.{range};
ghost use Rattle.model.specs.Model.{group_at};
ghost use Rattle.model.specs.Clauses.{of_group, union_clauses, rule_clauses, clauses_of};
ghost use Rattle.model.specs.Propagate.{false_in, made_true, literal_rule, clause_rule, run};
ghost use Rattle.table.specs.Table.{fixed_of, possible_of, lows, highs};
ghost use Rattle.clause_rule.specs.Sets.{Settles};
ghost use Rattle.clause_rule.specs.Union.{long_clause, words_of, outside, in_one_at_most};

use model::{Constraint, Group, Literal, Model, without};
use table::Table;

// ---- a member's group

// Its number; 0 where there is no such member.
fn id(ids: &[u32; Model::MEMBERS], m: u32) -> u32
    ensures { result ≡ get_or ids.now m 0 }
{
    let i = m as usize;
    if i < Model::MEMBERS {
        return ids[i];
    }
    0
}

// The group of member m; one without entrants where there is no such group.
pub fn member(t: &Table, ids: &[u32; Model::MEMBERS], m: u32) -> Group
    ensures { result ≡ group_at t.now (get_or ids.now m 0) }
{
    table::group_at(t, id(ids, m))
}

// ---- a literal

// The entrants of w for whom a literal is settled false.
#[tactic(auto, unfolding(model::specs::Clauses::of_group, model::specs::Propagate::false_in))]
fn literal_false(t: &Table, ids: &[u32; Model::MEMBERS], l: Literal, w: u64) -> u64
    ensures { result ≡ false_in t.now w (of_group ids.now l) }
{
    match l {
        Literal::Pos(m) => without(w, member(t, ids, m).possible),
        Literal::Neg(m) => w & member(t, ids, m).fixed,
    }
}

// The entrants of w are fixed in the group of member m.
fn fix(t: &mut Table, ids: &[u32; Model::MEMBERS], m: u32, w: u64)
    ensures { t.new ≡ made_true (Pos (get_or ids.now m 0)) w t.old }
{
    let i = id(ids, m).saturating_sub(1) as usize;
    if i < Model::GROUPS {
        t[i].fixed |= w;
    }
}

// They are not possible there any more.
fn bar(t: &mut Table, ids: &[u32; Model::MEMBERS], m: u32, w: u64)
    ensures { t.new ≡ made_true (Neg (get_or ids.now m 0)) w t.old }
{
    let i = id(ids, m).saturating_sub(1) as usize;
    if i < Model::GROUPS {
        t[i].possible = without(t[i].possible, w);
    }
}

// A literal made true for the entrants of w.
#[tactic(auto, unfolding(model::specs::Clauses::of_group))]
fn make_true(t: &mut Table, ids: &[u32; Model::MEMBERS], l: Literal, w: u64)
    ensures { t.new ≡ made_true (of_group ids.now l) w t.old }
{
    match l {
        Literal::Pos(m) => fix(t, ids, m, w),
        Literal::Neg(m) => bar(t, ids, m, w),
    }
}

// ---- clauses of two and of three

// Where the other literals are settled false, for entrants of w, this one is made true.
#[tactic(auto, unfolding(model::specs::Propagate::literal_rule, model::specs::Propagate::all_false))]
fn literal_rule(t: &mut Table, ids: &[u32; Model::MEMBERS], w: u64, l: Literal, others: &[Literal])
    ensures { t.new ≡ literal_rule w (of_group ids.now l) (map (of_group ids.now) others.now) t.old }
{
    let mut v = w;
    for x in others {
        v = literal_false(t, ids, *x, v);
    }
    make_true(t, ids, l, v);
}

#[tactic(auto, unfolding(model::specs::Propagate::clause_rule, model::specs::Propagate::clause_rules))]
fn pair_rule(t: &mut Table, ids: &[u32; Model::MEMBERS], w: u64, x: Literal, y: Literal)
    ensures { t.new ≡ clause_rule w (of_group ids.now x ∷ of_group ids.now y ∷ []) t.old }
{
    literal_rule(t, ids, w, x, &[y]);
    literal_rule(t, ids, w, y, &[x]);
}

#[tactic(auto, unfolding(model::specs::Propagate::clause_rule, model::specs::Propagate::clause_rules))]
fn triple_rule(
    t: &mut Table,
    ids: &[u32; Model::MEMBERS],
    w: u64,
    x: Literal,
    y: Literal,
    z: Literal,
)
    ensures { t.new ≡ clause_rule w (of_group ids.now x ∷ of_group ids.now y ∷ of_group ids.now z ∷ []) t.old }
{
    literal_rule(t, ids, w, x, &[y, z]);
    literal_rule(t, ids, w, y, &[x, z]);
    literal_rule(t, ids, w, z, &[x, y]);
}

// ---- the clauses of a union, F1 .. Fk -H and then -Fi H

// The entrants of w who are possible in none of F1 .. Fk, and those who are in one at most.
#[derive(Clone, Copy)]
struct Counted {
    none: u64,
    one: u64,
}

fn few(t: &Table, ids: &[u32; Model::MEMBERS], w: u64, k: u32) -> Counted
    ensures { (result.none ≡ outside w (words_of t.now ids.now (range 1 k))) × (result.one ≡ in_one_at_most w w (words_of t.now ids.now (range 1 k))) }
{
    let mut none = w;
    let mut one = w;
    for i in 0..k {
        let p = member(t, ids, i + 1).possible;
        one = none | without(one, p);
        none = without(none, p);
        if none | one == 0 {
            return Counted { none: 0, one: 0 };
        }
    }
    Counted { none, one }
}

// The long clause: one walk to see for whom all others may be settled false, and only for those a second, which makes F1 .. Fk and then -H true.
fn long_rule(t: &mut Table, ids: &[u32; Model::MEMBERS], w: u64, k: u32)
    ensures { t.new ≡ clause_rule w (map (of_group ids.now) (long_clause k)) t.old }
{
    let f = few(t, ids, w, k);
    if f.none | f.one == 0 {
        return;
    }
    for i in 0..k {
        let v = f.none | f.one & member(t, ids, i + 1).possible;
        let h = member(t, ids, 0).fixed;
        fix(t, ids, i + 1, v & h);
    }
    bar(t, ids, 0, f.none);
}

fn union_rules(t: &mut Table, ids: &[u32; Model::MEMBERS], w: u64, k: u32)
    ensures { t.new ≡ run (map (clause_rule w) (map (map (of_group ids.now)) (union_clauses k))) t.old }
{
    long_rule(t, ids, w, k);
    for i in 0..k {
        pair_rule(t, ids, w, Literal::Neg(i + 1), Literal::Pos(0));
    }
}

// ---- the clauses of a constraint

// Of every code but 6.
#[tactic(auto, unfolding(model::specs::Clauses::rule_clauses, model::specs::Clauses::member_clauses, model::specs::Clauses::short_clauses))]
fn short_rules(t: &mut Table, ids: &[u32; Model::MEMBERS], w: u64, code: u32)
    requires { code ≡ 6 → ⊥ }
    ensures { t.new ≡ run (map (clause_rule w) (map (map (of_group ids.now)) (rule_clauses code 0))) t.old }
{
    match code {
        1 => {
            pair_rule(t, ids, w, Literal::Neg(0), Literal::Pos(1));
            pair_rule(t, ids, w, Literal::Pos(0), Literal::Neg(1));
        }
        2 => pair_rule(t, ids, w, Literal::Neg(0), Literal::Pos(1)),
        3 => {
            triple_rule(t, ids, w, Literal::Neg(1), Literal::Neg(2), Literal::Pos(0));
            pair_rule(t, ids, w, Literal::Pos(1), Literal::Neg(0));
            pair_rule(t, ids, w, Literal::Pos(2), Literal::Neg(0));
        }
        4 => {
            triple_rule(t, ids, w, Literal::Pos(1), Literal::Pos(2), Literal::Neg(0));
            pair_rule(t, ids, w, Literal::Neg(1), Literal::Pos(0));
            pair_rule(t, ids, w, Literal::Neg(2), Literal::Pos(0));
        }
        5 => {
            triple_rule(t, ids, w, Literal::Neg(1), Literal::Pos(2), Literal::Pos(0));
            pair_rule(t, ids, w, Literal::Pos(1), Literal::Neg(0));
            pair_rule(t, ids, w, Literal::Neg(2), Literal::Neg(0));
        }
        7 => {
            pair_rule(t, ids, w, Literal::Neg(0), Literal::Neg(1));
            pair_rule(t, ids, w, Literal::Pos(0), Literal::Pos(1));
        }
        _ => {}
    }
}

// In order, for the entrants of w.
pub fn applied(t: &mut Table, c: &Constraint, w: u64)
    ensures value { t.new ≡ run (map (clause_rule w) (clauses_of c.now)) t.old }
    ensures settles { Settles (run (map (clause_rule w) (clauses_of c.now))) (fixed_of t.old) (possible_of t.old) (fixed_of t.new) (possible_of t.new) }
    ensures limits { (lows t.new ≡ lows t.old) × (highs t.new ≡ highs t.old) }
{
    if w == 0 {
        return;
    }
    if c.code == 6 {
        union_rules(t, &c.groups, w, c.count);
        return;
    }
    short_rules(t, &c.groups, w, c.code);
}
