// An answer packed for a caller outside: one number, and words at the front of a slice that is lent.
#![tactic(auto)]

ghost use Rattle.std.specs.Prelude.{◌≡◌, ◌++◌, ◌+◌, ◌*◌, ◌≤◌, leb, length, take, drop};
ghost use Rattle.std.proofs.lemmas.List.Edits.{sets};
ghost use Rattle.std.specs.List.{flat_map};
ghost use Rattle.model.specs.Limits.{limits};
ghost use Rattle.packing.specs.Packing.{numbered, written_number, run_number, line_number, group_words, has_room, groups_laid, constraint_words, model_size, model_laid, fitted_closing, groups_after};

use model::{Closed, Constraint, Group, Model, Written};

// ---- one number

// A refusal and a line, or a refusal and passes.
pub fn numbered(refusal: u32, k: u32) -> u64
    ensures { result ≡ numbered refusal k }
{
    refusal as u64 * 65536 + k as u64
}

// A refusal and a length: a written text has refusal 0, so its length alone has to fit.
pub fn written_number(w: Written) -> u64
    ensures { result ≡ written_number w }
{
    match w {
        Written::Bytes(k) => k as u64,
        Written::Refused(r) => r as u64 * 4294967296,
    }
}

// Of a run: the next block, which is never 0, and the length; or the refusal.
pub fn run_number(refusal: u32, next: u32, k: u32) -> u64
    ensures { result ≡ run_number refusal next k }
{
    if refusal != 0 {
        return refusal as u64;
    }
    next as u64 * 4294967296 + k as u64
}

// A refusal, and 1 where the reading is closed.
pub fn line_number(refusal: u32, closed: bool) -> u64
    ensures { result ≡ line_number refusal closed }
{
    if closed {
        return refusal as u64 * 2 + 1;
    }
    refusal as u64 * 2
}

// ---- words

// The four words of a group, from place `at` on.
fn put_group(g: &Group, at: usize, table: &mut [u64])
    requires { at + 4 ≤ length table.old }
    ensures { table.new ≡ sets table.old at (group_words g.now) }
{
    table[at] = g.fixed;
    table[at + 1] = g.possible;
    table[at + 2] = u64::from(g.low);
    table[at + 3] = u64::from(g.high);
}

// The words of the first s groups, from place `at` on.
fn lay_groups(groups: &[Group; Model::GROUPS], s: usize, at: usize, table: &mut [u64])
    requires { (s ≤ limits.groups) × (at + 4 * s ≤ length table.old) }
    ensures table_after { table.new ≡ sets table.old at (flat_map group_words (take s groups.now)) }
    ensures groups_len { length groups.now ≡ limits.groups }
{
    for i in 0..s {
        put_group(&groups[i], at + 4 * i, table);
    }
}

// The words of the first s groups at the front of a table that has room for them; else false, and the table is left.
#[tactic(auto, unfolding(crate::specs::Packing::has_room, crate::specs::Packing::groups_laid))]
pub fn put_groups(groups: &[Group; Model::GROUPS], s: usize, table: &mut [u64]) -> bool
    ensures value { result ≡ has_room s (length table.old) }
    ensures table_after { table.new ≡ groups_laid groups.now s table.old }
{
    if Model::GROUPS < s {
        return false;
    }
    if table.len() < 4 * s {
        return false;
    }
    lay_groups(groups, s, 0, table);
    true
}

// The numbers of a constraint's groups, from place `at` on.
fn put_members(ids: &[u32; Model::MEMBERS], at: usize, words: &mut [u64])
    requires { at + limits.members ≤ length words.old }
    ensures { words.new ≡ sets words.old at ids.now }
{
    for (i, id) in ids.iter().enumerate() {
        words[at + i] = u64::from(*id);
    }
}

// The nineteen words of a constraint, from place `at` on.
fn put_constraint(c: &Constraint, at: usize, words: &mut [u64])
    requires { at + (2 + limits.members) ≤ length words.old }
    ensures words_after { words.new ≡ sets words.old at (constraint_words c.now) }
    ensures c_len { length (constraint_words c.now) ≡ 2 + limits.members }
{
    words[at] = u64::from(c.code);
    words[at + 1] = u64::from(c.count);
    put_members(&c.groups, at + 2, words);
}

// The words of constraints, from place `at` on.
fn lay_constraints(constraints: &[Constraint; Model::CONSTRAINTS], at: usize, words: &mut [u64])
    requires { at + (2 + limits.members) * limits.constraints ≤ length words.old }
    ensures words_after { words.new ≡ sets words.old at (flat_map constraint_words constraints.now) }
    ensures constraints_len { length (flat_map constraint_words constraints.now) ≡ (2 + limits.members) * limits.constraints }
{
    for (i, c) in constraints.iter().enumerate() {
        put_constraint(c, at + (2 + Model::MEMBERS) * i, words);
    }
}

// The words of a model.
pub const MODEL_WORDS: usize = 3 + 4 * Model::GROUPS + (2 + Model::MEMBERS) * Model::CONSTRAINTS;

// A model's words at the front of a slice that has room for them; else false, and the slice is left.
#[tactic(auto, unfolding(crate::specs::Packing::model_laid, crate::specs::Packing::model_words))]
pub fn put_model(m: &Model, words: &mut [u64]) -> bool
    ensures value { result ≡ leb model_size (length words.old) }
    ensures words_after { words.new ≡ model_laid m.now words.old }
{
    if words.len() < MODEL_WORDS {
        return false;
    }
    words[0] = u64::from(m.n);
    words[1] = u64::from(m.s);
    words[2] = u64::from(m.c);
    lay_groups(&m.groups, Model::GROUPS, 3, words);
    lay_constraints(&m.constraints, 3 + 4 * Model::GROUPS, words);
    true
}

// A word for each group, at the front of a slice that has room for them.
fn put_words(words: &[u64; Model::GROUPS], groups: &mut [u64])
    requires { limits.groups ≤ length groups.old }
    ensures { groups.new ≡ words.now ++ drop limits.groups groups.old }
{
    groups[..Model::GROUPS].copy_from_slice(words);
}

// Closing's refusal, and the groups. A slice without room for them is 24.
#[tactic(auto, unfolding(crate::specs::Packing::fitted_closing))]
pub fn close_number(a: &Closed, groups: &mut [u64]) -> u32
    ensures value { result ≡ (fitted_closing (length groups.old) a.now).refusal }
    ensures groups_after { groups.new ≡ groups_after (fitted_closing (length groups.old) a.now) groups.old }
{
    if a.refusal != 0 {
        return a.refusal;
    }
    if groups.len() < Model::GROUPS {
        return 24;
    }
    put_words(&a.groups, groups);
    a.refusal
}
