// Which number each variable gets: the open entrants, group by group, then the totalizers' outputs, then the X of code 7, line by line. Read by the
// block writer, closing and filling.
#![tactic(auto)]

ghost use Rattle.std.specs.Prelude.{◌≡◌, ℕ, cond, ◌+◌, ◌*◌, ◌^◌, ◌≤◌, leb, take};
ghost use Rattle.std.specs.Fn.{FnReturnsAt};
ghost use Rattle.model.specs.Lists.{total};
ghost use Rattle.model.specs.Limits.{limits};
ghost use Rattle.model.specs.Model.{group_at};
ghost use Rattle.model.specs.Totalizer.{tree_output_count};
ghost use Rattle.model.specs.Cnf.{open_count, outputs_of, difference_count};
ghost use Rattle.numbering.specs.Numbering.{totalizer_of, numbers_from, numbering_of};

use model::{Constraint, Group, Model};

// ---- a group

// How many entrants are open.
fn open_count(g: Group) -> u32
    ensures { (result ≡ open_count g) × (result ≤ limits.word) }
{
    model::without(g.possible, g.fixed).count_ones()
}

// m, L and U of a group, and whether it has a totalizer.
// `exists` stays beside the sizes: the definition `totalizer_of` and the crates above name the field.
#[derive(Clone, Copy)]
pub struct Totalizer {
    pub size: u32,
    pub low: u32,
    pub high: u32,
    pub exists: bool,
}

pub fn totalizer_of(g: Group) -> Totalizer
    ensures value { result ≡ totalizer_of g }
    ensures size_le_word { result.size ≤ limits.word }
{
    let size = open_count(g);
    let fixed = g.fixed.count_ones();
    let low = g.low.saturating_sub(fixed);
    let high = g.high.saturating_sub(fixed);
    let exists = 0 < low || high < size;
    Totalizer {
        size,
        low,
        high,
        exists,
    }
}

// ---- its outputs

// How many outputs a tree has, and one of a leaf more.
#[derive(Clone, Copy)]
struct Outputs {
    own: u32,
    more: u32,
}

// "outputs A(1) = 0, A(m) = m + A(left) + A(right)", of sizes m and m + 1 at once: their halves are of m / 2 and of one more.
fn outputs_by_halves(m: u32) -> Outputs
    requires { m ≤ limits.word }
    ensures { (result.own ≡ tree_output_count m) × (result.more ≡ tree_output_count (m + 1)) }
{
    if m < 2 {
        return Outputs {
            own: 0,
            more: m + m,
        };
    }
    let Outputs { own: x, more: y } = outputs_by_halves(m / 2);
    if m % 2 == 1 {
        return Outputs {
            own: m + x + y,
            more: m + 1 + y + y,
        };
    }
    Outputs {
        own: m + x + x,
        more: m + 1 + x + y,
    }
}

// The outputs of a tree of size m. 0 past a word's size: no group has such a tree.
pub fn output_count(m: u32) -> u32
    ensures { result ≡ cond (leb m limits.word) (tree_output_count m) 0 }
{
    if Model::WORD < m {
        return 0;
    }
    outputs_by_halves(m).own
}

fn outputs_of(g: Group) -> u32
    ensures { (result ≡ outputs_of g) × (result ≤ limits.word * limits.word) }
{
    let t = totalizer_of(g);
    if !t.exists {
        return 0;
    }
    output_count(t.size)
}

// ---- a constraint

// How many entrants have a variable X.
fn difference_count(groups: &[Group; Model::GROUPS], s: usize, c: &Constraint) -> u32
    ensures { (result ≡ difference_count (take s groups.now) c.now) × (result ≤ limits.word) }
{
    let f = difference::group_at(groups, s, c.groups[0]);
    let g = difference::group_at(groups, s, c.groups[1]);
    difference::differing_of(*c, f, g).count_ones()
}

// ---- a model

// A number for each item, and the next free one.
#[derive(Clone, Copy)]
struct Numbered<const N: usize> {
    first: [u32; N],
    next: u32,
}

// The numbers from `from` on: each of the first s items takes as many as it has.
fn number_all<T, F: Fn(&T) -> u32, const N: usize>(
    items: &[T; N],
    s: usize,
    from: u32,
    count: F,
) -> Numbered<N>
    requires callable { F.IsAlwaysCallable count }
    requires small { (x : _) (r : ℕ) → FnReturnsAt F.Fn count x r → r ≤ limits.word * limits.word }
    requires room { (N ≤ limits.groups) × (from ≤ 2 ^ 22) }
    ensures numbers { (f : _ → ℕ) → ((x : _) (r : ℕ) → FnReturnsAt F.Fn count x r → r ≡ f x) → (result.first ≡ numbers_from f N from (take s items.now)) × (result.next ≡ from + total f (take s items.now)) }
    ensures few { result.next ≤ from + N * (limits.word * limits.word) }
{
    let mut first = [0; N];
    let mut next = from;
    for (i, x) in items.iter().enumerate() {
        first[i] = next;
        if i < s {
            next += count(x);
        }
    }
    Numbered { first, next }
}

// The first variable and the first output of each group, the first X of each constraint, and V.
#[derive(Clone, Copy)]
pub struct Numbering {
    pub first: [u32; Model::GROUPS],
    pub outputs: [u32; Model::GROUPS],
    pub differences: [u32; Model::CONSTRAINTS],
    pub variables: u32,
}

pub fn of_model(m: Model) -> Numbering
    ensures { result ≡ numbering_of m }
{
    let groups = &m.groups;
    let s = m.s as usize;
    let v = number_all(groups, s, 1, |g| open_count(*g));
    let o = number_all(groups, s, v.next, |g| outputs_of(*g));
    let x = number_all(
        &m.constraints,
        m.c as usize,
        o.next,
        |c| difference_count(groups, s, c),
    );
    let first = v.first;
    let outputs = o.first;
    let differences = x.first;
    Numbering {
        first,
        outputs,
        differences,
        variables: x.next - 1,
    }
}
