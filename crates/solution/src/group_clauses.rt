// Closing a group: the word that the values say, and whether they satisfy the group's clauses.
ghost use Rattle.std.specs.Prelude.{◌≡◌, ◌+◌, ◌≤◌, ◌<◌, count_by, take};
ghost use Rattle.std.specs.List.{list_all, range_with_len};
ghost use Rattle.model.specs.Lists.{range};
ghost use Rattle.model.specs.Limits.{limits};
ghost use Rattle.model.specs.Totalizer.{shape, tree_output_count};
ghost use Rattle.model.specs.Close.{truth, clause_true, assignment_of};
ghost use Rattle.numbering.specs.Numbering.{first_variables, first_outputs};
ghost use Rattle.solution.specs.Holds.{in_group, word_of, table_words, output_is, group_holds, group_holds_at};
ghost use Rattle.encoding_laws.specs.Division.{tree_clauses};

use model::{Group, Model};

// ---- variables

// A variable's number, as an index: it stays one of 32 bits.
pub(crate) fn wide(x: u32) -> usize
    ensures { (result ≡ x) × (result < 5000000000) }
{
    x as usize
}

// Whether variable v is true; one that is not there is false.
#[tactic(auto, unfolding(model::specs::Close::assignment_of))]
fn is_true(values: &[u8], v: usize) -> bool
    ensures { result ≡ truth (assignment_of values.now) v }
{
    if v == 0 {
        return false;
    }
    if values.len() < v {
        return false;
    }
    values[v - 1] == 1
}

// How many of the m variables from v on are true.
fn true_count(values: &[u8], v: usize, m: usize) -> usize
    requires { (v < 10000000000) × (m ≤ limits.word) }
    ensures { result ≡ count_by (truth (assignment_of values.now)) (range_with_len v m) }
{
    (v..v + m).filter(|i| is_true(values, *i)).count()
}

// Whether the m outputs from o on are true up to x and false above.
fn counts_to(values: &[u8], o: usize, m: usize, x: usize) -> bool
    requires { (o < 10000000000) × (m ≤ limits.word) }
    ensures { result ≡ list_all (output_is (assignment_of values.now) o x) (range_with_len 0 m) }
{
    (0..m).all(|i| is_true(values, o + i) == (i < x))
}

// ---- a group's word

// Whether entrant e is in g, whose variables start at v.
fn in_group(values: &[u8], g: &Group, v: usize, e: u32) -> bool
    requires { (v < 10000000000) × (e < limits.entrants) }
    ensures { result ≡ in_group (assignment_of values.now) g.now v e }
{
    if (g.fixed >> e) % 2 == 1 {
        return true;
    }
    let open = model::without(g.possible, g.fixed);
    if (open >> e) % 2 == 1 {
        let below = open % (1 << e);
        return is_true(values, v + below.count_ones() as usize);
    }
    false
}

pub(crate) fn word_of(values: &[u8], g: &Group, v: usize, n: u32) -> u64
    requires { (v < 10000000000) × (n ≤ limits.entrants) }
    ensures { result ≡ word_of n (assignment_of values.now) g.now v }
{
    let mut w = 0;
    for e in 0..n {
        if in_group(values, g, v, e) {
            w += 1 << e;
        }
    }
    w
}

// The words of groups 1 to s, whose first variables are given; zero past s.
pub(crate) fn words(
    values: &[u8],
    groups: &[Group; Model::GROUPS],
    first: &[u32; Model::GROUPS],
    n: u32,
    s: u32,
) -> [u64; Model::GROUPS]
    requires n_le_entrants { (n ≤ limits.entrants) × (s ≤ limits.groups) }
    requires first_value { first.now ≡ first_variables (take s groups.now) }
    ensures { result ≡ table_words n (assignment_of values.now) (take s groups.now) s }
{
    let mut r = [0; Model::GROUPS];
    for i in 0..s as usize {
        let v = wide(first[i]);
        r[i] = word_of(values, &groups[i], v, n);
    }
    r
}

// ---- a group's clauses

// A tree of size m, whose leaves start at v and outputs at o: left half, right half, then the node itself.
fn tree_holds(values: &[u8], m: u32, v: usize, o: usize) -> bool
    requires { (m ≤ limits.word) × (v + m < 10000000000) × (o + tree_output_count m < 10000000000) }
    ensures { result ≡ list_all (clause_true (assignment_of values.now)) (tree_clauses (shape m) v o) }
{
    if m < 2 {
        return true;
    }
    let a = m / 2;
    let b = m - a;
    let p = o + numbering::output_count(a) as usize;
    let own = p + numbering::output_count(b) as usize;
    if !tree_holds(values, a, v, o) {
        return false;
    }
    if !tree_holds(values, b, v + a as usize, p) {
        return false;
    }
    let x = true_count(values, v, m as usize);
    counts_to(values, own, m as usize, x)
}

// Group g, whose word is w, whose variables start at v and outputs at o.
fn group_holds(values: &[u8], g: &Group, w: u64, v: usize, o: usize) -> bool
    requires { (v < 5000000000) × (o < 5000000000) }
    ensures { result ≡ group_holds (assignment_of values.now) g.now w v o }
{
    let count = w.count_ones();
    if count < g.low {
        return false;
    }
    if g.high < count {
        return false;
    }
    let t = numbering::totalizer_of(*g);
    if !t.exists {
        return true;
    }
    tree_holds(values, t.size, v, o)
}

// Groups 1 to s, whose first variables and outputs are given.
pub(crate) fn groups_hold(
    values: &[u8],
    groups: &[Group; Model::GROUPS],
    first: &[u32; Model::GROUPS],
    outputs: &[u32; Model::GROUPS],
    words: &[u64; Model::GROUPS],
    s: u32,
) -> bool
    requires s_le_groups { s ≤ limits.groups }
    requires first_value { (first.now ≡ first_variables (take s groups.now)) × (outputs.now ≡ first_outputs (take s groups.now)) }
    ensures { result ≡ list_all (group_holds_at (assignment_of values.now) (take s groups.now) words.now) (range 1 s) }
{
    for i in 0..s as usize {
        let v = wide(first[i]);
        let o = wide(outputs[i]);
        if !group_holds(values, &groups[i], words[i], v, o) {
            return false;
        }
    }
    true
}
