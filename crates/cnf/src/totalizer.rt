// A totalizer's clauses: those of each node of the tree, and the units that set the limits.
ghost use Rattle.std.specs.Prelude.{◌≡◌, [], ◌∷◌, ◌+◌, ◌-◌, ◌≤◌, ◌<◌, leb, length};
ghost use Rattle.std.specs.List.{flat_map};
ghost use Rattle.model.specs.Lists.{range};
ghost use Rattle.model.specs.Limits.{limits};
ghost use Rattle.model.specs.Totalizer.{formed, output, output_term, node_terms, shape, root_output, tree_output_count};
ghost use Rattle.model.specs.Text.{clause_text};
ghost use Rattle.text.specs.Put.{Wrote, kept_text};
ghost use Rattle.cnf.specs.Run.{Ran};
ghost use Rattle.cnf.specs.Parts.{terms_of, row_text, node_text, node_at, signed, unit_text, tree_text, Among, Small, NoLonger};

use model::{Formed, Literal, Model, Node, Printed, Term};

// ---- a node's clauses, by the steps of document 001, section 6.4: formed, put in, dropped

// First step: both clauses of p and q.
fn form(p: u32, q: u32) -> Formed
    requires { p + q ≤ limits.variables + 1 }
    ensures { result ≡ formed p q }
{
    let up = Printed {
        c: Literal::Neg(p),
        d: Literal::Neg(q),
        n: Literal::Pos(p + q),
    };
    let down = Printed {
        c: Literal::Pos(p + 1),
        d: Literal::Pos(q + 1),
        n: Literal::Neg(p + q + 1),
    };
    Formed { up, down }
}

// Output i of size outputs, numbered from first on: 0 is true, one above the size false.
fn output(first: u32, size: u32, i: u32) -> Term
    requires { Among first size }
    ensures { result ≡ output first size i }
{
    if i == 0 {
        return Term::Holds;
    }
    if i <= size {
        return Term::Open(Literal::Pos(first + (i - 1)));
    }
    Term::Fails
}

fn output_term(first: u32, size: u32, l: Literal) -> Term
    requires { Among first size }
    ensures { result ≡ output_term first size l }
{
    match l {
        Literal::Pos(i) => output(first, size, i),
        Literal::Neg(i) => terms::opposite(output(first, size, i)),
    }
}

#[derive(Clone, Copy)]
struct Terms {
    c: Term,
    d: Term,
    n: Term,
}

// Second step: a clause with true and false put in.
fn put_in(t: Node, f: Printed) -> Terms
    requires { Small t }
    ensures { terms_of result ≡ node_terms t f }
{
    Terms {
        c: output_term(t.c, t.a, f.c),
        d: output_term(t.d, t.b, f.d),
        n: output_term(t.n, t.a + t.b, f.n),
    }
}

// Third step: a clause with a true literal is left out, a false literal dropped; what is left is written.
fn put_dropped(buf: &mut [u8], at: usize, x: Terms) -> usize
    requires { at + length (kept_text (terms_of x)) ≤ length buf.old }
    ensures { Wrote (kept_text (terms_of x)) at buf.old buf.new result }
{
    text::put_three(buf, at, x.c, x.d, x.n)
}

// The clauses of one p, for q = 0..b.
fn put_row(buf: &mut [u8], at: usize, t: Node, p: u32) -> usize
    requires small { Small t }
    requires p_le_a { p ≤ t.a }
    requires p_in_bounds { at + length (row_text t p) ≤ length buf.old }
    ensures { Wrote (row_text t p) at buf.old buf.new result }
{
    let mut n = at;
    for q in 0..t.b + 1 {
        let f = form(p, q);
        let k = put_dropped(buf, n, put_in(t, f.up));
        n = put_dropped(buf, k, put_in(t, f.down));
    }
    n
}

// The node's clauses, for p = 0..a.
fn put_node(buf: &mut [u8], at: usize, t: Node) -> usize
    requires small { Small t }
    requires t_in_bounds { at + length (node_text t) ≤ length buf.old }
    ensures { Wrote (node_text t) at buf.old buf.new result }
{
    let mut n = at;
    for p in 0..t.a + 1 {
        n = put_row(buf, n, t, p);
    }
    n
}

// ---- the tree

// The first output of a tree's root: the last m of the tree's, which end before `end`, or the leaf v.
fn root(m: u32, v: u32, end: u32) -> u32
    requires { 2 ≤ m → m ≤ end }
    ensures { (m < 2 → result ≡ v) × (2 ≤ m → result + m ≡ end) }
{
    if m < 2 {
        return v;
    }
    end - m
}

// The node over both halves of the tree of size m; its leaves start at v and its outputs at o.
fn own_node(m: u32, v: u32, o: u32) -> Node
    requires { (2 ≤ m) × (m ≤ limits.word) × Among v m × Among o (tree_output_count m) }
    ensures { (result ≡ node_at m v o (m - 2)) × Small result × (result.n ≡ root_output (shape m) v o) }
{
    let a = m / 2;
    let b = m - a;
    let p = o + numbering::output_count(a);
    let n = p + numbering::output_count(b);
    let c = root(a, v, p);
    let d = root(b, v + a, n);
    Node { c, a, d, b, n }
}

// ---- the units

// The clause of one literal.
fn put_unit(buf: &mut [u8], at: usize, positive: bool, v: u32) -> usize
    requires { at + length (clause_text (signed positive v ∷ [])) ≤ length buf.old }
    ensures { Wrote (clause_text (signed positive v ∷ [])) at buf.old buf.new result }
{
    if positive {
        let x = Term::Open(Literal::Pos(v));
        return text::put_three(buf, at, x, Term::Fails, Term::Fails);
    }
    let y = Term::Open(Literal::Neg(v));
    text::put_three(buf, at, y, Term::Fails, Term::Fails)
}

// The unit clauses of the outputs a, a + 1, .. (k of them) that are numbered from first on.
fn put_units(buf: &mut [u8], at: usize, positive: bool, first: u32, a: u32, k: u32) -> usize
    requires among { Among first (a + k) }
    requires k_in_bounds { at + length (flat_map (unit_text positive first) (range a k)) ≤ length buf.old }
    ensures { Wrote (flat_map (unit_text positive first) (range a k)) at buf.old buf.new result }
{
    let mut n = at;
    for i in 0..k {
        n = put_unit(buf, n, positive, first + (a + i));
    }
    n
}

// ---- the blocks of a tree of size m, in the order left half, right half, then the node itself; its units are N_1..N_low and -N_(high+1)..-N_m

// The node's own block: its clauses, then the units.
fn put_own(buf: &mut [u8], at: usize, m: u32, v: u32, o: u32, low: u32, high: u32) -> usize
    requires le_m { (2 ≤ m) × (m ≤ limits.word) × Among v m × Among o (tree_output_count m) }
    requires low_le_m { (low ≤ m) × (high ≤ m) }
    requires m_in_bounds { at + length (tree_text m v o low high (m - 2)) ≤ length buf.old }
    ensures { Wrote (tree_text m v o low high (m - 2)) at buf.old buf.new result }
{
    let t = own_node(m, v, o);
    let x = put_node(buf, at, t);
    let y = put_units(buf, x, true, t.n, 0, low);
    put_units(buf, y, false, t.n, high, m - high)
}

// Whether it fits in `left` bytes: it is written to a local array, which measures it.
fn own_fits(m: u32, v: u32, o: u32, low: u32, high: u32, left: usize) -> bool
    requires le_m { (2 ≤ m) × (m ≤ limits.word) × Among v m × Among o (tree_output_count m) }
    requires low_le_m { (low ≤ m) × (high ≤ m) }
    requires m_len_bound { length (tree_text m v o low high (m - 2)) ≤ limits.block }
    ensures { result ≡ leb (length (tree_text m v o low high (m - 2))) left }
{
    let mut scratch = [0u8; Model::BLOCK_BYTES];
    let n = put_own(&mut scratch, 0, m, v, o, low, high);
    n <= left
}

// The place after what is written, and the first block that is not.
#[derive(Clone, Copy)]
pub(crate) struct Place {
    pub(crate) at: usize,
    pub(crate) next: u32,
}

// The blocks x .. end - 1 of a tree whose blocks are numbered from `first` on, while each fits: the left half's, the right half's, then the node's own.
// None is longer than `most`, so a block is measured only where fewer bytes are left.
pub(crate) fn put_tree(
    buf: &mut [u8],
    at: usize,
    x: u32,
    end: u32,
    first: u32,
    m: u32,
    v: u32,
    o: u32,
    low: u32,
    high: u32,
    most: usize,
) -> Place
    requires le_m { (1 ≤ m) × (m ≤ limits.word) × Among v m × Among o (tree_output_count m) }
    requires low_le_m { (low ≤ m) × (high ≤ m) }
    requires first_le_x { (first ≤ x) × (end ≤ first + (m - 1)) × (first + m ≤ limits.variables) × (at ≤ length buf.old) }
    requires no_longer { NoLonger most m v o low high × (most ≤ limits.block) }
    ensures { Ran (λ i. tree_text m v o low high (i - first)) (end - x) x at buf.old buf.new result.next result.at }
{
    if end <= x {
        return Place { at, next: x };
    }
    let a = m / 2;
    let b = m - a;
    let middle = first + (a - 1);
    let last = first + (m - 2);
    let l = put_tree(buf, at, x, middle.min(end), first, a, v, o, 0, a, most);
    if l.next < middle {
        return l;
    }
    let p = o + numbering::output_count(a);
    let r = put_tree(
        buf,
        l.at,
        l.next,
        last.min(end),
        middle,
        b,
        v + a,
        p,
        0,
        b,
        most,
    );
    if r.next < last {
        return r;
    }
    if end <= last {
        return r;
    }
    let left = buf.len() - r.at;
    if left < most {
        if !own_fits(m, v, o, low, high, left) {
            return r;
        }
    }
    let n = put_own(buf, r.at, m, v, o, low, high);
    Place {
        at: n,
        next: r.next + 1,
    }
}
