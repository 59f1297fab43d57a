// The block writer: one block of the listing in a buffer of the caller's. The third step of the chain.
#![tactic(auto)]

mod totalizer;

ghost use Rattle.std.specs.Prelude.{◌≡◌, map, T, leb, ◌+◌, ◌-◌, ◌*◌, ◌≤◌, ◌<◌, length, get_or, take};
ghost use Rattle.model.specs.declared.Literal.TheVariants.{Pos};
ghost use Rattle.std.specs.List.{flat_map};
ghost use Rattle.model.specs.Lists.{range};
ghost use Rattle.model.specs.Limits.{limits};
ghost use Rattle.model.specs.Cnf.{open_count, outputs_of, difference_count, constraint_clauses, block_count};
ghost use Rattle.encoding_laws.specs.Division.{nodes_of};
ghost use Rattle.encoding_laws.proofs.Bounds.{most_bytes};
ghost use Rattle.model.specs.Model.{constraint_in_range};
ghost use Rattle.model.specs.Propagate.{Settled};
ghost use Rattle.model.proofs.Lists.{All};
ghost use Rattle.encoding_laws.specs.Steps.{BySteps};
ghost use Rattle.encoding_laws.proofs.Fixpoint.{SettledAmong};
ghost use Rattle.model.specs.Text.{clause_text, header_text, block_refusal, written_block, written_refusal, written_length, block_buffer};
ghost use Rattle.correctness.specs.Entries.{Listed};
ghost use Rattle.numbering.specs.Numbering.{first_variables, numbering_of};
ghost use Rattle.text.specs.Put.{Wrote};
ghost use Rattle.terms.specs.Terms.{MembersBelow};
ghost use Rattle.cnf.specs.Run.{Ran, run_to, buffer_to, run_of, run_buffer, ListedRun};
ghost use Rattle.cnf.specs.Parts.{group_block_text, entrant_text, constraint_text, block_length, Among, NoneLonger};

use model::{Constraint, Group, Literal, Model, Written};
use numbering::Numbering;
use terms::Member;
use totalizer::put_tree;

// ---- a group

// The group of a node's block b, by halving: `first` has the first block of each group, of which the first s count.
fn group_of(first: &[u32; Model::GROUPS], s: usize, b: u32) -> usize
    requires { (1 ≤ s) × (s ≤ limits.groups) × (length first.now ≡ limits.groups) × (get_or first.now 0 0 ≤ b) }
    ensures { (result < s) × (get_or first.now result 0 ≤ b) × (result + 1 < s → b < get_or first.now (result + 1) 0) }
{
    let mut low: usize = 0;
    let mut high = s;
    while low + 1 < high {
        let middle = low + (high - low) / 2;
        if first[middle] <= b {
            low = middle;
        } else {
            high = middle;
        }
    }
    low
}

// A clause of three literals of five digits, each with its sign and its space, then `0` and byte 10.
const CLAUSE_BYTES: usize = 23;

// A tree of m leaves has no block of more than (m + 2)² / 2 + m clauses.
fn most_bytes(m: u32) -> usize
    requires { m ≤ limits.word }
    ensures { (result ≡ most_bytes m) × (result ≤ limits.block) }
{
    let k = m as usize;
    CLAUSE_BYTES * ((k + 2) * (k + 2) / 2 + k)
}

// Where a part of a group's blocks ends: the place after what is written, the first block that is not, and the first that was not asked for.
#[derive(Clone, Copy)]
struct Part {
    at: usize,
    next: u32,
    end: u32,
}

// The blocks x .. end - 1 of a group, whose blocks are numbered from `first` on, while each fits. Its variables start at v and the outputs at o.
fn put_group(
    buf: &mut [u8],
    at: usize,
    x: u32,
    end: u32,
    first: u32,
    g: Group,
    v: u32,
    o: u32,
) -> Part
    requires settled_among { SettledAmong limits.entrants g × (first ≤ x) × (x - first < nodes_of g) }
    requires among { Among v (open_count g) × Among o (outputs_of g) }
    requires g_bound { (first + open_count g ≤ limits.variables) × (at ≤ length buf.old) }
    requires none_longer { NoneLonger (most_bytes (open_count g)) g v o }
    ensures end_value { result.end ≡ end - (end - (first + nodes_of g)) }
    ensures ran { Ran (λ i. group_block_text g v o (i - first)) (result.end - x) x at buf.old buf.new result.next result.at }
{
    let t = numbering::totalizer_of(g);
    let e = end.min(first + (t.size - 1));
    let most = most_bytes(t.size);
    let p = put_tree(buf, at, x, e, first, t.size, v, o, t.low, t.high, most);
    Part {
        at: p.at,
        next: p.next,
        end: e,
    }
}

// ---- a constraint

// The clauses of one entrant.
fn put_entrant(
    buf: &mut [u8],
    at: usize,
    ns: &[u32; Model::MEMBERS],
    code: u32,
    count: u32,
) -> usize
    requires { at + length (entrant_text ns.now code count) ≤ length buf.old }
    ensures { Wrote (entrant_text ns.now code count) at buf.old buf.new result }
{
    let mut n = at;
    for j in 0..constraint::clause_count(code, count) {
        n = terms::put_clause(buf, n, ns, code, count, j);
    }
    n
}

// The clauses of a constraint of k members, for n entrants.
fn put_constraint(
    buf: &mut [u8],
    at: usize,
    ms: &[Member; Model::MEMBERS],
    k: usize,
    code: u32,
    count: u32,
    n: u32,
) -> usize
    requires k_le_members { (k ≤ limits.members) × (n ≤ limits.entrants) }
    requires members_below { MembersBelow k code count }
    requires n_in_bounds { at + length (constraint_text (take k ms.now) code count n) ≤ length buf.old }
    ensures { Wrote (constraint_text (take k ms.now) code count n) at buf.old buf.new result }
{
    let mut x = at;
    for e in 0..n {
        x = put_entrant(buf, x, &terms::member_numbers(ms, k, e), code, count);
    }
    x
}

// The clause of the k variables from x on, at the start of buf.
fn write_rising(buf: &mut [u8], x: u32, k: u32) -> usize
    requires among { Among x k }
    requires k_in_bounds { length (clause_text (map Pos (range x k))) ≤ length buf.old }
    ensures { Wrote (clause_text (map Pos (range x k))) 0 buf.old buf.new result }
{
    let mut n: usize = 0;
    for i in 0..k {
        n = text::put_literal(buf, n, Literal::Pos(x + i));
    }
    text::put_bytes(buf, n, b"0\n")
}

// The same in the part of buf from at on.
fn put_rising(buf: &mut [u8], at: usize, x: u32, k: u32) -> usize
    requires among { Among x k }
    requires k_in_bounds { at + length (clause_text (map Pos (range x k))) ≤ length buf.old }
    ensures { Wrote (clause_text (map Pos (range x k))) at buf.old buf.new result }
{
    let n = write_rising(&mut buf[at..], x, k);
    at + n
}

// The clauses of constraint c among the first s groups, whose X, if it has any, are numbered from x on.
fn put_constraint_block(
    buf: &mut [u8],
    at: usize,
    groups: &[Group; Model::GROUPS],
    s: usize,
    first: &[u32; Model::GROUPS],
    c: &Constraint,
    n: u32,
    x: u32,
) -> usize
    requires s_le_groups { (s ≤ limits.groups) × (n ≤ limits.entrants) }
    requires all { All (SettledAmong n) (take s groups.now) × (first.now ≡ first_variables (take s groups.now)) }
    requires t { T (constraint_in_range s c.now) × (1 ≤ x) × Among x (difference_count (take s groups.now) c.now) }
    requires c_in_bounds { at + length (flat_map clause_text (constraint_clauses n (take s groups.now) x c.now)) ≤ length buf.old }
    ensures { Wrote (flat_map clause_text (constraint_clauses n (take s groups.now) x c.now)) at buf.old buf.new result }
{
    if c.code != 7 {
        let k = range::member_count(c.code, c.count);
        let ms = terms::members(groups, first, &c.groups, k);
        return put_constraint(buf, at, &ms, k, c.code, c.count, n);
    }
    if difference::is_apart(groups, s, c) {
        return at;
    }
    let o = difference::differing(groups, s, c);
    let ms = terms::difference_members(groups, first, &c.groups, o, x);
    let y = put_constraint(buf, at, &ms, 3, c.code, c.count, n);
    put_rising(buf, y, x, o.count_ones())
}

// ---- blocks

// Block 0: `p cnf V C` and byte 10.
fn put_header(buf: &mut [u8], at: usize, m: &Model, v: &Numbering) -> usize
    requires settled { Settled m.now × (v.now ≡ numbering_of m.now) }
    requires m_in_bounds { at + length (header_text m.now) ≤ length buf.old }
    ensures { Wrote (header_text m.now) at buf.old buf.new result }
{
    let c = counts::clause_count(*m);
    let x = text::put_bytes(buf, at, b"p cnf ");
    let y = text::put_number(buf, x, v.variables);
    let z = text::put_bytes(buf, y, b" ");
    let w = text::put_number(buf, z, c);
    text::put_bytes(buf, w, b"\n")
}

// ---- what fits in `left` bytes: it is measured only where there may be no room

// Block 0.
fn header_fits(m: &Model, v: &Numbering, left: usize) -> bool
    requires { Settled m.now × (v.now ≡ numbering_of m.now) }
    ensures { result ≡ leb (length (header_text m.now)) left }
{
    if left < Model::BLOCK_BYTES {
        let mut scratch = [0u8; Model::BLOCK_BYTES];
        let n = put_header(&mut scratch, 0, m, v);
        return n <= left;
    }
    true
}

// A constraint's block.
fn constraint_block_fits(
    groups: &[Group; Model::GROUPS],
    s: usize,
    first: &[u32; Model::GROUPS],
    c: &Constraint,
    n: u32,
    x: u32,
    left: usize,
) -> bool
    requires s_le_groups { (s ≤ limits.groups) × (n ≤ limits.entrants) }
    requires all { All (SettledAmong n) (take s groups.now) × (first.now ≡ first_variables (take s groups.now)) }
    requires t { T (constraint_in_range s c.now) × (1 ≤ x) × Among x (difference_count (take s groups.now) c.now) }
    requires c_len_bound { length (flat_map clause_text (constraint_clauses n (take s groups.now) x c.now)) ≤ limits.block }
    ensures { result ≡ leb (length (flat_map clause_text (constraint_clauses n (take s groups.now) x c.now))) left }
{
    if left < Model::BLOCK_BYTES {
        let mut scratch = [0u8; Model::BLOCK_BYTES];
        let k = put_constraint_block(&mut scratch, 0, groups, s, first, c, n, x);
        return k <= left;
    }
    true
}

// ---- a run of blocks

// A run of blocks: 0, the first block that is not written and the length of the text; or a refusal, the block asked for and 0.
#[derive(Clone, Copy)]
pub struct Run {
    pub refusal: u32,
    pub next: u32,
    pub length: usize,
}

// The blocks of a settled model from b to `end`, while each fits in what is left.
fn write_run(m: &Model, b: u32, end: u32, buf: &mut [u8]) -> Run
    requires { Settled m.now × (b ≤ end) × (end ≤ block_count m.now) }
    ensures value { result ≡ run_to m.now b end (length buf.old) }
    ensures buf_after { buf.new ≡ buffer_to m.now b end buf.old }
{
    let v = numbering::of_model(*m);
    let s = m.s as usize;
    let d = blocks::of_groups(&m.groups, m.s);
    let mut at: usize = 0;
    let mut x = b;
    let mut stop = end + 1;
    while x < stop {
        let left = buf.len() - at;
        if x == 0 {
            if header_fits(m, &v, left) {
                at = put_header(buf, at, m, &v);
                x += 1;
            } else {
                stop = x;
            }
        } else if x < d.lines {
            let i = group_of(&d.first, s, x);
            let g = m.groups[i];
            let p = put_group(buf, at, x, stop, d.first[i], g, v.first[i], v.outputs[i]);
            at = p.at;
            x = p.next;
            if x < p.end {
                stop = x;
            }
        } else {
            let j = (x - d.lines) as usize;
            let c = &m.constraints[j];
            let o = v.differences[j];
            if constraint_block_fits(&m.groups, s, &v.first, c, m.n, o, left) {
                at = put_constraint_block(buf, at, &m.groups, s, &v.first, c, m.n, o);
                x += 1;
            } else {
                stop = x;
            }
        }
    }
    if x == b {
        return Run {
            refusal: 24,
            next: b,
            length: 0,
        };
    }
    Run {
        refusal: 0,
        next: x,
        length: at,
    }
}

// ---- the entries

// Block b in buf, from its start: refusals 20, 22, 23 and 24 in this order. 29 cannot occur after 22. A written block has at each node, p and q what the printed steps leave there.
// It is a part of the listing of which demand 3 speaks: `Listed`.
pub fn write_block(m: Model, b: u32, buf: &mut [u8]) -> Written
    ensures value { result ≡ written_block m b (length buf.old) }
    ensures buf_after { buf.new ≡ block_buffer m b buf.old }
    ensures result_value { (written_refusal result ≡ block_refusal m b (length buf.old)) × (written_length result ≡ block_length m b (length buf.old)) }
    ensures by_steps { written_refusal result ≡ 0 → BySteps m b buf.new }
    ensures listed { written_refusal result ≡ 0 → Listed m b (written_length result) buf.new }
{
    let refusal = blocks::judged(m, b);
    if refusal != 0 {
        return Written::Refused(refusal);
    }
    model::whole(m.groups, m.constraints);
    let r = write_run(&m, b, b, buf);
    if r.refusal != 0 {
        return Written::Refused(r.refusal);
    }
    Written::Bytes(r.length)
}

// Blocks from b on, while each fits; refused as `write_block` refuses block b. 20, 22 and 23 are judged once for the whole run.
// They are the listing's bytes from block b on, and of the listing demand 3 speaks: `ListedRun`.
pub fn write_blocks(m: Model, b: u32, buf: &mut [u8]) -> Run
    ensures value { result ≡ run_of m b (length buf.old) }
    ensures buf_after { buf.new ≡ run_buffer m b buf.old }
    ensures length_bound { result.length ≤ (limits.groups * limits.word + limits.constraints + 1) * limits.block }
    ensures listed_run { result.refusal ≡ 0 → ListedRun m b result buf.new }
{
    let refusal = blocks::judged(m, b);
    if refusal != 0 {
        return Run {
            refusal,
            next: b,
            length: 0,
        };
    }
    model::whole(m.groups, m.constraints);
    let d = blocks::of_groups(&m.groups, m.s);
    write_run(&m, b, d.lines - 1 + m.c, buf)
}
