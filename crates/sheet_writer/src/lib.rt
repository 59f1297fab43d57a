// The sheet writer: a model's sheet in a buffer of the caller's, as the reader takes it. Refused as a block is: 20, then 24.
#![tactic(auto)]

ghost use Rattle.std.specs.Prelude.{◌≡◌, [], ◌∷◌, ◌+◌, ◌*◌, ◌≤◌, ◌<◌, T, length, take};
ghost use Rattle.std.specs.List.{list_all, flat_map};
ghost use Rattle.model.specs.Lists.{range};
ghost use Rattle.model.specs.Limits.{limits};
ghost use Rattle.model.specs.Clauses.{member_count};
ghost use Rattle.model.specs.Model.{constraint_in_range, in_range};
ghost use Rattle.model.specs.Text.{field_text, written_refusal, written_length};
ghost use Rattle.model.specs.SheetText.{mark_of, group_fields, line_text, sheet_text, sheet_refusal, written_sheet, sheet_buffer};
ghost use Rattle.text.specs.Put.{Wrote};
ghost use Rattle.sheet_writer.specs.Parts.{code_fields, group_text, constraint_text, line_length, sheet_length};

use model::{Constraint, Group, Model, Written};

// ---- measuring

// Four bytes a field, and byte 10. No line has more fields than that of a group with 64 marks.
fn line_length(fields: usize) -> usize
    requires { fields ≤ limits.entrants + 4 }
    ensures { result ≡ line_length fields }
{
    fields * 4 + 1
}

fn constraint_length(c: &Constraint, s: u32) -> usize
    requires { T (constraint_in_range s c.now) × (s ≤ limits.groups) }
    ensures { (result ≡ length (constraint_text c.now)) × (result ≤ line_length (3 + limits.members)) }
{
    let k = range::member_count(c.code, c.count);
    if c.code == 6 {
        return line_length(3 + k);
    }
    line_length(2 + k)
}

// The lines of the first c constraints.
fn constraints_length(constraints: &[Constraint; Model::CONSTRAINTS], c: usize, s: u32) -> usize
    requires c_le_constraints { (c ≤ limits.constraints) × (s ≤ limits.groups) }
    requires t { T (list_all (constraint_in_range s) (take c constraints.now)) }
    ensures { (result ≡ length (flat_map constraint_text (take c constraints.now))) × (result ≤ c * line_length (3 + limits.members)) }
{
    let mut r: usize = 0;
    for x in &constraints[..c] {
        r += constraint_length(x, s);
    }
    r
}

fn sheet_length(m: &Model) -> usize
    requires { T (in_range m.now) }
    ensures { result ≡ length (sheet_text m.now) }
{
    let lines = constraints_length(&m.constraints, m.c as usize, m.s);
    let row = line_length(4 + m.n as usize);
    line_length(4) + m.s as usize * row + lines
}

// ---- writing

// One field after the other.
fn put_fields(buf: &mut [u8], at: usize, fields: &[u32]) -> usize
    requires { at + length (flat_map field_text fields.now) ≤ length buf.old }
    ensures { Wrote (flat_map field_text fields.now) at buf.old buf.new result }
{
    let mut n = at;
    for v in fields {
        n = text::put_field(buf, n, *v);
    }
    n
}

// The mark of bit e: 2 fixed, 1 open, 0 barred.
fn mark(g: &Group, e: u32) -> u32
    requires { e < limits.word }
    ensures { result ≡ mark_of g.now e }
{
    if (g.fixed >> e) % 2 == 1 {
        return 2;
    }
    if (g.possible >> e) % 2 == 1 {
        return 1;
    }
    0
}

// The head, at the start of buf.
fn put_head(buf: &mut [u8], n: u32, s: u32, c: u32) -> usize
    requires { length (line_text (1 ∷ n ∷ s ∷ c ∷ [])) ≤ length buf.old }
    ensures { Wrote (line_text (1 ∷ n ∷ s ∷ c ∷ [])) 0 buf.old buf.new result }
{
    let k = put_fields(buf, 0, &[1, n, s, c]);
    buf[k] = b'\n';
    k + 1
}

// The marks of the bits below n.
fn put_marks(buf: &mut [u8], at: usize, g: &Group, n: u32) -> usize
    requires n_le_entrants { n ≤ limits.entrants }
    requires n_in_bounds { at + length (flat_map (λ e. field_text (mark_of g.now e)) (range 0 n)) ≤ length buf.old }
    ensures { Wrote (flat_map (λ e. field_text (mark_of g.now e)) (range 0 n)) at buf.old buf.new result }
{
    let mut k = at;
    for e in 0..n {
        k = text::put_field(buf, k, mark(g, e));
    }
    k
}

fn put_group(buf: &mut [u8], at: usize, g: &Group, number: u32, n: u32) -> usize
    requires n_le_entrants { n ≤ limits.entrants }
    requires g_in_bounds { at + length (line_text (group_fields n number g.now)) ≤ length buf.old }
    ensures { Wrote (line_text (group_fields n number g.now)) at buf.old buf.new result }
{
    let j = put_fields(buf, at, &[2, number, g.low, g.high]);
    let k = put_marks(buf, j, g, n);
    buf[k] = b'\n';
    k + 1
}

// The lines of the first s groups.
fn put_groups(buf: &mut [u8], at: usize, groups: &[Group; Model::GROUPS], s: usize, n: u32) -> usize
    requires n_le_entrants { (n ≤ limits.entrants) × (s ≤ limits.groups) }
    requires s_in_bounds { at + length (flat_map (group_text n (take s groups.now)) (range 1 s)) ≤ length buf.old }
    ensures { Wrote (flat_map (group_text n (take s groups.now)) (range 1 s)) at buf.old buf.new result }
{
    let mut k = at;
    for i in 0..s {
        k = put_group(buf, k, &groups[i], i as u32 + 1, n);
    }
    k
}

// The kind, the code, and the count of code 6.
fn put_code(buf: &mut [u8], at: usize, code: u32, count: u32) -> usize
    requires { at + length (flat_map field_text (code_fields code count)) ≤ length buf.old }
    ensures { Wrote (flat_map field_text (code_fields code count)) at buf.old buf.new result }
{
    if code == 6 {
        return put_fields(buf, at, &[3, code, count]);
    }
    put_fields(buf, at, &[3, code])
}

fn put_constraint(buf: &mut [u8], at: usize, c: &Constraint) -> usize
    requires count_bound { member_count c.now.code c.now.count ≤ limits.members }
    requires c_in_bounds { at + length (constraint_text c.now) ≤ length buf.old }
    ensures { Wrote (constraint_text c.now) at buf.old buf.new result }
{
    let k = range::member_count(c.code, c.count);
    let i = put_code(buf, at, c.code, c.count);
    let j = put_fields(buf, i, &c.groups[..k]);
    buf[j] = b'\n';
    j + 1
}

// The lines of the first c constraints.
fn put_constraints(
    buf: &mut [u8],
    at: usize,
    constraints: &[Constraint; Model::CONSTRAINTS],
    c: usize,
    s: u32,
) -> usize
    requires c_le_constraints { c ≤ limits.constraints }
    requires t { T (list_all (constraint_in_range s) (take c constraints.now)) }
    requires constraints_in_bounds { at + length (flat_map constraint_text (take c constraints.now)) ≤ length buf.old }
    ensures { Wrote (flat_map constraint_text (take c constraints.now)) at buf.old buf.new result }
{
    let mut k = at;
    for x in &constraints[..c] {
        k = put_constraint(buf, k, x);
    }
    k
}

// The sheet of a model in range, at the start of buf.
fn put_sheet(m: &Model, buf: &mut [u8]) -> usize
    requires t { T (in_range m.now) }
    requires m_in_bounds { length (sheet_text m.now) ≤ length buf.old }
    ensures { Wrote (sheet_text m.now) 0 buf.old buf.new result }
{
    let i = put_head(buf, m.n, m.s, m.c);
    let j = put_groups(buf, i, &m.groups, m.s as usize, m.n);
    put_constraints(buf, j, &m.constraints, m.c as usize, m.s)
}

// The sheet of a model in buf, from its start: refusals 20 and 24 in this order.
pub fn write_sheet(m: Model, buf: &mut [u8]) -> Written
    ensures value { result ≡ written_sheet m (length buf.old) }
    ensures buf_after { buf.new ≡ sheet_buffer m buf.old }
    ensures result_value { (written_refusal result ≡ sheet_refusal m (length buf.old)) × (written_length result ≡ sheet_length m (length buf.old)) }
{
    if !range::in_range(m) {
        return Written::Refused(20);
    }
    if buf.len() < sheet_length(&m) {
        return Written::Refused(24);
    }
    Written::Bytes(put_sheet(&m, buf))
}
