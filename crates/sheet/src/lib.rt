// The sheet reader: a club's sheet, byte by byte, to a model. The first step of the chain.
#![tactic(auto)]

ghost use Rattle.std.specs.Prelude.{◌≡◌, ℕ, ◌≤◌, ◌<◌, ◌+◌, ◌/◌, ◌^◌, Bool, true, cond, ◌&&◌, List, T, leb, eqb, length};
ghost use Rattle.std.specs.List.{list_all};
ghost use Rattle.model.specs.Lists.{range};
ghost use Rattle.model.specs.Limits.{limits};
ghost use Rattle.model.specs.Sheet.{field_at, after_spaces, field_value, field_refusal, field_number, if_none, or_zero, number_in, value_at, form_refusal, head_refusal, mark_at, group_refusal, group_from, group_count, count_from, constraint_from, constraint_refusal, line_refusal, refused_sheet, read_sheet};
ghost use Rattle.sheet.specs.Refusals.{refusal_number, judged};
ghost use Rattle.sheet.specs.Line.{line_length, good_mark, plain_value, GroupLine, ConstraintLine};
ghost use Rattle.sheet.specs.Blanks.{same_but_blanks};
ghost use Rattle.sheet.specs.Orders.{Orders};

use model::{Constraint, Field, Group, Model, SheetRead};

// Why a line is refused.
#[derive(Clone, Copy, PartialEq, Eq)]
pub enum Refusal {
    // no bytes, or not a multiple of four
    Width,
    // a field that is no number
    Field,
    // another kind of line is due
    Kind,
    // the number of fields, a code, or the count of a union
    Count,
    // a number out of its range
    Range,
    // another group's line is due
    Order,
    // a group twice
    Twice,
}

impl Refusal {
    // Its number in document 01.
    pub fn number(self) -> u32
        ensures { result ≡ refusal_number self }
    {
        match self {
            Refusal::Width => 3,
            Refusal::Field => 4,
            Refusal::Kind => 5,
            Refusal::Count => 6,
            Refusal::Range => 7,
            Refusal::Order => 8,
            Refusal::Twice => 9,
        }
    }
}

// The four bytes of field i of a line, or nothing where the line has no such field.
pub fn field(line: &[u8], i: usize) -> &[u8]
    ensures { result.now ≡ field_at line.now i }
{
    let n = line.len() / 4;
    if i < n {
        let a = i * 4;
        &line[a..a + 4]
    } else {
        &line[..0]
    }
}

// The part of a field after its leading spaces.
fn unspaced(f: &[u8]) -> &[u8]
    ensures { result.now ≡ after_spaces f.now }
{
    let mut rest = f;
    while let [b' ', after @ ..] = rest {
        rest = after;
    }
    rest
}

// What stands in a field: a number, nothing, or what is neither.
pub fn read_field(f: &[u8]) -> Field
    ensures value { result ≡ field_value f.now }
    ensures mark_value { (mark : Bool) → (field_refusal result mark ≡ if_none 4 (number_in f.now mark)) × (field_number result mark ≡ or_zero (number_in f.now mark)) }
{
    if f.len() != 4 {
        return Field::Bad;
    }
    let d = unspaced(f);
    let n = d.len();
    if n == 0 {
        return Field::Blank;
    }
    if d[0] == 48 {
        if n == 1 {
            return Field::Number(0);
        }
        return Field::Bad;
    }
    let Some(v) = model::decimal(d) else {
        return Field::Bad;
    };
    Field::Number(v)
}

// The number that a field says in a mark column or elsewhere: 1 where a mark is blank.
fn number_in(f: &[u8], mark: bool) -> Option<u32>
    ensures { (if_none 4 result ≡ field_refusal (field_value f.now) mark) × (or_zero result ≡ field_number (field_value f.now) mark) }
{
    match read_field(f) {
        Field::Number(v) => Some(v),
        Field::Blank => mark.then_some(1),
        Field::Bad => None,
    }
}

// The number in field i of a line, where it is no mark column; 0 where it is none.
pub fn value(line: &[u8], i: usize) -> u32
    ensures { result ≡ value_at line.now i }
{
    number_in(field(line, i), false).unwrap_or(0)
}

// The mark of bit e in a group line of good marks, by the last byte of its field.
fn mark(line: &[u8], e: u32) -> u32
    requires { (form_refusal line.now ≡ 0) × (value_at line.now 0 ≡ 2) × (4 + e < length line.now / 4) × (mark_at line.now e ≤ 2) }
    ensures { result ≡ mark_at line.now e }
{
    let b = line[e as usize * 4 + 19];
    if b == 32 {
        return 1;
    }
    (b % 16) as u32
}

// The number in field i of a line in which each field has the right form: a space counts as a leading 0.
fn plain(line: &[u8], i: usize) -> u32
    requires { i < length line.now / 4 }
    ensures { result ≡ plain_value 0 (field_at line.now i) }
{
    let a = i * 4;
    let x = (line[a] % 16) as u32 * 10 + (line[a + 1] % 16) as u32;
    let y = (line[a + 2] % 16) as u32 * 10 + (line[a + 3] % 16) as u32;
    x * 100 + y
}

// Whether field i is a mark column in a line whose first field is `kind`.
pub fn is_mark_column(kind: u32, i: usize) -> bool
    ensures { result ≡ (leb 4 i && eqb kind 2) }
{
    if i < 4 {
        return false;
    }
    kind == 2
}

// Refusals 3 and 4 of a line.
fn form_refusal(line: &[u8]) -> Result<(), Refusal>
    ensures { judged result ≡ form_refusal line.now }
{
    let n = line.len();
    if n == 0 {
        return Err(Refusal::Width);
    }
    if n % 4 != 0 {
        return Err(Refusal::Width);
    }
    let kind = value(line, 0);
    for i in 0..n / 4 {
        let Some(_) = number_in(field(line, i), is_mark_column(kind, i)) else {
            return Err(Refusal::Field);
        };
    }
    Ok(())
}

// Refusals 5 to 7 of the head.
pub fn head_refusal(line: &[u8]) -> Result<(), Refusal>
    ensures { judged result ≡ head_refusal line.now }
{
    if value(line, 0) != 1 {
        return Err(Refusal::Kind);
    }
    if line.len() / 4 != 4 {
        return Err(Refusal::Count);
    }
    let n = value(line, 1);
    if n < 1 {
        return Err(Refusal::Range);
    }
    if Model::ENTRANTS < n {
        return Err(Refusal::Range);
    }
    let s = value(line, 2);
    if s < 1 {
        return Err(Refusal::Range);
    }
    if model::groups_for(n) < s as usize {
        return Err(Refusal::Range);
    }
    if Model::CONSTRAINTS < value(line, 3) as usize {
        return Err(Refusal::Range);
    }
    Ok(())
}

// Every mark of a group line is 0, 1 or 2: in a field of the right form, no digit before the last, and that at most 2.
fn good_marks(line: &[u8], n: u32) -> bool
    requires { (n ≤ limits.entrants) × GroupLine n line.now }
    ensures { result ≡ list_all (good_mark line.now) (range 0 n) }
{
    for e in 0..n {
        let a = e as usize * 4 + 16;
        let high = (line[a] % 16 != 0) | (line[a + 1] % 16 != 0) | (line[a + 2] % 16 != 0);
        if high | (2 < line[a + 3] % 16) {
            return false;
        }
    }
    true
}

// Refusals 5 to 8 of the line of group g.
fn group_refusal(n: u32, g: u32, line: &[u8]) -> Result<(), Refusal>
    requires { (n ≤ limits.entrants) × (form_refusal line.now ≡ 0) }
    ensures { judged result ≡ group_refusal n g line.now }
{
    if value(line, 0) != 2 {
        return Err(Refusal::Kind);
    }
    if line.len() / 4 != 4 + n as usize {
        return Err(Refusal::Count);
    }
    let high = value(line, 3);
    if high < value(line, 2) {
        return Err(Refusal::Range);
    }
    if n < high {
        return Err(Refusal::Range);
    }
    if !good_marks(line, n) {
        return Err(Refusal::Range);
    }
    if value(line, 1) != g {
        return Err(Refusal::Order);
    }
    Ok(())
}

// The word w, below bit e, with bit e set where `on`.
fn with_bit(w: u64, e: u32, on: bool) -> u64
    requires { (e < limits.entrants) × (w < 2 ^ e) }
    ensures { result ≡ w + cond on (2 ^ e) 0 }
{
    if on {
        return w | 1 << e;
    }
    w
}

// The group of a group line with n marks.
fn read_group(n: u32, line: &[u8]) -> Group
    requires { (n ≤ limits.entrants) × GroupLine n line.now × (list_all (good_mark line.now) (range 0 n) ≡ true) }
    ensures { result ≡ group_from n line.now }
{
    let mut fixed: u64 = 0;
    let mut possible: u64 = 0;
    for e in 0..n {
        let m = mark(line, e);
        fixed = with_bit(fixed, e, m == 2);
        possible = with_bit(possible, e, m != 0);
    }
    Group {
        fixed,
        possible,
        low: value(line, 2),
        high: value(line, 3),
    }
}

// The count of a constraint line of that code: k of code 6, 0 of every other.
fn count_from(line: &[u8], code: u32) -> u32
    requires { code ≡ value_at line.now 1 }
    ensures { result ≡ count_from line.now }
{
    if code == 6 {
        return value(line, 2);
    }
    0
}

// The field of a constraint line's first group, by its code.
pub fn first_group(code: u32) -> usize
    ensures { result ≡ cond (eqb code 6) 3 2 }
{
    if code == 6 {
        return 3;
    }
    2
}

// How many groups a constraint line of that code names.
fn group_count(line: &[u8], code: u32) -> usize
    requires { code ≡ value_at line.now 1 }
    ensures { result ≡ group_count line.now }
{
    range::member_count(code, count_from(line, code))
}

// The numbers of the k groups of a constraint line of that code, then zeros.
fn read_numbers(line: &[u8], code: u32, k: usize) -> [u32; Model::MEMBERS]
    requires k_le_members { (k ≤ limits.members) × (k ≡ group_count line.now) × (code ≡ value_at line.now 1) }
    requires constraint_line { ConstraintLine line.now }
    ensures { result ≡ (constraint_from line.now).groups }
{
    let a = first_group(code);
    let mut groups: [u32; Model::MEMBERS] = [0; Model::MEMBERS];
    for i in 0..k {
        groups[i] = plain(line, a + i);
    }
    groups
}

// The constraint of a constraint line.
fn read_constraint(line: &[u8]) -> Constraint
    requires { (group_count line.now ≤ limits.members) × ConstraintLine line.now }
    ensures { result ≡ constraint_from line.now }
{
    let code = value(line, 1);
    let k = group_count(line, code);
    let groups = read_numbers(line, code, k);
    Constraint {
        code,
        count: count_from(line, code),
        groups,
    }
}

// Refusals 5 to 9 of a constraint line.
fn constraint_refusal(s: u32, line: &[u8]) -> Result<(), Refusal>
    requires { form_refusal line.now ≡ 0 }
    ensures { judged result ≡ constraint_refusal s line.now }
{
    if value(line, 0) != 3 {
        return Err(Refusal::Kind);
    }
    let code = value(line, 1);
    if !range::code_in_range(code, count_from(line, code)) {
        return Err(Refusal::Count);
    }
    let k = group_count(line, code);
    if line.len() / 4 != first_group(code) + k {
        return Err(Refusal::Count);
    }
    let groups = read_numbers(line, code, k);
    if !range::all_between(groups, k, s) {
        return Err(Refusal::Range);
    }
    if !range::all_distinct(groups, k) {
        return Err(Refusal::Twice);
    }
    Ok(())
}

// A line after `done` lines, of which the head said n, s and c.
fn line_refusal(n: u32, s: u32, c: u32, done: u32, line: &[u8]) -> Result<(), Refusal>
    requires { (n ≤ limits.entrants) × (s ≤ limits.groups) × (c ≤ limits.constraints) }
    ensures { judged result ≡ line_refusal n s c done line.now }
{
    form_refusal(line)?;
    if done == 0 {
        return head_refusal(line);
    }
    if done <= s {
        return group_refusal(n, done, line);
    }
    if done <= s + c {
        return constraint_refusal(s, line);
    }
    Err(Refusal::Kind)
}

// The length of the first line: sixteen bytes at a time while none of them ends it, then byte by byte.
pub fn line_length(s: &[u8]) -> usize
    ensures { result ≡ line_length s.now }
{
    let mut rest = s;
    while let Some((bytes, after)) = rest.split_first_chunk::<16>() {
        if bytes.contains(&b'\n') {
            break;
        }
        rest = after;
    }
    s.len() - rest.len() + model::length_before(rest, b'\n')
}

fn refused(refusal: u32, line: u32) -> SheetRead
    ensures { result ≡ refused_sheet refusal line }
{
    SheetRead {
        refusal,
        line,
        model: Model::zero(),
    }
}

// The model of a sheet, or its refusal and the number of its line; the same whole answer for a sheet that differs only in mark columns, blank in one and
// a written 1 in the other.
pub fn read_sheet(sheet: &[u8]) -> SheetRead
    ensures value { result ≡ read_sheet sheet.now }
    ensures by_index { (b : List ℕ) → T (same_but_blanks sheet.now b) → result ≡ read_sheet b }
    ensures orders { Orders sheet.now result }
{
    let n = sheet.len();
    if Model::SHEET_BYTES < n {
        return refused(1, 0);
    }
    if n == 0 {
        return refused(2, 0);
    }
    if sheet[n - 1] != 10 {
        return refused(2, 0);
    }
    let mut m = Model::zero();
    let mut done: u32 = 0;
    let mut at: usize = 0;
    while at < n {
        let rest = &sheet[at..];
        let len = line_length(rest);
        let line = &rest[..len];
        if let Err(refusal) = line_refusal(m.n, m.s, m.c, done, line) {
            return refused(refusal.number(), done + 1);
        }
        if done == 0 {
            m.n = value(line, 1);
            m.s = value(line, 2);
            m.c = value(line, 3);
        } else if done <= m.s {
            let g = read_group(m.n, line);
            let i = (done - 1) as usize;
            m.groups[i] = g;
        } else {
            let k = read_constraint(line);
            let j = (done - m.s - 1) as usize;
            m.constraints[j] = k;
        }
        done += 1;
        at = at + len + 1;
    }
    if done <= m.s + m.c {
        return refused(5, done + 1);
    }
    SheetRead {
        refusal: 0,
        line: 0,
        model: m,
    }
}
