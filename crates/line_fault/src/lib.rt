// What is wrong with a refused line of a sheet, and where: the words for the counter are in fault_text.
#![tactic(auto)]

ghost use Rattle.std.specs.Prelude.{◌≡◌, ◌&&◌, ◌-◌, ◌≤◌, min, eqb, length, get_or};
ghost use Rattle.model.specs.Limits.{limits};
ghost use Rattle.model.specs.Sheet.{value_at, good_field, count_from};
ghost use Rattle.line_fault.specs.Fault.{columns, order_mark, tab_at, form_fault, bad_field, four_of, unread_fault, number_at, bounds, head_range, group_range, field_range, first_judged, in_range, out_field, number_fault, out_fault, constraint_count, count_fault, line_fault};

use model::{Field, Model};

// What the head says.
#[derive(Clone, Copy)]
pub struct Head {
    pub n: u32,
    pub s: u32,
    pub c: u32,
}

// The columns of a field, counted from 1.
#[derive(Clone, Copy)]
pub struct Columns {
    pub first: u32,
    pub last: u32,
}

// The bytes of a field.
#[derive(Clone, Copy)]
pub struct Four {
    pub a: u8,
    pub b: u8,
    pub c: u8,
    pub d: u8,
}

// What a number is.
#[derive(Clone, Copy, PartialEq, Eq)]
pub enum Name {
    Entrants,
    Groups,
    // with more entrants than Model::NARROW
    GroupsOfMany,
    Constraints,
    Low,
    High,
    Mark,
    Group,
    Code,
    // of code 6
    Count,
    // the head's first field
    Kind,
    // the group whose line is due
    NextGroup,
    // by a number that has no name
    Other(u32),
}

// What a number is, with the least and the most that it may be.
#[derive(Clone, Copy)]
pub struct Range {
    pub name: Name,
    pub low: u32,
    pub high: u32,
}

#[derive(Clone, Copy)]
pub enum Fault {
    Nothing,
    OrderMark,
    Return,
    // its column
    Tab(u32),
    // how many columns the line has
    Width(u32),
    // a field that has not the right form
    Unread(Columns, Four),
    // a field whose number is out of its range
    Outside(Columns, u32, Range),
    // how many fields the line has, the least and the most that it may have
    Count(u32, u32, u32),
    // the same of a group line: it has four and a mark for each of so many entrants
    Marks(u32, u32),
    // what the head says, how many lines that makes, how many the sheet has, and the kind that is due here
    Lines(Head, u32, u32, u32),
    // the sheet has no byte
    Empty,
    // the sheet's last line, which lacks its newline
    Unended(u32),
}

// ---- 3 and 4

// The byte at place i; 0 past the end.
fn byte(line: &[u8], i: usize) -> u8
    ensures { result ≡ get_or line.now i 0 }
{
    line.get(i).copied().unwrap_or(0)
}

fn columns_of(i: usize) -> Columns
    requires { i ≤ limits.sheet }
    ensures { result ≡ columns i }
{
    let a = i as u32 * 4;
    Columns {
        first: a + 1,
        last: a + 4,
    }
}

// Whether the line is the sheet's first and begins with a byte order mark.
fn has_order_mark(done: u32, line: &[u8]) -> bool
    ensures { result ≡ (eqb done 0 && order_mark line.now) }
{
    if done != 0 {
        return false;
    }
    if byte(line, 0) != 239 {
        return false;
    }
    if byte(line, 1) != 187 {
        return false;
    }
    byte(line, 2) == 191
}

// The last byte; 0 of an empty line.
fn last_byte(line: &[u8]) -> u8
    ensures { result ≡ get_or line.now (length line.now - 1) 0 }
{
    line.last().copied().unwrap_or(0)
}

// The place of the first tab; the line's length where it has none.
fn first_tab(line: &[u8]) -> usize
    ensures { result ≡ tab_at line.now }
{
    for (i, b) in line.iter().enumerate() {
        if *b == b'\t' {
            return i;
        }
    }
    line.len()
}

// A byte order mark before the head, a carriage return at the line's end, a tab; else the other fault.
fn form_fault(done: u32, line: &[u8], other: Fault) -> Fault
    requires { length line.now ≤ limits.sheet }
    ensures { result ≡ form_fault done line.now other }
{
    if has_order_mark(done, line) {
        return Fault::OrderMark;
    }
    if last_byte(line) == 13 {
        return Fault::Return;
    }
    let tab = first_tab(line);
    if tab < line.len() {
        return Fault::Tab(tab as u32 + 1);
    }
    other
}

fn is_good(line: &[u8], i: usize) -> bool
    ensures { result ≡ good_field line.now i }
{
    match sheet::read_field(sheet::field(line, i)) {
        Field::Number(_) => true,
        Field::Blank => sheet::is_mark_column(sheet::value(line, 0), i),
        Field::Bad => false,
    }
}

// The first field that is not as it should be.
fn first_bad(line: &[u8]) -> usize
    ensures { result ≡ bad_field line.now }
{
    let k = line.len() / 4;
    for i in 0..k {
        if !is_good(line, i) {
            return i;
        }
    }
    k
}

fn four_of(f: &[u8]) -> Four
    ensures { result ≡ four_of f.now }
{
    Four {
        a: byte(f, 0),
        b: byte(f, 1),
        c: byte(f, 2),
        d: byte(f, 3),
    }
}

fn unread_fault(line: &[u8]) -> Fault
    requires { length line.now ≤ limits.sheet }
    ensures { result ≡ unread_fault line.now }
{
    let i = first_bad(line);
    let four = four_of(sheet::field(line, i));
    Fault::Unread(columns_of(i), four)
}

// ---- 7

// The number in field i of a line.
fn number_at(line: &[u8], i: usize) -> u32
    ensures { result ≡ number_at line.now i }
{
    let mark = sheet::is_mark_column(sheet::value(line, 0), i);
    match sheet::read_field(sheet::field(line, i)) {
        Field::Number(v) => v,
        Field::Blank => { if mark { 1 } else { 0 } }
        Field::Bad => 0,
    }
}

fn bounds(name: Name, low: u32, high: u32) -> Range
    ensures { result ≡ bounds name low high }
{
    Range { name, low, high }
}

// The range of field i of the head: the number of groups depends on that of entrants.
fn head_range(line: &[u8], i: usize) -> Range
    ensures { result ≡ head_range line.now i }
{
    if i == 1 {
        return bounds(Name::Entrants, 1, Model::ENTRANTS);
    }
    if i != 2 {
        return bounds(Name::Constraints, 0, Model::CONSTRAINTS as u32);
    }
    let n = sheet::value(line, 1);
    let most = model::groups_for(n) as u32;
    if n <= Model::NARROW {
        return bounds(Name::Groups, 1, most);
    }
    bounds(Name::GroupsOfMany, 1, most)
}

// The range of field i of a group line of n marks.
fn group_range(n: u32, line: &[u8], i: usize) -> Range
    ensures { result ≡ group_range n line.now i }
{
    if i == 2 {
        return bounds(Name::Low, 0, sheet::value(line, 3).min(n));
    }
    if i == 3 {
        return bounds(Name::High, 0, n);
    }
    bounds(Name::Mark, 0, 2)
}

// The range of field i of the line after `done` lines.
fn field_range(h: Head, done: u32, line: &[u8], i: usize) -> Range
    ensures { result ≡ field_range h done line.now i }
{
    if done == 0 {
        return head_range(line, i);
    }
    if done <= h.s {
        return group_range(h.n, line, i);
    }
    bounds(Name::Group, 1, h.s)
}

fn is_in_range(h: Head, done: u32, line: &[u8], i: usize) -> bool
    ensures { result ≡ in_range h done line.now i }
{
    let r = field_range(h, done, line, i);
    let v = number_at(line, i);
    if v < r.low {
        return false;
    }
    v <= r.high
}

// The first field that 7 judges.
fn first_judged(h: Head, done: u32, line: &[u8]) -> usize
    ensures { result ≡ first_judged h done line.now }
{
    if done == 0 {
        return 1;
    }
    if done <= h.s {
        return 2;
    }
    sheet::first_group(sheet::value(line, 1))
}

// The first field whose number is out of its range.
fn first_out(h: Head, done: u32, line: &[u8]) -> usize
    ensures { result ≡ out_field h done line.now }
{
    let k = line.len() / 4;
    let first = first_judged(h, done, line);
    for i in first..k {
        if !is_in_range(h, done, line, i) {
            return i;
        }
    }
    k.max(first)
}

fn number_fault(line: &[u8], i: usize, r: Range) -> Fault
    requires { i ≤ limits.sheet }
    ensures { result ≡ number_fault line.now i r }
{
    Fault::Outside(columns_of(i), number_at(line, i), r)
}

fn out_fault(h: Head, done: u32, line: &[u8]) -> Fault
    requires { length line.now ≤ limits.sheet }
    ensures { result ≡ out_fault h done line.now }
{
    let i = first_out(h, done, line);
    number_fault(line, i, field_range(h, done, line, i))
}

// ---- 6

// The count of a constraint line: k of code 6, 0 of every other.
fn count_from(line: &[u8], code: u32) -> u32
    requires { code ≡ value_at line.now 1 }
    ensures { result ≡ count_from line.now }
{
    if code == 6 {
        return sheet::value(line, 2);
    }
    0
}

fn constraint_count(line: &[u8]) -> Fault
    requires { length line.now ≤ limits.sheet }
    ensures { result ≡ constraint_count line.now }
{
    let has = (line.len() / 4) as u32;
    if has < 4 {
        return Fault::Count(has, 4, Model::MEMBERS as u32 + 3);
    }
    let code = sheet::value(line, 1);
    if code < 1 {
        return number_fault(line, 1, bounds(Name::Code, 1, 7));
    }
    if 7 < code {
        return number_fault(line, 1, bounds(Name::Code, 1, 7));
    }
    let count = count_from(line, code);
    if !range::code_in_range(code, count) {
        return number_fault(line, 2, bounds(Name::Count, 2, Model::MEMBERS as u32 - 1));
    }
    let must = (sheet::first_group(code) + range::member_count(code, count)) as u32;
    Fault::Count(has, must, must)
}

fn count_fault(h: Head, done: u32, line: &[u8]) -> Fault
    requires { length line.now ≤ limits.sheet }
    ensures { result ≡ count_fault h done line.now }
{
    let has = (line.len() / 4) as u32;
    if done == 0 {
        return Fault::Count(has, 4, 4);
    }
    if done <= h.s {
        return Fault::Marks(has, h.n);
    }
    constraint_count(line)
}

// ---- by the refusal

// The fault of the line after `done` lines, of which the head says h.
pub fn find(h: Head, done: u32, refusal: u32, line: &[u8]) -> Fault
    ensures { result ≡ line_fault h done refusal line.now }
{
    if Model::SHEET_BYTES < line.len() {
        return Fault::Nothing;
    }
    match refusal {
        3 => form_fault(done, line, Fault::Width(line.len() as u32)),
        4 => form_fault(done, line, unread_fault(line)),
        5 => number_fault(line, 0, bounds(Name::Kind, 1, 1)),
        6 => count_fault(h, done, line),
        7 => out_fault(h, done, line),
        8 => number_fault(line, 1, bounds(Name::NextGroup, done, done)),
        _ => Fault::Nothing,
    }
}
