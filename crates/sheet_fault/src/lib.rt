// What is wrong with a sheet that the reader refused, and where.
#![tactic(auto)]

ghost use Rattle.std.specs.Prelude.{◌≡◌, not, ◌&&◌, ◌+◌, ◌-◌, ◌≤◌, min, eqb, length, drop};
ghost use Rattle.model.specs.Limits.{limits};
ghost use Rattle.model.specs.Sheet.{lines_of};
ghost use Rattle.sheet.specs.Line.{line_length};
ghost use Rattle.sheet_fault.specs.Fault.{line_at, head_of, end_fault, kind_due, sheet_fault};

use line_fault::{Fault, Head};
use model::Model;

// Where the line after the one at `at` begins; the sheet's end where none does.
fn next_line(sheet: &[u8], at: usize) -> usize
    requires { at ≤ length sheet.now }
    ensures { result ≡ min (at + line_length (drop at sheet.now) + 1) (length sheet.now) }
{
    let end = at + sheet::line_length(&sheet[at..]);
    if end < sheet.len() {
        return end + 1;
    }
    sheet.len()
}

// The line after `done` lines; empty where the sheet has none.
fn line_at(sheet: &[u8], done: u32) -> &[u8]
    ensures { result.now ≡ line_at sheet.now done }
{
    let mut at: usize = 0;
    for _line in 0..done {
        at = next_line(sheet, at);
    }
    let rest = &sheet[at..];
    let n = sheet::line_length(rest);
    &rest[..n]
}

// How many lines the sheet has.
fn line_count(sheet: &[u8]) -> u32
    requires { length sheet.now ≤ limits.sheet }
    ensures { result ≡ length (lines_of sheet.now) }
{
    let mut count: u32 = 0;
    let mut at: usize = 0;
    while at < sheet.len() {
        at = next_line(sheet, at);
        count += 1;
    }
    count
}

// What a head says; zeros where it is refused.
fn head_of(line: &[u8]) -> Head
    ensures { (result ≡ head_of line.now) × (result.s ≤ limits.groups) × (result.c ≤ limits.constraints) }
{
    if sheet::head_refusal(line).is_err() {
        return Head { n: 0, s: 0, c: 0 };
    }
    Head {
        n: sheet::value(line, 1),
        s: sheet::value(line, 2),
        c: sheet::value(line, 3),
    }
}

fn end_fault(sheet: &[u8]) -> Fault
    requires { length sheet.now ≤ limits.sheet }
    ensures { result ≡ end_fault sheet.now }
{
    if sheet.len() == 0 {
        return Fault::Empty;
    }
    Fault::Unended(line_count(sheet))
}

// Whether the number of lines is at fault: the head is good, and another kind of line belongs here.
fn is_of_lines(refusal: u32, groups: u32) -> bool
    ensures { result ≡ (eqb refusal 5 && not (eqb groups 0)) }
{
    if refusal != 5 {
        return false;
    }
    groups != 0
}

// The kind of line that is due after `done` lines; 0 where none is.
fn kind_due(h: Head, done: u32) -> u32
    requires { (h.s ≤ limits.groups) × (h.c ≤ limits.constraints) }
    ensures { result ≡ kind_due h done }
{
    if done <= h.s {
        return 2;
    }
    if done <= h.s + h.c {
        return 3;
    }
    0
}

// The fault of a sheet that the reader refused, with its refusal and line.
pub fn find(sheet: &[u8], refusal: u32, line: u32) -> Fault
    ensures { result ≡ sheet_fault sheet.now refusal line }
{
    if Model::SHEET_BYTES < sheet.len() {
        return Fault::Nothing;
    }
    if refusal == 2 {
        return end_fault(sheet);
    }
    let h = head_of(line_at(sheet, 0));
    let done = line.saturating_sub(1);
    if is_of_lines(refusal, h.s) {
        return Fault::Lines(h, h.s + h.c + 1, line_count(sheet), kind_due(h, done));
    }
    line_fault::find(h, done, refusal, line_at(sheet, done))
}
