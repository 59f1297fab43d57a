// A solver's answer as text: the groups of a draw, a line for each, and the values of the variables; and an assignment as a solver would say it.
#![tactic(auto)]

ghost use Rattle.std.specs.Prelude.{◌≡◌, ◌+◌, ◌*◌, ◌≤◌, ◌<◌, min, length};
ghost use Rattle.std.specs.List.{flat_map};
ghost use Rattle.model.specs.Lists.{range};
ghost use Rattle.model.specs.Assignment.{is_said};
ghost use Rattle.model.specs.Limits.{limits};
ghost use Rattle.model.specs.Text.{written_refusal, written_length};
ghost use Rattle.text.specs.Put.{Wrote, placed};
ghost use Rattle.answer.specs.Values.{fitted, value_text, said_text, values_text, unsaid_count, written_text, text_refusal, text_length, text_buffer};
ghost use Rattle.answer.specs.Assignment.{word_text, column_after, assignment_text};
ghost use Rattle.answer.specs.Groups.{entrant_text, entrants_text, group_text, group_at, groups_text, written_groups, groups_refusal, groups_length};

use model::{Model, Written};

// ---- a text is written to a local array first, which measures it

// An array of zeros, of which only the length is told: the list is too long for the prover to look at.
fn space<const N: usize>() -> [u8; N]
    ensures { length result ≡ N }
{
    [0; N]
}

// The text, at the start of buf; 24 where buf is shorter, and then no byte changes.
fn copy_out(bytes: &[u8], buf: &mut [u8]) -> Written
    ensures value { result ≡ fitted bytes.now (length buf.old) }
    ensures buf_after { buf.new ≡ placed bytes.now 0 buf.old }
{
    if buf.len() < bytes.len() {
        return Written::Refused(24);
    }
    text::put_bytes(buf, 0, bytes);
    Written::Bytes(bytes.len())
}

// ---- groups

// The most bytes of all lines: each has a number of up to three digits, a colon, 64 entrants of up to three bytes, and a newline.
const GROUPS_MOST: usize = Model::GROUPS * (3 * Model::WORD as usize + 5);

// Entrant e + 1 after one blank, where it is in w.
fn put_entrant(buf: &mut [u8], at: usize, w: u64, e: u32) -> usize
    requires e_lt_word { e < limits.word }
    requires e_in_bounds { at + length (entrant_text w e) ≤ length buf.old }
    ensures { Wrote (entrant_text w e) at buf.old buf.new result }
{
    if (w >> e) % 2 == 1 {
        let n = text::put_bytes(buf, at, b" ");
        return text::put_number(buf, n, e + 1);
    }
    at
}

fn put_entrants(buf: &mut [u8], at: usize, w: u64) -> usize
    requires { at + length (entrants_text w) ≤ length buf.old }
    ensures { Wrote (entrants_text w) at buf.old buf.new result }
{
    let mut n = at;
    for e in 0..Model::WORD {
        n = put_entrant(buf, n, w, e);
    }
    n
}

// `1: 3 7 9`: the group's number, then each entrant.
fn put_group(buf: &mut [u8], at: usize, number: u32, w: u64) -> usize
    requires { at + length (group_text number w) ≤ length buf.old }
    ensures { Wrote (group_text number w) at buf.old buf.new result }
{
    let a = text::put_number(buf, at, number);
    let b = text::put_bytes(buf, a, b":");
    let c = put_entrants(buf, b, w);
    text::put_bytes(buf, c, b"\n")
}

// The first k groups.
fn put_groups(buf: &mut [u8], words: &[u64; Model::GROUPS], k: usize) -> usize
    requires k_le_groups { k ≤ limits.groups }
    requires k_in_bounds { length (flat_map (group_at words.now) (range 0 k)) ≤ length buf.old }
    ensures { Wrote (flat_map (group_at words.now) (range 0 k)) 0 buf.old buf.new result }
{
    let mut n: usize = 0;
    for i in 0..k {
        n = put_group(buf, n, i as u32 + 1, words[i]);
    }
    n
}

// The lines of groups 1..s, or of all where there are no more; 24 where the buffer is shorter than their text, and then no byte changes.
pub fn write_groups(words: [u64; Model::GROUPS], s: u32, buf: &mut [u8]) -> Written
    ensures value { result ≡ written_groups words s (length buf.old) }
    ensures buf_after { buf.new ≡ placed (groups_text words s) 0 buf.old }
    ensures result_value { (written_refusal result ≡ groups_refusal words s (length buf.old)) × (written_length result ≡ groups_length words s (length buf.old)) }
{
    let mut all = space::<GROUPS_MOST>();
    let n = put_groups(&mut all, &words, (s as usize).min(Model::GROUPS));
    copy_out(&all[..n], buf)
}

// ---- values

// The most bytes of the text: each value has a space, a minus sign and up to five digits.
const VALUES_MOST: usize = 7 * Model::VARIABLES + 2;

// Variable v after one blank, where it is said.
fn put_value(buf: &mut [u8], at: usize, x: u8, v: u32) -> usize
    requires { at + length (value_text x v) ≤ length buf.old }
    ensures { Wrote (value_text x v) at buf.old buf.new result }
{
    match x {
        1 => {
            let n = text::put_bytes(buf, at, b" ");
            text::put_number(buf, n, v)
        }
        2 => {
            let n = text::put_bytes(buf, at, b" -");
            text::put_number(buf, n, v)
        }
        _ => at,
    }
}

fn put_values(buf: &mut [u8], at: usize, values: &[u8]) -> usize
    requires values_len_bound { length values.now ≤ limits.variables }
    requires values_in_bounds { at + length (said_text values.now) ≤ length buf.old }
    ensures { Wrote (said_text values.now) at buf.old buf.new result }
{
    let mut n = at;
    for (i, x) in values.iter().enumerate() {
        n = put_value(buf, n, *x, i as u32 + 1);
    }
    n
}

// `v 1 -2 3`
fn put_line(buf: &mut [u8], values: &[u8]) -> usize
    requires values_len_bound { length values.now ≤ limits.variables }
    requires values_in_bounds { length (values_text values.now) ≤ length buf.old }
    ensures { Wrote (values_text values.now) 0 buf.old buf.new result }
{
    let a = text::put_bytes(buf, 0, b"v");
    let b = put_values(buf, a, values);
    text::put_bytes(buf, b, b"\n")
}

// The line of the values that are said; 26 of more values than a listing has variables, 24 where the buffer is shorter than the text, and then no byte changes.
pub fn write_values(values: &[u8], buf: &mut [u8]) -> Written
    ensures value { result ≡ written_text values.now (values_text values.now) (length buf.old) }
    ensures buf_after { buf.new ≡ text_buffer values.now (values_text values.now) buf.old }
    ensures result_value { (written_refusal result ≡ text_refusal values.now (values_text values.now) (length buf.old)) × (written_length result ≡ text_length values.now (values_text values.now) (length buf.old)) }
{
    if Model::VARIABLES < values.len() {
        return Written::Refused(26);
    }
    let mut all = space::<VALUES_MOST>();
    let n = put_line(&mut all, values);
    copy_out(&all[..n], buf)
}

#[tactic(auto, unfolding(model::specs::Assignment::is_said))]
fn is_said(x: u8) -> bool
    ensures { result ≡ is_said x }
{
    1 <= x && x <= 2
}

// How many variables no line said.
#[tactic(auto, unfolding(crate::specs::Values::unsaid_count))]
pub fn unsaid(values: &[u8]) -> usize
    ensures { result ≡ unsaid_count values.now }
{
    values.iter().filter(|x| !is_said(**x)).count()
}

// ---- an assignment, on `v` lines

// The most columns of a line.
const COLUMNS: usize = 78;

// The most bytes of a value's word: a space, a minus sign and up to five digits.
const WORD_MOST: usize = 7;

// The most bytes of the text: each word, and the newline and `v` that it may begin with; the closing 0, the first `v` and the last newline.
const ASSIGNMENT_MOST: usize = 9 * Model::VARIABLES + 6;

// Where the next word goes: its place, and how many columns of the line are taken.
#[derive(Clone, Copy)]
struct Pen {
    at: usize,
    column: usize,
}

// A word, on a new line where this one has no room for it.
fn put_word(buf: &mut [u8], pen: Pen, word: &[u8]) -> Pen
    requires word_bound { pen.column + length word.now ≤ 100 }
    requires word_in_bounds { pen.at + length (word_text pen.column word.now) ≤ length buf.old }
    ensures wrote { Wrote (word_text pen.column word.now) pen.at buf.old buf.new result.at }
    ensures column_value { result.column ≡ column_after pen.column word.now }
{
    if pen.column + word.len() <= COLUMNS {
        let a = text::put_bytes(buf, pen.at, word);
        return Pen {
            at: a,
            column: pen.column + word.len(),
        };
    }
    let b = text::put_bytes(buf, pen.at, b"\nv");
    let c = text::put_bytes(buf, b, word);
    Pen {
        at: c,
        column: 1 + word.len(),
    }
}

// The word of a value, which a local array measures.
fn put_value_word(buf: &mut [u8], pen: Pen, x: u8, v: u32) -> Pen
    requires v_le_variables { (v ≤ limits.variables) × (pen.column ≤ 78) }
    requires v_in_bounds { pen.at + length (word_text pen.column (value_text x v)) ≤ length buf.old }
    ensures wrote { Wrote (word_text pen.column (value_text x v)) pen.at buf.old buf.new result.at }
    ensures column_value { result.column ≡ column_after pen.column (value_text x v) }
{
    let mut word = [0; WORD_MOST];
    let n = put_value(&mut word, 0, x, v);
    put_word(buf, pen, &word[..n])
}

fn put_assignment(buf: &mut [u8], values: &[u8]) -> usize
    requires values_len_bound { length values.now ≤ limits.variables }
    requires values_in_bounds { length (assignment_text values.now) ≤ length buf.old }
    ensures { Wrote (assignment_text values.now) 0 buf.old buf.new result }
{
    let start = text::put_bytes(buf, 0, b"v");
    let mut pen = Pen {
        at: start,
        column: 1,
    };
    for (i, x) in values.iter().enumerate() {
        pen = put_value_word(buf, pen, *x, i as u32 + 1);
    }
    let last = put_word(buf, pen, b" 0");
    text::put_bytes(buf, last.at, b"\n")
}

// The values on `v` lines with a closing 0; 26 of more values than a listing has variables, 24 where the buffer is shorter than the text, and then no byte changes.
pub fn write_assignment(values: &[u8], buf: &mut [u8]) -> Written
    ensures value { result ≡ written_text values.now (assignment_text values.now) (length buf.old) }
    ensures buf_after { buf.new ≡ text_buffer values.now (assignment_text values.now) buf.old }
    ensures result_value { (written_refusal result ≡ text_refusal values.now (assignment_text values.now) (length buf.old)) × (written_length result ≡ text_length values.now (assignment_text values.now) (length buf.old)) }
{
    if Model::VARIABLES < values.len() {
        return Written::Refused(26);
    }
    let mut all = space::<ASSIGNMENT_MOST>();
    let n = put_assignment(&mut all, values);
    copy_out(&all[..n], buf)
}
