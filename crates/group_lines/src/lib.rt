// The groups of a draw from text, as it is printed: a line for each group in order, `1: 3 7 9`.
#![tactic(auto)]

ghost use Rattle.std.specs.Prelude.{◌≡◌, ◌+◌, ◌≤◌, min, length, drop};
ghost use Rattle.model.specs.Limits.{limits};
ghost use Rattle.group_lines.specs.Lines.{fault_number, fault_about, number_in, group_in, entrants_line, line_read, groups_read};
ghost use Rattle.group_lines.specs.Words.{after_space};

use model::Model;

// What is wrong with a line, and the group or the entrant that it is about.
#[derive(Clone, Copy, PartialEq, Eq)]
pub enum Fault {
    BadForm,
    NoSuchGroup(u32),
    GroupTwice(u32),
    // the group that is due
    GroupMissing(u32),
    Outside(u32),
    EntrantTwice(u32),
}

impl Fault {
    // Its number, from 1 on, by which it is told.
    pub fn number(self) -> u32
        ensures { result ≡ fault_number self }
    {
        match self {
            Fault::BadForm => 1,
            Fault::NoSuchGroup(_) => 2,
            Fault::GroupTwice(_) => 3,
            Fault::GroupMissing(_) => 4,
            Fault::Outside(_) => 5,
            Fault::EntrantTwice(_) => 6,
        }
    }

    // The number of the group or entrant that it is about; 0 of a bad form.
    pub fn about(self) -> u32
        ensures { result ≡ fault_about self }
    {
        match self {
            Fault::BadForm => 0,
            Fault::NoSuchGroup(k) => k,
            Fault::GroupTwice(k) => k,
            Fault::GroupMissing(k) => k,
            Fault::Outside(k) => k,
            Fault::EntrantTwice(k) => k,
        }
    }
}

// The first line that is wrong, from 1 on.
#[derive(Clone, Copy, PartialEq, Eq)]
pub struct WrongLine {
    pub fault: Fault,
    pub line: u32,
}

// ---- a line

// The number that a word is; 0 where it is none.
fn number_in(w: &[u8]) -> u32
    ensures { result ≡ number_in w.now }
{
    line_form::variable_in(w).unwrap_or(0)
}

// The number before a word's colon; 0 where it is none.
fn group_in(w: &[u8]) -> u32
    ensures { result ≡ group_in w.now }
{
    let n = w.len();
    if n == 0 {
        return 0;
    }
    if w[n - 1] != 58 {
        return 0;
    }
    number_in(&w[..n - 1])
}

// The entrants of a line, each after a space, from place `start` on.
fn read_entrants(line: &[u8], start: usize, n: u32) -> Result<u64, Fault>
    requires { (start ≤ length line.now) × (n ≤ limits.word) }
    ensures { result ≡ entrants_line n 0 (after_space (drop start line.now)) }
{
    let mut word: u64 = 0;
    let mut at = start;
    while at < line.len() {
        let rest = &line[at + 1..];
        let k = line_form::word_length(rest);
        let e = number_in(&rest[..k]);
        if e == 0 {
            return Err(Fault::BadForm);
        }
        if n < e {
            return Err(Fault::Outside(e));
        }
        if (word >> (e - 1)) % 2 == 1 {
            return Err(Fault::EntrantTwice(e));
        }
        word = word | 1 << (e - 1);
        at = at + 1 + k;
    }
    Ok(word)
}

// A line where group `next` is due.
fn read_line(line: &[u8], n: u32, s: u32, next: u32) -> Result<u64, Fault>
    requires { n ≤ limits.word }
    ensures { result ≡ line_read n s next line.now }
{
    let k = line_form::word_length(line);
    let g = group_in(&line[..k]);
    if g == 0 {
        return Err(Fault::BadForm);
    }
    if s < g {
        return Err(Fault::NoSuchGroup(g));
    }
    if g < next {
        return Err(Fault::GroupTwice(g));
    }
    if next < g {
        return Err(Fault::GroupMissing(next));
    }
    read_entrants(line, k, n)
}

// ---- all lines

// Where the next line begins, after one that ends at `end`; the last may lack its newline.
fn next_line(text: &[u8], end: usize) -> usize
    ensures { result ≡ min (end + 1) (length text.now) }
{
    if end < text.len() {
        return end + 1;
    }
    text.len()
}

// The groups of a draw of n entrants in s groups, a word for each; or the first line that is wrong.
pub fn read_groups(text: &[u8], n: u32, s: u32) -> Result<[u64; Model::GROUPS], WrongLine>
    ensures { result ≡ groups_read text.now n s }
{
    let entrants = n.min(Model::WORD);
    let count = s.min(Model::GROUPS as u32);
    let mut groups: [u64; Model::GROUPS] = [0; Model::GROUPS];
    let mut done: u32 = 0;
    let mut at: usize = 0;
    while at < text.len() {
        let rest = &text[at..];
        let len = sheet::line_length(rest);
        let line = done + 1;
        match read_line(&rest[..len], entrants, count, line) {
            Ok(word) => groups[done as usize] = word,
            Err(fault) => return Err(WrongLine { fault, line }),
        }
        done = line;
        at = next_line(text, at + len);
    }
    if done < count {
        let next = done + 1;
        return Err(WrongLine {
            fault: Fault::GroupMissing(next),
            line: next,
        });
    }
    Ok(groups)
}
