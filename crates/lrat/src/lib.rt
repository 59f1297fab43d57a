// A certificate's lines, read in pieces of any size: `ID LITERAL .. 0 HINT .. 0` and `ID d ID .. 0`. Each number is a step of the refutation.
#![tactic(auto)]

ghost use Rattle.std.specs.Prelude.{◌≡◌, ℕ, ◌<◌, ◌≤◌, Bool, List, length};
ghost use Rattle.refutation.specs.Sound.{Holds, Keeps};
ghost use Rattle.lrat.specs.First.{first_reader};

use refutation::{Reason, State};

// What the next number is.
#[derive(Clone, Copy, PartialEq, Eq)]
pub enum Phase {
    // a clause's number
    Number,
    // a literal, unless a `d` comes
    Numbered,
    Literal,
    Hint,
    // after `d`, nothing before a blank
    LetterD,
    // a clause to forget
    Forgotten,
    // none
    End,
    // none, by a number that has no name
    Other(u32),
}

#[derive(Clone, Copy)]
pub struct Reader {
    pub state: State,
    // the line that is read, from 1 on
    pub line: u32,
    pub phase: Phase,
    // the number begun
    pub value: u32,
    pub digits: bool,
    pub minus: bool,
}

impl Reader {
    // the largest number
    const LARGEST: u32 = 400000000;
}

// The first line of a certificate; line 0, where the state is refused before it.
pub fn first_line(state: State) -> Reader
    ensures { (result.state ≡ state) × (result ≡ first_reader state) }
{
    let line = if state.refusal.is_none() { 1 } else { 0 };
    Reader {
        state,
        line,
        phase: Phase::Number,
        value: 0,
        digits: false,
        minus: false,
    }
}

// The next number is begun.
fn after(r: Reader, state: State, phase: Phase) -> Reader
    ensures { result.state ≡ state }
{
    Reader {
        state,
        phase,
        value: 0,
        digits: false,
        minus: false,
        ..r
    }
}

fn refused(r: Reader, why: Reason) -> Reader
    ensures { (a : List Bool) (store index marks : List ℕ) → Holds a r.state store index marks → Holds a result.state store index marks }
{
    let s = r.state;
    after(r, refutation::refuse(s, why), Phase::End)
}

// ---- a number, by what it is

// The number of a clause: a line begins.
fn numbered(r: Reader, store: &mut [u32], index: &mut [u32], marks: &[u32]) -> Reader
    ensures { Keeps r.state store.old index.old marks.now result.state store.new index.new marks.now }
{
    let s = r.state;
    let t = compaction::compact(s, store, index, marks);
    after(r, State { id: r.value, ..t }, Phase::Numbered)
}

fn literal(r: Reader, store: &mut [u32], index: &[u32], marks: &mut [u32]) -> Reader
    requires { r.value ≤ 400000000 }
    ensures { Keeps r.state store.old index.now marks.old result.state store.new index.now marks.new }
{
    let s = r.state;
    let v = r.value;
    if r.minus {
        if v == 0 {
            return refused(r, Reason::Format);
        }
        return after(
            r,
            refutation::put(s, store, index, marks, 2 * v + 1),
            Phase::Literal,
        );
    }
    if v == 0 {
        return after(r, s, Phase::Hint);
    }
    after(
        r,
        refutation::put(s, store, index, marks, 2 * v),
        Phase::Literal,
    )
}

fn hinted(r: Reader, store: &mut [u32], index: &mut [u32], marks: &mut [u32]) -> Reader
    ensures { Keeps r.state store.old index.old marks.old result.state store.new index.new marks.new }
{
    let s = r.state;
    let v = r.value;
    if v == 0 {
        return after(r, refutation::commit(s, store, index, marks), Phase::End);
    }
    after(r, refutation::hint(s, store, index, marks, v), Phase::Hint)
}

fn forgotten(r: Reader, store: &[u32], index: &mut [u32], marks: &[u32]) -> Reader
    ensures { Keeps r.state store.now index.old marks.now result.state store.now index.new marks.now }
{
    let s = r.state;
    let v = r.value;
    if v == 0 {
        return after(r, s, Phase::End);
    }
    after(
        r,
        refutation::forget(s, store, index, marks, v),
        Phase::Forgotten,
    )
}

// A number read whole.
fn number(r: Reader, store: &mut [u32], index: &mut [u32], marks: &mut [u32]) -> Reader
    ensures { Keeps r.state store.old index.old marks.old result.state store.new index.new marks.new }
{
    if Reader::LARGEST < r.value {
        return refused(r, Reason::ValueTooLarge);
    }
    match r.phase {
        Phase::Number => numbered(r, store, index, marks),
        Phase::Numbered | Phase::Literal => literal(r, store, index, marks),
        Phase::Hint => hinted(r, store, index, marks),
        Phase::Forgotten => forgotten(r, store, index, marks),
        Phase::LetterD | Phase::End | Phase::Other(_) => refused(r, Reason::Format),
    }
}

// ---- bytes that are no digits

// The number begun, if one is, ends.
fn ended(r: Reader, store: &mut [u32], index: &mut [u32], marks: &mut [u32]) -> Reader
    ensures { Keeps r.state store.old index.old marks.old result.state store.new index.new marks.new }
{
    if r.digits {
        return number(r, store, index, marks);
    }
    if r.minus {
        return refused(r, Reason::Format);
    }
    if r.phase == Phase::LetterD {
        let s = r.state;
        return after(r, s, Phase::Forgotten);
    }
    r
}

// Byte 10: the next line, where this one is whole.
fn next_line(r: Reader) -> Reader
    ensures { (a : List Bool) (store index marks : List ℕ) → Holds a r.state store index marks → Holds a result.state store index marks }
{
    let s = r.state;
    if s.refusal.is_some() {
        return r;
    }
    if r.phase != Phase::End {
        return refused(r, Reason::Format);
    }
    Reader {
        line: r.line.wrapping_add(1),
        ..after(r, s, Phase::Number)
    }
}

// A minus sign before a literal, or the letter that says what follows are clauses to forget.
fn sign(r: Reader, b: u8) -> Reader
    ensures { (a : List Bool) (store index marks : List ℕ) → Holds a r.state store index marks → Holds a result.state store index marks }
{
    if r.digits | r.minus {
        return refused(r, Reason::Format);
    }
    match (b, r.phase) {
        (b'-', Phase::Hint) => refused(r, Reason::NegativeHint),
        (b'-', Phase::Numbered | Phase::Literal) => { Reader { minus: true, ..r } }
        (b'd', Phase::Numbered) => {
            let s = r.state;
            after(r, s, Phase::LetterD)
        }
        _ => refused(r, Reason::Format),
    }
}

fn mark(r: Reader, b: u8, store: &mut [u32], index: &mut [u32], marks: &mut [u32]) -> Reader
    ensures { Keeps r.state store.old index.old marks.old result.state store.new index.new marks.new }
{
    if b == b' ' {
        return ended(r, store, index, marks);
    }
    if b == b'\n' {
        let q = ended(r, store, index, marks);
        return next_line(q);
    }
    sign(r, b)
}

// ---- pieces

// The digits from place `from` on, put behind the value begun, and the place after them. One past the largest number stays so.
fn digits(text: &[u8], from: usize, value: u32) -> (u32, usize)
    requires { from ≤ length text.now }
    ensures { (from ≤ result.1) × (result.1 ≤ length text.now) }
{
    let mut v = value;
    for i in from..text.len() {
        if !text[i].is_ascii_digit() {
            return (v, i);
        }
        v = appended(v, text[i]);
    }
    (v, text.len())
}

fn appended(v: u32, b: u8) -> u32
    requires { (48 ≤ b) × (b ≤ 57) }
{
    if Reader::LARGEST < v {
        return v;
    }
    v * 10 + u32::from(b - b'0')
}

// The reader after a part of the text, and the place after that part.
#[derive(Clone, Copy)]
struct Progress {
    reader: Reader,
    next: usize,
}

// The digits at place i, or the one byte that is no digit.
fn step(
    r: Reader,
    text: &[u8],
    i: usize,
    store: &mut [u32],
    index: &mut [u32],
    marks: &mut [u32],
) -> Progress
    requires { i < length text.now }
    ensures keeps { Keeps r.state store.old index.old marks.old result.reader.state store.new index.new marks.new }
    ensures i_lt_next { (i < result.next) × (result.next ≤ length text.now) }
{
    let (value, next) = digits(text, i, r.value);
    if i < next {
        let reader = Reader {
            value,
            digits: true,
            ..r
        };
        return Progress { reader, next };
    }
    let q = mark(r, text[i], store, index, marks);
    Progress {
        reader: q,
        next: i + 1,
    }
}

// The next bytes of a certificate, up to a refusal or the empty clause.
pub fn feed(
    r: Reader,
    text: &[u8],
    store: &mut [u32],
    index: &mut [u32],
    marks: &mut [u32],
) -> Reader
    ensures { Keeps r.state store.old index.old marks.old result.state store.new index.new marks.new }
{
    let mut q = r;
    let mut i: usize = 0;
    while i < text.len() {
        if q.state.refusal.is_some() {
            return q;
        }
        if q.state.refuted {
            return q;
        }
        let s = step(q, text, i, store, index, marks);
        q = s.reader;
        i = s.next;
    }
    q
}
