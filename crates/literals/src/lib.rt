// The literals of a `v` line: judged one by one, and written where none is refused.
#![tactic(auto)]

ghost use Rattle.std.specs.Prelude.{◌≡◌, [], ◌≤◌, length, take};
ghost use Rattle.model.specs.Assignment.{words_of, is_said, variable, value_for, with_values};
ghost use Rattle.literals.specs.Line.{named, names?, Noted, noted_with, place_of, new_place, refusal_number, refusal_of, literal_refusal, PlacesBelow, put_back, words_refusal, taken_by};

use model::{Literal, Word};

// Why a word is refused: it is no literal, or its variable is above the values' length, or has a value already.
#[derive(Clone, Copy, PartialEq, Eq)]
pub enum Refusal {
    NoLiteral,
    Above,
    Taken,
}

impl Refusal {
    pub fn number(self) -> u32
        ensures { result ≡ refusal_number self }
    {
        match self {
            Refusal::NoLiteral => 10,
            Refusal::Above => 11,
            Refusal::Taken => 12,
        }
    }
}

// Whether a byte says a value.
#[tactic(auto, unfolding(model::specs::Assignment::is_said))]
fn is_said(b: u8) -> bool
    ensures { result ≡ is_said b }
{
    if b < 1 {
        return false;
    }
    b <= 2
}

fn variable_of(l: Literal) -> u32
    ensures { result ≡ variable l }
{
    match l {
        Literal::Pos(v) => v,
        Literal::Neg(v) => v,
    }
}

fn value_for(l: Literal) -> u8
    ensures { result ≡ value_for l }
{
    match l {
        Literal::Pos(_) => 1,
        Literal::Neg(_) => 2,
    }
}

// The place of variable v in the values.
fn place_of(v: u32, values: &[u8]) -> Result<usize, Refusal>
    requires { 1 ≤ v }
    ensures value { result ≡ place_of v values.now }
    ensures result_value { refusal_of result ≡ literal_refusal v [] values.now }
{
    if values.len() < v as usize {
        return Err(Refusal::Above);
    }
    let i = (v - 1) as usize;
    if is_said(values[i]) {
        return Err(Refusal::Taken);
    }
    Ok(i)
}

// Writes the literals of the first m words of s. They were judged: each word is a literal, and the else is never reached.
fn write_literals(s: &[u8], m: usize, values: &mut [u8])
    requires { words_refusal (take m (words_of s.now)) values.old ≡ 0 }
    ensures { values.new ≡ with_values (named (take m (words_of s.now))) values.old }
{
    let n = s.len();
    let mut at: usize = 0;
    let mut count: usize = 0;
    while count < m {
        let rest = &s[at..];
        let k = line_form::word_length(rest);
        let Word::Names(l) = line_form::word_value(&rest[..k]) else {
            return;
        };
        let i = (variable_of(l) - 1) as usize;
        values[i] = value_for(l);
        count += 1;
        if at + k == n {
            return;
        }
        at = at + k + 1;
    }
}

// Variables up to this one are noted as bits, so that a line that names them all is judged in linear time.
const NOTED: usize = 65536;

// The words that hold the bits.
const WORDS: usize = 1024;

// Whether one of the first `count` literals of the words of s names v.
fn named_before(s: &[u8], count: usize, v: u32) -> bool
    ensures { result ≡ names? v (take count (named (words_of s.now))) }
{
    let n = s.len();
    let mut at: usize = 0;
    let mut i: usize = 0;
    while i < count {
        let rest = &s[at..];
        let k = line_form::word_length(rest);
        let Word::Names(l) = line_form::word_value(&rest[..k]) else {
            return false;
        };
        if variable_of(l) == v {
            return true;
        }
        if at + k == n {
            return false;
        }
        at = at + k + 1;
        i += 1;
    }
    false
}

// The same, by the flags where they reach.
fn is_seen(flags: &[u64; WORDS], s: &[u8], count: usize, v: u32) -> bool
    requires noted { Noted flags.now (take count (named (words_of s.now))) }
    requires le_v { 1 ≤ v }
    ensures { result ≡ names? v (take count (named (words_of s.now))) }
{
    let i = (v - 1) as usize;
    if i < NOTED {
        return (flags[i / 64] >> (i % 64)) % 2 == 1;
    }
    named_before(s, count, v)
}

// Notes variable v.
fn note(flags: &mut [u64; WORDS], v: u32)
    requires { 1 ≤ v }
    ensures { flags.new ≡ noted_with v flags.old }
{
    let i = (v - 1) as usize;
    if i < NOTED {
        let w = flags[i / 64];
        flags[i / 64] = w | 1 << (i % 64);
    }
}

// The place of variable v in the values, where a line has named `count` literals before it.
fn new_place(
    flags: &[u64; WORDS],
    s: &[u8],
    count: usize,
    v: u32,
    values: &[u8],
) -> Result<usize, Refusal>
    requires noted { Noted flags.now (take count (named (words_of s.now))) }
    requires le_v { 1 ≤ v }
    ensures value { result ≡ new_place (take count (named (words_of s.now))) v values.now }
    ensures result_value { refusal_of result ≡ literal_refusal v (take count (named (words_of s.now))) values.now }
{
    let i = place_of(v, values)?;
    if is_seen(flags, s, count, v) {
        return Err(Refusal::Taken);
    }
    Ok(i)
}

// Whether one of the first m words of s is refused.
fn judge(s: &[u8], m: usize, values: &[u8]) -> Result<(), Refusal>
    ensures { refusal_of result ≡ words_refusal (take m (words_of s.now)) values.now }
{
    let n = s.len();
    let mut flags = [0u64; WORDS];
    let mut at: usize = 0;
    let mut count: usize = 0;
    while count < m {
        let rest = &s[at..];
        let k = line_form::word_length(rest);
        let Word::Names(l) = line_form::word_value(&rest[..k]) else {
            return Err(Refusal::NoLiteral);
        };
        let v = variable_of(l);
        new_place(&flags, s, count, v, values)?;
        note(&mut flags, v);
        count += 1;
        if at + k == n {
            return Ok(());
        }
        at = at + k + 1;
    }
    Ok(())
}

// Words of up to this many bytes are judged and written in one pass; the places that it writes, and the bytes that stood there, are kept.
const SHORT: usize = 128;

// They are no more literals than this: each takes a byte, and a space before the next.
const KEPT: usize = 64;

// Puts the first `count` bytes back to their places, the last one first.
fn put_back(places: &[u32; KEPT], bytes: &[u8; KEPT], count: usize, values: &mut [u8])
    requires count_bound { count ≤ 64 }
    requires places_below { PlacesBelow places.now count (length values.old) }
    ensures { values.new ≡ put_back count places.now bytes.now values.old }
{
    for i in (0..count).rev() {
        values[places[i] as usize] = bytes[i];
    }
}

// Whether one of the first m words of s, at most SHORT bytes, is refused. Where none is, their literals are written.
fn take_short(s: &[u8], m: usize, values: &mut [u8]) -> Result<(), Refusal>
    requires { length s.now ≤ 128 }
    ensures value { refusal_of result ≡ words_refusal (take m (words_of s.now)) values.old }
    ensures values_after { values.new ≡ taken_by (take m (words_of s.now)) values.old }
{
    let n = s.len();
    let mut places = [0u32; KEPT];
    let mut bytes = [0u8; KEPT];
    let mut at: usize = 0;
    let mut count: usize = 0;
    while count < m {
        let rest = &s[at..];
        let k = line_form::word_length(rest);
        let Word::Names(l) = line_form::word_value(&rest[..k]) else {
            put_back(&places, &bytes, count, values);
            return Err(Refusal::NoLiteral);
        };
        let v = variable_of(l);
        let p = place_of(v, values);
        let i = match p {
            Ok(i) => i,
            Err(r) => {
                put_back(&places, &bytes, count, values);
                return Err(r);
            }
        };
        places[count] = v - 1;
        bytes[count] = values[i];
        values[i] = value_for(l);
        count += 1;
        if at + k == n {
            return Ok(());
        }
        at = at + k + 1;
    }
    Ok(())
}

// The same of words of any length.
pub fn take_literals(s: &[u8], m: usize, values: &mut [u8]) -> Result<(), Refusal>
    ensures value { refusal_of result ≡ words_refusal (take m (words_of s.now)) values.old }
    ensures values_after { values.new ≡ taken_by (take m (words_of s.now)) values.old }
{
    if s.len() <= SHORT {
        return take_short(s, m, values);
    }
    judge(s, m, values)?;
    write_literals(s, m, values);
    Ok(())
}
