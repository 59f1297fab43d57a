// Numbers, terms, fields and clauses of three terms as text in a buffer of the caller's. Each public writer is total: where there is no room nothing changes, and the answer
// is the place that it was given.
#![tactic(auto)]

ghost use Rattle.std.specs.Prelude.{◌≡◌, [], ◌∷◌, ◌++◌, ◌+◌, ◌%◌, ◌≤◌, ◌<◌, leb, length, replicate};
ghost use Rattle.std.specs.List.{list_any, flat_map};
ghost use Rattle.model.specs.Text.{decimal, literal_text, field_text};
ghost use Rattle.model.specs.Totalizer.{holds};
ghost use Rattle.text.specs.Put.{Wrote, placed, place_after, last_four, term_text, kept_text};

use model::{Literal, Term};

// ---- numbers

// The most digits of a number.
const DIGITS: usize = 10;

// How many digits v has.
pub fn number_length(v: u32) -> usize
    ensures value { result ≡ length (decimal v) }
    ensures upper_bound { result ≤ 10 }
{
    let mut k: usize = 1;
    let mut x = v;
    while 10 <= x {
        x = x / 10;
        k += 1;
    }
    k
}

// Whether a text of `size` bytes at `at` ends within `len` bytes.
pub fn ends_within(size: usize, at: usize, len: usize) -> bool
    ensures { result ≡ leb (at + size) len }
{
    at.checked_add(size).is_some_and(|end| end <= len)
}

// The last digit of v, as a byte.
fn digit(v: u32) -> u8
    ensures { result ≡ 48 + v % 10 }
{
    b'0' + (v % 10) as u8
}

// The decimal text of v below 1,000.
fn write_small(buf: &mut [u8], at: usize, v: u32) -> usize
    requires v_bound { v < 1000 }
    requires v_in_bounds { at + length (decimal v) ≤ length buf.old }
    ensures { Wrote (decimal v) at buf.old buf.new result }
{
    if v < 10 {
        buf[at] = digit(v);
        return at + 1;
    }
    let tens = v / 10;
    if tens < 10 {
        buf[at] = digit(tens);
        buf[at + 1] = digit(v);
        return at + 2;
    }
    buf[at] = digit(tens / 10);
    buf[at + 1] = digit(tens);
    buf[at + 2] = digit(v);
    at + 3
}

// The four digits of v below 10,000, as the bytes of a word: v / 100 and v % 100 side by side, then the tens of both, then four times 48 added.
// v * 5243 / 524288 is v / 100 there, and 103 / 1024 a tenth below 100: one multiplication each.
fn write_four(buf: &mut [u8], at: usize, v: u32) -> usize
    requires v_bound { v < 10000 }
    requires at_in_bounds { at + 4 ≤ length buf.old }
    ensures { Wrote (last_four v) at buf.old buf.new result }
{
    let high = v * 5243 / 524288;
    let pairs = v * 65536 - high * 6553599;
    let x = pairs * 103 / 1024;
    let tens = x % 16 + x / 65536 % 16 * 65536;
    let w = pairs * 256 - tens * 2559 + 808464432;
    buf[at..at + 4].copy_from_slice(&w.to_le_bytes());
    at + 4
}

// The decimal text of v below 10,000,000.
fn write_middle(buf: &mut [u8], at: usize, v: u32) -> usize
    requires v_bound { v < 10000000 }
    requires v_in_bounds { at + length (decimal v) ≤ length buf.old }
    ensures { Wrote (decimal v) at buf.old buf.new result }
{
    if v < 1000 {
        return write_small(buf, at, v);
    }
    if v < 10000 {
        return write_four(buf, at, v);
    }
    let n = write_small(buf, at, v / 10000);
    write_four(buf, n, v % 10000)
}

// The decimal text of v. Most are variables, of at most five digits.
fn write_number(buf: &mut [u8], at: usize, v: u32) -> usize
    requires { at + length (decimal v) ≤ length buf.old }
    ensures { Wrote (decimal v) at buf.old buf.new result }
{
    if v < 1000 {
        return write_small(buf, at, v);
    }
    if v < 10000 {
        return write_four(buf, at, v);
    }
    let n = write_middle(buf, at, v / 10000);
    write_four(buf, n, v % 10000)
}

// Whether v's digits at `at` end within `len` bytes. They are counted only where ten would not.
fn number_fits(v: u32, at: usize, len: usize) -> bool
    ensures { result ≡ leb (at + length (decimal v)) len }
{
    ends_within(DIGITS, at, len) || ends_within(number_length(v), at, len)
}

// The decimal text of v, where it fits.
pub fn put_number(buf: &mut [u8], at: usize, v: u32) -> usize
    ensures value { result ≡ place_after (decimal v) at (length buf.old) }
    ensures buf_after { buf.new ≡ placed (decimal v) at buf.old }
{
    if number_fits(v, at, buf.len()) {
        return write_number(buf, at, v);
    }
    at
}

// ---- terms, and literals. A term is taken apart down to its variable where it is read: a literal that is handed on whole is a load that waits for two stores.

pub fn is_true(t: Term) -> bool
    ensures { result ≡ holds t }
{
    match t {
        Term::Holds => true,
        Term::Fails | Term::Open(_) => false,
    }
}

// How many bytes a term's text has: none where it is known.
pub fn term_length(t: Term) -> usize
    ensures { (result ≡ length (term_text t)) × (result ≤ 12) }
{
    match t {
        Term::Holds | Term::Fails => 0,
        Term::Open(Literal::Pos(v)) => number_length(v) + 1,
        Term::Open(Literal::Neg(v)) => number_length(v) + 2,
    }
}

// The decimal text of v and a space.
fn write_variable(buf: &mut [u8], at: usize, v: u32) -> usize
    requires { at + length (decimal v) + 1 ≤ length buf.old }
    ensures { Wrote (decimal v ++ (32 ∷ [])) at buf.old buf.new result }
{
    let n = write_number(buf, at, v);
    buf[n] = b' ';
    n + 1
}

fn write_term(buf: &mut [u8], at: usize, t: Term) -> usize
    requires { at + length (term_text t) ≤ length buf.old }
    ensures { Wrote (term_text t) at buf.old buf.new result }
{
    match t {
        Term::Holds | Term::Fails => at,
        Term::Open(Literal::Pos(v)) => write_variable(buf, at, v),
        Term::Open(Literal::Neg(v)) => {
            buf[at] = b'-';
            write_variable(buf, at + 1, v)
        }
    }
}

// The most bytes of a term: its digits, a minus sign and a space.
const TERM: usize = DIGITS + 2;

// A number has at most ten digits.
fn short_number(v: u32)
    ensures { length (decimal v) ≤ 10 }
{}

// A term has at most twelve bytes.
fn short_term(t: Term)
    ensures { length (term_text t) ≤ 12 }
{
    match t {
        Term::Holds | Term::Fails => {}
        Term::Open(Literal::Pos(v)) => short_number(v),
        Term::Open(Literal::Neg(v)) => short_number(v),
    }
}

// Whether a term at `at` ends within `len` bytes. It is measured only where the longest would not.
fn term_fits(t: Term, at: usize, len: usize) -> bool
    ensures { result ≡ leb (at + length (term_text t)) len }
{
    short_term(t);
    ends_within(TERM, at, len) || ends_within(term_length(t), at, len)
}

// A term, where it fits.
pub fn put_term(buf: &mut [u8], at: usize, t: Term) -> usize
    ensures value { result ≡ place_after (term_text t) at (length buf.old) }
    ensures buf_after { buf.new ≡ placed (term_text t) at buf.old }
{
    if term_fits(t, at, buf.len()) {
        return write_term(buf, at, t);
    }
    at
}

// A literal, where it fits.
pub fn put_literal(buf: &mut [u8], at: usize, l: Literal) -> usize
    ensures value { result ≡ place_after (literal_text l) at (length buf.old) }
    ensures buf_after { buf.new ≡ placed (literal_text l) at buf.old }
{
    put_term(buf, at, Term::Open(l))
}

// ---- bytes and fields

fn write_bytes(buf: &mut [u8], at: usize, bytes: &[u8]) -> usize
    requires { at + length bytes.now ≤ length buf.old }
    ensures { Wrote bytes.now at buf.old buf.new result }
{
    let end = at + bytes.len();
    buf[at..end].copy_from_slice(bytes);
    end
}

// Bytes as they are, where they fit.
pub fn put_bytes(buf: &mut [u8], at: usize, bytes: &[u8]) -> usize
    ensures value { result ≡ place_after bytes.now at (length buf.old) }
    ensures buf_after { buf.new ≡ placed bytes.now at buf.old }
{
    if ends_within(bytes.len(), at, buf.len()) {
        return write_bytes(buf, at, bytes);
    }
    at
}

// k blanks.
fn write_blanks(buf: &mut [u8], at: usize, k: usize) -> usize
    requires { at + k ≤ length buf.old }
    ensures { Wrote (replicate k 32) at buf.old buf.new result }
{
    buf[at..at + k].fill(b' ');
    at + k
}

// The columns of a field.
const COLUMNS: usize = 4;

// A field of four columns; nothing for a number that has more digits.
pub fn put_field(buf: &mut [u8], at: usize, v: u32) -> usize
    ensures value { result ≡ place_after (field_text v) at (length buf.old) }
    ensures buf_after { buf.new ≡ placed (field_text v) at buf.old }
{
    let k = number_length(v);
    if COLUMNS < k {
        return at;
    }
    if ends_within(COLUMNS, at, buf.len()) {
        let n = write_blanks(buf, at, COLUMNS - k);
        return write_number(buf, n, v);
    }
    at
}

// ---- a clause of three terms

// Whether one of three terms is true.
fn one_true(x: Term, y: Term, z: Term) -> bool
    ensures { result ≡ list_any holds (x ∷ y ∷ z ∷ []) }
{
    is_true(x) || is_true(y) || is_true(z)
}

// The most bytes of a clause of three terms.
const SHORT: usize = 38;

// Whether the clause of three terms, none of them true, ends within `len` bytes. It is measured only where the longest would not.
fn three_fits(x: Term, y: Term, z: Term, at: usize, len: usize) -> bool
    ensures { result ≡ leb (at + (length (flat_map term_text (x ∷ y ∷ z ∷ [])) + 2)) len }
{
    short_term(x);
    short_term(y);
    short_term(z);
    ends_within(SHORT, at, len)
        || ends_within(
            term_length(x) + term_length(y) + term_length(z) + 2,
            at,
            len,
        )
}

// The clause of three terms, none of them true, at the start of buf.
fn write_three(buf: &mut [u8], x: Term, y: Term, z: Term) -> usize
    requires { length (flat_map term_text (x ∷ y ∷ z ∷ [])) + 2 ≤ length buf.old }
    ensures { Wrote ((flat_map term_text (x ∷ y ∷ z ∷ []) ++ (48 ∷ [])) ++ (10 ∷ [])) 0 buf.old buf.new result }
{
    let a = write_term(buf, 0, x);
    let b = write_term(buf, a, y);
    let c = write_term(buf, b, z);
    buf[c] = b'0';
    buf[c + 1] = b'\n';
    c + 2
}

// The clause of three terms, in the part of buf from at on: nothing where one of them is true.
pub fn put_three(buf: &mut [u8], at: usize, x: Term, y: Term, z: Term) -> usize
    ensures value { result ≡ place_after (kept_text (x ∷ y ∷ z ∷ [])) at (length buf.old) }
    ensures buf_after { buf.new ≡ placed (kept_text (x ∷ y ∷ z ∷ [])) at buf.old }
{
    if one_true(x, y, z) {
        return at;
    }
    if three_fits(x, y, z, at, buf.len()) {
        let n = write_three(&mut buf[at..], x, y, z);
        return at + n;
    }
    at
}
