// A sheet and a certificate: whether the sheet has no draw. The clauses are the block writer's own; the certificate may come in pieces.
#![tactic(auto)]

ghost use Rattle.std.specs.Prelude.{◌≡◌, Bool, true, List, ℕ, ◌≤◌, T};
ghost use Rattle.model.specs.Propagate.{Settled};
ghost use Rattle.model.specs.Close.{satisfying};
ghost use Rattle.refutation.specs.Sound.{Holds};
ghost use Rattle.certificate.specs.NoDraw.{NoDraw, opening_of, opening_refusal, opening_line, sheet_refusal, sheet_line, opening_in, is_open, is_no, cleared, left_as, Stands};

use loading::Loaded;
use lrat::Reader;
use model::Model;
use refutation::{Reason, State};

// What is known before the certificate is read.
#[derive(Clone, Copy)]
pub enum Opening {
    // the reader's refusal and line
    Refused(u32, u32),
    SettledOut,
    Open,
}

#[derive(Clone, Copy)]
pub enum Verdict {
    Refused(u32, u32),
    SettledOut,
    Certified,
    // the reason and the certificate's line
    NotCertified(u32, u32),
}

// A sheet whose certificate is being read.
#[derive(Clone, Copy)]
pub struct Standing {
    pub opening: Opening,
    pub reader: Reader,
}

// ---- the clauses

fn not_loaded(l: Loaded) -> Loaded
    ensures { (a : List Bool) (store index marks : List ℕ) → Holds a l.state store index marks → Holds a result.state store index marks }
{
    let s = l.state;
    let state = refutation::refuse(s, Reason::NoRoomForABlock);
    Loaded { state, ..l }
}

// The clauses of a model's blocks from b on, by way of their text.
fn load_blocks(
    m: Model,
    b: u32,
    l: Loaded,
    text: &mut [u8],
    store: &mut [u32],
    index: &mut [u32],
    marks: &mut [u32],
) -> Loaded
    requires { 1 ≤ b }
    ensures { Settled m → (a : List Bool) → T (satisfying m a) → Holds a l.state store.old index.old marks.old → Holds a result.state store.new index.new marks.new }
{
    let last = blocks::block_count(m);
    let mut q = l;
    let mut x = b;
    while x <= last {
        let r = cnf::write_blocks(m, x, text);
        if r.refusal != 0 {
            return not_loaded(q);
        }
        if r.next <= x {
            return not_loaded(q);
        }
        q = loading::load(q, &text[..r.length], store, index, marks);
        x = r.next;
    }
    q
}

// The clauses of m, stored under 1, 2, .. in the listing's order.
fn load_clauses(
    m: Model,
    text: &mut [u8],
    store: &mut [u32],
    index: &mut [u32],
    marks: &mut [u32],
) -> State
    ensures { Settled m → (a : List Bool) → T (satisfying m a) → Holds a result store.new index.new marks.new }
{
    let state = refutation::start(index, marks);
    let l = load_blocks(m, 1, Loaded { state, id: 1 }, text, store, index, marks);
    l.state
}

// ---- begin, feed, finish

// A sheet that needs no certificate, or can have none.
fn closed(opening: Opening) -> Standing
    ensures { result.opening ≡ opening }
{
    let state = State {
        refusal: None,
        refuted: false,
        proved: false,
        id: 0,
        top: 0,
        at: 0,
        stamp: 0,
        dead: 0,
    };
    Standing {
        opening,
        reader: lrat::first_line(state),
    }
}

// The sheet is read and settled, and its clauses are stored.
pub fn begin(
    sheet: &[u8],
    text: &mut [u8],
    store: &mut [u32],
    index: &mut [u32],
    marks: &mut [u32],
) -> Standing
    ensures opening_value { (result.opening ≡ opening_of sheet.now) × (opening_refusal result.opening ≡ sheet_refusal sheet.now) × (opening_line result.opening ≡ sheet_line sheet.now) }
    ensures stands { Stands sheet.now result store.new index.new marks.new }
    ensures text_unchanged { (result.opening ≡ Opening.Open → ⊥) → (text.new ≡ text.old) × (store.new ≡ store.old) × (index.new ≡ index.old) × (marks.new ≡ marks.old) }
{
    let r = sheet::read_sheet(sheet);
    if r.refusal != 0 {
        return closed(Opening::Refused(r.refusal, r.line));
    }
    let m = r.model;
    let p = propagate::propagate(m);
    if p.refusal == 21 {
        return closed(Opening::SettledOut);
    }
    let q = p.model;
    let state = load_clauses(q, text, store, index, marks);
    Standing {
        opening: Opening::Open,
        reader: lrat::first_line(state),
    }
}

// The next bytes of the certificate.
pub fn feed(
    s: Standing,
    piece: &[u8],
    store: &mut [u32],
    index: &mut [u32],
    marks: &mut [u32],
) -> Standing
    ensures opening_value { result.opening ≡ s.opening }
    ensures by_index { (b : List ℕ) → Stands b s store.old index.old marks.old → Stands b result store.new index.new marks.new }
    ensures store_unchanged { (s.opening ≡ Opening.Open → ⊥) → (store.new ≡ store.old) × (index.new ≡ index.old) × (marks.new ≡ marks.old) }
{
    let opening = s.opening;
    let reader = s.reader;
    let Opening::Open = opening else {
        return s;
    };
    let reader = lrat::feed(reader, piece, store, index, marks);
    Standing { opening, reader }
}

pub fn finish(s: Standing) -> Verdict
    ensures result_value { opening_in result ≡ s.opening }
    ensures no_draw { (b store index marks : List ℕ) → Stands b s store index marks → is_no result ≡ true → NoDraw b }
{
    let opening = s.opening;
    match opening {
        Opening::Refused(refusal, line) => Verdict::Refused(refusal, line),
        Opening::SettledOut => Verdict::SettledOut,
        Opening::Open => judged(s.reader),
    }
}

// What a certificate read so far shows.
fn judged(r: Reader) -> Verdict
    ensures result_value { opening_in result ≡ Opening.Open }
    ensures refuted_value { is_no result ≡ true → r.state.refuted ≡ true }
{
    let s = r.state;
    if s.refuted {
        return Verdict::Certified;
    }
    let reason = s.refusal.unwrap_or(Reason::EndsEarly);
    Verdict::NotCertified(reason.number(), r.line)
}

// The whole at once.
fn judge(
    sheet: &[u8],
    certificate: &[u8],
    text: &mut [u8],
    store: &mut [u32],
    index: &mut [u32],
    marks: &mut [u32],
) -> Verdict
    ensures result_value { opening_in result ≡ opening_of sheet.now }
    ensures no_draw { is_no result ≡ true → NoDraw sheet.now }
    ensures text_unchanged { (opening_of sheet.now ≡ Opening.Open → ⊥) → (text.new ≡ text.old) × (store.new ≡ store.old) × (index.new ≡ index.old) × (marks.new ≡ marks.old) }
{
    let s = begin(sheet, text, store, index, marks);
    let t = feed(s, certificate, store, index, marks);
    finish(t)
}

// Whether the certificate was read.
fn is_open(v: Verdict) -> bool
    ensures { result ≡ is_open (opening_in v) }
{
    matches!(v, Verdict::Certified | Verdict::NotCertified(_, _))
}

fn clear(text: &mut [u8], store: &mut [u32], index: &mut [u32], marks: &mut [u32])
    ensures { (text.new ≡ cleared text.old) × (store.new ≡ cleared store.old) × (index.new ≡ cleared index.old) × (marks.new ≡ cleared marks.old) }
{
    buffers::clear_bytes(text);
    buffers::clear_words(store);
    buffers::clear_words(index);
    buffers::clear_words(marks);
}

// The whole at once, in buffers that are left cleared, or as they were where the sheet is refused or settles out.
pub fn certify(
    sheet: &[u8],
    certificate: &[u8],
    text: &mut [u8],
    store: &mut [u32],
    index: &mut [u32],
    marks: &mut [u32],
) -> Verdict
    ensures result_value { (opening_in result ≡ opening_of sheet.now) × (opening_refusal (opening_in result) ≡ sheet_refusal sheet.now) × (opening_line (opening_in result) ≡ sheet_line sheet.now) }
    ensures no_draw { is_no result ≡ true → NoDraw sheet.now }
    ensures text_after { (text.new ≡ left_as sheet.now text.old) × (store.new ≡ left_as sheet.now store.old) × (index.new ≡ left_as sheet.now index.old) × (marks.new ≡ left_as sheet.now marks.old) }
{
    let v = judge(sheet, certificate, text, store, index, marks);
    if !is_open(v) {
        return v;
    }
    clear(text, store, index, marks);
    v
}
