// A refutation, step by step: clauses in a lent store, a new one only where stored ones imply it by the hints given for it.
#![tactic(auto)]

ghost use Rattle.std.specs.Prelude.{None, ◌≡◌, ℕ, ◌+◌, ◌-◌, ◌≤◌, Bool, false, T, List, length, replicate};
ghost use Rattle.refutation.specs.Sound.{flipped, some_true, stored_true, begun_true, Falsified, Says, Holds, Keeps, Appended, Begun};
ghost use Rattle.refutation.specs.Steps.{reason_number, refusal_for, first_state, refused_for, after_put, store_after_put, marks_after_put, after_commit, store_after_commit, index_after_commit, given, places_at, after_forget, index_after_forget};

// Why a certificate is refused: by a step, by a line's form, by the clauses' text, by its end.
#[derive(Clone, Copy, PartialEq, Eq)]
pub enum Reason {
    StoreFull,
    NumberTooLarge,
    NoSuchVariable,
    NoSuchClause,
    HintNotUnit,
    NotImplied,
    TooManyLines,
    Format,
    ValueTooLarge,
    NegativeHint,
    NoRoomForABlock,
    EndsEarly,
    // by a number that has no name
    Other(u32),
}

impl Reason {
    // Its number, by which it is told: from 1 on, in the order above, or its own.
    pub fn number(self) -> u32
        ensures { result ≡ reason_number self }
    {
        match self {
            Reason::StoreFull => 1,
            Reason::NumberTooLarge => 2,
            Reason::NoSuchVariable => 3,
            Reason::NoSuchClause => 4,
            Reason::HintNotUnit => 5,
            Reason::NotImplied => 6,
            Reason::TooManyLines => 7,
            Reason::Format => 8,
            Reason::ValueTooLarge => 9,
            Reason::NegativeHint => 10,
            Reason::NoRoomForABlock => 11,
            Reason::EndsEarly => 12,
            Reason::Other(n) => n,
        }
    }
}

#[derive(Clone, Copy)]
pub struct State {
    // why the certificate is refused
    pub refusal: Option<Reason>,
    // the empty clause is stored
    pub refuted: bool,
    // the clause begun is implied
    pub proved: bool,
    // its number
    pub id: u32,
    // the first free place of the store; past the clause begun
    pub top: usize,
    pub at: usize,
    // the mark of this line
    pub stamp: u32,
    // places of forgotten clauses
    pub dead: usize,
}

// What a stored clause says under the marks.
#[derive(Clone, Copy)]
enum Found {
    Nothing,
    Conflict,
    Forces(u32),
}

fn flip(w: u32) -> u32
    ensures { result ≡ flipped w }
{
    if w % 2 == 0 {
        return w + 1;
    }
    w - 1
}

// What the words from b to e, one of which is true, say where the marked words are false.
fn scan(store: &[u32], b: usize, e: usize, marks: &[u32], stamp: u32) -> Found
    requires { e ≤ length store.now }
    ensures { (a : List Bool) → T (some_true a store.now b (e - b)) → Falsified a marks.now stamp → Says a result }
{
    let mut unit = None;
    for i in b..e {
        let w = store[i];
        let k = w as usize;
        if marks.len() <= k {
            return Found::Nothing;
        }
        if marks[k] != stamp {
            if unit.is_some() {
                return Found::Nothing;
            }
            unit = Some(w);
        }
    }
    match unit {
        Some(w) => Found::Forces(w),
        None => Found::Conflict,
    }
}

// The same of the clause stored at c.
fn scan_clause(store: &[u32], c: usize, marks: &[u32], stamp: u32) -> Found
    ensures { (a : List Bool) → T (stored_true a store.now c) → Falsified a marks.now stamp → Says a result }
{
    if store.len() < 2 {
        return Found::Nothing;
    }
    if store.len() - 2 < c {
        return Found::Nothing;
    }
    let n = store[c + 1] as usize;
    let b = c + 2;
    if store.len() - b < n {
        return Found::Nothing;
    }
    scan(store, b, b + n, marks, stamp)
}

// What a state keeps of a reason: by the number 0 nothing is refused.
fn refusal_for(why: Reason) -> Option<Reason>
    ensures { result ≡ refusal_for why }
{
    match why {
        Reason::Other(0) => None,
        _ => Some(why),
    }
}

pub fn refuse(s: State, why: Reason) -> State
    ensures holds { (a : List Bool) (store index marks : List ℕ) → Holds a s store index marks → Holds a result store index marks }
    ensures refusal_value { result.refusal ≡ refusal_for why }
    ensures value { result ≡ refused_for s why }
{
    State {
        refusal: refusal_for(why),
        ..s
    }
}

// A hint: a stored clause that is a conflict, or whose one word that is not false is made true.
pub fn hint(s: State, store: &[u32], index: &[u32], marks: &mut [u32], id: u32) -> State
    ensures { Keeps s store.now index.now marks.old result store.now index.now marks.new }
{
    if s.proved {
        return s;
    }
    let i = id as usize;
    if index.len() <= i {
        return refuse(s, Reason::NoSuchClause);
    }
    let c = index[i] as usize;
    if c == 0 {
        return refuse(s, Reason::NoSuchClause);
    }
    let found = scan_clause(store, c, marks, s.stamp);
    match found {
        Found::Nothing => refuse(s, Reason::HintNotUnit),
        Found::Conflict => State { proved: true, ..s },
        Found::Forces(w) => {
            let k = flip(w) as usize;
            if marks.len() <= k {
                return refuse(s, Reason::NoSuchVariable);
            }
            marks[k] = s.stamp;
            s
        }
    }
}

// A word more of the clause begun, assumed false.
pub fn put(s: State, store: &mut [u32], index: &[u32], marks: &mut [u32], w: u32) -> State
    ensures keeps { Keeps s store.old index.now marks.old result store.new index.now marks.new }
    ensures appended { result.refusal ≡ None → Appended s store.old result store.new w }
    ensures value { (result ≡ after_put s store.old marks.old w) × (store.new ≡ store_after_put s store.old marks.old w) × (marks.new ≡ marks_after_put s store.old marks.old w) }
{
    let at = s.at;
    let k = w as usize;
    if store.len() <= at {
        return refuse(s, Reason::StoreFull);
    }
    if marks.len() <= k {
        return refuse(s, Reason::NoSuchVariable);
    }
    store[at] = w;
    marks[k] = s.stamp;
    State { at: at + 1, ..s }
}

// The clause begun is stored under its number, and another is begun.
pub fn commit(s: State, store: &mut [u32], index: &mut [u32], marks: &[u32]) -> State
    ensures keeps { Keeps s store.old index.old marks.now result store.new index.new marks.now }
    ensures begun { result.refusal ≡ None → Begun s result store.new }
    ensures value { (result ≡ after_commit s store.old index.old) × (store.new ≡ store_after_commit s store.old index.old) × (index.new ≡ index_after_commit s store.old index.old) }
{
    let top = s.top;
    let at = s.at;
    let i = s.id as usize;
    if !s.proved {
        return refuse(s, Reason::NotImplied);
    }
    if index.len() <= i {
        return refuse(s, Reason::NumberTooLarge);
    }
    if store.len() < at {
        return refuse(s, Reason::StoreFull);
    }
    if 4294967290 <= at {
        return refuse(s, Reason::StoreFull);
    }
    if at < 2 {
        return refuse(s, Reason::StoreFull);
    }
    if at - 2 < top {
        return refuse(s, Reason::StoreFull);
    }
    if 4294967295 <= s.stamp {
        return refuse(s, Reason::TooManyLines);
    }
    let n = at - 2 - top;
    store[top] = s.id;
    store[top + 1] = n as u32;
    index[i] = top as u32;
    State {
        refuted: n == 0,
        proved: false,
        id: 0,
        top: at,
        at: at + 2,
        stamp: s.stamp + 1,
        ..s
    }
}

// The clause begun is one of the formula's: it is stored under a number.
pub fn admit(s: State, store: &mut [u32], index: &mut [u32], marks: &[u32], id: u32) -> State
    ensures holds { (a : List Bool) → Holds a s store.old index.old marks.now → T (begun_true a s.top s.at store.old) → Holds a result store.new index.new marks.now }
    ensures begun { result.refusal ≡ None → Begun s result store.new }
    ensures value { (result ≡ after_commit (given s id) store.old index.old) × (store.new ≡ store_after_commit (given s id) store.old index.old) × (index.new ≡ index_after_commit (given s id) store.old index.old) }
{
    let given = State {
        proved: true,
        id,
        ..s
    };
    commit(given, store, index, marks)
}

// The places that a clause at c takes, at most as many as the store has; 0 where none can stand.
fn places(store: &[u32], c: usize) -> usize
    ensures { result ≡ places_at store.now c }
{
    if c == 0 {
        return 0;
    }
    if store.len() < 2 {
        return 0;
    }
    if store.len() - 2 < c {
        return 0;
    }
    let n = store[c + 1] as usize;
    if store.len() - 2 < n {
        return 0;
    }
    n + 2
}

// The clause of a number is forgotten.
pub fn forget(s: State, store: &[u32], index: &mut [u32], marks: &[u32], id: u32) -> State
    ensures keeps { Keeps s store.now index.old marks.now result store.now index.new marks.now }
    ensures value { (result ≡ after_forget s store.now index.old id) × (index.new ≡ index_after_forget index.old id) }
{
    let i = id as usize;
    if index.len() <= i {
        return refuse(s, Reason::NoSuchClause);
    }
    let freed = places(store, index[i] as usize);
    index[i] = 0;
    State {
        dead: s.dead.wrapping_add(freed),
        ..s
    }
}

// No clause is stored, no word marked, a clause without words begun.
pub fn start(index: &mut [u32], marks: &mut [u32]) -> State
    ensures holds { (a : List Bool) (store : List ℕ) → Holds a result store index.new marks.new }
    ensures refusal_value { (result.refusal ≡ None) × ((a : List Bool) (store : List ℕ) → begun_true a result.top result.at store ≡ false) }
    ensures value { (result ≡ first_state) × (index.new ≡ replicate (length index.old) 0) × (marks.new ≡ replicate (length marks.old) 0) }
{
    buffers::clear_words(index);
    buffers::clear_words(marks);
    State {
        refusal: None,
        refuted: false,
        proved: false,
        id: 0,
        top: 1,
        at: 3,
        stamp: 1,
        dead: 0,
    }
}
