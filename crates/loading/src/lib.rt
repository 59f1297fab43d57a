// The formula's clauses are stored, as the block writer wrote them: its own text is read back word by word.
#![tactic(auto)]

ghost use Rattle.std.specs.Prelude.{None, ◌≡◌, ◌≤◌, Bool, List, length};
ghost use Rattle.model.specs.declared.Literal.{Literal};
ghost use Rattle.refutation.specs.Sound.{Holds};
ghost use Rattle.loading.specs.Loading.{word_end, Read, Needs, Takes, Loads};

use refutation::{Reason, State};

// What a word of the listing is: a literal as a word of the store, or a clause's closing 0.
#[derive(Clone, Copy)]
enum Piece {
    Wrong,
    End,
    Word(u32),
}

// What is loaded, and the number of the next clause.
#[derive(Clone, Copy)]
pub struct Loaded {
    pub state: State,
    pub id: u32,
}

fn word_end(s: &[u8]) -> usize
    ensures upper_bound { result ≤ length s.now }
    ensures value { result ≡ word_end s.now }
{
    s.iter()
        .position(|b| *b == b' ' || *b == b'\n')
        .unwrap_or(s.len())
}

fn read_word(w: &[u8]) -> Piece
    ensures { Read w.now result }
{
    if w.len() == 0 {
        return Piece::Wrong;
    }
    if w[0] == 45 {
        let Some(v) = model::decimal(&w[1..]) else {
            return Piece::Wrong;
        };
        if 1000000 < v {
            return Piece::Wrong;
        }
        return Piece::Word(2 * v + 1);
    }
    let Some(v) = model::decimal(w) else {
        return Piece::Wrong;
    };
    if v == 0 {
        return Piece::End;
    }
    if 1000000 < v {
        return Piece::Wrong;
    }
    Piece::Word(2 * v)
}

fn take_piece(
    q: Loaded,
    p: Piece,
    store: &mut [u32],
    index: &mut [u32],
    marks: &mut [u32],
) -> Loaded
    ensures { (a : List Bool) → Holds a q.state store.old index.old marks.old → (q.state.refusal ≡ None → Needs a p q.state store.old) → Takes a p q.state store.old result.state store.new index.new marks.new }
{
    let s = q.state;
    let id = q.id;
    if s.refusal.is_some() {
        return q;
    }
    match p {
        Piece::Wrong => {
            let state = refutation::refuse(s, Reason::NoRoomForABlock);
            Loaded { state, id }
        }
        Piece::Word(w) => {
            let state = refutation::put(s, store, index, marks, w);
            Loaded { state, id }
        }
        Piece::End => {
            let state = refutation::admit(s, store, index, marks, id);
            Loaded {
                state,
                id: id.wrapping_add(1),
            }
        }
    }
}

// The clauses of a text, each stored under the next number.
pub fn load(
    l: Loaded,
    text: &[u8],
    store: &mut [u32],
    index: &mut [u32],
    marks: &mut [u32],
) -> Loaded
    ensures { (a : List Bool) (cs : List (List Literal)) → Loads a cs text.now → Holds a l.state store.old index.old marks.old → Holds a result.state store.new index.new marks.new }
{
    let n = text.len();
    let mut q = l;
    let mut at: usize = 0;
    while at < n {
        let rest = &text[at..];
        let k = word_end(rest);
        let p = read_word(&rest[..k]);
        q = take_piece(q, p, store, index, marks);
        at = at + k + 1;
    }
    q
}
