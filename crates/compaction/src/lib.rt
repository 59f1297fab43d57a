// Compaction: the clauses that are not forgotten move down in the store, in their order.
#![tactic(auto)]

ghost use Rattle.std.specs.Prelude.{ℕ, ◌+◌, ◌≤◌, ◌<◌, ◌≡◌, Bool, List, length, get_or};
ghost use Rattle.refutation.specs.Sound.{Keeps};
ghost use Rattle.compaction.specs.Walk.{Walk, MovedDown};

use refutation::{Reason, State};

fn move_down(store: &mut [u32], from: usize, to: usize, n: usize)
    requires { (to ≤ from) × (from + n ≤ length store.old) }
    ensures { MovedDown from to n store.old store.new }
{
    store.copy_within(from..from + n, to);
}

// The clause of n words at `from` moves to `to`, unless it is forgotten; the next one goes to the place answered.
fn move_clause(store: &mut [u32], index: &mut [u32], from: usize, to: usize, n: usize) -> usize
    requires { (to ≤ from) × (from + 2 + n ≤ length store.old) × (n ≡ get_or store.old (from + 1) 0) }
    ensures lower_bound { (to ≤ result) × (result ≤ from + 2 + n) }
    ensures walk { 1 ≤ from → (a : List Bool) (top : ℕ) → from < top → Walk a from to top store.old index.old → Walk a (from + 2 + n) result top store.new index.new }
{
    let i = store[from] as usize;
    if index.len() <= i {
        return to;
    }
    if index[i] as usize != from {
        return to;
    }
    move_down(store, from, to, n + 2);
    index[i] = to as u32;
    to + n + 2
}

// At the start of a line, where the store is half full and a quarter of that is forgotten.
pub fn compact(s: State, store: &mut [u32], index: &mut [u32], marks: &[u32]) -> State
    ensures { Keeps s store.old index.old marks.now result store.new index.new marks.now }
{
    let top = s.top;
    let at = s.at;
    if top == 0 {
        return s;
    }
    if top < store.len() / 2 {
        return s;
    }
    if s.dead < top / 4 {
        return s;
    }
    if store.len() < at {
        return s;
    }
    if at < 2 {
        return s;
    }
    if at - 2 != top {
        return s;
    }
    let mut from: usize = 1;
    let mut to: usize = 1;
    while from < top {
        let n = store[from + 1] as usize;
        if top - from < n + 2 {
            return refutation::refuse(s, Reason::StoreFull);
        }
        to = move_clause(store, index, from, to, n);
        from = from + 2 + n;
    }
    State {
        top: to,
        at: to + 2,
        dead: 0,
        ..s
    }
}
