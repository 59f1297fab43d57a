// Marks, a bit each: the next one, one more, one less, and the marks of a row of an index.
#![tactic(auto)]

ghost use Rattle.std.specs.Prelude.{◌≡◌};
ghost use Rattle.marks.specs.Marks.{next_mark, with_mark, without_mark, AddsRow};

// Words of as many marks as there are groups, and lines.
pub const WORDS: usize = 4;

pub const PLACES: usize = 256;

// Words of an index, a row of WORDS words for each group.
pub const INDEX: usize = 1024;

// From p on, the first mark; where there is none, the end.
pub fn next(marks: &[u64; WORDS], p: usize) -> usize
    ensures { result ≡ next_mark marks.now p }
{
    // A cursor, not a counter: it goes on to the next word.
    let mut q = p;
    while q < PLACES {
        let w = marks[q / 64] >> (q % 64);
        let e = w.trailing_zeros() as usize;
        let end = (q / 64 + 1) * 64;
        if q + e < end {
            return q + e;
        }
        q = end;
    }
    q
}

// A place that is not there is not marked.
pub fn mark(marks: &mut [u64], i: usize)
    ensures { marks.new ≡ with_mark i marks.old }
{
    if i / 64 < marks.len() {
        marks[i / 64] |= 1 << (i % 64);
    }
}

pub fn unmark(marks: &mut [u64], i: usize)
    ensures { marks.new ≡ without_mark i marks.old }
{
    if i / 64 < marks.len() {
        marks[i / 64] = model::without(marks[i / 64], 1 << (i % 64));
    }
}

// What row g of an index marks.
pub fn add_row(marks: &mut [u64; WORDS], index: &[u64; INDEX], g: usize)
    ensures { AddsRow index.now g marks.old marks.new }
{
    if PLACES <= g {
        return;
    }
    for k in 0..WORDS {
        marks[k] |= index[g * WORDS + k];
    }
}
