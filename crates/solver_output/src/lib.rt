// A solver's output on standard input, read line by line, as the programs share it: a refused line is reported, and reading goes on.
#![tactic(auto)]

ghost use Rattle.std.specs.Prelude.{◌≡◌, length};
ghost use Rattle.lines.specs.Cut.{cutting, cut_bytes};
ghost use Rattle.lines.specs.Lines.{ReadFrom};

use console::Streams;
use lines::Cut;
use model::Reading;
use std::io::Stdin;

// The longest line that is read. A `v` line that says each of 59,392 variables once has less than 500,000 bytes.
pub const LONGEST: usize = 1048576;

// One piece of the output. A line that is refused is reported on standard error, and reading goes on.
fn take_piece(to: Streams, cut: Cut, piece: &[u8], space: &mut [u8], values: &mut [u8]) -> Cut
    ensures value { result ≡ (cut_bytes piece.now (cutting cut space.old values.old)).cut }
    ensures space_after { space.new ≡ (cut_bytes piece.now (cutting cut space.old values.old)).space }
    ensures values_after { values.new ≡ (cut_bytes piece.now (cutting cut space.old values.old)).values }
{
    let mut state = cut;
    let mut at: usize = 0;
    while at < piece.len() {
        let fed = lines::feed(state, &piece[at..], space, values);
        if fed.refusal != 0 {
            console::warn(to, report::refused_line(fed.line, fed.refusal));
        }
        let next = fed.cut;
        state = next;
        at += fed.used;
    }
    state
}

// Room for the longest line. Only its length is told: the list of its zeros is too long for the prover to look at.
pub fn room() -> [u8; LONGEST]
    ensures { length result ≡ 1048576 }
{
    [0; LONGEST]
}

// The whole output: what it says goes into the values. A proved loop has to end: no run takes as many turns.
pub fn read_lines(input: Stdin, to: Streams, values: &mut [u8]) -> Reading
    ensures { ReadFrom 1048576 values.old values.new result }
{
    let mut space = room();
    let mut piece = console::large_buffer();
    let mut cut = lines::start();
    for _turn in 0..u64::MAX {
        let n = console::read_piece(input, &mut piece);
        if n == 0 {
            break;
        }
        cut = take_piece(to, cut, &piece[..n], &mut space, values);
    }
    let last = lines::finish(cut, &space, values);
    if last.refusal != 0 {
        console::warn(to, report::refused_line(last.line, last.refusal));
    }
    last.cut.reading
}
