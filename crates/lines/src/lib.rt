// A solver's output cut into lines, in whatever pieces it comes: each line is read as it ends. A call stops after a line that is refused.
#![tactic(auto)]

ghost use Rattle.std.specs.Prelude.{◌≡◌, length, take, set};
ghost use Rattle.lines.specs.Lines.{fresh_cut};
ghost use Rattle.lines.specs.Cut.{cutting, next_number, line_start, too_long, line_end, values_at_end, keep_byte, at_start, feeding, finishing};

use model::Reading;

// Where the cutting stands: what the lines so far left of the reading, the number of the line that is being cut, how many of its bytes are kept at the
// start of the lent space, and whether it has more than those.
#[derive(Clone, Copy)]
pub struct Cut {
    pub reading: Reading,
    number: u32,
    held: usize,
    long: bool,
}

// What a call answers: the state after the bytes that it used, and the refusal and the number of the line that stopped it, or 0 and 0. Refusal 24 is a
// line that is longer than the space.
#[derive(Clone, Copy)]
pub struct Fed {
    pub cut: Cut,
    pub used: usize,
    pub refusal: u32,
    pub line: u32,
}

// The end of a line: its refusal, or 0, and the state before the next one.
#[derive(Clone, Copy)]
struct Ended {
    refusal: u32,
    cut: Cut,
}

// Before line `number`.
fn line_start(reading: Reading, number: u32) -> Cut
    ensures { result ≡ line_start reading number }
{
    Cut {
        reading,
        number,
        held: 0,
        long: false,
    }
}

// Before the first byte.
pub fn start() -> Cut
    ensures { result ≡ fresh_cut }
{
    line_start(Reading { closed: false }, 1)
}

// Lines are counted up to the largest number.
fn next(number: u32) -> u32
    ensures { result ≡ next_number number }
{
    if number < u32::MAX {
        return number + 1;
    }
    number
}

// The refusal of a line that is too long, of which these bytes are kept.
fn too_long(line: &[u8]) -> u32
    ensures { result ≡ too_long line.now }
{
    if line.len() == 0 {
        return 24;
    }
    if line[0] == b'c' {
        return 0;
    }
    if line[0] == b's' {
        return 0;
    }
    24
}

// The end of a line of which these bytes are kept.
fn read_end(cut: Cut, line: &[u8], values: &mut [u8]) -> Ended
    ensures value { result ≡ line_end cut line.now values.old }
    ensures values_after { values.new ≡ values_at_end cut line.now values.old }
{
    let reading = cut.reading;
    if cut.long {
        return Ended {
            refusal: too_long(line),
            cut: line_start(reading, next(cut.number)),
        };
    }
    let r = assignment::read_line(reading, line, values);
    let after = r.reading;
    Ended {
        refusal: r.refusal,
        cut: line_start(after, next(cut.number)),
    }
}

// The same of a line whose bytes are kept at the start of space.
fn end_line(cut: Cut, space: &[u8], values: &mut [u8]) -> Ended
    ensures value { result ≡ line_end cut (take cut.held space.now) values.old }
    ensures values_after { values.new ≡ values_at_end cut (take cut.held space.now) values.old }
{
    let held = cut.held;
    if held < space.len() {
        return read_end(cut, &space[..held], values);
    }
    read_end(cut, space, values)
}

// A byte of a line.
fn keep_byte(cut: Cut, space: &mut [u8], b: u8) -> Cut
    ensures value { result ≡ keep_byte (length space.old) cut }
    ensures space_after { space.new ≡ set space.old cut.held b }
{
    let held = cut.held;
    if held < space.len() {
        space[held] = b;
        return Cut {
            held: held + 1,
            ..cut
        };
    }
    Cut { long: true, ..cut }
}

// A piece of the output, up to and with the first line that is refused. The start of space keeps the bytes of a line from piece to piece.
pub fn feed(cut: Cut, piece: &[u8], space: &mut [u8], values: &mut [u8]) -> Fed
    ensures value { result ≡ (feeding piece.now (cutting cut space.old values.old)).answer }
    ensures space_after { space.new ≡ (feeding piece.now (cutting cut space.old values.old)).after.space }
    ensures values_after { values.new ≡ (feeding piece.now (cutting cut space.old values.old)).after.values }
{
    let mut state = cut;
    for (i, b) in piece.iter().enumerate() {
        if *b == b'\n' {
            let line = state.number;
            let end = end_line(state, space, values);
            let next = end.cut;
            if end.refusal != 0 {
                return Fed {
                    cut: next,
                    used: i + 1,
                    refusal: end.refusal,
                    line,
                };
            }
            state = next;
        } else {
            state = keep_byte(state, space, *b);
        }
    }
    Fed {
        cut: state,
        used: piece.len(),
        refusal: 0,
        line: 0,
    }
}

// Whether no byte of the line has come.
fn at_start(cut: Cut) -> bool
    ensures { result ≡ at_start cut }
{
    if cut.held != 0 {
        return false;
    }
    !cut.long
}

// The end of the output, which ends a last line without a newline.
pub fn finish(cut: Cut, space: &[u8], values: &mut [u8]) -> Fed
    ensures value { result ≡ (finishing (cutting cut space.now values.old)).answer }
    ensures values_after { values.new ≡ (finishing (cutting cut space.now values.old)).after.values }
{
    if at_start(cut) {
        return Fed {
            cut,
            used: 0,
            refusal: 0,
            line: 0,
        };
    }
    let line = cut.number;
    let end = end_line(cut, space, values);
    let next = end.cut;
    Fed {
        cut: next,
        used: 0,
        refusal: end.refusal,
        line,
    }
}
