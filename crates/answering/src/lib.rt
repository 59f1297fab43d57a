// From bytes to groups: a sheet and a solver's whole output, read, settled, read back and closed. Four of the entries one after the other, with nothing lent.
#![tactic(auto)]

ghost use Rattle.std.specs.Prelude.{◌≡◌, length, replicate};
ghost use Rattle.model.specs.Limits.{limits};
ghost use Rattle.model.specs.Sheet.{lines_of};
ghost use Rattle.model.specs.Demand.{fresh_reading, reading_after, values_after_all};
ghost use Rattle.correctness.specs.Demand3.{closed_after};
ghost use Rattle.answering.specs.Answers.{no_groups, answered, Answers, EachDraw};

use model::{Closed, Model, Reading};

// The groups, a word for each of the sheet's s; or a refusal, the sheet's line where the reader gave it, and zeros.
#[derive(Clone, Copy)]
pub struct Answered {
    pub refusal: u32,
    pub line: u32,
    pub s: u32,
    pub groups: [u64; Model::GROUPS],
}

#[tactic(auto, unfolding(crate::specs::Answers::no_groups))]
pub fn refused(refusal: u32, line: u32) -> Answered
    ensures { result ≡ no_groups refusal line }
{
    Answered {
        refusal,
        line,
        s: 0,
        groups: [0; Model::GROUPS],
    }
}

// Every line of the output, refused ones included, from a fresh reading; the last may lack its newline.
fn read_lines(output: &[u8], values: &mut [u8]) -> Reading
    ensures value { result ≡ reading_after (lines_of output.now) fresh_reading values.old }
    ensures values_after { values.new ≡ values_after_all (lines_of output.now) fresh_reading values.old }
{
    let mut reading = Reading { closed: false };
    let mut at: usize = 0;
    while at < output.len() {
        let rest = &output[at..];
        let len = sheet::line_length(rest);
        reading = assignment::read_line(reading, &rest[..len], values).reading;
        at = (at + len + 1).min(output.len());
    }
    reading
}

// The closing call after all lines, whatever stood in the values.
fn close_after(m: Model, output: &[u8], values: &mut [u8]) -> Closed
    ensures { result ≡ closed_after m (lines_of output.now) (replicate (length values.old) 0) }
{
    values.fill(0);
    let reading = read_lines(output, values);
    solution::close(m, reading, values)
}

// Room for the values of each listing. Only its length is told: the list of its zeros is too long for the prover to look at.
fn room() -> [u8; Model::VARIABLES]
    ensures { length result ≡ limits.variables }
{
    [0; Model::VARIABLES]
}

// The groups that a solver's output says for a sheet.
pub fn answer(sheet: &[u8], output: &[u8]) -> Answered
    ensures value { result ≡ answered sheet.now (lines_of output.now) }
    ensures answers { Answers sheet.now (lines_of output.now) result }
    ensures each_draw { EachDraw sheet.now }
{
    let r = sheet::read_sheet(sheet);
    if r.refusal != 0 {
        return refused(r.refusal, r.line);
    }
    let m = r.model;
    let p = propagate::propagate(m);
    if p.refusal != 0 {
        return refused(p.refusal, 0);
    }
    let q = p.model;
    let v = numbering::of_model(q);
    let count = v.variables as usize;
    let mut values = room();
    let c = close_after(q, output, &mut values[..count]);
    let groups = c.groups;
    Answered {
        refusal: c.refusal,
        line: 0,
        s: m.s,
        groups,
    }
}
