// Reads a solver's answer back as groups: the sheet is the file that argument 1 names, the solver's output comes on standard input.
#![tactic(auto)]

ghost use Rattle.std.specs.Prelude.{◌≡◌, length, replicate};
ghost use Rattle.model.specs.Limits.{limits};
ghost use Rattle.read_solution.specs.From.{ClosedFrom, AnsweredFrom};

use answering::Answered;
use console::Streams;
use model::{Closed, Model, Written};
use report::Notice;
use std::io::Stdin;

// A line for each group.
fn print_groups(to: Streams, words: [u64; Model::GROUPS], s: u32) {
    let mut text = console::large_buffer();
    let Written::Bytes(n) = answer::write_groups(words, s, &mut text) else {
        return;
    };
    console::write(to, &text[..n], Notice::OutputNotWritten);
}

// A value for each variable, all unsaid.
fn unsaid() -> [u8; Model::VARIABLES]
    ensures { length result ≡ limits.variables }
{
    [0; Model::VARIABLES]
}

// The closing call after all lines, on values of which none is said.
fn read_back(input: Stdin, to: Streams, m: Model, values: &mut [u8]) -> Closed
    ensures { ClosedFrom 1048576 m (replicate (length values.old) 0) result }
{
    buffers::clear_bytes(values);
    let reading = solver_output::read_lines(input, to, values);
    solution::close(m, reading, values)
}

// The groups that the solver's output says for a sheet.
fn answered(input: Stdin, to: Streams, sheet: &[u8]) -> Answered
    ensures { AnsweredFrom 1048576 sheet.now result }
{
    let r = sheet::read_sheet(sheet);
    if r.refusal != 0 {
        return answering::refused(r.refusal, r.line);
    }
    let m = r.model;
    let p = propagate::propagate(m);
    if p.refusal != 0 {
        return answering::refused(p.refusal, 0);
    }
    let q = p.model;
    let v = numbering::of_model(q);
    let count = v.variables as usize;
    let mut values = unsaid();
    let c = read_back(input, to, q, &mut values[..count]);
    let groups = c.groups;
    Answered {
        refusal: c.refusal,
        line: 0,
        s: m.s,
        groups,
    }
}

// The reader's refusals, 1 to 9, with their line.
fn print_answer(to: Streams, a: Answered) {
    if a.refusal == 0 {
        let words = a.groups;
        print_groups(to, words, a.s);
        return;
    }
    if a.refusal <= 9 {
        console::print(to, report::refused_at(a.refusal, a.line));
        return;
    }
    console::print(to, report::refused(a.refusal));
}

fn main(rt: HostRuntime) {
    let to = Streams {
        out: rt.stdout(),
        err: rt.stderr(),
    };
    let mut space = console::sheet_room();
    let Some(n) = console::open_sheet(&rt, to.err, 1, Notice::Sheet, &mut space) else {
        return;
    };
    print_answer(to, answered(rt.stdin(), to, &space[..n]));
}
