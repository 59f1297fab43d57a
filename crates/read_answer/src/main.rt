// Reads a solver's answer to any listing of up to `Model::VARIABLES` variables: argument 1 is their number, the solver's output comes on standard input.
#![tactic(auto)]

ghost use Rattle.std.specs.Prelude.{◌≡◌, ◌≤◌, length};
ghost use Rattle.model.specs.Limits.{limits};

use console::Streams;
use model::{Model, Written};
use report::Notice;
use std::io::Stdin;

// The values that the solver's output says, whether it closed them, and how many it left unsaid.
fn print_answer(input: Stdin, to: Streams, values: &mut [u8])
    requires { length values.old ≤ limits.variables }
{
    let reading = solver_output::read_lines(input, to, values);
    let mut line = solver_output::room();
    let Written::Bytes(n) = answer::write_values(values, &mut line) else {
        return;
    };
    if !console::write(to, &line[..n], Notice::OutputNotWritten) {
        return;
    }
    let unsaid = answer::unsaid(values) as u32;
    console::print(to, report::ending(reading.closed, unsaid));
}

// A value for each of v variables.
fn with_values(input: Stdin, to: Streams, v: usize)
    requires { v ≤ limits.variables }
{
    let mut values = console::large_buffer();
    print_answer(input, to, &mut values[..v]);
}

fn usage(to: Streams) {
    console::warn(to, report::noted(Notice::AnswerUsage));
}

fn main(rt: HostRuntime) {
    let to = Streams {
        out: rt.stdout(),
        err: rt.stderr(),
    };
    let mut text = console::buffer();
    let n = console::argument(&rt, 1, &mut text);
    let Some(v) = line_form::count_in(&text[..n]) else {
        usage(to);
        return;
    };
    if console::has_argument(&rt, 2) {
        usage(to);
        return;
    }
    if Model::VARIABLES < v as usize {
        usage(to);
        return;
    }
    with_values(rt.stdin(), to, v as usize);
}
