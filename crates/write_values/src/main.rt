// Writes a draw as the assignment that a solver may start from: the sheet is the file that argument 1 names, the groups come on standard input.
#![tactic(auto)]

ghost use Rattle.std.specs.Prelude.{◌≡◌, ◌+◌, ◌*◌, length};
ghost use Rattle.model.specs.Limits.{limits};

use console::Streams;
use model::{Model, Written};
use report::Notice;
use std::io::Stdin;

// The most bytes of the groups' text. As it is printed it has less.
const GROUPS_BYTES: usize = 65536;

// Room for the assignment's text: each variable has at most nine bytes, with the newline and `v` that may stand before it; six more begin and end it.
const TEXT_BYTES: usize = 9 * Model::VARIABLES + 6;

// Only its length is told: the list of its zeros is too long for the prover to look at.
fn room() -> [u8; TEXT_BYTES]
    ensures { length result ≡ 9 * limits.variables + 6 }
{
    [0; TEXT_BYTES]
}

// The `v` lines.
fn print_assignment(to: Streams, values: &[u8]) {
    let mut text = room();
    let Written::Bytes(n) = answer::write_assignment(values, &mut text) else {
        return;
    };
    console::write(to, &text[..n], Notice::OutputNotWritten);
}

// The settled model's assignment that reads back as the groups of the text.
fn write_back(to: Streams, m: Model, text: &[u8], values: &mut [u8]) {
    let groups = match group_lines::read_groups(text, m.n, m.s) {
        Ok(groups) => groups,
        Err(wrong) => {
            let fault = wrong.fault;
            let told = report::wrong_groups(fault.number(), wrong.line, fault.about());
            console::warn(to, told);
            return;
        }
    };
    let refusal = filling::fill(m, &groups, values);
    if refusal != 0 {
        console::print(to, report::refused(refusal));
        return;
    }
    print_assignment(to, values);
}

// A value for each variable, all unsaid.
fn unsaid() -> [u8; Model::VARIABLES]
    ensures { length result ≡ limits.variables }
{
    [0; Model::VARIABLES]
}

// The settled model, with a value for each of its variables. None has more than there is room for.
fn with_values(to: Streams, m: Model, text: &[u8]) {
    let v = numbering::of_model(m);
    let count = v.variables as usize;
    let mut all = unsaid();
    if count <= Model::VARIABLES {
        write_back(to, m, text, &mut all[..count]);
    }
}

// The groups' text, all of standard input.
fn with_groups(input: Stdin, to: Streams, m: Model) {
    let mut space = [0u8; GROUPS_BYTES + 1];
    let n = console::read_input(input, &mut space);
    if GROUPS_BYTES < n {
        console::warn(to, report::noted(Notice::GroupsTooLong));
        return;
    }
    with_values(to, m, &space[..n]);
}

fn main(rt: HostRuntime) {
    let to = Streams {
        out: rt.stdout(),
        err: rt.stderr(),
    };
    let mut space = console::sheet_room();
    let Some(n) = console::open_sheet(&rt, to.err, 1, Notice::Sheet, &mut space) else {
        return;
    };
    let r = sheet::read_sheet(&space[..n]);
    if r.refusal != 0 {
        console::print(to, report::refused_at(r.refusal, r.line));
        return;
    }
    let p = propagate::propagate(r.model);
    if p.refusal != 0 {
        console::print(to, report::refused(p.refusal));
        return;
    }
    with_groups(rt.stdin(), to, p.model);
}
