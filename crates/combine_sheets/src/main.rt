// Makes two committees' sheets one: they are the files that arguments 1 and 2 name, and the combined sheet goes to standard output.
// A refusal with its meaning goes to standard error, with the sheet, or the group and entrant, that it concerns.
#![tactic(auto)]

use console::Streams;
use model::{Model, Written};
use report::Notice;
use std::env::Env;
use std::fs::Files;

fn print_sheet(to: Streams, m: Model) {
    let mut text = [0u8; Model::SHEET_BYTES];
    let Written::Bytes(n) = sheet_writer::write_sheet(m, &mut text) else {
        return;
    };
    console::write(to, &text[..n], Notice::OutputNotWritten);
}

fn print_combined(to: Streams, a: Model, b: Model) {
    let r = combine::combine(a, b);
    if r.refusal == 32 {
        let first = combine::first_clash(a, b);
        console::warn(to, report::clashed(first.group, first.entrant));
        return;
    }
    if r.refusal != 0 {
        console::warn(to, report::refused(r.refusal));
        return;
    }
    print_sheet(to, r.model);
}

// The model of the sheet that argument i names. Where there is none, or it is refused, that is said, with its name.
fn take_sheet(rt: &(impl Files + Env), to: Streams, i: usize, missing: Notice) -> Option<Model> {
    let mut space = console::sheet_room();
    let n = console::open_sheet(rt, to.err, i, missing, &mut space)?;
    let r = sheet::read_sheet(&space[..n]);
    if r.refusal != 0 {
        console::warn_of(rt, to.err, i);
        console::warn(to, report::refused_at(r.refusal, r.line));
        return None;
    }
    Some(r.model)
}

fn main(rt: HostRuntime) {
    let to = Streams {
        out: rt.stdout(),
        err: rt.stderr(),
    };
    let Some(a) = take_sheet(&rt, to, 1, Notice::FirstSheet) else {
        return;
    };
    let Some(b) = take_sheet(&rt, to, 2, Notice::SecondSheet) else {
        return;
    };
    print_combined(to, a, b);
}
