// Settles a sheet: reads it from standard input and writes the settled sheet, in the sheet's own format, to standard output.
// The number of passes, or a refusal with its meaning, goes to standard error.
#![tactic(auto)]

use console::Streams;
use model::{Model, Written};
use report::Notice;

// Whether the sheet of a model was written.
fn print_sheet(to: Streams, m: Model) -> bool {
    let mut text = [0u8; Model::SHEET_BYTES];
    let Written::Bytes(n) = sheet_writer::write_sheet(m, &mut text) else {
        return false;
    };
    console::put(to, &text[..n])
}

fn main(rt: HostRuntime) {
    let to = Streams {
        out: rt.stdout(),
        err: rt.stderr(),
    };
    let mut space = console::sheet_room();
    let n = console::read_sheet(rt.stdin(), &mut space);
    let r = sheet::read_sheet(&space[..n]);
    if r.refusal != 0 {
        console::warn(to, report::refused_at(r.refusal, r.line));
        return;
    }
    let p = propagate::propagate(r.model);
    if p.refusal != 0 {
        console::warn(to, report::refused(p.refusal));
        return;
    }
    if !print_sheet(to, p.model) {
        console::warn(to, report::noted(Notice::SheetNotWritten));
        return;
    }
    console::warn(to, report::passes(p.passes));
}
