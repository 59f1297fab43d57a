// Reads a sheet from standard input. Accepted: one line with n, s and c. Refused: the number, the line, and what it means.
#![tactic(auto)]

use console::Streams;

fn main(rt: HostRuntime) {
    let to = Streams {
        out: rt.stdout(),
        err: rt.stderr(),
    };
    let mut space = console::sheet_room();
    let n = console::read_sheet(rt.stdin(), &mut space);
    let r = sheet::read_sheet(&space[..n]);
    if r.refusal != 0 {
        console::print(to, report::refused_at(r.refusal, r.line));
        return;
    }
    console::print(to, report::counts(r.model.n, r.model.s, r.model.c));
}
