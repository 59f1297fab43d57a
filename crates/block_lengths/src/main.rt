// Example K of document 01 on a sheet of standard input: each block of its listing in a buffer of the block's length, and in one a byte shorter.
#![tactic(auto)]

ghost use Rattle.std.specs.Prelude.{◌≡◌, ◌≤◌, length};
ghost use Rattle.model.specs.Limits.{limits};

use console::Streams;
use model::{Model, Written};

// What the buffer holds before a block is written.
const FILL: u8 = 255;

// Room for any block. Only its length is told: the list of its bytes is too long for the prover to look at.
fn filled() -> [u8; Model::BLOCK_BYTES]
    ensures { length result ≡ limits.block }
{
    [FILL; Model::BLOCK_BYTES]
}

// Whether every byte from `from` on is as it was filled.
fn is_kept(all: &[u8; Model::BLOCK_BYTES], from: usize) -> bool {
    let bytes = &all[..];
    if bytes.len() < from {
        return true;
    }
    buffers::is_all(&bytes[from..], FILL)
}

// What a buffer of some length gave: 0 and the text's length, or a refusal and 0; and whether the bytes past the text stayed as they were.
#[derive(Clone, Copy)]
struct Tried {
    refusal: u32,
    length: usize,
    kept: bool,
}

fn try_block(m: Model, b: u32, room: usize) -> Tried
    requires { room ≤ limits.block }
    ensures { result.length ≤ room }
{
    let mut all = filled();
    let w = cnf::write_block(m, b, &mut all[..room]);
    match w {
        Written::Bytes(n) => Tried {
            refusal: 0,
            length: n,
            kept: is_kept(&all, n),
        },
        Written::Refused(r) => Tried {
            refusal: r,
            length: 0,
            kept: is_kept(&all, 0),
        },
    }
}

fn refuse(to: Streams, refusal: u32) {
    console::print(to, report::number(refusal));
}

fn told(room: usize, t: Tried) -> report::Tried
    requires { (room ≤ limits.block) × (t.length ≤ limits.block) }
{
    report::Tried {
        room: room as u32,
        refusal: t.refusal,
        length: t.length as u32,
    }
}

// The block's length, and what a buffer of that length and one a byte shorter give. An empty block has no shorter buffer.
fn print_block(to: Streams, m: Model, b: u32) -> bool {
    let any = try_block(m, b, Model::BLOCK_BYTES);
    let n = any.length;
    let exact = try_block(m, b, n);
    let less = n.saturating_sub(1);
    let short = try_block(m, b, less);
    if !console::print(
        to,
        report::block(b, n as u32, told(n, exact), told(less, short)),
    ) {
        return false;
    }
    if any.kept && exact.kept && short.kept {
        return true;
    }
    console::print(to, report::changed(b))
}

fn print_blocks(to: Streams, m: Model) {
    for b in 0..=blocks::block_count(m) {
        if !print_block(to, m, b) {
            return;
        }
    }
}

fn main(rt: HostRuntime) {
    let to = Streams {
        out: rt.stdout(),
        err: rt.stderr(),
    };
    let mut space = console::sheet_room();
    let n = console::read_sheet(rt.stdin(), &mut space);
    let r = sheet::read_sheet(&space[..n]);
    if r.refusal != 0 {
        refuse(to, r.refusal);
        return;
    }
    let p = propagate::propagate(r.model);
    if p.refusal != 0 {
        refuse(to, p.refusal);
        return;
    }
    print_blocks(to, p.model);
}
