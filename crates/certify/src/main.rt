// Whether a certificate shows that a sheet has no draw: the sheet is the file that argument 1 names, the certificate comes on standard input.
#![tactic(auto)]

ghost use Rattle.std.specs.Prelude.{◌≡◌, true, List, ℕ, ◌+◌, ◌*◌, length};
ghost use Rattle.model.specs.Limits.{limits};
ghost use Rattle.report.specs.Messages.{Counted};
ghost use Rattle.certificate.specs.NoDraw.{NoDraw, Stands};
ghost use Rattle.verdict.specs.Verdict.{printed, says_no};

use certificate::Standing;
use console::Streams;
use model::Model;
use report::{Message, Notice};
use std::io::Stdin;

// Places for clauses, numbers of clauses, and a word for each literal of the largest listing: what 8 MB of stack hold.
const STORE: usize = 1048576;

const NUMBERS: usize = 540672;

const LITERALS: usize = 2 * Model::VARIABLES + 2;

// Some blocks of the listing at a time.
const TEXT: usize = 131072;

// The whole certificate. A proved loop has to end: no run takes as many turns.
fn read_certificate(
    input: Stdin,
    s: Standing,
    store: &mut [u32],
    index: &mut [u32],
    marks: &mut [u32],
) -> Standing
    ensures { (b : List ℕ) → Stands b s store.old index.old marks.old → Stands b result store.new index.new marks.new }
{
    let mut piece = console::large_buffer();
    let mut t = s;
    for _turn in 0..u64::MAX {
        let n = console::read_piece(input, &mut piece);
        if n == 0 {
            break;
        }
        t = certificate::feed(t, &piece[..n], store, index, marks);
    }
    t
}

// What is printed: where it begins with `no draw`, the sheet has none.
fn answered(
    input: Stdin,
    sheet: &[u8],
    text: &mut [u8],
    store: &mut [u32],
    index: &mut [u32],
    marks: &mut [u32],
) -> Message
    ensures counted { Counted result }
    ensures no_draw { says_no (printed result) ≡ true → NoDraw sheet.now }
{
    let s = certificate::begin(sheet, text, store, index, marks);
    let t = read_certificate(input, s, store, index, marks);
    let v = certificate::finish(t);
    verdict::told(v)
}

// Of the lent memory only the length is told: the list of its zeros is too long for the prover to look at.
fn store_space() -> [u32; STORE]
    ensures { length result ≡ 1048576 }
{
    [0; STORE]
}

fn number_space() -> [u32; NUMBERS]
    ensures { length result ≡ 540672 }
{
    [0; NUMBERS]
}

fn literal_space() -> [u32; LITERALS]
    ensures { length result ≡ 2 * limits.variables + 2 }
{
    [0; LITERALS]
}

fn text_space() -> [u8; TEXT]
    ensures { length result ≡ 131072 }
{
    [0; TEXT]
}

fn with_memory(input: Stdin, sheet: &[u8]) -> Message
    ensures counted { Counted result }
    ensures no_draw { says_no (printed result) ≡ true → NoDraw sheet.now }
{
    let mut text = text_space();
    let mut store = store_space();
    let mut index = number_space();
    let mut marks = literal_space();
    answered(input, sheet, &mut text, &mut store, &mut index, &mut marks)
}

fn main(rt: HostRuntime) {
    let to = Streams {
        out: rt.stdout(),
        err: rt.stderr(),
    };
    let mut space = console::sheet_room();
    let Some(n) = console::open_sheet(&rt, to.err, 1, Notice::Sheet, &mut space) else {
        return;
    };
    console::print(to, with_memory(rt.stdin(), &space[..n]));
}
