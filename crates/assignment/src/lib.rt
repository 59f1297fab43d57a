// Solver lines: the form of the whole line first, then its literals one by one. A refused line changes no value.
#![tactic(auto)]

ghost use Rattle.std.specs.Prelude.{◌≡◌, false, ◌<◌, length, get_or};
ghost use Rattle.model.specs.Assignment.{line_read, values_after};
ghost use Rattle.correctness.specs.Entries.{LineReads};

use model::{LineRead, Reading};

// A line whose first byte is `v`, with no closing 0 read before it.
fn read_values(reading: Reading, line: &[u8], values: &mut [u8]) -> LineRead
    requires { (0 < length line.now) × (get_or line.now 0 0 ≡ 118) × (reading.closed ≡ false) }
    ensures value { result ≡ line_read reading line.now values.old }
    ensures values_after { values.new ≡ values_after reading line.now values.old }
{
    let Some(shape) = line_form::line_form(line) else {
        return LineRead {
            refusal: 10,
            reading,
        };
    };
    let closed = shape.closed;
    if line.len() == 1 {
        return LineRead {
            refusal: 0,
            reading: Reading { closed },
        };
    }
    match literals::take_literals(&line[2..], shape.count, values) {
        Err(refusal) => LineRead {
            refusal: refusal.number(),
            reading,
        },
        Ok(_) => LineRead {
            refusal: 0,
            reading: Reading { closed },
        },
    }
}

// A solver line read: refused with its number and nothing changed, or its literals written. As demand 3 judges it, on the lines alone: `LineReads`.
pub fn read_line(reading: Reading, line: &[u8], values: &mut [u8]) -> LineRead
    ensures value { result ≡ line_read reading line.now values.old }
    ensures values_after { values.new ≡ values_after reading line.now values.old }
    ensures line_reads { LineReads reading line.now values.old result values.new }
{
    if line.len() == 0 {
        return LineRead {
            refusal: 10,
            reading,
        };
    }
    let first = line[0];
    if first == 99 {
        return LineRead {
            refusal: 0,
            reading,
        };
    }
    if first == 115 {
        return LineRead {
            refusal: 0,
            reading,
        };
    }
    if first != 118 {
        return LineRead {
            refusal: 10,
            reading,
        };
    }
    if reading.closed {
        return LineRead {
            refusal: 25,
            reading,
        };
    }
    read_values(reading, line, values)
}
