// What is wrong with a refused sheet as the message that is printed, in words for the counter.
#![tactic(auto)]

ghost use Rattle.std.specs.Prelude.{◌≡◌};
ghost use Rattle.report.specs.Messages.{message, Counted};
ghost use Rattle.fault_text.specs.Texts.{columns_message, added_range, name_text, shown_byte, tab_text, width_text, unread_text, outside_text, count_text, marks_text, due_text, lines_text, unended_text, fault_text};

use line_fault::{Columns, Fault, Four, Head, Name, Range};
use report::Message;

// What a number is.
#[tactic(auto, unfolding(crate::specs::Texts::name_text))]
fn name(name: Name) -> &'static [u8]
    ensures { result.now ≡ name_text name }
{
    match name {
        Name::Entrants => b"the number of entrants",
        Name::Groups => b"the number of groups",
        Name::GroupsOfMany => b"the number of groups, with more than 32 entrants,",
        Name::Constraints => b"the number of constraints",
        Name::Low => b"the low of a group, at most its high,",
        Name::High => b"the high of a group",
        Name::Mark => b"a mark",
        Name::Group => b"a group's number",
        Name::Code => b"the code",
        Name::Count => b"the count of code 6",
        Name::Kind => b"the first field of the head",
        Name::NextGroup => b"the number of this group",
        Name::Other(_) => b"",
    }
}

// A byte that does not print is shown as `?`.
#[tactic(auto, unfolding(crate::specs::Texts::shown_byte, model::specs::Lists::between))]
fn shown(b: u8) -> u8
    ensures { result ≡ shown_byte b }
{
    match b {
        32..=126 => b,
        _ => b'?',
    }
}

fn tab(column: u32) -> Message
    ensures value { result ≡ message (tab_text column) }
    ensures counted { Counted result }
{
    Message::empty()
        .add(b"the line has a tab in column ")
        .add_number(column)
        .add(b"\n")
}

fn width(k: u32) -> Message
    ensures value { result ≡ message (width_text k) }
    ensures counted { Counted result }
{
    Message::empty()
        .add(b"the line has ")
        .add_number(k)
        .add(b" columns\n")
}

// `columns A to B`
#[tactic(auto, unfolding(crate::specs::Texts::columns_message))]
fn columns(at: Columns) -> Message
    ensures { result ≡ columns_message at }
{
    Message::empty()
        .add(b"columns ")
        .add_number(at.first)
        .add(b" to ")
        .add_number(at.last)
}

// `LOW to HIGH`; a range of one number is that number.
#[tactic(auto, unfolding(crate::specs::Texts::added_range))]
fn to_most(m: Message, low: u32, high: u32) -> Message
    ensures { result ≡ added_range m low high }
{
    let m = m.add_number(low);
    if low == high {
        return m.add(b"\n");
    }
    m.add(b" to ").add_number(high).add(b"\n")
}

fn unread(at: Columns, four: Four) -> Message
    ensures value { result ≡ message (unread_text at four) }
    ensures counted { Counted result }
{
    let text = [shown(four.a), shown(four.b), shown(four.c), shown(four.d)];
    columns(at).add(b" have `").add(&text).add(b"`\n")
}

fn outside(at: Columns, v: u32, range: Range) -> Message
    ensures value { result ≡ message (outside_text at v range) }
    ensures counted { Counted result }
{
    let m = columns(at)
        .add(b" have ")
        .add_number(v)
        .add(b": ")
        .add(name(range.name))
        .add(b" must be ");
    to_most(m, range.low, range.high)
}

fn count(has: u32, low: u32, high: u32) -> Message
    ensures value { result ≡ message (count_text has low high) }
    ensures counted { Counted result }
{
    let m = Message::empty()
        .add(b"the line has ")
        .add_number(has)
        .add(b" fields: it must have ");
    to_most(m, low, high)
}

fn marks(has: u32, n: u32) -> Message
    ensures value { result ≡ message (marks_text has n) }
    ensures counted { Counted result }
{
    Message::empty()
        .add(b"the line has ")
        .add_number(has)
        .add(b" fields: a group has 4, and a mark for each of the ")
        .add_number(n)
        .add(b" entrants\n")
}

// The kind of line that is due.
#[tactic(auto, unfolding(crate::specs::Texts::due_text))]
fn due_here(due: u32) -> &'static [u8]
    ensures { result.now ≡ due_text due }
{
    match due {
        2 => b"; a group (2) is due here\n",
        3 => b"; a constraint (3) is due here\n",
        _ => b"\n",
    }
}

fn lines(h: Head, lines: u32, has: u32, due: u32) -> Message
    ensures value { result ≡ message (lines_text h lines has due) }
    ensures counted { Counted result }
{
    Message::empty()
        .add(b"the head says ")
        .add_number(h.s)
        .add(b" groups and ")
        .add_number(h.c)
        .add(b" constraints, so ")
        .add_number(lines)
        .add(b" lines; the sheet has ")
        .add_number(has)
        .add(due_here(due))
}

fn unended(line: u32) -> Message
    ensures value { result ≡ message (unended_text line) }
    ensures counted { Counted result }
{
    Message::empty()
        .add(b"the last line, line ")
        .add_number(line)
        .add(b", does not end in a newline\n")
}

// The words of a fault; none where there is nothing more to say.
pub fn explain(f: Fault) -> Message
    ensures value { result ≡ message (fault_text f) }
    ensures counted { Counted result }
{
    match f {
        Fault::Nothing => Message::empty(),
        Fault::OrderMark => Message::empty().add(b"the sheet begins with a byte order mark\n"),
        Fault::Return => Message::empty().add(b"the line ends in a carriage return\n"),
        Fault::Tab(column) => tab(column),
        Fault::Width(k) => width(k),
        Fault::Unread(at, four) => unread(at, four),
        Fault::Outside(at, v, range) => outside(at, v, range),
        Fault::Count(has, low, high) => count(has, low, high),
        Fault::Marks(has, n) => marks(has, n),
        Fault::Lines(h, k, has, due) => lines(h, k, has, due),
        Fault::Empty => Message::empty().add(b"the sheet is empty\n"),
        Fault::Unended(line) => unended(line),
    }
}
