// What the programs say, each message by value: refusals with their meaning in words for the counter, and counts.
#![tactic(auto)]

ghost use Rattle.std.specs.Prelude.{◌≡◌, []};
ghost use Rattle.model.specs.Text.{decimal};
ghost use Rattle.report.specs.Messages.{meaning_text, refused_text, refused_at_text, refused_line_text, clash_text, number_text, counts_text, passes_text, Counted, closed_text, ending_text, block_line, changed_text, reason_text, not_certified_text, no_draw_text, fault_start, fault_end, wrong_groups_text, notice_text, message, added, added_tried};

// The most bytes of a message.
pub const MOST: usize = 160;

// The first `length` bytes are the text; the others are zero.
#[derive(Clone, Copy)]
pub struct Message {
    pub length: usize,
    pub bytes: [u8; MOST],
}

impl Message {
    #[tactic(auto, unfolding(crate::specs::Messages::message))]
    pub fn empty() -> Message
        ensures { result ≡ message [] }
    {
        Message {
            length: 0,
            bytes: [0; MOST],
        }
    }

    // The message with a text after it, where there is room.
    #[tactic(auto, unfolding(crate::specs::Messages::added))]
    pub fn add(mut self, text: &[u8]) -> Message
        ensures { result ≡ added self text.now }
    {
        let at = self.length;
        self.length = text::put_bytes(&mut self.bytes, at, text);
        self
    }

    #[tactic(auto, unfolding(crate::specs::Messages::added))]
    pub fn add_number(mut self, v: u32) -> Message
        ensures { result ≡ added self (decimal v) }
    {
        let at = self.length;
        self.length = text::put_number(&mut self.bytes, at, v);
        self
    }
}

// What a refusal means.
#[tactic(auto, unfolding(crate::specs::Messages::meaning_text))]
fn meaning(refusal: u32) -> &'static [u8]
    ensures { result.now ≡ meaning_text refusal }
{
    match refusal {
        1 => b"the sheet has more than 57,873 bytes\n",
        2 => b"the sheet is empty, or its last line does not end in a newline\n",
        3 => b"the line is empty, or its length is no multiple of four columns\n",
        4 =>
            b"a field is not a number set to the right of its four columns, without needless zeros; only a mark may be left blank\n",
        5 =>
            b"another kind of line belongs here: one head (1), then the groups (2), then the constraints (3)\n",
        6 =>
            b"the number of fields is wrong, or the code is not 1 to 7, or its count is not 2 to 16\n",
        7 => b"a number is out of its range\n",
        8 => b"the group's number is not the next one\n",
        9 => b"a group stands twice in the line\n",
        10 => b"the line is not one of the solver's output form\n",
        11 => b"the line names a variable that the listing does not have\n",
        12 => b"a variable is said twice\n",
        20 => b"the model is out of a sheet's ranges\n",
        21 => b"no draw: the groups' limits and constraints contradict each other\n",
        22 => b"the table is not settled\n",
        23 => b"the listing has no such block\n",
        24 => b"the buffer is shorter than the block\n",
        25 => b"a value line comes after the closing 0\n",
        26 => b"the number of values is not the number of variables\n",
        27 => b"the solver's answer is not complete: no closing 0, or a variable is not said\n",
        28 => b"the solver's answer breaks a clause\n",
        29 => b"a constraint has a clause without literals\n",
        30 => b"the groups are not a draw of the sheet\n",
        31 => b"the sheets do not have the same number of entrants and of groups\n",
        32 =>
            b"one sheet bars an entrant whom the other fixes, or the low of one exceeds the high of the other\n",
        33 => b"the sheets have more than 256 constraint lines in all\n",
        _ => b"",
    }
}

// `refused N`, a newline and the meaning.
pub fn refused(refusal: u32) -> Message
    ensures value { result ≡ message (refused_text refusal) }
    ensures counted { Counted result }
{
    Message::empty()
        .add(b"refused ")
        .add_number(refusal)
        .add(b"\n")
        .add(meaning(refusal))
}

// `refused N at line L`, a newline and the meaning.
pub fn refused_at(refusal: u32, line: u32) -> Message
    ensures value { result ≡ message (refused_at_text refusal line) }
    ensures counted { Counted result }
{
    Message::empty()
        .add(b"refused ")
        .add_number(refusal)
        .add(b" at line ")
        .add_number(line)
        .add(b"\n")
        .add(meaning(refusal))
}

// `line L: refused N: ` and the meaning, of a solver's line; 24 is a line that is too long.
pub fn refused_line(line: u32, refusal: u32) -> Message
    ensures value { result ≡ message (refused_line_text line refusal) }
    ensures counted { Counted result }
{
    let m = Message::empty().add(b"line ").add_number(line);
    if refusal == 24 {
        return m.add(b": too long, not read\n");
    }
    m.add(b": refused ")
        .add_number(refusal)
        .add(b": ")
        .add(meaning(refusal))
}

// `refused 32 at group G, entrant E`, a newline and what the two sheets say of the entrant; or, where it is 0, of the group's limits.
pub fn clashed(group: u32, entrant: u32) -> Message
    ensures value { result ≡ message (clash_text group entrant) }
    ensures counted { Counted result }
{
    let m = Message::empty()
        .add(b"refused 32 at group ")
        .add_number(group);
    if entrant == 0 {
        return m.add(b"\nthe low of one sheet exceeds the high of the other\n");
    }
    m.add(b", entrant ")
        .add_number(entrant)
        .add(b"\none sheet bars the entrant, the other fixes it\n")
}

// A number in a line.
pub fn number(k: u32) -> Message
    ensures value { result ≡ message (number_text k) }
    ensures counted { Counted result }
{
    Message::empty().add_number(k).add(b"\n")
}

// `passes K`
pub fn passes(k: u32) -> Message
    ensures value { result ≡ message (passes_text k) }
    ensures counted { Counted result }
{
    Message::empty().add(b"passes ").add_number(k).add(b"\n")
}

// `N entrants, S groups, C constraints`
pub fn counts(n: u32, s: u32, c: u32) -> Message
    ensures value { result ≡ message (counts_text n s c) }
    ensures counted { Counted result }
{
    Message::empty()
        .add_number(n)
        .add(b" entrants, ")
        .add_number(s)
        .add(b" groups, ")
        .add_number(c)
        .add(b" constraints\n")
}

// Whether an answer is closed.
#[tactic(auto, unfolding(crate::specs::Messages::closed_text))]
fn closed_or_not(closed: bool) -> &'static [u8]
    ensures { result.now ≡ closed_text closed }
{
    if closed { b"closed\n" } else { b"not closed\n" }
}

// The end of an answer: whether it is closed, and how many variables no line said.
pub fn ending(closed: bool, k: u32) -> Message
    ensures value { result ≡ message (ending_text closed k) }
    ensures counted { Counted result }
{
    let m = Message::empty().add(closed_or_not(closed));
    if k == 0 {
        return m;
    }
    m.add(b"unsaid ").add_number(k).add(b"\n")
}

// What a buffer of `room` bytes gave: a refusal, or 0 and the text's length. The definition `tried_text` says it of the 0.
#[derive(Clone, Copy)]
pub struct Tried {
    pub room: u32,
    pub refusal: u32,
    pub length: u32,
}

// `; in R bytes: ` and what came of it.
#[tactic(auto, unfolding(crate::specs::Messages::added_tried, crate::specs::Messages::added_result))]
fn add_tried(m: Message, t: Tried) -> Message
    ensures { result ≡ added_tried m t }
{
    let m = m.add(b"; in ").add_number(t.room).add(b" bytes: ");
    if t.refusal == 0 {
        return m.add_number(t.length);
    }
    m.add(b"refused ").add_number(t.refusal)
}

// `block B: K bytes`, and what a buffer of that length and one a byte shorter gave. An empty block has no shorter one.
pub fn block(b: u32, k: u32, exact: Tried, short: Tried) -> Message
    ensures value { result ≡ message (block_line b k exact short) }
    ensures counted { Counted result }
{
    let m = Message::empty()
        .add(b"block ")
        .add_number(b)
        .add(b": ")
        .add_number(k)
        .add(b" bytes");
    let m = add_tried(m, exact);
    if k == 0 {
        return m.add(b"\n");
    }
    add_tried(m, short).add(b"\n")
}

// `block B: a byte past the text changed`
pub fn changed(b: u32) -> Message
    ensures value { result ≡ message (changed_text b) }
    ensures counted { Counted result }
{
    Message::empty()
        .add(b"block ")
        .add_number(b)
        .add(b": a byte past the text changed\n")
}

// Why a certificate does not certify.
#[tactic(auto, unfolding(crate::specs::Messages::reason_text))]
fn why(reason: u32) -> &'static [u8]
    ensures { result.now ≡ reason_text reason }
{
    match reason {
        1 => b"there is no room for another clause",
        2 => b"a clause has a larger number than there is room for",
        3 => b"the listing has no such variable",
        4 => b"no clause is stored under that number",
        5 => b"a hint says nothing: more than one of its literals is open",
        6 => b"the hints do not show the clause",
        7 => b"it has too many lines",
        8 => b"a byte stands where none of the format does",
        9 => b"a number is above 400,000,000",
        10 => b"a hint has a minus sign (RAT), which is not taken",
        11 => b"there is no room for a block of the listing",
        12 => b"it ends before the empty clause",
        _ => b"",
    }
}

// `not certified: `, the reason and the certificate's line, where it has one.
pub fn not_certified(reason: u32, line: u32) -> Message
    ensures value { result ≡ message (not_certified_text reason line) }
    ensures counted { Counted result }
{
    let m = Message::empty().add(b"not certified: ").add(why(reason));
    if line == 0 {
        return m.add(b"\n");
    }
    m.add(b" (line ")
        .add_number(line)
        .add(b" of the certificate)\n")
}

// A "no" that is shown: by a certificate, or by settling alone.
pub fn no_draw(certified: bool) -> Message
    ensures value { result ≡ message (no_draw_text certified) }
    ensures counted { Counted result }
{
    if certified {
        return Message::empty().add(b"no draw: certified\n");
    }
    Message::empty().add(b"no draw: settled out\n")
}

// What is wrong with a line of groups: the words before the number of the group or entrant, and those after it.
#[tactic(auto, unfolding(crate::specs::Messages::fault_start))]
fn before_number(fault: u32) -> &'static [u8]
    ensures { result.now ≡ fault_start fault }
{
    match fault {
        2 => b"the sheet has no group ",
        3 | 4 => b"group ",
        5 | 6 => b"entrant ",
        _ => b"",
    }
}

#[tactic(auto, unfolding(crate::specs::Messages::fault_end))]
fn after_number(fault: u32) -> &'static [u8]
    ensures { result.now ≡ fault_end fault }
{
    match fault {
        2 => b"\n",
        3 => b" stands twice\n",
        4 => b" is missing\n",
        5 => b" is not one of the sheet's\n",
        6 => b" stands twice in the line\n",
        _ => b"",
    }
}

// `line L: ` and what is wrong with it, of the lines of a draw's groups.
pub fn wrong_groups(fault: u32, line: u32, number: u32) -> Message
    ensures value { result ≡ message (wrong_groups_text fault line number) }
    ensures counted { Counted result }
{
    let m = Message::empty().add(b"line ").add_number(line);
    if fault == 1 {
        return m.add(
            b": not a line as `1: 3 7 9`: the group's number, a colon, then each entrant after one space\n",
        );
    }
    m.add(b": ")
        .add(before_number(fault))
        .add_number(number)
        .add(after_number(fault))
}

// What a program says besides: what it could not write, the name of an argument that is missing, how it is called.
#[derive(Clone, Copy)]
pub enum Notice {
    OutputNotWritten,
    ListingNotWritten,
    SheetNotWritten,
    GroupsTooLong,
    Sheet,
    FirstSheet,
    SecondSheet,
    AnswerUsage,
}

#[tactic(auto, unfolding(crate::specs::Messages::notice_text))]
fn words(what: Notice) -> &'static [u8]
    ensures { result.now ≡ notice_text what }
{
    match what {
        Notice::OutputNotWritten => b"the output could not be written\n",
        Notice::ListingNotWritten => b"the listing could not be written\n",
        Notice::SheetNotWritten => b"the sheet could not be written\n",
        Notice::GroupsTooLong => b"the groups have more than 65,536 bytes\n",
        Notice::Sheet => b"argument 1, the sheet",
        Notice::FirstSheet => b"argument 1, the first sheet",
        Notice::SecondSheet => b"argument 2, the second sheet",
        Notice::AnswerUsage => b"usage: read_answer VARIABLES < ANSWER\n",
    }
}

pub fn noted(what: Notice) -> Message
    ensures value { result ≡ message (notice_text what) }
    ensures counted { Counted result }
{
    Message::empty().add(words(what))
}
