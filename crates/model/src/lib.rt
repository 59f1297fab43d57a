// The model of a sheet: its types and its limits, and what each entry answers.
// Everything above is built on this crate: its specs/ hold every definition of document 01.
#![tactic(auto)]

ghost use Rattle.std.specs.Prelude.{◌≡◌, ◌≤◌, min, cond, T, leb, eqb, length};
ghost use Rattle.std.specs.List.{list_all, position_or_len};
ghost use Rattle.model.specs.Limits.{limits, groups_for};
ghost use Rattle.model.specs.Words.{full, less};
ghost use Rattle.model.specs.Sheet.{short_number};
ghost use Rattle.model.specs.Model.{zero_model, constraint_sized};

// "F" and "-F" of document 01: of a member of a constraint, of a group, of a variable, or of an output by its index.
#[derive(Clone, Copy, PartialEq, Eq)]
pub enum Literal {
    Pos(u32),
    Neg(u32),
}

// A literal of which some are known before the solver runs.
#[derive(Clone, Copy, PartialEq, Eq)]
pub enum Term {
    Holds,
    Fails,
    Open(Literal),
}

// A clause of a totalizer's node as document 001 prints it: a literal of child C, of child D and of the node N, each by its output's index.
#[derive(Clone, Copy)]
pub struct Printed {
    pub c: Literal,
    pub d: Literal,
    pub n: Literal,
}

// Both clauses of a p and q.
#[derive(Clone, Copy)]
pub struct Formed {
    pub up: Printed,
    pub down: Printed,
}

// A node: child C has a outputs, numbered from c on, child D has b from d on, and the node N a + b from n on.
#[derive(Clone, Copy)]
pub struct Node {
    pub c: u32,
    pub a: u32,
    pub d: u32,
    pub b: u32,
    pub n: u32,
}

// Source 001's group record. Entrant e is bit e - 1 of a word.
#[derive(Clone, Copy, PartialEq, Eq)]
pub struct Group {
    pub fixed: u64,
    pub possible: u64,
    pub low: u32,
    pub high: u32,
}

// A constraint line: its code, k where the code is 6, and the numbers of its groups in the sheet's order.
#[derive(Clone, Copy)]
pub struct Constraint {
    pub code: u32,
    pub count: u32,
    pub groups: [u32; Model::MEMBERS],
}

// A sheet: n entrants, s groups, c constraints. Entries past s, past c and past a constraint's groups are ignored.
#[derive(Clone, Copy)]
pub struct Model {
    pub n: u32,
    pub s: u32,
    pub c: u32,
    pub groups: [Group; Model::GROUPS],
    pub constraints: [Constraint; Model::CONSTRAINTS],
}

// What stands in a field of a sheet.
#[derive(Clone, Copy, PartialEq, Eq)]
pub enum Field {
    Number(u32),
    Blank,
    Bad,
}

// The sheet reader's answer: 0, 0 and the model; or a refusal, its line and the zero model.
#[derive(Clone, Copy)]
pub struct SheetRead {
    pub refusal: u32,
    pub line: u32,
    pub model: Model,
}

// The answer of propagation: 0, the passes made and the settled model; or a refusal, 0 and the model as it came.
#[derive(Clone, Copy)]
pub struct Propagated {
    pub refusal: u32,
    pub passes: u32,
    pub model: Model,
}

// The block writer's answer: the length of the block's text, or a refusal.
#[derive(Clone, Copy, PartialEq, Eq)]
pub enum Written {
    Bytes(usize),
    Refused(u32),
}

// A word of a `v` line: a literal, the closing 0, or neither.
#[derive(Clone, Copy, PartialEq, Eq)]
pub enum Word {
    Names(Literal),
    Closing,
    Malformed,
}

// The reading state of document 01: whether a closing 0 was read.
#[derive(Clone, Copy)]
pub struct Reading {
    pub closed: bool,
}

// The answer to a solver line: 0 and the next reading, or a refusal and the reading as it came.
#[derive(Clone, Copy)]
pub struct LineRead {
    pub refusal: u32,
    pub reading: Reading,
}

// The closing call's answer: 0 and a word for each group, or a refusal and zeros.
#[derive(Clone, Copy)]
pub struct Closed {
    pub refusal: u32,
    pub groups: [u64; Model::GROUPS],
}

// Combining's answer: 0 and the combined model, or a refusal and the zero model.
#[derive(Clone, Copy)]
pub struct Combined {
    pub refusal: u32,
    pub model: Model,
}

// The limits in one value, for the law that the constants below are the definitions' numbers.
#[derive(Clone, Copy)]
pub struct Limits {
    pub word: u32,
    pub entrants: u32,
    pub narrow: u32,
    pub groups: usize,
    pub wide: usize,
    pub constraints: usize,
    pub members: usize,
    pub sheet: usize,
    pub block: usize,
    pub variables: usize,
}

impl Model {
    pub const WORD: u32 = 64;

    pub const ENTRANTS: u32 = 64;

    // The most entrants with which a sheet may have GROUPS groups; with more it has at most WIDE.
    pub const NARROW: u32 = 32;

    pub const GROUPS: usize = 256;

    pub const WIDE: usize = 96;

    pub const CONSTRAINTS: usize = 256;

    pub const MEMBERS: usize = 17;

    pub const SHEET_BYTES: usize = 57873;

    pub const BLOCK_BYTES: usize = 65536;

    pub const VARIABLES: usize = 59392;

    pub fn limits() -> Limits
        ensures { result ≡ limits }
    {
        Limits {
            word: Model::WORD,
            entrants: Model::ENTRANTS,
            narrow: Model::NARROW,
            groups: Model::GROUPS,
            wide: Model::WIDE,
            constraints: Model::CONSTRAINTS,
            members: Model::MEMBERS,
            sheet: Model::SHEET_BYTES,
            block: Model::BLOCK_BYTES,
            variables: Model::VARIABLES,
        }
    }

    // The all-zero model.
    pub fn zero() -> Self
        ensures { result ≡ zero_model }
    {
        let g = Group {
            fixed: 0,
            possible: 0,
            low: 0,
            high: 0,
        };
        let c = Constraint {
            code: 0,
            count: 0,
            groups: [0; Model::MEMBERS],
        };
        Model {
            n: 0,
            s: 0,
            c: 0,
            groups: [g; Model::GROUPS],
            constraints: [c; Model::CONSTRAINTS],
        }
    }
}

// The arrays of a model have the lengths of their types, and so have its constraints' own.
pub fn whole(groups: [Group; Model::GROUPS], constraints: [Constraint; Model::CONSTRAINTS])
    ensures { (length groups ≡ limits.groups) × (length constraints ≡ limits.constraints) × T (list_all constraint_sized constraints) }
{}

// The most groups of a sheet of n entrants.
pub fn groups_for(n: u32) -> usize
    ensures { (result ≡ groups_for n) × (result ≤ limits.groups) }
{
    if n <= Model::NARROW {
        return Model::GROUPS;
    }
    Model::WIDE
}

// The entrants 1 to n as a word; as many as a word has fill it, which no shift gives.
pub fn entrants(n: u32) -> u64
    ensures { result ≡ full (min n limits.word) }
{
    if n < Model::WORD {
        return (1 << n) - 1;
    }
    u64::MAX
}

// Those of a who are not in b.
pub fn without(a: u64, b: u64) -> u64
    ensures { result ≡ less a b }
{
    a & !b
}

// How many bytes stand before the first that is `byte`.
pub fn length_before(bytes: &[u8], byte: u8) -> usize
    ensures { result ≡ position_or_len (λ b. eqb b byte) bytes.now }
{
    bytes.iter().position(|b| *b == byte).unwrap_or(bytes.len())
}

// The number that digits stand for, up to 9 of them: of a field of a sheet, and of a literal of a solver's line.
pub fn decimal(d: &[u8]) -> Option<u32>
    ensures { result ≡ short_number d.now }
{
    if 9 < d.len() {
        return None;
    }
    let mut v: u32 = 0;
    for b in d {
        if !b.is_ascii_digit() {
            return None;
        }
        v = v * 10 + u32::from(b - b'0');
    }
    Some(v)
}
