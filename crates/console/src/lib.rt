// What the programs share at their edge, the calls that write and read: no contract says what these do.
#![tactic(auto)]

ghost use Rattle.std.specs.Option.{ForSome};
ghost use Rattle.std.specs.Prelude.{◌+◌, ◌≡◌, ◌≤◌, length};
ghost use Rattle.console.specs.Counts.{IsPrefixLen};
ghost use Rattle.model.specs.Limits.{limits};
ghost use Rattle.report.specs.Messages.{Counted};

use model::Model;
use report::{Message, Notice};
use std::env::{Env, FillError};
use std::fs::{File, Files};
use std::io;
use std::io::{Read, Stderr, Stdin, Stdout, Write};

// ---- space

// 4,096 zeros, which hold any path. The `ensures` gives only the length, which lending the array as a slice needs.
pub fn buffer() -> [u8; 4096]
    ensures { 4096 ≡ length result }
{
    [0; 4096]
}

// 65,536 zeros, for a loop that moves much data.
pub fn large_buffer() -> [u8; 65536]
    ensures { 65536 ≡ length result }
{
    [0; 65536]
}

// ---- messages

// Where a program writes: its answer, and what it says besides.
#[derive(Clone, Copy)]
pub struct Streams {
    pub out: Stdout,
    pub err: Stderr,
}

fn sized(bytes: [u8; report::MOST])
    ensures { length bytes ≡ 160 }
{}

// The message, which claims no more bytes than there are.
fn counted(m: Message) -> Message
    ensures { Counted result }
{
    let bytes = m.bytes;
    sized(bytes);
    let n = m.length;
    if report::MOST < n {
        return Message { length: 0, bytes };
    }
    Message { length: n, bytes }
}

// Whether all of the text was written.
fn write_all(stream: &impl Print, text: &[u8]) -> bool {
    stream.write_all(text).is_ok()
}

fn write_message(stream: &impl Print, m: Message) -> bool {
    let w = counted(m);
    let bytes = w.bytes;
    let n = w.length;
    write_all(stream, &bytes[..n])
}

// A message on standard error.
pub fn warn(to: Streams, m: Message) {
    write_message(&to.err, m);
}

// Whether it was written. Where it was not, `failure` says so.
fn written(to: Streams, done: bool, failure: Notice) -> bool
    ensures { result ≡ done }
{
    if !done {
        warn(to, report::noted(failure));
    }
    done
}

// Whether all of a text was written to standard output.
pub fn put(to: Streams, text: &[u8]) -> bool {
    write_all(&to.out, text)
}

// A text on standard output.
pub fn write(to: Streams, text: &[u8], failure: Notice) -> bool {
    written(to, write_all(&to.out, text), failure)
}

// A message on standard output.
pub fn print(to: Streams, m: Message) -> bool {
    written(to, write_message(&to.out, m), Notice::OutputNotWritten)
}

// ---- reading

// How many bytes one read put at the start of buf: 0 at the end, and where it fails.
fn read_some(from: &mut impl Read, buf: &mut [u8]) -> usize
    ensures { IsPrefixLen result buf.new }
{
    match from.read(buf) {
        Ok(n) => n,
        Err(_) => 0,
    }
}

// The same of standard input.
pub fn read_piece(input: Stdin, buf: &mut [u8]) -> usize
    ensures { IsPrefixLen result buf.new }
{
    let mut from = input;
    read_some(&mut from, buf)
}

// Reads until buf is full, the input ends or a read fails: how many bytes are in buf, from its start.
fn read_full(from: &mut impl Read, buf: &mut [u8]) -> usize
    ensures { IsPrefixLen result buf.new }
{
    let mut done = 0;
    while done < buf.len() {
        let n = read_some(from, &mut buf[done..]);
        if n == 0 {
            break;
        }
        done += n;
    }
    done
}

// How many bytes of standard input are in buf, from its start.
pub fn read_input(input: Stdin, buf: &mut [u8]) -> usize
    ensures { IsPrefixLen result buf.new }
{
    let mut from = input;
    read_full(&mut from, buf)
}

// ---- arguments

// Argument k at the start of buf, and its length: 0 where it is missing, or longer than buf.
pub fn argument(rt: &impl Env, k: usize, buf: &mut [u8]) -> usize
    ensures { IsPrefixLen result buf.new }
{
    match rt.arg(k, buf) {
        Ok(n) => n,
        Err(_) => 0,
    }
}

// Whether there is an argument k.
pub fn has_argument(rt: &impl Env, k: usize) -> bool {
    let mut buf = [0u8; 1];
    match rt.arg(k, &mut buf) {
        Ok(_) => true,
        Err(FillError::TooLong) => true,
        Err(FillError::NotPresent) => false,
    }
}

// ---- sheets

// Room for a sheet and one byte more, so that a longer one is seen to be.
pub fn sheet_room() -> [u8; Model::SHEET_BYTES + 1]
    ensures { length result ≡ limits.sheet + 1 }
{
    [0; Model::SHEET_BYTES + 1]
}

// How many bytes of standard input are in buf, from its start.
pub fn read_sheet(input: Stdin, buf: &mut [u8]) -> usize
    ensures { IsPrefixLen result buf.new }
{
    read_input(input, buf)
}

// The numbers of the system's errors for an argument that is missing, for one that is too long, and for bytes that are no text.
const MISSING: i32 = 22;

const TOO_LONG: i32 = 36;

const NO_TEXT: i32 = 84;

// An error's text, as `No such file or directory (os error 2)`, at the start of room.
fn error_text(error: io::Error, room: &mut [u8]) -> usize
    ensures { result ≤ length room.new }
{
    let most = room.len();
    let mut rest: &mut [u8] = room;
    let _ = write!(rest, "{error}");
    let left = rest.len();
    most.saturating_sub(left)
}

// The text before the error's number.
fn without_number(text: &[u8]) -> &[u8] {
    let Ok(words) = str::from_utf8(text) else {
        return text;
    };
    match words.split_once(" (os error ") {
        Some((before, _)) => before.as_bytes(),
        None => text,
    }
}

// Why a call failed, after what it was about.
fn fail(err: Stderr, what: &[u8], error: io::Error) {
    let mut room = [0u8; 128];
    let n = error_text(error, &mut room);
    write_all(&err, what);
    write_all(&err, b": ");
    write_all(&err, without_number(&room[..n]));
    write_all(&err, b"\n");
}

// The same after a message.
fn fail_at(err: Stderr, m: Message, error: io::Error) {
    let w = counted(m);
    let bytes = w.bytes;
    let n = w.length;
    fail(err, &bytes[..n], error);
}

// The sheet of the file that argument k names, in buf from its start, and how many bytes it has. Where there is none, that is said; `missing` names an
// argument that is not there.
pub fn open_sheet(
    rt: &(impl Files + Env),
    err: Stderr,
    k: usize,
    missing: Notice,
    buf: &mut [u8],
) -> Option<usize>
    ensures { ForSome result (λ n. IsPrefixLen n buf.new) }
{
    let mut path = buffer();
    let length = match rt.arg(k, &mut path) {
        Ok(n) => n,
        Err(FillError::NotPresent) => {
            fail_at(
                err,
                report::noted(missing),
                io::Error::from_raw_os_error(MISSING),
            );
            return None;
        }
        Err(FillError::TooLong) => {
            fail_at(
                err,
                report::noted(missing),
                io::Error::from_raw_os_error(TOO_LONG),
            );
            return None;
        }
    };
    let Ok(name) = str::from_utf8(&path[..length]) else {
        fail(err, &path[..length], io::Error::from_raw_os_error(NO_TEXT));
        return None;
    };
    match File::open(rt, name) {
        Ok(mut file) => Some(read_full(&mut file, buf)),
        Err(e) => {
            fail(err, &path[..length], e);
            None
        }
    }
}

// Argument k, before a message about it.
pub fn warn_of(rt: &impl Env, err: Stderr, k: usize) {
    let mut path = buffer();
    let length = argument(rt, k, &mut path);
    write_all(&err, &path[..length]);
    write_all(&err, b": ");
}
