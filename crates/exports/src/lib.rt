// What a Rust program calls: each entry on numbers and slices, its answer as one number.
#![tactic(auto)]

ghost use Rattle.std.specs.Prelude.{◌≡◌, ◌≤◌, length};
ghost use Rattle.model.specs.Limits.{limits};
ghost use Rattle.model.specs.Assignment.{values_after};
ghost use Rattle.model.specs.Text.{block_buffer};
ghost use Rattle.model.specs.SheetText.{sheet_buffer};
ghost use Rattle.model.specs.Fill.{fill_refusal, filled_values};
ghost use Rattle.words.specs.Words.{model_from};
ghost use Rattle.exports.specs.Draw.{draw_read, settled_sheet, fitted, settle_number, table_after, draw_settle, draw_table, model_settle, model_table, draw_block, draw_buffer, model_block, draw_block_count, model_block_count, model_sheet, draw_blocks, draw_run, reading_of, draw_line, closed_sheet, draw_close, draw_groups, model_close, model_groups, draw_fill, draw_values, combined_sheets, draw_combine, draw_combined, model_combine, model_combined};
ghost use Rattle.certificate.specs.NoDraw.{left_as};
ghost use Rattle.exports.specs.Certify.{verdict_number, Judged};
ghost use Rattle.exports.specs.Answer.{draw_answer, draw_answered, DrawOf};

use certificate::Verdict;
use model::{Closed, Combined, Model, Propagated, Reading, Written};

// Reading: refusal * 65536 + line.
#[unsafe(no_mangle)]
pub extern "C" fn draw_read(sheet: &[u8]) -> u64
    ensures { result ≡ draw_read sheet.now }
{
    let r = sheet::read_sheet(sheet);
    packing::numbered(r.refusal, r.line)
}

// ---- settling

// The settled model of a sheet; or the refusal of the reader or of settling.
fn settled(sheet: &[u8]) -> Propagated
    ensures { result ≡ settled_sheet sheet.now }
{
    let r = sheet::read_sheet(sheet);
    let m = r.model;
    if r.refusal != 0 {
        return Propagated {
            refusal: r.refusal,
            passes: 0,
            model: m,
        };
    }
    propagate::propagate(m)
}

// Settling's number, refusal * 65536 + passes, and the words of the settled table. A table without room for them is 24.
fn settle_number(p: Propagated, table: &mut [u64]) -> u64
    requires { p.refusal ≡ 0 → p.model.s ≤ limits.groups }
    ensures value { result ≡ settle_number (fitted (length table.old) p) }
    ensures table_after { table.new ≡ table_after (fitted (length table.old) p) table.old }
{
    if p.refusal != 0 {
        return packing::numbered(p.refusal, p.passes);
    }
    let m = p.model;
    if !packing::put_groups(&m.groups, m.s as usize, table) {
        return packing::numbered(24, 0);
    }
    packing::numbered(p.refusal, p.passes)
}

#[unsafe(no_mangle)]
pub extern "C" fn draw_settle(sheet: &[u8], table: &mut [u64]) -> u64
    ensures value { result ≡ draw_settle sheet.now (length table.old) }
    ensures table_after { table.new ≡ draw_table sheet.now table.old }
{
    let p = settled(sheet);
    settle_number(p, table)
}

#[unsafe(no_mangle)]
pub extern "C" fn draw_settle_model(words: &[u64], table: &mut [u64]) -> u64
    ensures value { result ≡ model_settle words.now (length table.old) }
    ensures table_after { table.new ≡ model_table words.now table.old }
{
    let m = words::model_from(words);
    let p = propagate::propagate(m);
    settle_number(p, table)
}

// A block of the settled sheet: refusal * 4294967296 + length.
#[unsafe(no_mangle)]
pub extern "C" fn draw_block(sheet: &[u8], block: u32, buffer: &mut [u8]) -> u64
    ensures value { result ≡ draw_block sheet.now block (length buffer.old) }
    ensures buffer_after { buffer.new ≡ draw_buffer sheet.now block buffer.old }
{
    let p = settled(sheet);
    if p.refusal != 0 {
        return packing::written_number(Written::Refused(p.refusal));
    }
    let m = p.model;
    let w = cnf::write_block(m, block, buffer);
    packing::written_number(w)
}

#[unsafe(no_mangle)]
pub extern "C" fn draw_block_model(words: &[u64], block: u32, buffer: &mut [u8]) -> u64
    ensures value { result ≡ model_block words.now block (length buffer.old) }
    ensures buffer_after { buffer.new ≡ block_buffer (model_from words.now) block buffer.old }
{
    let m = words::model_from(words);
    let w = cnf::write_block(m, block, buffer);
    packing::written_number(w)
}

// Where the listing of the settled sheet ends: refusal * 65536 + the number of its last block.
#[unsafe(no_mangle)]
pub extern "C" fn draw_block_count(sheet: &[u8]) -> u64
    ensures { result ≡ draw_block_count sheet.now }
{
    let p = settled(sheet);
    if p.refusal != 0 {
        return packing::numbered(p.refusal, 0);
    }
    let m = p.model;
    packing::numbered(0, blocks::block_count(m))
}

// The number of a model's last block, settled or not; 0 where it is out of range.
#[unsafe(no_mangle)]
pub extern "C" fn draw_block_count_model(words: &[u64]) -> u32
    ensures { result ≡ model_block_count words.now }
{
    let m = words::model_from(words);
    blocks::block_count(m)
}

// A model's sheet: refusal * 4294967296 + length.
#[unsafe(no_mangle)]
pub extern "C" fn draw_write_model(words: &[u64], buffer: &mut [u8]) -> u64
    ensures value { result ≡ model_sheet words.now (length buffer.old) }
    ensures buffer_after { buffer.new ≡ sheet_buffer (model_from words.now) buffer.old }
{
    let m = words::model_from(words);
    let w = sheet_writer::write_sheet(m, buffer);
    packing::written_number(w)
}

// Blocks of the settled sheet, from one on while they fit: next * 4294967296 + length, where next is never 0; or the refusal.
#[unsafe(no_mangle)]
pub extern "C" fn draw_blocks(sheet: &[u8], block: u32, buffer: &mut [u8]) -> u64
    ensures value { result ≡ draw_blocks sheet.now block (length buffer.old) }
    ensures buffer_after { buffer.new ≡ draw_run sheet.now block buffer.old }
{
    let p = settled(sheet);
    if p.refusal != 0 {
        return p.refusal as u64;
    }
    let m = p.model;
    let r = cnf::write_blocks(m, block, buffer);
    packing::run_number(r.refusal, r.next, r.length as u32)
}

// A solver line: refusal * 2, and 1 more where the reading is closed afterwards.
#[unsafe(no_mangle)]
pub extern "C" fn draw_line(closed: u32, line: &[u8], values: &mut [u8]) -> u32
    ensures value { result ≡ draw_line closed line.now values.old }
    ensures values_after { values.new ≡ values_after (reading_of closed) line.now values.old }
{
    let before = Reading {
        closed: closed != 0,
    };
    let r = assignment::read_line(before, line, values);
    let after = r.reading;
    packing::line_number(r.refusal, after.closed) as u32
}

// Closing on the settled model of a sheet; or the refusal of the reader or of settling, and zeros.
fn closed_sheet(sheet: &[u8], closed: u32, values: &[u8]) -> Closed
    ensures { result ≡ closed_sheet sheet.now closed values.now }
{
    let p = settled(sheet);
    if p.refusal != 0 {
        return Closed {
            refusal: p.refusal,
            groups: [0; Model::GROUPS],
        };
    }
    let m = p.model;
    let reading = Reading {
        closed: closed != 0,
    };
    solution::close(m, reading, values)
}

#[unsafe(no_mangle)]
pub extern "C" fn draw_close(sheet: &[u8], closed: u32, values: &[u8], groups: &mut [u64]) -> u32
    ensures value { result ≡ draw_close sheet.now closed values.now (length groups.old) }
    ensures groups_after { groups.new ≡ draw_groups sheet.now closed values.now groups.old }
{
    let a = closed_sheet(sheet, closed, values);
    packing::close_number(&a, groups)
}

#[unsafe(no_mangle)]
pub extern "C" fn draw_close_model(
    words: &[u64],
    closed: u32,
    values: &[u8],
    groups: &mut [u64],
) -> u32
    ensures value { result ≡ model_close words.now closed values.now (length groups.old) }
    ensures groups_after { groups.new ≡ model_groups words.now closed values.now groups.old }
{
    let m = words::model_from(words);
    let reading = Reading {
        closed: closed != 0,
    };
    let a = solution::close(m, reading, values);
    packing::close_number(&a, groups)
}

// From bytes to groups: a sheet and a solver's whole output, read, settled, read back and closed. refusal * 65536 + line of the sheet, or 0 and the groups,
// which are a draw of the sheet. A slice without room for them is 24.
#[unsafe(no_mangle)]
pub extern "C" fn draw_answer(sheet: &[u8], output: &[u8], groups: &mut [u64]) -> u64
    ensures value { result ≡ draw_answer sheet.now output.now (length groups.old) }
    ensures groups_after { groups.new ≡ draw_answered sheet.now output.now groups.old }
    ensures draw_of { result ≡ 0 → DrawOf sheet.now groups.new }
{
    let a = answering::answer(sheet, output);
    let words = a.groups;
    let c = Closed {
        refusal: a.refusal,
        groups: words,
    };
    let refusal = packing::close_number(&c, groups);
    packing::numbered(refusal, a.line)
}

// ---- filling

// Filling with a word for each group: the refusal, or 0. Fewer words than groups are no draw, 30.
fn filled(m: Model, groups: &[u64], values: &mut [u8]) -> u32
    ensures value { result ≡ fill_refusal m groups.now values.old }
    ensures values_after { values.new ≡ filled_values m groups.now values.old }
{
    let all = m.groups;
    let constraints = m.constraints;
    model::whole(all, constraints);
    if groups.len() < m.s as usize {
        let refusal = propagate::unsettled(m);
        if refusal != 0 {
            return refusal;
        }
        return 30;
    }
    let sets = words::sets_from(groups);
    filling::fill(m, &sets, values)
}

#[unsafe(no_mangle)]
pub extern "C" fn draw_fill(sheet: &[u8], groups: &[u64], values: &mut [u8]) -> u32
    ensures value { result ≡ draw_fill sheet.now groups.now values.old }
    ensures values_after { values.new ≡ draw_values sheet.now groups.now values.old }
{
    let p = settled(sheet);
    if p.refusal != 0 {
        return p.refusal;
    }
    let m = p.model;
    filled(m, groups, values)
}

#[unsafe(no_mangle)]
pub extern "C" fn draw_fill_model(words: &[u64], groups: &[u64], values: &mut [u8]) -> u32
    ensures value { result ≡ fill_refusal (model_from words.now) groups.now values.old }
    ensures values_after { values.new ≡ filled_values (model_from words.now) groups.now values.old }
{
    let m = words::model_from(words);
    filled(m, groups, values)
}

// ---- combining

// The combined model of two sheets; or the reader's refusal of the first, then of the second, or the refusal of combining.
fn combined_sheets(first: &[u8], second: &[u8]) -> Combined
    ensures { result ≡ combined_sheets first.now second.now }
{
    let a = sheet::read_sheet(first);
    let m = a.model;
    if a.refusal != 0 {
        return Combined {
            refusal: a.refusal,
            model: m,
        };
    }
    let b = sheet::read_sheet(second);
    let n = b.model;
    if b.refusal != 0 {
        return Combined {
            refusal: b.refusal,
            model: n,
        };
    }
    combine::combine(m, n)
}

// The combined sheet of two: refusal * 4294967296 + length.
#[unsafe(no_mangle)]
pub extern "C" fn draw_combine(first: &[u8], second: &[u8], buffer: &mut [u8]) -> u64
    ensures value { result ≡ draw_combine first.now second.now (length buffer.old) }
    ensures buffer_after { buffer.new ≡ draw_combined first.now second.now buffer.old }
{
    let r = combined_sheets(first, second);
    if r.refusal != 0 {
        return packing::written_number(Written::Refused(r.refusal));
    }
    let m = r.model;
    let w = sheet_writer::write_sheet(m, buffer);
    packing::written_number(w)
}

// The refusal, or 0 and the combined model's words. A slice without room for them is 24.
#[unsafe(no_mangle)]
pub extern "C" fn draw_combine_model(first: &[u64], second: &[u64], words: &mut [u64]) -> u32
    ensures value { result ≡ model_combine first.now second.now (length words.old) }
    ensures words_after { words.new ≡ model_combined first.now second.now words.old }
{
    let a = words::model_from(first);
    let b = words::model_from(second);
    let r = combine::combine(a, b);
    if r.refusal != 0 {
        return r.refusal;
    }
    let m = r.model;
    if !packing::put_model(&m, words) {
        return 24;
    }
    0
}

// ---- a certificate

fn verdict_number(v: Verdict) -> u64
    ensures { result ≡ verdict_number v }
{
    match v {
        Verdict::NotCertified(reason, line) => line as u64 * 65536 + reason as u64 * 4,
        Verdict::Refused(refusal, line) => line as u64 * 65536 + refusal as u64 * 4 + 1,
        Verdict::SettledOut => 2,
        Verdict::Certified => 3,
    }
}

// Whether a certificate shows that the sheet has no draw, in memory that the caller lends: as much as it has, for what a program's own cannot
// hold. It is left cleared, or as it was where the sheet is refused or settles out.
#[unsafe(no_mangle)]
pub extern "C" fn draw_certify(
    sheet: &[u8],
    certificate: &[u8],
    text: &mut [u8],
    store: &mut [u32],
    index: &mut [u32],
    marks: &mut [u32],
) -> u64
    ensures judged { Judged sheet.now result }
    ensures text_after { (text.new ≡ left_as sheet.now text.old) × (store.new ≡ left_as sheet.now store.old) × (index.new ≡ left_as sheet.now index.old) × (marks.new ≡ left_as sheet.now marks.old) }
{
    let v = certificate::certify(sheet, certificate, text, store, index, marks);
    verdict_number(v)
}
