// The words of a solver's `v` line and its form: literals, and at the end a closing 0 or none.
#![tactic(auto)]

ghost use Rattle.std.specs.Prelude.{◌≡◌, cond, leb, length};
ghost use Rattle.std.specs.Prelude.{None};
ghost use Rattle.model.specs.Sheet.{number_of, if_none, or_zero};
ghost use Rattle.model.specs.Assignment.{words_of, variable_in, word_value, say_words, form_of, word_refusal, word_variable, word_says, word_closes, has_minus, variable_said, signed, is_zero, said_by};
ghost use Rattle.line_form.specs.Form.{word_length, form_from, form_refusal, form_count, form_closes, unsaid};

use model::{Literal, Word};

// The form of a `v` line: how many literals it names, and whether a closing 0 ends it.
#[derive(Clone, Copy, PartialEq, Eq)]
pub struct Shape {
    pub count: usize,
    pub closed: bool,
}

// How many bytes stand before the first space.
pub fn word_length(s: &[u8]) -> usize
    ensures { result ≡ word_length s.now }
{
    model::length_before(s, b' ')
}

// The number that digits stand for, of variables that an argument counts: no needless zero, up to 9 of them.
pub fn count_in(d: &[u8]) -> Option<u32>
    ensures { result ≡ cond (leb (length d.now) 9) (number_of d.now) None }
{
    if d.len() == 0 {
        return None;
    }
    if 1 < d.len() {
        if d[0] == 48 {
            return None;
        }
    }
    model::decimal(d)
}

// The number that digits stand for, of a variable or of a draw's group or entrant: no leading zero, up to 9 of them.
pub fn variable_in(d: &[u8]) -> Option<u32>
    ensures { result ≡ variable_in d.now }
{
    let n = d.len();
    if n == 0 {
        return None;
    }
    if 9 < n {
        return None;
    }
    if d[0] == 48 {
        return None;
    }
    model::decimal(d)
}

// What a word of a `v` line is.
pub fn word_value(w: &[u8]) -> Word
    ensures value { result ≡ word_value w.now }
    ensures result_value { (word_refusal result ≡ cond (is_zero w.now) 0 (if_none 10 (variable_said w.now))) × (word_closes result ≡ is_zero w.now) }
    ensures result_value_2 { (word_variable result ≡ or_zero (variable_said w.now)) × (word_says result ≡ signed (has_minus w.now) (variable_said w.now)) }
{
    let n = w.len();
    if n == 0 {
        return Word::Malformed;
    }
    if w[0] == 45 {
        let Some(v) = variable_in(&w[1..]) else {
            return Word::Malformed;
        };
        return Word::Names(Literal::Neg(v));
    }
    if w[0] == 48 {
        if n == 1 {
            return Word::Closing;
        }
        return Word::Malformed;
    }
    let Some(v) = variable_in(w) else {
        return Word::Malformed;
    };
    Word::Names(Literal::Pos(v))
}

// Whether a word is the closing 0.
fn word_closes(w: Word) -> bool
    ensures { result ≡ word_closes w }
{
    matches!(w, Word::Closing)
}

// The form of the words of s: literals, and at the end a closing 0 or none.
fn words_form(s: &[u8]) -> Option<Shape>
    ensures value { result ≡ form_from (say_words (words_of s.now)) }
    ensures result_value { (form_refusal result ≡ unsaid 10 (say_words (words_of s.now))) × (form_count result ≡ length (said_by (say_words (words_of s.now))).literals) × (form_closes result ≡ (said_by (say_words (words_of s.now))).closed) }
{
    let n = s.len();
    let mut at: usize = 0;
    let mut count: usize = 0;
    while at <= n {
        let rest = &s[at..];
        let k = word_length(rest);
        let w = word_value(&rest[..k]);
        if at + k == n {
            if word_closes(w) {
                return Some(Shape {
                    count,
                    closed: true,
                });
            }
        }
        let Word::Names(_) = w else {
            return None;
        };
        count += 1;
        if at + k == n {
            return Some(Shape {
                count,
                closed: false,
            });
        }
        at = at + k + 1;
    }
    None
}

// The form of a line after its first byte, which is any byte but a space.
pub fn line_form(line: &[u8]) -> Option<Shape>
    ensures value { result ≡ form_from (form_of line.now) }
    ensures result_value { (form_refusal result ≡ unsaid 10 (form_of line.now)) × (form_count result ≡ length (said_by (form_of line.now)).literals) × (form_closes result ≡ (said_by (form_of line.now)).closed) }
{
    if line.len() == 0 {
        return None;
    }
    if line[0] == 32 {
        return None;
    }
    if line.len() == 1 {
        return Some(Shape {
            count: 0,
            closed: false,
        });
    }
    if line[1] != 32 {
        return None;
    }
    words_form(&line[2..])
}
