// The text of a numbered clause file, word by word: the comments before its header, the header, and one number after another. No tables.
// The functions are called inside the library, on a text that is short enough for its places and lines to be counted.

#![tactic(auto)]

ghost use Rattle.std.specs.Prelude.{◌≡◌, ◌+◌, ◌^◌, ◌≤◌, ◌<◌, cond, length, eqb, MatchOption};
ghost use Rattle.scan.specs.Scan.{start, past};
ghost use Rattle.written.specs.Numerals.{is_blank, past_comments, sizes_at, header_at, past_gaps, number_at};
ghost use Rattle.numerals.specs.Numbers.{Within, AtGap, Stops, is_whole};

use scan::{Cursor, Kind};
use written::{Header, Met, Numeral, Signed};

// Past the comment lines that a text begins with.
pub fn past_comments(text: &[u8]) -> Cursor
    requires { length text.now < 2 ^ 32 }
    ensures { result ≡ past_comments (length text.now) text.now start }
{
    let mut at: usize = 0;
    let mut line: usize = 1;
    // a while: each turn goes on to the next line's first byte
    while at < text.len() {
        if text[at] != b'c' {
            return Cursor { at, line };
        }
        at = scan::line_end(text, at) + 1;
        line += 1;
    }
    Cursor { at, line }
}

// Past the blanks that begin at a place, if one does.
fn past_blanks(text: &[u8], at: usize) -> Option<usize>
    ensures { MatchOption result (past is_blank text.now at ≤ at) (λ end. (end ≡ past is_blank text.now at) × (at < end)) }
{
    let end = scan::skip(text, at, Kind::Blank);
    if end <= at { None } else { Some(end) }
}

// The header's numbers, of which the first begins at v.
fn sizes_at(text: &[u8], v: usize) -> Option<Header>
    ensures { result ≡ sizes_at text.now v }
{
    if text.len() <= v {
        return None;
    }
    let variables_end = scan::skip(text, v, Kind::Word);
    if !digits::is_number(&text[v..variables_end]) {
        return None;
    }
    let c = past_blanks(text, variables_end)?;
    let end = scan::skip(text, c, Kind::Word);
    if !digits::is_number(&text[c..end]) {
        return None;
    }
    if text.len() <= end {
        return None;
    }
    if text[end] != b'\n' {
        return None;
    }
    Some(Header {
        variables: digits::value(&text[v..variables_end]),
        clauses: digits::value(&text[c..end]),
        end,
    })
}

// The header whose line begins at a place.
pub fn header_at(text: &[u8], at: usize) -> Option<Header>
    requires { length text.now < 2 ^ 32 }
    ensures { result ≡ header_at text.now at }
{
    if text.len() <= at {
        return None;
    }
    if !digits::begins(&text[at..], b"p") {
        return None;
    }
    let k = past_blanks(text, at + 1)?;
    if !digits::begins(&text[k..], b"cnf") {
        return None;
    }
    let v = past_blanks(text, k + 3)?;
    sizes_at(text, v)
}

// The line after a byte of a gap.
fn line_past(line: usize, b: u8) -> usize
    requires { line + 1 < 2 ^ 64 }
    ensures { result ≡ line + cond (eqb 10 b) 1 0 }
{
    if b == b'\n' { line + 1 } else { line }
}

// Past the gaps at a cursor that stands on one, the lines that end there counted.
fn past_gaps(text: &[u8], c: Cursor) -> Cursor
    requires { AtGap text.now c }
    ensures { result ≡ past_gaps text.now c }
{
    let first = c.at;
    let mut line = line_past(c.line, text[first]);
    for at in first + 1..text.len() {
        let b = text[at];
        if !scan::is_gap(b) {
            return Cursor { at, line };
        }
        line = line_past(line, b);
    }
    Cursor {
        at: text.len(),
        line,
    }
}

// Where digits end, and the number that they are.
#[derive(Clone, Copy)]
struct Digits {
    end: usize,
    number: u64,
}

// The digits from a place on, up to a second one. No test of the text's end: its last byte is no digit.
fn digits_at(text: &[u8], from: usize, stop: usize) -> Digits
    requires { Within text.now from × (from ≤ stop) × (stop ≤ from + 11) }
    ensures { Stops text.now from stop result.end result.number }
{
    let mut number: u64 = 0;
    for i in from..stop {
        let b = text[i];
        if !b.is_ascii_digit() {
            return Digits { end: i, number };
        }
        number = 10 * number + u64::from(b - b'0');
    }
    Digits { end: stop, number }
}

// Whether digits are all of a word and a number. Where there is none the number is 0.
#[tactic(auto, unfolding(crate::specs::Numbers::is_whole))]
fn is_whole(text: &[u8], from: usize, d: Digits, negated: bool) -> bool
    requires { (from ≤ d.end) × (d.end < length text.now) }
    ensures { result ≡ is_whole text.now from d negated }
{
    let n = d.end - from;
    if n > 10 || !scan::is_gap(text[d.end]) {
        return false;
    }
    if d.number == 0 {
        !negated && n == 1
    } else {
        text[from] != b'0'
    }
}

// Where a word's digits begin.
fn past_minus(b: u8, at: usize) -> usize
    requires { at + 1 < 2 ^ 64 }
    ensures { result ≡ cond (eqb b 45) (at + 1) at }
{
    if b == b'-' { at + 1 } else { at }
}

// What stands past the gaps at a cursor that stands on one, and the cursor past that.
pub fn number_at(text: &[u8], c: Cursor) -> Met
    requires { AtGap text.now c }
    ensures { result ≡ number_at text.now c }
{
    let s = past_gaps(text, c);
    let at = s.at;
    let line = s.line;
    if text.len() <= at {
        return Met {
            numeral: Numeral::End,
            next: s,
        };
    }
    let b = text[at];
    let negated = b == b'-';
    let from = past_minus(b, at);
    let d = digits_at(text, from, from + 11); // one more than a number may have
    if !is_whole(text, from, d, negated) {
        let end = scan::skip(text, at, Kind::Word);
        return Met {
            numeral: Numeral::Bad(line),
            next: Cursor { at: end, line },
        };
    }
    Met {
        numeral: Numeral::Number(Signed {
            negated,
            number: d.number,
            line,
        }),
        next: Cursor { at: d.end, line },
    }
}
