// A reader over lent clause text: a struct that holds the text, the place and the line, and thin functions over it. Each takes
// the struct apart and calls a covered function of `scan` on the slice and the numbers. No `impl`: the settled statements name them by these paths.

#![tactic(auto)]

ghost use Rattle.std.specs.Prelude.{◌≡◌};
ghost use Rattle.scan.specs.Scan.{scan, passed, cursor_at, rest_at, told_of};
ghost use Rattle.reader.specs.Held.{step_of, after};

use scan::{Cursor, Step, Token, Told};

#[derive(Clone, Copy)]
pub struct Reader<'a> {
    pub text: &'a [u8],
    pub at: usize,
    pub line: usize,
}

pub fn new<'a>(text: &'a [u8]) -> Reader<'a>
    ensures { (result.text ≡ text.entry) × (result.at ≡ 0) × (result.line ≡ 1) }
{
    Reader {
        text,
        at: 0,
        line: 1,
    }
}

// The next token, and the cursor past it.
pub fn next<'a>(r: Reader<'a>) -> Step
    ensures { result ≡ scan r.entry.text.now (cursor_at r.entry.at r.entry.line) }
{
    scan::scan_at(r.text, r.at, r.line)
}

// On to the line's end.
pub fn pass<'a>(r: Reader<'a>) -> Reader<'a>
    ensures { (result.text ≡ r.entry.text) × (result.at ≡ rest_at r.entry.text.now r.entry.at) × (result.line ≡ r.entry.line) }
{
    let at = scan::line_end(r.text, r.at);
    Reader { at, ..r }
}

// The next token, and the reader that is lent moves past it.
pub fn take<'s, 'a>(r: &'s mut Reader<'a>) -> Token
    ensures { (result ≡ (step_of r.old).token) × (r.new ≡ after r.old) }
{
    let s = scan::scan_at(r.text, r.at, r.line);
    r.at = s.next.at;
    r.line = s.next.line;
    s.token
}

// The next token from a place and its line: no reader in its signature, so that whoever calls it is proved as any other code.
pub fn token_at(text: &[u8], at: usize, line: usize) -> Step
    ensures { result ≡ scan text.now (cursor_at at line) }
{
    next(Reader { text, at, line })
}

// The same in numbers, for C: the token's kind, reason and line, and where reading goes on.
pub fn reader_token(text: &[u8], at: usize, line: usize) -> Told
    ensures { result ≡ told_of (scan text.now (cursor_at at line)) }
{
    scan::in_numbers(token_at(text, at, line))
}

// Where a reader that is told to pass goes on.
pub fn reader_line_end(text: &[u8], at: usize) -> usize
    ensures { result ≡ rest_at text.now at }
{
    scan::line_end(text, at)
}

// Both by the scanner's cursor.
pub fn cursor_token(text: &[u8], at: usize, line: usize) -> Told
    ensures { result ≡ told_of (scan text.now (cursor_at at line)) }
{
    let c = Cursor { at, line };
    scan::in_numbers(c.next(text))
}

pub fn cursor_pass(text: &[u8], at: usize, line: usize) -> usize
    ensures { result ≡ (passed text.now (cursor_at at line)).at }
{
    let c = Cursor { at, line };
    c.pass(text).at
}
