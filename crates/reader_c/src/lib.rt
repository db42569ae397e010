// The reader over the boundary: what of it C calls, under the same names. Thin: each export calls the reader's function of its name, and says what that says.

#![tactic(auto)]

ghost use Rattle.std.specs.Prelude.{◌≡◌};
ghost use Rattle.scan.specs.Scan.{scan, passed, cursor_at, rest_at, told_of};

use scan::Told;

// The same in numbers, for C: the token's kind, reason and line, and where reading goes on.
#[unsafe(no_mangle)]
pub extern "C" fn reader_token(text: &[u8], at: usize, line: usize) -> Told
    ensures { result ≡ told_of (scan text.now (cursor_at at line)) }
{
    reader::reader_token(text, at, line)
}

// Where a reader that is told to pass goes on.
#[unsafe(no_mangle)]
pub extern "C" fn reader_line_end(text: &[u8], at: usize) -> usize
    ensures { result ≡ rest_at text.now at }
{
    reader::reader_line_end(text, at)
}

// Both by the scanner's cursor.
#[unsafe(no_mangle)]
pub extern "C" fn cursor_token(text: &[u8], at: usize, line: usize) -> Told
    ensures { result ≡ told_of (scan text.now (cursor_at at line)) }
{
    reader::cursor_token(text, at, line)
}

#[unsafe(no_mangle)]
pub extern "C" fn cursor_pass(text: &[u8], at: usize, line: usize) -> usize
    ensures { result ≡ (passed text.now (cursor_at at line)).at }
{
    reader::cursor_pass(text, at, line)
}
