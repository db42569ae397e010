// Document 01's examples, each as its words and then what the program prints for it.

#![tactic(auto)]

ghost use Rattle.std.specs.Prelude.{◌≤◌, length};

use std::io::{Cursor, Result, Stdout, Write};
use written::Form;

// The sheet of the document's numbers, put at the memory's front; how many bytes it has.
fn sheet(memory: &mut [u8; 65536]) -> usize
    ensures { result ≤ length memory.new }
{
    let sheet = b"seed=1\nflips=10\nwalks=1\nbias=400\n";
    memory[..sheet.len()].copy_from_slice(sheet);
    sheet.len()
}

// What was written: up to the cursor. That it stands within the memory, `write_all` does not say: `min` does.
fn bytes_of(memory: &[u8; 65536], end: u64) -> &[u8]
    ensures { length result.now ≤ length memory.now }
{
    let end = (end as usize).min(65536);
    &memory[..end]
}

fn show(out: &mut Stdout, title: &str, input: &[u8]) -> Result<()> {
    out.write_all(title.as_bytes())?;
    let mut report = [0u8; 20544];
    let n = running_alone::run_alone(Form::Own, input, &mut report);
    out.write_all(&report[..n])
}

// A text after the sheet, in fixed memory: one that would be longer than the program takes ends in an error.
fn text(out: &mut Stdout, title: &str, clauses: &str) -> Result<()> {
    let mut memory = [0u8; 65536];
    let at = sheet(&mut memory);
    let mut input = Cursor::new(&mut memory[..]);
    input.set_position(at as u64);
    input.write_all(clauses.as_bytes())?;
    let end = input.position();
    show(out, title, bytes_of(&memory, end))
}

// One line many times, then a last one.
fn lines(out: &mut Stdout, title: &str, line: &str, times: usize, last: &str) -> Result<()> {
    let mut memory = [0u8; 65536];
    let at = sheet(&mut memory);
    let mut input = Cursor::new(&mut memory[..]);
    input.set_position(at as u64);
    for _ in 0..times {
        input.write_all(line.as_bytes())?;
    }
    input.write_all(last.as_bytes())?;
    let end = input.position();
    show(out, title, bytes_of(&memory, end))
}

// Lines of one term, each named by two bytes.
fn terms(out: &mut Stdout, title: &str, count: usize) -> Result<()> {
    let mut memory = [0u8; 65536];
    let at = sheet(&mut memory);
    let mut input = Cursor::new(&mut memory[..]);
    input.set_position(at as u64);
    for term in 0..count {
        let name = [
            b'0' + (term / 64 % 64) as u8,
            b'0' + (term % 64) as u8,
            b'\n',
        ];
        input.write_all(&name)?;
    }
    let end = input.position();
    show(out, title, bytes_of(&memory, end))
}

fn walks(out: &mut Stdout) -> Result<()> {
    text(
        out,
        "- lines `a b`, `~a b`: values start 1, 0; only clause 1 uncovered; break counts 1 and 0; b flips; found.\n",
        "a b\n~a b\n",
    )?;
    show(
        out,
        "- lines `a`, `~a`, flips 2: gives up, walks 1, flips 2.\n",
        b"seed=1\nflips=2\nwalks=1\nbias=400\na\n~a\n",
    )?;
    text(out, "- `a a`: one clause of one literal.\n", "a a\n")?;
    text(
        out,
        "- `a ~a`, `b`: one clause, two terms; found after one flip, answer `a b`.\n",
        "a ~a\nb\n",
    )
}

fn readings(out: &mut Stdout) -> Result<()> {
    text(out, "- `~ note` alone: reason 9, line 0.\n", "~ note\n")?;
    text(out, "- empty text: 9.\n", "")?;
    text(out, "- `abcdefgh` is read.\n", "abcdefgh\n")?;
    text(out, "- `abcdefghi` is reason 5, line 1.\n", "abcdefghi\n")?;
    text(out, "- `a~b`: 4, line 1.\n", "a~b\n")?;
    text(out, "- `a` without byte 10: 3.\n", "a")?;
    text(out, "- an empty line alone: 15, line 1.\n", "\n")?;
    text(out, "- `a` then an empty line: 15, line 2.\n", "a\n\n")?;
    text(
        out,
        "- `a ~`, a space, then a tab: dropped unread, 9.\n",
        "a ~ \t\n",
    )?;
    text(
        out,
        "- `a ~` with the tab directly after ~: reason 4, line 1.\n",
        "a ~\t\n",
    )
}

fn limits(out: &mut Stdout) -> Result<()> {
    terms(out, "- 2,048 terms are read.\n", 2048)?;
    terms(out, "- 2,049 are reason 6.\n", 2049)?;
    lines(
        out,
        "- likewise 8,192 clauses are read.\n",
        "a\n",
        8191,
        "a\n",
    )?;
    lines(out, "- 8,193 are reason 8.\n", "a\n", 8192, "a\n")?;
    lines(
        out,
        "- likewise 16,384 literals are read.\n",
        "a b\n",
        8191,
        "a b\n",
    )?;
    lines(out, "- 16,385 are reason 7.\n", "a b\n", 8191, "a b c\n")
}

fn numbers(out: &mut Stdout) -> Result<()> {
    show(
        out,
        "- Seed 0: 11.\n",
        b"seed=0\nflips=10\nwalks=1\nbias=400\na b\n~a b\n",
    )?;
    show(
        out,
        "- bias 1001: 11.\n",
        b"seed=1\nflips=10\nwalks=1\nbias=1001\na b\n~a b\n",
    )?;
    show(
        out,
        "- Flips 0 with a covering start: found.\n",
        b"seed=1\nflips=0\nwalks=1\nbias=400\na ~b\n",
    )
}

fn main(rt: HostRuntime) -> Result<()> {
    let out = &mut rt.stdout();
    walks(out)?;
    readings(out)?;
    limits(out)?;
    numbers(out)
}
