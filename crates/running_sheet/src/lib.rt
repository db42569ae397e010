// The order sheet: four lines of a key and a number, judged from the top, and a fifth that may follow them.

#![tactic(auto)]

ghost use Rattle.std.specs.Prelude.{◌≡◌, ◌+◌, ◌^◌, ◌<◌};
ghost use Rattle.written.specs.Reasons.{fault_at};
ghost use Rattle.written.specs.Sheet.{sheet_of};
ghost use Rattle.laws.specs.Sheets.{four_lines, in_mode};
ghost use Rattle.running_sheet.specs.Lines.{range, line_of};

use written::{Fault, Order, Reason, Sheet};

// A line's number, and how many bytes it takes with its byte 10.
#[derive(Clone, Copy)]
struct Entry {
    number: u32,
    size: usize,
}

// The fault of line i of the sheet.
fn fault(i: u32, reason: Reason) -> Fault
    ensures { result ≡ fault_at i reason }
{
    Fault { reason, line: i }
}

// Line i of the sheet, the first of the rest: its form, then its range.
fn line(i: u32, rest: &[u8], key: &[u8], least: u32, most: u32) -> Result<Entry, Fault>
    ensures { result ≡ line_of i key.now (range least most) rest.now }
{
    let end = scan::line_end(rest, 0);
    if rest.len() <= end {
        return Err(fault(i, Reason::SheetForm));
    }
    if !digits::begins(rest, key) {
        return Err(fault(i, Reason::SheetForm));
    }
    let from = key.len();
    if end < from {
        return Err(fault(i, Reason::SheetForm));
    }
    if !digits::is_number(&rest[from..end]) {
        return Err(fault(i, Reason::SheetForm));
    }
    let n = digits::value(&rest[from..end]);
    if n < (least as u64) {
        return Err(fault(i, Reason::OutOfRange));
    }
    if (most as u64) < n {
        return Err(fault(i, Reason::OutOfRange));
    }
    Ok(Entry {
        number: n as u32,
        size: end + 1,
    })
}

// The four lines, the first faulty one named; and where what follows them begins.
fn numbers(input: &[u8]) -> Result<Sheet, Fault>
    ensures { result ≡ four_lines input.now }
{
    let s = line(1, input, b"seed=", 1, 4294967295)?;
    let to_flips = s.size;
    let f = line(2, &input[to_flips..], b"flips=", 0, 100000)?;
    let to_walks = to_flips + f.size;
    let w = line(3, &input[to_walks..], b"walks=", 1, 1000)?;
    let to_bias = to_walks + w.size;
    let b = line(4, &input[to_bias..], b"bias=", 0, 1000)?;
    let order = Order {
        seed: s.number,
        flips: f.number,
        walks: w.number,
        bias: b.number,
        even: 0,
    };
    Ok(Sheet {
        order,
        at: (to_bias + b.size) as u32,
    })
}

// The sheet with the fifth line, of so many bytes.
fn even_from(s: Sheet, size: u32) -> Sheet
    requires { s.at + size < 2 ^ 32 }
    ensures { result ≡ in_mode s 1 (s.at + size) }
{
    Sheet {
        order: Order { even: 1, ..s.order },
        at: s.at + size,
    }
}

// The whole sheet: a fifth line is exactly `choice=even`, or there is none.
pub fn sheet(input: &[u8]) -> Result<Sheet, Fault>
    ensures { result ≡ sheet_of input.now }
{
    let s = numbers(input)?;
    let rest = &input[s.at as usize..];
    if !digits::begins(rest, b"choice=") {
        return Ok(s);
    }
    if !digits::begins(rest, b"choice=even\n") {
        return Err(fault(5, Reason::SheetForm));
    }
    Ok(even_from(s, 12))
}
