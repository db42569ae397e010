// A numbered clause file drafted into lent tables: the names of its variables, and then its numbers, one after another, into starts and literals.
// A literal is placed as in clause text, with stamps for the way; the slots are not used, since a term's number is its variable's less 1.

#![tactic(auto)]

ghost use Rattle.std.specs.Prelude.{◌≡◌, ◌^◌, ◌≤◌, ◌<◌, length};
ghost use Rattle.written.specs.Limits.{narrow};
ghost use Rattle.written.specs.Tables.{over};
ghost use Rattle.written.specs.Numbered.{name_for, names_to};
ghost use Rattle.written.specs.declared.Numeral.TheVariants.{Number};
ghost use Rattle.laws.proofs.NumeralSteps.{line_in};
ghost use Rattle.numbering.specs.Passes.{pass_of, zero_end, after_zero, after_numbers};
ghost use Rattle.numbering.specs.Counting.{count_at, CanCount, CountsBy, CanBegin, Counted, CanDraw, Drawn};

use reading_lines::{Next, Place, fault_at};
use scan::Cursor;
use written::{Fault, Header, Numeral, Reason, Signed};

// How far a draft has come, whether its open clause is dropped, and how many clauses have ended, those dropped too.
#[derive(Clone, Copy)]
pub struct Going {
    pub ended: u64,
    pub place: Place,
    pub dropped: bool,
}

// Where a number leads: on, to the text's end with a clause kept, or to a fault. No Result or ControlFlow around the others: of either the tags
// are put together anew at each number, and a numbered file takes 1.1 of the instructions of its like in our own form, where 1 is promised.
#[derive(Clone, Copy)]
pub enum Pass {
    On(Going),
    Whole(Place),
    Refused(Fault),
}

// ---- the names

// A variable's name: the bytes of its number in decimal, made from the last digit on.
fn name_of(v: u64) -> u64
    requires { v < 10 ^ 8 }
    ensures { result ≡ name_for v }
{
    let mut rest = v;
    let mut name: u64 = 0;
    // Not a for: how many digits are left is not known before.
    while 10 <= rest {
        name = 48 + rest % 10 + 256 * name;
        rest /= 10;
    }
    48 + rest + 256 * name
}

// The names of the first variables.
fn put_names(names: &mut [u64], n: usize)
    requires { (n ≤ length names.old) × (n < 10 ^ 8) }
    ensures { names.new ≡ over (names_to n) names.old }
{
    for k in 0..n {
        names[k] = name_of((k + 1) as u64);
    }
}

// ---- the numbers

// After a turn of the open clause, when so many have ended.
fn turned(next: Result<Next, Fault>, ended: u64) -> Pass
    ensures { result ≡ pass_of next ended }
{
    match next {
        Ok(Next::Goes(place)) => Pass::On(Going {
            place,
            dropped: false,
            ended,
        }),
        Ok(Next::Drops(place)) => Pass::On(Going {
            place,
            dropped: true,
            ended,
        }),
        Ok(Next::Whole(place)) => Pass::Whole(place),
        Err(fault) => Pass::Refused(fault),
    }
}

// A clause's end: past the header's count, of a dropped clause, of 0 alone, or one that is kept if there is room.
fn at_zero(starts: &mut [u16], h: Header, g: Going, line: usize) -> Pass
    requires { (line < 2 ^ 32) × (g.place.held < 2 ^ 16) × (narrow.clauses < length starts.old) }
    ensures { zero_end result starts.new ≡ after_zero narrow h g line starts.old }
{
    if h.clauses <= g.ended {
        return Pass::Refused(fault_at(Reason::ClauseCount, line));
    }
    let counted = g.ended + 1;
    if g.dropped {
        return Pass::On(Going {
            dropped: false,
            ended: counted,
            ..g
        });
    }
    turned(reading_lines::at_line_end(starts, g.place, line), counted)
}

// A number: above the header's, a clause's end, of a dropped clause, or a variable's literal.
fn at_number(
    starts: &mut [u16],
    literals: &mut [u16],
    stamps: &mut [u16],
    h: Header,
    g: Going,
    x: Signed,
) -> Pass
    requires { CanCount narrow h (count_at starts.old literals.old stamps.old) g × (x.line < 2 ^ 32) }
    ensures { CountsBy narrow h (Number x) (count_at starts.old literals.old stamps.old) g (count_at starts.new literals.new stamps.new) result }
{
    let line = x.line;
    let number = x.number;
    if h.variables < number {
        return Pass::Refused(fault_at(Reason::PastHeader, line));
    }
    if number == 0 {
        return at_zero(starts, h, g, line);
    }
    if g.dropped {
        return Pass::On(g);
    }
    let term = (number - 1) as usize;
    let p = g.place;
    let taken = reading_literal::place(literals, stamps, p.from, p.held, term, x.negated);
    turned(reading_lines::after_literal(taken, p, line), g.ended)
}

// The text's end: a clause is open, clauses are too few, none is kept, or the file is whole.
fn at_numbers_end(h: Header, g: Going) -> Pass
    ensures { result ≡ after_numbers h g }
{
    let p = g.place;
    if g.dropped {
        return Pass::Refused(fault_at(Reason::ClauseCount, 0));
    }
    if p.held != p.from {
        return Pass::Refused(fault_at(Reason::ClauseCount, 0));
    }
    if g.ended < h.clauses {
        return Pass::Refused(fault_at(Reason::ClauseCount, 0));
    }
    turned(reading_lines::at_text_end(p), 0)
}

// What is met, and where it leads.
fn at_numeral(
    starts: &mut [u16],
    literals: &mut [u16],
    stamps: &mut [u16],
    h: Header,
    g: Going,
    k: Numeral,
) -> Pass
    requires { CanCount narrow h (count_at starts.old literals.old stamps.old) g × (line_in k < 2 ^ 32) }
    ensures { CountsBy narrow h k (count_at starts.old literals.old stamps.old) g (count_at starts.new literals.new stamps.new) result }
{
    match k {
        Numeral::Number(x) => at_number(starts, literals, stamps, h, g, x),
        Numeral::Bad(n) => Pass::Refused(fault_at(Reason::ByteNotAllowed, n)),
        Numeral::End => at_numbers_end(h, g),
    }
}

// The numbers after a header, whose line is told.
fn numbers(
    text: &[u8],
    starts: &mut [u16],
    literals: &mut [u16],
    stamps: &mut [u16],
    h: Header,
    line: usize,
) -> Result<Place, Fault>
    requires { CanBegin narrow text.now h line (count_at starts.old literals.old stamps.old) }
    ensures { Counted narrow text.now h line (count_at starts.old literals.old stamps.old) (count_at starts.new literals.new stamps.new) result }
{
    let mut c = Cursor { at: h.end, line };
    let mut g = Going {
        place: Place {
            terms: h.variables as usize,
            clauses: 0,
            from: 0,
            held: 0,
        },
        dropped: false,
        ended: 0,
    };
    // Not a for: what is met says whether another follows.
    loop {
        let m = numerals::number_at(text, c);
        match at_numeral(starts, literals, stamps, h, g, m.numeral) {
            Pass::On(q) => {
                g = q;
                c = m.next;
            }
            Pass::Whole(p) => return Ok(p),
            Pass::Refused(fault) => return Err(fault),
        }
    }
}

// ---- the text

// A whole text: its header, the names of its variables, and its numbers.
pub fn draft(
    text: &[u8],
    names: &mut [u64],
    starts: &mut [u16],
    literals: &mut [u16],
    stamps: &mut [u16],
) -> Result<Place, Fault>
    requires { CanDraw narrow text.now names.old (count_at starts.old literals.old stamps.old) }
    ensures { Drawn narrow text.now names.old (count_at starts.old literals.old stamps.old)
        names.new (count_at starts.new literals.new stamps.new) result }
{
    let c = numerals::past_comments(text);
    if text.len() <= c.at {
        return Err(fault_at(Reason::HeaderForm, 0));
    }
    let Some(h) = numerals::header_at(text, c.at) else {
        return Err(fault_at(Reason::HeaderForm, c.line));
    };
    if 2048 < h.variables {
        return Err(fault_at(Reason::TooManyTerms, c.line));
    }
    put_names(names, h.variables as usize);
    numbers(text, starts, literals, stamps, h, c.line)
}
