// Clause text read token by token into a draft in lent tables: names, starts and literals, with stamps and slots for the way.

#![tactic(auto)]

ghost use Rattle.std.specs.Prelude.{◌≡◌, ◌<◌, ◌^◌, length};
ghost use Rattle.scan.specs.Scan.{line_of};
ghost use Rattle.written.specs.Limits.{narrow};
ghost use Rattle.written.specs.Reasons.{fault_at};
ghost use Rattle.names.specs.Finding.{homes};
ghost use Rattle.reading_lines.specs.Drafting.{desk_at, Going, TurnsBy, Blank, Drawn};
ghost use Rattle.reading_lines.specs.Turns.{given_back, after_literal, line_end, after_line, after_text};

use reading_literal::Taken;
use scan::{Cursor, Token};
use written::{Fault, Reason};

// How far a draft has come: terms known, clauses kept, and the literals held, of which the open line's begin at `from`.
#[derive(Clone, Copy)]
pub struct Place {
    pub terms: usize,
    pub clauses: usize,
    pub from: usize,
    pub held: usize,
}

// Where a token leads that is no fault: on, past the rest of a line that is dropped, or to the text's end with a clause kept.
#[derive(Clone, Copy)]
pub enum Next {
    Goes(Place),
    Drops(Place),
    Whole(Place),
}

// A reason and the line where the reading ends.
pub fn fault_at(reason: Reason, line: usize) -> Fault
    requires { line < 2 ^ 32 }
    ensures { result ≡ fault_at line reason }
{
    Fault {
        reason,
        line: line as u32,
    }
}

// A dropped line gives back its literals; its terms stay known.
fn given_back(place: Place) -> Place
    ensures { result ≡ given_back place }
{
    Place {
        held: place.from,
        ..place
    }
}

// What a literal leads to, by what became of it.
pub fn after_literal(t: Result<Taken, Reason>, p: Place, line: usize) -> Result<Next, Fault>
    requires { (line < 2 ^ 32) × (p.terms < 2 ^ 16) × (p.held < 2 ^ 16) }
    ensures { result ≡ after_literal t p line }
{
    match t {
        Ok(Taken::Held) => Ok(Next::Goes(Place {
            held: p.held + 1,
            ..p
        })),
        Ok(Taken::Grown) => Ok(Next::Goes(Place {
            terms: p.terms + 1,
            held: p.held + 1,
            ..p
        })),
        Ok(Taken::Skipped) => Ok(Next::Goes(p)),
        Ok(Taken::Dropped) => Ok(Next::Drops(given_back(p))),
        Err(reason) => Err(fault_at(reason, line)),
    }
}

// A line with literals is kept as a clause, if there is room for one; a line without is refused.
pub fn at_line_end(starts: &mut [u16], p: Place, line: usize) -> Result<Next, Fault>
    requires { (line < 2 ^ 32) × (p.held < 2 ^ 16) × (narrow.clauses < length starts.old) }
    ensures { line_end result starts.new ≡ after_line narrow p line starts.old }
{
    let clauses = p.clauses;
    let held = p.held;
    if held == p.from {
        return Err(fault_at(Reason::BlankLine, line));
    }
    if 8192 <= clauses {
        return Err(fault_at(Reason::TooManyClauses, line));
    }
    let next = clauses + 1;
    starts[next] = held as u16;
    Ok(Next::Goes(Place {
        clauses: next,
        from: held,
        ..p
    }))
}

// A text is whole if a clause is kept.
pub fn at_text_end(p: Place) -> Result<Next, Fault>
    ensures { result ≡ after_text p }
{
    if p.clauses == 0 {
        return Err(fault_at(Reason::NoClause, 0));
    }
    Ok(Next::Whole(p))
}

// What a token does to the draft, and where it leads.
fn at_token(
    names: &mut [u64],
    starts: &mut [u16],
    literals: &mut [u16],
    stamps: &mut [u16],
    slots: &mut [u16],
    p: Place,
    k: Token,
) -> Result<Next, Fault>
    requires { Going homes narrow (desk_at names.old starts.old literals.old stamps.old slots.old) p × (line_of k < 2 ^ 32) }
    ensures { TurnsBy homes narrow k (desk_at names.old starts.old literals.old stamps.old slots.old) p
        (desk_at names.new starts.new literals.new stamps.new slots.new) result }
{
    match k {
        Token::Literal(l) => {
            let t = reading_literal::take(
                names, literals, stamps, slots, p.terms, p.from, p.held, l.name, l.negated,
            );
            after_literal(t, p, l.line)
        }
        Token::True(_) => Ok(Next::Drops(given_back(p))),
        Token::Line(n) => at_line_end(starts, p, n),
        Token::End(_) => at_text_end(p),
        Token::Cut(_) => Err(fault_at(Reason::TextCut, 0)),
        Token::Bad(n) => Err(fault_at(Reason::ByteNotAllowed, n)),
        Token::Long(n) => Err(fault_at(Reason::NinthByte, n)),
    }
}

// The whole text, from its start.
pub fn draft(
    text: &[u8],
    names: &mut [u64],
    starts: &mut [u16],
    literals: &mut [u16],
    stamps: &mut [u16],
    slots: &mut [u16],
) -> Result<Place, Fault>
    requires { Blank homes narrow text.now (desk_at names.old starts.old literals.old stamps.old slots.old) }
    ensures { Drawn homes narrow text.now (desk_at names.old starts.old literals.old stamps.old slots.old)
        (desk_at names.new starts.new literals.new stamps.new slots.new) result }
{
    let mut c = Cursor { at: 0, line: 1 };
    let mut p = Place {
        terms: 0,
        clauses: 0,
        from: 0,
        held: 0,
    };
    // Not a for: what a token does says where the next one is read.
    loop {
        let s = c.next(text);
        match at_token(names, starts, literals, stamps, slots, p, s.token) {
            Ok(Next::Goes(q)) => {
                p = q;
                c = s.next;
            }
            Ok(Next::Drops(q)) => {
                p = q;
                c = s.next.over(text);
            }
            Ok(Next::Whole(q)) => return Ok(q),
            Err(fault) => return Err(fault),
        }
    }
}
