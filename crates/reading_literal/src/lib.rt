// One literal of clause text taken into the open line: its name looked up by the slots, repeats and opposites seen by stamps. A stamp is the
// place of its term's latest literal, believed only if that place is in the open line and holds a literal of the term: stamps need no start value.
// The tables are lent one by one: a name is looked for in two of them at once (`reading`).

#![tactic(auto)]

ghost use Rattle.std.specs.Prelude.{◌≡◌, ◌<◌, length, set};
ghost use Rattle.written.specs.Limits.{narrow};
ghost use Rattle.written.specs.Clauses.{literal_of};
ghost use Rattle.names.specs.Finding.{homes};
ghost use Rattle.reading_literal.specs.Line.{line_in, stands_in, Stamped};
ghost use Rattle.reading_literal.specs.Taking.{placing, placed, CanPlace, Open, Took};

use written::Reason;

// Whether a line has a literal already, or its opposite.
#[derive(Clone, Copy)]
pub enum Stands {
    Not,
    Same,
    Opposite,
}

// What becomes of a literal that is read, where it is not one too many: held, held with a new term, skipped, or its line dropped.
#[derive(Clone, Copy)]
pub enum Taken {
    Held,
    Grown,
    Skipped,
    Dropped,
}

fn literal(term: usize, negated: bool) -> usize
    requires { term < 32768 }
    ensures { result ≡ literal_of term negated }
{
    if negated { 2 * term + 1 } else { 2 * term }
}

// How a term's literal stands in the line from `from` up to `held`: one look at the term's stamp.
fn seen(
    literals: &[u16],
    stamps: &[u16],
    from: usize,
    held: usize,
    term: usize,
    negated: bool,
) -> Stands
    requires { Stamped literals.now from held stamps.now (length stamps.now) × (term < length stamps.now) × (term < 32768) }
    ensures { result ≡ stands_in term negated (line_in literals.now from held) }
{
    let p = usize::from(stamps[term]);
    if p < from {
        return Stands::Not;
    }
    if held <= p {
        return Stands::Not;
    }
    let l = usize::from(literals[p]);
    if l / 2 != term {
        return Stands::Not;
    }
    if l == literal(term, negated) {
        Stands::Same
    } else {
        Stands::Opposite
    }
}

// One literal more at the line's end, and its place as its term's stamp.
fn mark(literals: &mut [u16], stamps: &mut [u16], held: usize, term: usize, negated: bool)
    requires { (held < length literals.old) × (term < length stamps.old) × (held < 65536) × (term < 32768) }
    ensures { (literals.new ≡ set literals.old held (literal_of term negated))
        × (stamps.new ≡ set stamps.old term held) }
{
    let l = literal(term, negated);
    literals[held] = l as u16;
    stamps[term] = held as u16;
}

// The literal of a known term: skipped, its line dropped, or held if there is room.
pub fn place(
    literals: &mut [u16],
    stamps: &mut [u16],
    from: usize,
    held: usize,
    term: usize,
    negated: bool,
) -> Result<Taken, Reason>
    requires { CanPlace narrow literals.old stamps.old from held term }
    ensures { placing result literals.new stamps.new
        ≡ placed narrow literals.old stamps.old from held term negated }
{
    let stands = seen(literals, stamps, from, held, term, negated);
    match stands {
        Stands::Same => Ok(Taken::Skipped),
        Stands::Opposite => Ok(Taken::Dropped),
        Stands::Not => {
            if held < 16384 {
                mark(literals, stamps, held, term, negated);
                Ok(Taken::Held)
            } else {
                Err(Reason::TooManyLiterals)
            }
        }
    }
}

// A literal of a name, in the order of document 01: skipping and dropping, then room for a term, then room for the literal.
pub fn take(
    names: &mut [u64],
    literals: &mut [u16],
    stamps: &mut [u16],
    slots: &mut [u16],
    terms: usize,
    from: usize,
    held: usize,
    name: u64,
    negated: bool,
) -> Result<Taken, Reason>
    requires { Open homes narrow names.old terms literals.old from held stamps.old slots.old }
    ensures { Took homes narrow names.old terms literals.old from held stamps.old
        slots.old name negated names.new literals.new stamps.new slots.new result }
{
    let found = names::find(names, slots, terms, name);
    match found {
        Ok(k) => place(literals, stamps, from, held, k, negated),
        Err(s) => {
            if 2048 <= terms {
                return Err(Reason::TooManyTerms);
            }
            if 16384 <= held {
                return Err(Reason::TooManyLiterals);
            }
            names::add(names, slots, terms, s, name);
            mark(literals, stamps, held, terms, negated);
            Ok(Taken::Grown)
        }
    }
}
