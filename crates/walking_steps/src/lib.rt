// One walk on the lent tables: a start, then steps until no clause is uncovered, the flips are made, or the chosen clause has no literal of a free term.
// While walking, the place of a covered clause is the xor of the terms of its true literals.
// A function that another crate of the library calls may ask something of its tables, by one record, which its caller proves; none is exported.

#![tactic(auto)]

ghost use Rattle.std.specs.Prelude.{◌≡◌, [], ◌+◌, ◌^◌, ◌≤◌, ◌<◌, length};
ghost use Rattle.machine.specs.Moving.{fixed, fixed_at};
ghost use Rattle.walking_steps.specs.Stepping.{stand_at, step_in, CanStep, held_in, start_in, CanStart, onwards_in, any_pinned, walk_in};
ghost use Rattle.walking_steps.specs.Following.{CanBegin, CanGo};

use draw::Generator;
use written::{Counts, Order};

// Where the walks stand beside the tables: the number of uncovered clauses, the generator, and the flips summed.
#[derive(Clone, Copy)]
pub struct At {
    pub number: usize,
    pub generator: Generator,
    pub flips: u32,
}

// A clause is chosen, a literal of a free term in it, and that term is flipped; where it has none, no flip is made.
fn step(
    order: Order,
    values: &mut [u32],
    starts: &[u16],
    literals: &[u16],
    occurrence_starts: &[u16],
    occurrences: &[u16],
    trues: &mut [u16],
    breaks: &mut [u16],
    list: &mut [u16],
    places: &mut [u16],
    marks: &[u8],
    pinned: bool,
    at: At,
) -> At
    requires { CanStep 65536 pinned order marks.now (fixed_at starts.now literals.now occurrence_starts.now occurrences.now)
        (stand_at values.old trues.old breaks.old list.old places.old at)
        × (at.flips + 1 < 2 ^ 32) }
    ensures { stand_at values.new trues.new breaks.new list.new places.new result
        ≡ step_in order marks.now (fixed_at starts.now literals.now occurrence_starts.now occurrences.now)
        (stand_at values.old trues.old breaks.old list.old places.old at) }
{
    let c = walking_choice::chosen_from(order, &list[..at.number], at.generator);
    let clause = tables::part(starts, literals, usize::from(c.entry));
    let least = walking_choice::least_in(pinned, breaks, marks, clause);
    if least.number == 0 {
        return At {
            generator: c.next,
            ..at
        };
    }
    let l = walking_choice::literal_in(pinned, order, breaks, marks, clause, least, c.next);
    let number = flipping::flip_term(
        values,
        occurrence_starts,
        occurrences,
        trues,
        breaks,
        list,
        places,
        at.number,
        usize::from(l.entry / 2),
    );
    At {
        number,
        generator: l.next,
        flips: at.flips + 1,
    }
}

// Steps until no clause is uncovered, until the walk's flips are made, or until one makes none.
fn onwards(
    order: Order,
    values: &mut [u32],
    starts: &[u16],
    literals: &[u16],
    occurrence_starts: &[u16],
    occurrences: &[u16],
    trues: &mut [u16],
    breaks: &mut [u16],
    list: &mut [u16],
    places: &mut [u16],
    marks: &[u8],
    pinned: bool,
    from: At,
) -> At
    requires { CanGo 65536 order.flips (2 ^ 32) pinned marks.now (fixed_at starts.now literals.now occurrence_starts.now occurrences.now)
        (stand_at values.old trues.old breaks.old list.old places.old from) }
    ensures { stand_at values.new trues.new breaks.new list.new places.new result
        ≡ onwards_in order marks.now (fixed_at starts.now literals.now occurrence_starts.now occurrences.now) order.flips
        (stand_at values.old trues.old breaks.old list.old places.old from) }
{
    let last = from.flips + order.flips;
    let mut at = from;
    // Not a `for` over the flips: with one the compiled steps take 1.03 of the instructions.
    while at.flips < last {
        if at.number == 0 {
            return at;
        }
        let made = at.flips;
        at = step(
            order,
            values,
            starts,
            literals,
            occurrence_starts,
            occurrences,
            trues,
            breaks,
            list,
            places,
            marks,
            pinned,
            at,
        );
        if at.flips == made {
            return at;
        }
    }
    at
}

// Each pinned term of the first n gets the value of its mark.
fn hold_all(values: &mut [u32], marks: &[u8], n: usize)
    requires { n ≤ length marks.now }
    ensures { values.new ≡ held_in marks.now n values.old }
{
    for t in 0..n {
        words::hold(values, t, marks[t]);
    }
}

// The values drawn, those of pinned terms in place of their bits, and the counts worked out afresh.
fn start(
    n: Counts,
    values: &mut [u32],
    starts: &[u16],
    literals: &[u16],
    trues: &mut [u16],
    breaks: &mut [u16],
    list: &mut [u16],
    places: &mut [u16],
    marks: &[u8],
    from: At,
) -> At
    requires { CanStart 65536 n.terms n.clauses marks.now (fixed starts.now literals.now [] [])
        (stand_at values.old trues.old breaks.old list.old places.old from) }
    ensures { stand_at values.new trues.new breaks.new list.new places.new result
        ≡ start_in marks.now n.terms n.clauses (fixed starts.now literals.now [] [])
        (stand_at values.old trues.old breaks.old list.old places.old from) }
{
    let terms = n.terms as usize;
    let drawn = words::fill(values, terms, from.generator);
    hold_all(values, marks, terms);
    let number = recounts::count_afresh(
        terms,
        n.clauses as usize,
        values,
        starts,
        literals,
        trues,
        breaks,
        list,
        places,
    );
    At {
        number,
        generator: drawn,
        ..from
    }
}

// Whether one of the first n terms is pinned: where none is, the steps read no mark.
fn any_pinned(marks: &[u8], n: usize) -> bool
    requires { n ≤ length marks.now }
    ensures { result ≡ any_pinned marks.now n }
{
    let mut any = false;
    // Not the iterator's `any`: as compiled, its way out at each mark takes longer than the marks that it spares.
    for mark in &marks[..n] {
        any |= *mark > 0;
    }
    any
}

// One walk: a start, and onwards from it.
pub fn one_walk(
    order: Order,
    n: Counts,
    values: &mut [u32],
    starts: &[u16],
    literals: &[u16],
    occurrence_starts: &[u16],
    occurrences: &[u16],
    trues: &mut [u16],
    breaks: &mut [u16],
    list: &mut [u16],
    places: &mut [u16],
    marks: &[u8],
    from: At,
) -> At
    requires { CanBegin 65536 n.terms n.clauses marks.now (fixed_at starts.now literals.now occurrence_starts.now occurrences.now)
        (stand_at values.old trues.old breaks.old list.old places.old from)
        × (from.flips + order.flips < 2 ^ 32) }
    ensures { stand_at values.new trues.new breaks.new list.new places.new result
        ≡ walk_in order marks.now n.terms n.clauses (fixed_at starts.now literals.now occurrence_starts.now occurrences.now)
        (stand_at values.old trues.old breaks.old list.old places.old from) }
{
    let at = start(
        n, values, starts, literals, trues, breaks, list, places, marks, from,
    );
    let pinned = any_pinned(marks, n.terms as usize);
    onwards(
        order,
        values,
        starts,
        literals,
        occurrence_starts,
        occurrences,
        trues,
        breaks,
        list,
        places,
        marks,
        pinned,
        at,
    )
}
