// The choices of a walk: an entry of a list, and the literal of a clause whose term is flipped, among those of free terms.
// A function that another crate of the library calls may ask something of its tables, by one record, which its caller proves; none is exported.

#![tactic(auto)]

ghost use Rattle.std.specs.Prelude.{◌≡◌, true, false, cond, ◌+◌, ◌/◌, ◌^◌, ◌<◌, length, get_or};
ghost use Rattle.written.specs.Marks.{free_in};
ghost use Rattle.written.specs.Drawing.{choice, chosen_from};
ghost use Rattle.written.specs.Walk.{one_of};
ghost use Rattle.walking_choice.specs.Choosing.{pick, break_in, is_free_in, is_tie, ties_by, lowest, lowest_in, besides, literal_by};
ghost use Rattle.walking_choice.specs.Choosing.{CanDraw, HaveEntries, CanPick, Plain};

use draw::{Drawn, Generator};
use written::Order;

// An entry that was picked, and the generator afterwards.
#[derive(Clone, Copy)]
pub struct Picked {
    pub entry: u16,
    pub next: Generator,
}

// The least break count among the literals of free terms looked at, how many are at it, and the first of them; number 0 where there are none.
// No Option: the clauses of least_in and literal_in, which stay, are of the three fields.
#[derive(Clone, Copy)]
pub struct Least {
    pub low: u32,
    pub number: usize,
    pub first: u16,
}

// ---- a list

// Each choice of a walk is made here, in the mode of its order.
fn choice(order: Order, m: u32, g: Generator) -> Drawn
    ensures { result ≡ choice order m g.state }
{
    if order.even == 1 {
        g.even(m)
    } else {
        g.choice(m)
    }
}

// A choice among the entries of a list, drawn even for one.
pub fn chosen_from(order: Order, list: &[u16], g: Generator) -> Picked
    requires { CanDraw 65536 list.now }
    ensures { pick result.entry result.next.state ≡ chosen_from order list.now g.state }
{
    let d = choice(order, list.len() as u32, g);
    Picked {
        entry: list[d.number as usize],
        next: d.next,
    }
}

// ---- a literal

// Whether a literal's term is free.
fn is_free(marks: &[u8], l: u16) -> bool
    requires { l / 2 < length marks.now }
    ensures { result ≡ is_free_in marks.now l }
{
    marks[usize::from(l / 2)] == 0
}

// The same, but no mark is read where no term is pinned.
fn is_looked_at(pinned: bool, marks: &[u8], l: u16) -> bool
    requires { (l / 2 < length marks.now) × (pinned ≡ false → is_free_in marks.now l ≡ true) }
    ensures { result ≡ is_free_in marks.now l }
{
    !pinned || is_free(marks, l)
}

// The break count of a literal's term.
fn break_of(breaks: &[u16], l: u16) -> u32
    requires { l / 2 < length breaks.now }
    ensures { result ≡ break_in breaks.now l }
{
    u32::from(breaks[usize::from(l / 2)])
}

// Whether a literal's term is free and its break count m.
fn is_at(pinned: bool, breaks: &[u16], marks: &[u8], l: u16, m: u32) -> bool
    requires { (l / 2 < length breaks.now) × (l / 2 < length marks.now) × (pinned ≡ false → is_free_in marks.now l ≡ true) }
    ensures { result ≡ is_tie breaks.now marks.now m l }
{
    is_looked_at(pinned, marks, l) && break_of(breaks, l) == m
}

// ---- the literals looked at

// One literal l more was looked at, whose break count is b.
fn beside(s: Least, l: u16, b: u32) -> Least
    requires { s.number + 1 < 2 ^ 64 }
    ensures { lowest result.low result.number result.first ≡ besides (lowest s.low s.number s.first) l b }
{
    if b < s.low {
        Least {
            low: b,
            number: 1,
            first: l,
        }
    } else {
        // It is at the least if it is not above it: compared so, the compiled code adds the carry.
        Least {
            number: s.number + usize::from(b <= s.low),
            ..s
        }
    }
}

// One literal l more, which is looked at if its term is free.
fn looked(pinned: bool, s: Least, breaks: &[u16], marks: &[u8], l: u16) -> Least
    requires { (s.number + 1 < 2 ^ 64) × (l / 2 < length breaks.now) × (l / 2 < length marks.now) × (pinned ≡ false → is_free_in marks.now l ≡ true) }
    ensures { lowest result.low result.number result.first ≡ cond (is_free_in marks.now l)
        (besides (lowest s.low s.number s.first) l (break_in breaks.now l)) (lowest s.low s.number s.first) }
{
    if is_looked_at(pinned, marks, l) {
        beside(s, l, break_of(breaks, l))
    } else {
        s
    }
}

// The literals of a clause looked at once, those of free terms only.
pub fn least_in(pinned: bool, breaks: &[u16], marks: &[u8], clause: &[u16]) -> Least
    requires { CanPick 65536 breaks.now marks.now clause.now × Plain pinned marks.now clause.now }
    ensures { lowest result.low result.number result.first
        ≡ lowest_in 65536 (break_in breaks.now) (free_in marks.now clause.now) }
{
    let mut s = Least {
        low: 65536,
        number: 0,
        first: 0,
    };
    for l in clause {
        s = looked(pinned, s, breaks, marks, *l);
    }
    s
}

// ---- the one that is picked

// The literal at place j among those of free terms whose break count is m, in reading order.
// Beside nth_free, and not as a chain: a closure asks each caller to show the bounds of what it captures, which is longer than the loop.
fn nth_at(pinned: bool, breaks: &[u16], marks: &[u8], clause: &[u16], m: u32, j: usize) -> u16
    requires { CanPick 65536 breaks.now marks.now clause.now
        × (j < length (ties_by (break_in breaks.now) m (free_in marks.now clause.now))) × Plain pinned marks.now clause.now }
    ensures { result ≡ get_or (ties_by (break_in breaks.now) m (free_in marks.now clause.now)) j 0 }
{
    let mut left = j + 1;
    for l in clause {
        left -= usize::from(is_at(pinned, breaks, marks, *l, m));
        if left == 0 {
            return *l;
        }
    }
    unreachable!()
}

// One of the literals at the least: taken without a draw where there is one, several by a choice.
fn one_at(
    pinned: bool,
    order: Order,
    breaks: &[u16],
    marks: &[u8],
    clause: &[u16],
    least: Least,
    g: Generator,
) -> Picked
    requires { CanPick 65536 breaks.now marks.now clause.now
        × (lowest least.low least.number least.first ≡ lowest_in 65536 (break_in breaks.now) (free_in marks.now clause.now))
        × (least.number ≡ 0 → ⊥) × Plain pinned marks.now clause.now }
    ensures { pick result.entry result.next.state
        ≡ one_of order (ties_by (break_in breaks.now) least.low (free_in marks.now clause.now)) g.state }
{
    if least.number == 1 {
        return Picked {
            entry: least.first,
            next: g,
        };
    }
    let d = choice(order, least.number as u32, g);
    Picked {
        entry: nth_at(pinned, breaks, marks, clause, least.low, d.number as usize),
        next: d.next,
    }
}

// How many literals of a clause are of free terms.
fn count_free(marks: &[u8], clause: &[u16]) -> usize
    requires { HaveEntries marks.now clause.now }
    ensures { result ≡ length (free_in marks.now clause.now) }
{
    let mut n = 0;
    for l in clause {
        n += usize::from(is_free(marks, *l));
    }
    n
}

// The literal at place j among those of free terms, in reading order.
fn nth_free(marks: &[u8], clause: &[u16], j: usize) -> u16
    requires { HaveEntries marks.now clause.now × (j < length (free_in marks.now clause.now)) }
    ensures { result ≡ get_or (free_in marks.now clause.now) j 0 }
{
    let mut ahead = j + 1;
    for l in clause {
        ahead -= usize::from(is_free(marks, *l));
        if ahead == 0 {
            return *l;
        }
    }
    unreachable!()
}

// A choice among the literals of free terms, drawn even for one.
fn free_from(order: Order, marks: &[u8], clause: &[u16], g: Generator) -> Picked
    requires { HaveEntries marks.now clause.now × CanDraw 65536 (free_in marks.now clause.now) }
    ensures { pick result.entry result.next.state ≡ chosen_from order (free_in marks.now clause.now) g.state }
{
    let d = choice(order, count_free(marks, clause) as u32, g);
    Picked {
        entry: nth_free(marks, clause, d.number as usize),
        next: d.next,
    }
}

// A choice among the literals that are looked at. One way for both, which counts where each passes too, takes 1.03 of a flip's instructions.
fn drawn_from(pinned: bool, order: Order, marks: &[u8], clause: &[u16], g: Generator) -> Picked
    requires { HaveEntries marks.now clause.now × CanDraw 65536 (free_in marks.now clause.now) × Plain pinned marks.now clause.now }
    ensures { pick result.entry result.next.state ≡ chosen_from order (free_in marks.now clause.now) g.state }
{
    if pinned {
        free_from(order, marks, clause, g)
    } else {
        chosen_from(order, clause, g)
    }
}

// The literal of a clause whose term is flipped.
pub fn literal_in(
    pinned: bool,
    order: Order,
    breaks: &[u16],
    marks: &[u8],
    clause: &[u16],
    least: Least,
    g: Generator,
) -> Picked
    requires { CanPick 65536 breaks.now marks.now clause.now
        × (lowest least.low least.number least.first ≡ lowest_in 65536 (break_in breaks.now) (free_in marks.now clause.now))
        × (least.number ≡ 0 → ⊥) × Plain pinned marks.now clause.now }
    ensures { pick result.entry result.next.state
        ≡ literal_by order (break_in breaks.now) (free_in marks.now clause.now) g.state }
{
    if least.low == 0 {
        return one_at(pinned, order, breaks, marks, clause, least, g);
    }
    let d = g.heads(order.bias);
    if d.number == 1 {
        drawn_from(pinned, order, marks, clause, d.next)
    } else {
        one_at(pinned, order, breaks, marks, clause, least, d.next)
    }
}
