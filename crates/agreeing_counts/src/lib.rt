// Whether the true, break and uncovered counts, and the list, are those of the file and the values; nothing is changed.
// A function that another crate of the library calls may ask what the points before it have shown, which its caller proves; none is exported.

#![tactic(auto)]

ghost use Rattle.std.specs.Prelude.{◌≡◌, ◌≤◌, ◌<◌, length, take, eqb};
ghost use Rattle.written.specs.Lists.{all, below};
ghost use Rattle.written.specs.Agreement.{part_of};
ghost use Rattle.machine.specs.Moving.{CanPart, down_of};
ghost use Rattle.machine.specs.Judging.{clauses_in, values_in, trues_right, counts_right};
ghost use Rattle.machine.specs.Tested.{count_of, ones_in, break_at, break_tested, place_tested, InCounts, CanTrues, CanBreaks, CanList, CanCounts};

use tables::Tables;
use written::Counts;

// The true counts are those of the values.
fn trues_agree(n: Counts, values: &[u32], starts: &[u16], literals: &[u16], trues: &[u16]) -> bool
    requires { CanTrues n.terms n.clauses starts.now literals.now trues.now }
    ensures { result ≡ trues_right n.clauses (values_in n.terms values.now)
        (clauses_in n.clauses starts.now literals.now) trues.now }
{
    for c in 0..(n.clauses as usize) {
        let k = tables::true_count(values, tables::part(starts, literals, c));
        if usize::from(trues[c]) != k {
            return false;
        }
    }
    true
}

// How many counts are 0.
fn zero_count(counts: &[u16]) -> usize
    ensures { result ≡ count_of 0 counts.now }
{
    let mut zeros: usize = 0;
    for count in counts {
        zeros += tables::one_for(*count, 0);
    }
    zeros
}

// The number of uncovered clauses is that of the true counts of 0.
fn number_agrees(n: Counts, trues: &[u16]) -> bool
    requires { n.clauses ≤ length trues.now }
    ensures { result ≡ eqb n.uncovered (count_of 0 (take n.clauses trues.now)) }
{
    (n.uncovered as usize) == zero_count(&trues[..(n.clauses as usize)])
}

// How many clauses of a run have one true literal.
fn ones_in(trues: &[u16], run: &[u16]) -> usize
    requires { InCounts trues.now run.now }
    ensures { result ≡ ones_in trues.now run.now }
{
    let mut ones: usize = 0;
    for c in run {
        ones += tables::one_for(trues[usize::from(*c)], 1);
    }
    ones
}

// The break count of term t: how many clauses its true literal alone makes true.
fn break_count(
    values: &[u32],
    occurrence_starts: &[u16],
    occurrences: &[u16],
    trues: &[u16],
    t: usize,
) -> usize
    requires { (t < 4294967296) × CanPart occurrence_starts.now occurrences.now (down_of values.now t)
        × InCounts trues.now (part_of occurrence_starts.now occurrences.now (down_of values.now t)) }
    ensures { result ≡ break_at values.now occurrence_starts.now occurrences.now trues.now t }
{
    let l = 2 * t + 1 - (words::value(values, t) as usize);
    ones_in(trues, tables::part(occurrence_starts, occurrences, l))
}

// The break counts are those of the values.
fn breaks_agree(
    n: Counts,
    values: &[u32],
    occurrence_starts: &[u16],
    occurrences: &[u16],
    trues: &[u16],
    breaks: &[u16],
) -> bool
    requires { CanBreaks n.terms values.now occurrence_starts.now occurrences.now trues.now breaks.now }
    ensures { result ≡ all (break_tested values.now occurrence_starts.now occurrences.now trues.now
        breaks.now) (below n.terms) }
{
    for t in 0..(n.terms as usize) {
        let k = break_count(values, occurrence_starts, occurrences, trues, t);
        if usize::from(breaks[t]) != k {
            return false;
        }
    }
    true
}

// Clause c has its place: that of its entry if it is uncovered, else 0.
fn place_agrees(n: Counts, trues: &[u16], uncovered: &[u16], places: &[u16], c: usize) -> bool
    requires { (c < length trues.now) × (c < length places.now) × (n.uncovered ≤ length uncovered.now) }
    ensures { result ≡ place_tested n.uncovered trues.now uncovered.now places.now c }
{
    let p = usize::from(places[c]);
    if trues[c] != 0 {
        p == 0
    } else {
        p < (n.uncovered as usize) && usize::from(uncovered[p]) == c
    }
}

// Every clause has its place. A list of as many entries as clauses stand uncovered then holds each of these once and no other.
fn list_agrees(n: Counts, trues: &[u16], uncovered: &[u16], places: &[u16]) -> bool
    requires { CanList n.clauses n.uncovered trues.now uncovered.now places.now }
    ensures { result ≡ all (place_tested n.uncovered trues.now uncovered.now places.now) (below n.clauses) }
{
    for c in 0..(n.clauses as usize) {
        if !place_agrees(n, trues, uncovered, places, c) {
            return false;
        }
    }
    true
}

// The counts are those of the values, and the list holds each uncovered clause once, with its place.
pub fn counts_agree(n: Counts, tables: Tables) -> bool
    requires { let t = tables in CanCounts n t.values.now t.starts.now t.literals.now t.occurrence_starts.now t.occurrences.now t.trues.now
        t.breaks.now t.uncovered.now t.places.now }
    ensures { let t = tables.entry in result ≡ counts_right n t.values.now t.starts.now t.literals.now t.trues.now t.breaks.now t.uncovered.now
        t.places.now }
{
    let values = tables.values;
    let trues = tables.trues;
    trues_agree(n, values, tables.starts, tables.literals, trues)
        && breaks_agree(
            n,
            values,
            tables.occurrence_starts,
            tables.occurrences,
            trues,
            tables.breaks,
        )
        && number_agrees(n, trues)
        && list_agrees(n, trues, tables.uncovered, tables.places)
}
