// One term pinned at a value, or its pin lifted: done whole, or refused with nothing changed.

#![tactic(auto)]

ghost use Rattle.std.specs.Prelude.{◌≡◌, [], ◌∷◌, ◌+◌, ◌<◌, length, set, Ok};
ghost use Rattle.written.specs.Limits.{narrow};
ghost use Rattle.written.specs.Lending.{lent_at};
ghost use Rattle.written.specs.Agreement.{state_in};
ghost use Rattle.written.specs.Flips.{flipped};
ghost use Rattle.written.specs.Outcomes.{leaves, ten, ten_of, flips_leave, value_asked, flips_for, pin_of, lift_of};
ghost use Rattle.flipping_lists.specs.Tests.{CanFlipList};
ghost use Rattle.pins.specs.Tests.{tests_of};

use tables::Tables;
use written::{Counts, Reason, Refusal};

// The tests of a pin and of a lift, in their order: 1, 12, 13.
fn verdict(term: usize, n: Counts, tables: Tables, marks: &[u8]) -> Result<(), Reason>
    ensures { let t = tables.entry in result ≡ tests_of narrow term n
        (lent_at t.names.now t.values.now t.starts.now t.literals.now t.occurrence_starts.now t.occurrences.now t.trues.now
        t.breaks.now t.uncovered.now t.places.now)
        marks.now }
{
    if !tables.all_full(marks) {
        return Err(Reason::TableTooShort);
    }
    if !marked::agrees(n, tables, marks) {
        return Err(Reason::TablesDisagree);
    }
    if term >= n.terms as usize {
        return Err(Reason::UnknownTerm);
    }
    Ok(())
}

// The value asked for: 0 by 0, and 1 by any other number.
fn asked(value: u32) -> u32
    ensures { result ≡ value_asked value }
{
    u32::from(value != 0)
}

// The term's mark is that of the value asked for.
fn mark_term(marks: &mut [u8], term: usize, value: u32)
    requires { term < length marks.old }
    ensures { marks.new ≡ set marks.old term (1 + value_asked value) }
{
    marks[term] = 1 + asked(value) as u8;
}

// The term flipped where its value is not the one asked for, on tables that agree. Gives the counts that then stand.
fn flip_to(
    term: usize,
    value: u32,
    n: Counts,
    names: &[u64],
    values: &mut [u32],
    starts: &[u16],
    literals: &[u16],
    occurrence_starts: &[u16],
    occurrences: &[u16],
    trues: &mut [u16],
    breaks: &mut [u16],
    uncovered: &mut [u16],
    places: &mut [u16],
) -> Counts
    requires { CanFlipList narrow (term ∷ []) n (lent_at names.now values.old starts.now literals.now occurrence_starts.now occurrences.now trues.old
        breaks.old uncovered.old places.old) }
    ensures { ten (Ok result) (lent_at names.now values.new starts.now literals.now occurrence_starts.now occurrences.now trues.new
        breaks.new uncovered.new places.new)
        ≡ ten_of (flips_leave narrow (lent_at names.now values.old starts.now literals.now occurrence_starts.now occurrences.now trues.old
        breaks.old uncovered.old places.old) []
        (flipped
        (flips_for term (value_asked value) (state_in n (lent_at names.now values.old starts.now literals.now occurrence_starts.now
        occurrences.now trues.old breaks.old uncovered.old places.old)))
        (state_in n (lent_at names.now values.old starts.now literals.now occurrence_starts.now occurrences.now trues.old breaks.old
        uncovered.old places.old)))) }
{
    if words::value(values, term) == asked(value) {
        n
    } else {
        flipping_lists::flip_agreeing(
            &[term as u16],
            n,
            names,
            values,
            starts,
            literals,
            occurrence_starts,
            occurrences,
            trues,
            breaks,
            uncovered,
            places,
        )
    }
}

// The term marked, and flipped where its value is not the one asked for, or a refusal that changes nothing.
pub fn pin(
    term: usize,
    value: u32,
    n: Counts,
    names: &[u64],
    values: &mut [u32],
    starts: &[u16],
    literals: &[u16],
    occurrence_starts: &[u16],
    occurrences: &[u16],
    trues: &mut [u16],
    breaks: &mut [u16],
    uncovered: &mut [u16],
    places: &mut [u16],
    marks: &mut [u8],
) -> Result<Counts, Refusal>
    ensures { leaves result (lent_at names.now values.new starts.now literals.now occurrence_starts.now occurrences.now trues.new breaks.new
        uncovered.new places.new) marks.new
        ≡ pin_of narrow term value n (lent_at names.now values.old starts.now literals.now occurrence_starts.now occurrences.now trues.old
        breaks.old uncovered.old places.old)
        marks.old }
{
    let tables = Tables {
        names,
        values,
        starts,
        literals,
        occurrence_starts,
        occurrences,
        trues,
        breaks,
        uncovered,
        places,
    };
    verdict(term, n, tables, marks).map_err(|reason| Refusal { reason, counts: n })?;
    mark_term(marks, term, value);
    Ok(flip_to(
        term,
        value,
        n,
        names,
        values,
        starts,
        literals,
        occurrence_starts,
        occurrences,
        trues,
        breaks,
        uncovered,
        places,
    ))
}

// The term's mark cleared, or a refusal that changes nothing.
pub fn lift(term: usize, n: Counts, tables: Tables, marks: &mut [u8]) -> Result<Counts, Refusal>
    ensures { let t = tables.entry in let u = lent_at t.names.now t.values.now t.starts.now t.literals.now t.occurrence_starts.now t.occurrences.now t.trues.now
        t.breaks.now t.uncovered.now t.places.now in
        leaves result u marks.new ≡ lift_of narrow term n u marks.old }
{
    verdict(term, n, tables, marks).map_err(|reason| Refusal { reason, counts: n })?;
    marks[term] = 0;
    Ok(n)
}
