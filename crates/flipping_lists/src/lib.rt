// Flip lists: applied whole or refused whole; and the flips of a list on tables that are known to agree.

#![tactic(auto)]

ghost use Rattle.std.specs.Prelude.{◌≡◌, [], ltb, Ok};
ghost use Rattle.written.specs.Lists.{all};
ghost use Rattle.written.specs.Limits.{narrow};
ghost use Rattle.written.specs.Lending.{lent_at};
ghost use Rattle.written.specs.Agreement.{state_in};
ghost use Rattle.written.specs.Marks.{is_free};
ghost use Rattle.written.specs.Flips.{flipped};
ghost use Rattle.written.specs.Outcomes.{leaves, ten, ten_of, flips_leave, flips_of};
ghost use Rattle.machine.specs.Moving.{fixed_at, moving_at};
ghost use Rattle.machine.specs.Passes.{applied, CanApply};
ghost use Rattle.flipping_lists.specs.Tests.{tests_of, terms_tested, CanFlipList};

use tables::Tables;
use written::{Counts, Reason, Refusal};

// The whole list names known terms.
fn known(list: &[u16], terms: u32) -> bool
    ensures { result ≡ all (λ v. ltb v terms) list.now }
{
    list.iter().all(|v| usize::from(*v) < terms as usize)
}

// The term t has no mark; past the marks none has one.
fn is_free(marks: &[u8], t: usize) -> bool
    ensures { result ≡ is_free marks.now t }
{
    marks.get(t).is_none_or(|m| *m == 0)
}

// The whole list names free terms.
fn free(list: &[u16], marks: &[u8]) -> bool
    ensures { result ≡ all (is_free marks.now) list.now }
{
    list.iter().all(|v| is_free(marks, usize::from(*v)))
}

// The tests of the list's terms, in their order: 13, then 20. The whole list is looked at before any flip.
fn terms_verdict(list: &[u16], terms: u32, marks: &[u8]) -> Result<(), Reason>
    ensures { result ≡ terms_tested terms marks.now list.now }
{
    if !known(list, terms) {
        return Err(Reason::UnknownTerm);
    }
    if !free(list, marks) {
        return Err(Reason::PinnedTerm);
    }
    Ok(())
}

// The tests, in their order: 1, 14, 12, then those of the list's terms.
fn verdict(list: &[u16], n: Counts, tables: Tables, marks: &[u8]) -> Result<(), Reason>
    ensures { let t = tables.entry in result ≡ tests_of narrow list.now n
        (lent_at t.names.now t.values.now t.starts.now t.literals.now t.occurrence_starts.now t.occurrences.now t.trues.now
        t.breaks.now t.uncovered.now t.places.now)
        marks.now }
{
    if !tables.all_full(marks) {
        return Err(Reason::TableTooShort);
    }
    if list.len() > 65536 {
        return Err(Reason::ListTooLong);
    }
    if !marked::agrees(n, tables, marks) {
        return Err(Reason::TablesDisagree);
    }
    terms_verdict(list, n.terms, marks)
}

// The flips of a list on tables that agree: the places are made those for walking, and those of written tables again. Gives the number of
// uncovered clauses.
fn flip_list(
    clauses: usize,
    list: &[u16],
    values: &mut [u32],
    starts: &[u16],
    literals: &[u16],
    occurrence_starts: &[u16],
    occurrences: &[u16],
    trues: &mut [u16],
    breaks: &mut [u16],
    uncovered: &mut [u16],
    places: &mut [u16],
    number: usize,
) -> usize
    requires { CanApply 65536 clauses (fixed_at starts.now literals.now occurrence_starts.now occurrences.now) list.now
        (moving_at values.old trues.old breaks.old uncovered.old places.old number) }
    ensures { moving_at values.new trues.new breaks.new uncovered.new places.new result
        ≡ applied clauses (fixed_at starts.now literals.now occurrence_starts.now occurrences.now) list.now
        (moving_at values.old trues.old breaks.old uncovered.old places.old number) }
{
    recounts::open_all(clauses, values, starts, literals, trues, places);
    let m = flipping::flip_all(
        list,
        values,
        occurrence_starts,
        occurrences,
        trues,
        breaks,
        uncovered,
        places,
        number,
    );
    recounts::close_all(clauses, trues, places);
    m
}

// The counts given, with another number of uncovered clauses.
fn recounted(n: Counts, number: u32) -> Counts
    ensures { result ≡ record { terms = n.terms; clauses = n.clauses; literals = n.literals; uncovered = number } }
{
    Counts {
        uncovered: number,
        ..n
    }
}

// The terms of the list flipped, in order, on tables that agree. Gives the counts that then stand.
pub fn flip_agreeing(
    list: &[u16],
    n: Counts,
    names: &[u64],
    values: &mut [u32],
    starts: &[u16],
    literals: &[u16],
    occurrence_starts: &[u16],
    occurrences: &[u16],
    trues: &mut [u16],
    breaks: &mut [u16],
    uncovered: &mut [u16],
    places: &mut [u16],
) -> Counts
    requires { CanFlipList narrow list.now n (lent_at names.now values.old starts.now literals.now occurrence_starts.now occurrences.now trues.old
        breaks.old uncovered.old places.old) }
    ensures { ten (Ok result) (lent_at names.now values.new starts.now literals.now occurrence_starts.now occurrences.now trues.new
        breaks.new uncovered.new places.new)
        ≡ ten_of (flips_leave narrow (lent_at names.now values.old starts.now literals.now occurrence_starts.now occurrences.now trues.old
        breaks.old uncovered.old places.old) []
        (flipped list.now (state_in n (lent_at names.now values.old starts.now literals.now occurrence_starts.now occurrences.now trues.old
        breaks.old uncovered.old places.old)))) }
{
    let number = flip_list(
        n.clauses as usize,
        list,
        values,
        starts,
        literals,
        occurrence_starts,
        occurrences,
        trues,
        breaks,
        uncovered,
        places,
        n.uncovered as usize,
    );
    recounted(n, number as u32)
}

// The terms of the list flipped, in order, or a refusal that changes nothing.
pub fn apply(
    list: &[u16],
    n: Counts,
    names: &[u64],
    values: &mut [u32],
    starts: &[u16],
    literals: &[u16],
    occurrence_starts: &[u16],
    occurrences: &[u16],
    trues: &mut [u16],
    breaks: &mut [u16],
    uncovered: &mut [u16],
    places: &mut [u16],
    marks: &[u8],
) -> Result<Counts, Refusal>
    ensures { leaves result (lent_at names.now values.new starts.now literals.now occurrence_starts.now occurrences.now trues.new breaks.new
        uncovered.new places.new) marks.now
        ≡ flips_of narrow list.now n (lent_at names.now values.old starts.now literals.now occurrence_starts.now occurrences.now trues.old
        breaks.old uncovered.old places.old)
        marks.now }
{
    let tables = Tables {
        names,
        values,
        starts,
        literals,
        occurrence_starts,
        occurrences,
        trues,
        breaks,
        uncovered,
        places,
    };
    verdict(list, n, tables, marks).map_err(|reason| Refusal { reason, counts: n })?;
    Ok(flip_agreeing(
        list,
        n,
        names,
        values,
        starts,
        literals,
        occurrence_starts,
        occurrences,
        trues,
        breaks,
        uncovered,
        places,
    ))
}
