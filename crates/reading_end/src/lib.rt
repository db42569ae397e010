// The ends of a reading: the tests of a text as a whole, the tables cleared, and a whole draft worked out into tables at values of 0.
// A function that another crate of the library calls may ask what its caller proves; none is exported.
// The tables are lent one by one, as in `reading`.

#![tactic(auto)]

ghost use Rattle.std.specs.Prelude.{◌≡◌, ◌≤◌, length};
ghost use Rattle.written.specs.Limits.{narrow};
ghost use Rattle.machine.specs.Moving.{fixed_at, moving_at};
ghost use Rattle.reading_lines.specs.Drafting.{desk_at};
ghost use Rattle.reading_end.specs.Tests.{text_tests};
ghost use Rattle.reading_end.specs.Clearing.{wiped, others_at, wiped_others, rest_zeroed};
ghost use Rattle.reading_end.specs.Finishing.{finishing, finished, CanFinish};

use reading_lines::Place;
use written::{Counts, Reason};

// The tests of a text as a whole, in their order: 2, 3.
pub fn verdict(text: &[u8]) -> Result<(), Reason>
    ensures { result ≡ text_tests narrow text.now }
{
    if text.len() > 65536 {
        return Err(Reason::TextTooLong);
    }
    if scan::cut_off(text) {
        return Err(Reason::TextCut);
    }
    Ok(())
}

// ---- clearing

// The tables of a draft to 0: its stamps stand in the break counts, its slots in the places.
pub fn clear_draft(
    names: &mut [u64],
    starts: &mut [u16],
    literals: &mut [u16],
    stamps: &mut [u16],
    slots: &mut [u16],
)
    ensures { desk_at names.new starts.new literals.new stamps.new slots.new
        ≡ wiped narrow (desk_at names.old starts.old literals.old stamps.old slots.old) }
{
    tables::clear(names, 2048, 0);
    tables::clear(starts, 8193, 0);
    tables::clear(literals, 16384, 0);
    tables::clear(stamps, 2048, 0);
    tables::clear(slots, 8192, 0);
}

// The tables that a draft does not use, to 0.
pub fn clear_others(
    values: &mut [u32],
    occurrence_starts: &mut [u16],
    occurrences: &mut [u16],
    trues: &mut [u16],
    uncovered: &mut [u16],
)
    ensures { others_at values.new occurrence_starts.new occurrences.new trues.new uncovered.new
        ≡ wiped_others narrow (others_at values.old occurrence_starts.old occurrences.old trues.old uncovered.old) }
{
    tables::clear(values, 64, 0);
    tables::clear(occurrence_starts, 4097, 0);
    tables::clear(occurrences, 16384, 0);
    tables::clear(trues, 8192, 0);
    tables::clear(uncovered, 8192, 0);
}

// The entries from a place up to n become 0.
fn clear_rest(table: &mut [u16], from: usize, n: usize)
    requires { (from ≤ n) × (n ≤ length table.old) }
    ensures { table.new ≡ rest_zeroed n from table.old }
{
    table[from..n].fill(0);
}

// ---- a whole draft

// What a draft used on its way is cleared, its literals are turned round, and the counts worked out for values of 0.
pub fn finish(
    p: Place,
    values: &[u32],
    starts: &[u16],
    literals: &mut [u16],
    occurrence_starts: &mut [u16],
    occurrences: &mut [u16],
    trues: &mut [u16],
    breaks: &mut [u16],
    uncovered: &mut [u16],
    places: &mut [u16],
) -> Counts
    requires { CanFinish 65536 narrow p (fixed_at starts.now literals.old occurrence_starts.old occurrences.old)
        (moving_at values.now trues.old breaks.old uncovered.old places.old 0) }
    ensures { finishing result (fixed_at starts.now literals.new occurrence_starts.new occurrences.new)
        (moving_at values.now trues.new breaks.new uncovered.new places.new result.uncovered)
        ≡ finished narrow p (fixed_at starts.now literals.old occurrence_starts.old occurrences.old)
        (moving_at values.now trues.old breaks.old uncovered.old places.old 0) }
{
    let terms = p.terms;
    let clauses = p.clauses;
    clear_rest(literals, p.from, 16384);
    tables::clear(breaks, 2048, 0); // the stamps
    tables::clear(places, 8192, 0); // the slots
    let n = Counts {
        terms: terms as u32,
        clauses: clauses as u32,
        literals: p.from as u32,
        uncovered: 0,
    };
    occurrences::turn_round(
        n,
        starts,
        literals,
        occurrence_starts,
        occurrences,
        uncovered,
    );
    let number = recounts::count_afresh(
        terms, clauses, values, starts, literals, trues, breaks, uncovered, places,
    );
    recounts::close_all(clauses, trues, places);
    Counts {
        uncovered: number as u32,
        ..n
    }
}
