// The literals turned round: from the clauses, for each literal the clauses in which it stands.
// A function that another crate of the library calls may ask something of its tables, by one record, which its caller proves; none is exported.

#![tactic(auto)]

ghost use Rattle.std.specs.Prelude.{◌≡◌, ◌<◌, length, set};
ghost use mathlib.Core.List.{flatten};
ghost use Rattle.written.specs.Lists.{steps};
ghost use Rattle.written.specs.Tables.{starts_from, over};
ghost use Rattle.machine.specs.Filling.{rounds_in, tally, CanTally, summed, CanSum, filling, put_one, CanPut, put_clause, CanPutAll, CanRound};
ghost use Rattle.machine.specs.Passes.{zeroed, up_to};
ghost use Rattle.machine.specs.Tallies.{CanSteps};

use written::Counts;

// One more for each literal.
fn count(literals: &[u16], counts: &mut [u16])
    requires { CanSteps (CanTally 65536) tally literals.now counts.old }
    ensures { counts.new ≡ steps tally literals.now counts.old }
{
    for l in literals {
        tables::raise(counts, usize::from(*l));
    }
}

// Where runs as long as the first n counts begin, one past the last included.
fn sums(counts: &[u16], starts: &mut [u16], n: usize)
    requires { CanSum 65536 n counts.now starts.old }
    ensures { starts.new ≡ summed n counts.now starts.old }
{
    let mut at: u16 = 0;
    for l in 0..n {
        starts[l] = at;
        at += counts[l];
    }
    starts[n] = at;
}

// Where the runs of the literals begin, n of them, from how often each stands. The cursors go to 0.
fn start_runs(literals: &[u16], starts: &mut [u16], cursors: &mut [u16], n: usize)
    requires { CanSteps (CanTally 65536) tally literals.now cursors.old
        × CanSum 65536 n (steps tally literals.now cursors.old) starts.old }
    ensures { (starts.new ≡ summed n (steps tally literals.now cursors.old) starts.old)
        × (cursors.new ≡ zeroed n (steps tally literals.now cursors.old)) }
{
    count(literals, cursors);
    sums(cursors, starts, n);
    tables::clear(cursors, n, 0);
}

// Clause c stands at place k of a run.
fn put(run: &mut [u16], k: usize, c: u16)
    requires { k < length run.old }
    ensures { run.new ≡ set run.old k c }
{
    run[k] = c;
}

// Clause c is put next into the run of literal l, a part of the occurrences that is lent on.
fn put_one(
    occurrence_starts: &[u16],
    occurrences: &mut [u16],
    cursors: &mut [u16],
    c: u16,
    l: usize,
)
    requires { CanPut 65536 occurrence_starts.now c l (filling occurrences.old cursors.old) }
    ensures { filling occurrences.new cursors.new
        ≡ put_one occurrence_starts.now c l (filling occurrences.old cursors.old) }
{
    let from = usize::from(occurrence_starts[l]);
    let to = usize::from(occurrence_starts[l + 1]);
    let k = usize::from(cursors[l]);
    put(&mut occurrences[from..to], k, c);
    tables::raise(cursors, l);
}

// Clause c is put into the runs of its literals.
fn put_clause(
    clause: &[u16],
    occurrence_starts: &[u16],
    occurrences: &mut [u16],
    cursors: &mut [u16],
    c: u16,
)
    requires { CanSteps (CanPut 65536 occurrence_starts.now c) (put_one occurrence_starts.now c) clause.now
        (filling occurrences.old cursors.old) }
    ensures { filling occurrences.new cursors.new
        ≡ steps (put_one occurrence_starts.now c) clause.now (filling occurrences.old cursors.old) }
{
    for l in clause {
        put_one(occurrence_starts, occurrences, cursors, c, usize::from(*l));
    }
}

// Every clause is put into the runs of its literals, in their order: so each run rises.
fn put_all(
    clauses: usize,
    starts: &[u16],
    literals: &[u16],
    occurrence_starts: &[u16],
    occurrences: &mut [u16],
    cursors: &mut [u16],
)
    requires { CanPutAll 65536 clauses starts.now literals.now occurrence_starts.now (filling occurrences.old cursors.old) }
    ensures { filling occurrences.new cursors.new
        ≡ up_to (put_clause starts.now literals.now occurrence_starts.now) clauses
        (filling occurrences.old cursors.old) }
{
    for c in 0..clauses {
        put_clause(
            tables::part(starts, literals, c),
            occurrence_starts,
            occurrences,
            cursors,
            c as u16,
        );
    }
}

// Occurrence starts and occurrences, from the clauses: the literals turned round. The cursors are 0 before and after.
pub fn turn_round(
    n: Counts,
    starts: &[u16],
    literals: &[u16],
    occurrence_starts: &mut [u16],
    occurrences: &mut [u16],
    cursors: &mut [u16],
)
    requires { CanRound 65536 n.terms n.clauses n.literals starts.now literals.now occurrence_starts.old occurrences.old cursors.old }
    ensures { (occurrence_starts.new
        ≡ over (starts_from 0 (rounds_in n.terms n.clauses starts.now literals.now)) occurrence_starts.old)
        × (occurrences.new
        ≡ over (flatten (rounds_in n.terms n.clauses starts.now literals.now)) occurrences.old)
        × (cursors.new ≡ cursors.old) }
{
    let used = n.literals as usize;
    let runs = 2 * (n.terms as usize);
    start_runs(&literals[..used], occurrence_starts, cursors, runs);
    put_all(
        n.clauses as usize,
        starts,
        literals,
        occurrence_starts,
        occurrences,
        cursors,
    );
    tables::clear(cursors, runs, 0);
}
