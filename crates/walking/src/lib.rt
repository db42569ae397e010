// Walks on tables that have been tested: found or given up.
// A function that another crate of the library calls may ask something of its tables, by one record, which its caller proves; none is exported.

#![tactic(auto)]

ghost use Rattle.std.specs.Prelude.{◌≡◌, false, cond, ltb, ◌^◌, Ok};
ghost use Rattle.written.specs.Limits.{narrow};
ghost use Rattle.written.specs.Lending.{lent_at};
ghost use Rattle.written.specs.Outcomes.{leaves};
ghost use Rattle.laws.specs.WalkCalls.{Allowed};
ghost use Rattle.machine.specs.Moving.{fixed_at};
ghost use Rattle.walking_steps.specs.Stepping.{stand_at};
ghost use Rattle.walking.specs.Walking.{end, walks_in, CanWalks};
ghost use Rattle.walking.specs.Made.{walk_made};

use draw::Generator;
use walking_steps::At;
use written::{Counts, Order, Tour, Walked};

// How the walks end: found or not, walks begun, and where they stand. The flag is what the one test of the loop reads.
#[derive(Clone, Copy)]
struct Ended {
    found: bool,
    walks: u32,
    at: At,
}

// Whether another walk is to begin. One test for both ways to end: a `for` with a return takes 1.04 of a flip's instructions.
fn goes_on(found: bool, begun: u32, walks: u32) -> bool
    ensures { result ≡ cond found false (ltb begun walks) }
{
    !found && begun < walks
}

// Walks one after the other, until one has found or all are over. The generator goes on from one to the next.
fn all_walks(
    order: Order,
    n: Counts,
    values: &mut [u32],
    starts: &[u16],
    literals: &[u16],
    occurrence_starts: &[u16],
    occurrences: &[u16],
    trues: &mut [u16],
    breaks: &mut [u16],
    list: &mut [u16],
    places: &mut [u16],
    marks: &[u8],
    from: At,
) -> Ended
    requires { CanWalks 65536 (2 ^ 32) n.terms n.clauses order.walks order marks.now
        (fixed_at starts.now literals.now occurrence_starts.now occurrences.now)
        (stand_at values.old trues.old breaks.old list.old places.old from) }
    ensures { end result.found result.walks (stand_at values.new trues.new breaks.new list.new places.new result.at)
        ≡ walks_in order marks.now n.terms n.clauses (fixed_at starts.now literals.now occurrence_starts.now occurrences.now) order.walks 0
        (stand_at values.old trues.old breaks.old list.old places.old from) }
{
    let mut at = from;
    let mut begun: u32 = 0;
    let mut found = false;
    while goes_on(found, begun, order.walks) {
        at = walking_steps::one_walk(
            order,
            n,
            values,
            starts,
            literals,
            occurrence_starts,
            occurrences,
            trues,
            breaks,
            list,
            places,
            marks,
            at,
        );
        begun += 1;
        found = at.number == 0;
    }
    Ended {
        found,
        walks: begun,
        at,
    }
}

// The walks of an order on tables that have been tested, or have just been read.
pub fn walk_tested(
    order: Order,
    n: Counts,
    names: &[u64],
    values: &mut [u32],
    starts: &[u16],
    literals: &[u16],
    occurrence_starts: &[u16],
    occurrences: &[u16],
    trues: &mut [u16],
    breaks: &mut [u16],
    uncovered: &mut [u16],
    places: &mut [u16],
    marks: &[u8],
) -> Walked
    requires { Allowed narrow order n (lent_at names.now values.old starts.now literals.now occurrence_starts.now occurrences.now trues.old
        breaks.old uncovered.old places.old) marks.now }
    ensures { leaves (Ok result) (lent_at names.now values.new starts.now literals.now occurrence_starts.now occurrences.now trues.new breaks.new
        uncovered.new places.new) marks.now
        ≡ walk_made narrow order n (lent_at names.now values.old starts.now literals.now occurrence_starts.now occurrences.now trues.old
        breaks.old uncovered.old places.old)
        marks.now }
{
    let e = all_walks(
        order,
        n,
        values,
        starts,
        literals,
        occurrence_starts,
        occurrences,
        trues,
        breaks,
        uncovered,
        places,
        marks,
        At {
            number: n.uncovered as usize,
            generator: Generator::new(order.seed),
            flips: 0,
        },
    );
    recounts::close_all(n.clauses as usize, trues, places);
    let tour = Tour {
        walks: e.walks,
        flips: e.at.flips,
        counts: Counts {
            uncovered: e.at.number as u32,
            ..n
        },
    };
    if e.found {
        return Walked::Found(tour);
    }
    Walked::GaveUp(tour)
}
