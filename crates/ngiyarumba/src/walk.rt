// A walk over the boundary.
ghost use Rattle.std.specs.Prelude.{◌≡◌};
ghost use Rattle.written.specs.Limits.{narrow};
ghost use Rattle.written.specs.Lending.{lent_at};
ghost use Rattle.written.specs.Outcomes.{leaves, told, walk_of};
ghost use Rattle.answers.specs.Answers.{order, counts, walk_answer};

use answers::walk::WalkAnswer;
use written::{Counts, Order};

// The walks of an order, or a refusal that changes nothing.
pub fn ngi_walk(
    seed: u32,
    flips: u32,
    walks: u32,
    bias: u32,
    even: u32,
    terms: u32,
    clauses: u32,
    literals: u32,
    uncovered: u32,
    names: &[u64],
    values: &mut [u32],
    starts: &[u16],
    literals_table: &[u16],
    occurrence_starts: &[u16],
    occurrences: &[u16],
    true_counts: &mut [u16],
    break_counts: &mut [u16],
    uncovered_list: &mut [u16],
    places: &mut [u16],
    marks: &[u8],
) -> WalkAnswer
    ensures { leaves result
        (lent_at names.now values.new starts.now literals_table.now occurrence_starts.now occurrences.now true_counts.new break_counts.new
        uncovered_list.new places.new)
        marks.now
        ≡ told walk_answer (walk_of narrow (order seed flips walks bias even) (counts terms clauses literals uncovered)
        (lent_at names.now values.old starts.now literals_table.now occurrence_starts.now occurrences.now true_counts.old break_counts.old
        uncovered_list.old places.old)
        marks.now) }
{
    let o = Order {
        seed,
        flips,
        walks,
        bias,
        even,
    };
    let n = Counts {
        terms,
        clauses,
        literals,
        uncovered,
    };
    let answer = walking_call::walk(
        o,
        n,
        names,
        values,
        starts,
        literals_table,
        occurrence_starts,
        occurrences,
        true_counts,
        break_counts,
        uncovered_list,
        places,
        marks,
    );
    answers::walk::walk_answer(answer)
}
