// Pins and lifts over the boundary.
ghost use Rattle.std.specs.Prelude.{◌≡◌};
ghost use Rattle.written.specs.Limits.{narrow};
ghost use Rattle.written.specs.Lending.{lent_at};
ghost use Rattle.written.specs.Outcomes.{leaves, told, pin_of, lift_of};
ghost use Rattle.answers.specs.Answers.{flip_answer, counts};

use answers::flip::FlipAnswer;
use tables::Tables;
use written::Counts;

// The term marked, at 0 for the value 0 and else at 1, and flipped if its value differs; or a refusal that changes nothing.
pub fn ngi_pin(
    term: u32,
    value: u32,
    terms: u32,
    clauses: u32,
    literals: u32,
    uncovered: u32,
    names: &[u64],
    values: &mut [u32],
    starts: &[u16],
    literals_table: &[u16],
    occurrence_starts: &[u16],
    occurrences: &[u16],
    true_counts: &mut [u16],
    break_counts: &mut [u16],
    uncovered_list: &mut [u16],
    places: &mut [u16],
    marks: &mut [u8],
) -> FlipAnswer
    ensures { leaves result
        (lent_at names.now values.new starts.now literals_table.now occurrence_starts.now occurrences.now true_counts.new break_counts.new
        uncovered_list.new places.new)
        marks.new
        ≡ told flip_answer (pin_of narrow term value (counts terms clauses literals uncovered)
        (lent_at names.now values.old starts.now literals_table.now occurrence_starts.now occurrences.now true_counts.old break_counts.old
        uncovered_list.old places.old)
        marks.old) }
{
    let n = Counts {
        terms,
        clauses,
        literals,
        uncovered,
    };
    let answer = pins::pin(
        term as usize,
        value,
        n,
        names,
        values,
        starts,
        literals_table,
        occurrence_starts,
        occurrences,
        true_counts,
        break_counts,
        uncovered_list,
        places,
        marks,
    );
    answers::flip::flip_answer(answer)
}

// The term's mark cleared, and nothing else; or a refusal that changes nothing.
pub fn ngi_lift(
    term: u32,
    terms: u32,
    clauses: u32,
    literals: u32,
    uncovered: u32,
    names: &[u64],
    values: &[u32],
    starts: &[u16],
    literals_table: &[u16],
    occurrence_starts: &[u16],
    occurrences: &[u16],
    true_counts: &[u16],
    break_counts: &[u16],
    uncovered_list: &[u16],
    places: &[u16],
    marks: &mut [u8],
) -> FlipAnswer
    ensures { leaves result
        (lent_at names.now values.now starts.now literals_table.now occurrence_starts.now occurrences.now true_counts.now break_counts.now
        uncovered_list.now places.now)
        marks.new
        ≡ told flip_answer (lift_of narrow term (counts terms clauses literals uncovered)
        (lent_at names.now values.now starts.now literals_table.now occurrence_starts.now occurrences.now true_counts.now break_counts.now
        uncovered_list.now places.now)
        marks.old) }
{
    let n = Counts {
        terms,
        clauses,
        literals,
        uncovered,
    };
    let tables = Tables {
        names,
        values,
        starts,
        literals: literals_table,
        occurrence_starts,
        occurrences,
        trues: true_counts,
        breaks: break_counts,
        uncovered: uncovered_list,
        places,
    };
    answers::flip::flip_answer(pins::lift(term as usize, n, tables, marks))
}
