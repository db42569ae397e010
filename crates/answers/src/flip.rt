// The answer of a flip list.
ghost use Rattle.std.specs.Prelude.{◌≡◌};
ghost use Rattle.answers.specs.Answers.{flip_answer};

use written::{Counts, Refusal};

// Result 1 is applied, 0 refused; reason 0 where there is none.
#[repr(C)]
#[derive(Clone, Copy)]
pub struct FlipAnswer {
    pub result: u32,
    pub reason: u32,
    pub terms: u32,
    pub clauses: u32,
    pub literals: u32,
    pub uncovered: u32,
}

pub fn flip_answer(answer: Result<Counts, Refusal>) -> FlipAnswer
    ensures { result ≡ flip_answer answer }
{
    match answer {
        Ok(n) => FlipAnswer {
            result: 1,
            reason: 0,
            terms: n.terms,
            clauses: n.clauses,
            literals: n.literals,
            uncovered: n.uncovered,
        },
        Err(e) => {
            let reason = e.reason;
            FlipAnswer {
                result: 0,
                reason: reasons::number_of(reason),
                terms: e.counts.terms,
                clauses: e.counts.clauses,
                literals: e.counts.literals,
                uncovered: e.counts.uncovered,
            }
        }
    }
}
