// The answer of a walk.
ghost use Rattle.std.specs.Prelude.{◌≡◌};
ghost use Rattle.answers.specs.Answers.{tour_answer, walk_answer};

use written::{Refusal, Tour, Walked};

// Result 1 is found, 2 gave up, 0 refused; reason 0 where there is none.
#[repr(C)]
#[derive(Clone, Copy)]
pub struct WalkAnswer {
    pub result: u32,
    pub reason: u32,
    pub walks: u32,
    pub flips: u32,
    pub terms: u32,
    pub clauses: u32,
    pub literals: u32,
    pub uncovered: u32,
}

// A walk that was made, under the number of its result.
pub fn tour_answer(res: u32, tour: Tour) -> WalkAnswer
    ensures { result ≡ tour_answer res tour }
{
    let n = tour.counts;
    WalkAnswer {
        result: res,
        reason: 0,
        walks: tour.walks,
        flips: tour.flips,
        terms: n.terms,
        clauses: n.clauses,
        literals: n.literals,
        uncovered: n.uncovered,
    }
}

pub fn walk_answer(answer: Result<Walked, Refusal>) -> WalkAnswer
    ensures { result ≡ walk_answer answer }
{
    match answer {
        Ok(Walked::Found(tour)) => tour_answer(1, tour),
        Ok(Walked::GaveUp(tour)) => tour_answer(2, tour),
        Err(e) => {
            let reason = e.reason;
            WalkAnswer {
                result: 0,
                reason: reasons::number_of(reason),
                walks: 0,
                flips: 0,
                terms: e.counts.terms,
                clauses: e.counts.clauses,
                literals: e.counts.literals,
                uncovered: e.counts.uncovered,
            }
        }
    }
}
