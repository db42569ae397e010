// The answer of a reading.
ghost use Rattle.std.specs.Prelude.{◌≡◌};
ghost use Rattle.answers.specs.Answers.{read_answer};

use written::{Counts, Fault};

// Result 1 is accepted, 0 refused; reason 0 where there is none; the line of the fault, 0 where it has none.
#[repr(C)]
#[derive(Clone, Copy)]
pub struct ReadAnswer {
    pub result: u32,
    pub reason: u32,
    pub line: u32,
    pub terms: u32,
    pub clauses: u32,
    pub literals: u32,
    pub uncovered: u32,
}

pub fn read_answer(answer: Result<Counts, Fault>) -> ReadAnswer
    ensures { result ≡ read_answer answer }
{
    match answer {
        Ok(n) => ReadAnswer {
            result: 1,
            reason: 0,
            line: 0,
            terms: n.terms,
            clauses: n.clauses,
            literals: n.literals,
            uncovered: n.uncovered,
        },
        Err(e) => {
            let reason = e.reason;
            ReadAnswer {
                result: 0,
                reason: reasons::number_of(reason),
                line: e.line,
                terms: 0,
                clauses: 0,
                literals: 0,
                uncovered: 0,
            }
        }
    }
}
