// The flip of a term on the lent tables while walking. No clause is read: the place of a covered clause is the xor of the terms of its true literals.
// A function that another crate of the library calls may ask something of its tables, by one record, which its caller proves; none is exported.

#![tactic(auto)]

ghost use Rattle.std.specs.Prelude.{◌≡◌, ℕ, ◌<◌};
ghost use Rattle.written.specs.Lists.{steps};
ghost use Rattle.machine.specs.Uncovered.{uncovered, leaves, enters, CanLeave, CanEnter};
ghost use Rattle.machine.specs.Tallies.{Tallies, tallies_at, pick_of, below_of};
ghost use Rattle.machine.specs.Tallies.{gain_one, lose_one, CanGain, CanLose, CanSteps};
ghost use Rattle.machine.specs.Moving.{moving_at, occurring, up_of, flip_term, CanFlip};

// p where k is below m, else v: no jump is made on it. Both are wide, so that nothing is widened after the choice.
fn pick(k: u16, m: u16, p: usize, v: usize) -> usize
    ensures { result ≡ pick_of k m p v }
{
    if k < m { p } else { v }
}

// 1 where k is below m, else 0.
fn below(k: u16, m: u16) -> u16
    ensures { result ≡ below_of k m }
{
    u16::from(k < m)
}

// The counts of the clauses, and the list of the uncovered ones with its places and its number of entries.
#[derive(Drop)]
struct Tallies<'a> {
    trues: &'a mut [u16],
    breaks: &'a mut [u16],
    list: &'a mut [u16],
    places: &'a mut [u16],
    number: usize,
}

impl<'a> Tallies<'a> {
    // Clause c leaves the uncovered list, and its place becomes v.
    fn leave(&mut self, c: u16, v: u16)
        requires { let t = self.old in CanLeave c (uncovered t.list.now t.places.now t.number) }
        ensures same_tables { let t = self.old in let u = self.new in (u.trues.ghost_name ≡ t.trues.ghost_name)
            × (u.breaks.ghost_name ≡ t.breaks.ghost_name) × (u.list.ghost_name ≡ t.list.ghost_name) × (u.places.ghost_name ≡ t.places.ghost_name) }
        ensures same_counts { let t = self.old in let u = self.new in (u.trues.now ≡ t.trues.now) × (u.breaks.now ≡ t.breaks.now) }
        ensures listed { let t = self.old in let u = self.new in uncovered u.list.now u.places.now u.number
            ≡ leaves c v (uncovered t.list.now t.places.now t.number) }
    {
        let at = usize::from(c);
        let slot = self.places[at];
        let last = self.list[self.number - 1];
        self.list[usize::from(slot)] = last;
        self.list[self.number - 1] = 0;
        self.places[usize::from(last)] = slot;
        self.places[at] = v;
        self.number -= 1;
    }

    // Clause c is put at the end of the uncovered list: not by `tables::enter`, since two fields behind a `&mut` can not be lent at once.
    fn enter(&mut self, c: u16)
        requires { let t = self.old in CanEnter 65536 c (uncovered t.list.now t.places.now t.number) }
        ensures same_tables { let t = self.old in let u = self.new in (u.trues.ghost_name ≡ t.trues.ghost_name)
            × (u.breaks.ghost_name ≡ t.breaks.ghost_name) × (u.list.ghost_name ≡ t.list.ghost_name) × (u.places.ghost_name ≡ t.places.ghost_name) }
        ensures same_counts { let t = self.old in let u = self.new in (u.trues.now ≡ t.trues.now) × (u.breaks.now ≡ t.breaks.now) }
        ensures listed { let t = self.old in let u = self.new in uncovered u.list.now u.places.now u.number
            ≡ enters c (uncovered t.list.now t.places.now t.number) }
    {
        self.list[self.number] = c;
        self.places[usize::from(c)] = self.number as u16;
        self.number += 1;
    }

    // Clause c gains a true literal, of term v.
    fn gain(&mut self, v: usize, c: u16)
        requires { let t = self.old in CanGain 65536 v c (tallies_at t.trues.now t.breaks.now t.list.now t.places.now t.number) × (v < 65536) }
        ensures same_tables { let t = self.old in let u = self.new in (u.trues.ghost_name ≡ t.trues.ghost_name)
            × (u.breaks.ghost_name ≡ t.breaks.ghost_name) × (u.list.ghost_name ≡ t.list.ghost_name) × (u.places.ghost_name ≡ t.places.ghost_name) }
        ensures counts { let t = self.old in let u = self.new in tallies_at u.trues.now u.breaks.now u.list.now u.places.now u.number
            ≡ gain_one v c (tallies_at t.trues.now t.breaks.now t.list.now t.places.now t.number) }
    {
        let at = usize::from(c);
        let k = self.trues[at];
        self.trues[at] = k + 1;
        if k == 0 {
            self.breaks[v] += 1;
            self.leave(c, v as u16);
            return;
        }
        let p = self.places[at];
        self.places[at] = p ^ (v as u16);
        // it has one or more: one where they are below 2
        self.breaks[pick(k, 2, usize::from(p), v)] -= below(k, 2);
    }

    // Clause c loses a true literal, of term v.
    fn lose(&mut self, v: usize, c: u16)
        requires { let t = self.old in CanLose 65536 v c (tallies_at t.trues.now t.breaks.now t.list.now t.places.now t.number) × (v < 65536) }
        ensures same_tables { let t = self.old in let u = self.new in (u.trues.ghost_name ≡ t.trues.ghost_name)
            × (u.breaks.ghost_name ≡ t.breaks.ghost_name) × (u.list.ghost_name ≡ t.list.ghost_name) × (u.places.ghost_name ≡ t.places.ghost_name) }
        ensures counts { let t = self.old in let u = self.new in tallies_at u.trues.now u.breaks.now u.list.now u.places.now u.number
            ≡ lose_one v c (tallies_at t.trues.now t.breaks.now t.list.now t.places.now t.number) }
    {
        let at = usize::from(c);
        let k = self.trues[at];
        self.trues[at] = k - 1;
        if k == 1 {
            self.breaks[v] -= 1;
            self.enter(c);
            return;
        }
        let p = usize::from(self.places[at]) ^ v;
        self.places[at] = p as u16;
        // it had two or more: two where they are below 3
        self.breaks[pick(k, 3, p, v)] += below(k, 3);
    }
}

// What one clause goes through, by a literal of term v that changes.
trait Step {
    ghost can: { ℕ → ℕ → Tallies → Type 0 };

    ghost after: { ℕ → ℕ → Tallies → Tallies };

    fn step(tallies: &mut Tallies<'_>, v: usize, c: u16)
        requires { let t = tallies.old in can v c (tallies_at t.trues.now t.breaks.now t.list.now t.places.now t.number) × (v < 65536) }
        ensures same_tables { let t = tallies.old in let u = tallies.new in (u.trues.ghost_name ≡ t.trues.ghost_name)
            × (u.breaks.ghost_name ≡ t.breaks.ghost_name) × (u.list.ghost_name ≡ t.list.ghost_name) × (u.places.ghost_name ≡ t.places.ghost_name) }
        ensures counts { let t = tallies.old in let u = tallies.new in tallies_at u.trues.now u.breaks.now u.list.now u.places.now u.number
            ≡ after v c (tallies_at t.trues.now t.breaks.now t.list.now t.places.now t.number) };
}

// The clause gains a true literal, of term v.
struct Gain;

impl Step for Gain {
    ghost can = { CanGain 65536 };

    ghost after = { gain_one };

    fn step(tallies: &mut Tallies<'_>, v: usize, c: u16) {
        tallies.gain(v, c);
    }
}

// The clause loses a true literal, of term v.
struct Lose;

impl Step for Lose {
    ghost can = { CanLose 65536 };

    ghost after = { lose_one };

    fn step(tallies: &mut Tallies<'_>, v: usize, c: u16) {
        tallies.lose(v, c);
    }
}

// The clauses of a run go through a step each, by a literal of term v.
fn run_through<S: Step>(run: &[u16], tallies: &mut Tallies<'_>, v: usize)
    requires { let t = tallies.old in CanSteps (S.can v) (S.after v) run.now (tallies_at t.trues.now t.breaks.now t.list.now t.places.now t.number)
        × (v < 65536) }
    ensures same_tables { let t = tallies.old in let u = tallies.new in (u.trues.ghost_name ≡ t.trues.ghost_name)
        × (u.breaks.ghost_name ≡ t.breaks.ghost_name) × (u.list.ghost_name ≡ t.list.ghost_name) × (u.places.ghost_name ≡ t.places.ghost_name) }
    ensures counts { let t = tallies.old in let u = tallies.new in tallies_at u.trues.now u.breaks.now u.list.now u.places.now u.number
        ≡ steps (S.after v) run.now (tallies_at t.trues.now t.breaks.now t.list.now t.places.now t.number) }
{
    for c in run {
        S::step(tallies, v, *c);
    }
}

// The literal of term v that becomes true as v is flipped.
fn up_literal(values: &[u32], v: usize) -> usize
    requires { v < 65536 }
    ensures { result ≡ up_of values.now v }
{
    2 * v + (words::value(values, v) as usize)
}

// The flip of term v: the clauses of the literal that becomes true, then those of the literal that becomes false. Gives the uncovered list's new number.
pub fn flip_term(
    values: &mut [u32],
    occurrence_starts: &[u16],
    occurrences: &[u16],
    trues: &mut [u16],
    breaks: &mut [u16],
    list: &mut [u16],
    places: &mut [u16],
    number: usize,
    v: usize,
) -> usize
    requires { CanFlip 65536 (occurring occurrence_starts.now occurrences.now) v
        (moving_at values.old trues.old breaks.old list.old places.old number) }
    ensures { moving_at values.new trues.new breaks.new list.new places.new result
        ≡ flip_term (occurring occurrence_starts.now occurrences.now) v
        (moving_at values.old trues.old breaks.old list.old places.old number) }
{
    let up = up_literal(values, v);
    words::turn(values, v);
    let mut tallies = Tallies {
        trues,
        breaks,
        list,
        places,
        number,
    };
    let gains = tables::part(occurrence_starts, occurrences, up);
    run_through::<Gain>(gains, &mut tallies, v);
    // the other literal of v
    let losses = tables::part(occurrence_starts, occurrences, up ^ 1);
    run_through::<Lose>(losses, &mut tallies, v);
    tallies.number
}

// The flips of the terms, in order. Gives the uncovered list's new number.
pub fn flip_all(
    terms: &[u16],
    values: &mut [u32],
    occurrence_starts: &[u16],
    occurrences: &[u16],
    trues: &mut [u16],
    breaks: &mut [u16],
    list: &mut [u16],
    places: &mut [u16],
    number: usize,
) -> usize
    requires { CanSteps (CanFlip 65536 (occurring occurrence_starts.now occurrences.now))
        (flip_term (occurring occurrence_starts.now occurrences.now)) terms.now
        (moving_at values.old trues.old breaks.old list.old places.old number) }
    ensures { moving_at values.new trues.new breaks.new list.new places.new result
        ≡ steps (flip_term (occurring occurrence_starts.now occurrences.now)) terms.now
        (moving_at values.old trues.old breaks.old list.old places.old number) }
{
    let mut n = number;
    for v in terms {
        n = flip_term(
            values,
            occurrence_starts,
            occurrences,
            trues,
            breaks,
            list,
            places,
            n,
            usize::from(*v),
        );
    }
    n
}
