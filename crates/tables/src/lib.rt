// The lent tables: whether they are full, how a clause and a literal are read from them, and what is done to one in one place or from its start on.
// A function that another crate of the library calls may ask something of its tables, by one record, which its caller proves; none is exported.

#![tactic(auto)]

ghost use Rattle.std.specs.Prelude.{◌≡◌, ℕ, ◌^◌, ◌<◌, get_or};
ghost use Rattle.written.specs.Lists.{total};
ghost use Rattle.written.specs.Limits.{narrow};
ghost use Rattle.written.specs.Lending.{lent_at};
ghost use Rattle.written.specs.Tables.{are_full};
ghost use Rattle.written.specs.Marks.{full_marked};
ghost use Rattle.written.specs.Agreement.{part_of};
ghost use Rattle.machine.specs.Literals.{value_in, term_if, xor_true};
ghost use Rattle.machine.specs.Moving.{CanPart};
ghost use Rattle.machine.specs.Passes.{set_below};
ghost use Rattle.machine.specs.Tallies.{raised, hit_of, CanRaise};
ghost use Rattle.machine.specs.Uncovered.{uncovered, enters, CanEnter};

// ---- the ten together

// The ten lent tables, as they are looked at.
#[derive(Clone, Copy)]
pub struct Tables<'a> {
    pub names: &'a [u64],
    pub values: &'a [u32],
    pub starts: &'a [u16],
    pub literals: &'a [u16],
    pub occurrence_starts: &'a [u16],
    pub occurrences: &'a [u16],
    pub trues: &'a [u16],
    pub breaks: &'a [u16],
    pub uncovered: &'a [u16],
    pub places: &'a [u16],
    // what the type of `values` says
    pub ghost words_fit: { (k : ℕ) → get_or values.now k 0 < 2 ^ 32 },
}

impl Tables<'_> {
    // None of the ten is shorter than its full size (reason 1).
    pub fn are_full(self) -> bool
        ensures { let t = self.entry in result ≡ are_full narrow
            (lent_at t.names.now t.values.now t.starts.now t.literals.now t.occurrence_starts.now t.occurrences.now t.trues.now
            t.breaks.now t.uncovered.now t.places.now) }
    {
        (self.names.len() >= 2048)
            & (self.values.len() >= 64)
            & (self.starts.len() >= 8193)
            & (self.literals.len() >= 16384)
            & (self.occurrence_starts.len() >= 4097)
            & (self.occurrences.len() >= 16384)
            & (self.trues.len() >= 8192)
            & (self.breaks.len() >= 2048)
            & (self.uncovered.len() >= 8192)
            & (self.places.len() >= 8192)
    }

    // With the marks of terms, which are lent beside the ten.
    pub fn all_full(self, marks: &[u8]) -> bool
        ensures { let t = self.entry in result ≡ full_marked narrow
            (lent_at t.names.now t.values.now t.starts.now t.literals.now t.occurrence_starts.now t.occurrences.now t.trues.now
            t.breaks.now t.uncovered.now t.places.now)
            marks.now }
    {
        self.are_full() & (marks.len() >= 2048)
    }
}

// ---- reading a clause

// The value of a literal.
fn literal_value(words: &[u32], l: u16) -> u32
    ensures { result ≡ value_in words.now l }
{
    (words::value(words, usize::from(l / 2)) + usize::from(l % 2) as u32) % 2
}

// How many literals of a clause are true.
pub fn true_count(words: &[u32], clause: &[u16]) -> usize
    ensures { result ≡ total (value_in words.now) clause.now }
{
    let mut count: usize = 0;
    for l in clause {
        count += literal_value(words, *l) as usize;
    }
    count
}

// The term of a literal that is true, else 0.
fn term_if(words: &[u32], l: u16) -> u16
    ensures { result ≡ term_if (value_in words.now) l }
{
    if literal_value(words, l) == 1 {
        l / 2
    } else {
        0
    }
}

// The terms of a clause's true literals, all xored.
pub fn xor_true(words: &[u32], clause: &[u16]) -> u16
    ensures { result ≡ xor_true (value_in words.now) clause.now }
{
    let mut terms: u16 = 0;
    for l in clause {
        terms ^= term_if(words, *l);
    }
    terms
}

// 1 for a count of m, else 0: no jump need be made on it.
pub fn one_for(count: u16, m: u16) -> usize
    ensures { result ≡ hit_of count m }
{
    usize::from(count == m)
}

// Part k of the items, by the starts.
pub fn part<'a>(starts: &[u16], items: &'a [u16], k: usize) -> &'a [u16]
    requires { CanPart starts.now items.now k }
    ensures { result.now ≡ part_of starts.now items.now k }
{
    let from = usize::from(starts[k]);
    let to = usize::from(starts[k + 1]);
    &items[from..to]
}

// ---- writing

// One more at k.
pub fn raise(counts: &mut [u16], k: usize)
    requires { CanRaise 65536 counts.old k }
    ensures { counts.new ≡ raised counts.old k }
{
    counts[k] += 1;
}

// Clause c put at the end of the uncovered list; the new number of its entries.
pub fn enter(list: &mut [u16], places: &mut [u16], number: usize, c: u16) -> usize
    requires { CanEnter 65536 c (uncovered list.old places.old number) }
    ensures { uncovered list.new places.new result ≡ enters c (uncovered list.old places.old number) }
{
    list[number] = c;
    places[usize::from(c)] = number as u16;
    number + 1
}

// The first n entries become zero, all of them in a shorter table.
pub fn clear<T: Copy>(table: &mut [T], n: usize, zero: T)
    ensures { table.new ≡ set_below zero n table.old }
{
    let last = words::least(n, table.len());
    for entry in &mut table[..last] {
        *entry = zero;
    }
}
