// The counts of the clauses worked out afresh, and the places of the covered clauses made those for walking and back.
// A function that another crate of the library calls may ask something of its tables, by one record, which its caller proves; none is exported.

#![tactic(auto)]

ghost use Rattle.std.specs.Prelude.{◌≡◌, ◌<◌, length, get_or, set};
ghost use Rattle.machine.specs.Moving.{view, CanPart};
ghost use Rattle.machine.specs.Passes.{rewritten, walk_place, rest_place, CanOpen, CanClose, count_one, CanCount, blank, counted, CanCountAll, CanRecount};
ghost use Rattle.machine.specs.Tallies.{tallies_at};

// The place of clause c for walking.
fn open_one(
    c: usize,
    values: &[u32],
    starts: &[u16],
    literals: &[u16],
    trues: &[u16],
    places: &mut [u16],
)
    requires { CanPart starts.now literals.now c × (c < length trues.now) × (c < length places.old) }
    ensures { places.new
        ≡ set places.old c (walk_place (view values.now starts.now literals.now) trues.now c
        (get_or places.old c 0)) }
{
    if trues[c] != 0 {
        places[c] = tables::xor_true(values, tables::part(starts, literals, c));
    }
}

// The places of written tables made those for walking.
pub fn open_all(
    clauses: usize,
    values: &[u32],
    starts: &[u16],
    literals: &[u16],
    trues: &[u16],
    places: &mut [u16],
)
    requires { CanOpen clauses (view values.now starts.now literals.now) trues.now places.old }
    ensures { places.new
        ≡ rewritten (walk_place (view values.now starts.now literals.now) trues.now) clauses
        places.old }
{
    for c in 0..clauses {
        open_one(c, values, starts, literals, trues, places);
    }
}

// The place of clause c in written tables.
fn close_one(c: usize, trues: &[u16], places: &mut [u16])
    requires { (c < length trues.now) × (c < length places.old) }
    ensures { places.new ≡ set places.old c (rest_place trues.now c (get_or places.old c 0)) }
{
    if trues[c] != 0 {
        places[c] = 0;
    }
}

// The places for walking made those of written tables.
pub fn close_all(clauses: usize, trues: &[u16], places: &mut [u16])
    requires { CanClose clauses trues.now places.old }
    ensures { places.new ≡ rewritten (rest_place trues.now) clauses places.old }
{
    for c in 0..clauses {
        close_one(c, trues, places);
    }
}

// Clause c counted, for walking; the new number of uncovered clauses.
fn count_one(
    c: usize,
    values: &[u32],
    starts: &[u16],
    literals: &[u16],
    trues: &mut [u16],
    breaks: &mut [u16],
    list: &mut [u16],
    places: &mut [u16],
    number: usize,
) -> usize
    requires { CanCount 65536 (view values.now starts.now literals.now) c (tallies_at trues.old breaks.old list.old places.old number) }
    ensures { tallies_at trues.new breaks.new list.new places.new result
        ≡ count_one (view values.now starts.now literals.now) c
        (tallies_at trues.old breaks.old list.old places.old number) }
{
    let clause = tables::part(starts, literals, c);
    let k = tables::true_count(values, clause);
    trues[c] = k as u16;
    if k == 0 {
        return tables::enter(list, places, number, c as u16);
    }
    let x = tables::xor_true(values, clause);
    places[c] = x;
    if k == 1 {
        tables::raise(breaks, usize::from(x));
    }
    number
}

// Every clause counted, for walking, into tables that hold no break and no uncovered clause; the number of these.
fn count_all(
    clauses: usize,
    values: &[u32],
    starts: &[u16],
    literals: &[u16],
    trues: &mut [u16],
    breaks: &mut [u16],
    list: &mut [u16],
    places: &mut [u16],
) -> usize
    requires { CanCountAll 65536 clauses (view values.now starts.now literals.now) (tallies_at trues.old breaks.old list.old places.old 0) }
    ensures { tallies_at trues.new breaks.new list.new places.new result
        ≡ counted clauses (view values.now starts.now literals.now)
        (tallies_at trues.old breaks.old list.old places.old 0) }
{
    let mut number = 0;
    for c in 0..clauses {
        number = count_one(
            c, values, starts, literals, trues, breaks, list, places, number,
        );
    }
    number
}

// The counts of the clauses at the values that stand, worked out afresh for walking; the number of uncovered clauses.
pub fn count_afresh(
    terms: usize,
    clauses: usize,
    values: &[u32],
    starts: &[u16],
    literals: &[u16],
    trues: &mut [u16],
    breaks: &mut [u16],
    list: &mut [u16],
    places: &mut [u16],
) -> usize
    requires { CanRecount 65536 clauses terms (view values.now starts.now literals.now) (tallies_at trues.old breaks.old list.old places.old 0) }
    ensures { tallies_at trues.new breaks.new list.new places.new result
        ≡ counted clauses (view values.now starts.now literals.now)
        (blank clauses terms (tallies_at trues.old breaks.old list.old places.old 0)) }
{
    tables::clear(breaks, terms, 0);
    tables::clear(list, clauses, 0);
    count_all(
        clauses, values, starts, literals, trues, breaks, list, places,
    )
}
