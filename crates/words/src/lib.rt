// The value words: 32 terms to a word, low bit first. Every index is allowed: past the words a value is 0, and nothing is written.

#![tactic(auto)]

ghost use Rattle.std.specs.Prelude.{◌≡◌, cond, ◌-◌, ◌*◌, min, eqb};
ghost use Rattle.words.specs.Words.{bit_at, turn_at, hold_at, keep_low, put_at, trues, filled, state_after, word_count};

use draw::Generator;

// The value of the term t.
#[tactic(auto, unfolding(crate::specs::Words::bit_at, crate::specs::Words::bit_of))]
pub fn value(words: &[u32], t: usize) -> u32
    ensures { result ≡ bit_at words.now t }
{
    match words.get(t / 32) {
        Some(word) => (word >> (t % 32)) & 1,
        None => 0,
    }
}

// Turns the value of the term t.
pub fn turn(words: &mut [u32], t: usize)
    ensures { words.new ≡ turn_at words.old t }
{
    let k = t / 32;
    // no get_mut: of what is written through one a proof knows the length alone
    if k < words.len() {
        words[k] ^= 1 << (t % 32);
    }
}

// The value that a mark other than 0 gives.
fn pinned(mark: u8) -> u32
    ensures { result ≡ cond (eqb mark 1) 0 1 }
{
    if mark == 1 { 0 } else { 1 }
}

// Gives the term t the value of its mark: 0 leaves it, 1 puts 0, any other 1.
#[tactic(auto, unfolding(crate::specs::Words::hold_at))]
pub fn hold(words: &mut [u32], t: usize, mark: u8)
    ensures { words.new ≡ hold_at words.old t mark }
{
    if mark != 0 && value(words, t) != pinned(mark) {
        turn(words, t);
    }
}

// The bits of w that belong to the terms of word k, of n terms.
fn kept(n: usize, k: usize, w: u32) -> u32
    ensures { result ≡ keep_low (n - 32 * k) w }
{
    if k < n / 32 {
        w
    } else if k == n / 32 {
        w & ((1 << (n % 32)) - 1)
    } else {
        0
    }
}

// Puts the drawn word w at k. The bits past the last of the n terms are cleared.
pub fn put(words: &mut [u32], n: usize, k: usize, w: u32)
    ensures { words.new ≡ put_at words.old n k w }
{
    // no get_mut, as in turn
    if k < words.len() {
        words[k] = kept(n, k, w);
    }
}

// The smaller of the two.
pub fn least(a: usize, b: usize) -> usize
    ensures { result ≡ min a b }
{
    a.min(b)
}

// How many terms of the first `count` words are true.
pub fn chosen(words: &[u32], count: u16) -> u32
    ensures { result ≡ trues words.now (32 * count) }
{
    let last = least(usize::from(count), words.len());
    let mut n: u32 = 0;
    for word in &words[..last] {
        n += word.count_ones();
    }
    n
}

// Draws the values of n terms: one draw for every 32, or the part of 32 at the end.
pub fn fill(words: &mut [u32], n: usize, g: Generator) -> Generator
    ensures { (result.state ≡ state_after g.state (word_count n))
        × (words.new ≡ filled words.old n g.state (word_count n)) }
{
    let mut at = g;
    for k in 0..n.div_ceil(32) {
        let drawn = at.drawn();
        put(words, n, k, drawn.number);
        at = drawn.next;
    }
    at
}
