// Drawing and choosing, each asked for alone.
ghost use Rattle.std.specs.Prelude.{◌≡◌};
ghost use Rattle.draw.specs.Draw.{draw_of, choice_of, heads_of};
ghost use Rattle.draw.specs.Even.{even_of};
ghost use Rattle.answers.specs.Answers.{draw_answer};

use draw::{Drawn, Generator};

// Reason 0, or 11 with the number 0 and the state as it was.
#[repr(C)]
#[derive(Clone, Copy)]
pub struct DrawAnswer {
    pub reason: u32,
    pub number: u32,
    pub state: u32,
}

pub fn draw_answer(d: Drawn) -> DrawAnswer
    ensures { result ≡ draw_answer d }
{
    let next = d.next;
    DrawAnswer {
        reason: d.reason,
        number: d.number,
        state: next.state,
    }
}

// One draw.
pub fn drawn(state: u32) -> DrawAnswer
    ensures { result ≡ draw_answer (draw_of state) }
{
    let g = Generator::new(state);
    draw_answer(g.drawn())
}

// A choice among m, counted from 0.
pub fn choice(state: u32, m: u32) -> DrawAnswer
    ensures { result ≡ draw_answer (choice_of m state) }
{
    let g = Generator::new(state);
    draw_answer(g.choice(m))
}

// An even choice among m, counted from 0.
pub fn choice_even(state: u32, m: u32) -> DrawAnswer
    ensures { result ≡ draw_answer (even_of m state) }
{
    let g = Generator::new(state);
    draw_answer(g.even(m))
}

// 1 for heads, with the bias in thousandths, else 0.
pub fn heads(state: u32, bias: u32) -> DrawAnswer
    ensures { result ≡ draw_answer (heads_of bias state) }
{
    let g = Generator::new(state);
    draw_answer(g.heads(bias))
}
