// Drawing and choosing over the boundary, each asked for alone.
ghost use Rattle.std.specs.Prelude.{◌≡◌};
ghost use Rattle.draw.specs.Draw.{draw_of, choice_of, heads_of};
ghost use Rattle.draw.specs.Even.{even_of};
ghost use Rattle.answers.specs.Answers.{draw_answer};

use answers::draws::DrawAnswer;

// One draw.
pub fn ngi_draw(state: u32) -> DrawAnswer
    ensures { result ≡ draw_answer (draw_of state) }
{
    answers::draws::drawn(state)
}

// A choice among m, counted from 0.
pub fn ngi_choice(state: u32, m: u32) -> DrawAnswer
    ensures { result ≡ draw_answer (choice_of m state) }
{
    answers::draws::choice(state, m)
}

// An even choice among m, counted from 0.
pub fn ngi_choice_even(state: u32, m: u32) -> DrawAnswer
    ensures { result ≡ draw_answer (even_of m state) }
{
    answers::draws::choice_even(state, m)
}

// 1 for heads, with the bias in thousandths, else 0.
pub fn ngi_heads(state: u32, bias: u32) -> DrawAnswer
    ensures { result ≡ draw_answer (heads_of bias state) }
{
    answers::draws::heads(state, bias)
}
