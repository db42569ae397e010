// Drawing and choosing for C, each asked for alone.
ghost use Rattle.std.specs.Prelude.{◌≡◌};
ghost use Rattle.draw.specs.Draw.{draw_of, choice_of, heads_of};
ghost use Rattle.draw.specs.Even.{even_of};
ghost use Rattle.answers.specs.Answers.{draw_answer};

use answers::draws::DrawAnswer;

// One draw.
#[unsafe(no_mangle)]
pub extern "C" fn ngi_draw(state: u32) -> DrawAnswer
    ensures { result ≡ draw_answer (draw_of state) }
{
    ngiyarumba::draws::ngi_draw(state)
}

// A choice among m, counted from 0.
#[unsafe(no_mangle)]
pub extern "C" fn ngi_choice(state: u32, m: u32) -> DrawAnswer
    ensures { result ≡ draw_answer (choice_of m state) }
{
    ngiyarumba::draws::ngi_choice(state, m)
}

// An even choice among m, counted from 0.
#[unsafe(no_mangle)]
pub extern "C" fn ngi_choice_even(state: u32, m: u32) -> DrawAnswer
    ensures { result ≡ draw_answer (even_of m state) }
{
    ngiyarumba::draws::ngi_choice_even(state, m)
}

// 1 for heads, with the bias in thousandths, else 0.
#[unsafe(no_mangle)]
pub extern "C" fn ngi_heads(state: u32, bias: u32) -> DrawAnswer
    ensures { result ≡ draw_answer (heads_of bias state) }
{
    ngiyarumba::draws::ngi_heads(state, bias)
}
