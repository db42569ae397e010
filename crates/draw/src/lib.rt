// Drawing and choosing: a generator by value, whose methods hand back the number and the next state.

#![tactic(auto)]

ghost use Rattle.std.specs.Prelude.{◌≡◌};
ghost use Rattle.draw.specs.Xorshift.{next_of};
ghost use Rattle.draw.specs.Draw.{refused_at, drawn_to, draw_of, choice_of, heads_of};

pub mod even;

#[derive(Clone, Copy)]
pub struct Generator {
    pub state: u32,
}

// A number that was asked for: reason 0, or 11 with the number 0 and the state as it was.
// No Result: the paper's refusal has a number and a state too, and the definitions of a walk take both of every draw.
#[derive(Clone, Copy)]
pub struct Drawn {
    pub reason: u32,
    pub number: u32,
    pub next: Generator,
}

// The state after y.
#[tactic(auto, unfolding(crate::specs::Xorshift::next_of, crate::specs::Xorshift::left_step, crate::specs::Xorshift::right_step))]
pub fn stepped(y: u32) -> u32
    ensures { result ≡ next_of y }
{
    let a = y ^ (y << 13);
    let b = a ^ (a >> 17);
    b ^ (b << 5)
}

fn refused(g: Generator) -> Drawn
    ensures { result ≡ refused_at g.state }
{
    Drawn {
        reason: 11,
        number: 0,
        next: g,
    }
}

// The number that the draw y gives; y is the next state.
fn given(number: u32, y: u32) -> Drawn
    ensures { result ≡ drawn_to y number }
{
    Drawn {
        reason: 0,
        number,
        next: Generator { state: y },
    }
}

impl Generator {
    pub fn new(seed: u32) -> Self
        ensures { result.state ≡ seed }
    {
        Generator { state: seed }
    }

    #[tactic(auto, unfolding(crate::specs::Draw::draw_of))]
    pub fn drawn(self) -> Drawn
        ensures { result ≡ draw_of self.state }
    {
        if self.state == 0 {
            return refused(self);
        }
        let n = stepped(self.state);
        given(n, n)
    }

    #[tactic(auto, unfolding(crate::specs::Draw::choice_of))]
    pub fn choice(self, m: u32) -> Drawn
        ensures { result ≡ choice_of m self.state }
    {
        if self.state == 0 || m == 0 {
            return refused(self);
        }
        let n = stepped(self.state);
        given(n % m, n)
    }

    #[tactic(auto, unfolding(crate::specs::Draw::heads_of))]
    pub fn heads(self, bias: u32) -> Drawn
        ensures { result ≡ heads_of bias self.state }
    {
        if self.state == 0 || 1000 < bias {
            return refused(self);
        }
        let n = stepped(self.state);
        given(u32::from(n % 1000 < bias), n)
    }
}

// Moves the lent generator on, and gives the number. From the state 0 the number is 0, and the state stays.
pub fn draw(g: &mut Generator) -> u32
    ensures { (result ≡ (draw_of g.old.state).number) × (g.new ≡ (draw_of g.old.state).next) }
{
    let n = stepped(g.state);
    g.state = n;
    n
}

// The number of one draw from the seed, by a generator that is lent: plain parameters, so that whoever calls this is proved as any other code.
pub fn draw_from(seed: u32) -> u32
    ensures { result ≡ (draw_of seed).number }
{
    let mut g = Generator { state: seed };
    draw(&mut g)
}
