// Even choices: a draw that would favour the first numbers is drawn again.
ghost use Rattle.std.specs.Prelude.{◌≡◌};
ghost use Rattle.draw.specs.Even.{even_of};

use crate::{Drawn, Generator, given, refused, stepped};

impl Generator {
    // A choice among m by at most eight draws, the eighth taken whatever it is.
    #[tactic(auto, unfolding(crate::specs::Even::even_of))]
    pub fn even(self, m: u32) -> Drawn
        ensures { result ≡ even_of m self.state }
    {
        if self.state == 0 || m == 0 {
            return refused(self);
        }
        let bound = m * (u32::MAX / m);
        let mut n = stepped(self.state);
        for _ in 0..7u32 {
            if n - 1 < bound {
                return given((n - 1) % m, n);
            }
            n = stepped(n);
        }
        given((n - 1) % m, n)
    }
}
