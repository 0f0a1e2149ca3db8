// Numbers drawn one after another: what is drawn hangs on the seed alone.
#![tactic(auto)]

ghost use Rattle.std.specs.Prelude.{◌≡◌, ℕ, ◌^◌, ◌<◌};
ghost use Rattle.draws.specs.Draws.{seed, step, drawn_below};

use std::marker::Model;

// A xorshift generator of 64 bits. Contracts see its state.
#[derive(Drop)]
pub struct Generator {
    state: u64,
}

impl Model for Generator {
    ghost Value = { ℕ };

    ghost view = { λ g. g.state };
}

// Three shifts, each xored in.
fn step(x: u64) -> u64
    ensures { result ≡ step x }
{
    let x = x ^ (x << 13);
    let x = x ^ (x >> 7);
    x ^ (x << 17)
}

impl Generator {
    pub fn seeded(n: u64) -> Generator
        ensures { result ≡ seed n }
    {
        Generator {
            state: n.wrapping_add(1).wrapping_mul(0x9e37_79b9_7f4a_7c15),
        }
    }

    // A number below n, of the top 31 bits of the next state, and 0 where n is 0.
    pub fn below(&mut self, n: u64) -> u32
        ensures value { result ≡ drawn_below n self.new }
        ensures state { self.new ≡ step self.old }
        ensures below { 0 < n → result < n }
        ensures small { result < 2 ^ 31 }
        ensures none { n ≡ 0 → result ≡ 0 }
    {
        self.state = step(self.state);
        let x = self.state >> 33;
        if n == 0 { 0 } else { (x % n) as u32 }
    }
}
