//! Numbers that look random, the same in each run.
ghost use Rattle.std.specs.Prelude.{◌<◌};

use vx_vector::{FINE, NULL};

/// A linear congruence of 64 bits, by Knuth's multiplier.
#[derive(Drop)]
pub struct Draws {
    state: u64,
}

impl Draws {
    pub fn new() -> Draws {
        Draws { state: 1 }
    }

    /// The next number below a bound.
    pub fn below(&mut self, bound: u32) -> u32
        requires { 0 < bound }
        ensures { result < bound }
    {
        self.state = self
            .state
            .wrapping_mul(6_364_136_223_846_793_005)
            .wrapping_add(1);
        ((self.state >> 33) % u64::from(bound)) as u32
    }

    /// The next number from `-top` to `top`.
    pub fn around_zero(&mut self, top: u16) -> i64 {
        let drawn = self.below(2 * u32::from(top) + 1);
        i64::from(drawn) - i64::from(top)
    }

    /// The mark of a null, once in 16 draws.
    pub fn mark(&mut self) -> u8 {
        if self.below(16) == 0 { NULL } else { FINE }
    }
}
