//! Numbers that look random, and are the same each time.

ghost use Rattle.std.specs.Prelude.{◌<◌};

/// What the next number is made of.
#[derive(Drop)]
pub struct Rolls {
    state: u64,
}

impl Rolls {
    pub fn new(seed: u64) -> Rolls {
        Rolls { state: seed }
    }

    /// A number below `end`, which isn't 0.
    pub fn below(&mut self, end: u8) -> u8
        requires { 0 < end }
        ensures { result < end }
    {
        let factor = 6_364_136_223_846_793_005;
        let next = self.state.wrapping_mul(factor);
        self.state = next.wrapping_add(1_442_695_040_888_963_407);
        ((self.state >> 33) % u64::from(end)) as u8
    }

    /// One of these numbers, or 0 where there is none.
    pub fn one_of(&mut self, numbers: [u16; 4]) -> u16 {
        numbers[usize::from(self.below(4))]
    }

    /// A premultiplied colour, opaque half the time.
    pub fn colour(&mut self) -> [u8; 4] {
        let alpha = if self.below(2) == 0 {
            255
        } else {
            self.below(255)
        };
        let half = alpha / 2 + 1;
        [self.below(half), self.below(half), self.below(half), alpha]
    }
}
