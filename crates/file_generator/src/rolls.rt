//! Numbers that are rolled one after another.

ghost use Rattle.std.specs.Prelude.{◌≡◌, ◌≤◌, ◌<◌, ◌+◌};
ghost use Rattle.file_generator.specs.Rolls.{IsRolled, next_state, roll, rolled_colour, rolled_grey};

use blend_rules::Px;

/// What the state of 64 bits is multiplied by for the next one, before `INCREMENT` is added.
const MULTIPLIER: u64 = 6364136223846793005;

const INCREMENT: u64 = 1442695040888963407;

/// How much of the state's lower end no roll shows.
const HIDDEN: u64 = 1 << 33;

/// A die that is rolled: each of its states follows from the one before.
#[derive(Clone, Copy, Debug)]
pub(crate) struct Die {
    state: u64,
}

impl Die {
    pub(crate) fn new(state: u64) -> Die
        ensures { result.state ≡ state }
    {
        Die { state }
    }

    /// Takes the state to the next.
    #[tactic(auto, unfolding(crate::specs::Rolls::next_state))]
    fn advance(&mut self)
        ensures { self.new.state ≡ next_state self.old.state }
    {
        self.state = self.state.wrapping_mul(MULTIPLIER).wrapping_add(INCREMENT);
    }

    /// Rolls a number below `n`.
    #[tactic(auto, unfolding(crate::specs::Rolls::roll))]
    pub(crate) fn roll(&mut self, n: u16) -> u16
        requires { 0 < n }
        ensures value { IsRolled (roll n) result self.old.state self.new.state }
        ensures below { result < n }
    {
        self.advance();
        (self.state / HIDDEN % u64::from(n)) as u16
    }

    /// Rolls a byte that is at most `most`.
    pub(crate) fn byte(&mut self, most: u8) -> u8
        ensures value { IsRolled (roll (most + 1)) result self.old.state self.new.state }
        ensures most { result ≤ most }
    {
        self.roll(u16::from(most) + 1) as u8
    }

    /// Rolls a premultiplied colour.
    #[tactic(auto, unfolding(crate::specs::Rolls::rolled_colour))]
    pub(crate) fn colour(&mut self) -> Px
        ensures { IsRolled rolled_colour result self.old.state self.new.state }
    {
        let a = self.byte(255);
        let b = self.byte(a);
        let g = self.byte(a);
        let r = self.byte(a);
        Px { b, g, r, a }
    }

    /// Rolls an opaque grey.
    #[tactic(auto, unfolding(crate::specs::Rolls::rolled_grey))]
    pub(crate) fn grey(&mut self) -> Px
        ensures { IsRolled rolled_grey result self.old.state self.new.state }
    {
        let v = self.byte(255);
        Px {
            b: v,
            g: v,
            r: v,
            a: 255,
        }
    }
}
