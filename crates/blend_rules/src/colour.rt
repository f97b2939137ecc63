ghost use Rattle.std.specs.Prelude.{◌≡◌, ◌↔◌, IsTrue};

use crate::Plane;

/// A premultiplied colour: blue, green, red and alpha, each 0 to 255.
#[derive(Clone, Copy, Debug, PartialEq, Eq, PartialOrd, Ord, Hash)]
pub struct Px {
    pub b: u8,
    pub g: u8,
    pub r: u8,
    pub a: u8,
}

impl Px {
    ghost use Rattle.blend_rules.specs.Colour.{IsPremultiplied, is_premultiplied};
    ghost use Rattle.blend_rules.specs.Planes.{channel};

    /// The colour without any light or cover.
    pub const CLEAR: Px = Px {
        b: 0,
        g: 0,
        r: 0,
        a: 0,
    };

    /// Whether no colour byte exceeds alpha.
    #[tactic(auto, using(crate::proofs::Premultiplied::premultiplied_tests), unfolding(crate::specs::Colour::is_premultiplied))]
    pub fn is_premultiplied(self) -> bool
        ensures value { result ≡ is_premultiplied self }
        ensures fact { IsTrue result ↔ IsPremultiplied self }
    {
        self.b <= self.a && self.g <= self.a && self.r <= self.a
    }

    /// Its byte in a plane.
    pub fn channel(self, plane: Plane) -> u8
        ensures { result ≡ channel plane self }
    {
        match plane {
            Plane::B => self.b,
            Plane::G => self.g,
            Plane::R => self.r,
            Plane::A => self.a,
        }
    }
}
