ghost use Rattle.std.specs.Prelude.{◌≡◌, ◌<◌, ◌↔◌, IsNone, IfSome};

/// A blend mode, numbered from 0 in this order.
#[derive(Clone, Copy, Debug, PartialEq, Eq, PartialOrd, Ord, Hash)]
pub enum Mode {
    Normal,
    Multiply,
    Screen,
    Overlay,
    Darken,
    Lighten,
    HardLight,
    Difference,
    Exclusion,
}

impl Mode {
    ghost use Rattle.blend_rules.specs.Colour.{mode_number};

    /// The mode of a number. `None` where the number is above 8.
    pub fn from_byte(n: u8) -> Option<Mode>
        ensures none { IsNone result ↔ (8 < n) }
        ensures mode { IfSome result (λ m. mode_number m ≡ n) }
    {
        match n {
            0 => Some(Mode::Normal),
            1 => Some(Mode::Multiply),
            2 => Some(Mode::Screen),
            3 => Some(Mode::Overlay),
            4 => Some(Mode::Darken),
            5 => Some(Mode::Lighten),
            6 => Some(Mode::HardLight),
            7 => Some(Mode::Difference),
            8 => Some(Mode::Exclusion),
            _ => None,
        }
    }
}
